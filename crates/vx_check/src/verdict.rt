//! The verdict.

/// What a transcript is found to be.
#[derive(Clone, Copy)]
pub enum Verdict {
    /// So many records and the trailer are the machine's, and the run has ended with every process deleted.
    Complete(u32),
    /// So many records and the trailer are the machine's, and the run has ended with a process that is not deleted and nothing enabled.
    Hung(u32),
    /// So many records and the trailer are the machine's, and an event is enabled after them: the run ended at its limit.
    Limit(u32),
    /// So many records are the machine's, and the transcript has no trailer.
    Prefix(u32),
    /// The record of this number is the first that is not the machine's. One more than the number of records stands for the trailer.
    Bad(u32),
}
