//! Refusals.

/// Why a call on common clusters is refused.
#[derive(Clone, Copy, Debug, PartialEq, Eq)]
pub enum AscFail {
    /// The event flag is of no common cluster.
    IllEfc,
    /// The privilege PRMCEB is missing.
    NoPriv,
}
