//! The flags of one cluster.

/// The lowest 32 flags as bits, and whether a higher one is set: records of no run may name such a flag.
#[derive(Clone, Copy)]
pub struct Word {
    pub bits: u32,
    pub beyond: bool,
}
