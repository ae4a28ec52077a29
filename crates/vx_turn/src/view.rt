//! What a seat knows. Contracts speak of it; no value of it is made.

use std::collections::LinkedList;

/// Where a seat stands.
pub enum Stage {
    /// It waits for nothing.
    Idle,
    /// It waits with this ticket.
    Waiting(u64),
    /// It has the value, by this ticket.
    Inside(u64),
}

/// What a seat knows of the lock.
pub struct View<E> {
    /// How many seats it stands for: itself, and those that it took in.
    pub parts: u64,
    /// Where it stands.
    pub stage: Stage,
    /// The history that it has seen.
    pub seen: LinkedList<E>,
    /// The places of the entries that it left, each with its entry.
    pub own: LinkedList<(u64, E)>,
    /// What seats that it took in have left.
    pub gathered: LinkedList<LinkedList<(u64, E)>>,
}
