//! What runs come to.

use vx_base::Sequence;

/// Which of the enabled events a run took at each step, by its place from 0.
pub type Picks = Sequence<u32>;

/// What some runs come to, how many do, and which is the first.
#[derive(Drop)]
pub struct Found<T> {
    /// The state or the ending.
    pub what: T,
    /// The number of runs. It stays at the largest `u64`.
    pub ways: u64,
    /// The picks of the first run.
    pub picks: Picks,
}
