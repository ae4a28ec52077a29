//! How a service that may wait went.

use vx_base::Cond;

/// What a service came to.
#[derive(Clone, Copy, Debug, PartialEq, Eq)]
pub enum Served {
    /// It answered a condition.
    Answered(Cond),
    /// It waits: what for stands in the top frame of its process.
    Waits,
}
