//! Refusals that hand a routine back.

use vx_base::Cond;

/// A service refused, with this condition, and hands back the routine that it was given.
#[derive(Drop)]
pub struct Refused<R> {
    pub cond: Cond,
    pub ast: Option<R>,
}
