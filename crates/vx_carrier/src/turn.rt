//! What a turn came to.

use vx_base::End;
use vx_units::UnitLease;

/// What a turn at the executive came to.
#[derive(Drop)]
pub enum Turn {
    /// An event was taken, and after a BEG its unit is handed out.
    Took(Option<UnitLease>),
    /// Every enabled event is a DON, which comes with its unit.
    Nothing,
    /// The service of what was given back is no longer out.
    Stale,
    /// The run has ended so.
    Ended(End),
    /// Memory was short, and nothing has changed.
    NoMemory,
}
