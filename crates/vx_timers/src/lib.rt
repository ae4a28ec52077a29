//! Timers and scheduled wakes.
//!
//! A timer ($SETIMR) sets an event flag and queues an AST when its time comes; a scheduled wake ($SCHDWK) wakes a process,
//! once or again and again. Both stand here until they fall due or are cancelled ($CANTIM, $CANWAK). Contracts see one list
//! in the order of opening, and how many entries there is room for. Times are in ticks.
#![tactic(auto)]

mod due;
mod places;
mod round;
mod snapshot;
mod timers;

pub use due::{Due, Falls, What, Which};
pub use snapshot::TimersSnapshot;
pub use timers::Timers;
