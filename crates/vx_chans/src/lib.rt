//! The channels of a process to units and mailboxes: 64 numbered places.
#![tactic(auto)]

mod chans;
mod row;
mod snapshot;

pub use chans::{ChanFail, Chans};
pub use snapshot::ChansSnapshot;
