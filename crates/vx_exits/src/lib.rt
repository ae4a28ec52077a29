//! The exit handlers of a process, which are entered when it exits, the newest first.
//!
//! A routine that is declared comes out once at most, with its tag: when it is cancelled, or when it is entered.
#![tactic(auto)]

mod declared;
mod exits;
mod snapshot;

pub use exits::{ExitFail, Exits};
pub use snapshot::ExitsSnapshot;
