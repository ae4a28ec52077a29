//! The commands of the program `vms`: what its words ask for, from a source of bytes to a sink of bytes.
//!
//! `vms_call` is the call that the program makes; its contract says all that the program may answer and write. It hands the words of
//! `run` to `run_input`, which starts threads that may wait for one another, and all other words to `quiet_call`, which waits for
//! nobody. `explore`, `judge` and `run_input` take an input that was read.
#![tactic(auto)]

mod call;
mod judging;
mod program;
mod show;
mod survey;
mod threads;
mod verdict;

pub use call::quiet_call;
pub use judging::judge;
pub use program::vms_call;
pub use survey::explore;
pub use threads::run_input;
