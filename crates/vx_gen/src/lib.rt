//! The generated system, and the summary of a run.
//!
//! `generate` makes a system of any size by one number: that many processes send messages to one that writes them to a disk.
//! `Tally` counts what records tell, one record at a time, and keeps none.
#![tactic(auto)]

mod statements;
mod system;
mod tally;

pub use system::generate;
pub use tally::Tally;
