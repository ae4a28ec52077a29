//! Every run of a machine up to a number of steps, summed up by how the runs end.
//!
//! `machine.rt` and `ending.rt` have what a machine offers. `specs/Runs.antt` defines its runs and their summary. `exploring.rt`
//! computes the summary level by level and merges equal states (`step.rt`, `level.rt`): one machine takes all the steps, and its state is put
//! away if it is new. The contract of `explore` speaks of none of that.
#![tactic(auto)]

mod answer;
mod ending;
mod exploring;
mod found;
mod level;
mod machine;
mod step;
mod told;

pub use answer::Answer;
pub use ending::Ending;
pub use exploring::explore;
pub use found::{Found, Picks};
pub use machine::Machine;
