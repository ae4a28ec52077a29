//! How all runs of a system end.
//!
//! `endings` takes every enabled event at every record, up to a limit of records. It tells each ending once, with the shortest run that
//! ends so and the number of runs. `specs/Interleavings.antt` has all runs as a plain list, and `specs/Endings.antt` how they end
//! and the summary. `law.rt` says in the machine's own words what the summary tells. `machine.rt` is the executive as a machine of
//! `vx_explore`; no contract but its own speaks of it. `print_answer` writes what a user reads.
#![tactic(auto)]

mod ending;
mod example;
mod exploring;
mod law;
mod machine;
mod print;
mod worst;

pub use ending::RunEnding;
pub use example::two_processes_example;
pub use exploring::endings;
pub use law::{every_row_has_a_run, every_run_has_a_row, no_run_is_shorter};
pub use print::print_answer;
pub use worst::worst_end;
