//! The trailer of an executive's run, printed: how the processes stand, what the units have put out, and how the run has ended; and all
//! that stands behind the script in the transcript of a run.
#![tactic(auto)]

mod outcome;
mod run;
mod trailer;

pub use outcome::print_outcome;
pub use run::print_run;
pub use trailer::print_trailer;
