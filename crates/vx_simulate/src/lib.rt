//! `sim` and `gen`: takes one run of a system, and writes its transcript or its summary.
//!
//! `simulate` takes the run that a seed chooses of a script that was read, and writes the transcript as the run goes; `follow` takes the
//! one that a list of places chooses, as `run_picks` takes it of a system; and `summarize` that of a generated system, of which it writes
//! the summary alone.
#![tactic(auto)]

mod by_places;
mod by_seed;
mod places;
mod schedule;
mod summary;

pub use by_places::follow;
pub use by_seed::simulate;
pub use schedule::{PickFail, run_picks};
pub use summary::summarize;
