//! Transcripts judged: whether the records are a run of the script's system, and the trailer is the machine's after them.
//!
//! `check_text` takes the records of a text one after another through an executive, line by line, and keeps none of them: each costs
//! the question whether its event is enabled, one step, and a comparison. `check` does the same with a transcript that was read whole.
//! `specs/Verdict.antt` says what the verdict is, in the machine's words alone.
#![tactic(auto)]

mod checking;
mod course;
mod following;
mod law;
mod text;
mod verdict;

pub use checking::check;
pub use law::{
    an_ended_text_is_the_transcript, no_transcript_has_two_verdicts,
    the_transcript_of_a_run_is_judged_by_its_end,
};
pub use text::check_text;
pub use verdict::Verdict;
