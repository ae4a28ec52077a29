//! What a call of the program tells: its status, and the lines that stand in place of what was asked for.
#![tactic(auto)]

mod lines;
mod output;
mod status;
mod write;

pub use lines::{fault_line, form_line};
pub use output::{Output, refusal};
pub use status::Status;
pub use write::{MOST_INPUT, tell, tell_no_memory, tell_output, tell_unread};
