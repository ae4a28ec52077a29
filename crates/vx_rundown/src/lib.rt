//! How processes leave: exit ($EXIT), exit handlers ($DCLEXH, $CANEXH), and rundown, step by step.
//!
//! Each call does what the machine's definitions say: it logs their effects and leaves their state. No call takes memory.
#![tactic(auto)]

mod deletion;
mod handlers;
mod leave;
mod mode;
mod rundown;

pub use deletion::delprc;
pub use handlers::{canexh, dclexh};
pub use leave::exit;
pub use rundown::rundown_step;
