//! The queue of ASTs of one process.
//!
//! An AST that was declared ($DCLAST), or that a request, a timer or a mailbox promised, is queued here and waits until it
//! may start: delivery must be enabled in its mode ($SETAST), the process must not run further in, and no AST of that mode
//! or an inner one may be active. Contracts see one list in order of queuing, the four enables, and how many ASTs there is
//! room for: `specs/Queue.antt`.
#![tactic(auto)]

mod by_mode;
mod delivery;
mod queue;
mod snapshot;

pub use delivery::Delivery;
pub use queue::AstQueue;
pub use snapshot::AstQueueSnapshot;
