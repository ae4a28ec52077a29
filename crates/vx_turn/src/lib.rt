//! A ticket lock whose seats know the history of the value.
//!
//! A `Turnstile` holds one value, which stands for a history (`Kept`). Each thread has a `Seat`. `enter` draws a ticket and waits until it
//! is served; then the value is the seat's alone, and its history goes on from all that the seat has seen. `leave` hands the value back
//! with a longer history, and the entries that it grew by are the seat's own. `close` ends the lock with all its seats: what they have
//! left is the history, each entry once (`specs/Seats.antt`). The rule that holds between any two steps is `specs/Rule.antt`.
#![tactic(auto)]

mod lock;
mod rule;
mod view;

pub use lock::{Seat, Turnstile};
pub use rule::Kept;
pub use view::{Stage, View};
