//! Requests on devices: how they begin, are served, are cancelled and finish; and mailboxes.
//!
//! BEG has a unit take its front request, and DON ends the service. A mailbox does its part at once: a message goes to the read that
//! waits for it, or is stored; and an attention entry fires once, when a mailbox has what it asks for. A request that finishes gives
//! its condition, fills its buffer and its I/O status block, sets its event flag and queues its AST. Each call does what the machine's
//! definitions say, and takes no memory but `Rooms::fill`.
#![tactic(auto)]

mod accept;
mod asking;
mod attention;
mod cancelling;
mod channels;
mod finish;
mod mailboxes;
mod messages;
mod requests;
mod rooms;
mod service;

pub use asking::Asking;
pub use cancelling::{cancel, cancel_channel, dassgn};
pub use channels::{assign, free_channel};
pub use mailboxes::{NewBox, crembx, delmbx};
pub use requests::{qio, qiow, synch};
pub use rooms::Rooms;
pub use service::{begin, done};
