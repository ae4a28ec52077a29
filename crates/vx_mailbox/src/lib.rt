//! The mailboxes of a system, and its attention entries.
//!
//! A mailbox ($CREMBX) stores messages until they are read. There are 64 numbers of mailboxes, and each number keeps the room for
//! messages that it once had. A snapshot of the mailboxes has no more room than they take. A process can ask for an AST when a
//! message comes or a read waits, by an attention entry. Contracts see the plain mailboxes by number, the attention entries in id
//! order, and how much there is room for: `specs/Boxes.antt`.
#![tactic(auto)]

mod attention;
mod attentions;
mod boxes;
mod mailbox;
mod message;
mod messages;
mod place;
mod snapshot;

pub use attention::AttentionEntry;
pub use attentions::{Attentions, AttentionsSnapshot};
pub use boxes::Boxes;
pub use snapshot::BoxesSnapshot;
