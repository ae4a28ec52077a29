//! The processes of the executive, seen as the plain state.
//!
//! `Core` is what the executive keeps: what the script says, the time, the next id, the processes in number order, the common
//! event flag clusters, timers, requests, attention entries, mailboxes, units, and the log of the event under way. Contracts see one
//! value of it (`specs/Kernel.antt`): the plain state of the machine's definitions, the log, and how much there is room for. Only
//! `new`, `begin`, `prepare`, `snapshot` and its `restore` take memory: `begin` makes sure of spare room, of which an event uses one
//! of each kind at most, `prepare` makes what the end of a unit's next service needs, and every other call leaves the room as it was
//! (`specs/Held.antt`).
//!
//! All reads of a process are in `reads.rt`, all writes of its fields in `setters.rt`, event flags and their clusters in
//! `clusters.rt`, timers in `timers.rt`, requests in `requests.rt`, attention entries in `attention.rt`, mailboxes in
//! `boxes.rt`, units in `units.rt`, units that leave to be served in `leases.rt`, and creation in `create.rt`: each says the
//! value after it as one equation, in the words of the machine. Services call these alone. The processes stand in a table
//! (`table.rt`) that remembers of each whether it has an event, as far as it alone tells it (`own_event.rt`), and how deep it
//! is (`seen.rt`), and of each 32 how many have an event (`summary.rt`); `settle.rt` brings that up to date and reads it.
//! `snapshot.rt` puts the whole away in as little room as it takes and brings it back in place of another state, `same.rt` compares a
//! state with what was put away, and `digest.rt` makes a number of one.
#![tactic(auto)]

mod attention;
mod block;
mod born;
mod boxes;
mod channels;
mod clusters;
mod create;
mod depth;
mod devices;
mod digest;
mod frames;
mod handlers;
mod kept;
mod leases;
mod newcomer;
mod own_event;
mod places;
mod proc_snapshot;
mod process;
mod procs;
mod reads;
mod requests;
mod restored;
mod same;
mod seen;
mod setters;
mod settle;
mod shared;
mod snapshot;
mod summary;
mod table;
mod timers;
mod units;

pub use crate::handlers::Sought;
pub use crate::process::{ast_need, timer_need};
pub use crate::procs::Core;
pub use crate::requests::{Finished, is_attention, moved_bytes};
pub use crate::snapshot::CoreSnapshot;
pub use crate::timers::drop_timers;
