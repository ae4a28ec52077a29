//! The outstanding requests of all processes.
//!
//! A request ($QIO) is accepted, is taken by its unit when that is free, and is finished when the unit has served it, or when
//! it is cancelled before. One that is cancelled while its unit serves it is marked, and aborts when the service ends.
//! Contracts see one list in order of acceptance, and how many requests there is room for: `specs/Requests.antt`.
#![tactic(auto)]

mod found;
mod order;
mod outstanding;
mod places;
mod reads;
mod reqs;
mod slot;
mod snapshot;
mod sought;
mod units;

pub use outstanding::Outstanding;
pub use reqs::Reqs;
pub use snapshot::ReqsSnapshot;
