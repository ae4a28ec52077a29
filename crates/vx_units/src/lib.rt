//! Device units.
//!
//! A line unit gives the lines that the script says and takes lines; a block unit keeps blocks of 512 bytes. A request is
//! served in three steps: `ready` finds the memory, `serve` answers and leaves the unit as it was, and `settle` makes the
//! unit what it is after the service. Contracts see the plain unit, what a pending service will make of it, and whether the
//! memory for a request is there: `specs/Units.antt`. A unit that is ready may leave its executive to be served: `UnitLease`
//! takes the unit and its request along, and `ServedUnit` brings both back with the reply, the service pending
//! (`specs/Leases.antt`).
#![tactic(auto)]

mod any;
mod block;
mod lease;
mod line;
mod unit;

pub use any::AnyUnit;
pub use block::BlockUnit;
pub use lease::{ServedUnit, UnitLease};
pub use line::LineUnit;
pub use unit::DeviceUnit;
