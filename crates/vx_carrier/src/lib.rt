//! Threads over one executive.
#![tactic(auto)]

mod desk;
mod executive;
mod gate;
mod naming;
mod pool;
mod turn;

pub use desk::Desk;
pub use executive::{Executive, Seat};
pub use gate::{Gate, NoGate};
pub use naming::Naming;
pub use pool::run_pool;
pub use turn::Turn;
