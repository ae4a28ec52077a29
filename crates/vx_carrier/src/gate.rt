//! What is told of services.

use vx_base::UnitNo;

/// It is told of each service before the service begins, while the lock is free.
pub trait Gate: Drop {
    /// A service of this unit begins, the service of this number, from 1.
    fn serving(&self, unit: UnitNo, number: u32);
}

/// A gate that does nothing.
#[derive(Drop)]
pub struct NoGate;

impl Gate for NoGate {
    fn serving(&self, _unit: UnitNo, _number: u32) {}
}
