//! Units that leave to be served, and come back.

ghost use Rattle.std.specs.Prelude.{◌≡◌, ◌↔◌, ◌<◌, IfSome, IsSome, IsTrue, IfNone, OnSome};
ghost use Rattle.std.specs.List.{AllByRecursion};
ghost use Rattle.vx_record.specs.State.{unit_at};
ghost use Rattle.vx_units.specs.Leases.{Back, Out};
ghost use Rattle.vx_procs.specs.Kernel.{AreIn, ending_for, with_stand};
ghost use Rattle.vx_procs.specs.Units.{IsIn};
ghost use Rattle.vx_procs.specs.Leases.{IsLeaseOf, IsOfOut, IsOutFor, IsToLease};

use crate::kept::KeptUnit;
use crate::procs::Core;
use vx_base::{Id, Routine, UnitNo};
use vx_units::{ServedUnit, UnitLease};

// Whether none of these units is out.
fn are_in(units: &[KeptUnit]) -> bool
    ensures { IsTrue result ↔ AllByRecursion IsIn units.now }
{
    for unit in units {
        if unit.is_out() {
            return false;
        }
    }
    true
}

impl<R: Routine> Core<R> {
    /// Whether no unit is out. Takes no memory.
    pub fn are_in(&self) -> bool
        ensures { IsTrue result ↔ AreIn self.now }
    {
        are_in(self.units.as_slice())
    }

    /// Whether the service of a request is out. Takes no memory.
    pub fn is_out_for(&self, u: UnitNo, id: Id) -> bool
        ensures { IsTrue result ↔ IsOutFor self.now u id }
    {
        let Some(served) = self.requests.in_service(u) else {
            return false;
        };
        if served != id {
            return false;
        }
        self.units[u.0 as usize].is_out()
    }

    /// Takes a unit out, with the request that it serves. None exactly where it serves none, is out, or was given back. Takes no
    /// memory.
    pub fn lease(&mut self, u: UnitNo) -> Option<UnitLease>
        requires { (unit_at self.old.state u).services < 4294967295 }
        ensures lease { IfSome result (IsLeaseOf self.old u) }
        ensures out { OnSome result (IsSome (ending_for self.old u) × (self.new ≡ with_stand self.old u Out)) }
        ensures kept { IfNone result (self.new ≡ self.old) }
        ensures none { IfNone result (IsToLease self.old u → ⊥) }
    {
        match self.requests.in_service(u) {
            Some(_) => self.units[u.0 as usize].lease(u),
            None => None,
        }
    }

    /// Takes a unit back, which has served. The service is pending: until it ends the unit holds what it held. Takes no memory.
    pub fn give_back(&mut self, served: ServedUnit)
        requires { IsOfOut self.old served }
        ensures { self.new ≡ with_stand self.old served.lease.unit Back }
    {
        let u = served.unit();
        self.units[u.0 as usize].give_back(served)
    }
}
