//! An executive whose units may be out to be served.

ghost use Rattle.std.specs.Prelude.{◌≡◌, ◌≤◌, ◌↔◌, Contains, IfNone, IfOk, IfSome, IsTrue, None, OnErr, OnOk, OnSome, false, length};
ghost use Rattle.vx_record.specs.Events.{enabled, is_don};
ghost use Rattle.vx_record.specs.Runs.{end_of, record_of};
ghost use Rattle.vx_units.specs.Leases.{Back, Out};
ghost use Rattle.vx_exec.specs.Leases.{AreIn, Fits, IsInFor, IsLeaseOf, IsOutFor, IsToLease, first_open, leasing_after, with_stand};
ghost use Rattle.vx_exec.specs.View.{plan};

use crate::engine::Engine;
use crate::events::first_open;
use crate::exec::Exec;
use std::marker::Model;
use vx_base::{End, Event, Id, NoMemory, Rec, Routine, UnitNo};
use vx_units::{ServedUnit, UnitLease};

/// An executive whose units may be out on leases: a unit that serves leaves with its request, is served with the executive free for
/// other events, and comes back with the reply. Until its DON the executive stands for what the unit held before.
#[derive(Drop)]
pub struct LeasingExec<R: Routine> {
    engine: Engine<R>,
}

impl<R: Routine> Model for LeasingExec<R> {
    ghost use Rattle.vx_exec.specs.Leases.{Leasing};

    ghost Value = { Leasing };

    ghost use Rattle.vx_exec.specs.Engines.{IsOn, leasing};

    ghost view = { λ e. leasing e.engine };

    ghost invariant = { λ e. IsOn e.engine };
}

impl<R: Routine> LeasingExec<R> {
    /// The executive, of which no unit is out. Takes no memory.
    pub fn new(exec: Exec<R>) -> LeasingExec<R>
        ensures exec { result.exec ≡ exec }
        ensures home { AreIn result }
        ensures units { length result.stands ≡ length exec.state.units }
        ensures limit { exec.limit ≤ 100000 }
    {
        let engine = exec.into_engine();
        let _units = engine.core.unit_count();
        LeasingExec { engine }
    }

    /// The executive again. Takes no memory.
    pub fn into_exec(self) -> Exec<R>
        requires { AreIn self }
        ensures { result ≡ self.exec }
    {
        Exec::from_engine(self.engine)
    }

    /// Whether no lease is out. Takes no memory.
    pub fn home(&self) -> bool
        ensures { IsTrue result ↔ AreIn self.now }
    {
        self.engine.core.are_in()
    }

    /// How the run has ended, if it has.
    pub fn ended(&self) -> Option<End>
        ensures { result ≡ end_of self.now.exec.limit self.now.exec.taken self.now.exec.state }
    {
        self.engine.ended()
    }

    /// How many units there are.
    pub fn unit_count(&self) -> u32
        ensures { result ≡ length self.now.exec.state.units }
    {
        self.engine.core.unit_count() as u32
    }

    /// The first enabled event that is no DON. Takes no memory.
    pub fn first_open(&self) -> Option<Event>
        ensures { result ≡ first_open self.now.exec.state }
    {
        first_open(&self.engine.core)
    }

    /// Takes an enabled event, as `Exec::step` does, and gives its record. If memory is short, nothing has changed. A DON needs none,
    /// and never fails; it ends the service of a unit that is home or back.
    pub fn step(&mut self, event: Event) -> Result<Rec, NoMemory>
        requires enabled { Contains (enabled self.old.exec.state) event }
        requires going { end_of self.old.exec.limit self.old.exec.taken self.old.exec.state ≡ None }
        requires home { IsInFor self.old event }
        ensures rec { IfOk result (λ rec. rec ≡ record_of self.old.exec.state event) }
        ensures after { OnOk result (self.new ≡ leasing_after self.old event) }
        ensures err { OnErr result ((is_don event ≡ false) × (self.new ≡ self.old)) }
        ensures plan { plan self.new.exec ≡ plan self.old.exec }
    {
        self.engine.step(event)
    }

    /// Takes a unit out, with the request that it serves. None exactly where it serves none, is out, or was given back. Takes no
    /// memory.
    pub fn lease(&mut self, u: UnitNo) -> Option<UnitLease>
        ensures lease { IfSome result (IsLeaseOf self.old u) }
        ensures out { OnSome result (self.new ≡ with_stand self.old u Out) }
        ensures kept { IfNone result (self.new ≡ self.old) }
        ensures none { IfNone result (IsToLease self.old u → ⊥) }
    {
        self.engine.core.lease(u)
    }

    /// Whether the service of a request is out. Takes no memory.
    pub fn is_out_for(&self, u: UnitNo, id: Id) -> bool
        ensures { IsTrue result ↔ IsOutFor self.now u id }
    {
        self.engine.core.is_out_for(u, id)
    }

    /// Takes a unit back with its reply. Until its DON the service is pending, and the executive stands for what the unit held. Takes
    /// no memory.
    pub fn give_back(&mut self, served: ServedUnit)
        requires { Fits self.old served }
        ensures { self.new ≡ with_stand self.old served.lease.unit Back }
    {
        self.engine.core.give_back(served)
    }
}
