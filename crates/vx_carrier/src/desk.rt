//! What lies under the lock.

ghost use Rattle.std.specs.Prelude.{◌≡◌, ◌≤◌, ◌↔◌, ◌+◌, ◌++◌, [], Some, None, OnOk, OnErr, IsOk, IsTrue, Contains, List, length};
ghost use Rattle.vx_base.specs.Roomy.{HasSpace};
ghost use Rattle.vx_record.specs.Types.{Rec as RecOf};
ghost use Rattle.vx_record.specs.Events.{enabled, is_don};
ghost use Rattle.vx_record.specs.Runs.{first};
ghost use Rattle.vx_exec.specs.Leases.{IsInFor, IsOutFor, first_open};
ghost use Rattle.vx_exec.specs.View.{Plan as PlanOf, plan};
ghost use Rattle.vx_carrier.specs.Desk.{HasRun, IsGoing, advanced};
ghost use Rattle.vx_carrier.specs.Turns.{Gives, Opens, SawBeg, Takes};

use crate::naming::Naming;
use crate::turn::Turn;
use std::alloc::Global;
use std::marker::{Model, PhantomData};
use vx_base::{Event, NoMemory, Rec, Recs, Reserved, Routine};
use vx_exec::{Exec, LeasingExec};
use vx_units::ServedUnit;

/// The executive, and its records so far.
#[derive(Drop)]
pub struct Desk<R: Routine, J: Naming> {
    exec: LeasingExec<R>,
    recs: Reserved<Rec>,
    of: PhantomData<J>,
}

impl<R: Routine, J: Naming> Model for Desk<R, J> {
    ghost use Rattle.vx_carrier.specs.Desk.{Desk as DeskOf, IsKept};

    ghost Value = { DeskOf };

    ghost view = { λ d. record { leasing = d.exec; recs = d.recs.items } };

    ghost invariant = { λ d. IsKept J.plan (record { leasing = d.exec; recs = d.recs.items }) d.recs.capacity };
}

impl<R: Routine, J: Naming> vx_turn::Kept<Rec> for Desk<R, J> {
    ghost history = { λ d. d.recs };
}

impl<R: Routine, J: Naming> Desk<R, J> {
    // An executive before its first event.
    pub(crate) fn new(alloc: Global, exec: Exec<R>) -> Desk<R, J>
        requires named { plan exec ≡ J.plan }
        requires new { exec.state ≡ first exec.state.system }
        requires none { exec.taken ≡ 0 }
        ensures { result.recs ≡ [] }
    {
        Desk {
            exec: LeasingExec::new(exec),
            recs: Reserved::new(alloc),
            of: PhantomData,
        }
    }

    // Tells that the records are a run.
    pub(crate) fn show(&self)
        ensures { HasRun J.plan self.now }
    {
        let _ = &self.exec;
    }

    // Takes the first enabled event that ends no service. Room is made for its record, and for the DON of each unit.
    pub(crate) fn take(&mut self) -> Turn
        ensures { (more : List RecOf) × (self.new.recs ≡ self.old.recs ++ more) × Takes J.plan self.old.recs result more }
    {
        if let Some(end) = self.exec.ended() {
            return Turn::Ended(end);
        }
        let Some(event) = self.exec.first_open() else {
            return Turn::Nothing;
        };
        if make_room(&self.exec, &mut self.recs).is_err() {
            return Turn::NoMemory;
        }
        open(&mut self.exec, &mut self.recs, event)
    }

    // Takes a unit back, and then its DON, for which there is room.
    pub(crate) fn put(&mut self, served: ServedUnit) -> Turn
        requires { SawBeg J.plan self.old.recs served.lease }
        ensures { (more : List RecOf) × (self.new.recs ≡ self.old.recs ++ more) × Gives J.plan self.old.recs served result more }
    {
        let unit = served.unit();
        if !is_out(&self.exec, &served) {
            drop(served);
            return Turn::Stale;
        }
        self.exec.give_back(served);
        if let Some(end) = self.exec.ended() {
            return Turn::Ended(end);
        }
        let Ok(()) = grow(&mut self.exec, &mut self.recs, Event::Don(unit)) else {
            unreachable!()
        };
        Turn::Took(None)
    }

    // The executive and the records.
    pub(crate) fn into_parts(self) -> (LeasingExec<R>, Recs)
        ensures run { HasRun J.plan (record { leasing = result.0; recs = result.1 }) }
        ensures recs { result.1 ≡ self.recs }
    {
        let Desk { exec, recs, of: _ } = self;
        (exec, Recs::from_vec(recs.into_vec()))
    }
}

// Whether the service of what is given back is out.
fn is_out<R: Routine>(exec: &LeasingExec<R>, served: &ServedUnit) -> bool
    ensures { IsTrue result ↔ IsOutFor exec.now served.now.lease.unit served.now.lease.req.id }
{
    exec.is_out_for(served.unit(), served.id())
}

// Makes room for a record, and for one of each unit.
fn make_room<R: Routine>(exec: &LeasingExec<R>, recs: &mut Reserved<Rec>) -> Result<(), NoMemory>
    requires { length exec.now.stands ≡ length exec.now.exec.state.units }
    ensures items { recs.new.items ≡ recs.old.items }
    ensures kept { recs.old.capacity ≤ recs.new.capacity }
    ensures ok { OnOk result (HasSpace recs.new (length exec.now.stands + 1)) }
{
    let room = exec.unit_count().checked_add(1).ok_or(NoMemory)?;
    recs.reserve(room)
}

// Takes an event, and keeps its record, for which there is room.
fn grow<R: Routine>(
    exec: &mut LeasingExec<R>,
    recs: &mut Reserved<Rec>,
    event: Event,
) -> Result<(), NoMemory>
    requires enabled { Contains (enabled exec.old.exec.state) event }
    requires going { IsGoing exec.old }
    requires home { IsInFor exec.old event }
    requires room { HasSpace recs.old 1 }
    ensures ok { OnOk result (record { leasing = exec.new; recs = recs.new.items } ≡ advanced (record { leasing = exec.old; recs = recs.old.items }) event) }
    ensures room { recs.new.capacity ≡ recs.old.capacity }
    ensures err { OnErr result ((exec.new ≡ exec.old) × (recs.new ≡ recs.old)) }
    ensures don { IsTrue (is_don event) → IsOk result }
{
    let rec = exec.step(event)?;
    recs.put(rec);
    Ok(())
}

// Takes the first event that ends no service, for whose record there is room. After a BEG the unit goes out.
fn open<R: Routine>(exec: &mut LeasingExec<R>, recs: &mut Reserved<Rec>, event: Event) -> Turn
    requires run { (plan : PlanOf) × HasRun plan (record { leasing = exec.old; recs = recs.old.items }) }
    requires first { first_open exec.old.exec.state ≡ Some event }
    requires going { IsGoing exec.old }
    requires room { HasSpace recs.old 1 }
    ensures opens { Opens (record { leasing = exec.old; recs = recs.old.items }) event result (record { leasing = exec.new; recs = recs.new.items }) }
    ensures room { recs.new.capacity ≡ recs.old.capacity }
{
    if grow(exec, recs, event).is_err() {
        return Turn::NoMemory;
    }
    match event {
        Event::Beg(u) => Turn::Took(exec.lease(u)),
        _ => Turn::Took(None),
    }
}
