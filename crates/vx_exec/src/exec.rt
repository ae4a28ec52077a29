//! The executive.

ghost use Rattle.std.specs.Prelude.{◌≡◌, ◌<◌, ◌≤◌, ◌↔◌, Contains, IfOk, IsTrue, None, OnErr, OnOk, false, length, slice_get};
ghost use Rattle.vx_image.specs.WellFormed.{IsWellFormed};
ghost use Rattle.vx_record.specs.State.{IsProcess, decl_of, process_at, unit_at};
ghost use Rattle.vx_units.specs.Units.{outputs_of};
ghost use Rattle.vx_record.specs.Events.{enabled, is_don};
ghost use Rattle.vx_record.specs.Runs.{end_of, first, record_of};
ghost use Rattle.vx_procs.specs.Digest.{digest_of};
ghost use Rattle.vx_exec.specs.Engines.{IsWithin, leasing};
ghost use Rattle.vx_exec.specs.Picks.{moved_seed, picked_event};
ghost use Rattle.vx_exec.specs.Sound.{IsGoing};
ghost use Rattle.vx_record.specs.Standing.{code_of, standing_of};
ghost use Rattle.vx_exec.specs.View.{LosesState, after_step, plan};

use crate::engine::Engine;
use crate::events::{count, enabled_at, is_enabled};
use crate::seed::Seed;
use crate::snapshot::ExecSnapshot;
use crate::standing::standing_of;
use std::alloc::Global;
use std::marker::Model;
use vx_base::{Bytes, End, Event, Name, NoMemory, Pid, Rec, Routine, UnitNo};
use vx_image::System;
use vx_io::Rooms;
use vx_procs::{Core, CoreSnapshot};
use vx_record::Standing;

/// The executive of one system: what it keeps, how many records its runs may have, and how many its steps have made. No unit of it is
/// out.
pub struct Exec<R: Routine> {
    engine: Engine<R>,
}

impl<R: Routine> Drop for Exec<R> {
    // Written out, so that it is proved here once, and not in each crate that lets one go.
    fn drop(self) {
        let Self { engine: _ } = self;
    }
}

impl<R: Routine> Model for Exec<R> {
    ghost use Rattle.vx_exec.specs.View.{Executive};

    ghost Value = { Executive };

    ghost use Rattle.vx_exec.specs.Engines.{IsWithin, leasing};

    ghost view = { λ e. (leasing e.engine).exec };

    ghost invariant = { λ e. IsWithin e.engine };
}

impl<R: Routine> Exec<R> {
    /// The executive of a system before its first event, whose runs may have so many records, 1 to 100,000.
    pub fn new(alloc: Global, system: System, limit: u32) -> Result<Exec<R>, NoMemory>
        requires formed { IsWellFormed system }
        requires above { 1 ≤ limit }
        requires within { limit ≤ 100000 }
        ensures { IfOk result (λ exec. exec ≡ record { state = first system; limit = limit; taken = 0 }) }
    {
        let mut core = Core::new(alloc, system)?;
        core.settle();
        Ok(Exec {
            engine: Engine {
                core,
                limit,
                taken: 0,
                alloc,
                rooms: Rooms::new(),
            },
        })
    }

    /// The same executive put away, in as little room as it takes. Each routine is made from its tag, so this is for routines of scripts.
    pub fn snapshot(&self) -> Result<ExecSnapshot<R>, NoMemory>
        ensures { IfOk result (λ snapshot. snapshot ≡ self.now) }
    {
        let core = self.engine.core.snapshot()?;
        Ok(ExecSnapshot::new(core, self.engine.limit, self.engine.taken))
    }

    // Has a state that was put away, of a run with this limit and so many records, in place of its own. If memory runs out, it has a
    // state without processes.
    pub(crate) fn restore(
        &mut self,
        core: &CoreSnapshot<R>,
        limit: u32,
        taken: u32,
    ) -> Result<(), NoMemory>
        requires { IsGoing core.now limit taken }
        ensures ok { OnOk result (self.new ≡ record { state = core.now; limit = limit; taken = taken }) }
        ensures err { OnErr result (LosesState self.old self.new) }
    {
        core.restore(&mut self.engine.core)?;
        self.engine.limit = limit;
        self.engine.taken = taken;
        Ok(())
    }

    // Whether it is in a state that was put away, of a run with this limit, after so many records.
    pub(crate) fn is_same(&self, core: &CoreSnapshot<R>, limit: u32, taken: u32) -> bool
        ensures { IsTrue result ↔ (self.now ≡ record { state = core.now; limit = limit; taken = taken }) }
    {
        self.engine.taken == taken && self.engine.limit == limit && core.same(&self.engine.core)
    }

    // The same, of a run of its own system, with its own limit.
    pub(crate) fn is_at(&self, core: &CoreSnapshot<R>, taken: u32) -> bool
        requires { core.now.system ≡ self.now.state.system }
        ensures { IsTrue result ↔ (self.now ≡ record { state = core.now; limit = self.now.limit; taken = taken }) }
    {
        self.engine.taken == taken && core.is_at(&self.engine.core)
    }

    /// The state as a number. Equal states have the same; states that differ have the same seldom. Takes no memory.
    pub fn digest(&self) -> u64
        ensures { result ≡ digest_of self.now.state }
    {
        self.engine.core.digest()
    }

    // What it is made of.
    pub(crate) fn into_engine(self) -> Engine<R>
        ensures on { IsWithin result }
        ensures exec { (leasing result).exec ≡ self }
    {
        let Self { engine } = self;
        engine
    }

    // The executive that is made of this, of which no unit is out.
    pub(crate) fn from_engine(engine: Engine<R>) -> Exec<R>
        requires { IsWithin engine }
        ensures { result ≡ (leasing engine).exec }
    {
        Exec { engine }
    }

    /// How many events are enabled.
    pub fn count(&self) -> u32
        ensures { result ≡ length (enabled self.now.state) }
    {
        count(&self.engine.core)
    }

    /// The enabled event at a place from 0: the processes in number order, the units in the script's order, and then time.
    pub fn enabled(&self, i: u32) -> Option<Event>
        ensures { result ≡ slice_get (enabled self.now.state) i }
    {
        enabled_at(&self.engine.core, i)
    }

    /// Whether an event is enabled. It takes the same time however many processes and units there are.
    pub fn is_enabled(&self, event: Event) -> bool
        ensures { IsTrue result ↔ Contains (enabled self.now.state) event }
    {
        is_enabled(&self.engine.core, event)
    }

    /// The enabled event that the seed picks, and the seed moves: if nothing is enabled there is none, and the seed
    /// stays.
    #[tactic(auto, using(crate::proofs::Enabled::pick_there))]
    pub fn pick(&self, seed: &mut Seed) -> Option<Event>
        ensures event { result ≡ picked_event seed.old.x (enabled self.now.state) }
        ensures seed { seed.new.x ≡ moved_seed seed.old.x (enabled self.now.state) }
    {
        let n = count(&self.engine.core);
        if n == 0 {
            return None;
        }
        let next = seed.next();
        *seed = next;
        enabled_at(&self.engine.core, next.index(n))
    }

    /// Takes an enabled event, and gives its record. If memory is short, nothing has changed. A DON needs none, and never fails.
    pub fn step(&mut self, event: Event) -> Result<Rec, NoMemory>
        requires enabled { Contains (enabled self.old.state) event }
        requires going { end_of self.old.limit self.old.taken self.old.state ≡ None }
        ensures rec { IfOk result (λ rec. rec ≡ record_of self.old.state event) }
        ensures after { OnOk result (self.new ≡ after_step self.old event) }
        ensures err { OnErr result ((is_don event ≡ false) × (self.new ≡ self.old)) }
        ensures plan { plan self.new ≡ plan self.old }
    {
        self.engine.step(event)
    }

    /// Takes an enabled event as `step` does, and gives no record: the room for its effects serves the next event. If memory is short,
    /// nothing has changed. A DON needs none, and never fails.
    pub fn advance(&mut self, event: Event) -> Result<(), NoMemory>
        requires enabled { Contains (enabled self.old.state) event }
        requires going { end_of self.old.limit self.old.taken self.old.state ≡ None }
        ensures after { OnOk result (self.new ≡ after_step self.old event) }
        ensures err { OnErr result ((is_don event ≡ false) × (self.new ≡ self.old)) }
        ensures plan { plan self.new ≡ plan self.old }
    {
        self.engine.take(event)?;
        self.engine.core.forget_log();
        Ok(())
    }

    /// How the run has ended, if it has.
    pub fn ended(&self) -> Option<End>
        ensures { result ≡ end_of self.now.limit self.now.taken self.now.state }
    {
        self.engine.ended()
    }

    /// The system.
    pub fn system(&self) -> &System
        ensures { result.now ≡ self.now.state.system }
    {
        self.engine.core.system()
    }

    /// How many records its runs may have.
    pub fn limit(&self) -> u32
        ensures { result ≡ self.now.limit }
    {
        self.engine.limit
    }

    /// How many records its steps have made.
    pub fn taken(&self) -> u32
        ensures { result ≡ self.now.taken }
    {
        self.engine.taken
    }

    /// How many processes have been made, which is the number of the last.
    pub fn process_count(&self) -> u32
        ensures { result ≡ length self.now.state.procs }
    {
        self.engine.core.process_count() as u32
    }

    /// How many units there are.
    pub fn unit_count(&self) -> u32
        ensures { result ≡ length self.now.state.units }
    {
        self.engine.core.unit_count() as u32
    }

    /// The lines that were written to a unit, oldest first; a block unit has none.
    pub fn outputs(&self, u: UnitNo) -> &[Bytes]
        requires { u.0 < length self.now.state.units }
        ensures { result.now ≡ outputs_of (unit_at self.now.state u).contents }
    {
        self.engine.core.outputs(u)
    }

    /// The name of a process, how it stands, and its exit code, 0 unless it is gone.
    pub fn standing(&self, p: Pid) -> (Name, Standing, u32)
        requires { IsProcess self.now.state p }
        ensures name { result.0 ≡ (decl_of self.now.state p).name }
        ensures standing { result.1 ≡ standing_of (process_at self.now.state p) }
        ensures code { result.2 ≡ code_of (process_at self.now.state p) }
    {
        let name = self.engine.core.declaration(p).name;
        let (standing, code) = standing_of(&self.engine.core, p);
        (name, standing, code)
    }
}
