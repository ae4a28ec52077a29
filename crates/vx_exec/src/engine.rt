//! What both kinds of executive are made of: the one whose units may be out, and the one that never has a unit out.

ghost use Rattle.std.specs.Prelude.{◌≡◌, Contains, IfOk, None, OnErr, OnOk, false};
ghost use Rattle.vx_record.specs.Events.{enabled, step, is_don};
ghost use Rattle.vx_record.specs.Runs.{end_of, record_of};
ghost use Rattle.vx_exec.specs.Engines.{IsHomeFor, IsOn, leasing};
ghost use Rattle.vx_exec.specs.Leases.{leasing_after};
ghost use Rattle.vx_exec.specs.Sound.{IsWhole};
ghost use Rattle.vx_exec.specs.View.{plan};

use crate::events::{are_deleted, enabled_at};
use crate::machine::step;
use crate::room::{make_room, make_rooms};
use std::alloc::Global;
use vx_base::{Answer, End, Event, NoMemory, Rec, Routine};
use vx_io::Rooms;
use vx_procs::Core;

/// What is kept, how many records runs may have, and how many steps have made. Spare room for the bytes of a request is made before a
/// process runs.
#[derive(Drop)]
pub(crate) struct Engine<R: Routine> {
    pub(crate) core: Core<R>,
    pub(crate) limit: u32,
    pub(crate) taken: u32,
    pub(crate) alloc: Global,
    pub(crate) rooms: Rooms,
}

impl<R: Routine> Engine<R> {
    /// Takes an enabled event: gives its answer, and tells its effects. If memory is short, nothing has changed. A DON needs none, and
    /// never fails.
    pub(crate) fn take(&mut self, event: Event) -> Result<Answer, NoMemory>
        requires on { IsOn self.old }
        requires enabled { Contains (enabled self.old.core.state) event }
        requires going { end_of self.old.limit self.old.taken self.old.core.state ≡ None }
        requires home { IsHomeFor self.old.core event }
        ensures on { IsOn self.new }
        ensures answer { IfOk result (λ answer. answer ≡ (step self.old.core.state event).answer) }
        ensures told { OnOk result (self.new.core.log.items ≡ (step self.old.core.state event).effects) }
        ensures after { OnOk result (leasing self.new ≡ leasing_after (leasing self.old) event) }
        ensures err { OnErr result ((is_don event ≡ false) × (leasing self.new ≡ leasing self.old)) }
        ensures plan { plan (leasing self.new).exec ≡ plan (leasing self.old).exec }
    {
        make_rooms(self.alloc, &mut self.rooms, event)?;
        make_room(&mut self.core, event)?;
        let answer = step(&mut self.core, event, &mut self.rooms);
        self.taken += 1;
        self.core.settle();
        Ok(answer)
    }

    /// Takes an enabled event, and gives its record. If memory is short, nothing has changed. A DON needs none, and never fails.
    pub(crate) fn step(&mut self, event: Event) -> Result<Rec, NoMemory>
        requires on { IsOn self.old }
        requires enabled { Contains (enabled self.old.core.state) event }
        requires going { end_of self.old.limit self.old.taken self.old.core.state ≡ None }
        requires home { IsHomeFor self.old.core event }
        ensures on { IsOn self.new }
        ensures rec { IfOk result (λ rec. rec ≡ record_of self.old.core.state event) }
        ensures after { OnOk result (leasing self.new ≡ leasing_after (leasing self.old) event) }
        ensures err { OnErr result ((is_don event ≡ false) × (leasing self.new ≡ leasing self.old)) }
        ensures plan { plan (leasing self.new).exec ≡ plan (leasing self.old).exec }
    {
        let answer = self.take(event)?;
        Ok(Rec {
            event,
            answer,
            effects: self.core.take_log(),
        })
    }

    /// How the run has ended, if it has.
    pub(crate) fn ended(&self) -> Option<End>
        requires { IsWhole self.now.core.state }
        ensures { result ≡ end_of self.now.limit self.now.taken self.now.core.state }
    {
        if enabled_at(&self.core, 0).is_none() {
            return Some(if are_deleted(&self.core) {
                End::Done
            } else {
                End::Hung
            });
        }
        if self.limit <= self.taken {
            Some(End::Limit)
        } else {
            None
        }
    }
}
