//! A state compared with what was put away.

ghost use Rattle.std.specs.Prelude.{◌≡◌, ◌↔◌, IsTrue, map};
ghost use Rattle.std.specs.List.{AllByRecursion};
ghost use Rattle.vx_procs.specs.Units.{IsIn};
ghost use Rattle.vx_procs.specs.Snapshots.{process_in};
ghost use Rattle.vx_procs.specs.Kernel.{AreIn};
ghost use Rattle.vx_procs.specs.View.{process, unit_of};

use crate::kept::KeptUnit;
use crate::proc_snapshot::ProcSnapshot;
use crate::process::Proc;
use crate::procs::Core;
use crate::snapshot::CoreSnapshot;
use vx_base::{Routine, Same};
use vx_image::same_privs;

impl<R: Routine> ProcSnapshot<R> {
    // Whether a process has the same declaration, identification code and privileges.
    fn is_same_origin(&self, proc: &Proc<R>) -> bool
        ensures { IsTrue result ↔ ((self.now.decl ≡ proc.now.decl) × (self.now.group ≡ proc.now.group) × (self.now.member ≡ proc.now.member) × (self.now.privs ≡ proc.now.privs)) }
    {
        self.decl == proc.decl
            && self.group == proc.group
            && self.member == proc.member
            && same_privs(&self.privs, &proc.privs)
    }

    // Whether it stores the same, and has the same frames and ASTs.
    fn is_same_inside(&self, proc: &Proc<R>) -> bool
        ensures { IsTrue result ↔ ((self.now.store ≡ proc.now.store) × (self.now.frames.items ≡ proc.now.frames.items) × (self.now.asts.items ≡ proc.now.asts.items) × (self.now.asts.enables ≡ proc.now.asts.enables)) }
    {
        self.store.same(&proc.store)
            && self.frames.same(&proc.frames)
            && self.asts.same_items(&proc.asts)
            && self.asts.same_enables(&proc.asts)
    }

    // Whether it has the same channels, exit handlers and event flags.
    fn is_same_outside(&self, proc: &Proc<R>) -> bool
        ensures { IsTrue result ↔ ((self.now.chans ≡ proc.now.chans) × (self.now.exits.items ≡ proc.now.exits.items) × (self.now.cluster_0 ≡ proc.now.cluster_0) × (self.now.cluster_1 ≡ proc.now.cluster_1)) }
    {
        self.chans.same(&proc.chans)
            && self.exits.same(&proc.exits)
            && self.cluster_0.same(&proc.cluster_0)
            && self.cluster_1.same(&proc.cluster_1)
    }

    // Whether the same pends, and it has the same exit code and phase.
    fn is_same_phase(&self, proc: &Proc<R>) -> bool
        ensures { IsTrue result ↔ ((self.now.wake_pending ≡ proc.now.wake_pending) × (self.now.suspended ≡ proc.now.suspended) × (self.now.delete_pending ≡ proc.now.delete_pending) × (self.now.exit_code ≡ proc.now.exit_code) × (self.now.phase ≡ proc.now.phase)) }
    {
        self.wake_pending == proc.wake_pending
            && self.suspended == proc.suspended
            && self.delete_pending == proc.delete_pending
            && self.exit_code == proc.exit_code
            && self.phase == proc.phase
    }

    // Whether it is a process as it was put away.
    fn same(&self, proc: &Proc<R>) -> bool
        ensures { IsTrue result ↔ (process_in self.now ≡ process proc.now) }
    {
        self.is_same_origin(proc)
            && self.is_same_inside(proc)
            && self.is_same_outside(proc)
            && self.is_same_phase(proc)
    }
}

// Whether processes are as they were put away.
fn same_procs<R: Routine>(kept: &[ProcSnapshot<R>], procs: &[Proc<R>]) -> bool
    ensures { IsTrue result ↔ (map process_in kept.now ≡ map process procs.now) }
{
    if kept.len() != procs.len() {
        return false;
    }
    for (i, snapshot) in kept.iter().enumerate() {
        if !snapshot.same(&procs[i]) {
            return false;
        }
    }
    true
}

// Whether two lists of units are the same.
#[tactic(auto, using(crate::proofs::Inside::in_there))]
fn same_units(a: &[KeptUnit], b: &[KeptUnit]) -> bool
    requires here { AllByRecursion IsIn a.now }
    requires there { AllByRecursion IsIn b.now }
    ensures { IsTrue result ↔ (map unit_of a.now ≡ map unit_of b.now) }
{
    if a.len() != b.len() {
        return false;
    }
    for (i, unit) in a.iter().enumerate() {
        if !unit.same(&b[i]) {
            return false;
        }
    }
    true
}

impl<R: Routine> CoreSnapshot<R> {
    // Whether a state has the same time, next id, processes and common clusters.
    fn is_same_first(&self, core: &Core<R>) -> bool
        ensures { IsTrue result ↔ ((self.now.time ≡ core.now.state.time) × (self.now.next ≡ core.now.state.next) × (self.now.procs ≡ core.now.state.procs) × (self.now.common ≡ core.now.state.common)) }
    {
        self.time == core.time
            && self.next == core.next
            && same_procs(&self.procs, core.procs.as_slice())
            && self.clusters.same(&core.clusters)
    }

    // Whether it has the same requests, timers, attention entries, mailboxes and units.
    fn is_same_last(&self, core: &Core<R>) -> bool
        requires { AreIn core.now }
        ensures { IsTrue result ↔ ((self.now.requests ≡ core.now.state.requests) × (self.now.timers ≡ core.now.state.timers) × (self.now.attention ≡ core.now.state.attention) × (self.now.boxes ≡ core.now.state.boxes) × (self.now.units ≡ core.now.state.units)) }
    {
        self.requests.same(&core.requests)
            && self.timers.same(&core.timers)
            && self.attention.same(&core.attention)
            && self.boxes.same(&core.boxes)
            && same_units(self.units.as_slice(), core.units.as_slice())
    }

    /// Whether a state of the same system, of which no unit is out, is the one that was put away. What the script says is not looked at.
    /// Takes no memory.
    pub fn is_at(&self, core: &Core<R>) -> bool
        requires units { AreIn core.now }
        requires system { self.now.system ≡ core.now.state.system }
        ensures { IsTrue result ↔ (self.now ≡ core.now.state) }
    {
        self.is_same_first(core) && self.is_same_last(core)
    }

    /// Whether a state, of which no unit is out, is the one that was put away. Takes no memory.
    pub fn same(&self, core: &Core<R>) -> bool
        requires { AreIn core.now }
        ensures { IsTrue result ↔ (self.now ≡ core.now.state) }
    {
        self.system.get().same(core.system.get()) && self.is_at(core)
    }
}
