//! The executive's state, put away.

ghost use Rattle.std.specs.Prelude.{◌≡◌, [], IfOk, IsOk, Ok, OnErr, OnOk, map};
ghost use Rattle.std.specs.List.{AllByRecursion};
ghost use Rattle.vx_procs.specs.Emptied.{IsEmptied};
ghost use Rattle.vx_procs.specs.Again.{AreWider, asked_in, stand_in};
ghost use Rattle.vx_procs.specs.Kernel.{AreIn};
ghost use Rattle.vx_procs.specs.Snapshots.{books_in, process_in};
ghost use Rattle.vx_procs.specs.Units.{IsIn};
ghost use Rattle.vx_procs.specs.View.{books_of, process, unit_of};

use crate::kept::KeptUnit;
use crate::proc_snapshot::ProcSnapshot;
use crate::process::Proc;
use crate::procs::Core;
use crate::shared::SharedSystem;
use crate::table::Procs;
use std::alloc::Global;
use std::marker::Model;
use vx_base::{NoMemory, Pid, Routine};
use vx_clusters::{Clusters, ClustersSnapshot};
use vx_mailbox::{Attentions, AttentionsSnapshot, Boxes, BoxesSnapshot};
use vx_reqs::{Reqs, ReqsSnapshot};
use vx_timers::{Timers, TimersSnapshot};

/// The executive's state at one moment, of which no unit is out, in as little room as it takes: no effects, no spare process, no
/// room for what may come, and nothing remembered of the processes. What the script says is shared. Contracts see the plain state.
pub struct CoreSnapshot<R: Routine> {
    pub(crate) system: SharedSystem,
    pub(crate) time: u64,
    pub(crate) next: u32,
    pub(crate) procs: Vec<ProcSnapshot<R>>,
    pub(crate) clusters: ClustersSnapshot,
    pub(crate) timers: TimersSnapshot<R>,
    pub(crate) requests: ReqsSnapshot<R>,
    pub(crate) attention: AttentionsSnapshot<R>,
    pub(crate) boxes: BoxesSnapshot,
    pub(crate) units: Vec<KeptUnit>,
    // the process whose spares may have been used since they were made
    short: Option<Pid>,
    alloc: Global,
}

impl<R: Routine> Drop for CoreSnapshot<R> {
    // Written out, so that it is proved here once, and not in each crate that lets one go.
    fn drop(self) {
        let Self {
            system: _,
            time: _,
            next: _,
            procs: _,
            clusters: _,
            timers: _,
            requests: _,
            attention: _,
            boxes: _,
            units: _,
            short: _,
            alloc: _,
        } = self;
    }
}

impl<R: Routine> Model for CoreSnapshot<R> {
    ghost use Rattle.vx_record.specs.State.{State};

    ghost Value = { State };

    ghost use Rattle.vx_procs.specs.Snapshots.{IsPutAway, state_in};

    ghost view = { state_in };

    ghost invariant = { IsPutAway };
}

// The same processes put away.
fn put_away<R: Routine>(alloc: Global, procs: &[Proc<R>]) -> Result<Vec<ProcSnapshot<R>>, NoMemory>
    ensures procs { IfOk result (λ copy. map process_in copy.items ≡ map process procs.now) }
    ensures books { IfOk result (λ copy. AreWider (map books_of procs.now) (map books_in copy.items)) }
{
    let mut copy = Vec::new(alloc);
    copy.reserve(procs.len())?;
    for proc in procs {
        copy.push(proc.snapshot(alloc)?)?;
    }
    Ok(copy)
}

// The same units again.
#[tactic(auto, using(crate::proofs::Inside::in_there))]
fn duplicate_units(alloc: Global, units: &[KeptUnit]) -> Result<Vec<KeptUnit>, NoMemory>
    requires { AllByRecursion IsIn units.now }
    ensures units { IfOk result (λ copy. map unit_of copy.items ≡ map unit_of units.now) }
    ensures asked { IfOk result (λ copy. map asked_in copy.items ≡ map asked_in units.now) }
    ensures stands { IfOk result (λ copy. map stand_in copy.items ≡ map stand_in units.now) }
{
    let mut copy = Vec::new(alloc);
    for unit in units {
        copy.push(unit.duplicate(alloc)?)?;
    }
    Ok(copy)
}

// The same system and units again.
#[tactic(auto, using(crate::proofs::Inside::in_there))]
fn outside(
    alloc: Global,
    system: &SharedSystem,
    units: &[KeptUnit],
) -> Result<(SharedSystem, Vec<KeptUnit>), NoMemory>
    requires { AllByRecursion IsIn units.now }
    ensures system { IfOk result (λ copy. copy.0 ≡ system.now) }
    ensures units { IfOk result (λ copy. map unit_of copy.1.items ≡ map unit_of units.now) }
    ensures asked { IfOk result (λ copy. map asked_in copy.1.items ≡ map asked_in units.now) }
    ensures stands { IfOk result (λ copy. map stand_in copy.1.items ≡ map stand_in units.now) }
{
    let system = system.share()?;
    Ok((system, duplicate_units(alloc, units)?))
}

// The last of three results, if the other two are no errors.
fn if_all<T: Drop>(
    first: Result<(), NoMemory>,
    second: Result<(), NoMemory>,
    last: Result<T, NoMemory>,
) -> Result<T, NoMemory>
    ensures first { OnOk result (IsOk first) }
    ensures second { OnOk result (IsOk second) }
    ensures last { IfOk result (λ t. last ≡ Ok t) }
{
    first?;
    second?;
    last
}

// No processes, and nothing that they have open.
fn empty<R: Routine>(
    alloc: Global,
    procs: &mut Procs<R>,
    clusters: &mut Clusters,
    timers: &mut Timers<R>,
    requests: &mut Reqs<R>,
    attention: &mut Attentions<R>,
)
    ensures procs { procs.new.items ≡ [] }
    ensures associations { clusters.new.common.associations ≡ [] }
    ensures timers { timers.new.items ≡ [] }
    ensures requests { requests.new.items ≡ [] }
    ensures attention { attention.new.items ≡ [] }
{
    *procs = Procs::new(alloc, Vec::new(alloc));
    *clusters = Clusters::new(alloc);
    *timers = Timers::new(alloc);
    *requests = Reqs::new(alloc);
    *attention = Attentions::new(alloc);
}

// The timers and the requests put away.
fn put_away_queues<R: Routine>(
    alloc: Global,
    timers: &Timers<R>,
    requests: &Reqs<R>,
) -> Result<(TimersSnapshot<R>, ReqsSnapshot<R>), NoMemory>
    ensures timers { IfOk result (λ copy. copy.0 ≡ timers.now.items) }
    ensures requests { IfOk result (λ copy. copy.1 ≡ requests.now.items) }
{
    let timers = timers.snapshot(alloc)?;
    Ok((timers, requests.snapshot(alloc)?))
}

impl<R: Routine> Core<R> {
    /// The same state put away. Each routine is made from its tag.
    pub fn snapshot(&self) -> Result<CoreSnapshot<R>, NoMemory>
        requires { AreIn self.now }
        ensures { IfOk result (λ snapshot. snapshot ≡ self.now.state) }
    {
        let alloc = self.alloc;
        let system = self.system.share()?;
        let clusters = self.clusters.snapshot(alloc)?;
        let queues = put_away_queues(alloc, &self.timers, &self.requests)?;
        let attention = self.attention.snapshot(alloc)?;
        let boxes = self.boxes.snapshot(alloc)?;
        let units = duplicate_units(alloc, self.units.as_slice())?;
        let procs = put_away(alloc, self.procs.as_slice())?;
        let (timers, requests) = queues;
        Ok(CoreSnapshot {
            system,
            time: self.time,
            next: self.next,
            procs,
            clusters,
            timers,
            requests,
            attention,
            boxes,
            units,
            short: self.short,
            alloc,
        })
    }
}

impl<R: Routine> CoreSnapshot<R> {
    // Has the lists of what was put away in place of others.
    fn restore_lists(
        &self,
        clusters: &mut Clusters,
        timers: &mut Timers<R>,
        requests: &mut Reqs<R>,
        attention: &mut Attentions<R>,
        boxes: &mut Boxes,
    ) -> Result<(), NoMemory>
        ensures clusters { OnOk result (clusters.new.common ≡ self.now.common) }
        ensures timers { OnOk result (timers.new.items ≡ self.now.timers) }
        ensures requests { OnOk result (requests.new.items ≡ self.now.requests) }
        ensures attention { OnOk result (attention.new.items ≡ self.now.attention) }
        ensures boxes { OnOk result (boxes.new.boxes ≡ self.now.boxes) }
    {
        self.clusters.restore(self.alloc, clusters)?;
        self.timers.restore(self.alloc, timers)?;
        self.requests.restore(requests)?;
        self.attention.restore(attention)?;
        self.boxes.restore(boxes)
    }

    /// Has the state that was put away in place of another, with room for what is promised, and nothing told. Each routine is made from its
    /// tag. If memory runs out, the other state is without processes and what they had open.
    pub fn restore(&self, core: &mut Core<R>) -> Result<(), NoMemory>
        requires { AreIn core.old }
        ensures state { OnOk result (core.new.state ≡ self.now) }
        ensures log { OnOk result (core.new.log.items ≡ []) }
        ensures home { AreIn core.new }
        ensures err { OnErr result (IsEmptied core.old.state core.new.state) }
    {
        let alloc = self.alloc;
        let outside = outside(alloc, &self.system, self.units.as_slice());
        let lists = self.restore_lists(
            &mut core.clusters,
            &mut core.timers,
            &mut core.requests,
            &mut core.attention,
            &mut core.boxes,
        );
        let procs = core.procs.restore(alloc, self.procs.as_slice());
        match if_all(lists, procs, outside) {
            Ok((system, units)) => {
                core.system = system;
                core.units = units;
                core.time = self.time;
                core.next = self.next;
                core.short = self.short;
                core.log.clear();
                Ok(())
            }
            Err(_) => {
                empty(
                    alloc,
                    &mut core.procs,
                    &mut core.clusters,
                    &mut core.timers,
                    &mut core.requests,
                    &mut core.attention,
                );
                core.short = None;
                Err(NoMemory)
            }
        }
    }
}
