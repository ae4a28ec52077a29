//! The state as a number, by which equal states are looked up.

ghost use Rattle.std.specs.Prelude.{◌≡◌, map};
ghost use Rattle.vx_base.specs.Flags.{one};
ghost use Rattle.vx_base.specs.Lists.{first};
ghost use Rattle.vx_procs.specs.Digest.{counts_of, digest_of, mix_processes, mix_standing, mix_units, mix_values, mix_work, phase_number, place_in};
ghost use Rattle.std.specs.List.{AllByRecursion};
ghost use Rattle.vx_procs.specs.Units.{IsIn};
ghost use Rattle.vx_procs.specs.Kernel.{AreIn};
ghost use Rattle.vx_procs.specs.View.{process, unit_of};

use crate::kept::KeptUnit;
use crate::process::Proc;
use crate::procs::Core;
use vx_base::{Phase, Routine};
use vx_same::mix;

// A truth value as a number, 0 or 1.
fn one(on: bool) -> u64
    ensures { result ≡ one on }
{
    if on { 1 } else { 0 }
}

// How far a process is on its way out, 0 to 9.
fn phase_number(phase: Phase) -> u64
    ensures { result ≡ phase_number phase }
{
    match phase {
        Phase::Alive => 0,
        Phase::Handlers(mode) => mode.rank() as u64 + 1,
        Phase::Draining(mode) => mode.rank() as u64 + 5,
        Phase::Deleted => 9,
    }
}

impl<R: Routine> Proc<R> {
    // A digest with what it stores and its event flags.
    fn mix_values(&self, digest: u64) -> u64
        ensures { result ≡ mix_values digest (process self.now) }
    {
        let stored = self.store.mix(digest);
        let flags = mix(stored, self.cluster_0.bits() as u64);
        mix(flags, self.cluster_1.bits() as u64)
    }

    // The statement of its top frame, 0 if it has none.
    fn top_place(&self) -> u32
        ensures { result ≡ place_in (first (process self.now).frames) }
    {
        match self.frames.top() {
            Some(frame) => frame.pc,
            None => 0,
        }
    }

    // A digest with its frames and ASTs.
    fn mix_work(&self, digest: u64) -> u64
        ensures { result ≡ mix_work digest (process self.now) }
    {
        let depth = mix(digest, self.frames.len() as u64);
        let place = mix(depth, self.top_place() as u64);
        mix(place, self.asts.len() as u64)
    }

    // A digest with how it stands.
    fn mix_standing(&self, digest: u64) -> u64
        ensures { result ≡ mix_standing digest (process self.now) }
    {
        let wake = mix(digest, one(self.wake_pending));
        let suspended = mix(wake, one(self.suspended));
        mix(suspended, phase_number(self.phase))
    }
}

// A digest with processes.
fn mix_procs<R: Routine>(digest: u64, procs: &[Proc<R>]) -> u64
    ensures { result ≡ mix_processes digest (map process procs.now) }
{
    let mut mixed = digest;
    for proc in procs {
        mixed = proc.mix_standing(proc.mix_work(proc.mix_values(mixed)));
    }
    mixed
}

// A digest with units.
#[tactic(auto, using(crate::proofs::Inside::in_there))]
fn mix_units(digest: u64, units: &[KeptUnit]) -> u64
    requires { AllByRecursion IsIn units.now }
    ensures { result ≡ mix_units digest (map unit_of units.now) }
{
    let mut mixed = digest;
    for unit in units {
        mixed = mix(mixed, unit.services() as u64);
    }
    mixed
}

impl<R: Routine> Core<R> {
    // The time, the next id, and how many requests and timers there are.
    fn mix_counts(&self) -> u64
        ensures { result ≡ counts_of self.now.state }
    {
        let ids = mix(self.time, self.next as u64);
        let requests = mix(ids, self.requests.len() as u64);
        mix(requests, self.timers.len() as u64)
    }

    /// The state as a number. Equal states have the same; states that differ have the same seldom. Takes no memory.
    pub fn digest(&self) -> u64
        requires { AreIn self.now }
        ensures { result ≡ digest_of self.now.state }
    {
        let procs = mix_procs(self.mix_counts(), self.procs.as_slice());
        let units = mix_units(procs, self.units.as_slice());
        self.boxes.mix(self.requests.mix(units))
    }
}
