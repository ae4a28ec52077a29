//! The executive as a machine whose runs are explored.

ghost use Rattle.std.specs.Prelude.{◌≡◌, ◌<◌, IfOk, OnOk};
ghost use Rattle.vx_endings.specs.Explored.{after_in, enabled_in, ending_in, start_of};

use crate::ending::RunEnding;
use std::alloc::Global;
use std::marker::Model;
use vx_base::{Bytes, End, NoMemory, Scripted};
use vx_exec::{Exec, ExecSnapshot};
use vx_explore::Machine;
use vx_trailer::print_outcome;

/// The executive of a system at one moment of a run, put away, and how many ways go on from there.
#[derive(Drop)]
pub struct Explored {
    snapshot: ExecSnapshot<Scripted>,
    ways: u32,
    alloc: Global,
}

impl Model for Explored {
    ghost use Rattle.std.specs.Prelude.{◌≡◌};
    ghost use Rattle.vx_endings.specs.Explored.{enabled_in};
    ghost use Rattle.vx_exec.specs.View.{Executive};

    ghost Value = { Executive };

    ghost view = { λ x. x.snapshot };

    ghost invariant = { λ x. x.ways ≡ enabled_in x.snapshot };
}

// How many events are enabled, none once the run has ended.
fn ways_on(exec: &Exec<Scripted>) -> u32
    ensures { result ≡ enabled_in exec.now }
{
    match exec.ended() {
        Some(_) => 0,
        None => exec.count(),
    }
}

// Takes the enabled event at a place, from 0.
fn step_on(exec: &mut Exec<Scripted>, pick: u32) -> Result<(), NoMemory>
    requires { pick < enabled_in exec.old }
    ensures after { OnOk result (exec.new ≡ after_in exec.old pick) }
    ensures origin { start_of exec.new ≡ start_of exec.old }
{
    match exec.enabled(pick) {
        Some(event) => exec.advance(event),
        None => unreachable!(),
    }
}

// How a run ends that stops here.
fn ending_here(alloc: Global, exec: &Exec<Scripted>) -> Result<RunEnding, NoMemory>
    ensures { IfOk result (λ ending. ending ≡ ending_in exec.now) }
{
    let mut trailer = Bytes::new(alloc);
    print_outcome(exec, b" ", &mut trailer)?;
    let end = exec.ended().unwrap_or(End::Limit);
    Ok(RunEnding { end, trailer })
}

impl Explored {
    /// An executive, whose runs from here on are explored.
    pub fn new(alloc: Global, exec: &Exec<Scripted>) -> Result<Explored, NoMemory>
        ensures { IfOk result (λ explored. explored ≡ exec.now) }
    {
        Ok(Explored {
            snapshot: exec.snapshot()?,
            ways: ways_on(exec),
            alloc,
        })
    }
}

impl Machine for Explored {
    ghost use Rattle.vx_endings.specs.Explored.{after_in, digest_in, enabled_in, ending_in, start_of};

    type Ending = RunEnding;

    type Running = Exec<Scripted>;

    ghost state_of = { λ exec. exec };

    ghost origin = { start_of };

    ghost enabled = { enabled_in };

    ghost after = { after_in };

    ghost ending_of = { ending_in };

    ghost digest_of = { digest_in };

    fn count(&self) -> u32 {
        self.ways
    }

    fn take(&self, pick: u32, exec: &mut Exec<Scripted>) -> Result<(), NoMemory> {
        self.snapshot.restore(exec)?;
        step_on(exec, pick)
    }

    fn put_away(alloc: Global, exec: &Exec<Scripted>) -> Result<Explored, NoMemory> {
        Explored::new(alloc, exec)
    }

    fn ending(&self, exec: &mut Exec<Scripted>) -> Result<RunEnding, NoMemory> {
        self.snapshot.restore(exec)?;
        ending_here(self.alloc, exec)
    }

    fn same(&self, exec: &Exec<Scripted>) -> bool {
        self.snapshot.is_at(exec)
    }

    fn digest(exec: &Exec<Scripted>) -> u64 {
        exec.digest()
    }
}
