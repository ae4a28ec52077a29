//! Runs that a seed chooses.

ghost use Rattle.std.specs.Prelude.{◌≤◌, IfOk, OnErr};
ghost use Rattle.vx_image.specs.WellFormed.{IsWellFormed};
ghost use Rattle.vx_exec.specs.Taken.{EndsRun, IsChosenRun, TakesSome};

use crate::exec::Exec;
use crate::seed::Seed;
use std::alloc::Global;
use vx_base::{End, NoMemory, Recs, Routine};
use vx_image::System;

/// Takes the events that a seed picks until the run has ended: the records, and how it ended. If memory runs out, the executive stands
/// where the last step led, and the records are lost.
pub fn take_run<R: Routine>(
    alloc: Global,
    exec: &mut Exec<R>,
    seed: u64,
) -> Result<(Recs, End), NoMemory>
    ensures run { IfOk result (λ run. EndsRun exec.old exec.new seed run.0 run.1) }
    ensures err { OnErr result (TakesSome exec.old exec.new) }
{
    let mut recs = Recs::new(alloc);
    let mut next = Seed { x: seed };
    'steps: loop {
        if let Some(end) = exec.ended() {
            return Ok((recs, end));
        }
        match exec.pick(&mut next) {
            Some(event) => recs.push(exec.step(event)?)?,
            None => unreachable!(),
        }
    }
}

/// The run of a system that a seed chooses, with at most as many records as the limit, 1 to 100,000: the executive after it,
/// its records, and how it ended.
pub fn run_system<R: Routine>(
    alloc: Global,
    system: System,
    seed: u64,
    limit: u32,
) -> Result<(Exec<R>, Recs, End), NoMemory>
    requires formed { IsWellFormed system }
    requires above { 1 ≤ limit }
    requires within { limit ≤ 100000 }
    ensures { IfOk result (λ run. IsChosenRun system seed limit run.0 run.1 run.2) }
{
    let mut exec = Exec::new(alloc, system, limit)?;
    match take_run(alloc, &mut exec, seed) {
        Ok((recs, end)) => Ok((exec, recs, end)),
        Err(failure) => {
            drop(exec);
            Err(failure)
        }
    }
}
