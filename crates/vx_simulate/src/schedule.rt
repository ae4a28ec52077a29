//! Runs that a list of places chooses.

ghost use Rattle.std.specs.Prelude.{◌≡◌, ◌<◌, ◌≤◌, ◌+◌, IfErr, IfOk, length};
ghost use Rattle.vx_image.specs.WellFormed.{IsWellFormed};
ghost use Rattle.vx_record.specs.Events.{enabled};
ghost use Rattle.vx_simulate.specs.Picking.{EndsPicked, IsPickedRun, stops_at, tells_missing};
ghost use Rattle.vx_simulate.specs.declared.schedule.PickFail.TheVariants as fail;

use crate::places::{next_place, places_after};
use std::alloc::Global;
use vx_base::{End, NoMemory, Recs, Routine};
use vx_exec::Exec;
use vx_image::System;

/// Why a run was not taken to its end.
#[derive(Clone, Copy, Debug, PartialEq, Eq)]
pub enum PickFail {
    /// No event is enabled at the place of the record of this number, from 1: so many are enabled there.
    Missing { number: u32, count: u32 },
    /// No memory was found.
    NoMemory,
}

impl From<NoMemory> for PickFail {
    ghost from_gives = { λ _ e. e ≡ fail.NoMemory };

    fn from(_: NoMemory) -> Self {
        PickFail::NoMemory
    }
}

/// That the next record's place is not there.
fn missing<R: Routine>(exec: &Exec<R>) -> PickFail
    requires { exec.now.taken < exec.now.limit }
    ensures { result ≡ fail.Missing (exec.now.taken + 1) (length (enabled exec.now.state)) }
{
    let limit = exec.limit();
    let taken = exec.taken();
    if limit <= taken {
        unreachable!()
    }
    PickFail::Missing {
        number: taken + 1,
        count: exec.count(),
    }
}

/// Takes the events at these places until the run has ended: the records, and how it ended.
fn take_picks<R: Routine>(
    alloc: Global,
    exec: &mut Exec<R>,
    places: &[u32],
) -> Result<(Recs, End), PickFail>
    ensures done { IfOk result (λ run. EndsPicked exec.old exec.new places.now run.0 run.1) }
    ensures missing { IfErr result (stops_at exec.old exec.new places.now) }
{
    let mut recs = Recs::new(alloc);
    let mut left = places;
    'steps: loop {
        if let Some(end) = exec.ended() {
            return Ok((recs, end));
        }
        match exec.enabled(next_place(left)) {
            Some(event) => recs.push(exec.step(event)?)?,
            None => return Err(missing(exec)),
        }
        left = places_after(left);
    }
}

/// The run of a system that these places choose, with at most as many records as the limit, 1 to 100,000: the executive after
/// it, its records, and how it ended. It takes none if a place is not there.
pub fn run_picks<R: Routine>(
    alloc: Global,
    system: System,
    places: &[u32],
    limit: u32,
) -> Result<(Exec<R>, Recs, End), PickFail>
    requires formed { IsWellFormed system }
    requires above { 1 ≤ limit }
    requires within { limit ≤ 100000 }
    ensures done { IfOk result (λ run. IsPickedRun system places.now limit run.0 run.1 run.2) }
    ensures missing { IfErr result (tells_missing system places.now limit) }
{
    let mut exec = Exec::new(alloc, system, limit)?;
    match take_picks(alloc, &mut exec, places) {
        Ok((recs, end)) => Ok((exec, recs, end)),
        Err(fail) => {
            drop(exec);
            Err(fail)
        }
    }
}
