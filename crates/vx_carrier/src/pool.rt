//! A run by several threads.

ghost use Rattle.std.specs.Prelude.{◌≡◌, ◌≤◌, IfOk};
ghost use Rattle.vx_record.specs.Runs.{first};
ghost use Rattle.vx_exec.specs.View.{plan};
ghost use Rattle.vx_turn.specs.Seats.{IsOne};
ghost use Rattle.vx_carrier.specs.Desk.{HasRun};
ghost use Rattle.vx_carrier.specs.Pool.{IsRunOf};

use crate::executive::{Executive, Seat};
use crate::gate::Gate;
use crate::naming::Naming;
use std::alloc::Global;
use std::marker::Brand;
use std::sync::Wait;
use std::thread;
use std::thread::Threads;
use vx_base::{End, NoMemory, Recs, Routine};
use vx_exec::{Exec, LeasingExec};

// Carries until the run has ended, or memory is short, and hands the seat back.
fn carried<Q: Wait, R: Routine, G: Gate, J: Naming>(
    rt: &Q,
    executive: &Executive<R, G, J>,
    mut seat: Seat<R, J>,
) -> Seat<R, J>
    requires { IsOne executive.now.table seat }
    ensures { IsOne executive.now.table result }
{
    let _ = executive.carry(rt, &mut seat);
    seat
}

// What a run came to: its end, if it has ended and no unit is out.
fn outcome<R: Routine, J: Naming>(
    exec: LeasingExec<R>,
    recs: Recs,
) -> Result<(Exec<R>, Recs, End), NoMemory>
    requires { HasRun J.plan (record { leasing = exec; recs = recs }) }
    ensures { IfOk result (λ run. IsRunOf J.plan run.0 run.1 run.2) }
{
    if !exec.home() {
        return Err(NoMemory);
    }
    match exec.ended() {
        Some(end) => Ok((exec.into_exec(), recs, end)),
        None => Err(NoMemory),
    }
}

// The run of the executive whose system and limit J names.
fn pool<Q: Threads + Wait + Sync, R: Routine + Send, G: Gate + Sync, J: Naming + Send + Sync>(
    rt: &Q,
    alloc: Global,
    exec: Exec<R>,
    gate: G,
    carriers: u32,
) -> Result<(Exec<R>, Recs, End), NoMemory>
    requires named { plan exec ≡ J.plan }
    requires above { 1 ≤ carriers }
    requires within { carriers ≤ 16 }
    requires new { exec.state ≡ first exec.state.system }
    requires none { exec.taken ≡ 0 }
    ensures { IfOk result (λ run. IsRunOf J.plan run.0 run.1 run.2) }
{
    let (executive, seats) = Executive::<R, G, J>::new(alloc, exec, gate, carriers)?;
    let shared = &executive;
    let seats = thread::map_vec(
        rt,
        seats,
        &|seat: Seat<R, J>| -> Seat<R, J>
            requires { IsOne shared.now.table seat }
            ensures { IsOne shared.entry.now.table result }
        { carried(rt, shared, seat) },
    )?;
    let (exec, recs) = executive.close(seats);
    outcome::<R, J>(exec, recs)
}

/// Takes a run of an executive before its first event to its end, by so many carriers at once, 1 to 16, and gives the executive after
/// it, its records, and how it ended. The carriers choose which run it is. If memory runs out there is none.
pub fn run_pool<Q: Threads + Wait + Sync, R: Routine + Send, G: Gate + Sync>(
    rt: &Q,
    alloc: Global,
    exec: Exec<R>,
    gate: G,
    carriers: u32,
) -> Result<(Exec<R>, Recs, End), NoMemory>
    requires above { 1 ≤ carriers }
    requires within { carriers ≤ 16 }
    requires new { exec.state ≡ first exec.state.system }
    requires none { exec.taken ≡ 0 }
    ensures { IfOk result (λ run. IsRunOf (plan exec) run.0 run.1 run.2) }
{
    pool::<Q, R, G, Brand>(rt, alloc, exec, gate, carriers)
}
