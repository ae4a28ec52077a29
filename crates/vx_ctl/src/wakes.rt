//! Scheduled wakes.

ghost use Rattle.vx_record.specs.State.{IsProcess};
ghost use Rattle.vx_record.specs.Sound.{AreOrdered, timer_id};
ghost use Rattle.vx_record.specs.Timers.{canwak, scheduled, schdwk};
ghost use Rattle.vx_procs.specs.Kernel.{Does, Fits};
ghost use Rattle.vx_procs.specs.Ready.{IsReady};

use crate::control::process_test;
use vx_base::{Cond, Effect, Opened, Pid, Routine};
use vx_procs::{Core, ast_need, drop_timers};
use vx_timers::{What, Which};

// $SCHDWK, if the process test is passed.
fn schedule<R: Routine>(core: &mut Core<R>, p: Pid, q: Pid, delta: u32, repeat: u32) -> Cond
    requires ready { IsReady core.old p }
    requires target { IsProcess core.old.state q }
    requires room { Fits core.old (scheduled core.old.state p delta repeat q).effects }
    ensures { Does (scheduled core.old.state p delta repeat q) result core.old core.new }
{
    if core.exceeds(p, ast_need(true)) {
        return Cond::ExQuota;
    }
    let id = core.new_id();
    core.tell(Effect::Open {
        id,
        kind: Opened::Wake,
        p,
        mode: None,
        n: repeat,
    });
    core.add_timer(p, id, delta, What::Wake { target: q, repeat });
    Cond::Normal
}

/// $SCHDWK: schedules a wake, so many ticks ahead, of the process that a number names, 0 for the caller, and again after so many
/// ticks if these are not 0: it refuses as $WAKE does, and with EXQUOTA beyond the caller's limit of ASTs.
#[tactic(auto, using(crate::proofs::Told::told_none))]
pub fn schdwk<R: Routine>(core: &mut Core<R>, p: Pid, n: u32, delta: u32, repeat: u32) -> Cond
    requires ready { IsReady core.old p }
    requires room { Fits core.old (schdwk core.old.state p n delta repeat).effects }
    ensures { Does (schdwk core.old.state p n delta repeat) result core.old core.new }
{
    match process_test(core, p, n) {
        Ok(q) => schedule(core, p, q, delta, repeat),
        Err(cond) => cond,
    }
}

/// $CANWAK: ends the scheduled wakes of the process that a number names, 0 for the caller, whoever scheduled them; it refuses as
/// $WAKE does. What they are charged is given back.
#[tactic(auto, using(crate::proofs::Told::told_none))]
pub fn canwak<R: Routine>(core: &mut Core<R>, p: Pid, n: u32) -> Cond
    requires ready { IsReady core.old p }
    requires order { AreOrdered timer_id 0 core.old.state.next core.old.state.timers }
    requires room { Fits core.old (canwak core.old.state p n).effects }
    ensures { Does (canwak core.old.state p n) result core.old core.new }
{
    match process_test(core, p, n) {
        Ok(q) => {
            drop_timers(core, Which::WakesFor(q));
            Cond::Normal
        }
        Err(cond) => cond,
    }
}
