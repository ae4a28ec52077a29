//! Services on timers.

ghost use Rattle.std.specs.Prelude.{◌≡◌, ◌≤◌, ◌<◌, ◌+◌, ◌^◌, false, IfErr, Some, Option, is_some, option_map, length};
ghost use Rattle.vx_record.specs.State.{IsProcess};
ghost use Rattle.vx_record.specs.Charges.{exceeds, timer_need};
ghost use Rattle.vx_record.specs.Timers.{cantim, mode_of_ast, open_timer, setimr};
ghost use Rattle.vx_record.specs.Sound.{AreOrdered, timer_id};
ghost use Rattle.vx_procs.specs.Kernel.{Acts, Does, Fits};
ghost use Rattle.vx_procs.specs.Ready.{HasSpares, IsReady};
ghost use Rattle.vx_ctl.specs.Answers.{cond_of};

use crate::flags::{named_flag, put_cell};
use crate::refused::Refused;
use vx_base::{Cond, Effect, Mode, Opened, Pid, Routine, outer_of};
use vx_procs::{Core, drop_timers, timer_need};
use vx_timers::{What, Which};

/// The mode of an AST, if there is one.
pub fn mode_of_ast<R: Routine>(mode: Mode, routine: &Option<R>) -> Option<Mode>
    ensures { result ≡ mode_of_ast mode (option_map R.tagged routine.now) }
{
    match routine {
        Some(_) => Some(mode),
        None => None,
    }
}

// Opens a timer so many ticks ahead, with an AST or without; no quota stands against it.
fn open_timer<R: Routine>(
    core: &mut Core<R>,
    p: Pid,
    efn: u32,
    delta: u32,
    routine: Option<R>,
    reqid: u32,
)
    requires made { IsProcess core.old.state p }
    requires spares { HasSpares core.old }
    requires timer { length core.old.state.timers + 1 ≤ core.old.timers }
    requires ids { core.old.state.next < 4294967295 }
    requires time { core.old.state.time < 2 ^ 63 }
    requires within { exceeds core.old.state p (timer_need (is_some routine)) ≡ false }
    requires room { Fits core.old (open_timer core.old.state p efn delta (option_map R.tagged routine) reqid).effects }
    ensures { Acts (open_timer core.old.state p efn delta (option_map R.tagged routine) reqid) core.old core.new }
{
    let mode = core.current_mode(p);
    let id = core.new_id();
    core.tell(Effect::Open {
        id,
        kind: Opened::Timer,
        p,
        mode: mode_of_ast(mode, &routine),
        n: 0,
    });
    let what = What::Timer {
        efn,
        reqid,
        mode,
        routine,
    };
    core.add_timer(p, id, delta, what);
}

/// $SETIMR: clears an event flag, and sets a timer so many ticks ahead, with an AST or without: ILLEFC and UNASEFC as $CLREF
/// does, EXQUOTA beyond the limit of timers or of ASTs. A refusal hands the routine back.
#[tactic(auto, using(crate::proofs::Told::told_none, crate::proofs::Told::mapped_some))]
pub fn setimr<R: Routine>(
    core: &mut Core<R>,
    p: Pid,
    efn: u32,
    delta: u32,
    routine: Option<R>,
    reqid: u32,
) -> Result<Cond, Refused<R>>
    requires ready { IsReady core.old p }
    requires room { Fits core.old (setimr core.old.state p efn delta (option_map R.tagged routine) reqid).effects }
    ensures does { Does (setimr core.old.state p efn delta (option_map R.tagged routine) reqid) (cond_of result) core.old core.new }
    ensures handed { IfErr result (λ refused. refused.ast ≡ routine) }
{
    let cell = match named_flag(core, p, efn) {
        Ok(cell) => cell,
        Err(cond) => return Err(Refused { cond, ast: routine }),
    };
    if core.exceeds(p, timer_need(routine.is_some())) {
        return Err(Refused {
            cond: Cond::ExQuota,
            ast: routine,
        });
    }
    put_cell(core, cell, false);
    open_timer(core, p, efn, delta, routine, reqid);
    Ok(Cond::Normal)
}

/// $CANTIM: ends the caller's timers that are not of a mode further in than the one that is named and the caller's, with an
/// identification, 0 for any. What they are charged is given back.
pub fn cantim<R: Routine>(core: &mut Core<R>, p: Pid, reqid: u32, mode: Mode) -> Cond
    requires ready { IsReady core.old p }
    requires order { AreOrdered timer_id 0 core.old.state.next core.old.state.timers }
    requires room { Fits core.old (cantim core.old.state p reqid mode).effects }
    ensures { Does (cantim core.old.state p reqid mode) result core.old core.new }
{
    let mode = outer_of(mode, core.current_mode(p));
    drop_timers(core, Which::Cancelled(p, reqid, mode));
    Cond::Normal
}
