//! Services on ASTs.

ghost use Rattle.std.specs.Prelude.{◌≡◌, IfErr, Some};
ghost use Rattle.vx_record.specs.Asts.{dclast, setast};
ghost use Rattle.vx_procs.specs.Kernel.{Does, Fits};
ghost use Rattle.vx_procs.specs.Ready.{IsReady};
ghost use Rattle.vx_ctl.specs.Answers.{cond_of};

use crate::flags::how_it_was;
use crate::refused::Refused;
use vx_base::{Cond, Effect, Mode, Opened, Pid, Routine, outer_of};
use vx_procs::{Core, ast_need};

/// $SETAST: enables AST delivery in the caller's mode, or disables it if the number is 0. Its condition tells how it was.
pub fn setast<R: Routine>(core: &mut Core<R>, p: Pid, enb: u32) -> Cond
    requires ready { IsReady core.old p }
    requires room { Fits core.old (setast core.old.state p enb).effects }
    ensures { Does (setast core.old.state p enb) result core.old core.new }
{
    let mode = core.current_mode(p);
    let on = enb != 0;
    core.tell(Effect::Enb { p, mode, bit: on });
    let was = core.set_delivery(p, mode, on);
    how_it_was(was)
}

/// $DCLAST: queues a routine as an AST of the caller, in a mode that is not further in than the caller's: EXQUOTA beyond the
/// limit of ASTs. A refusal hands the routine back.
pub fn dclast<R: Routine>(
    core: &mut Core<R>,
    p: Pid,
    routine: R,
    mode: Mode,
) -> Result<Cond, Refused<R>>
    requires ready { IsReady core.old p }
    requires room { Fits core.old (dclast core.old.state p (R.tagged routine) mode).effects }
    ensures does { Does (dclast core.old.state p (R.tagged routine) mode) (cond_of result) core.old core.new }
    ensures handed { IfErr result (λ refused. refused.ast ≡ Some routine) }
{
    if core.exceeds(p, ast_need(true)) {
        return Err(Refused {
            cond: Cond::ExQuota,
            ast: Some(routine),
        });
    }
    let mode = outer_of(mode, core.current_mode(p));
    let id = core.new_id();
    core.tell(Effect::Open {
        id,
        kind: Opened::Ast,
        p,
        mode: Some(mode),
        n: 0,
    });
    core.tell(Effect::Que(id));
    core.queue_ast(p, id, mode, routine, true);
    Ok(Cond::Normal)
}
