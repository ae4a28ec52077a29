//! Services that change the access mode.

ghost use Rattle.std.specs.Prelude.{◌≡◌, IfErr, IsTrue, Err, Some};
ghost use Rattle.vx_base.specs.Modes.{inner, reaches};
ghost use Rattle.vx_record.specs.State.{current};
ghost use Rattle.vx_record.specs.Asts.{changed_mode, cmexec, cmkrnl, is_inside};
ghost use Rattle.vx_base.specs.declared.cond.Cond.TheVariants.{NoPriv};
ghost use Rattle.vx_procs.specs.Kernel.{DoesQuietly, with_state};
ghost use Rattle.vx_procs.specs.Ready.{IsReady};
ghost use Rattle.vx_ctl.specs.Answers.{cond_of};

use crate::refused::Refused;
use vx_base::{Cond, FrameKind, Mode, Pid, Routine};
use vx_procs::Core;

// The inner one of two modes.
fn inner_of(a: Mode, b: Mode) -> Mode
    ensures { result ≡ inner a b }
{
    if a.rank() < b.rank() { a } else { b }
}

// Whether a mode is executive or kernel mode.
fn is_inside(mode: Mode) -> bool
    ensures { result ≡ is_inside mode }
{
    mode.rank() <= 1
}

// Enters a routine in a mode that is not further out than the caller's.
#[tactic(auto, using(crate::proofs::Inward::may_stand))]
fn enter<R: Routine>(core: &mut Core<R>, p: Pid, mode: Mode, routine: R)
    requires ready { IsReady core.old p }
    requires inward { IsTrue (reaches (current core.old.state p) mode) }
    ensures { core.new ≡ with_state core.old (changed_mode core.old.state p mode (R.tagged routine)) }
{
    let frame = core.new_frame(p, FrameKind::Change, mode, routine.enter(), 0);
    core.push_frame(p, frame);
}

fn refuse<R>(routine: R) -> Result<Cond, Refused<R>>
    ensures { result ≡ Err (record { cond = NoPriv; ast = Some routine }) }
{
    Err(Refused {
        cond: Cond::NoPriv,
        ast: Some(routine),
    })
}

/// $CMEXEC: enters a routine in executive mode, or in kernel mode if the caller is there: NOPRIV if the caller is
/// further out and has neither CMEXEC nor CMKRNL. A refusal hands the routine back.
#[tactic(auto, using(crate::proofs::Inward::inner_reached))]
pub fn cmexec<R: Routine>(core: &mut Core<R>, p: Pid, routine: R) -> Result<Cond, Refused<R>>
    requires { IsReady core.old p }
    ensures does { DoesQuietly (cmexec core.old.state p (R.tagged routine)) (cond_of result) core.old core.new }
    ensures handed { IfErr result (λ refused. refused.ast ≡ Some routine) }
{
    let mode = core.current_mode(p);
    let privs = core.privs(p);
    if !(is_inside(mode) || privs.cmexec || privs.cmkrnl) {
        return refuse(routine);
    }
    enter(core, p, inner_of(mode, Mode::Exec), routine);
    Ok(Cond::Normal)
}

/// $CMKRNL: enters a routine in kernel mode: NOPRIV if the caller is in user or supervisor mode and has no CMKRNL. A
/// refusal hands the routine back.
#[tactic(auto, using(crate::proofs::Inward::kernel_reached))]
pub fn cmkrnl<R: Routine>(core: &mut Core<R>, p: Pid, routine: R) -> Result<Cond, Refused<R>>
    requires { IsReady core.old p }
    ensures does { DoesQuietly (cmkrnl core.old.state p (R.tagged routine)) (cond_of result) core.old core.new }
    ensures handed { IfErr result (λ refused. refused.ast ≡ Some routine) }
{
    let mode = core.current_mode(p);
    if !(is_inside(mode) || core.privs(p).cmkrnl) {
        return refuse(routine);
    }
    enter(core, p, Mode::Kernel, routine);
    Ok(Cond::Normal)
}
