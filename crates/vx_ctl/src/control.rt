//! Services that control processes.

ghost use Rattle.std.specs.Prelude.{◌≡◌, IfOk, IsTrue};
ghost use Rattle.vx_record.specs.Control.{exists_for_control, forced, forcex, may_control, named_process, process_test, resume, same_group, suspnd, wake};
ghost use Rattle.vx_record.specs.State.{IsProcess, process_at};
ghost use Rattle.vx_procs.specs.Kernel.{Does, DoesQuietly, Fits};
ghost use Rattle.vx_procs.specs.Ready.{IsReady};

use vx_base::{Cond, Effect, Entry, Mode, Opened, Pid, Routine};
use vx_procs::Core;

// The process that a number names: 0 is the caller.
fn named_process(p: Pid, n: u32) -> Pid
    ensures { result ≡ named_process p n }
{
    if n == 0 { p } else { Pid(n) }
}

// Whether a process can be controlled: it was made, is not deleted, and is not to be deleted.
fn exists_for_control<R: Routine>(core: &Core<R>, q: Pid) -> bool
    ensures exists { result ≡ exists_for_control core.now.state q.0 }
    ensures made { IsTrue result → IsProcess core.now.state q }
{
    if q.0 == 0 || core.process_count() < q.0 as usize {
        return false;
    }
    !(core.is_deleted(q) || core.is_delete_pending(q))
}

// Whether two processes are of one group.
fn has_same_group<R: Routine>(core: &Core<R>, p: Pid, q: Pid) -> bool
    requires caller { IsProcess core.now.state p }
    requires target { IsProcess core.now.state q }
    ensures { result ≡ same_group (process_at core.now.state p) (process_at core.now.state q) }
{
    core.group(p) == core.group(q)
}

// Whether a process may control another: they are one, or of one group and member; or they are of one group and it holds GROUP; or
// it holds WORLD.
fn may_control<R: Routine>(core: &Core<R>, p: Pid, q: Pid) -> bool
    requires caller { IsProcess core.now.state p }
    requires target { IsProcess core.now.state q }
    ensures { result ≡ may_control core.now.state p q }
{
    let is_near = has_same_group(core, p, q);
    let is_own = core.member(p) == core.member(q);
    let privs = core.privs(p);
    p.0 == q.0 || (is_near && is_own) || (is_near && privs.group) || privs.world
}

/// The process test: NONEXPR if the number names no process that can be controlled, NOPRIV if the caller may not.
pub fn process_test<R: Routine>(core: &Core<R>, p: Pid, n: u32) -> Result<Pid, Cond>
    requires { IsProcess core.now.state p }
    ensures test { result ≡ process_test core.now.state p n }
    ensures made { IfOk result (λ q. IsProcess core.now.state q) }
{
    let q = named_process(p, n);
    if !exists_for_control(core, q) {
        return Err(Cond::NonExpr);
    }
    if may_control(core, p, q) {
        Ok(q)
    } else {
        Err(Cond::NoPriv)
    }
}

/// $WAKE: a wake pends for the process that a number names, 0 for the caller: NONEXPR if there is no such process, NOPRIV if
/// the caller may not control it.
pub fn wake<R: Routine>(core: &mut Core<R>, p: Pid, n: u32) -> Cond
    requires { IsReady core.old p }
    ensures { DoesQuietly (wake core.old.state p n) result core.old core.new }
{
    match process_test(core, p, n) {
        Ok(q) => {
            core.set_wake(q, true);
            Cond::Normal
        }
        Err(cond) => cond,
    }
}

/// $SUSPND: suspends a process, and refuses as $WAKE does. A suspended process has no event.
pub fn suspnd<R: Routine>(core: &mut Core<R>, p: Pid, n: u32) -> Cond
    requires { IsReady core.old p }
    ensures { DoesQuietly (suspnd core.old.state p n) result core.old core.new }
{
    match process_test(core, p, n) {
        Ok(q) => {
            core.set_suspended(q, true);
            Cond::Normal
        }
        Err(cond) => cond,
    }
}

/// $RESUME: ends the suspension of a process, if it is suspended, and refuses as $WAKE does.
pub fn resume<R: Routine>(core: &mut Core<R>, p: Pid, n: u32) -> Cond
    requires { IsReady core.old p }
    ensures { DoesQuietly (resume core.old.state p n) result core.old core.new }
{
    match process_test(core, p, n) {
        Ok(q) => {
            core.set_suspended(q, false);
            Cond::Normal
        }
        Err(cond) => cond,
    }
}

// $FORCEX, if its tests are passed.
fn force<R: Routine>(core: &mut Core<R>, p: Pid, q: Pid, code: u32) -> Cond
    requires ready { IsReady core.old p }
    requires target { IsProcess core.old.state q }
    requires room { Fits core.old (forced core.old.state code q).effects }
    ensures { Does (forced core.old.state code q) result core.old core.new }
{
    let id = core.new_id();
    core.tell(Effect::Open {
        id,
        kind: Opened::Force,
        p: q,
        mode: Some(Mode::User),
        n: 0,
    });
    core.tell(Effect::Que(id));
    core.queue_ast(q, id, Mode::User, R::scripted(Entry::Exit(code)), false);
    Cond::Normal
}

/// $FORCEX: queues the exit of a process with a code as an AST of user mode, for which nobody is charged; it refuses as $WAKE does.
/// It takes no memory: the process has a spare place.
#[tactic(auto, using(crate::proofs::Told::told_none))]
pub fn forcex<R: Routine>(core: &mut Core<R>, p: Pid, n: u32, code: u32) -> Cond
    requires ready { IsReady core.old p }
    requires room { Fits core.old (forcex core.old.state p n code).effects }
    ensures { Does (forcex core.old.state p n code) result core.old core.new }
{
    match process_test(core, p, n) {
        Ok(q) => force(core, p, q, code),
        Err(cond) => cond,
    }
}
