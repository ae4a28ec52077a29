//! Deletion.

ghost use Rattle.std.specs.Prelude.{IsTrue};
ghost use Rattle.vx_record.specs.Rundown.{deleted_by, delprc};
ghost use Rattle.vx_record.specs.State.{IsProcess, process_at};
ghost use Rattle.vx_procs.specs.Kernel.{Does, Fits};
ghost use Rattle.vx_procs.specs.Ready.{IsReady};
ghost use Rattle.vx_procs.specs.Words.{handlers_have_own_ids};

use crate::handlers::drop_handlers;
use vx_base::{Cond, Pid, Routine};
use vx_ctl::process_test;
use vx_procs::{Core, Sought};

// A process is named for deletion: its frames go, and its exit handlers end.
fn delete<R: Routine>(core: &mut Core<R>, q: Pid) -> Cond
    requires made { IsProcess core.old.state q }
    requires ids { IsTrue (handlers_have_own_ids (process_at core.old.state q).handlers) }
    requires room { Fits core.old (deleted_by core.old.state q).effects }
    ensures { Does (deleted_by core.old.state q) result core.old core.new }
{
    core.delete(q);
    drop_handlers(core, q, Sought::Any);
    Cond::Normal
}

/// $DELPRC: names for deletion the process that a number names, 0 for the caller: its frames go, its exit handlers end without being
/// entered, and it is run down: NONEXPR if there is no such process, NOPRIV if the caller may not control it.
pub fn delprc<R: Routine>(core: &mut Core<R>, p: Pid, n: u32) -> Cond
    requires ready { IsReady core.old p }
    requires ids { (q : Pid) → IsProcess core.old.state q → IsTrue (handlers_have_own_ids (process_at core.old.state q).handlers) }
    requires room { Fits core.old (delprc core.old.state p n).effects }
    ensures { Does (delprc core.old.state p n) result core.old core.new }
{
    match process_test(core, p, n) {
        Ok(q) => delete(core, q),
        Err(cond) => cond,
    }
}
