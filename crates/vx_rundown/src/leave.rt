//! Exit.

ghost use Rattle.vx_record.specs.Rundown.{exit};
ghost use Rattle.vx_procs.specs.Kernel.{Does, Fits};
ghost use Rattle.vx_procs.specs.Ready.{IsReady};

use vx_base::{Cond, Pid, Routine};
use vx_procs::Core;

/// $EXIT: all frames of the caller go, with an exit code, and it goes on to its exit handlers.
pub fn exit<R: Routine>(core: &mut Core<R>, p: Pid, code: u32) -> Cond
    requires ready { IsReady core.old p }
    requires room { Fits core.old (exit core.old.state p code).effects }
    ensures { Does (exit core.old.state p code) result core.old core.new }
{
    core.exit(p, code);
    Cond::Normal
}
