//! How a process stands.

ghost use Rattle.std.specs.Prelude.{◌≡◌};
ghost use Rattle.vx_record.specs.Standing.{code_of, framed, standing_of, waiting};
ghost use Rattle.vx_record.specs.State.{IsProcess, process_at};

use vx_base::{Pid, Routine, Wait};
use vx_procs::Core;
use vx_record::Standing;

// How a process with a frame stands, by what the frame waits for.
fn waiting(wait: Option<Wait>) -> Standing
    ensures { result ≡ waiting wait }
{
    match wait {
        None => Standing::Active,
        Some(Wait::Hiber) => Standing::Hiber,
        Some(Wait::Flags(..) | Wait::Synch(..)) => Standing::Flag,
    }
}

// How a process stands that is neither deleted nor suspended.
fn framed<R: Routine>(core: &Core<R>, p: Pid) -> Standing
    requires { IsProcess core.now.state p }
    ensures { result ≡ framed (process_at core.now.state p).frames }
{
    match core.top(p) {
        None => Standing::Rundown,
        Some(frame) => waiting(frame.wait),
    }
}

/// How a process stands, and its exit code, 0 unless it is gone.
pub(crate) fn standing_of<R: Routine>(core: &Core<R>, p: Pid) -> (Standing, u32)
    requires { IsProcess core.now.state p }
    ensures standing { result.0 ≡ standing_of (process_at core.now.state p) }
    ensures code { result.1 ≡ code_of (process_at core.now.state p) }
{
    if core.is_deleted(p) {
        return (Standing::Gone, core.exit_code(p));
    }
    if core.is_suspended(p) {
        return (Standing::Susp, 0);
    }
    (framed(core, p), 0)
}
