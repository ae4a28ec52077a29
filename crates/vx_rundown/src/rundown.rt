//! Rundown of a process that has no frame left.

ghost use Rattle.std.specs.Prelude.{◌≡◌};
ghost use Rattle.vx_record.specs.Rundown.{gone, rundown, run_down};
ghost use Rattle.vx_procs.specs.Kernel.{Does, Fits};
ghost use Rattle.vx_rundown.specs.Leaving.{IsLeaving};
ghost use Rattle.vx_rundown.specs.Steps.{modes_from, next_inner};

use crate::handlers::drop_handlers;
use crate::mode::{drain, pass};
use vx_base::{Answer, Effect, Mode, Phase, Pid, Routine};
use vx_procs::{Core, Sought, drop_timers};
use vx_timers::Which;

// The mode next to a mode, further in.
fn next_inner(mode: Mode) -> Option<Mode>
    ensures { result ≡ next_inner mode }
{
    match mode {
        Mode::User => Some(Mode::Super),
        Mode::Super => Some(Mode::Exec),
        Mode::Exec => Some(Mode::Kernel),
        Mode::Kernel => None,
    }
}

// The last of a process: its exit handlers and the wakes that are scheduled for it end, and it is deleted.
fn end<R: Routine>(core: &mut Core<R>, p: Pid) -> Answer
    requires leaving { IsLeaving core.old p }
    requires room { Fits core.old (gone core.old.state p).effects }
    ensures { Does (gone core.old.state p) result core.old core.new }
{
    drop_handlers(core, p, Sought::Any);
    drop_timers(core, Which::WakesFor(p));
    core.tell(Effect::Gone(p));
    core.set_phase(p, Phase::Deleted);
    Answer::Gone
}

// Runs a process down, mode after mode, from a mode inward, to the next answer.
fn run_down<R: Routine>(core: &mut Core<R>, p: Pid, outermost: Option<Mode>) -> Answer
    requires leaving { IsLeaving core.old p }
    requires room { Fits core.old (run_down p (modes_from outermost) core.old.state).effects }
    ensures { Does (run_down p (modes_from outermost) core.old.state) result core.old core.new }
{
    let mut next = outermost;
    'modes: while let Some(mode) = next {
        if let Some(answer) = pass(core, p, mode) {
            return answer;
        }
        next = next_inner(mode);
    }
    end(core, p)
}

/// One step of the rundown of a process, from where it stands to the next answer: a handler is entered, a mode waits for its requests,
/// or the process is gone.
pub fn rundown_step<R: Routine>(core: &mut Core<R>, p: Pid) -> Answer
    requires leaving { IsLeaving core.old p }
    requires room { Fits core.old (rundown core.old.state p).effects }
    ensures { Does (rundown core.old.state p) result core.old core.new }
{
    match core.phase(p) {
        Phase::Handlers(mode) => run_down(core, p, Some(mode)),
        Phase::Draining(mode) => match drain(core, p, mode) {
            Some(answer) => answer,
            None => run_down(core, p, next_inner(mode)),
        },
        Phase::Alive | Phase::Deleted => Answer::Gone,
    }
}
