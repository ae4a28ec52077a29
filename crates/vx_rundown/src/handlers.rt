//! Exit handlers.

ghost use Rattle.std.specs.Prelude.{IsTrue};
ghost use Rattle.std.specs.List.{find};
ghost use Rattle.vx_base.specs.Handlers.{is_handler_with};
ghost use Rattle.vx_record.specs.Rundown.{cancel_found, cancel_handlers, canexh, dclexh, drop_handlers};
ghost use Rattle.vx_record.specs.State.{IsProcess, process_at};
ghost use Rattle.vx_procs.specs.Handlers.{is_sought};
ghost use Rattle.vx_procs.specs.Kernel.{Acts, Does, Fits};
ghost use Rattle.vx_procs.specs.Ready.{IsReady};
ghost use Rattle.vx_procs.specs.Words.{handlers_have_own_ids};

use vx_base::{Cond, Effect, Entry, Mode, Opened, Pid, Routine};
use vx_procs::{Core, Sought};

/// $DCLEXH: declares a routine as the caller's newest exit handler, in the mode in which it runs: IVSSRQ in kernel mode, and then the
/// routine goes.
pub fn dclexh<R: Routine>(core: &mut Core<R>, p: Pid, routine: R) -> Cond
    requires ready { IsReady core.old p }
    requires room { Fits core.old (dclexh core.old.state p (R.tagged routine)).effects }
    ensures { Does (dclexh core.old.state p (R.tagged routine)) result core.old core.new }
{
    let mode = core.current_mode(p);
    if mode == Mode::Kernel {
        return Cond::IvSsRq;
    }
    let id = core.new_id();
    core.tell(Effect::Open {
        id,
        kind: Opened::Exh,
        p,
        mode: Some(mode),
        n: 0,
    });
    core.declare_handler(p, id, mode, routine);
    Cond::Normal
}

/// The exit handlers of a process that are looked for end, the newest first, and their routines are never entered.
pub(crate) fn drop_handlers<R: Routine>(core: &mut Core<R>, p: Pid, which: Sought)
    requires made { IsProcess core.old.state p }
    requires ids { IsTrue (handlers_have_own_ids (process_at core.old.state p).handlers) }
    requires room { Fits core.old (drop_handlers core.old.state p (is_sought which)).effects }
    ensures { Acts (drop_handlers core.old.state p (is_sought which)) core.old core.new }
{
    'handlers: while let Some(id) = core.drop_handler(p, which) {
        core.tell(Effect::Drop(id));
    }
}

// The newest exit handler of a process of a mode and with a tag ends: NOHANDLER if there is none.
fn cancel_newest<R: Routine>(core: &mut Core<R>, p: Pid, mode: Mode, tag: Entry) -> Cond
    requires made { IsProcess core.old.state p }
    requires ids { IsTrue (handlers_have_own_ids (process_at core.old.state p).handlers) }
    requires room { Fits core.old (cancel_found core.old.state p (find (is_handler_with mode tag) (process_at core.old.state p).handlers)).effects }
    ensures { Does (cancel_found core.old.state p (find (is_handler_with mode tag) (process_at core.old.state p).handlers)) result core.old core.new }
{
    match core.drop_handler(p, Sought::With(mode, tag)) {
        Some(id) => {
            core.tell(Effect::Drop(id));
            Cond::Normal
        }
        None => Cond::NoHandler,
    }
}

// The exit handlers of a process of its mode end: all, or the newest with a tag.
fn cancel_handlers<R: Routine>(core: &mut Core<R>, p: Pid, tag: Option<Entry>) -> Cond
    requires made { IsProcess core.old.state p }
    requires ids { IsTrue (handlers_have_own_ids (process_at core.old.state p).handlers) }
    requires room { Fits core.old (cancel_handlers core.old.state p tag).effects }
    ensures { Does (cancel_handlers core.old.state p tag) result core.old core.new }
{
    let mode = core.current_mode(p);
    match tag {
        Some(tag) => cancel_newest(core, p, mode, tag),
        None => {
            drop_handlers(core, p, Sought::Of(mode));
            Cond::Normal
        }
    }
}

/// $CANEXH: the caller's newest exit handler with this routine ends, or all of its mode if none is named: IVSSRQ in kernel mode,
/// NOHANDLER if the routine is of no handler of its mode.
pub fn canexh<R: Routine>(core: &mut Core<R>, p: Pid, tag: Option<Entry>) -> Cond
    requires ready { IsReady core.old p }
    requires ids { IsTrue (handlers_have_own_ids (process_at core.old.state p).handlers) }
    requires room { Fits core.old (canexh core.old.state p tag).effects }
    ensures { Does (canexh core.old.state p tag) result core.old core.new }
{
    let mode = core.current_mode(p);
    if mode == Mode::Kernel {
        return Cond::IvSsRq;
    }
    cancel_handlers(core, p, tag)
}
