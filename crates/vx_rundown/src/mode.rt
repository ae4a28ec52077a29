//! Rundown of one mode.

ghost use Rattle.std.specs.Prelude.{◌≡◌};
ghost use Rattle.vx_base.specs.Channels.{channels_of};
ghost use Rattle.vx_base.specs.declared.frame.Phase.TheVariants.{Draining};
ghost use Rattle.vx_record.specs.Parts.{each};
ghost use Rattle.vx_record.specs.Rundown.{cancel_modes, cancel_one, drop_asts, free_one, release};
ghost use Rattle.vx_record.specs.State.{process_at};
ghost use Rattle.vx_procs.specs.Kernel.{Acts, Does, Fits};
ghost use Rattle.vx_rundown.specs.Leaving.{IsDrained, IsLeaving};
ghost use Rattle.vx_rundown.specs.Steps.{cancelled_and_drained, drained, entered_as, passed, passed_on};

use vx_base::{Answer, Effect, Entry, Frame, FrameKind, Id, Mode, Phase, Pid, Routine};
use vx_io::{cancel_channel, free_channel};
use vx_procs::{Core, Sought, drop_timers};
use vx_timers::Which;

// What a process asked on its channels of a mode and outer ones is cancelled, channel after channel.
fn cancel_channels<R: Routine>(core: &mut Core<R>, p: Pid, mode: Mode)
    requires leaving { IsLeaving core.old p }
    requires room { Fits core.old (each (cancel_one p) (channels_of mode (process_at core.old.state p).channels) core.old.state).effects }
    ensures { Acts (each (cancel_one p) (channels_of mode (process_at core.old.state p).channels) core.old.state) core.old core.new }
{
    let mut after = 0;
    'channels: while let Some(n) = core.next_channel(p, mode, after) {
        cancel_channel(core, p, n);
        after = n;
    }
}

// What a process opened in a mode and outer ones is cancelled: its requests and its attention entries, channel after channel, its
// timers, and then the wakes that it scheduled.
fn cancel_modes<R: Routine>(core: &mut Core<R>, p: Pid, mode: Mode)
    requires leaving { IsLeaving core.old p }
    requires room { Fits core.old (cancel_modes core.old.state p mode).effects }
    ensures { Acts (cancel_modes core.old.state p mode) core.old core.new }
{
    cancel_channels(core, p, mode);
    drop_timers(core, Which::TimersOf(p, mode));
    drop_timers(core, Which::WakesBy(p));
}

// The channels of a mode and outer ones are freed, and a mailbox that goes with its last channel is gone.
fn free_channels<R: Routine>(core: &mut Core<R>, p: Pid, mode: Mode)
    requires leaving { IsLeaving core.old p }
    requires drained { IsDrained core.old.state p mode }
    requires room { Fits core.old (each (free_one p) (channels_of mode (process_at core.old.state p).channels) core.old.state).effects }
    ensures { Acts (each (free_one p) (channels_of mode (process_at core.old.state p).channels) core.old.state) core.old core.new }
{
    'channels: while let Some(n) = core.next_channel(p, mode, 0) {
        free_channel(core, p, n);
    }
}

// The queued ASTs of a mode and outer ones end, in order of queuing, and their routines are never entered.
fn drop_asts<R: Routine>(core: &mut Core<R>, p: Pid, mode: Mode)
    requires leaving { IsLeaving core.old p }
    requires room { Fits core.old (drop_asts p mode core.old.state).effects }
    ensures { Acts (drop_asts p mode core.old.state) core.old core.new }
{
    'asts: while let Some(id) = core.drop_ast(p, mode) {
        core.tell(Effect::Drop(id));
    }
}

// The channels of a mode and outer ones are freed, the queued ASTs of these modes end, and the common clusters of the process are
// dissociated: 2, whose first flag is 64, and then 3.
fn release<R: Routine>(core: &mut Core<R>, p: Pid, mode: Mode)
    requires leaving { IsLeaving core.old p }
    requires drained { IsDrained core.old.state p mode }
    requires room { Fits core.old (release core.old.state p mode).effects }
    ensures { Acts (release core.old.state p mode) core.old core.new }
{
    free_channels(core, p, mode);
    drop_asts(core, p, mode);
    let _second = core.dissociate(p, 64);
    let _third = core.dissociate(p, 96);
}

// A handler that was taken out is entered, with the exit code as its parameter.
fn enter<R: Routine>(core: &mut Core<R>, p: Pid, id: Id, mode: Mode, entry: Entry) -> Answer
    requires leaving { IsLeaving core.old p }
    requires room { Fits core.old (entered_as core.old.state p (record { id = id; mode = mode; tag = entry })).effects }
    ensures { Does (entered_as core.old.state p (record { id = id; mode = mode; tag = entry })) result core.old core.new }
{
    let frame = core.new_frame(p, FrameKind::Handler, mode, entry, 0);
    let prm = core.exit_code(p);
    core.tell(Effect::Enter(id));
    core.push_frame(p, Frame { prm, ..frame });
    Answer::Handler
}

/// A mode that is drained is released, and the next may follow; if a request keeps it busy, that is the answer.
pub(crate) fn drain<R: Routine>(core: &mut Core<R>, p: Pid, mode: Mode) -> Option<Answer>
    requires leaving { IsLeaving core.old p }
    requires phase { (process_at core.old.state p).phase ≡ Draining mode }
    requires room { Fits core.old (drained p mode core.old.state).effects }
    ensures { Does (drained p mode core.old.state) result core.old core.new }
{
    if core.is_busy(p, mode) {
        return Some(Answer::Busy);
    }
    release(core, p, mode);
    None
}

// What was opened in a mode is cancelled, and the mode is drained.
fn cancel_and_drain<R: Routine>(core: &mut Core<R>, p: Pid, mode: Mode) -> Option<Answer>
    requires leaving { IsLeaving core.old p }
    requires room { Fits core.old (cancelled_and_drained p mode core.old.state).effects }
    ensures { Does (cancelled_and_drained p mode core.old.state) result core.old core.new }
{
    cancel_modes(core, p, mode);
    core.set_phase(p, Phase::Draining(mode));
    drain(core, p, mode)
}

// The newest handler of a mode is entered, which is the answer; if there is none, the mode is cancelled and drained.
fn pass_on<R: Routine>(core: &mut Core<R>, p: Pid, mode: Mode) -> Option<Answer>
    requires leaving { IsLeaving core.old p }
    requires room { Fits core.old (passed_on p mode core.old.state).effects }
    ensures { Does (passed_on p mode core.old.state) result core.old core.new }
{
    match core.take_handler(p, Sought::Of(mode)) {
        Some((id, routine)) => Some(enter(core, p, id, mode, routine.enter())),
        None => cancel_and_drain(core, p, mode),
    }
}

/// Rundown comes to a mode: its newest handler is entered, which is the answer; if there is none, the mode is cancelled and drained.
pub(crate) fn pass<R: Routine>(core: &mut Core<R>, p: Pid, mode: Mode) -> Option<Answer>
    requires leaving { IsLeaving core.old p }
    requires room { Fits core.old (passed p mode core.old.state).effects }
    ensures { Does (passed p mode core.old.state) result core.old core.new }
{
    core.set_phase(p, Phase::Handlers(mode));
    pass_on(core, p, mode)
}
