//! What each event does.

ghost use Rattle.std.specs.Prelude.{◌≡◌, ◌<◌, [], IsTrue};
ghost use Rattle.vx_base.specs.Modes.{reaches};
ghost use Rattle.vx_base.specs.Services.{is_call};
ghost use Rattle.vx_record.specs.State.{IsProcess, current, process_at};
ghost use Rattle.vx_record.specs.Asts.{deliverable_ast};
ghost use Rattle.vx_record.specs.Events.{delivered, or_normal, resumed, returned, run, run_advanced, run_on, step};
ghost use Rattle.vx_record.specs.Flags.{wait_condition};
ghost use Rattle.vx_record.specs.Sound.{WaitStands};
ghost use Rattle.vx_procs.specs.Kernel.{Acts, Does, DoesQuietly, Fits};
ghost use Rattle.vx_procs.specs.Words.{advanced_at};
ghost use Rattle.vx_io.specs.Rooms.{AreFull};
ghost use Rattle.vx_exec.specs.Ready.{HasRooms, IsCallAt, IsNext, IsOpen, IsReadyFor, IsSet, opened_for, started_as};

use crate::services::serve;
use vx_base::{Answer, Call, Cond, Effect, Entry, Event, FrameKind, Id, Mode, Pid, Routine, Wait};
use vx_ctl::{tick, wait_condition};
use vx_image::Stop;
use vx_io::{Rooms, begin, done};
use vx_procs::Core;
use vx_record::Served;
use vx_rundown::rundown_step;

fn or_normal(cond: Option<Cond>) -> Cond
    ensures { result ≡ or_normal cond }
{
    match cond {
        Some(cond) => cond,
        None => Cond::Normal,
    }
}

// The wait of the top frame ends.
fn end_wait<R: Routine>(core: &mut Core<R>, p: Pid, wait: Wait) -> Answer
    requires made { IsProcess core.old.state p }
    requires block { WaitStands wait }
    ensures { DoesQuietly (resumed core.old.state p wait (or_normal (wait_condition core.old.state p wait))) result core.old core.new }
{
    let cond = or_normal(wait_condition(core, p, wait));
    core.resume(p, wait, cond);
    Answer::Resume(cond)
}

// A service is called by the statement at a place. R0 takes its condition last.
fn call_service<R: Routine>(
    core: &mut Core<R>,
    p: Pid,
    place: u32,
    call: Call,
    rooms: &mut Rooms,
) -> Answer
    requires set { IsSet core.old p }
    requires rooms { AreFull rooms.old }
    requires kinds { IsTrue (is_call call) }
    requires place { place < 10000 }
    requires room { Fits core.old (run_on core.old.state p place (Stop.Call call)).effects }
    ensures { Does (run_on core.old.state p place (Stop.Call call)) result core.old core.new }
{
    core.move_behind(p, place);
    match serve(core, p, &call, rooms) {
        Served::Answered(cond) => {
            core.set_r0(p, cond.number());
            Answer::Service(call, cond)
        }
        Served::Waits => Answer::Wait(call),
    }
}

// The top frame ends: the main frame exits with R0 as code; any other is left, and an AST's R0 is put back.
fn leave<R: Routine>(core: &mut Core<R>, p: Pid) -> Answer
    requires made { IsProcess core.old.state p }
    requires room { Fits core.old (returned core.old.state p (process_at core.old.state p).frames).effects }
    ensures { Does (returned core.old.state p (process_at core.old.state p).frames) result core.old core.new }
{
    let Some(frame) = core.top(p) else {
        return Answer::Return;
    };
    match frame.kind {
        FrameKind::Main => {
            let code = core.r0(p);
            core.exit(p, code);
            Answer::End
        }
        FrameKind::Ast(id) => {
            core.tell(Effect::Leave(id));
            core.return_with(p, frame.saved_r0);
            Answer::Return
        }
        FrameKind::Change | FrameKind::Handler => {
            core.pop_frame(p);
            Answer::Return
        }
    }
}

// What local statements stopped at, at a place.
fn stop_at<R: Routine>(
    core: &mut Core<R>,
    p: Pid,
    place: u32,
    stop: Stop,
    rooms: &mut Rooms,
) -> Answer
    requires set { IsSet core.old p }
    requires rooms { AreFull rooms.old }
    requires call { IsCallAt place stop }
    requires room { Fits core.old (run_on core.old.state p place stop).effects }
    ensures { Does (run_on core.old.state p place stop) result core.old core.new }
{
    match stop {
        Stop::Call(call) => call_service(core, p, place, call, rooms),
        Stop::Return | Stop::End => leave(core, p),
        Stop::Local => Answer::Local,
    }
}

// The top frame, which waits for nothing, goes on.
fn go_on<R: Routine>(core: &mut Core<R>, p: Pid, rooms: &mut Rooms) -> Answer
    requires set { IsSet core.old p }
    requires rooms { AreFull rooms.old }
    requires room { Fits core.old (run_advanced core.old.state p (advanced_at core.old.state p)).effects }
    ensures { Does (run_advanced core.old.state p (advanced_at core.old.state p)) result core.old core.new }
{
    let (place, stop) = core.run_local(p);
    stop_at(core, p, place, stop, rooms)
}

// RUN.
#[tactic(auto, using(crate::proofs::Running::quietly))]
fn run<R: Routine>(core: &mut Core<R>, p: Pid, rooms: &mut Rooms) -> Answer
    requires next { IsNext core.old p }
    requires rooms { AreFull rooms.old }
    requires room { Fits core.old (run core.old.state p (process_at core.old.state p).frames).effects }
    ensures { Does (run core.old.state p (process_at core.old.state p).frames) result core.old core.new }
{
    let Some(frame) = core.top(p) else {
        return Answer::Local;
    };
    match frame.wait {
        Some(wait) => end_wait(core, p, wait),
        None => go_on(core, p, rooms),
    }
}

// The routine of an AST is entered in a frame that saves R0; a forced exit exits.
fn start<R: Routine>(core: &mut Core<R>, p: Pid, id: Id, mode: Mode, entry: Entry)
    requires set { IsSet core.old p }
    requires inward { IsTrue (reaches (current core.old.state p) mode) }
    requires room { Fits core.old (started_as core.old.state p id mode entry).effects }
    ensures { Acts (started_as core.old.state p id mode entry) core.old core.new }
{
    match entry {
        Entry::Exit(code) => {
            core.tell(Effect::Leave(id));
            core.exit(p, code);
        }
        Entry::Label(..) | Entry::Host(_) => {
            let frame = core.new_frame(p, FrameKind::Ast(id), mode, entry, core.r0(p));
            core.push_frame(p, frame);
        }
    }
}

// AST.
fn deliver<R: Routine>(core: &mut Core<R>, p: Pid) -> Answer
    requires next { IsNext core.old p }
    requires room { Fits core.old (delivered core.old.state p (deliverable_ast core.old.state p)).effects }
    ensures { Does (delivered core.old.state p (deliverable_ast core.old.state p)) result core.old core.new }
{
    let Some(ast) = core.take_ast(p) else {
        return Answer::Local;
    };
    let (id, mode) = (ast.id(), ast.mode());
    start(core, p, id, mode, ast.into_routine().enter());
    Answer::Ast(id)
}

/// Does an event, with the spare room for the bytes of a request if a process runs. Takes no memory.
pub(crate) fn step<R: Routine>(core: &mut Core<R>, event: Event, rooms: &mut Rooms) -> Answer
    requires ready { IsReadyFor core.old event }
    requires rooms { HasRooms event rooms.old }
    requires open { IsOpen core.old event }
    ensures does { Does (step core.old.state event) result (opened_for core.old event) core.new }
    ensures untold { (opened_for core.old event).log.items ≡ [] }
{
    match event {
        Event::Run(p) => run(core, p, rooms),
        Event::Ast(p) => deliver(core, p),
        Event::Rdn(p) => rundown_step(core, p),
        Event::Tick => Answer::Time(tick(core)),
        Event::Beg(u) => begin(core, u),
        Event::Don(u) => done(core, u),
    }
}
