//! Calls of services, with the values of their arguments computed.

ghost use Rattle.std.specs.Prelude.{◌≡◌, ◌<◌, IsTrue, length};
ghost use Rattle.vx_base.specs.Services.{is_call, is_of_kind};
ghost use Rattle.vx_base.specs.declared.service.Kind.TheVariants.{Name as name_kind};
ghost use Rattle.vx_record.specs.Flags.{readef};
ghost use Rattle.vx_record.specs.Parts.{nothing};
ghost use Rattle.vx_record.specs.Timers.{gettim};
ghost use Rattle.vx_record.specs.Control.{creprc, resume, suspnd, wake};
ghost use Rattle.vx_record.specs.Channels.{assign, crembx};
ghost use Rattle.vx_record.specs.Services.{at_once, place, service, service_of, valued, with_number, with_value};
ghost use Rattle.vx_procs.specs.Kernel.{Does, DoesQuietly, Fits};
ghost use Rattle.vx_ctl.specs.Answers.{cond_of};
ghost use Rattle.vx_io.specs.Rooms.{AreFull};
ghost use Rattle.vx_exec.specs.Ready.{IsSet};

use crate::arguments::{
    access_mode, asking, decl_place, entry_or_none, name_of, number, place, routine,
    routine_or_none, text,
};
use vx_base::{Args, Call, Cond, Effect, Mode, Pid, Routine, Service, Target};
use vx_ctl::{
    Refused, ascefc, cantim, canwak, clref, cmexec, cmkrnl, creprc, dacefc, dclast, dlcefc, forcex,
    gettim, hiber, readef, resume, schdwk, setast, setef, setimr, suspnd, waitfr, wake, wfland,
    wflor,
};
use vx_io::{NewBox, Rooms, assign, cancel, crembx, dassgn, delmbx, qio, qiow, synch};
use vx_procs::Core;
use vx_record::Served;
use vx_rundown::{canexh, dclexh, delprc, exit};

// The condition of a service, refused or not. A routine that was handed back goes.
fn cond_of<R: Routine>(answer: Result<Cond, Refused<R>>) -> Cond
    ensures { result ≡ cond_of answer }
{
    match answer {
        Ok(cond) => cond,
        Err(refused) => refused.cond,
    }
}

// $READEF: a variable takes the flags.
#[tactic(auto, using(crate::proofs::Running::told_none))]
fn read_flags<R: Routine>(core: &mut Core<R>, p: Pid, efn: u32, v: Target) -> Served
    requires set { IsSet core.old p }
    requires room { Fits core.old (with_value p v (readef core.old.state p efn)).effects }
    ensures { Does (with_value p v (readef core.old.state p efn)) result core.old core.new }
{
    match readef(core, p, efn) {
        Ok((cond, n)) => {
            core.tell(Effect::Var { p, v, n });
            core.set_variable(p, v, n);
            Served::Answered(cond)
        }
        Err(cond) => Served::Answered(cond),
    }
}

// $CREPRC of the process declaration at a place: a variable takes the number of the process.
fn create<R: Routine>(core: &mut Core<R>, p: Pid, place: u32, v: Target) -> Served
    requires set { IsSet core.old p }
    requires declared { place < length core.old.state.system.decls }
    requires room { Fits core.old (with_number p v (creprc core.old.state p place)).effects }
    ensures { Does (with_number p v (creprc core.old.state p place)) result core.old core.new }
{
    match creprc(core, p, place) {
        Ok(n) => {
            core.tell(Effect::Var { p, v, n });
            core.set_variable(p, v, n);
            Served::Answered(Cond::Normal)
        }
        Err(cond) => Served::Answered(cond),
    }
}

// $CREPRC of the process declaration that an argument names.
fn create_named<R: Routine>(core: &mut Core<R>, p: Pid, args: &Args) -> Served
    requires set { IsSet core.old p }
    requires room { Fits core.old (service_of core.old.state p args.now Service.CrePrc).effects }
    ensures { Does (service_of core.old.state p args.now Service.CrePrc) result core.old core.new }
{
    let decl = decl_place(core, text(&args.a1));
    create(core, p, decl, place(&args.a0))
}

// $ASSIGN of the device of a name, in a mode: a variable takes the number of the channel.
#[tactic(auto, using(crate::proofs::Running::told_none))]
fn assign_device<R: Routine>(
    core: &mut Core<R>,
    p: Pid,
    name: &[u8],
    mode: Mode,
    v: Target,
) -> Served
    requires set { IsSet core.old p }
    requires room { Fits core.old (with_number p v (assign core.old.state p name.now mode)).effects }
    ensures { Does (with_number p v (assign core.old.state p name.now mode)) result core.old core.new }
{
    match assign(core, p, name, mode) {
        Ok(n) => {
            core.tell(Effect::Var { p, v, n });
            core.set_variable(p, v, n);
            Served::Answered(Cond::Normal)
        }
        Err(cond) => Served::Answered(cond),
    }
}

// $ASSIGN of the device that an argument names.
fn assign_named<R: Routine>(core: &mut Core<R>, p: Pid, args: &Args) -> Served
    requires set { IsSet core.old p }
    requires room { Fits core.old (service_of core.old.state p args.now Service.Assign).effects }
    ensures { Does (service_of core.old.state p args.now Service.Assign) result core.old core.new }
{
    let mode = access_mode(&args.a2);
    assign_device(core, p, text(&args.a1), mode, place(&args.a0))
}

// $CREMBX of a mailbox of a name, in a mode: a variable takes the number of the channel.
fn create_box<R: Routine>(core: &mut Core<R>, p: Pid, ask: NewBox, mode: Mode, v: Target) -> Served
    requires set { IsSet core.old p }
    requires room { Fits core.old (with_number p v (crembx core.old.state p ask.name ask.perm ask.maxmsg ask.bufquo mode)).effects }
    ensures { Does (with_number p v (crembx core.old.state p ask.name ask.perm ask.maxmsg ask.bufquo mode)) result core.old core.new }
{
    match crembx(core, p, ask, mode) {
        Ok(n) => {
            core.tell(Effect::Var { p, v, n });
            core.set_variable(p, v, n);
            Served::Answered(Cond::Normal)
        }
        Err(cond) => Served::Answered(cond),
    }
}

// $CREMBX of the mailbox that an argument names.
fn create_box_named<R: Routine>(core: &mut Core<R>, p: Pid, args: &Args) -> Served
    requires set { IsSet core.old p }
    requires name { IsTrue (is_of_kind name_kind args.now.a1) }
    requires room { Fits core.old (service_of core.old.state p args.now Service.CreMbx).effects }
    ensures { Does (service_of core.old.state p args.now Service.CreMbx) result core.old core.new }
{
    let ask = NewBox {
        name: name_of(&args.a1),
        perm: number(&args.a2),
        maxmsg: number(&args.a3),
        bufquo: number(&args.a4),
    };
    create_box(core, p, ask, access_mode(&args.a5), place(&args.a0))
}

// $QIO, with the routine at a label or with none.
fn ask<R: Routine>(core: &mut Core<R>, p: Pid, args: &Args, rooms: &mut Rooms) -> Served
    requires set { IsSet core.old p }
    requires rooms { AreFull rooms.old }
    requires room { Fits core.old (service_of core.old.state p args.now Service.Qio).effects }
    ensures { Does (service_of core.old.state p args.now Service.Qio) result core.old core.new }
{
    let asked = asking(args);
    let routine: Option<R> = routine_or_none(core, p, &args.a4, number(&args.a5));
    let answer = qio(core, p, asked, routine, rooms);
    Served::Answered(cond_of(answer))
}

// $QIOW, with the routine at a label or with none.
fn ask_and_wait<R: Routine>(core: &mut Core<R>, p: Pid, args: &Args, rooms: &mut Rooms) -> Served
    requires set { IsSet core.old p }
    requires rooms { AreFull rooms.old }
    requires room { Fits core.old (service_of core.old.state p args.now Service.QioW).effects }
    ensures { Does (service_of core.old.state p args.now Service.QioW) result core.old core.new }
{
    let asked = asking(args);
    let routine: Option<R> = routine_or_none(core, p, &args.a4, number(&args.a5));
    match qiow(core, p, asked, routine, rooms) {
        Ok(served) => served,
        Err(refused) => Served::Answered(refused.cond),
    }
}

// $GETTIM: a variable takes the time.
fn read_time<R: Routine>(core: &mut Core<R>, p: Pid, v: Target) -> Served
    requires set { IsSet core.old p }
    requires room { Fits core.old (valued p v (nothing core.old.state) Cond.Normal (gettim core.old.state)).effects }
    ensures { Does (valued p v (nothing core.old.state) Cond.Normal (gettim core.old.state)) result core.old core.new }
{
    let n = gettim(core);
    core.tell(Effect::Var { p, v, n });
    core.set_variable(p, v, n);
    Served::Answered(Cond::Normal)
}

// $DCLAST of the routine at a label.
fn declare<R: Routine>(core: &mut Core<R>, p: Pid, args: &Args) -> Served
    requires set { IsSet core.old p }
    requires room { Fits core.old (service_of core.old.state p args.now Service.DclAst).effects }
    ensures { Does (service_of core.old.state p args.now Service.DclAst) result core.old core.new }
{
    let routine: R = routine(core, p, &args.a0, number(&args.a1));
    let answer = dclast(core, p, routine, access_mode(&args.a2));
    Served::Answered(cond_of(answer))
}

// $SETIMR, with the routine at a label or with none.
fn set_timer<R: Routine>(core: &mut Core<R>, p: Pid, args: &Args) -> Served
    requires set { IsSet core.old p }
    requires room { Fits core.old (service_of core.old.state p args.now Service.SetImr).effects }
    ensures { Does (service_of core.old.state p args.now Service.SetImr) result core.old core.new }
{
    let reqid = number(&args.a3);
    let routine: Option<R> = routine_or_none(core, p, &args.a2, reqid);
    let answer = setimr(core, p, number(&args.a0), number(&args.a1), routine, reqid);
    Served::Answered(cond_of(answer))
}

// $SCHDWK of the process that a number names.
fn schedule_wake<R: Routine>(core: &mut Core<R>, p: Pid, args: &Args) -> Served
    requires set { IsSet core.old p }
    requires room { Fits core.old (service_of core.old.state p args.now Service.SchdWk).effects }
    ensures { Does (service_of core.old.state p args.now Service.SchdWk) result core.old core.new }
{
    let (n, delta, repeat) = (number(&args.a0), number(&args.a1), number(&args.a2));
    Served::Answered(schdwk(core, p, n, delta, repeat))
}

// $CMEXEC of the routine at a label.
fn enter_exec<R: Routine>(core: &mut Core<R>, p: Pid, args: &Args) -> Served
    requires { IsSet core.old p }
    ensures { DoesQuietly (service_of core.old.state p args.now Service.CmExec) result core.old core.new }
{
    let routine: R = routine(core, p, &args.a0, number(&args.a1));
    let answer = cmexec(core, p, routine);
    Served::Answered(cond_of(answer))
}

// $CMKRNL of the routine at a label.
fn enter_kernel<R: Routine>(core: &mut Core<R>, p: Pid, args: &Args) -> Served
    requires { IsSet core.old p }
    ensures { DoesQuietly (service_of core.old.state p args.now Service.CmKrnl) result core.old core.new }
{
    let routine: R = routine(core, p, &args.a0, number(&args.a1));
    let answer = cmkrnl(core, p, routine);
    Served::Answered(cond_of(answer))
}

// $DCLEXH of the routine at a label.
fn declare_handler<R: Routine>(core: &mut Core<R>, p: Pid, args: &Args) -> Served
    requires set { IsSet core.old p }
    requires room { Fits core.old (service_of core.old.state p args.now Service.DclExh).effects }
    ensures { Does (service_of core.old.state p args.now Service.DclExh) result core.old core.new }
{
    let routine: R = routine(core, p, &args.a0, 0);
    Served::Answered(dclexh(core, p, routine))
}

// $CANEXH of the routine at a label, or of all.
fn cancel_handlers<R: Routine>(core: &mut Core<R>, p: Pid, args: &Args) -> Served
    requires set { IsSet core.old p }
    requires room { Fits core.old (service_of core.old.state p args.now Service.CanExh).effects }
    ensures { Does (service_of core.old.state p args.now Service.CanExh) result core.old core.new }
{
    let tag = entry_or_none(core, p, &args.a0);
    Served::Answered(canexh(core, p, tag))
}

// $WAKE of the process that a number names.
fn wake_named<R: Routine>(core: &mut Core<R>, p: Pid, n: u32) -> Served
    requires { IsSet core.old p }
    ensures { DoesQuietly (at_once (wake core.old.state p n)) result core.old core.new }
{
    Served::Answered(wake(core, p, n))
}

// $SUSPND of the process that a number names.
fn suspend_named<R: Routine>(core: &mut Core<R>, p: Pid, n: u32) -> Served
    requires { IsSet core.old p }
    ensures { DoesQuietly (at_once (suspnd core.old.state p n)) result core.old core.new }
{
    Served::Answered(suspnd(core, p, n))
}

// $RESUME of the process that a number names.
fn resume_named<R: Routine>(core: &mut Core<R>, p: Pid, n: u32) -> Served
    requires { IsSet core.old p }
    ensures { DoesQuietly (at_once (resume core.old.state p n)) result core.old core.new }
{
    Served::Answered(resume(core, p, n))
}

// $ASCEFC of the cluster that an argument names.
fn associate<R: Routine>(core: &mut Core<R>, p: Pid, args: &Args) -> Served
    requires set { IsSet core.old p }
    requires name { IsTrue (is_of_kind name_kind args.now.a1) }
    requires room { Fits core.old (service_of core.old.state p args.now Service.AscEfc).effects }
    ensures { Does (service_of core.old.state p args.now Service.AscEfc) result core.old core.new }
{
    let name = name_of(&args.a1);
    Served::Answered(ascefc(core, p, number(&args.a0), name, number(&args.a2)))
}

// $DLCEFC of the cluster that an argument names.
fn delete_cluster<R: Routine>(core: &mut Core<R>, p: Pid, args: &Args) -> Served
    requires set { IsSet core.old p }
    requires name { IsTrue (is_of_kind name_kind args.now.a0) }
    requires room { Fits core.old (service_of core.old.state p args.now Service.DlcEfc).effects }
    ensures { Does (service_of core.old.state p args.now Service.DlcEfc) result core.old core.new }
{
    let name = name_of(&args.a0);
    Served::Answered(dlcefc(core, p, name))
}

/// Does the service of a call. The caller advances the frame before the service, and stores R0 afterwards. A request takes of the rooms what it uses.
#[tactic(auto, using(crate::proofs::Running::quietly, crate::proofs::Calls::names_second, crate::proofs::Calls::names_box, crate::proofs::Calls::names_first))]
pub(crate) fn serve<R: Routine>(
    core: &mut Core<R>,
    p: Pid,
    call: &Call,
    rooms: &mut Rooms,
) -> Served
    requires set { IsSet core.old p }
    requires rooms { AreFull rooms.old }
    requires kinds { IsTrue (is_call call.now) }
    requires room { Fits core.old (service core.old.state p call.now).effects }
    ensures { Does (service core.old.state p call.now) result core.old core.new }
{
    let args = &call.args;
    let n = number(&args.a0);
    match call.service {
        Service::SetEf => Served::Answered(setef(core, p, n)),
        Service::ClrEf => Served::Answered(clref(core, p, n)),
        Service::ReadEf => read_flags(core, p, n, place(&args.a1)),
        Service::WaitFr => waitfr(core, p, n),
        Service::WflOr => wflor(core, p, n, number(&args.a1)),
        Service::WflAnd => wfland(core, p, n, number(&args.a1)),
        Service::AscEfc => associate(core, p, args),
        Service::DacEfc => Served::Answered(dacefc(core, p, n)),
        Service::DlcEfc => delete_cluster(core, p, args),
        Service::DclAst => declare(core, p, args),
        Service::SetAst => Served::Answered(setast(core, p, n)),
        Service::CmExec => enter_exec(core, p, args),
        Service::CmKrnl => enter_kernel(core, p, args),
        Service::SetImr => set_timer(core, p, args),
        Service::CanTim => Served::Answered(cantim(core, p, n, access_mode(&args.a1))),
        Service::SchdWk => schedule_wake(core, p, args),
        Service::CanWak => Served::Answered(canwak(core, p, n)),
        Service::GetTim => read_time(core, p, place(&args.a0)),
        Service::Hiber => hiber(core, p),
        Service::Wake => wake_named(core, p, n),
        Service::Suspnd => suspend_named(core, p, n),
        Service::Resume => resume_named(core, p, n),
        Service::ForceX => Served::Answered(forcex(core, p, n, number(&args.a1))),
        Service::CrePrc => create_named(core, p, args),
        Service::DelPrc => Served::Answered(delprc(core, p, n)),
        Service::Exit => Served::Answered(exit(core, p, n)),
        Service::DclExh => declare_handler(core, p, args),
        Service::CanExh => cancel_handlers(core, p, args),
        Service::Assign => assign_named(core, p, args),
        Service::Dassgn => Served::Answered(dassgn(core, p, n)),
        Service::CreMbx => create_box_named(core, p, args),
        Service::DelMbx => Served::Answered(delmbx(core, p, n)),
        Service::Qio => ask(core, p, args, rooms),
        Service::QioW => ask_and_wait(core, p, args, rooms),
        Service::Synch => synch(core, p, n, number(&args.a1)),
        Service::Cancel => Served::Answered(cancel(core, p, n)),
    }
}
