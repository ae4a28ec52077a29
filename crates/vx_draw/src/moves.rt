//! What a record does to the frames of processes, and what it tells of ids.

ghost use Rattle.std.specs.Prelude.{◌≡◌, if◌then◌else◌};
ghost use Rattle.vx_base.specs.Cond.{severity_of};
ghost use Rattle.vx_draw.specs.Moves as spec;

use crate::frames::{Bar, Move};
use crate::shapes::{bottom, top};
use crate::trails::{Tale, Trail, Trails};
use vx_base::{
    Answer, Arg, Cond, Effect, Event, Mode, Name, Opened, Operand, Pid, Service, Severity,
};
use vx_image::ProcDecl;

/// A frame of a mode, from a height on.
pub fn runs_from(mode: Mode, since: u128) -> Bar
    ensures { result ≡ spec.runs_from mode since }
{
    Bar {
        mode,
        since,
        waits: false,
    }
}

/// The process that acts; none, 0, if none does.
pub fn actor(event: Event) -> Pid
    ensures { result ≡ spec.actor event }
{
    match event {
        Event::Run(p) | Event::Ast(p) | Event::Rdn(p) => p,
        Event::Beg(_) | Event::Don(_) | Event::Tick => Pid(0),
    }
}

/// The process that an argument names, for the caller p.
pub fn named_by(arg: &Arg, p: Pid) -> Pid
    ensures { result ≡ spec.named_by arg.now p }
{
    match arg {
        Arg::Value(Operand::Num(n)) => { if *n == 0 { p } else { Pid(*n) } }
        _ => p,
    }
}

fn subject(service: Service, arg: &Arg, p: Pid) -> Pid
    ensures { result ≡ spec.subject service arg.now p }
{
    match service {
        Service::DelPrc => named_by(arg, p),
        _ => p,
    }
}

/// The process whose frames a record changes.
pub fn mover(event: Event, answer: &Answer) -> Pid
    ensures { result ≡ spec.mover event answer.now }
{
    match answer {
        Answer::Service(call, _) => subject(call.service, &call.args.a0, actor(event)),
        _ => actor(event),
    }
}

/// Whether a call was done.
pub fn is_success(cond: Cond) -> bool
    ensures { result ≡ spec.is_success (severity_of cond) }
{
    matches!(cond.severity(), Severity::Success)
}

/// Whether a call was refused.
pub fn is_refused(answer: &Answer) -> bool
    ensures { result ≡ spec.is_refused answer.now }
{
    match answer {
        Answer::Service(_, cond) => !is_success(*cond),
        _ => false,
    }
}

fn service_move(n: u64, service: Service) -> Move
    ensures { result ≡ spec.service_move n service }
{
    match service {
        Service::Exit | Service::DelPrc => Move::LeaveAll(bottom(n)),
        Service::CmExec => Move::Inward(Mode::Exec, bottom(n)),
        Service::CmKrnl => Move::Inward(Mode::Kernel, bottom(n)),
        _ => Move::Stay,
    }
}

fn ast_move(n: u64, trail: Trail) -> Move
    ensures { result ≡ spec.ast_move n trail }
{
    if trail.forces {
        Move::LeaveAll(bottom(n))
    } else {
        Move::Enter(runs_from(trail.mode, top(n)))
    }
}

fn done_move(n: u64, service: Service, cond: Cond) -> Move
    ensures { result ≡ (if spec.is_success (severity_of cond) then spec.service_move n service else Move.Stay) }
{
    if is_success(cond) {
        service_move(n, service)
    } else {
        Move::Stay
    }
}

/// What an answer in row n does to frames.
pub fn answer_move(n: u64, trails: &Trails, answer: &Answer) -> Move
    ensures { result ≡ spec.answer_move n trails.now answer.now }
{
    match answer {
        Answer::Service(call, cond) => done_move(n, call.service, *cond),
        Answer::Wait(_) => Move::Turn {
            at: bottom(n),
            waits: true,
        },
        Answer::Resume(_) => Move::Turn {
            at: top(n),
            waits: false,
        },
        Answer::Return => Move::Leave(bottom(n)),
        Answer::End => Move::LeaveAll(bottom(n)),
        Answer::Ast(id) => ast_move(n, trails.at(*id)),
        _ => Move::Stay,
    }
}

fn mode_named(decls: &[ProcDecl], name: Name) -> Mode
    ensures { result ≡ spec.mode_named decls.now name }
{
    for decl in decls {
        if decl.name == name {
            return decl.mode;
        }
    }
    Mode::User
}

/// The process whose frames an effect changes.
pub fn effect_mover(event: Event, effect: &Effect) -> Pid
    ensures { result ≡ spec.effect_mover event effect.now }
{
    match effect {
        Effect::New { p, name: _ } => *p,
        _ => actor(event),
    }
}

/// What an effect in row n does to frames.
pub fn effect_move(n: u64, decls: &[ProcDecl], trails: &Trails, effect: &Effect) -> Move
    ensures { result ≡ spec.effect_move n decls.now trails.now effect.now }
{
    match effect {
        Effect::Enter(id) => Move::Enter(runs_from(trails.at(*id).mode, top(n))),
        Effect::New { p: _, name } => Move::Enter(runs_from(mode_named(decls, *name), bottom(n))),
        _ => Move::Stay,
    }
}

/// What an answer tells of an id.
pub fn answer_tale(answer: &Answer) -> Tale
    ensures { result ≡ spec.answer_tale answer.now }
{
    match answer {
        Answer::Ast(id) | Answer::Unit(id) => Tale::Again(*id),
        _ => Tale::Nothing,
    }
}

fn is_force(kind: Opened) -> bool
    ensures { result ≡ spec.is_force kind }
{
    matches!(kind, Opened::Force)
}

fn mode_or_user(mode: Option<Mode>) -> Mode
    ensures { result ≡ spec.mode_or_user mode }
{
    match mode {
        Some(mode) => mode,
        None => Mode::User,
    }
}

/// What an effect tells of an id.
pub fn effect_tale(effect: &Effect) -> Tale
    ensures { result ≡ spec.effect_tale effect.now }
{
    match effect {
        Effect::Open {
            id,
            kind,
            p: _,
            mode,
            n: _,
        } => Tale::Opened(*id, mode_or_user(*mode), is_force(*kind)),
        Effect::Fin { id, cond: _ } => Tale::Again(*id),
        Effect::Fire(id) | Effect::Drop(id) | Effect::Enter(id) => Tale::Again(*id),
        _ => Tale::Nothing,
    }
}
