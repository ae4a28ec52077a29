//! A process to be: the memory that a process takes, before there is one.

ghost use Rattle.std.specs.Prelude.{◌≡◌, ◌≤◌, [], None, IfOk};
ghost use Rattle.vx_base.specs.Pieces.{all_on};
ghost use Rattle.vx_base.specs.declared.frame.FrameKind.TheVariants.{Main};
ghost use Rattle.vx_record.specs.Runs.{born_of};
ghost use Rattle.vx_procs.specs.Fresh.{IsBlank};
ghost use Rattle.vx_procs.specs.View.{process, room_of};

use crate::process::Proc;
use std::alloc::Global;
use std::marker::Model;
use vx_ast::AstQueue;
use vx_base::{Frame, FrameKind, Mode, NoMemory, Phase, Privs, Routine};
use vx_chans::Chans;
use vx_exits::Exits;
use vx_flags::Flags;
use vx_frames::Frames;
use vx_image::{ProcDecl, Store};
use vx_quota::Account;

/// What a process takes memory for, unused: its store, its channels, its exit handlers, room for two frames or more, and for one AST or
/// more. Contracts see the room.
#[derive(Drop)]
pub(crate) struct Newcomer<R: Routine> {
    store: Store,
    frames: Frames,
    asts: AstQueue<R>,
    chans: Chans,
    exits: Exits<R>,
}

impl<R: Routine> Model for Newcomer<R> {
    ghost use Rattle.vx_procs.specs.Kernel.{Room};

    ghost Value = { Room };

    ghost use Rattle.vx_procs.specs.Unused.{IsUnused};

    ghost view = { λ n. record { frames = n.frames.capacity; asts = n.asts.capacity; handlers = n.exits.capacity } };

    ghost invariant = { IsUnused };
}

// The frame of a process before its first statement.
fn main_frame(mode: Mode) -> Frame
    ensures { result ≡ record { kind = Main; mode = mode; pc = 0; prm = 0; saved_r0 = 0; wait = None } }
{
    Frame {
        kind: FrameKind::Main,
        mode,
        pc: 0,
        prm: 0,
        saved_r0: 0,
        wait: None,
    }
}

// No frames, with room for two.
fn room_for_frames(alloc: Global) -> Result<Frames, NoMemory>
    ensures items { IfOk result (λ frames. frames.items ≡ []) }
    ensures room { IfOk result (λ frames. 2 ≤ frames.capacity) }
{
    let mut frames = Frames::new(alloc);
    frames.reserve()?;
    frames.push(main_frame(Mode::User));
    frames.reserve()?;
    let _unused = frames.pop();
    Ok(frames)
}

// No queued ASTs, with room for one.
fn room_for_asts<R: Routine>(alloc: Global) -> Result<AstQueue<R>, NoMemory>
    ensures items { IfOk result (λ asts. asts.items ≡ []) }
    ensures enables { IfOk result (λ asts. asts.enables ≡ all_on) }
    ensures room { IfOk result (λ asts. 1 ≤ asts.capacity) }
{
    let mut asts = AstQueue::new(alloc);
    asts.reserve(1)?;
    Ok(asts)
}

impl<R: Routine> Newcomer<R> {
    /// The one call that takes memory.
    pub(crate) fn new(alloc: Global) -> Result<Newcomer<R>, NoMemory> {
        Ok(Newcomer {
            store: Store::new(alloc)?,
            frames: room_for_frames(alloc)?,
            asts: room_for_asts(alloc)?,
            chans: Chans::new(alloc)?,
            exits: Exits::new(alloc),
        })
    }

    /// A process of the declaration at a place, before its first statement.
    pub(crate) fn into_proc(self, place: u32, decl: &ProcDecl) -> Proc<R>
        ensures process { process result ≡ born_of place decl.now }
        ensures fresh { IsBlank decl.now.limits result }
        ensures room { room_of result ≡ self }
    {
        let Newcomer {
            store,
            mut frames,
            asts,
            chans,
            exits,
        } = self;
        frames.push(main_frame(decl.mode));
        Proc {
            decl: place,
            group: decl.group,
            member: decl.member,
            privs: decl.privs,
            store,
            frames,
            asts,
            chans,
            exits,
            cluster_0: Flags::new(),
            cluster_1: Flags::new(),
            wake_pending: false,
            suspended: false,
            delete_pending: false,
            exit_code: 0,
            phase: Phase::Alive,
            account: Account::new(decl.limits),
        }
    }
}

impl<R: Routine> Proc<R> {
    /// A process with these privileges and this account, of which all else is still to be said.
    pub(crate) fn unsaid(
        alloc: Global,
        privs: Privs,
        account: Account,
    ) -> Result<Proc<R>, NoMemory> {
        let Newcomer {
            store,
            frames,
            asts,
            chans,
            exits,
        } = Newcomer::new(alloc)?;
        Ok(Proc {
            decl: 0,
            group: 0,
            member: 0,
            privs,
            store,
            frames,
            asts,
            chans,
            exits,
            cluster_0: Flags::new(),
            cluster_1: Flags::new(),
            wake_pending: false,
            suspended: false,
            delete_pending: false,
            exit_code: 0,
            phase: Phase::Alive,
            account,
        })
    }

    /// A process of the declaration at a place, before its first statement.
    pub(crate) fn created(alloc: Global, place: u32, decl: &ProcDecl) -> Result<Proc<R>, NoMemory>
        ensures process { IfOk result (λ proc. process proc ≡ born_of place decl.now) }
        ensures fresh { IfOk result (λ proc. IsBlank decl.now.limits proc) }
    {
        Ok(Newcomer::new(alloc)?.into_proc(place, decl))
    }
}
