//! One process, put away.

ghost use Rattle.std.specs.Prelude.{◌≡◌, IfOk, OnOk};
ghost use Rattle.vx_procs.specs.Kernel.{IsWithinRoom};
ghost use Rattle.vx_procs.specs.Snapshots.{process_in, room_in};
ghost use Rattle.vx_procs.specs.View.{process, room_of};

use crate::process::Proc;
use std::alloc::Global;
use vx_ast::AstQueueSnapshot;
use vx_base::{Duplicate, NoMemory, Phase, Privs, Routine};
use vx_chans::ChansSnapshot;
use vx_exits::ExitsSnapshot;
use vx_flags::Flags;
use vx_frames::FramesSnapshot;
use vx_image::StoreSnapshot;
use vx_quota::Account;

/// A process put away: what `Proc` has, in as little room as it takes.
#[derive(Drop)]
pub(crate) struct ProcSnapshot<R: Routine> {
    pub(crate) decl: u32,
    pub(crate) group: u32,
    pub(crate) member: u32,
    pub(crate) privs: Privs,
    pub(crate) store: StoreSnapshot,
    pub(crate) frames: FramesSnapshot,
    pub(crate) asts: AstQueueSnapshot<R>,
    pub(crate) chans: ChansSnapshot,
    pub(crate) exits: ExitsSnapshot<R>,
    pub(crate) cluster_0: Flags,
    pub(crate) cluster_1: Flags,
    pub(crate) wake_pending: bool,
    pub(crate) suspended: bool,
    pub(crate) delete_pending: bool,
    pub(crate) exit_code: u32,
    pub(crate) phase: Phase,
    pub(crate) account: Account,
}

impl<R: Routine> Proc<R> {
    /// The same process put away, each of its routines made from its tag.
    pub(crate) fn snapshot(&self, alloc: Global) -> Result<ProcSnapshot<R>, NoMemory>
        ensures process { IfOk result (λ snapshot. process_in snapshot ≡ process self.now) }
        ensures room { IfOk result (λ snapshot. IsWithinRoom (room_of self.now) (room_in snapshot)) }
        ensures account { IfOk result (λ snapshot. snapshot.account ≡ self.now.account) }
    {
        let cluster_0 = self.cluster_0.duplicate()?;
        let cluster_1 = self.cluster_1.duplicate()?;
        let account = self.account.duplicate()?;
        let frames = self.frames.snapshot(alloc)?;
        let asts = self.asts.snapshot(alloc)?;
        let chans = self.chans.snapshot(alloc)?;
        let exits = self.exits.snapshot(alloc)?;
        let store = self.store.snapshot(alloc)?;
        Ok(ProcSnapshot {
            decl: self.decl,
            group: self.group,
            member: self.member,
            privs: self.privs,
            store,
            frames,
            asts,
            chans,
            exits,
            cluster_0,
            cluster_1,
            wake_pending: self.wake_pending,
            suspended: self.suspended,
            delete_pending: self.delete_pending,
            exit_code: self.exit_code,
            phase: self.phase,
            account,
        })
    }
}

impl<R: Routine> ProcSnapshot<R> {
    /// The process that was put away in place of another, each of its routines made from its tag, with as much room or more. If memory
    /// runs out, the other is of no more use.
    pub(crate) fn restore(&self, alloc: Global, proc: &mut Proc<R>) -> Result<(), NoMemory>
        ensures process { OnOk result (process proc.new ≡ process_in self.now) }
        ensures room { OnOk result (IsWithinRoom (room_in self.now) (room_of proc.new)) }
        ensures account { OnOk result (proc.new.account ≡ self.now.account) }
    {
        self.frames.restore(alloc, &mut proc.frames)?;
        self.asts.restore(&mut proc.asts)?;
        self.exits.restore(&mut proc.exits)?;
        self.chans.restore(&mut proc.chans);
        self.store.restore(&mut proc.store);
        proc.cluster_0 = self.cluster_0.duplicate()?;
        proc.cluster_1 = self.cluster_1.duplicate()?;
        proc.account = self.account.duplicate()?;
        proc.decl = self.decl;
        proc.group = self.group;
        proc.member = self.member;
        proc.privs = self.privs;
        proc.wake_pending = self.wake_pending;
        proc.suspended = self.suspended;
        proc.delete_pending = self.delete_pending;
        proc.exit_code = self.exit_code;
        proc.phase = self.phase;
        Ok(())
    }
}
