//! Reads of one process.

ghost use Rattle.std.specs.Prelude.{◌≡◌, ◌<◌, ◌≤◌, length, option_map};
ghost use Rattle.vx_base.specs.Lists.{first};
ghost use Rattle.vx_image.specs.Local.{place_of};
ghost use Rattle.vx_image.specs.Storage.{buffer_at, status_at};
ghost use Rattle.vx_record.specs.State.{IsProcess, process_at, decl_in, decl_of, image_in, image_of, current};
ghost use Rattle.vx_record.specs.Asts.{deliverable_ast, entry_place, entry_prm, new_frame};
ghost use Rattle.vx_record.specs.Charges.{exceeds};
ghost use Rattle.vx_record.specs.Control.{decl_at, is_deleted};
ghost use Rattle.vx_record.specs.Events.{r0_of};
ghost use Rattle.vx_record.specs.Flags.{is_filled};
ghost use Rattle.vx_procs.specs.View.{process};
ghost use Rattle.vx_procs.specs.Words.{HasDecl, HasImage};

use crate::process::Proc;
use crate::procs::Core;
use vx_base::{Entry, Frame, FrameKind, Id, Mode, Name, Need, Phase, Pid, Privs, Routine, Target};
use vx_image::{Image, ProcDecl, System};

/// The process declaration at a place, from 0.
pub(crate) fn decl_in(system: &System, place: u32) -> &ProcDecl
    requires { place < length system.now.decls }
    ensures { result.now ≡ decl_in system.now place }
{
    &system.decls.as_slice()[place as usize]
}

/// The image of the process declaration at a place, from 0.
pub(crate) fn image_in(system: &System, place: u32) -> &Image
    requires declared { place < length system.now.decls }
    requires image { (decl_in system.now place).image < length system.now.images }
    ensures { result.now ≡ image_in system.now place }
{
    &system.images.as_slice()[decl_in(system, place).image as usize]
}

// The place that a label of an image names, by its place among the labels, from 0; 0 if there is no such label.
fn place_of(image: &Image, label: u32) -> u32
    ensures { result ≡ place_of image.now label }
{
    match image.labels.as_slice().get(label as usize) {
        Some(label) => label.place,
        None => 0,
    }
}

// The parameter with which a routine is entered.
fn entry_prm(entry: Entry) -> u32
    ensures { result ≡ entry_prm entry }
{
    match entry {
        Entry::Label(_, prm) | Entry::Host(prm) => prm,
        Entry::Exit(code) => code,
    }
}

impl<R: Routine> Core<R> {
    /// How many processes have been made, which is the number of the last.
    pub fn process_count(&self) -> usize
        ensures { result ≡ length self.now.state.procs }
    {
        self.procs.len()
    }

    /// A process.
    pub(crate) fn process_of(&self, p: Pid) -> &Proc<R>
        requires { IsProcess self.now.state p }
        ensures { process result.now ≡ process_at self.now.state p }
    {
        self.procs.at(p)
    }

    /// The name of the declaration at a place, from 0.
    pub fn declared_name(&self, place: u32) -> Name
        requires { place < length self.now.state.system.decls }
        ensures { result ≡ (decl_at self.now.state place).name }
    {
        decl_in(self.system.get(), place).name
    }

    /// The declaration of a process.
    pub fn declaration(&self, p: Pid) -> &ProcDecl
        requires made { IsProcess self.now.state p }
        requires declared { HasDecl self.now.state p }
        ensures { result.now ≡ decl_of self.now.state p }
    {
        decl_in(self.system.get(), self.process_of(p).decl)
    }

    /// The image that a process runs.
    pub fn image(&self, p: Pid) -> &Image
        requires made { IsProcess self.now.state p }
        requires declared { HasDecl self.now.state p }
        requires image { HasImage self.now.state p }
        ensures { result.now ≡ image_of self.now.state p }
    {
        image_in(self.system.get(), self.process_of(p).decl)
    }

    /// The mode in which a process runs: that of its top frame, user mode if it has none.
    pub fn current_mode(&self, p: Pid) -> Mode
        requires { IsProcess self.now.state p }
        ensures { result ≡ current self.now.state p }
    {
        self.process_of(p).mode()
    }

    /// How far a process is on its way out.
    pub fn phase(&self, p: Pid) -> Phase
        requires { IsProcess self.now.state p }
        ensures { result ≡ (process_at self.now.state p).phase }
    {
        self.process_of(p).phase
    }

    /// Whether a process is deleted.
    pub fn is_deleted(&self, p: Pid) -> bool
        requires { IsProcess self.now.state p }
        ensures { result ≡ is_deleted (process_at self.now.state p) }
    {
        matches!(self.process_of(p).phase, Phase::Deleted)
    }

    /// R0 of a process.
    pub fn r0(&self, p: Pid) -> u32
        requires { IsProcess self.now.state p }
        ensures { result ≡ r0_of self.now.state p }
    {
        self.process_of(p).store.value(Target::R0)
    }

    /// The AST of a process that may start, if there is one; none if it is suspended or has no frame.
    pub fn deliverable(&self, p: Pid) -> Option<Id>
        requires { IsProcess self.now.state p }
        ensures { result ≡ option_map (λ q. q.id) (deliverable_ast self.now.state p) }
    {
        self.process_of(p).deliverable()
    }

    // The place where a routine of a process is entered.
    fn entry_place(&self, p: Pid, entry: Entry) -> u32
        requires made { IsProcess self.now.state p }
        requires declared { HasDecl self.now.state p }
        requires image { HasImage self.now.state p }
        ensures { result ≡ entry_place self.now.state p entry }
    {
        match entry {
            Entry::Label(label, _) => place_of(self.image(p), label),
            Entry::Exit(_) | Entry::Host(_) => 0,
        }
    }

    /// The frame in which a routine of a process is entered, with the R0 to be put back after it.
    pub fn new_frame(
        &self,
        p: Pid,
        kind: FrameKind,
        mode: Mode,
        entry: Entry,
        saved_r0: u32,
    ) -> Frame
        requires made { IsProcess self.now.state p }
        requires declared { HasDecl self.now.state p }
        requires image { HasImage self.now.state p }
        ensures { result ≡ new_frame self.now.state p kind mode entry saved_r0 }
    {
        Frame {
            kind,
            mode,
            pc: self.entry_place(p, entry),
            prm: entry_prm(entry),
            saved_r0,
            wait: None,
        }
    }

    /// Whether a need more would exceed a limit of a process. It takes the same time however much is charged.
    pub fn exceeds(&self, p: Pid, need: Need) -> bool
        requires { IsProcess self.now.state p }
        ensures { result ≡ exceeds self.now.state p need }
    {
        self.procs.at(p).exceeds(need)
    }

    /// Its privileges.
    pub fn privs(&self, p: Pid) -> Privs
        requires { IsProcess self.now.state p }
        ensures { result ≡ (process_at self.now.state p).privs }
    {
        self.process_of(p).privs
    }

    /// The group of its UIC.
    pub fn group(&self, p: Pid) -> u32
        requires { IsProcess self.now.state p }
        ensures { result ≡ (process_at self.now.state p).group }
    {
        self.process_of(p).group
    }

    /// The member of its UIC.
    pub fn member(&self, p: Pid) -> u32
        requires { IsProcess self.now.state p }
        ensures { result ≡ (process_at self.now.state p).member }
    {
        self.process_of(p).member
    }

    /// Whether it is to be deleted ($DELPRC).
    pub fn is_delete_pending(&self, p: Pid) -> bool
        requires { IsProcess self.now.state p }
        ensures { result ≡ (process_at self.now.state p).delete_pending }
    {
        self.process_of(p).delete_pending
    }

    /// Whether a wake pends for it.
    pub fn has_wake(&self, p: Pid) -> bool
        requires { IsProcess self.now.state p }
        ensures { result ≡ (process_at self.now.state p).wake_pending }
    {
        self.process_of(p).wake_pending
    }

    /// Whether it is suspended.
    pub fn is_suspended(&self, p: Pid) -> bool
        requires { IsProcess self.now.state p }
        ensures { result ≡ (process_at self.now.state p).suspended }
    {
        self.process_of(p).suspended
    }

    /// Its exit code.
    pub fn exit_code(&self, p: Pid) -> u32
        requires { IsProcess self.now.state p }
        ensures { result ≡ (process_at self.now.state p).exit_code }
    {
        self.process_of(p).exit_code
    }

    /// Its top frame, if it has one.
    pub fn top(&self, p: Pid) -> Option<Frame>
        requires { IsProcess self.now.state p }
        ensures { result ≡ first (process_at self.now.state p).frames }
    {
        self.process_of(p).frames.top().copied()
    }

    /// Whether one of its I/O status blocks, 1 to 32, is filled.
    pub fn is_filled(&self, p: Pid, iosb: u32) -> bool
        requires made { IsProcess self.now.state p }
        requires above { 1 ≤ iosb }
        requires within { iosb ≤ 32 }
        ensures { result ≡ is_filled (status_at (process_at self.now.state p).store iosb) }
    {
        self.process_of(p).is_filled(iosb)
    }

    /// The 2,048 bytes of one of its buffers, 0 to 31.
    pub fn buffer(&self, p: Pid, b: u32) -> &[u8]
        requires made { IsProcess self.now.state p }
        requires within { b ≤ 31 }
        ensures bytes { result.now ≡ buffer_at (process_at self.now.state p).store b }
        ensures size { length result.now ≡ 2048 }
    {
        self.process_of(p).store.buf(b)
    }

    /// How many frames it has.
    pub fn frame_count(&self, p: Pid) -> usize
        requires { IsProcess self.now.state p }
        ensures { result ≡ length (process_at self.now.state p).frames }
    {
        self.process_of(p).frames.len()
    }

    /// How many ASTs are queued for it.
    pub fn ast_count(&self, p: Pid) -> usize
        requires { IsProcess self.now.state p }
        ensures { result ≡ length (process_at self.now.state p).asts }
    {
        self.process_of(p).asts.len()
    }

    /// How many exit handlers it has.
    pub fn handler_count(&self, p: Pid) -> usize
        requires { IsProcess self.now.state p }
        ensures { result ≡ length (process_at self.now.state p).handlers }
    {
        self.process_of(p).exits.len()
    }

    /// How many channels a process has, assigned or free.
    pub fn channel_count(&self, p: Pid) -> usize
        requires { IsProcess self.now.state p }
        ensures { result ≡ length (process_at self.now.state p).channels }
    {
        self.process_of(p).chans.len()
    }

    /// How many timers there are.
    pub fn timer_count(&self) -> usize
        ensures { result ≡ length self.now.state.timers }
    {
        self.timers.len()
    }

    /// The time, in ticks.
    pub fn time(&self) -> u64
        ensures { result ≡ self.now.state.time }
    {
        self.time
    }

    /// What the script says.
    pub fn system(&self) -> &System
        ensures { result.now ≡ self.now.state.system }
    {
        self.system.get()
    }
}
