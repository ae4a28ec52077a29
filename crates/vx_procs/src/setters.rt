//! Changes of one process.

ghost use Rattle.std.specs.Prelude.{◌≡◌, ◌<◌, ◌≤◌, true, false, IsTrue, length, option_map};
ghost use Rattle.std.specs.List.{find};
ghost use Rattle.vx_base.specs.Lists.{first};
ghost use Rattle.vx_base.specs.Pieces.{is_enabled_in};
ghost use Rattle.vx_frames.specs.Frames.{may_stand_on};
ghost use Rattle.vx_image.specs.WellFormed.{IsImage};
ghost use Rattle.vx_record.specs.State.{IsProcess, process_at, image_of, next_id, past_id};
ghost use Rattle.vx_record.specs.Charges.{ast_need, exceeds};
ghost use Rattle.vx_record.specs.Asts.{deliverable_ast, with_delivery, with_frame, with_queued};
ghost use Rattle.vx_record.specs.Control.{with_suspension, with_wake};
ghost use Rattle.vx_record.specs.Events.{below_top, moved_behind, put_back, resumed_with, with_r0};
ghost use Rattle.vx_record.specs.Finish.{with_stored_bytes, with_stored_status};
ghost use Rattle.vx_record.specs.Flags.{with_wait};
ghost use Rattle.vx_record.specs.Rundown.{exited, in_phase, is_ast_reached};
ghost use Rattle.vx_record.specs.Services.{with_variable};
ghost use Rattle.vx_procs.specs.Kernel.{Acts, Fits, changed, with_state};
ghost use Rattle.vx_procs.specs.Ready.{HasSpares};
ghost use Rattle.vx_procs.specs.Words.{advanced_at, frames_deleted, have_own_ids, moved_as, without_reached, without_started, HasDecl, HasImage};

use crate::frames::{place_top, wait_at_top};
use crate::procs::Core;
use crate::reads::image_in;
use vx_ast::Delivery;
use vx_base::{Cond, Frame, Id, Mode, Phase, Pid, Routine, Target, Wait};
use vx_image::Stop;

impl<R: Routine> Core<R> {
    /// The next id, which is used up.
    pub fn new_id(&mut self) -> Id
        requires { self.old.state.next < 4294967295 }
        ensures id { result ≡ next_id self.old.state }
        ensures after { self.new ≡ with_state self.old (past_id self.old.state) }
    {
        let id = Id(self.next);
        self.next += 1;
        id
    }

    /// A wake pends for a process, or none does ($WAKE, $HIBER).
    pub fn set_wake(&mut self, p: Pid, on: bool)
        requires { IsProcess self.old.state p }
        ensures { self.new ≡ changed self.old p (with_wake on) }
    {
        self.procs.at_mut(p).wake_pending = on;
    }

    /// A process is suspended, or it is not ($SUSPND, $RESUME).
    pub fn set_suspended(&mut self, p: Pid, on: bool)
        requires { IsProcess self.old.state p }
        ensures { self.new ≡ changed self.old p (with_suspension on) }
    {
        self.procs.at_mut(p).suspended = on;
    }

    /// Sets how far a process is on its way out.
    pub fn set_phase(&mut self, p: Pid, phase: Phase)
        requires { IsProcess self.old.state p }
        ensures { self.new ≡ changed self.old p (in_phase phase) }
    {
        self.procs.at_mut(p).phase = phase;
    }

    /// Puts a number into a variable of a process, or into its R0.
    pub fn set_variable(&mut self, p: Pid, target: Target, n: u32)
        requires { IsProcess self.old.state p }
        ensures { self.new ≡ changed self.old p (with_variable target n) }
    {
        self.procs.at_mut(p).store.set(target, n)
    }

    /// Puts a number into R0 of a process.
    pub fn set_r0(&mut self, p: Pid, n: u32)
        requires { IsProcess self.old.state p }
        ensures { self.new ≡ changed self.old p (with_r0 n) }
    {
        self.procs.at_mut(p).store.set(Target::R0, n)
    }

    /// Puts at most 2,048 bytes over the start of a buffer of a process, 0 to 31.
    pub fn set_buffer(&mut self, p: Pid, b: u32, bytes: &[u8])
        requires made { IsProcess self.old.state p }
        requires within { b ≤ 31 }
        requires size { length bytes.now ≤ 2048 }
        ensures { self.new ≡ changed self.old p (with_stored_bytes b bytes.now) }
    {
        self.procs.at_mut(p).store.put(b, bytes)
    }

    /// Fills an I/O status block of a process, 1 to 32, or clears it if the condition is none and the numbers are 0.
    pub fn set_status(&mut self, p: Pid, i: u32, cond: Option<Cond>, count: u32, info: u32)
        requires made { IsProcess self.old.state p }
        requires above { 1 ≤ i }
        requires within { i ≤ 32 }
        ensures { self.new ≡ changed self.old p (with_stored_status i (record { cond = cond; count = count; info = info })) }
    {
        self.procs.at_mut(p).store.set_iosb(i, cond, count, info)
    }

    /// Enables or disables AST delivery in a mode of a process ($SETAST), and tells how it was.
    pub fn set_delivery(&mut self, p: Pid, mode: Mode, on: bool) -> bool
        requires { IsProcess self.old.state p }
        ensures was { result ≡ is_enabled_in (process_at self.old.state p).enables mode }
        ensures after { self.new ≡ changed self.old p (with_delivery mode on) }
    {
        self.procs.at_mut(p).asts.enable(mode, on)
    }

    /// Queues an AST for a process ($DCLAST, $FORCEX). Takes no memory.
    pub fn queue_ast(&mut self, p: Pid, id: Id, mode: Mode, routine: R, charged: bool)
        requires made { IsProcess self.old.state p }
        requires spares { HasSpares self.old }
        requires within { charged ≡ true → exceeds self.old.state p (ast_need true) ≡ false }
        ensures { self.new ≡ changed self.old p (with_queued (record { id = id; mode = mode; tag = R.tagged routine; charged = charged })) }
    {
        self.procs.at_mut(p).queue(id, mode, routine, charged);
        self.short = Some(p);
    }

    /// Takes out the AST of a process that may start, as `deliverable` has it. No two of its queued ASTs have one id.
    pub fn take_ast(&mut self, p: Pid) -> Option<Delivery<R>>
        requires made { IsProcess self.old.state p }
        requires ids { IsTrue (have_own_ids (process_at self.old.state p).asts) }
        ensures found { result ≡ deliverable_ast self.old.state p }
        ensures after { self.new ≡ changed self.old p (without_started (deliverable_ast self.old.state p)) }
    {
        self.procs.at_mut(p).take()
    }

    /// Takes out the first of the ASTs queued for a process that is of a mode or an outer one, if there is one, and gives its id.
    /// Its routine is never entered.
    pub fn drop_ast(&mut self, p: Pid, mode: Mode) -> Option<Id>
        requires { IsProcess self.old.state p }
        ensures id { result ≡ option_map (λ q. q.id) (find (is_ast_reached mode) (process_at self.old.state p).asts) }
        ensures after { self.new ≡ changed self.old p (without_reached mode) }
    {
        self.procs.at_mut(p).drop_ast(mode)
    }

    /// Enters a frame, which is not further out than the top frame. Takes no memory.
    pub fn push_frame(&mut self, p: Pid, frame: Frame)
        requires made { IsProcess self.old.state p }
        requires spares { HasSpares self.old }
        requires inward { IsTrue (may_stand_on frame (process_at self.old.state p).frames) }
        ensures { self.new ≡ changed self.old p (with_frame frame) }
    {
        self.procs.at_mut(p).frames.push(frame);
        self.short = Some(p);
    }

    /// Leaves the top frame of a process, if it has one.
    pub fn pop_frame(&mut self, p: Pid) -> Option<Frame>
        requires { IsProcess self.old.state p }
        ensures top { result ≡ first (process_at self.old.state p).frames }
        ensures after { self.new ≡ changed self.old p below_top }
    {
        self.procs.at_mut(p).frames.pop()
    }

    /// Leaves the frame of an AST, if there is one, and puts R0 back to what it was before the AST.
    pub fn return_with(&mut self, p: Pid, r0: u32)
        requires { IsProcess self.old.state p }
        ensures { self.new ≡ changed self.old p (put_back r0) }
    {
        self.procs.at_mut(p).put_back(r0)
    }

    /// The top frame of a process, if it has one, waits for something, or for nothing.
    pub fn set_wait(&mut self, p: Pid, wait: Option<Wait>)
        requires { IsProcess self.old.state p }
        ensures { self.new ≡ changed self.old p (with_wait wait) }
    {
        wait_at_top(&mut self.procs.at_mut(p).frames, wait)
    }

    /// The wait of a process ends with a condition, which R0 takes; a wake is used up.
    pub fn resume(&mut self, p: Pid, wait: Wait, cond: Cond)
        requires { IsProcess self.old.state p }
        ensures { self.new ≡ changed self.old p (resumed_with wait cond) }
    {
        self.procs.at_mut(p).resume(wait, cond)
    }

    /// The top frame of a process, if it has one, goes on behind the statement at a place.
    pub fn move_behind(&mut self, p: Pid, place: u32)
        requires made { IsProcess self.old.state p }
        requires place { place < 4294967295 }
        ensures { self.new ≡ changed self.old p (moved_behind place) }
    {
        place_top(&mut self.procs.at_mut(p).frames, place + 1)
    }

    /// Runs the local statements of a process from where its top frame stands, at most 1,000, and gives the new place and why
    /// they stopped.
    pub fn run_local(&mut self, p: Pid) -> (u32, Stop)
        requires made { IsProcess self.old.state p }
        requires declared { HasDecl self.old.state p }
        requires image { HasImage self.old.state p }
        requires formed { IsImage (image_of self.old.state p) }
        ensures place { result.0 ≡ (advanced_at self.old.state p).place }
        ensures stop { result.1 ≡ (advanced_at self.old.state p).stop }
        ensures after { self.new ≡ changed self.old p (moved_as (advanced_at self.old.state p)) }
    {
        let place = self.procs.at(p).decl;
        let image = image_in(self.system.get(), place);
        self.procs.at_mut(p).advance(image, p)
    }

    /// All frames of a process go, with an exit code ($EXIT): each AST among them is no longer active, the top one first, and an
    /// alive process goes on to the exit handlers of its mode.
    pub fn exit(&mut self, p: Pid, code: u32)
        requires made { IsProcess self.old.state p }
        requires free { Fits self.old (exited self.old.state p code).effects }
        ensures { Acts (exited self.old.state p code) self.old self.new }
    {
        self.procs.at_mut(p).exit(code, &mut self.log)
    }

    /// All frames of a process go, as it is named for deletion ($DELPRC): each AST among them is no longer active, the top one first,
    /// the process is resumed, and an alive process is run down from user mode on.
    pub fn delete(&mut self, p: Pid)
        requires made { IsProcess self.old.state p }
        requires free { Fits self.old (frames_deleted self.old.state p).effects }
        ensures { Acts (frames_deleted self.old.state p) self.old self.new }
    {
        self.procs.at_mut(p).delete(&mut self.log)
    }
}
