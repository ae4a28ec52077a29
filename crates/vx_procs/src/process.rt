//! One process, as it is kept.

ghost use Rattle.std.specs.Prelude.{◌≡◌, ◌+◌, ◌<◌, ◌≤◌, false, not, None, OnOk, IsTrue, is_some, length, option_map};
ghost use Rattle.std.specs.List.{find};
ghost use Rattle.vx_base.specs.Flags.{one, with_flag};
ghost use Rattle.vx_base.specs.Quotas.{is_within};
ghost use Rattle.vx_base.specs.Log.{HasRoom, logged};
ghost use Rattle.vx_image.specs.WellFormed.{IsImage};
ghost use Rattle.vx_record.specs.Asts.{charged_ast, with_queued};
ghost use Rattle.vx_record.specs.Charges.{ast_need, takes_ast, timer_need};
ghost use Rattle.vx_quota.specs.Account.{charged, has_left, released};
ghost use Rattle.vx_timers.specs.Seen.{alarm_of};
ghost use Rattle.vx_record.specs.Events.{put_back, resumed_with, uses_wake};
ghost use Rattle.vx_record.specs.Flags.{with_local_flag};
ghost use Rattle.vx_record.specs.State.{top_mode};
ghost use Rattle.vx_record.specs.Rundown.{is_ast_reached, leaving, named_for_deletion, without_frames};
ghost use Rattle.vx_procs.specs.View.{books_of, process, room_of};
ghost use Rattle.vx_procs.specs.Kernel.{IsWithinRoom};
ghost use Rattle.vx_procs.specs.Counts.{CountsAsts, freed};
ghost use Rattle.vx_reqs.specs.Requests.{promised_of};
ghost use Rattle.vx_procs.specs.Requests.{promised_ast};
ghost use Rattle.vx_procs.specs.Words.{advanced_of, alarm_ast, alarm_need, deliverable_of, fired_need, have_own_ids, left, moved_as, with_queued_if, without_reached, without_started};

use crate::frames::{leave_all, place_top, wait_at_top};
use vx_ast::{AstQueue, Delivery};
use vx_base::{Cond, Effects, Id, Mode, Need, NoMemory, Phase, Pid, Privs, Routine, Target, Wait};
use vx_chans::Chans;
use vx_exits::Exits;
use vx_flags::Flags;
use vx_frames::Frames;
use vx_image::{Image, Stop, Store, advance};
use vx_quota::Account;
use vx_timers::{Due, What};

/// A process: the place of its declaration, from 0; its group, member and privileges; what it stores; its frames; its AST
/// enables and queued ASTs; its channels and its exit handlers; its event flags 0 to 31 and 32 to 63; whether a wake pends, it is suspended, and $DELPRC named
/// it; its exit code and its phase.
#[derive(Drop)]
pub(crate) struct Proc<R: Routine> {
    pub(crate) decl: u32,
    pub(crate) group: u32,
    pub(crate) member: u32,
    pub(crate) privs: Privs,
    pub(crate) store: Store,
    pub(crate) frames: Frames,
    pub(crate) asts: AstQueue<R>,
    pub(crate) chans: Chans,
    pub(crate) exits: Exits<R>,
    pub(crate) cluster_0: Flags,
    pub(crate) cluster_1: Flags,
    pub(crate) wake_pending: bool,
    pub(crate) suspended: bool,
    pub(crate) delete_pending: bool,
    pub(crate) exit_code: u32,
    pub(crate) phase: Phase,
    pub(crate) account: Account,
}

/// What a timer needs, with an AST or without.
pub fn timer_need(with_ast: bool) -> Need
    ensures { result ≡ timer_need with_ast }
{
    Need {
        ast: if with_ast { 1 } else { 0 },
        bio: 0,
        dio: 0,
        byt: 0,
        tqe: 1,
    }
}

/// What an AST needs, if it is charged.
pub fn ast_need(charged: bool) -> Need
    ensures { result ≡ ast_need charged }
{
    Need {
        ast: if charged { 1 } else { 0 },
        bio: 0,
        dio: 0,
        byt: 0,
        tqe: 0,
    }
}

/// What an entry is charged: a timer, and its AST if it has one; a wake as an AST.
pub(crate) fn due_need<R: Routine>(due: &Due<R>) -> Need
    ensures { result ≡ alarm_need due.now.what }
{
    if due.is_timer() {
        timer_need(due.takes_ast())
    } else {
        ast_need(true)
    }
}

fn put_flag(flags: &mut Flags, n: u8, on: bool)
    requires { n < 32 }
    ensures { flags.new ≡ with_flag flags.old n on }
{
    if on {
        flags.set(n);
    } else {
        flags.clear(n);
    }
}

impl<R: Routine> Proc<R> {
    /// The mode of its top frame, user mode if it has none.
    pub(crate) fn mode(&self) -> Mode
        ensures { result ≡ top_mode (process self.now).frames }
    {
        match self.frames.top() {
            Some(frame) => frame.mode,
            None => Mode::User,
        }
    }

    /// Its phase when its frames go: an alive process goes on to the exit handlers of a mode.
    fn phase_left(&self, mode: Mode) -> Phase
        ensures { result ≡ leaving (process self.now).phase mode }
    {
        match self.phase {
            Phase::Alive => Phase::Handlers(mode),
            phase => phase,
        }
    }

    /// Sets or clears its flag n, 0 to 63.
    pub(crate) fn put_flag(&mut self, n: u32, on: bool)
        requires { n < 64 }
        ensures after { process self.new ≡ with_local_flag n on (process self.old) }
        ensures books { books_of self.new ≡ books_of self.old }
    {
        if n < 32 {
            put_flag(&mut self.cluster_0, n as u8, on);
        } else {
            put_flag(&mut self.cluster_1, (n - 32) as u8, on);
        }
    }

    /// Leaves its top frame, if it has one, and puts R0 back to what it was.
    pub(crate) fn put_back(&mut self, r0: u32)
        ensures after { process self.new ≡ put_back r0 (process self.old) }
        ensures books { books_of self.new ≡ books_of self.old }
    {
        let _left = self.frames.pop();
        self.store.set(Target::R0, r0);
    }

    // A wake is used up if it was waited for.
    fn use_wake(&mut self, wait: Wait)
        ensures after { process self.new ≡ uses_wake wait (process self.old) }
        ensures books { books_of self.new ≡ books_of self.old }
    {
        match wait {
            Wait::Hiber => self.wake_pending = false,
            Wait::Flags(..) | Wait::Synch(..) => (),
        }
    }

    /// Its wait ends with a condition, which R0 takes; a wake is used up.
    pub(crate) fn resume(&mut self, wait: Wait, cond: Cond)
        ensures after { process self.new ≡ resumed_with wait cond (process self.old) }
        ensures books { books_of self.new ≡ books_of self.old }
    {
        wait_at_top(&mut self.frames, None);
        self.use_wake(wait);
        self.store.set(Target::R0, cond.number());
    }

    /// Takes out the first of its queued ASTs that is of a mode or an outer one, if there is one, and gives its id.
    pub(crate) fn drop_ast(&mut self, mode: Mode) -> Option<Id>
        requires { CountsAsts self.old }
        ensures id { result ≡ option_map (λ q. q.id) (find (is_ast_reached mode) (process self.old).asts) }
        ensures after { process self.new ≡ without_reached mode (process self.old) }
        ensures room { room_of self.new ≡ room_of self.old }
        ensures account { self.new.account ≡ freed (find (is_ast_reached mode) (process self.old).asts) self.old.account }
    {
        let delivery = self.asts.flush_first(mode)?;
        self.account.release(ast_need(delivery.is_charged()));
        Some(delivery.id())
    }

    /// All its frames go, with an exit code.
    pub(crate) fn exit(&mut self, code: u32, log: &mut Effects)
        requires { HasRoom log.old (length (left (process self.old).frames)) }
        ensures log { log.new ≡ logged log.old (left (process self.old).frames) }
        ensures after { process self.new ≡ without_frames code (process self.old) }
        ensures books { books_of self.new ≡ books_of self.old }
    {
        self.phase = self.phase_left(self.mode());
        self.exit_code = code;
        leave_all(&mut self.frames, log);
    }

    /// All its frames go, it is resumed, and it is named for deletion: if it is alive, it is run down from user mode on.
    pub(crate) fn delete(&mut self, log: &mut Effects)
        requires { HasRoom log.old (length (left (process self.old).frames)) }
        ensures log { log.new ≡ logged log.old (left (process self.old).frames) }
        ensures after { process self.new ≡ named_for_deletion (process self.old) }
        ensures books { books_of self.new ≡ books_of self.old }
    {
        self.phase = self.phase_left(Mode::User);
        self.suspended = false;
        self.delete_pending = true;
        leave_all(&mut self.frames, log);
    }

    /// Runs its local statements, of its image, from where its top frame stands, and gives the new place and why they
    /// stopped. Its number is p.
    pub(crate) fn advance(&mut self, image: &Image, p: Pid) -> (u32, Stop)
        requires { IsImage image.now }
        ensures place { result.0 ≡ (advanced_of image.now p (process self.old)).place }
        ensures stop { result.1 ≡ (advanced_of image.now p (process self.old)).stop }
        ensures after { process self.new ≡ moved_as (advanced_of image.now p (process self.old)) (process self.old) }
        ensures books { books_of self.new ≡ books_of self.old }
    {
        let Some(frame) = self.frames.top() else {
            return (0, Stop::Local);
        };
        let (pc, prm) = (frame.pc, frame.prm);
        let (place, stop) = advance(image, &mut self.store, pc, prm, p);
        place_top(&mut self.frames, place);
        (place, stop)
    }

    /// Takes out its AST that may start, if there is one.
    pub(crate) fn take(&mut self) -> Option<Delivery<R>>
        requires ids { IsTrue (have_own_ids (process self.old).asts) }
        requires counts { CountsAsts self.old }
        ensures found { result ≡ deliverable_of (process self.old) }
        ensures after { process self.new ≡ without_started (deliverable_of (process self.old)) (process self.old) }
        ensures room { room_of self.new ≡ room_of self.old }
        ensures account { self.new.account ≡ freed (deliverable_of (process self.old)) self.old.account }
    {
        if self.suspended {
            return None;
        }
        let frame = self.frames.top()?;
        let (mode, active) = (frame.mode, self.frames.active_ast_mode());
        let delivery = self.asts.take(mode, active)?;
        self.account.release(ast_need(delivery.is_charged()));
        Some(delivery)
    }

    /// Queues an AST, and charges it if it is to be.
    pub(crate) fn queue(&mut self, id: Id, mode: Mode, routine: R, counted: bool)
        requires free { length (process self.old).asts < (room_of self.old).asts }
        ensures after { process self.new ≡ with_queued (record { id = id; mode = mode; tag = R.tagged routine; charged = counted }) (process self.old) }
        ensures room { room_of self.new ≡ room_of self.old }
        ensures account { self.new.account ≡ charged self.old.account (ast_need counted) }
    {
        self.asts.put(id, mode, routine, counted);
        let _had_left = self.account.charge(ast_need(counted));
    }

    /// Charges an amount, if so much is left.
    pub(crate) fn charge(&mut self, need: Need)
        ensures after { process self.new ≡ process self.old }
        ensures room { room_of self.new ≡ room_of self.old }
        ensures account { self.new.account ≡ charged self.old.account need }
    {
        let _had_left = self.account.charge(need);
    }

    /// Gives back an amount that was charged.
    pub(crate) fn release(&mut self, need: Need)
        requires { IsTrue (is_within need self.old.account.used) }
        ensures after { process self.new ≡ process self.old }
        ensures room { room_of self.new ≡ room_of self.old }
        ensures account { self.new.account ≡ released self.old.account need }
    {
        self.account.release(need);
    }

    /// An entry that it set fires, and ends: its AST, if it has one, is queued, and tells whether it has. The AST stays charged,
    /// what else the entry was charged is given back.
    pub(crate) fn fire(&mut self, id: Id, what: What<R>) -> bool
        requires free { length (process self.old).asts + one (takes_ast (alarm_of R.tagged what)) ≤ (room_of self.old).asts }
        requires charged { IsTrue (is_within (fired_need (alarm_of R.tagged what)) self.old.account.used) }
        ensures queued { result ≡ is_some (alarm_ast id (alarm_of R.tagged what)) }
        ensures after { process self.new ≡ with_queued_if (alarm_ast id (alarm_of R.tagged what)) (process self.old) }
        ensures room { room_of self.new ≡ room_of self.old }
        ensures account { self.new.account ≡ released self.old.account (fired_need (alarm_of R.tagged what)) }
    {
        match what {
            What::Timer {
                efn: _,
                reqid: _,
                mode,
                routine: Some(routine),
            } => {
                self.account.release(timer_need(false));
                self.asts.put(id, mode, routine, true);
                true
            }
            What::Timer {
                efn: _,
                reqid: _,
                mode: _,
                routine: None,
            } => {
                self.account.release(timer_need(false));
                false
            }
            What::Wake {
                target: _,
                repeat: _,
            } => {
                self.account.release(ast_need(true));
                false
            }
        }
    }

    /// A request that it made ends: its AST, if it has one, is queued, and tells whether it has. The AST stays charged, what else
    /// the request was charged is given back.
    pub(crate) fn end_request(&mut self, id: Id, need: Need, ast: Option<(Mode, R)>) -> bool
        requires free { length (process self.old).asts + one (is_some ast) ≤ (room_of self.old).asts }
        requires charged { IsTrue (is_within need self.old.account.used) }
        ensures queued { result ≡ is_some ast }
        ensures after { process self.new ≡ with_queued_if (promised_ast id (option_map (promised_of R.tagged) ast)) (process self.old) }
        ensures room { room_of self.new ≡ room_of self.old }
        ensures account { self.new.account ≡ released self.old.account need }
    {
        self.account.release(need);
        match ast {
            Some((mode, routine)) => {
                self.asts.put(id, mode, routine, true);
                true
            }
            None => false,
        }
    }

    /// An attention entry that it made fires: its AST is queued, and stays charged.
    pub(crate) fn call_attention(&mut self, id: Id, mode: Mode, routine: R)
        requires { length (process self.old).asts < (room_of self.old).asts }
        ensures after { process self.new ≡ with_queued (charged_ast id mode (R.tagged routine)) (process self.old) }
        ensures books { books_of self.new ≡ books_of self.old }
    {
        self.asts.put(id, mode, routine, true);
    }

    /// Makes room for one frame, and for one AST beyond what is queued and promised; it promises no more than it is charged.
    pub(crate) fn reserve(&mut self) -> Result<(), NoMemory>
        ensures after { process self.new ≡ process self.old }
        ensures account { self.new.account ≡ self.old.account }
        ensures kept { IsWithinRoom (room_of self.old) (room_of self.new) }
        ensures frame { OnOk result (length (process self.new).frames + 1 ≤ (room_of self.new).frames) }
        ensures ast { OnOk result (length (process self.new).asts + (self.new.account.used.ast + 1) ≤ (room_of self.new).asts) }
    {
        let n = match self.account.used().ast.checked_add(1) {
            Some(n) => n,
            None => return Err(NoMemory),
        };
        self.frames.reserve()?;
        self.asts.reserve(n)
    }

    /// Whether a need more would exceed its limits.
    pub(crate) fn exceeds(&self, need: Need) -> bool
        ensures { result ≡ not (has_left self.now.account need) }
    {
        !self.account.has_left(need)
    }

    /// Its AST that may start: none if it is suspended or has no frame.
    pub(crate) fn deliverable(&self) -> Option<Id>
        ensures { result ≡ option_map (λ q. q.id) (deliverable_of (process self.now)) }
    {
        if self.suspended {
            return None;
        }
        let frame = self.frames.top()?;
        self.asts
            .deliverable(frame.mode, self.frames.active_ast_mode())
    }
}
