//! Timers and scheduled wakes.

ghost use Rattle.std.specs.Prelude.{◌≡◌, ◌+◌, ◌<◌, ◌≤◌, ◌^◌, false, IfSome, Option, length, option_map};
ghost use Rattle.std.specs.List.{find, AllByRecursion};
ghost use Rattle.vx_base.specs.Queues.{least_due};
ghost use Rattle.vx_record.specs.State.{IsProcess};
ghost use Rattle.vx_record.specs.Charges.{exceeds};
ghost use Rattle.vx_record.specs.Sound.{AreOrdered, timer_id};
ghost use Rattle.vx_record.specs.Timers.{at_time, drop_timers, is_due, next_time, with_timer};
ghost use Rattle.vx_timers.specs.Seen.{alarm_of, passes};
ghost use Rattle.vx_procs.specs.Kernel.{Acts, Fits, with_state};
ghost use Rattle.vx_procs.specs.Held.{IsOwn, IsTargetMade};
ghost use Rattle.vx_procs.specs.Ready.{HasSpares, IsMoment};
ghost use Rattle.vx_procs.specs.Words.{alarm_need, due_entry, fired_ast, IsWoken, moved_on, put_off_first, without_timer};

use crate::process::due_need;
use crate::procs::Core;
use vx_base::{Effect, Id, Pid, Routine};
use vx_timers::{Due, Falls, What, Which};

impl<R: Routine> Core<R> {
    /// Moves the time.
    pub fn set_time(&mut self, now: u64)
        requires { IsMoment self.old.state now }
        ensures { self.new ≡ with_state self.old (at_time self.old.state now) }
    {
        self.time = now;
    }

    // When the first entry is due, if there is one.
    fn least_due(&self) -> Option<u64>
        ensures due { result ≡ option_map (λ t. t.due) (least_due self.now.state.timers) }
        ensures own { AllByRecursion (IsOwn self.now.state) self.now.state.timers }
    {
        self.timers.least()
    }

    /// The moment of the next tick: when the first entry is due, and now if there is none.
    pub fn next_time(&self) -> u64
        ensures time { result ≡ next_time self.now.state }
        ensures moment { IsMoment self.now.state result }
    {
        match self.least_due() {
            Some(due) => due,
            None => self.time(),
        }
    }

    // Adds an entry with a place for its AST, and charges its process. Takes no memory.
    fn add(&mut self, due: Due<R>)
        requires own { IsOwn self.old.state due }
        requires spares { HasSpares self.old }
        requires room { length self.old.state.timers + 1 ≤ self.old.timers }
        requires within { exceeds self.old.state due.p (alarm_need due.what) ≡ false }
        ensures { self.new ≡ with_state self.old (with_timer self.old.state due) }
    {
        let p = due.p();
        self.procs.at_mut(p).charge(due_need(&due));
        self.timers.put(due);
        self.short = Some(p);
    }

    /// Sets a timer ($SETIMR) or schedules a wake ($SCHDWK) so many ticks ahead, with a place for its AST, and charges the process
    /// that asks for it. Takes no memory.
    pub fn add_timer(&mut self, p: Pid, id: Id, delta: u32, what: What<R>)
        requires made { IsProcess self.old.state p }
        requires target { IsTargetMade (length self.old.state.procs) (alarm_of R.tagged what) }
        requires time { self.old.state.time < 2 ^ 63 }
        requires spares { HasSpares self.old }
        requires room { length self.old.state.timers + 1 ≤ self.old.timers }
        requires within { exceeds self.old.state p (alarm_need (alarm_of R.tagged what)) ≡ false }
        ensures { self.new ≡ with_state self.old (with_timer self.old.state (record { id = id; p = p; due = self.old.state.time + delta; what = alarm_of R.tagged what })) }
    {
        let due = self.time() + delta as u64;
        self.add(Due::new(id, p, due, what));
    }

    /// The first entry that is due by then: its id, its process, and what it does.
    pub fn due_entry(&self, now: u64) -> Option<(Id, Pid, Falls)>
        ensures due { result ≡ option_map due_entry (find (is_due now) self.now.state.timers) }
        ensures made { IfSome result (λ t. IsProcess self.now.state t.1) }
        ensures woken { IfSome result (λ t. IsWoken (length self.now.state.procs) t.2) }
    {
        let due = self.timers.first_due(now)?;
        Some((due.id(), due.p(), due.falls()))
    }

    /// Takes out the first entry that is due by then; its AST, if it has one, is queued in the place that was made for it. Takes
    /// no memory, and no spare room.
    pub fn fire(&mut self, now: u64) -> bool
        ensures queued { result ≡ fired_ast (find (is_due now) self.old.state.timers) }
        ensures after { self.new ≡ with_state self.old (moved_on self.old.state now (find (is_due now) self.old.state.timers)) }
    {
        let Some(due) = self.timers.take_first(Which::Due(now)) else {
            return false;
        };
        let (id, p) = (due.id(), due.p());
        self.procs.at_mut(p).fire(id, due.into_what())
    }

    /// The first entry that is due by then, if there is one, stays, charged, and is due so many ticks later.
    pub fn put_off(&mut self, now: u64, ticks: u32)
        requires past { now ≤ self.old.state.time }
        requires counted { now + ticks < 2 ^ 64 }
        ensures { self.new ≡ with_state self.old (put_off_first now ticks self.old.state) }
    {
        self.timers.put_off(now, ticks)
    }

    // Takes out the first of the entries that are looked for, gives its charge back, and gives its id.
    fn drop_timer(&mut self, which: Which) -> Option<Id>
        ensures id { result ≡ option_map (λ t. t.id) (find (passes which) self.old.state.timers) }
        ensures after { self.new ≡ with_state self.old (without_timer (passes which) self.old.state) }
    {
        let due = self.timers.take_first(which)?;
        let (id, p) = (due.id(), due.p());
        self.procs.at_mut(p).release(due_need(&due));
        Some(id)
    }
}

/// The entries that are looked for end, in id order, and their charges are given back. Takes no memory.
pub fn drop_timers<R: Routine>(core: &mut Core<R>, which: Which)
    requires order { AreOrdered timer_id 0 core.old.state.next core.old.state.timers }
    requires room { Fits core.old (drop_timers (passes which) core.old.state).effects }
    ensures { Acts (drop_timers (passes which) core.old.state) core.old core.new }
{
    'timers: while let Some(id) = core.drop_timer(which) {
        core.tell(Effect::Drop(id));
    }
}
