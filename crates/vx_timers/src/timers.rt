//! The timers and scheduled wakes of all processes.

ghost use Rattle.std.specs.Prelude.{◌≡◌, ◌+◌, ◌<◌, ◌≤◌, ◌++◌, ◌∷◌, ◌^◌, [], IfOk, OnErr, OnOk, length, map, option_map};
ghost use Rattle.std.specs.List.{find};
ghost use Rattle.vx_base.specs.Lists.{amend, less};
ghost use Rattle.vx_base.specs.Queues.{least_due};
ghost use Rattle.vx_base.specs.Roomy.{HasSpace, with_items};
ghost use Rattle.vx_record.specs.Timers.{due_again, is_due};
ghost use Rattle.vx_timers.specs.Places.{entries, IsFree, time_of};
ghost use Rattle.vx_timers.specs.Seen.{passes};

use crate::due::{Due, Which};
use crate::places::{Place, first_place, gather, put_in, take_out, time_all};
use crate::round::Round;
use crate::snapshot::TimersSnapshot;
use std::alloc::Global;
use std::marker::Model;
use vx_base::{NoMemory, Routine};

/// The timers and scheduled wakes of all processes, in the order of opening. Contracts see the entries, and how many there is room
/// for in all. Of the calls on them only `reserve` and `snapshot` take memory. The least due time and the first entry that is due are
/// found in as many steps as the number of places can be halved.
#[derive(Drop)]
pub struct Timers<R: Routine> {
    // in the order of opening, with an empty place where an entry has gone, and empty places behind
    places: Vec<Place<R>>,
    // when the entry of each place is due
    times: Round,
    // from this place on all are empty
    used: usize,
    // how many entries there are
    count: usize,
    // half as many as there are places, so that many entries come before places are made free again
    room: usize,
}

impl<R: Routine> Model for Timers<R> {
    ghost use Rattle.vx_base.specs.Pieces.{Timer};
    ghost use Rattle.vx_base.specs.Roomy.{Roomy};

    ghost Value = { Roomy Timer };

    ghost use Rattle.vx_timers.specs.Places.{entries, IsKept};

    ghost view = { λ t. record { items = entries t.places.items; capacity = t.room } };

    ghost invariant = { λ t. IsKept t.places.items t.times t.used t.count t.room };
}

// The next free place. If none is left behind the entries, these move to the front.
fn free_place<R: Routine>(places: &mut Vec<Place<R>>, times: &mut Round, used: usize) -> usize
    requires times { times.old ≡ map time_of places.old.items }
    requires free { IsFree used places.old.items }
    requires some { length (entries places.old.items) < length places.old.items }
    ensures same { entries places.new.items ≡ entries places.old.items }
    ensures len { length places.new.items ≡ length places.old.items }
    ensures free { IsFree result places.new.items }
    ensures within { result < length places.new.items }
    ensures times { times.new ≡ map time_of places.new.items }
{
    if used < places.len() {
        return used;
    }
    let len = places.len();
    let count = gather(places, len);
    time_all(times, places.as_slice());
    count
}

impl<R: Routine> Timers<R> {
    /// No entries, and room for none. Takes no memory.
    pub fn new(alloc: Global) -> Timers<R>
        ensures { result ≡ record { items = []; capacity = 0 } }
    {
        Timers {
            places: Vec::new(alloc),
            times: Round::new(alloc),
            used: 0,
            count: 0,
            room: 0,
        }
    }

    /// The same entries put away. Each routine is made from its tag.
    pub fn snapshot(&self, alloc: Global) -> Result<TimersSnapshot<R>, NoMemory>
        ensures { IfOk result (λ snapshot. snapshot ≡ self.now.items) }
    {
        TimersSnapshot::new(alloc, self.places.as_slice(), self.count)
    }

    // Its places.
    pub(crate) fn as_slice(&self) -> &[Place<R>]
        ensures { entries result.now ≡ self.now.items }
    {
        self.places.as_slice()
    }

    /// How many entries there are.
    pub fn len(&self) -> usize
        ensures { result ≡ length self.now.items }
    {
        self.count
    }

    /// Makes room for n entries more, or changes nothing.
    pub fn reserve(&mut self, n: u32) -> Result<(), NoMemory>
        ensures items { self.new.items ≡ self.old.items }
        ensures kept { self.old.capacity ≤ self.new.capacity }
        ensures ok { OnOk result (HasSpace self.new n) }
        ensures err { OnErr result (self.new ≡ self.old) }
    {
        match self.count.checked_add(n as usize) {
            None => Err(NoMemory),
            Some(wanted) => self.grow(wanted),
        }
    }

    /// Makes room for so many entries in all, and twice as many places, or changes nothing.
    pub(crate) fn grow(&mut self, wanted: usize) -> Result<(), NoMemory>
        requires { length self.old.items ≤ wanted }
        ensures items { self.new.items ≡ self.old.items }
        ensures kept { self.old.capacity ≤ self.new.capacity }
        ensures ok { OnOk result (wanted ≤ self.new.capacity) }
        ensures err { OnErr result (self.new ≡ self.old) }
    {
        if wanted <= self.room {
            return Ok(());
        }
        let room = wanted.saturating_mul(2);
        let len = room.saturating_mul(2);
        let mut times = Round::empty(*self.places.allocator(), len)?;
        self.places.reserve(len.saturating_sub(self.places.len()))?;
        self.used = gather(&mut self.places, len);
        time_all(&mut times, self.places.as_slice());
        self.times = times;
        self.room = room;
        Ok(())
    }

    /// Puts an entry at the end. Takes no memory.
    pub fn put(&mut self, due: Due<R>)
        requires { HasSpace self.old 1 }
        ensures { self.new ≡ with_items self.old (self.old.items ++ due ∷ []) }
    {
        let place = free_place(&mut self.places, &mut self.times, self.used);
        put_in(&mut self.places, &mut self.times, place, due);
        self.used = place + 1;
        self.count += 1;
    }

    /// The first entry that is due by then.
    pub fn first_due(&self, now: u64) -> Option<&Due<R>>
        ensures { option_map (λ d. d.now) result ≡ find (is_due now) self.now.items }
    {
        match first_place(self.places.as_slice(), &self.times, Which::Due(now)) {
            None => None,
            Some(place) => self.places[place].as_ref(),
        }
    }

    /// Takes out the first of those that are looked for.
    pub fn take_first(&mut self, which: Which) -> Option<Due<R>>
        ensures found { result ≡ find (passes which) self.old.items }
        ensures after { self.new ≡ with_items self.old (less (passes which) self.old.items) }
    {
        match first_place(self.places.as_slice(), &self.times, which) {
            None => None,
            Some(place) => {
                self.count -= 1;
                take_out(&mut self.places, &mut self.times, place)
            }
        }
    }

    /// The first entry that is due by then, if there is one, is due so many ticks later.
    pub fn put_off(&mut self, now: u64, ticks: u32)
        requires { now + ticks < 2 ^ 64 }
        ensures { self.new ≡ with_items self.old (amend (is_due now) (due_again ticks) self.old.items) }
    {
        match first_place(self.places.as_slice(), &self.times, Which::Due(now)) {
            None => (),
            Some(place) => match take_out(&mut self.places, &mut self.times, place) {
                None => (),
                Some(mut due) => {
                    due.put_off(ticks);
                    put_in(&mut self.places, &mut self.times, place, due);
                }
            },
        }
    }

    /// When the first entry falls due. None exactly where there is no entry.
    pub fn least(&self) -> Option<u64>
        ensures { result ≡ option_map (λ t. t.due) (least_due self.now.items) }
    {
        self.times.least()
    }
}
