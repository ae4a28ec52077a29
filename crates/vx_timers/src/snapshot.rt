//! The timers in as little room as they take.

ghost use Rattle.std.specs.Prelude.{◌≡◌, ◌↔◌, [], IfOk, IsTrue, OnOk};
ghost use Rattle.vx_timers.specs.Places.{entries};

use crate::due::Due;
use crate::places::Place;
use crate::timers::Timers;
use std::alloc::Global;
use std::marker::Model;
use vx_base::{Duplicate, NoMemory, Routine, Same};

/// The timers and scheduled wakes of all processes in the order of opening, with no empty place and no room for more, and no tournament of
/// their times.
#[derive(Drop)]
pub struct TimersSnapshot<R: Routine> {
    entries: Vec<Due<R>>,
}

impl<R: Routine> Model for TimersSnapshot<R> {
    ghost use Rattle.std.specs.Prelude.{List};
    ghost use Rattle.vx_base.specs.Pieces.{Timer};

    ghost Value = { List Timer };

    ghost view = { λ s. s.entries.items };
}

// The entries that stand in places. Takes memory for so many.
fn put_away<R: Routine>(
    alloc: Global,
    places: &[Place<R>],
    count: usize,
) -> Result<Vec<Due<R>>, NoMemory>
    ensures { IfOk result (λ dues. dues.items ≡ entries places.now) }
{
    let mut dues = Vec::with_capacity(alloc, count)?;
    for place in places {
        if let Some(due) = place {
            dues.push(due.duplicate()?)?;
        }
    }
    Ok(dues)
}

// Puts entries where there are none.
fn put_all<R: Routine>(timers: &mut Timers<R>, dues: &[Due<R>]) -> Result<(), NoMemory>
    requires { timers.old.items ≡ [] }
    ensures { OnOk result (timers.new.items ≡ dues.now) }
{
    timers.grow(dues.len())?;
    for due in dues {
        timers.put(due.duplicate()?);
    }
    Ok(())
}

// Takes all entries out. The room of timers that have none stays.
fn clear<R: Routine>(alloc: Global, timers: &mut Timers<R>)
    ensures { timers.new.items ≡ [] }
{
    if timers.len() != 0 {
        *timers = Timers::new(alloc);
    }
}

// Whether these are the entries that stand in places.
fn same_entries<R: Routine>(dues: &[Due<R>], places: &[Place<R>]) -> bool
    ensures { IsTrue result ↔ (dues.now ≡ entries places.now) }
{
    let mut left = dues;
    for place in places {
        if let Some(due) = place {
            match left.split_first() {
                Some((first, others)) if first.same(due) => left = others,
                _ => return false,
            }
        }
    }
    left.is_empty()
}

impl<R: Routine> TimersSnapshot<R> {
    /// The entries of places, of which there are so many.
    pub(crate) fn new(
        alloc: Global,
        places: &[Place<R>],
        count: usize,
    ) -> Result<TimersSnapshot<R>, NoMemory>
        ensures { IfOk result (λ snapshot. snapshot ≡ entries places.now) }
    {
        Ok(TimersSnapshot {
            entries: put_away(alloc, places, count)?,
        })
    }

    /// The same entries in place of others, each with a routine made from its tag. If memory runs out, the others are of no more
    /// use.
    pub fn restore(&self, alloc: Global, timers: &mut Timers<R>) -> Result<(), NoMemory>
        ensures { OnOk result (timers.new.items ≡ self.now) }
    {
        clear(alloc, timers);
        put_all(timers, self.entries.as_slice())
    }

    /// Whether these are the entries of timers, in the same order. Takes no memory.
    pub fn same(&self, timers: &Timers<R>) -> bool
        ensures { IsTrue result ↔ (self.now ≡ timers.now.items) }
    {
        same_entries(self.entries.as_slice(), timers.as_slice())
    }
}
