//! The rows of the summary so far.

ghost use Rattle.std.specs.Prelude.{◌≡◌, ◌<◌, ◌∷◌, [], ◌++◌, length, None, MatchOption, OnOk, slice_index_or};
ghost use Rattle.vx_explore.specs.Alike.{Tells, ends, first, stops};

use crate::ending::Ending;
use crate::found::{Found, Picks};
use crate::machine::Machine;
use vx_base::{Duplicate, NoMemory};

/// The place of an ending among the rows, or None if no row has it.
fn place_of<E: Ending>(rows: &[Found<E>], what: &E) -> Option<usize>
    ensures { MatchOption result
        (first (λ e. E.is_same e what.now) rows.now ≡ None)
        (λ i. (i < length rows.now) × ((d : _) → (slice_index_or rows.now i d).what ≡ what.now)) }
{
    for (i, row) in rows.iter().enumerate() {
        if row.what.same(what) {
            return Some(i);
        }
    }
    None
}

/// Counts these many more runs with an ending, and adds a row if the ending is new.
fn tell<E: Ending>(
    rows: &mut Vec<Found<E>>,
    what: E,
    ways: u64,
    picks: &Picks,
) -> Result<(), NoMemory>
    ensures { OnOk result ((xs : _) → Tells E.is_same u64.MAX rows.old.items xs
        → Tells E.is_same u64.MAX rows.new.items (xs ++ record { what = what; ways = ways; picks = picks.now } ∷ [])) }
{
    match place_of(rows.as_slice(), &what) {
        Some(i) => {
            let row = &mut rows[i];
            row.ways = row.ways.saturating_add(ways);
        }
        None => {
            let picks = picks.duplicate()?;
            rows.push(Found { what, ways, picks })?;
        }
    }
    Ok(())
}

/// Whether runs stop here: the limit is reached, or no event is enabled.
fn is_stop<M: Machine>(there: &M, last: bool) -> bool
    ensures { result ≡ stops M.enabled last there.now }
{
    last || there.count() == 0
}

/// Counts the runs that came to one state, if they stop there.
fn tell_one<M: Machine>(
    rows: &mut Vec<Found<M::Ending>>,
    there: &Found<M>,
    last: bool,
    machine: &mut M::Running,
) -> Result<(), NoMemory>
    ensures { OnOk result ((xs : _) → Tells M.Ending.is_same u64.MAX rows.old.items xs
        → Tells M.Ending.is_same u64.MAX rows.new.items (xs ++ ends M.enabled M.ending_of last (there.now ∷ []))) }
{
    if is_stop(&there.what, last) {
        return tell(rows, there.what.ending(machine)?, there.ways, &there.picks);
    }
    Ok(())
}

/// Counts the runs that stop in the states of a level.
pub fn tell_all<M: Machine>(
    rows: &mut Vec<Found<M::Ending>>,
    reached: &[Found<M>],
    last: bool,
    machine: &mut M::Running,
) -> Result<(), NoMemory>
    ensures { OnOk result ((xs : _) → Tells M.Ending.is_same u64.MAX rows.old.items xs
        → Tells M.Ending.is_same u64.MAX rows.new.items (xs ++ ends M.enabled M.ending_of last reached.now)) }
{
    for there in reached {
        tell_one(rows, there, last, machine)?;
    }
    Ok(())
}
