//! Places for entries, in the order of opening, beside the times when they are due.

ghost use Rattle.std.specs.Prelude.{◌≡◌, ◌<◌, ◌≤◌, IfSome, length, map, None, Some, position, slice_index_or, slice_set, vec_capacity};
ghost use Rattle.vx_base.specs.Lists.{is_some_and};
ghost use Rattle.vx_timers.specs.Places.{entries, IsFree, time_of};
ghost use Rattle.vx_timers.specs.Seen.{passes};

use crate::due::{Due, Which};
use crate::round::Round;
use vx_base::Routine;

/// A place for an entry.
pub(crate) type Place<R> = Option<Due<R>>;

// Whether a place has one of the entries that are looked for.
fn has<R: Routine>(place: &Place<R>, which: Which) -> bool
    ensures { result ≡ is_some_and (passes which) place.now }
{
    match place {
        None => false,
        Some(due) => due.passes(which),
    }
}

// When the entry of a place is due, if it has one.
fn time_of<R: Routine>(place: &Place<R>) -> Option<u64>
    ensures { result ≡ time_of place.now }
{
    match place {
        None => None,
        Some(due) => Some(due.due()),
    }
}

/// The first place with one of the entries that are looked for. One that is due is found by the times, and any other place after
/// place.
pub(crate) fn first_place<R: Routine>(
    places: &[Place<R>],
    times: &Round,
    which: Which,
) -> Option<usize>
    requires { times.now ≡ map time_of places.now }
    ensures place { result ≡ position (is_some_and (passes which)) places.now }
    ensures within { IfSome result (λ i. i < length places.now) }
{
    match which {
        Which::Due(now) => times.first_by(now),
        _ => places.iter().position(|place| has(place, which)),
    }
}

/// Takes out what stands in a place.
pub(crate) fn take_out<R: Routine>(
    places: &mut Vec<Place<R>>,
    times: &mut Round,
    at: usize,
) -> Place<R>
    requires times { times.old ≡ map time_of places.old.items }
    requires within { at < length places.old.items }
    ensures before { result ≡ slice_index_or places.old.items at None }
    ensures places { places.new.items ≡ slice_set places.old.items at None }
    ensures times { times.new ≡ map time_of places.new.items }
{
    times.set(at, None);
    places[at].take()
}

/// Puts an entry into a place.
pub(crate) fn put_in<R: Routine>(
    places: &mut Vec<Place<R>>,
    times: &mut Round,
    at: usize,
    due: Due<R>,
)
    requires times { times.old ≡ map time_of places.old.items }
    requires within { at < length places.old.items }
    ensures places { places.new.items ≡ slice_set places.old.items at (Some due) }
    ensures times { times.new ≡ map time_of places.new.items }
{
    times.set(at, Some(due.due()));
    places[at] = Some(due);
}

// Leaves the places that have an entry.
fn keep_entries<R: Routine>(places: &mut Vec<Place<R>>)
    ensures same { entries places.new.items ≡ entries places.old.items }
    ensures full { length places.new.items ≡ length (entries places.old.items) }
    ensures capacity { vec_capacity places.new ≡ vec_capacity places.old }
{
    places.retain(|place| place.is_some());
}

// Puts empty places behind, up to so many. Takes no memory.
fn fill_up<R: Routine>(places: &mut Vec<Place<R>>, len: usize)
    requires there { length places.old.items ≤ len }
    requires room { len ≤ vec_capacity places.old }
    ensures same { entries places.new.items ≡ entries places.old.items }
    ensures len { length places.new.items ≡ len }
    ensures free { IsFree (length places.old.items) places.new.items }
{
    while places.len() < len {
        places.push_reserved(None);
    }
}

/// Puts the entries in front of the empty places, makes so many places of them all, and says how many have an entry. Takes no
/// memory.
pub(crate) fn gather<R: Routine>(places: &mut Vec<Place<R>>, len: usize) -> usize
    requires there { length (entries places.old.items) ≤ len }
    requires room { len ≤ vec_capacity places.old }
    ensures count { result ≡ length (entries places.old.items) }
    ensures same { entries places.new.items ≡ entries places.old.items }
    ensures len { length places.new.items ≡ len }
    ensures free { IsFree result places.new.items }
{
    keep_entries(places);
    let count = places.len();
    fill_up(places, len);
    count
}

/// Sets all times anew.
pub(crate) fn time_all<R: Routine>(times: &mut Round, places: &[Place<R>])
    requires { length times.old ≡ length places.now }
    ensures { times.new ≡ map time_of places.now }
{
    for (at, place) in places.iter().enumerate() {
        times.set(at, time_of(place));
    }
}
