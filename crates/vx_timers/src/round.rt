//! A tournament of times: the least of a list of them, and the first that has come, are found in as many steps as the list can be
//! halved.

ghost use Rattle.std.specs.Prelude.{◌≡◌, ◌+◌, ◌*◌, ◌<◌, ◌/◌, IfOk, IfSome, None, Some, [], length, position, replicate, slice_index_or, slice_set};
ghost use Rattle.vx_timers.specs.Rounds.{is_by, least_of, lesser_of, winners};

use std::alloc::{AllocError, Global};
use std::marker::Model;

/// A round of a tournament: the times of so many places, each of which may be missing. In the next round stands of each two
/// neighbours the lesser. Contracts see the times.
#[derive(Drop)]
pub(crate) struct Round {
    times: Vec<Option<u64>>,
    next: Option<Box<Round>>,
}

impl Model for Round {
    ghost use Rattle.std.specs.Prelude.{List, ℕ, Option, IfSome, length};

    ghost Value = { List (Option ℕ) };

    ghost use Rattle.vx_timers.specs.Rounds.{IsNext};

    ghost view = { λ r. r.times.items };

    ghost invariant = { λ r. IfSome r.next (λ b. IsNext r.times.items b.value) };

    ghost size = { length };

    ghost use Rattle.std.proofs.Common.{arith};

    ghost size_decreases = { λ r h. Prim.grind arith };
}

// Whether a time is there and has come.
fn is_by(time: Option<u64>, now: u64) -> bool
    ensures { result ≡ is_by now time }
{
    match time {
        None => false,
        Some(time) => time <= now,
    }
}

// The lesser of two times, of which each may be missing.
fn lesser_of(a: Option<u64>, b: Option<u64>) -> Option<u64>
    ensures { result ≡ lesser_of a b }
{
    match (a, b) {
        (None, b) => b,
        (Some(a), None) => Some(a),
        (Some(a), Some(b)) => Some(if a <= b { a } else { b }),
    }
}

// The time at a place, if there is one.
fn time_at(times: &[Option<u64>], place: usize) -> Option<u64>
    ensures { result ≡ slice_index_or times.now place None }
{
    if place < times.len() {
        times[place]
    } else {
        None
    }
}

#[tactic(auto, using(crate::proofs::Rounds::at_winners))]
// The lesser of the two neighbours that a place of the next round stands for.
fn winner_at(times: &[Option<u64>], place: usize) -> Option<u64>
    requires { 2 * place < length times.now }
    ensures { result ≡ slice_index_or (winners times.now) place None }
{
    lesser_of(time_at(times, 2 * place), time_at(times, 2 * place + 1))
}

// The least of the times.
fn least_of(times: &[Option<u64>]) -> Option<u64>
    ensures { result ≡ least_of times.now }
{
    let mut least = None;
    for time in times {
        least = lesser_of(least, *time);
    }
    least
}

// The first place whose time has come.
fn first_of(times: &[Option<u64>], now: u64) -> Option<usize>
    ensures place { result ≡ position (is_by now) times.now }
    ensures within { IfSome result (λ i. i < length times.now) }
{
    times.iter().position(|time| is_by(*time, now))
}

// The first place whose time has come, in the first pair that has one.
fn first_in(times: &[Option<u64>], pair: usize, now: u64) -> usize
    requires first { Some pair ≡ position (is_by now) (winners times.now) }
    requires there { 2 * pair < length times.now }
    ensures place { Some result ≡ position (is_by now) times.now }
    ensures within { result < length times.now }
{
    let left = 2 * pair;
    if is_by(time_at(times, left), now) {
        left
    } else {
        left + 1
    }
}

impl Round {
    /// No places. Takes no memory.
    pub(crate) fn new(alloc: Global) -> Round
        ensures { result ≡ [] }
    {
        Round {
            times: Vec::new(alloc),
            next: None,
        }
    }

    /// No time at so many places, or an error if memory runs out.
    pub(crate) fn empty(alloc: Global, places: usize) -> Result<Round, AllocError>
        ensures { IfOk result (λ round. round ≡ replicate places None) }
    {
        let times = vec![in alloc; None; places]?;
        let next = if places <= 1 {
            None
        } else {
            Some(Box::new(alloc, Round::empty(alloc, places - places / 2)?)?)
        };
        Ok(Round { times, next })
    }

    /// The least time.
    pub(crate) fn least(&self) -> Option<u64>
        ensures { result ≡ least_of self.now }
    {
        match &self.next {
            None => least_of(self.times.as_slice()),
            Some(next) => next.least(),
        }
    }

    /// The first place whose time has come.
    pub(crate) fn first_by(&self, now: u64) -> Option<usize>
        ensures place { result ≡ position (is_by now) self.now }
        ensures within { IfSome result (λ i. i < length self.now) }
    {
        match &self.next {
            None => first_of(self.times.as_slice(), now),
            Some(next) => match next.first_by(now) {
                None => None,
                Some(pair) => Some(first_in(self.times.as_slice(), pair, now)),
            },
        }
    }

    /// Gives a place another time.
    pub(crate) fn set(&mut self, place: usize, time: Option<u64>)
        requires { place < length self.old }
        ensures { self.new ≡ slice_set self.old place time }
    {
        self.times[place] = time;
        match &mut self.next {
            None => (),
            Some(next) => next.set(place / 2, winner_at(self.times.as_slice(), place / 2)),
        }
    }
}
