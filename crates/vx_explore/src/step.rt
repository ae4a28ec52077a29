//! One step: from a level to the next.

ghost use Rattle.std.specs.Prelude.{◌≢◌, ◌<◌, ◌≤◌, suc, ◌++◌, All, AllPairs, map, IfNone, IfOk, IfSome, IsTrue, length, MatchBool};
ghost use Rattle.vx_explore.specs.Alike.{Like, all_after, one_after, open_to};
ghost use Rattle.vx_explore.specs.Index.{AreNext, Spreads, StartAs, whats};
ghost use Rattle.vx_explore.specs.Runs.{AreTooMany, Leads};

use crate::found::Found;
use crate::level::Level;
use crate::machine::Machine;
use std::alloc::Global;
use vx_base::NoMemory;

/// Adds the successors of one state. Stops and answers false as soon as the level has more than `most` states.
fn add_next<M: Machine>(
    next: &mut Level<M>,
    there: &Found<M>,
    most: usize,
    machine: &mut M::Running,
) -> Result<bool, NoMemory>
    requires { StartAs M.origin there.now.what (whats next.old) }
    ensures like { IfOk result (λ all. IsTrue all → Like u64.MAX next.new
        (next.old ++ map (one_after M.enabled M.after there.now) (open_to M.enabled M.after there.now.what))) }
    ensures most { IfOk result (λ all. MatchBool all (length next.old ≤ most → length next.new ≤ most)
        ((most < length next.new) × AllPairs (λ a b. a ≢ b) (whats next.new))) }
    ensures spreads { IfOk result (λ all. Spreads M.enabled M.after M.origin there.now.what all (whats next.old) (whats next.new)) }
{
    for pick in 0..there.what.count() {
        there.what.take(pick, machine)?;
        next.add(machine, there.ways, &there.picks, pick)?;
        if next.len() > most {
            return Ok(false);
        }
    }
    Ok(true)
}

/// The level after this one, or None if it has more than `most` states. Each state is let go as soon as its successors were added, so
/// that its memory is used again while it is in the cache.
pub fn next_level<M: Machine>(
    alloc: Global,
    reached: Vec<Found<M>>,
    most: usize,
    machine: &mut M::Running,
) -> Result<Option<Vec<Found<M>>>, NoMemory>
    requires { (o : _) × StartAs M.origin o (whats reached.items) }
    ensures like { IfOk result (λ found. IfSome found (λ next. Like u64.MAX next.items (all_after M.enabled M.after reached.items))) }
    ensures few { IfOk result (λ found. IfSome found (λ next. length next.items ≤ most)) }
    ensures states { IfOk result (λ found. IfSome found (λ next.
        AreNext M.enabled M.after M.origin (whats reached.items) (whats next.items))) }
    ensures many { IfOk result (λ found. IfNone found ((k : _) (s : _) → All (Leads M.enabled M.after k s) (whats reached.items)
        → (ss : _) × AreTooMany M.enabled M.after most (suc k) s ss)) }
{
    let mut next = Level::new(alloc);
    for there in reached {
        if !add_next(&mut next, &there, most, machine)? {
            return Ok(None);
        }
    }
    Ok(Some(next.into_states()))
}
