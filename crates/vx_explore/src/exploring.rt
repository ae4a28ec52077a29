//! The summary of all runs of a machine.

ghost use Rattle.std.specs.Prelude.{◌≡◌, IfOk};
ghost use Rattle.vx_explore.specs.Runs.{IfCut, IfTold, IsCrowded, runs, shortest_first, summary};

use crate::answer::Answer;
use crate::ending::Ending;
use crate::found::{Found, Picks};
use crate::machine::Machine;
use crate::step::next_level;
use crate::told::tell_all;
use std::alloc::Global;
use vx_base::NoMemory;

/// The summary of all runs of at most `limit` steps, the shortest first. It is cut if some number of steps, at most `limit`, leads to
/// more than `most` different states.
pub fn explore<M: Machine>(
    alloc: Global,
    first: M,
    limit: u32,
    most: usize,
    machine: &mut M::Running,
) -> Result<Answer<M::Ending>, NoMemory>
    ensures told { IfOk result (IfTold (λ rows.
        rows ≡ summary M.ending_of M.Ending.is_same (shortest_first limit (runs M.enabled M.after limit first)))) }
    ensures whole { IfOk result (IfTold (λ _. ¬ IsCrowded M.enabled M.after limit most first)) }
    ensures cut { IfOk result (IfCut (IsCrowded M.enabled M.after limit most first)) }
{
    if most == 0 {
        return Ok(Answer::Cut);
    }
    let mut rows = Vec::new(alloc);
    let mut level = Vec::new(alloc);
    level.push(Found {
        what: first,
        ways: 1,
        picks: Picks::new(alloc),
    })?;
    for _step in 0..limit {
        if level.is_empty() {
            return Ok(Answer::Told(rows));
        }
        tell_all(&mut rows, level.as_slice(), false, machine)?;
        let Some(next) = next_level(alloc, level, most, machine)? else {
            return Ok(Answer::Cut);
        };
        level = next;
    }
    tell_all(&mut rows, level.as_slice(), true, machine)?;
    Ok(Answer::Told(rows))
}
