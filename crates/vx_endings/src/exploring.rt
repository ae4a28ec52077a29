//! How all runs of a system end.

ghost use Rattle.std.specs.Prelude.{◌≡◌, ◌≤◌, IfOk};
ghost use Rattle.vx_image.specs.WellFormed.{IsWellFormed};
ghost use Rattle.vx_explore.specs.Runs.{IfCut, IfTold};
ghost use Rattle.vx_endings.specs.Endings.{endings};
ghost use Rattle.vx_endings.specs.Interleavings.{IsTooWide};

use crate::ending::RunEnding;
use crate::machine::Explored;
use std::alloc::Global;
use vx_base::NoMemory;
use vx_exec::Exec;
use vx_explore::{Answer, explore};
use vx_image::System;

/// How all runs of a system end that have at most `limit` records, 1 to 100,000. It is cut if some number of records, at most `limit`,
/// leads to more than `states` different states.
pub fn endings(
    alloc: Global,
    system: System,
    limit: u32,
    states: u32,
) -> Result<Answer<RunEnding>, NoMemory>
    requires formed { IsWellFormed system }
    requires above { 1 ≤ limit }
    requires within { limit ≤ 100000 }
    ensures told { IfOk result (IfTold (λ rows. rows ≡ endings system limit)) }
    ensures whole { IfOk result (IfTold (λ _. ¬ IsTooWide system limit states)) }
    ensures cut { IfOk result (IfCut (IsTooWide system limit states)) }
{
    let mut exec = Exec::new(alloc, system, limit)?;
    let first = Explored::new(alloc, &exec)?;
    let found = explore(alloc, first, limit, states as usize, &mut exec);
    drop(exec);
    found
}
