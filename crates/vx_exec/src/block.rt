//! Events of processes, by blocks of 32. Of a block whose number of events is known no process is asked but the one whose event is
//! sought, and those before it of which nothing is known.

ghost use Rattle.std.specs.Prelude.{◌≡◌, ◌+◌, ◌*◌, ◌<◌, ◌≤◌, IfErr, IfOk, Some, length, slice_get};
ghost use Rattle.vx_procs.specs.Own.{block_of};
ghost use Rattle.vx_exec.specs.Blocks.{events_in};
ghost use Rattle.vx_exec.specs.Sound.{IsWhole};

use crate::events::{event_of, events_of};
use vx_base::{Event, Pid, Routine};
use vx_procs::Core;

/// How many processes make a block, but for the last.
const BLOCK: u32 = 32;

/// How many blocks the processes make.
#[tactic(auto, using(crate::proofs::Blocks::blocks_cover, crate::proofs::Blocks::few_blocks))]
pub(crate) fn block_count<R: Routine>(core: &Core<R>) -> u32
    requires { IsWhole core.now.state }
    ensures covers { length core.now.state.procs ≤ 32 * result }
    ensures few { result ≤ 32 }
{
    (core.process_count() as u32).div_ceil(BLOCK)
}

// How many processes a block has.
#[tactic(auto, using(crate::proofs::Blocks::block_length))]
fn block_size<R: Routine>(core: &Core<R>, b: u32) -> u32
    requires whole { IsWhole core.now.state }
    requires within { b < 32 }
    ensures size { result ≡ length (block_of b core.now.state.procs) }
    ensures few { result ≤ 32 }
{
    BLOCK.min((core.process_count() as u32).saturating_sub(BLOCK * b))
}

// How many events the processes of a block have. Asks each of which that is not known.
#[tactic(auto, using(crate::proofs::Enabled::waits_at))]
fn counted_in<R: Routine>(core: &Core<R>, b: u32) -> u32
    requires whole { IsWhole core.now.state }
    requires within { b < 32 }
    ensures { result ≡ length (events_in core.now.state b) }
{
    let first = BLOCK * b + 1;
    let mut count = 0;
    for place in 0..block_size(core, b) {
        count += events_of(core, Pid(first + place));
    }
    count
}

/// How many events the processes of a block have.
#[tactic(auto, using(crate::proofs::Blocks::few_in))]
pub(crate) fn count_in<R: Routine>(core: &Core<R>, b: u32) -> u32
    requires whole { IsWhole core.now.state }
    requires within { b < 32 }
    ensures count { result ≡ length (events_in core.now.state b) }
    ensures few { result ≤ 32 }
{
    match core.block_events(b) {
        Some(known) => known,
        None => counted_in(core, b),
    }
}

// The event at a place from 0 among those of a block's processes, or that place counted from behind them. Asks
// the process of that event, and those before it of which nothing is known.
#[tactic(auto, using(crate::proofs::Enabled::waits_at))]
fn event_among<R: Routine>(core: &Core<R>, b: u32, i: u32) -> Result<Event, u32>
    requires whole { IsWhole core.now.state }
    requires within { b < 32 }
    ensures event { IfOk result (λ e. slice_get (events_in core.now.state b) i ≡ Some e) }
    ensures behind { IfErr result (λ left. i ≡ length (events_in core.now.state b) + left) }
{
    let first = BLOCK * b + 1;
    let mut left = i;
    for place in 0..block_size(core, b) {
        let p = Pid(first + place);
        if left > 0 {
            left -= events_of(core, p);
        } else if let Some(event) = event_of(core, p) {
            return Ok(event);
        }
    }
    Err(left)
}

/// The event at a place from 0 among those of a block's processes, or that place counted from behind them.
pub(crate) fn event_in<R: Routine>(core: &Core<R>, b: u32, i: u32) -> Result<Event, u32>
    requires whole { IsWhole core.now.state }
    requires within { b < 32 }
    ensures event { IfOk result (λ e. slice_get (events_in core.now.state b) i ≡ Some e) }
    ensures behind { IfErr result (λ left. i ≡ length (events_in core.now.state b) + left) }
{
    match core.block_events(b) {
        Some(known) if known <= i => Err(i - known),
        _ => event_among(core, b, i),
    }
}
