//! What is remembered of a block of processes. It is made of what is remembered of each.

ghost use Rattle.std.specs.Prelude.{◌≡◌, ◌≤◌, IfSome, length, map};
ghost use Rattle.vx_procs.specs.Own.{AreOwn};
ghost use Rattle.vx_procs.specs.Processes.{process};
ghost use Rattle.vx_procs.specs.Summaries.{AreSeen, IsSummary};
ghost use Rattle.vx_procs.specs.Words.{deepest};

use crate::depth::deeper;
use crate::process::Proc;
use crate::seen::{Seen, depth_at, event_at};
use vx_base::Routine;

/// What is remembered of a block of processes: how many of them have an event, if each alone tells whether it has one; and
/// the most frames and exit handlers that one has.
#[derive(Clone, Copy)]
pub(crate) struct Summary {
    events: Option<u32>,
    depth: u128,
}

impl Summary {
    /// How many of the block's processes have an event, if each alone tells whether it has one.
    pub(crate) fn events(self) -> Option<u32>
        ensures { result ≡ self.events }
    {
        self.events
    }

    /// The most frames and exit handlers that one of the block's processes has.
    pub(crate) fn depth(self) -> u128
        ensures { result ≡ self.depth }
    {
        self.depth
    }
}

// How many of a block's processes have an event, if each alone tells it.
#[tactic(auto, using(crate::proofs::Remembered::seen_at))]
fn count_events<R: Routine>(seen: &[Option<Seen>], procs: &[Proc<R>]) -> Option<u32>
    requires few { length procs.now ≤ 32 }
    requires seen { AreSeen seen.now (map process procs.now) }
    ensures { IfSome result (λ n. AreOwn n (map process procs.now)) }
{
    let mut count: u32 = 0;
    for (place, proc) in procs.iter().enumerate() {
        if event_at(seen, place, proc)? {
            count += 1;
        }
    }
    Some(count)
}

/// The most frames and exit handlers that one of a block's processes has.
#[tactic(auto, using(crate::proofs::Remembered::seen_at))]
pub(crate) fn deepest_in<R: Routine>(seen: &[Option<Seen>], procs: &[Proc<R>]) -> u128
    requires { AreSeen seen.now (map process procs.now) }
    ensures { result ≡ deepest (map process procs.now) }
{
    let mut most = 0;
    for (place, proc) in procs.iter().enumerate() {
        most = deeper(most, depth_at(seen, place, proc));
    }
    most
}

/// What there is to remember of a block's processes.
pub(crate) fn summarize<R: Routine>(seen: &[Option<Seen>], procs: &[Proc<R>]) -> Summary
    requires few { length procs.now ≤ 32 }
    requires seen { AreSeen seen.now (map process procs.now) }
    ensures { IsSummary result (map process procs.now) }
{
    Summary {
        events: count_events(seen, procs),
        depth: deepest_in(seen, procs),
    }
}
