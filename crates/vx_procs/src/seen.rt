//! What is remembered of a process, so that it is not looked at again while it stays as it is.

ghost use Rattle.std.specs.Prelude.{◌≡◌, None, IfSome, map, slice_index_or};
ghost use Rattle.vx_procs.specs.Own.{own_event};
ghost use Rattle.vx_procs.specs.Processes.{process};
ghost use Rattle.vx_procs.specs.Summaries.{AreSeen, IsSeen};
ghost use Rattle.vx_procs.specs.Words.{depth};

use crate::block::BLOCK;
use crate::places::remembered;
use crate::process::Proc;
use vx_base::Routine;

/// What is remembered of a process: whether it has an event, if it alone tells that; and how many frames and exit handlers it
/// has.
#[derive(Clone, Copy)]
pub(crate) struct Seen {
    event: Option<bool>,
    depth: u32,
}

impl Seen {
    /// Whether the process has an event, if it alone tells that.
    pub(crate) fn event(self) -> Option<bool>
        ensures { result ≡ self.event }
    {
        self.event
    }
}

// What there is to remember of a process. A depth that takes more than 32 bits is not remembered.
fn see<R: Routine>(proc: &Proc<R>) -> Option<Seen>
    ensures { IfSome result (λ seen. IsSeen seen (process proc.now)) }
{
    let Ok(depth) = u32::try_from(proc.depth()) else {
        return None;
    };
    Some(Seen {
        event: proc.own_event(),
        depth,
    })
}

/// Looks at those processes of a block of which nothing is remembered, and remembers them if they have a place.
pub(crate) fn look<R: Routine>(seen: &mut Vec<Option<Seen>>, procs: &[Proc<R>], b: usize)
    requires { AreSeen seen.old.items (map process procs.now) }
    ensures { AreSeen seen.new.items (map process procs.now) }
{
    let from = b.saturating_mul(BLOCK);
    for place in from..from.saturating_add(BLOCK).min(seen.len()).min(procs.len()) {
        if seen[place].is_none() {
            seen[place] = see(&procs[place]);
        }
    }
}

/// Whether the process at a place has an event, if it alone tells that. It is looked at only if nothing is remembered of it.
pub(crate) fn event_at<R: Routine>(
    seen: &[Option<Seen>],
    place: usize,
    proc: &Proc<R>,
) -> Option<bool>
    requires { IfSome (slice_index_or seen.now place None) (λ one. IsSeen one (process proc.now)) }
    ensures { result ≡ own_event (process proc.now) }
{
    match remembered(seen, place) {
        Some(one) => one.event,
        None => proc.own_event(),
    }
}

/// How many frames and exit handlers the process at a place has. It is looked at only if nothing is remembered of it.
pub(crate) fn depth_at<R: Routine>(seen: &[Option<Seen>], place: usize, proc: &Proc<R>) -> u128
    requires { IfSome (slice_index_or seen.now place None) (λ one. IsSeen one (process proc.now)) }
    ensures { result ≡ depth (process proc.now) }
{
    match remembered(seen, place) {
        Some(one) => one.depth as u128,
        None => proc.depth(),
    }
}
