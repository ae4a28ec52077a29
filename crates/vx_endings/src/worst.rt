//! The worst end of all runs.

ghost use Rattle.std.specs.Prelude.{◌≡◌};
ghost use Rattle.vx_endings.specs.Worst.{has_end, worst_end};

use crate::ending::RunEnding;
use vx_base::End;
use vx_explore::Found;

/// Whether a run ends so.
fn has_end(rows: &[Found<RunEnding>], end: End) -> bool
    ensures { result ≡ has_end end rows.now }
{
    rows.iter().any(|row| row.what.end == end)
}

/// `Limit` if the limit stops a run, else `Hung` if a run hangs, else `Done`.
pub fn worst_end(rows: &[Found<RunEnding>]) -> End
    ensures { result ≡ worst_end rows.now }
{
    if has_end(rows, End::Limit) {
        return End::Limit;
    }
    if has_end(rows, End::Hung) {
        End::Hung
    } else {
        End::Done
    }
}
