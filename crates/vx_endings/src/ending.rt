//! How a run ends, as far as runs are told apart.

use vx_base::{Bytes, End};
use vx_explore::Ending;

/// How a run ended, and what its trailer says of the processes and of what the units have put out.
#[derive(Drop)]
pub struct RunEnding {
    pub end: End,
    /// The lines PROCESS and OUT, each behind a space and with its line feed.
    pub trailer: Bytes,
}

impl Ending for RunEnding {
    ghost use Rattle.vx_endings.specs.Endings.{is_same};
    ghost use Rattle.vx_endings.specs.Same.{same_as_itself, same_is_equal};

    ghost is_same = { is_same };

    fn same(&self, other: &RunEnding) -> bool {
        self.end == other.end && self.trailer == other.trailer
    }

    ghost same_as_itself = { same_as_itself };

    ghost same_is_equal = { same_is_equal };
}
