//! How deep processes are: what the deletion of any of them tells at most.

ghost use Rattle.std.specs.Prelude.{◌≡◌};
ghost use Rattle.vx_procs.specs.View.{process};
ghost use Rattle.vx_procs.specs.Words.{deeper, deepest, depth};

use crate::process::Proc;
use crate::procs::Core;
use vx_base::Routine;

/// The greater of two numbers.
pub(crate) fn deeper(a: u128, b: u128) -> u128
    ensures { result ≡ deeper a b }
{
    if a <= b { b } else { a }
}

impl<R: Routine> Proc<R> {
    /// How many frames and exit handlers it has.
    pub(crate) fn depth(&self) -> u128
        ensures { result ≡ depth (process self.now) }
    {
        self.frames.len() as u128 + self.exits.len() as u128
    }
}

impl<R: Routine> Core<R> {
    /// The most frames and exit handlers that one process has. Goes over the blocks of 32, and over the processes of those of which
    /// nothing is remembered. Takes no memory.
    pub fn depth(&self) -> u128
        ensures { result ≡ deepest self.now.state.procs }
    {
        self.procs.deepest()
    }
}
