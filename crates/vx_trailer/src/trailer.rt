//! Prints a whole trailer.

ghost use Rattle.std.specs.Prelude.{◌≡◌, ◌++◌, OnOk};
ghost use Rattle.vx_journal.specs.Transcript.{trailer_lines};
ghost use Rattle.vx_lines.specs.Records.{ended_lines};

use crate::outcome::print_outcome;
use vx_base::{Bytes, End, NoMemory, Scripted};
use vx_exec::Exec;
use vx_journal::print_end;

/// Appends the trailer. If memory runs out, it may have appended the start of it.
pub fn print_trailer(exec: &Exec<Scripted>, end: End, out: &mut Bytes) -> Result<(), NoMemory>
    ensures { OnOk result (out.new ≡ out.old
        ++ ended_lines (trailer_lines exec.now.state end exec.now.taken)) }
{
    print_outcome(exec, b"", out)?;
    print_end(end, exec.taken(), out)
}
