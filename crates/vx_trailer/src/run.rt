//! Prints the part of a transcript that stands behind the script, when the run is over.

ghost use Rattle.std.specs.Prelude.{◌≡◌, ◌++◌, codes, OnOk};
ghost use Rattle.vx_journal.specs.Transcript.{trailer_lines};
ghost use Rattle.vx_lines.specs.Records.{ended_lines, records_lines};

use crate::trailer::print_trailer;
use vx_base::{Bytes, End, NoMemory, Rec, Scripted};
use vx_exec::Exec;
use vx_lines::print_records;

/// Appends what stands behind the script in the transcript of a run that has ended so.
pub fn print_run(
    exec: &Exec<Scripted>,
    recs: &[Rec],
    end: End,
    text: &mut Bytes,
) -> Result<(), NoMemory>
    ensures { OnOk result (text.new ≡ ((text.old ++ codes "$JOURNAL 1\n")
        ++ ended_lines (records_lines exec.now.state.system.units 1 recs.now))
        ++ ended_lines (trailer_lines exec.now.state end exec.now.taken)) }
{
    text.push_all(b"$JOURNAL 1\n")?;
    let units = exec.system().units.as_slice();
    print_records(units, recs, text)?;
    print_trailer(exec, end, text)
}
