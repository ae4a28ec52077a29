//! Prints the lines of a trailer.
//!
//! Each function appends its text. If memory runs out, it may have appended the start of it.

ghost use Rattle.std.specs.Prelude.{◌≡◌, ◌++◌, ◌∷◌, [], OnOk};
ghost use Rattle.vx_journal.specs.Transcript.{standing_word, standing_line, output_line, end_word, end_line};

use vx_base::{Bytes, End, Name, NoMemory, Pid};
use vx_lines::{print_spaced, print_spaced_num};
use vx_record::Standing;
use vx_text::print_quote;

fn standing_word(standing: Standing) -> &'static [u8]
    ensures { result.now ≡ standing_word standing }
{
    match standing {
        Standing::Gone => b"GONE",
        Standing::Susp => b"SUSP",
        Standing::Rundown => b"RUNDOWN",
        Standing::Hiber => b"HIBER",
        Standing::Flag => b"FLAG",
        Standing::Active => b"ACTIVE",
    }
}

/// Appends the line `PROCESS` of a process that stands so.
pub fn print_standing(
    p: Pid,
    name: Name,
    standing: Standing,
    code: u32,
    out: &mut Bytes,
) -> Result<(), NoMemory>
    ensures { OnOk result (out.new ≡ out.old ++ (standing_line p.0 name standing code ++ 10 ∷ [])) }
{
    out.push_all(b"PROCESS")?;
    print_spaced_num(p.0, out)?;
    print_spaced(name.text(), out)?;
    print_spaced(standing_word(standing), out)?;
    print_spaced_num(code, out)?;
    out.push_all(b"\n")
}

/// The word of an end, in capitals.
pub fn end_word(end: End) -> &'static [u8]
    ensures { result.now ≡ end_word end }
{
    match end {
        End::Done => b"DONE",
        End::Hung => b"HUNG",
        End::Limit => b"LIMIT",
    }
}

/// Appends a line that a unit has put out.
pub fn print_output(name: &[u8], bytes: &[u8], out: &mut Bytes) -> Result<(), NoMemory>
    ensures { OnOk result (out.new ≡ out.old ++ (output_line name.now bytes.now ++ 10 ∷ [])) }
{
    out.push_all(b"OUT")?;
    print_spaced(name, out)?;
    out.push_all(b" ")?;
    print_quote(out, bytes)?;
    out.push_all(b"\n")
}

/// Appends the line `$END`.
pub fn print_end(end: End, taken: u32, out: &mut Bytes) -> Result<(), NoMemory>
    ensures { OnOk result (out.new ≡ out.old ++ (end_line end taken ++ 10 ∷ [])) }
{
    out.push_all(b"$END")?;
    print_spaced(end_word(end), out)?;
    print_spaced_num(taken, out)?;
    out.push_all(b"\n")
}
