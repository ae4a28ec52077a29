//! Prints records.
//!
//! Each function appends its text. If memory runs out, it may have appended the start of it.

ghost use Rattle.std.specs.Prelude.{◌≡◌, ◌++◌, ◌∷◌, [], OnOk};
ghost use Rattle.vx_table.specs.Spelling.{call_text};
ghost use Rattle.vx_lines.specs.Records.{ended_lines, spaced, unit_name, event_text, answer_text, head_line, record_lines, records_lines};

use crate::effect::print_effects;
use crate::effect_parts::{print_id, print_of_pid, print_spaced};
use vx_base::{Answer, Bytes, Call, Event, NoMemory, Rec, UnitNo};
use vx_image::UnitDecl;
use vx_table::append_call;
use vx_text::print_num;

/// The name of a unit; empty if there is no such unit.
pub fn unit_name(units: &[UnitDecl], u: UnitNo) -> &[u8]
    ensures { result.now ≡ unit_name units.now u }
{
    match units.get(u.0 as usize) {
        Some(unit) => unit.name.text(),
        None => &[],
    }
}

// Appends what begins with a unit: a word and the unit's name.
fn print_of_unit(
    word: &[u8],
    units: &[UnitDecl],
    u: UnitNo,
    out: &mut Bytes,
) -> Result<(), NoMemory>
    ensures { OnOk result (out.new ≡ out.old ++ spaced (word.now ∷ unit_name units.now u ∷ [])) }
{
    print_spaced(word, out)?;
    print_spaced(unit_name(units, u), out)
}

// Appends a space and an event; a unit's by its name.
fn print_event(units: &[UnitDecl], event: Event, out: &mut Bytes) -> Result<(), NoMemory>
    ensures { OnOk result (out.new ≡ out.old ++ 32 ∷ event_text units.now event) }
{
    match event {
        Event::Run(p) => print_of_pid(b"RUN", p, out),
        Event::Ast(p) => print_of_pid(b"AST", p, out),
        Event::Rdn(p) => print_of_pid(b"RDN", p, out),
        Event::Beg(u) => print_of_unit(b"BEG", units, u, out),
        Event::Don(u) => print_of_unit(b"DON", units, u, out),
        Event::Tick => out.push_all(b" TICK"),
    }
}

// Appends a call, a space and a word.
fn print_called(call: &Call, word: &[u8], out: &mut Bytes) -> Result<(), NoMemory>
    ensures { OnOk result (out.new ≡ out.old ++ call_text call.now ++ 32 ∷ word.now) }
{
    append_call(call, out)?;
    print_spaced(word, out)
}

/// Appends an answer.
pub fn print_answer(answer: &Answer, out: &mut Bytes) -> Result<(), NoMemory>
    ensures { OnOk result (out.new ≡ out.old ++ answer_text answer.now) }
{
    match answer {
        Answer::Service(call, cond) => print_called(call, cond.name().as_bytes(), out),
        Answer::Wait(call) => print_called(call, b"WAIT", out),
        Answer::Resume(cond) => {
            out.push_all(b"RESUME")?;
            print_spaced(cond.name().as_bytes(), out)
        }
        Answer::Return => out.push_all(b"RETURN"),
        Answer::End => out.push_all(b"END"),
        Answer::Local => out.push_all(b"LOCAL"),
        Answer::Handler => out.push_all(b"HANDLER"),
        Answer::Busy => out.push_all(b"BUSY"),
        Answer::Gone => out.push_all(b"GONE"),
        Answer::Ast(id) | Answer::Unit(id) => print_id(*id, out),
        Answer::Time(ticks) => print_num(out, *ticks),
    }
}

/// Appends the head of record n, on its line.
pub fn print_head(units: &[UnitDecl], n: u64, rec: &Rec, out: &mut Bytes) -> Result<(), NoMemory>
    ensures { OnOk result (out.new ≡ out.old ++ (head_line units.now n rec.now ++ 10 ∷ [])) }
{
    print_num(out, n)?;
    print_event(units, rec.event, out)?;
    out.push_all(b" ")?;
    print_answer(&rec.answer, out)?;
    out.push_all(b"\n")
}

/// Appends record n: its head, and its effects, each on its line.
pub fn print_record(units: &[UnitDecl], n: u64, rec: &Rec, out: &mut Bytes) -> Result<(), NoMemory>
    ensures { OnOk result (out.new ≡ out.old ++ ended_lines (record_lines units.now n rec.now)) }
{
    print_head(units, n, rec, out)?;
    print_effects(rec.effects.as_slice(), out)
}

/// Appends records, numbered from 1, with the names of these units.
pub fn print_records(units: &[UnitDecl], recs: &[Rec], out: &mut Bytes) -> Result<(), NoMemory>
    ensures { OnOk result (out.new ≡ out.old ++ ended_lines (records_lines units.now 1 recs.now)) }
{
    for (i, rec) in recs.iter().enumerate() {
        print_record(units, i as u64 + 1, rec, out)?;
    }
    Ok(())
}
