//! A transcript as columns of text.
//!
//! Each function appends its text. If memory runs out, it may have appended the start of it.

ghost use Rattle.std.specs.Prelude.{decimal, ◌≡◌, ◌++◌, ◌∷◌, ◌+◌, ◌-◌, ◌*◌, flat_map, OnOk, IfOk, option_map};
ghost use Rattle.vx_draw.specs.Columns as spec;

use crate::deed::print_deed;
use crate::ending::Ending;
use crate::front::{behind, front, sound_part, wrong_record};
use crate::heading::{process_heading, process_names};
use std::alloc::Global;
use vx_base::{Bytes, Event, Name, NoMemory, Rec};
use vx_image::{System, UnitDecl};
use vx_text::print_num;

const STEM: &[u8] = b"|                       ";

const BLANKS: &[u8] = b"                        ";

/// The text of the columns behind a line, and how many of them are processes'.
#[derive(Drop)]
struct Rule<'a> {
    text: &'a [u8],
    processes: usize,
}

// Appends a heading in 24 places.
#[tactic(auto, unfolding(crate::specs::Columns::heading_cell))]
fn print_heading(alloc: Global, text: &[u8], out: &mut Bytes) -> Result<(), NoMemory>
    ensures { OnOk result (out.new ≡ out.old ++ spec.heading_cell text.now) }
{
    let mut cell = Bytes::new(alloc);
    cell.push_all(front(text, 23))?;
    cell.push_all(BLANKS)?;
    out.push_all(front(cell.as_slice(), 24))
}

// Appends the heading of process n.
fn print_process_heading(
    alloc: Global,
    n: u64,
    name: &Name,
    out: &mut Bytes,
) -> Result<(), NoMemory>
    ensures { OnOk result (out.new ≡ out.old ++ spec.heading_cell (decimal n ++ 32 ∷ name.now)) }
{
    let text = process_heading(alloc, n, name)?;
    print_heading(alloc, text.as_slice(), out)
}

// Appends the headings of the processes.
fn print_process_headings(alloc: Global, names: &[Name], out: &mut Bytes) -> Result<(), NoMemory>
    ensures { OnOk result (out.new ≡ out.old ++ spec.process_cells 1 names.now) }
{
    for (i, name) in names.iter().enumerate() {
        print_process_heading(alloc, i as u64 + 1, name, out)?;
    }
    Ok(())
}

// Appends the headings of the units.
fn print_unit_headings(alloc: Global, units: &[UnitDecl], out: &mut Bytes) -> Result<(), NoMemory>
    ensures { OnOk result (out.new ≡ out.old ++ spec.unit_cells units.now) }
{
    for unit in units {
        print_heading(alloc, unit.name.text(), out)?;
    }
    Ok(())
}

// The heading of the time's column.
#[tactic(auto, unfolding(crate::specs::Columns::time_heading))]
fn time_heading() -> &'static [u8]
    ensures { result.now ≡ spec.time_heading }
{
    b"        TIME        "
}

// Appends the line of headings.
#[tactic(auto, unfolding(crate::specs::Columns::heading_line))]
fn print_heading_line(
    alloc: Global,
    names: &[Name],
    units: &[UnitDecl],
    out: &mut Bytes,
) -> Result<(), NoMemory>
    ensures { OnOk result (out.new ≡ out.old ++ spec.heading_line names.now units.now) }
{
    out.push_all(time_heading())?;
    print_process_headings(alloc, names, out)?;
    print_unit_headings(alloc, units, out)?;
    out.push_all(b"\n")
}

// Appends a stem for each item.
fn add_stems<T>(items: &[T], out: &mut Bytes) -> Result<(), NoMemory>
    ensures { OnOk result (out.new ≡ out.old ++ flat_map (λ item. spec.stem) items.now) }
{
    for _ in items {
        out.push_all(STEM)?;
    }
    Ok(())
}

// The columns behind a line of text.
#[tactic(auto, unfolding(crate::specs::Columns::rule))]
fn rule_text(alloc: Global, names: &[Name], units: &[UnitDecl]) -> Result<Bytes, NoMemory>
    ensures { IfOk result (λ rule. rule ≡ spec.rule names.now units.now) }
{
    let mut rule = Bytes::new(alloc);
    rule.push_all(b"            ")?;
    add_stems(names, &mut rule)?;
    add_stems(units, &mut rule)?;
    Ok(rule)
}

// Where in a line who acted has its column, with so many processes.
fn indent_of(processes: usize, event: Event) -> u128
    ensures { result ≡ spec.indent_of processes event }
{
    match event {
        Event::Run(p) | Event::Ast(p) | Event::Rdn(p) => (24 * u128::from(p.0)).saturating_sub(12),
        Event::Beg(u) | Event::Don(u) => 12 + 24 * (processes as u128 + u128::from(u.0)),
        Event::Tick => 0,
    }
}

// Appends a number in 8 places at least.
fn print_number(alloc: Global, n: u64, out: &mut Bytes) -> Result<(), NoMemory>
    ensures { OnOk result (out.new ≡ out.old ++ spec.number_cell n) }
{
    let mut digits = Bytes::new(alloc);
    print_num(&mut digits, n)?;
    out.push_all(digits.as_slice())?;
    out.push_all(behind(b"        ", digits.len()))
}

// Appends what a record did, in the column of who acted.
fn print_cells(
    alloc: Global,
    rule: &Rule<'_>,
    mark: &[u8],
    rec: &Rec,
    out: &mut Bytes,
) -> Result<(), NoMemory>
    ensures { OnOk result (out.new ≡ out.old ++ spec.cells rule.now.text.now rule.now.processes mark.now rec.now) }
{
    let indent = indent_of(rule.processes, rec.event);
    let mut cells = Bytes::new(alloc);
    cells.push_all(front(rule.text, indent))?;
    cells.push_all(mark)?;
    print_deed(rec, &mut cells)?;
    out.push_all(front(cells.as_slice(), rule.text.len() as u128 + 24))
}

// Appends the line of record n.
#[tactic(auto, unfolding(crate::specs::Columns::line))]
fn print_line(
    alloc: Global,
    rule: &Rule<'_>,
    mark: &[u8],
    n: u64,
    rec: &Rec,
    out: &mut Bytes,
) -> Result<(), NoMemory>
    ensures { OnOk result (out.new ≡ out.old ++ spec.line rule.now.text.now rule.now.processes mark.now n rec.now) }
{
    print_number(alloc, n, out)?;
    print_cells(alloc, rule, mark, rec, out)?;
    out.push_all(b"\n")
}

// Appends the lines of records, numbered from 1.
fn print_lines(
    alloc: Global,
    rule: &Rule<'_>,
    recs: &[Rec],
    out: &mut Bytes,
) -> Result<(), NoMemory>
    ensures { OnOk result (out.new ≡ out.old ++ spec.lines rule.now.text.now rule.now.processes 1 recs.now) }
{
    for (i, rec) in recs.iter().enumerate() {
        print_line(alloc, rule, b"", i as u64 + 1, rec, out)?;
    }
    Ok(())
}

// Appends what follows the records.
#[tactic(auto, unfolding(crate::specs::Columns::ending))]
fn print_ending(
    alloc: Global,
    rule: &Rule<'_>,
    ending: &Ending<'_>,
    out: &mut Bytes,
) -> Result<(), NoMemory>
    ensures { OnOk result (out.new ≡ out.old
        ++ spec.ending rule.now.text.now rule.now.processes ending.now.wrong
        (option_map (λ rec. rec.now) ending.now.rec) ending.now.trailer.now) }
{
    match (ending.wrong, ending.rec) {
        (None, _) => out.push_all(ending.trailer),
        (Some(_), None) => {
            out.push_all(b"?? \n")?;
            out.push_all(ending.trailer)
        }
        (Some(n), Some(rec)) => print_line(alloc, rule, b"?? ", u64::from(n), rec, out),
    }
}

// Appends a transcript with these names of processes.
fn print_named(
    alloc: Global,
    names: &[Name],
    units: &[UnitDecl],
    recs: &[Rec],
    ending: &Ending<'_>,
    out: &mut Bytes,
) -> Result<(), NoMemory>
    ensures { OnOk result (out.new ≡ out.old
        ++ spec.with_names names.now units.now recs.now ending.now.wrong
        (option_map (λ rec. rec.now) ending.now.rec) ending.now.trailer.now) }
{
    print_heading_line(alloc, names, units, out)?;
    let text = rule_text(alloc, names, units)?;
    let rule = Rule {
        text: text.as_slice(),
        processes: names.len(),
    };
    print_lines(alloc, &rule, recs, out)?;
    print_ending(alloc, &rule, ending, out)
}

/// Appends a transcript as columns of text: a line of headings, a line a record, and the trailer as it is. `wrong` is the
/// number of the first record that is not the machine's, if one is not: that record is the last that is told, and has `??` in
/// front; if there is no record of the number, the trailer has.
pub fn print_columns(
    alloc: Global,
    system: &System,
    recs: &[Rec],
    trailer: &[u8],
    wrong: Option<u32>,
    out: &mut Bytes,
) -> Result<(), NoMemory>
    ensures { OnOk result (out.new ≡ out.old ++ spec.columns system.now recs.now trailer.now wrong) }
{
    let sound = sound_part(wrong, recs);
    let names = process_names(alloc, system, sound)?;
    let units = system.units.as_slice();
    let ending = Ending {
        wrong,
        rec: wrong_record(wrong, recs),
        trailer,
    };
    print_named(alloc, names.as_slice(), units, sound, &ending, out)
}
