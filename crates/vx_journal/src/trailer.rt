//! Reads the lines of a trailer.

ghost use Rattle.std.specs.Prelude.{◌≡◌, ◌+◌, ◌++◌, ◌∷◌, ◌<◌, ◌≤◌, [], IfOk, OnOk, length};
ghost use Rattle.vx_lines.specs.ReadRecords.{Reads};
ghost use Rattle.vx_journal.specs.TrailerLines as spec;

use crate::journal::Part;
use crate::print::{print_end, print_output, print_standing};
use std::alloc::Global;
use vx_base::{Bytes, End, Name, NoMemory, Pid, UnitNo};
use vx_image::UnitDecl;
use vx_lines::{
    LinesFail, behind_word, fed_len, first_word, fourth_word, from_space, name_of, number_of,
    pid_of, second_word, text_of, third_word, unfed, unit_name, unit_of,
};
use vx_record::Standing;

/// A line of a trailer.
#[derive(Drop)]
pub enum TrailerLine {
    /// `PROCESS`: how a process stands, and its exit code.
    Process(Pid, Name, Standing, u32),
    /// `OUT`: a line that a unit has put out.
    Output(UnitNo, Bytes),
    /// `$END`: how the run has ended, behind so many records.
    End(End, u32),
}

/// What was read last.
#[derive(Clone, Copy)]
pub enum Place {
    Records,
    Processes,
    Outputs,
    End,
}

fn standing_of(word: &[u8]) -> Option<Standing>
    ensures { result ≡ spec.standing_of word.now }
{
    if word == b"GONE".as_slice() {
        Some(Standing::Gone)
    } else if word == b"SUSP".as_slice() {
        Some(Standing::Susp)
    } else if word == b"RUNDOWN".as_slice() {
        Some(Standing::Rundown)
    } else if word == b"HIBER".as_slice() {
        Some(Standing::Hiber)
    } else if word == b"FLAG".as_slice() {
        Some(Standing::Flag)
    } else if word == b"ACTIVE".as_slice() {
        Some(Standing::Active)
    } else {
        None
    }
}

fn end_of(word: &[u8]) -> Option<End>
    ensures { result ≡ spec.end_of word.now }
{
    if word == b"DONE".as_slice() {
        Some(End::Done)
    } else if word == b"HUNG".as_slice() {
        Some(End::Hung)
    } else if word == b"LIMIT".as_slice() {
        Some(End::Limit)
    } else {
        None
    }
}

// The number, the name, the standing and the exit code of a process.
fn process_in(line: &[u8]) -> Option<TrailerLine>
    ensures { result ≡ spec.process_in line.now }
{
    let p = pid_of(first_word(line))?;
    let name = name_of(second_word(line))?;
    let standing = standing_of(third_word(line))?;
    let code = number_of(fourth_word(line))?;
    Some(TrailerLine::Process(p, name, standing, code))
}

// A unit's name; the text behind it was read before.
fn output_in(units: &[UnitDecl], line: &[u8], text: Option<Bytes>) -> Option<TrailerLine>
    requires { length units.now ≤ 32 }
    ensures { result ≡ spec.output_in units.now line.now text }
{
    let unit = unit_of(units, first_word(line))?;
    let bytes = text?;
    Some(TrailerLine::Output(unit, bytes))
}

// The ending, and the number of records.
fn end_in(line: &[u8]) -> Option<TrailerLine>
    ensures { result ≡ spec.end_in line.now }
{
    let end = end_of(first_word(line))?;
    let n = number_of(second_word(line))?;
    Some(TrailerLine::End(end, n))
}

fn line_of(alloc: Global, units: &[UnitDecl], line: &[u8]) -> Result<Option<TrailerLine>, NoMemory>
    requires few { length units.now ≤ 32 }
    requires short { length line.now < 4294967295 }
    ensures { IfOk result (λ read. read ≡ spec.line_of units.now line.now) }
{
    let words = from_space(line);
    if line.starts_with(b"PROCESS ") {
        return Ok(process_in(words));
    }
    if line.starts_with(b"OUT ") {
        let text = text_of(alloc, behind_word(words))?;
        return Ok(output_in(units, words, text));
    }
    Ok(end_in(words))
}

fn print_line(units: &[UnitDecl], line: &TrailerLine, out: &mut Bytes) -> Result<(), NoMemory>
    ensures { OnOk result (out.new ≡ out.old ++ (spec.trailer_line units.now line.now ++ 10 ∷ [])) }
{
    match line {
        TrailerLine::Process(p, name, standing, code) => {
            print_standing(*p, *name, *standing, *code, out)
        }
        TrailerLine::Output(unit, bytes) => {
            print_output(unit_name(units, *unit), bytes.as_slice(), out)
        }
        TrailerLine::End(end, n) => print_end(*end, *n, out),
    }
}

fn if_spelled(
    alloc: Global,
    units: &[UnitDecl],
    line: &[u8],
    read: TrailerLine,
) -> Result<Option<TrailerLine>, NoMemory>
    ensures { IfOk result (λ kept. kept ≡ spec.if_spelled units.now line.now read) }
{
    let mut text = Bytes::new(alloc);
    print_line(units, &read, &mut text)?;
    if text.as_slice() == line {
        Ok(Some(read))
    } else {
        Ok(None)
    }
}

// The line of a trailer that a line with its line feed spells, and None if it spells none.
#[tactic(auto, unfolding(crate::specs::TrailerLines::read_line))]
fn read_line(
    alloc: Global,
    units: &[UnitDecl],
    line: &[u8],
) -> Result<Option<TrailerLine>, NoMemory>
    requires few { length units.now ≤ 32 }
    requires short { length line.now < 4294967295 }
    ensures { IfOk result (λ read. read ≡ spec.read_line units.now line.now) }
{
    match line_of(alloc, units, unfed(line))? {
        Some(read) => if_spelled(alloc, units, line, read),
        None => Ok(None),
    }
}

// What was read last once a line is read, and None if the line may not stand there.
fn place_behind(place: Place, line: &TrailerLine) -> Option<Place>
    ensures { result ≡ spec.place_behind place line.now }
{
    match (place, line) {
        (Place::Records | Place::Processes, TrailerLine::Process(..)) => Some(Place::Processes),
        (Place::Records | Place::Processes | Place::Outputs, TrailerLine::Output(..)) => {
            Some(Place::Outputs)
        }
        (Place::Records | Place::Processes | Place::Outputs, TrailerLine::End(..)) => {
            Some(Place::End)
        }
        _ => None,
    }
}

// How far a transcript goes that ends where this was read last; None if it may not end there.
fn part_at(place: Place) -> Option<Part>
    ensures { result ≡ spec.part_at place }
{
    match place {
        Place::Records => Some(Part::Cut),
        Place::Processes | Place::Outputs => None,
        Place::End => Some(Part::Ended),
    }
}

// What was read last once this line is read behind that, and None if the line may not stand there.
fn place_after(
    alloc: Global,
    units: &[UnitDecl],
    place: Place,
    line: &[u8],
) -> Result<Option<Place>, NoMemory>
    requires few { length units.now ≤ 32 }
    requires short { length line.now < 4294967295 }
    ensures { IfOk result (λ next. next ≡ spec.place_after units.now place line.now) }
{
    match read_line(alloc, units, line)? {
        Some(read) => Ok(place_behind(place, &read)),
        None => Ok(None),
    }
}

/// How far a transcript goes that has this text, whose first line has this number, behind its records; or the first bad line.
pub fn read_trailer(
    alloc: Global,
    units: &[UnitDecl],
    line: u32,
    text: &[u8],
) -> Result<Part, LinesFail>
    requires few { length units.now ≤ 32 }
    requires short { line + length text.now < 4294967295 }
    ensures { Reads result (spec.read_trailer units.now line text.now) }
{
    let mut place = Place::Records;
    let mut number = line;
    let mut at = 0;
    while at < text.len() {
        let rest = &text[at..];
        let len = fed_len(rest);
        let Some(next) = place_after(alloc, units, place, &rest[..len])? else {
            return Err(LinesFail::Bad(number));
        };
        place = next;
        number += 1;
        at += len;
    }
    match part_at(place) {
        Some(part) => Ok(part),
        None => Err(LinesFail::Bad(number)),
    }
}
