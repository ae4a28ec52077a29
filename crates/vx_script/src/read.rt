//! A script, line by line.

ghost use Rattle.std.specs.Prelude.{◌≡◌, ◌+◌, ◌<◌, ◌≤◌, None, length, drop};
ghost use Rattle.vx_table.specs.Reading.{toks};
ghost use Rattle.vx_script.specs.Steps.{LeavesLine, LeavesScript, fail_of, first_line, line_len, without_return};
ghost use Rattle.vx_script.specs.Lines.{lines_of};
ghost use Rattle.vx_script.specs.Reading as spec;
ghost use Rattle.vx_script.specs.Results.{ReadsScript, at_line};

use crate::declaration::{fault_line, image_line, input_line, process_line, unit_line};
use crate::fault::{FaultKind, LineFail, ScriptFail, ScriptFault};
use crate::image::{inside, keep_open};
use crate::lines::InputLines;
use crate::parts::{Parts, Reading};
use crate::resolve::resolve;
use crate::services::Services;
use crate::units::Units;
use std::alloc::Global;
use vx_base::{Name, Sequence};
use vx_image::System;
use vx_names::{NumberedRegister, Register};
use vx_text::{LexFail, Tok, Token, tokens};

fn with_unit(alloc: Global, parts: &mut Parts, tokens: &[Token]) -> Result<(), LineFail>
    ensures { LeavesLine result (spec.between_images parts.new) (spec.with_unit parts.old (toks tokens.now)) }
{
    let unit = unit_line(alloc, &parts.units, tokens)?;
    parts.units.push(unit)?;
    Ok(())
}

fn with_input(line: u32, parts: &mut Parts, tokens: &mut [Token]) -> Result<(), LineFail>
    ensures { LeavesLine result (spec.between_images parts.new) (spec.with_input line parts.old (toks tokens.old)) }
{
    let input = input_line(line, tokens)?;
    parts.inputs.push(input)?;
    Ok(())
}

fn with_fault(line: u32, parts: &mut Parts, tokens: &[Token]) -> Result<(), LineFail>
    ensures { LeavesLine result (spec.between_images parts.new) (spec.with_fault line parts.old (toks tokens.now)) }
{
    let fault = fault_line(line, &parts.faults, tokens)?;
    parts.faults.push(fault)?;
    Ok(())
}

fn with_process(line: u32, parts: &mut Parts, tokens: &[Token]) -> Result<(), LineFail>
    ensures { LeavesLine result (spec.between_images parts.new) (spec.with_process line parts.old (toks tokens.now)) }
{
    let decl = process_line(line, &parts.decls, tokens)?;
    parts.decls.push(decl)?;
    Ok(())
}

// Nothing stands open when the line begins.
fn opened(alloc: Global, reading: &mut Reading, tokens: &[Token]) -> Result<(), LineFail>
    ensures { LeavesLine result reading.new (spec.opened reading.old.parts (toks tokens.now)) }
{
    let image = image_line(alloc, &reading.parts.images, tokens)?;
    keep_open(image, reading);
    Ok(())
}

// A line that begins with a word, if nothing stands open; the tokens are those behind the word.
fn outer_line(
    alloc: Global,
    line: u32,
    reading: &mut Reading,
    word: &Name,
    tokens: &mut [Token],
) -> Result<(), LineFail>
    requires { reading.old.current ≡ None }
    ensures { LeavesLine result reading.new (spec.outer_line line reading.old.parts word.now (toks tokens.old)) }
{
    let word = word.text();
    if word == b"UNIT".as_slice() {
        with_unit(alloc, &mut reading.parts, tokens)
    } else if word == b"INPUT".as_slice() {
        with_input(line, &mut reading.parts, tokens)
    } else if word == b"FAULT".as_slice() {
        with_fault(line, &mut reading.parts, tokens)
    } else if word == b"IMAGE".as_slice() {
        opened(alloc, reading, tokens)
    } else if word == b"PROCESS".as_slice() {
        with_process(line, &mut reading.parts, tokens)
    } else {
        Err(LineFail::Fault(FaultKind::Word))
    }
}

// A line that stands in no image.
#[tactic(auto, unfolding(crate::specs::Reading::outside))]
fn outside(
    alloc: Global,
    line: u32,
    reading: &mut Reading,
    tokens: &mut [Token],
) -> Result<(), LineFail>
    requires { reading.old.current ≡ None }
    ensures { LeavesLine result reading.new (spec.outside line reading.old.parts (toks tokens.old)) }
{
    let [first, rest @ ..] = tokens else {
        return Ok(());
    };
    match &first.tok {
        Tok::Word(word) => outer_line(alloc, line, reading, word, rest),
        _ => Err(LineFail::Fault(FaultKind::Word)),
    }
}

fn accepted(
    alloc: Global,
    services: &Services,
    line: u32,
    reading: &mut Reading,
    tokens: &mut [Token],
) -> Result<(), LineFail>
    ensures { LeavesLine result reading.new (spec.accepted line reading.old (toks tokens.old)) }
{
    match reading.current.take() {
        None => outside(alloc, line, reading, tokens),
        Some(image) => inside(alloc, services, line, reading, image, tokens),
    }
}

fn line_fail(fail: LexFail) -> LineFail
    ensures { result ≡ fail_of fail }
{
    match fail {
        LexFail::Byte => LineFail::Fault(FaultKind::Byte),
        LexFail::Quote => LineFail::Fault(FaultKind::Quote),
        LexFail::Number => LineFail::Fault(FaultKind::Number),
        LexFail::Name => LineFail::Fault(FaultKind::Name),
        LexFail::NoMemory => LineFail::NoMemory,
    }
}

#[tactic(auto, unfolding(crate::specs::Reading::take_line))]
fn take_line(
    alloc: Global,
    services: &Services,
    line: u32,
    reading: &mut Reading,
    text: &[u8],
) -> Result<(), LineFail>
    requires { length text.now < 4294967295 }
    ensures { LeavesLine result reading.new (spec.take_line line reading.old text.now) }
{
    match tokens(alloc, text) {
        Ok(mut tokens) => accepted(alloc, services, line, reading, &mut tokens),
        Err(fail) => Err(line_fail(fail)),
    }
}

fn next_line(
    alloc: Global,
    services: &Services,
    line: u32,
    reading: &mut Reading,
    text: &[u8],
) -> Result<(), ScriptFail>
    requires { length text.now < 4294967295 }
    ensures { LeavesScript result reading.new (at_line line (spec.take_line line reading.old text.now)) }
{
    match take_line(alloc, services, line, reading, text) {
        Ok(()) => Ok(()),
        Err(LineFail::Fault(kind)) => Err(ScriptFail::Fault(ScriptFault { line, kind })),
        Err(LineFail::NoMemory) => Err(ScriptFail::NoMemory),
    }
}

// How many bytes stand before the first line feed.
fn line_len(text: &[u8]) -> usize
    ensures len { result ≡ line_len text.now }
    ensures within { result ≤ length text.now }
{
    text.iter().take_while(|b| **b != b'\n').count()
}

// A line without a return at its end.
#[tactic(auto, using(crate::proofs::Returns::without_last))]
fn without_return(line: &[u8]) -> &[u8]
    ensures line { result.now ≡ without_return line.now }
    ensures within { length result.now ≤ length line.now }
{
    let Some((last, front)) = line.split_last() else {
        return line;
    };
    if *last == b'\r' { front } else { line }
}

// The first line, of so many bytes before the first line feed.
#[tactic(auto, using(crate::proofs::Cutting::first_taken, crate::proofs::Cutting::first_whole))]
fn first_line(text: &[u8], len: usize) -> &[u8]
    requires { len ≡ line_len text.now }
    ensures line { result.now ≡ first_line text.now }
    ensures within { length result.now ≤ length text.now }
{
    if len < text.len() {
        without_return(&text[..len])
    } else {
        text
    }
}

fn bytes_behind(text: &[u8], len: usize) -> &[u8]
    ensures { result.now ≡ drop len text.now }
{
    if len < text.len() { &text[len..] } else { &[] }
}

fn closed(alloc: Global, line: u32, reading: &mut Reading) -> Result<System, ScriptFail>
    ensures { ReadsScript result (spec.closed line reading.old.parts reading.old.current) }
{
    match &reading.current {
        Some(_) => Err(ScriptFail::Fault(ScriptFault {
            line,
            kind: FaultKind::End,
        })),
        None => resolve(alloc, &mut reading.parts),
    }
}

fn nothing_read(alloc: Global) -> Reading
    ensures { result ≡ spec.nothing_read }
{
    let parts = Parts {
        units: Units::new(alloc),
        inputs: InputLines::new(alloc),
        faults: NumberedRegister::new(alloc),
        images: Register::new(alloc),
        decls: Register::new(alloc),
        creations: Sequence::new(alloc),
        unlabelled: None,
    };
    Reading {
        parts,
        current: None,
    }
}

// Reads the lines of a text, if nothing was read before.
fn read_lines(alloc: Global, reading: &mut Reading, text: &[u8]) -> Result<System, ScriptFail>
    requires { length text.now < 4294967295 }
    ensures { ReadsScript result (spec.read_lines 1 reading.old (lines_of text.now)) }
{
    let services = Services::new();
    let mut line: u32 = 1;
    let mut rest = text;
    while !rest.is_empty() {
        let len = line_len(rest);
        next_line(alloc, &services, line, reading, first_line(rest, len))?;
        line += 1;
        rest = bytes_behind(rest, len + 1);
    }
    closed(alloc, line, reading)
}

/// Reads a text line by line. `vx_grammar::read_script` is the call for users: its contract is the grammar.
#[tactic(auto, unfolding(crate::specs::Reading::read_script))]
pub fn parse_script(alloc: Global, text: &[u8]) -> Result<System, ScriptFail>
    requires { length text.now < 4294967295 }
    ensures { ReadsScript result (spec.read_script text.now) }
{
    let mut reading = nothing_read(alloc);
    let system = read_lines(alloc, &mut reading, text);
    drop(reading);
    system
}
