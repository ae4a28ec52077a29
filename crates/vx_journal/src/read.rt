//! Reads a transcript.

ghost use Rattle.std.specs.Prelude.{◌≡◌, ◌+◌, ◌<◌, ◌≤◌, IfOk, List, Ok, length};
ghost use Rattle.vx_record.specs.Types.{End as EndOf, Rec as RecOf, System as SystemOf};
ghost use Rattle.vx_image.specs.WellFormed.{IsWellFormed};
ghost use Rattle.vx_lines.specs.ReadRecords.{Reads};
ghost use Rattle.vx_journal.specs.ReadJournal as spec;
ghost use Rattle.vx_journal.specs.RunJournal.{IsHeldRun, run_journal};
ghost use Rattle.vx_journal.specs.SpelledJournal.{IsSpelledJournal};
ghost use Rattle.vx_journal.specs.Transcript.{transcript};
ghost use Rattle.vx_journal.specs.declared.journal.Journal.{Journal as JournalOf};

use crate::journal::{Front, HeaderEnd, Journal, JournalFail};
use crate::trailer::read_trailer;
use std::alloc::Global;
use vx_base::{Bytes, NoMemory};
use vx_grammar::read_script;
use vx_image::System;
use vx_lines::{LinesFail, Records, fed_len, read_records};
use vx_script::print_script;

/// How many bytes stand before the first line that begins with `$JOURNAL`.
fn script_len(text: &[u8]) -> usize
    ensures len { result ≡ spec.script_len text.now }
    ensures within { result ≤ length text.now }
{
    let mut at = 0;
    while at < text.len() {
        let rest = &text[at..];
        let len = fed_len(rest);
        if rest[..len].starts_with(b"$JOURNAL") {
            return at;
        }
        at += len;
    }
    at
}

/// The number of the line behind a front of a text that begins with this line, or of the first line in which the text differs.
fn line_behind(line: u32, front: &[u8], text: &[u8]) -> Result<u32, LinesFail>
    requires { line + length text.now ≤ 4294967295 }
    ensures read { Reads result (spec.line_behind line front.now text.now) }
    ensures within { IfOk result (λ _. length front.now ≤ length text.now) }
    ensures lines { IfOk result (λ n. n ≤ line + length front.now) }
{
    let mut number = line;
    for (i, b) in front.iter().enumerate() {
        if i >= text.len() || text[i] != *b {
            return Err(LinesFail::Bad(number));
        }
        if *b == b'\n' {
            number += 1;
        }
    }
    Ok(number)
}

fn copy_of(alloc: Global, text: &[u8]) -> Result<Bytes, NoMemory>
    ensures { IfOk result (λ copy. copy ≡ text.now) }
{
    let mut copy = Bytes::new(alloc);
    copy.push_all(text)?;
    Ok(copy)
}

/// Reads what stands behind the header, whose first line has this number.
fn behind_header(
    alloc: Global,
    system: System,
    line: u32,
    text: &[u8],
) -> Result<Journal, LinesFail>
    requires formed { IsWellFormed system }
    requires short { line + length text.now < 4294967295 }
    ensures { Reads result (spec.behind_header system line text.now) }
{
    let units = system.units.as_slice();
    let Records { recs, line, len } = read_records(alloc, units, line, text)?;
    let trailer = &text[len..];
    let part = read_trailer(alloc, units, line, trailer)?;
    let trailer = copy_of(alloc, trailer)?;
    Ok(Journal {
        system,
        recs,
        part,
        trailer,
    })
}

/// Where the header ends, in a text whose script part says this system.
fn header_end(alloc: Global, system: &System, text: &[u8]) -> Result<HeaderEnd, LinesFail>
    requires formed { IsWellFormed system.now }
    requires short { length text.now < 4294967295 }
    ensures read { Reads result (spec.header_end system.now text.now) }
    ensures within { IfOk result (λ end. end.len ≤ length text.now) }
    ensures lines { IfOk result (λ end. end.line ≤ end.len) }
{
    let script = print_script(alloc, system)?;
    let line = line_behind(1, script.as_slice(), text)?;
    let len = script.as_slice().len();
    if text[len..].starts_with(b"$JOURNAL 1\n") {
        Ok(HeaderEnd {
            line: line + 1,
            len: len + 11,
        })
    } else {
        Err(LinesFail::Bad(line))
    }
}

/// Reads a text whose script part says this system.
fn journal_of(alloc: Global, system: System, text: &[u8]) -> Result<Journal, LinesFail>
    requires formed { IsWellFormed system }
    requires short { length text.now < 4294967295 }
    ensures { Reads result (spec.journal_of system text.now) }
{
    match header_end(alloc, &system, text) {
        Ok(end) => behind_header(alloc, system, end.line, &text[end.len..]),
        Err(failure) => Err(failure),
    }
}

/// Reads a text whose script part says this system, and tells its first bad line.
fn read_behind(alloc: Global, system: System, text: &[u8]) -> Result<Journal, JournalFail>
    requires formed { IsWellFormed system }
    requires short { length text.now < 4294967295 }
    ensures read { spec.ReadsJournal result (spec.journal_of system text.now) }
{
    match journal_of(alloc, system, text) {
        Ok(journal) => Ok(journal),
        Err(LinesFail::Bad(line)) => Err(JournalFail::Form(line)),
        Err(LinesFail::NoMemory) => Err(JournalFail::NoMemory),
    }
}

/// Reads a transcript, whole or cut behind a record; or tells the first fault of its script, or the first line that may not stand
/// where it does. The script part is what stands before the first line that begins with `$JOURNAL`.
pub fn read_journal(alloc: Global, text: &[u8]) -> Result<Journal, JournalFail>
    requires { length text.now < 4294967295 }
    // What is read is what the text says, and the failure is the text's, unless memory runs out.
    ensures told { spec.TellsText text.now result }
    ensures only { spec.TellsWhatIsThere text.now result }
    // The text of a journal that has a spelling is read as the journal.
    ensures back { (j : JournalOf) → IsSpelledJournal j → text.now ≡ spec.journal_text j → spec.ReadsJournal result (Ok j) }
    // So the transcript of each run is read as its system, its records and its trailer.
    ensures run { (s : SystemOf) (recs : List RecOf) (end : EndOf) → IsHeldRun s recs → text.now ≡ transcript s recs end →
        spec.ReadsJournal result (Ok (run_journal s recs end)) }
{
    let len = script_len(text);
    match read_script(alloc, &text[..len]) {
        Ok(system) => read_behind(alloc, system, text),
        Err(failure) => Err(JournalFail::from(failure)),
    }
}

/// The front of a text whose script part says this system, or the text's first bad line.
fn front_of(alloc: Global, system: System, text: &[u8]) -> Result<Front, JournalFail>
    requires formed { IsWellFormed system }
    requires short { length text.now < 4294967295 }
    ensures front { spec.ReadsFront system text.now result }
    ensures within { IfOk result (λ f. f.end.len ≤ length text.now) }
    ensures lines { IfOk result (λ f. f.end.line ≤ f.end.len) }
{
    match header_end(alloc, &system, text) {
        Ok(end) => Ok(Front { system, end }),
        Err(LinesFail::Bad(line)) => Err(JournalFail::Form(line)),
        Err(LinesFail::NoMemory) => Err(JournalFail::NoMemory),
    }
}

/// Reads what stands before the records of a transcript; or tells the first fault of its script, or the first line that may not
/// stand where it does.
pub fn read_front(alloc: Global, text: &[u8]) -> Result<Front, JournalFail>
    requires { length text.now < 4294967295 }
    // What is read is what the text says, and the failure is the text's, unless memory runs out.
    ensures front { IfOk result (λ f. spec.IsFront text.now f × IsWellFormed f.system) }
    ensures failure { spec.TellsIfFailed text.now result }
    // The records stand within the text, and no more lines before them than bytes.
    ensures within { IfOk result (λ f. (f.end.len ≤ length text.now) × (f.end.line ≤ f.end.len)) }
{
    let len = script_len(text);
    match read_script(alloc, &text[..len]) {
        Ok(system) => front_of(alloc, system, text),
        Err(failure) => Err(JournalFail::from(failure)),
    }
}
