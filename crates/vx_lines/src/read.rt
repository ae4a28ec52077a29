//! Reads the lines of records.

ghost use Rattle.std.specs.Prelude.{◌≡◌, ◌+◌, ◌<◌, ◌≤◌, IfOk, OnOk, length};
ghost use Rattle.vx_base.specs.Services.{service_rows};
ghost use Rattle.vx_lines.specs.Cutting.{fed_len};
ghost use Rattle.vx_lines.specs.ReadRecords as spec;
ghost use Rattle.vx_lines.specs.declared.read.LinesFail.TheVariants as lines_fail;

use crate::effect_reader::read_effect;
use crate::head_reader::read_head;
use crate::words::len_before;
use std::alloc::Global;
use std::mem::replace;
use vx_base::{Effect, NoMemory, Rec, Recs};
use vx_image::UnitDecl;
use vx_table::{ServiceTable, service_table};

/// Why lines are not read.
#[derive(Clone, Copy)]
pub enum LinesFail {
    /// The number of the first line that may not stand there. The caller says which number the first line of all has.
    Bad(u32),
    /// No memory was found.
    NoMemory,
}

impl From<NoMemory> for LinesFail {
    ghost from_gives = { λ _ e. e ≡ lines_fail.NoMemory };

    fn from(_: NoMemory) -> Self {
        LinesFail::NoMemory
    }
}

/// Records that were read, the number of the line behind them, and how many bytes they take.
#[derive(Drop)]
pub struct Records {
    pub recs: Recs,
    pub line: u32,
    pub len: usize,
}

/// Records that are read whole, and one whose effects are being read.
#[derive(Drop)]
pub struct Reading {
    pub recs: Recs,
    pub current: Option<Rec>,
}

// Adds an effect to the record that is being read; answers whether both are there.
fn add_effect(reading: &mut Reading, effect: Option<Effect>) -> Result<bool, NoMemory>
    ensures { IfOk result (λ may. spec.Leaves may reading.new (spec.with_effect reading.old effect)) }
{
    match (&mut reading.current, effect) {
        (Some(rec), Some(effect)) => {
            rec.effects.push(effect)?;
            Ok(true)
        }
        _ => Ok(false),
    }
}

// Puts the record that is being read behind the others, and this one in its place.
fn turn_to(reading: &mut Reading, next: Option<Rec>) -> Result<(), NoMemory>
    ensures { OnOk result (reading.new ≡ record { recs = spec.read_so_far reading.old; current = next }) }
{
    match replace(&mut reading.current, next) {
        Some(rec) => reading.recs.push(rec),
        None => Ok(()),
    }
}

fn next_number(reading: &Reading) -> u64
    ensures { result ≡ length (spec.read_so_far reading.now) + 1 }
{
    match reading.current {
        None => reading.recs.as_slice().len() as u64 + 1,
        Some(_) => reading.recs.as_slice().len() as u64 + 2,
    }
}

// Begins one more record; answers whether there is one.
fn add_record(reading: &mut Reading, head: Option<Rec>) -> Result<bool, NoMemory>
    ensures { IfOk result (λ may. spec.Leaves may reading.new (spec.with_head reading.old head)) }
{
    match head {
        Some(rec) => {
            turn_to(reading, Some(rec))?;
            Ok(true)
        }
        None => Ok(false),
    }
}

/// Whether a line of a record is an effect's.
pub fn begins_with_space(line: &[u8]) -> bool
    ensures { result ≡ spec.begins_with_space line.now }
{
    match line {
        [] => false,
        [b, ..] => *b == b' ',
    }
}

fn effect_line(alloc: Global, reading: &mut Reading, line: &[u8]) -> Result<bool, NoMemory>
    requires { length line.now < 4294967295 }
    ensures { IfOk result (λ may. spec.Leaves may reading.new (spec.effect_line reading.old line.now)) }
{
    let effect = read_effect(alloc, line)?;
    add_effect(reading, effect)
}

fn head_line(
    alloc: Global,
    table: &ServiceTable<36>,
    units: &[UnitDecl],
    reading: &mut Reading,
    line: &[u8],
) -> Result<bool, NoMemory>
    requires rows { table.now ≡ service_rows }
    requires few { length units.now ≤ 32 }
    requires short { length line.now < 4294967295 }
    ensures { IfOk result (λ may. spec.Leaves may reading.new (spec.head_line units.now reading.old line.now)) }
{
    let head = read_head(alloc, table, units, next_number(reading), line)?;
    add_record(reading, head)
}

#[tactic(auto, unfolding(crate::specs::ReadRecords::read_line))]
fn read_line(
    alloc: Global,
    table: &ServiceTable<36>,
    units: &[UnitDecl],
    reading: &mut Reading,
    line: &[u8],
) -> Result<bool, NoMemory>
    requires rows { table.now ≡ service_rows }
    requires few { length units.now ≤ 32 }
    requires short { length line.now < 4294967295 }
    ensures { IfOk result (λ may. spec.Leaves may reading.new (spec.read_line units.now reading.old line.now)) }
{
    if begins_with_space(line) {
        effect_line(alloc, reading, line)
    } else {
        head_line(alloc, table, units, reading, line)
    }
}

/// Whether a text begins with a line of a record.
pub fn is_of_record(text: &[u8]) -> bool
    ensures { result ≡ spec.is_of_record text.now }
{
    match text {
        [] => false,
        [b, ..] => b'0' <= *b && *b <= b'9' || *b == b' ',
    }
}

/// How many bytes the first line of a text has, with its line feed.
pub fn fed_len(text: &[u8]) -> usize
    ensures len { result ≡ fed_len text.now }
    ensures within { result ≤ length text.now }
{
    let len = len_before(b'\n', text);
    if len < text.len() { len + 1 } else { len }
}

/// Reads the records that a text begins with, up to the first line that begins with neither a digit nor a space. Each line is
/// an effect under a head, or the head with the next number. The first line has this number.
pub fn read_records(
    alloc: Global,
    units: &[UnitDecl],
    line: u32,
    text: &[u8],
) -> Result<Records, LinesFail>
    requires few { length units.now ≤ 32 }
    requires short { line + length text.now < 4294967295 }
    ensures read { spec.Reads result (spec.read_records units.now line text.now) }
    ensures within { IfOk result (λ records. records.len ≤ length text.now) }
    ensures lines { IfOk result (λ records. records.line ≤ line + records.len) }
{
    let table = service_table();
    let mut reading = Reading {
        recs: Recs::new(alloc),
        current: None,
    };
    let mut line = line;
    let mut at = 0;
    while is_of_record(&text[at..]) {
        let rest = &text[at..];
        let len = fed_len(rest);
        if !read_line(alloc, &table, units, &mut reading, &rest[..len])? {
            return Err(LinesFail::Bad(line));
        }
        line += 1;
        at += len;
    }
    turn_to(&mut reading, None)?;
    let Reading { recs, .. } = reading;
    Ok(Records {
        recs,
        line,
        len: at,
    })
}
