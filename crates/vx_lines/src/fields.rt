//! What a word of a line is. A number may have zeros in front here: the line is compared with what it is read as.

ghost use Rattle.std.specs.Prelude.{◌≡◌, ◌<◌, ◌≤◌, IfOk, IfSome, Ok, bytes_eq, length, position};
ghost use Rattle.vx_table.specs.Reading.{toks};
ghost use Rattle.vx_text.specs.First.{cond_named};
ghost use Rattle.vx_lines.specs.Fields as spec;

use crate::number::value_up_to;
use crate::words::{behind_part, first_part, from_colon, is_word};
use std::alloc::Global;
use vx_base::{Bytes, Cell, Cond, Id, Mode, Name, NoMemory, Opened, Pid, UnitNo};
use vx_image::UnitDecl;
use vx_table::mode_word;
use vx_text::{LexFail, Tok, Token, tokens};

/// A number of 32 bits, in decimal.
pub fn number_of(word: &[u8]) -> Option<u32>
    ensures { result ≡ spec.number_of word.now }
{
    match value_up_to(4_294_967_295, word) {
        Some(number) => Some(number as u32),
        None => None,
    }
}

/// An id: `#` and its number.
pub fn id_of(word: &[u8]) -> Option<Id>
    ensures { result ≡ spec.id_of word.now }
{
    match word {
        [b'#', digits @ ..] => number_of(digits).map(Id),
        _ => None,
    }
}

/// A process's number, in decimal.
pub fn pid_of(word: &[u8]) -> Option<Pid>
    ensures { result ≡ spec.pid_of word.now }
{
    number_of(word).map(Pid)
}

/// 0 or 1.
pub fn bit_of(word: &[u8]) -> Option<bool>
    ensures { result ≡ spec.bit_of word.now }
{
    match value_up_to(1, word) {
        Some(number) => Some(number == 1),
        None => None,
    }
}

/// A name: a capital letter, and at most 30 more capital letters, digits and `_`.
pub fn name_of(word: &[u8]) -> Option<Name>
    ensures { result ≡ spec.name_in word.now }
{
    Name::new(word)
}

/// What was opened.
pub fn kind_of(word: &[u8]) -> Option<Opened>
    ensures { result ≡ spec.kind_of word.now }
{
    if is_word(word, b"BIO") {
        Some(Opened::Bio)
    } else if is_word(word, b"DIO") {
        Some(Opened::Dio)
    } else if is_word(word, b"ATTN") {
        Some(Opened::Attn)
    } else if is_word(word, b"TIMER") {
        Some(Opened::Timer)
    } else if is_word(word, b"WAKE") {
        Some(Opened::Wake)
    } else if is_word(word, b"AST") {
        Some(Opened::Ast)
    } else if is_word(word, b"FORCE") {
        Some(Opened::Force)
    } else if is_word(word, b"EXH") {
        Some(Opened::Exh)
    } else {
        None
    }
}

/// A mode, or `-` for none.
pub fn mode_or_none(word: &[u8]) -> Option<Option<Mode>>
    ensures { result ≡ spec.mode_or_none word.now }
{
    if is_word(word, b"-") {
        Some(None)
    } else {
        mode_word(word).map(Some)
    }
}

/// A condition, by its name.
pub fn cond_of(word: &[u8]) -> Option<Cond>
    ensures { result ≡ cond_named word.now }
{
    Cond::from_name(word)
}

/// A condition, or `-` for none.
pub fn cond_or_none(word: &[u8]) -> Option<Option<Cond>>
    ensures { result ≡ spec.cond_or_none word.now }
{
    if is_word(word, b"-") {
        Some(None)
    } else {
        cond_of(word).map(Some)
    }
}

fn local_of(first: &[u8], second: &[u8]) -> Option<Cell>
    ensures { result ≡ spec.local_of first.now second.now }
{
    let p = pid_of(first)?;
    let n = number_of(second)?;
    Some(Cell::Local(p, n))
}

fn small_of(word: &[u8]) -> Option<u32>
    ensures { result ≡ spec.small_of word.now }
{
    match value_up_to(31, word) {
        Some(number) => Some(number as u32),
        None => None,
    }
}

fn common_of(first: &[u8], second: &[u8], third: &[u8]) -> Option<Cell>
    ensures { result ≡ spec.common_of first.now second.now third.now }
{
    let group = number_of(first)?;
    let name = name_of(second)?;
    let n = small_of(third)?;
    Some(Cell::Common(group, name, n))
}

/// An event flag: `process:flag`, or `group:name:flag` with a flag of 0 to 31.
pub fn cell_of(word: &[u8]) -> Option<Cell>
    ensures { result ≡ spec.cell_of word.now }
{
    let first = first_part(word);
    let rest = behind_part(word);
    if from_colon(rest).is_empty() {
        local_of(first, rest)
    } else {
        common_of(first, first_part(rest), behind_part(rest))
    }
}

/// A common cluster: `group:name`.
pub fn cluster_of(word: &[u8]) -> Option<(u32, Name)>
    ensures { result ≡ spec.cluster_of word.now }
{
    let group = number_of(first_part(word))?;
    let name = name_of(behind_part(word))?;
    Some((group, name))
}

/// A common cluster, or `-` for none.
pub fn cluster_or_none(word: &[u8]) -> Option<Option<(u32, Name)>>
    ensures { result ≡ spec.cluster_or_none word.now }
{
    if is_word(word, b"-") {
        Some(None)
    } else {
        cluster_of(word).map(Some)
    }
}

/// The number of a process's cluster of common flags: 2 or 3.
pub fn common_number(word: &[u8]) -> Option<u32>
    ensures { result ≡ spec.common_number word.now }
{
    match value_up_to(3, word) {
        Some(number) if number >= 2 => Some(number as u32),
        _ => None,
    }
}

fn is_named(unit: &UnitDecl, word: &[u8]) -> bool
    ensures { result ≡ bytes_eq unit.now.name word.now }
{
    unit.name.text() == word
}

fn place_of(units: &[UnitDecl], word: &[u8]) -> Option<usize>
    ensures place { result ≡ position (λ u. bytes_eq u.name word.now) units.now }
    ensures within { IfSome result (λ i. i < length units.now) }
{
    units.iter().position(|unit| is_named(unit, word))
}

/// The unit of this name.
pub fn unit_of(units: &[UnitDecl], word: &[u8]) -> Option<UnitNo>
    requires { length units.now ≤ 32 }
    ensures { result ≡ spec.unit_of units.now word.now }
{
    match place_of(units, word) {
        Some(place) => Some(UnitNo(place as u32)),
        None => None,
    }
}

fn text_among(mut tokens: Vec<Token>) -> Option<Bytes>
    ensures { result ≡ spec.text_among (Ok (toks tokens.items)) }
{
    let last = tokens.pop()?;
    match last.tok {
        Tok::Quote(bytes) if tokens.is_empty() => Some(bytes),
        _ => None,
    }
}

/// The quoted text that a line is, and None if it is anything else.
pub fn text_of(alloc: Global, line: &[u8]) -> Result<Option<Bytes>, NoMemory>
    requires { length line.now < 4294967295 }
    ensures { IfOk result (λ text. text ≡ spec.text_of line.now) }
{
    match tokens(alloc, line) {
        Ok(tokens) => Ok(text_among(tokens)),
        Err(LexFail::NoMemory) => Err(NoMemory),
        Err(_) => Ok(None),
    }
}
