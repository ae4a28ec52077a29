//! What stands first in bytes.

ghost use Rattle.std.specs.Prelude.{◌≡◌, ◌<◌, length, map, IfOk};
ghost use Rattle.vx_text.specs.Bytes.{to_upper};
ghost use Rattle.vx_text.specs.First as spec;
ghost use Rattle.vx_text.specs.Lex.{IsReading};

use crate::bytes::{
    alphanumeric_len, capitals, decimal_of, hex_len, hex_of, is_digit, is_letter, is_sign,
    service_len, to_upper, word_len,
};
use crate::quoted::quoted_text;
use crate::token::{LexFail, Tok};
use std::alloc::Global;
use vx_base::{Cond, Name, NoMemory};

/// What stands first in bytes.
#[derive(Drop)]
pub enum First {
    /// A comment, or nothing.
    End,
    /// A space or a tab.
    Gap,
    /// A token, and its length.
    Found(Tok, usize),
    /// A fault.
    Bad(LexFail),
}

fn cond_named(text: &[u8]) -> Option<Cond>
    ensures { result ≡ spec.cond_named text.now }
{
    Cond::from_name(text)
}

fn cond_of(text: &[u8]) -> Option<Tok>
    ensures { result ≡ spec.cond_of text.now }
{
    cond_named(text).map(Tok::Cond)
}

fn word_named(text: &[u8]) -> Option<Tok>
    ensures { result ≡ spec.word_named text.now }
{
    Name::new(text).map(Tok::Word)
}

fn word_of(run: &[u8]) -> Option<Tok>
    ensures { result ≡ spec.word_of (map to_upper run.now) }
{
    if 31 < run.len() {
        return None;
    }
    let capitals = capitals(run);
    let text = &capitals[..run.len()];
    if text.starts_with(b"SS$_") {
        return cond_of(&text[4..]);
    }
    word_named(text)
}

fn found_or(kind: LexFail, tok: Option<Tok>, len: usize) -> First
    ensures { result ≡ spec.found_or kind tok len }
{
    match tok {
        None => First::Bad(kind),
        Some(tok) => First::Found(tok, len),
    }
}

fn word(bytes: &[u8]) -> First
    ensures { result ≡ spec.word bytes.now }
{
    let len = word_len(bytes);
    found_or(LexFail::Name, word_of(&bytes[..len]), len)
}

fn service_of(run: &[u8]) -> Option<Tok>
    ensures { result ≡ spec.service_of (map to_upper run.now) }
{
    if 30 < run.len() {
        return None;
    }
    let capitals = capitals(run);
    Name::new(&capitals[..run.len()]).map(Tok::Service)
}

fn service(bytes: &[u8]) -> First
    requires { 0 < length bytes.now }
    ensures { result ≡ spec.service bytes.now }
{
    let rest = &bytes[1..];
    let len = service_len(rest);
    found_or(LexFail::Name, service_of(&rest[..len]), 1 + len)
}

fn number(bytes: &[u8]) -> First
    ensures { result ≡ spec.number bytes.now }
{
    let len = alphanumeric_len(bytes);
    found_or(
        LexFail::Number,
        decimal_of(&bytes[..len]).map(Tok::Num),
        len,
    )
}

fn hex_number(bytes: &[u8]) -> First
    ensures { result ≡ spec.hex_number bytes.now }
{
    if bytes.len() < 2 || to_upper(bytes[1]) != b'X' {
        return First::Bad(LexFail::Number);
    }
    let digits = &bytes[2..];
    let len = hex_len(digits);
    found_or(
        LexFail::Number,
        hex_of(&digits[..len]).map(Tok::Num),
        2 + len,
    )
}

fn quote(alloc: Global, bytes: &[u8]) -> Result<First, NoMemory>
    requires { 0 < length bytes.now }
    ensures { IfOk result (λ found. found ≡ spec.quote bytes.now) }
{
    match quoted_text(alloc, &bytes[1..])? {
        None => Ok(First::Bad(LexFail::Quote)),
        Some(text) => Ok(First::Found(Tok::Quote(text.bytes), 1 + text.len)),
    }
}

// What stands first, if it is no quoted text.
fn unquoted(b: u8, bytes: &[u8]) -> First
    requires { 0 < length bytes.now }
    ensures { result ≡ spec.unquoted b bytes.now }
{
    match b {
        b' ' | b'\t' => First::Gap,
        b'!' => First::End,
        b'%' => hex_number(bytes),
        b'$' => service(bytes),
        _ if is_letter(b) => word(bytes),
        _ if is_digit(b) => number(bytes),
        _ if is_sign(b) => First::Found(Tok::Sign(b), 1),
        _ => First::Bad(LexFail::Byte),
    }
}

fn leading(alloc: Global, bytes: &[u8]) -> Result<First, NoMemory>
    ensures { IfOk result (λ found. found ≡ spec.first bytes.now) }
{
    if bytes.is_empty() {
        return Ok(First::End);
    }
    let b = bytes[0];
    if b == b'"' {
        return quote(alloc, bytes);
    }
    Ok(unquoted(b, bytes))
}

/// What stands first in bytes.
pub fn stands_first(alloc: Global, bytes: &[u8]) -> Result<First, NoMemory>
    ensures first { IfOk result (λ found. found ≡ spec.first bytes.now) }
    ensures reading { IfOk result (λ found. IsReading bytes.now found) }
{
    leading(alloc, bytes)
}
