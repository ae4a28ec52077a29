//! Canonical spellings.

ghost use Rattle.std.specs.Prelude.{◌≡◌, ◌<◌, ◌++◌, ℕ, List, OnOk, OnErr, IfOk, decimal, length, take};
ghost use Rattle.vx_text.specs.Quote as spec;

use crate::bytes::is_plain;
use crate::quoted::quoted_text;
use itoa::Buffer;
use std::alloc::Global;
use vx_base::{Bytes, NoMemory};

/// Appends a number in decimal, or changes nothing.
pub fn print_num(out: &mut Bytes, n: u64) -> Result<(), NoMemory>
    ensures ok { OnOk result (out.new ≡ out.old ++ decimal n) }
    ensures err { OnErr result (out.new ≡ out.old) }
{
    let mut digits = Buffer::new();
    out.push_all(digits.format(n).as_bytes())
}

fn hex_digit(n: u8) -> u8
    requires { n < 16 }
    ensures { result ≡ spec.hex_digit n }
{
    if n < 10 { b'0' + n } else { 55 + n }
}

// Appends a byte of a quoted text, or changes nothing.
fn print_byte(out: &mut Bytes, b: u8) -> Result<(), NoMemory>
    ensures ok { OnOk result (out.new ≡ out.old ++ spec.byte_text b) }
    ensures err { OnErr result (out.new ≡ out.old) }
{
    if is_plain(b) {
        out.push_all(&[b])
    } else {
        out.push_all(&[b'\\', hex_digit(b / 16), hex_digit(b % 16)])
    }
}

// Appends the bytes of a quoted text. If memory runs out, it may have appended the start of them.
fn print_inside(out: &mut Bytes, bytes: &[u8]) -> Result<(), NoMemory>
    ensures ok { OnOk result (out.new ≡ out.old ++ spec.inside_text bytes.now) }
    ensures front { take (length out.old) out.new ≡ out.old }
{
    for b in bytes {
        print_byte(out, *b)?;
    }
    Ok(())
}

// Appends a text between quotes. If memory runs out, it may have appended the start of it.
fn append_quote(out: &mut Bytes, bytes: &[u8]) -> Result<(), NoMemory>
    ensures ok { OnOk result (out.new ≡ out.old ++ spec.quote_text bytes.now) }
    ensures front { take (length out.old) out.new ≡ out.old }
{
    out.push_all(b"\"")?;
    print_inside(out, bytes)?;
    out.push_all(b"\"")
}

/// Appends a text between quotes, or changes nothing: a byte from 32 to 126 but `"` and `\` stands for itself, any
/// other as `\` and its two hexadecimal digits.
pub fn print_quote(out: &mut Bytes, bytes: &[u8]) -> Result<(), NoMemory>
    ensures ok { OnOk result (out.new ≡ out.old ++ spec.quote_text bytes.now) }
    ensures err { OnErr result (out.new ≡ out.old) }
{
    let before = out.len();
    let done = append_quote(out, bytes);
    if done.is_err() {
        out.truncate(before);
    }
    done
}

// The canonical spelling of a text.
fn spelled(alloc: Global, bytes: &[u8]) -> Result<Bytes, NoMemory>
    ensures { IfOk result (λ text. text ≡ spec.quote_text bytes.now) }
{
    let mut text = Bytes::new(alloc);
    append_quote(&mut text, bytes)?;
    Ok(text)
}

/// Reads what `print_quote` writes, and nothing else: None for every other text.
pub fn read_quote(alloc: Global, text: &[u8]) -> Result<Option<Bytes>, NoMemory>
    ensures spelled { IfOk result (λ read. (bytes : List ℕ) → read ≡ Some bytes → text.now ≡ spec.quote_text bytes) }
    ensures read { IfOk result (λ read. (bytes : List ℕ) → spec.AreBytes bytes → text.now ≡ spec.quote_text bytes →
        read ≡ Some bytes) }
{
    if text.is_empty() {
        return Ok(None);
    }
    let Some(read) = quoted_text(alloc, &text[1..])? else {
        return Ok(None);
    };
    let again = spelled(alloc, read.bytes.as_slice())?;
    if again.as_slice() == text {
        Ok(Some(read.bytes))
    } else {
        Ok(None)
    }
}
