//! Quoted texts, as a script spells them.

ghost use Rattle.std.specs.Prelude.{◌≡◌, IfOk};
ghost use Rattle.vx_text.specs.Quoted as spec;

use crate::bytes::{hex_value, is_hex_digit, is_plain};
use std::alloc::Global;
use vx_base::{Bytes, NoMemory};

/// Where a byte stands in a quoted text.
#[derive(Clone, Copy, Debug)]
pub enum Place {
    /// Between bytes that are spelled whole.
    Plain,
    /// Behind a backslash.
    Escaped,
    /// Behind a backslash and a digit, of this value.
    Half(u8),
}

/// What a byte does at its place.
#[derive(Clone, Copy, Debug)]
pub enum Step {
    /// It closes the text.
    Close,
    /// A byte is spelled whole.
    Byte(u8),
    /// It spells a part of a byte.
    Into(Place),
    /// It may not stand there.
    Fault,
}

/// A text, and how many bytes spell it with its closing quote.
#[derive(Drop)]
pub struct Text {
    pub bytes: Bytes,
    pub len: usize,
}

fn plain_step(b: u8) -> Step
    ensures { result ≡ spec.step_of Place.Plain b }
{
    match b {
        b'"' => Step::Close,
        b'\\' => Step::Into(Place::Escaped),
        _ if is_plain(b) => Step::Byte(b),
        _ => Step::Fault,
    }
}

fn step_of(place: Place, b: u8) -> Step
    requires { spec.IsPlace place }
    ensures step { result ≡ spec.step_of place b }
    ensures leads { spec.LeadsOn result }
{
    match place {
        Place::Plain => plain_step(b),
        Place::Escaped if is_hex_digit(b) => Step::Into(Place::Half(hex_value(b))),
        Place::Half(high) if is_hex_digit(b) => Step::Byte(16 * high + hex_value(b)),
        _ => Step::Fault,
    }
}

/// The text behind an opening quote, and None if a byte may not stand in it or nothing closes it.
pub fn quoted_text(alloc: Global, bytes: &[u8]) -> Result<Option<Text>, NoMemory>
    ensures text { IfOk result (λ text. text ≡ spec.quoted_text bytes.now) }
    ensures within { IfOk result (λ text. spec.EndsWithin bytes.now text) }
{
    let mut text = Bytes::new(alloc);
    let mut place = Place::Plain;
    for (i, b) in bytes.iter().enumerate() {
        match step_of(place, *b) {
            Step::Close => {
                return Ok(Some(Text {
                    bytes: text,
                    len: i + 1,
                }));
            }
            Step::Byte(b) => {
                text.push_all(&[b])?;
                place = Place::Plain;
            }
            Step::Into(next) => place = next,
            Step::Fault => return Ok(None),
        }
    }
    Ok(None)
}
