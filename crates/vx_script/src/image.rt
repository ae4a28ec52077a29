//! The lines of an image.

ghost use Rattle.std.specs.Prelude.{◌≡◌, None, Ok};
ghost use Rattle.vx_table.specs.Reading.{toks};
ghost use Rattle.vx_script.specs.Reading as spec;
ghost use Rattle.vx_script.specs.Steps.{LeavesLine};

use crate::declaration::{room_for, unused_name};
use crate::draft::{DraftImage, DraftLine, MOST_STMTS};
use crate::ending::with_image;
use crate::fault::LineFail;
use crate::fields::{begins_with_sign, behind, behind_mut, end_at};
use crate::parts::{Parts, Reading};
use crate::services::Services;
use crate::statement::stmt_of;
use std::alloc::Global;
use vx_base::Name;
use vx_image::Label;
use vx_text::{Tok, Token};

// A statement, if one stands.
fn with_stmt(
    services: &Services,
    line: u32,
    image: &mut DraftImage,
    tokens: &mut [Token],
) -> Result<(), LineFail>
    ensures { LeavesLine result image.new (spec.with_stmt line image.old (toks tokens.old)) }
{
    if tokens.is_empty() {
        return Ok(());
    }
    let draft = stmt_of(services, tokens)?;
    room_for(MOST_STMTS, image.lines.len() as usize)?;
    image.lines.push(DraftLine { line, draft })?;
    Ok(())
}

// A label, which names the next statement.
fn with_label(image: &mut DraftImage, name: Name) -> Result<(), LineFail>
    ensures { LeavesLine result image.new (Ok (spec.with_label image.old name)) }
{
    let place = image.lines.len();
    image.labels.push(Label { name, place })?;
    Ok(())
}

// A label, and the statement behind it if any.
fn labelled(
    services: &Services,
    line: u32,
    image: &mut DraftImage,
    name: Name,
    tokens: &mut [Token],
) -> Result<(), LineFail>
    ensures { LeavesLine result image.new (spec.labelled line image.old name (toks tokens.old)) }
{
    unused_name(image.labels.place(name), name)?;
    with_label(image, name)?;
    with_stmt(services, line, image, tokens)
}

/// An image stands open.
pub fn keep_open(image: DraftImage, reading: &mut Reading)
    ensures { reading.new ≡ spec.goes_on reading.old.parts image }
{
    reading.current = Some(image);
}

fn ended(
    alloc: Global,
    parts: &mut Parts,
    image: DraftImage,
    tokens: &[Token],
) -> Result<(), LineFail>
    ensures { LeavesLine result (spec.between_images parts.new) (spec.ended parts.old image (toks tokens.now)) }
{
    end_at(tokens)?;
    with_image(alloc, parts, image)?;
    Ok(())
}

// A line that begins with a label; the tokens are those behind its colon.
fn label_line(
    services: &Services,
    line: u32,
    reading: &mut Reading,
    mut image: DraftImage,
    label: Name,
    tokens: &mut [Token],
) -> Result<(), LineFail>
    ensures { LeavesLine result reading.new (spec.going_on reading.old.parts (spec.labelled line image label (toks tokens.old))) }
{
    let added = labelled(services, line, &mut image, label, tokens);
    keep_open(image, reading);
    added
}

// A line that begins with a word; the tokens are all of the line's.
fn word_line(
    alloc: Global,
    services: &Services,
    line: u32,
    reading: &mut Reading,
    image: DraftImage,
    word: Name,
    tokens: &mut [Token],
) -> Result<(), LineFail>
    requires { reading.old.current ≡ None }
    ensures { LeavesLine result reading.new (spec.word_line line reading.old.parts image word (toks tokens.old)) }
{
    if begins_with_sign(b':', behind(tokens, 1)) {
        label_line(services, line, reading, image, word, behind_mut(tokens, 2))
    } else if word.text() == b"END".as_slice() {
        ended(alloc, &mut reading.parts, image, behind(tokens, 1))
    } else {
        other_line(services, line, reading, image, tokens)
    }
}

// A line that is a statement alone, or has no tokens.
fn other_line(
    services: &Services,
    line: u32,
    reading: &mut Reading,
    mut image: DraftImage,
    tokens: &mut [Token],
) -> Result<(), LineFail>
    ensures { LeavesLine result reading.new (spec.going_on reading.old.parts (spec.with_stmt line image (toks tokens.old))) }
{
    let added = with_stmt(services, line, &mut image, tokens);
    keep_open(image, reading);
    added
}

fn first_word(tokens: &[Token]) -> Option<Name>
    ensures { result ≡ spec.first_word (toks tokens.now) }
{
    let [first, ..] = tokens else {
        return None;
    };
    match &first.tok {
        Tok::Word(word) => Some(*word),
        _ => None,
    }
}

/// A line of an image.
pub fn inside(
    alloc: Global,
    services: &Services,
    line: u32,
    reading: &mut Reading,
    image: DraftImage,
    tokens: &mut [Token],
) -> Result<(), LineFail>
    requires { reading.old.current ≡ None }
    ensures { LeavesLine result reading.new (spec.inside line reading.old.parts image (toks tokens.old)) }
{
    match first_word(tokens) {
        Some(word) => word_line(alloc, services, line, reading, image, word, tokens),
        None => other_line(services, line, reading, image, tokens),
    }
}
