//! The fields of a line, from the left. Each reads the first of the tokens that are left.

ghost use Rattle.std.specs.Prelude.{◌≡◌, drop};
ghost use Rattle.vx_table.specs.Reading.{toks};
ghost use Rattle.vx_script.specs.Fields as spec;
ghost use Rattle.vx_table.specs.Reading.{operand_of as the_operand_of};
ghost use Rattle.vx_script.specs.Results.{given};
ghost use Rattle.vx_script.specs.declared.fault.FaultKind.TheVariants as kind;

use crate::fault::FaultKind;
use std::mem;
use vx_base::{Bytes, Name, Operand, Target};
use vx_table::{operand_of, target_word};
use vx_text::{Tok, Token};

/// The most bytes of a text in a script.
const MOST_TEXT: usize = 2048;

fn dropped(tokens: &[Token], count: usize) -> &[Token]
    ensures { result.now ≡ drop count tokens.now }
{
    if count < tokens.len() {
        &tokens[count..]
    } else {
        &[]
    }
}

/// The tokens behind the first so many.
#[tactic(auto, using(crate::proofs::Tokens::toks_behind))]
pub fn behind(tokens: &[Token], count: usize) -> &[Token]
    ensures { toks result.now ≡ drop count (toks tokens.now) }
{
    dropped(tokens, count)
}

fn dropped_mut(tokens: &mut [Token], count: usize) -> &mut [Token]
    ensures { result.now ≡ drop count tokens.old }
{
    if count < tokens.len() {
        &mut tokens[count..]
    } else {
        &mut []
    }
}

/// The tokens behind the first so many, of which one may be taken.
#[tactic(auto, using(crate::proofs::Tokens::toks_behind))]
pub fn behind_mut(tokens: &mut [Token], count: usize) -> &mut [Token]
    ensures { toks result.now ≡ drop count (toks tokens.old) }
{
    dropped_mut(tokens, count)
}

/// No token is left.
pub fn end_at(tokens: &[Token]) -> Result<(), FaultKind>
    ensures { result ≡ spec.end_at (toks tokens.now) }
{
    match tokens {
        [] => Ok(()),
        [_, ..] => Err(FaultKind::Extra),
    }
}

/// Whether a token is a fixed word.
pub fn is_word(text: &[u8], tok: &Tok) -> bool
    ensures { result ≡ spec.is_word text.now tok.now }
{
    match tok {
        Tok::Word(word) => word.text() == text,
        _ => false,
    }
}

/// Whether a token is a sign.
pub fn is_sign(sign: u8, tok: &Tok) -> bool
    ensures { result ≡ spec.is_sign sign tok.now }
{
    match tok {
        Tok::Sign(s) => *s == sign,
        _ => false,
    }
}

/// Whether a sign stands first.
pub fn begins_with_sign(sign: u8, tokens: &[Token]) -> bool
    ensures { result ≡ spec.begins_with_sign sign (toks tokens.now) }
{
    match tokens {
        [] => false,
        [first, ..] => is_sign(sign, &first.tok),
    }
}

/// A fixed sign stands first.
pub fn sign_at(sign: u8, tokens: &[Token]) -> Result<(), FaultKind>
    ensures { result ≡ spec.sign_at sign (toks tokens.now) }
{
    let [first, ..] = tokens else {
        return Err(FaultKind::Missing);
    };
    if is_sign(sign, &first.tok) {
        Ok(())
    } else {
        Err(FaultKind::Word)
    }
}

/// A fixed word stands first.
pub fn word_at(text: &[u8], tokens: &[Token]) -> Result<(), FaultKind>
    ensures { result ≡ spec.word_at text.now (toks tokens.now) }
{
    let [first, ..] = tokens else {
        return Err(FaultKind::Missing);
    };
    if is_word(text, &first.tok) {
        Ok(())
    } else {
        Err(FaultKind::Word)
    }
}

fn name_in(tok: &Tok) -> Result<Name, FaultKind>
    ensures { result ≡ spec.name_in tok.now }
{
    match tok {
        Tok::Word(name) => Ok(*name),
        _ => Err(FaultKind::Name),
    }
}

/// The name that stands first.
pub fn name_at(tokens: &[Token]) -> Result<Name, FaultKind>
    ensures { result ≡ spec.name_at (toks tokens.now) }
{
    let [first, ..] = tokens else {
        return Err(FaultKind::Missing);
    };
    name_in(&first.tok)
}

fn number_in(low: u32, high: u32, tok: &Tok) -> Result<u32, FaultKind>
    ensures { result ≡ spec.number_between low high tok.now }
{
    match tok {
        Tok::Num(n) if low <= *n && *n <= high => Ok(*n),
        Tok::Num(_) => Err(FaultKind::Range),
        _ => Err(FaultKind::Number),
    }
}

/// The number from `low` to `high` that stands first.
pub fn number_at(low: u32, high: u32, tokens: &[Token]) -> Result<u32, FaultKind>
    ensures { result ≡ spec.number_at low high (toks tokens.now) }
{
    let [first, ..] = tokens else {
        return Err(FaultKind::Missing);
    };
    number_in(low, high, &first.tok)
}

fn text_in(tok: Tok) -> Result<Bytes, FaultKind>
    ensures { result ≡ spec.text_in tok }
{
    match tok {
        Tok::Quote(bytes) if bytes.len() <= MOST_TEXT => Ok(bytes),
        Tok::Quote(_) => Err(FaultKind::Range),
        _ => Err(FaultKind::Quote),
    }
}

// Takes out what stands in a token, and leaves a 0.
fn take_tok(token: &mut Token) -> Tok
    ensures { result ≡ token.old.tok }
{
    mem::replace(&mut token.tok, Tok::Num(0))
}

/// The text that stands first, of at most 2,048 bytes, if no token stands behind it. Its bytes move out of its token.
pub fn last_text(tokens: &mut [Token]) -> Result<Bytes, FaultKind>
    ensures { result ≡ spec.last_text (toks tokens.old) }
{
    let [first, ..] = tokens else {
        return Err(FaultKind::Missing);
    };
    let text = text_in(take_tok(first))?;
    end_at(behind(tokens, 1))?;
    Ok(text)
}

fn operand_in(tok: &Tok) -> Result<Operand, FaultKind>
    ensures { result ≡ given kind.Name (the_operand_of tok.now) }
{
    operand_of(tok).ok_or(FaultKind::Name)
}

/// The value that stands first: a number, a condition, a variable, R0, PID or PRM.
pub fn operand_at(tokens: &[Token]) -> Result<Operand, FaultKind>
    ensures { result ≡ spec.operand_at (toks tokens.now) }
{
    let [first, ..] = tokens else {
        return Err(FaultKind::Missing);
    };
    operand_in(&first.tok)
}

fn target_in(tok: &Tok) -> Result<Target, FaultKind>
    ensures { result ≡ spec.target_in tok.now }
{
    match tok {
        Tok::Word(word) => target_word(word.text()).ok_or(FaultKind::Name),
        _ => Err(FaultKind::Name),
    }
}

/// The variable, or R0, that stands first.
pub fn target_at(tokens: &[Token]) -> Result<Target, FaultKind>
    ensures { result ≡ spec.target_at (toks tokens.now) }
{
    let [first, ..] = tokens else {
        return Err(FaultKind::Missing);
    };
    target_in(&first.tok)
}
