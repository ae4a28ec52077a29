//! The statements of an image.

ghost use Rattle.std.specs.Prelude.{◌≡◌};
ghost use Rattle.vx_base.specs.Services.{service_rows};
ghost use Rattle.vx_table.specs.Reading.{toks, read_call, BeginsCall};
ghost use Rattle.vx_script.specs.Statements as spec;
ghost use Rattle.vx_script.specs.declared.fault.FaultKind.TheVariants as kind;

use crate::draft::Draft;
use crate::fault::FaultKind;
use crate::fields::{
    behind, behind_mut, end_at, is_sign, last_text, name_at, number_at, operand_at, sign_at,
    target_at, word_at,
};
use crate::services::Services;
use vx_base::{Name, Operand, Target};
use vx_image::{Field, Rel, Stmt};
use vx_table::CallFail;
use vx_text::{Tok, Token};

fn added(v: Target, x: Operand, tokens: &[Token]) -> Result<Draft, FaultKind>
    ensures { result ≡ spec.added v x (toks tokens.now) }
{
    let y = operand_at(tokens)?;
    end_at(behind(tokens, 1))?;
    Ok(Draft::Plain(Stmt::Add(v, x, y)))
}

fn subtracted(v: Target, x: Operand, tokens: &[Token]) -> Result<Draft, FaultKind>
    ensures { result ≡ spec.subtracted v x (toks tokens.now) }
{
    let y = operand_at(tokens)?;
    end_at(behind(tokens, 1))?;
    Ok(Draft::Plain(Stmt::Sub(v, x, y)))
}

// What stands behind the first value.
fn let_rest(v: Target, x: Operand, tokens: &[Token]) -> Result<Draft, FaultKind>
    ensures { result ≡ spec.let_rest v x (toks tokens.now) }
{
    let [sign, rest @ ..] = tokens else {
        return Ok(Draft::Plain(Stmt::Let(v, x)));
    };
    if is_sign(b'+', &sign.tok) {
        added(v, x, rest)
    } else if is_sign(b'-', &sign.tok) {
        subtracted(v, x, rest)
    } else {
        Err(FaultKind::Extra)
    }
}

// LET v = x, LET v = x + y and LET v = x - y.
#[tactic(auto, unfolding(crate::specs::Statements::let_stmt))]
fn let_stmt(tokens: &[Token]) -> Result<Draft, FaultKind>
    ensures { result ≡ spec.let_stmt (toks tokens.now) }
{
    let v = target_at(tokens)?;
    sign_at(b'=', behind(tokens, 1))?;
    let x = operand_at(behind(tokens, 2))?;
    let_rest(v, x, behind(tokens, 3))
}

// GOTO label.
#[tactic(auto, unfolding(crate::specs::Statements::goto_stmt))]
fn goto_stmt(tokens: &[Token]) -> Result<Draft, FaultKind>
    ensures { result ≡ spec.goto_stmt (toks tokens.now) }
{
    let label = name_at(tokens)?;
    end_at(behind(tokens, 1))?;
    Ok(Draft::Goto(label))
}

fn rel_word(word: &[u8]) -> Option<Rel>
    ensures { result ≡ spec.rel_word word.now }
{
    if word == b"EQ".as_slice() {
        Some(Rel::Eq)
    } else if word == b"NE".as_slice() {
        Some(Rel::Ne)
    } else if word == b"LT".as_slice() {
        Some(Rel::Lt)
    } else if word == b"GE".as_slice() {
        Some(Rel::Ge)
    } else {
        None
    }
}

fn rel_in(tok: &Tok) -> Option<Rel>
    ensures { result ≡ spec.rel_in tok.now }
{
    match tok {
        Tok::Word(word) => rel_word(word.text()),
        _ => None,
    }
}

fn rel_at(tokens: &[Token]) -> Result<Rel, FaultKind>
    ensures { result ≡ spec.rel_at (toks tokens.now) }
{
    let [first, ..] = tokens else {
        return Err(FaultKind::Missing);
    };
    rel_in(&first.tok).ok_or(FaultKind::Word)
}

// IF x EQ y GOTO label.
#[tactic(auto, unfolding(crate::specs::Statements::if_stmt))]
fn if_stmt(tokens: &[Token]) -> Result<Draft, FaultKind>
    ensures { result ≡ spec.if_stmt (toks tokens.now) }
{
    let x = operand_at(tokens)?;
    let rel = rel_at(behind(tokens, 1))?;
    let y = operand_at(behind(tokens, 2))?;
    word_at(b"GOTO", behind(tokens, 3))?;
    let label = name_at(behind(tokens, 4))?;
    end_at(behind(tokens, 5))?;
    Ok(Draft::If(x, rel, y, label))
}

// PUT b "text".
#[tactic(auto, unfolding(crate::specs::Statements::put_stmt))]
fn put_stmt(tokens: &mut [Token]) -> Result<Draft, FaultKind>
    ensures { result ≡ spec.put_stmt (toks tokens.old) }
{
    let b = number_at(0, 31, tokens)?;
    let bytes = last_text(behind_mut(tokens, 1))?;
    Ok(Draft::Plain(Stmt::Put(b as u8, bytes)))
}

// BYTE v b x.
#[tactic(auto, unfolding(crate::specs::Statements::byte_stmt))]
fn byte_stmt(tokens: &[Token]) -> Result<Draft, FaultKind>
    ensures { result ≡ spec.byte_stmt (toks tokens.now) }
{
    let v = target_at(tokens)?;
    let b = number_at(0, 31, behind(tokens, 1))?;
    let x = operand_at(behind(tokens, 2))?;
    end_at(behind(tokens, 3))?;
    Ok(Draft::Plain(Stmt::Byte(v, b as u8, x)))
}

fn field_word(word: &[u8]) -> Option<Field>
    ensures { result ≡ spec.field_word word.now }
{
    if word == b"STATUS".as_slice() {
        Some(Field::Status)
    } else if word == b"COUNT".as_slice() {
        Some(Field::Count)
    } else if word == b"INFO".as_slice() {
        Some(Field::Info)
    } else {
        None
    }
}

fn field_in(tok: &Tok) -> Option<Field>
    ensures { result ≡ spec.field_in tok.now }
{
    match tok {
        Tok::Word(word) => field_word(word.text()),
        _ => None,
    }
}

fn field_at(tokens: &[Token]) -> Result<Field, FaultKind>
    ensures { result ≡ spec.field_at (toks tokens.now) }
{
    let [first, ..] = tokens else {
        return Err(FaultKind::Missing);
    };
    field_in(&first.tok).ok_or(FaultKind::Word)
}

// IOSB v i STATUS.
#[tactic(auto, unfolding(crate::specs::Statements::iosb_stmt))]
fn iosb_stmt(tokens: &[Token]) -> Result<Draft, FaultKind>
    ensures { result ≡ spec.iosb_stmt (toks tokens.now) }
{
    let v = target_at(tokens)?;
    let i = number_at(1, 32, behind(tokens, 1))?;
    let field = field_at(behind(tokens, 2))?;
    end_at(behind(tokens, 3))?;
    Ok(Draft::Plain(Stmt::Iosb(v, i as u8, field)))
}

// RETURN.
#[tactic(auto, unfolding(crate::specs::Statements::return_stmt))]
fn return_stmt(tokens: &[Token]) -> Result<Draft, FaultKind>
    ensures { result ≡ spec.return_stmt (toks tokens.now) }
{
    end_at(tokens)?;
    Ok(Draft::Plain(Stmt::Return))
}

// A local statement, by its word.
#[tactic(auto, unfolding(crate::specs::Statements::local_stmt))]
fn local_stmt(word: Name, tokens: &mut [Token]) -> Result<Draft, FaultKind>
    ensures { result ≡ spec.local_stmt word (toks tokens.old) }
{
    let word = word.text();
    if word == b"LET".as_slice() {
        let_stmt(tokens)
    } else if word == b"GOTO".as_slice() {
        goto_stmt(tokens)
    } else if word == b"IF".as_slice() {
        if_stmt(tokens)
    } else if word == b"PUT".as_slice() {
        put_stmt(tokens)
    } else if word == b"BYTE".as_slice() {
        byte_stmt(tokens)
    } else if word == b"IOSB".as_slice() {
        iosb_stmt(tokens)
    } else if word == b"RETURN".as_slice() {
        return_stmt(tokens)
    } else {
        Err(FaultKind::Word)
    }
}

fn call_kind(fail: CallFail) -> FaultKind
    ensures { result ≡ spec.call_kind fail }
{
    match fail {
        CallFail::UnknownService => FaultKind::Service,
        CallFail::Argument(_) | CallFail::Missing(_) | CallFail::Extra => FaultKind::Argument,
    }
}

// A call of a service, which is the first token.
fn call_stmt(services: &Services, tokens: &[Token]) -> Result<Draft, FaultKind>
    requires { BeginsCall (toks tokens.now) }
    ensures { result ≡ spec.called (read_call service_rows (toks tokens.now)) }
{
    match services.read_call(tokens) {
        Ok(call) => Ok(Draft::Plain(Stmt::Service(call))),
        Err(fail) => Err(call_kind(fail)),
    }
}

/// The statement that tokens are. A quoted text moves out of its token.
pub fn stmt_of(services: &Services, tokens: &mut [Token]) -> Result<Draft, FaultKind>
    ensures { result ≡ spec.stmt_at (toks tokens.old) }
{
    let [first, ..] = &*tokens else {
        return Err(FaultKind::Word);
    };
    match &first.tok {
        Tok::Word(word) => local_stmt(*word, behind_mut(tokens, 1)),
        Tok::Service(_) => call_stmt(services, tokens),
        _ => Err(FaultKind::Word),
    }
}
