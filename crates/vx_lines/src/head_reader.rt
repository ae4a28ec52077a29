//! Reads the heads of records.

ghost use Rattle.std.specs.Prelude.{◌≡◌, ◌<◌, ◌≤◌, IfOk, Ok, length};
ghost use Rattle.std.specs.List.{list_all};
ghost use Rattle.vx_base.specs.Services.{args_list, service_rows};
ghost use Rattle.vx_table.specs.Reading.{BeginsCall, read_call, toks};
ghost use Rattle.vx_lines.specs.ReadHead as spec;

use crate::effect_reader::unfed;
use crate::fields::{cond_of, id_of, pid_of, unit_of};
use crate::number::value_up_to;
use crate::print::print_head;
use crate::words::{
    before_last, behind_word, first_word, fourth_word, from_space, is_word, last_word, second_word,
    third_word,
};
use std::alloc::Global;
use vx_base::{Answer, Arg, Args, Bytes, Call, EffectList, Event, NoMemory, Operand, Rec};
use vx_image::UnitDecl;
use vx_table::ServiceTable;
use vx_text::{LexFail, Tok, Token, tokens};

fn is_plain(arg: &Arg) -> bool
    ensures { result ≡ spec.is_plain arg.now }
{
    match arg {
        Arg::Value(Operand::Num(_)) => true,
        Arg::Value(_) => false,
        _ => true,
    }
}

fn are_plain(args: &Args) -> bool
    ensures { result ≡ list_all spec.is_plain (args_list args.now) }
{
    is_plain(&args.a0)
        && is_plain(&args.a1)
        && is_plain(&args.a2)
        && is_plain(&args.a3)
        && is_plain(&args.a4)
        && is_plain(&args.a5)
        && is_plain(&args.a6)
        && is_plain(&args.a7)
        && is_plain(&args.a8)
}

fn read_plain(table: &ServiceTable<36>, tokens: &[Token]) -> Option<Call>
    requires rows { table.now ≡ service_rows }
    requires begins { BeginsCall (toks tokens.now) }
    ensures { result ≡ spec.if_plain (read_call service_rows (toks tokens.now)) }
{
    match table.read_call(tokens) {
        Ok(call) if are_plain(&call.args) => Some(call),
        _ => None,
    }
}

fn call_among(table: &ServiceTable<36>, tokens: &[Token]) -> Option<Call>
    requires { table.now ≡ service_rows }
    ensures { result ≡ spec.call_among (Ok (toks tokens.now)) }
{
    let [first, ..] = tokens else {
        return None;
    };
    match &first.tok {
        Tok::Service(_) => read_plain(table, tokens),
        _ => None,
    }
}

fn call_of(alloc: Global, table: &ServiceTable<36>, line: &[u8]) -> Result<Option<Call>, NoMemory>
    requires rows { table.now ≡ service_rows }
    requires short { length line.now < 4294967295 }
    ensures { IfOk result (λ call. call ≡ spec.call_of line.now) }
{
    match tokens(alloc, line) {
        Ok(tokens) => Ok(call_among(table, &tokens)),
        Err(LexFail::NoMemory) => Err(NoMemory),
        Err(_) => Ok(None),
    }
}

fn served(call: Option<Call>, word: &[u8]) -> Option<Answer>
    ensures { result ≡ spec.served_by call word.now }
{
    let call = call?;
    if is_word(word, b"WAIT") {
        return Some(Answer::Wait(call));
    }
    let cond = cond_of(word)?;
    Some(Answer::Service(call, cond))
}

fn served_in(
    alloc: Global,
    table: &ServiceTable<36>,
    call: &[u8],
    word: &[u8],
) -> Result<Option<Answer>, NoMemory>
    requires rows { table.now ≡ service_rows }
    requires short { length call.now < 4294967295 }
    ensures { IfOk result (λ answer. answer ≡ spec.served_in call.now word.now) }
{
    Ok(served(call_of(alloc, table, call)?, word))
}

fn ran_in(
    alloc: Global,
    table: &ServiceTable<36>,
    word: &[u8],
    line: &[u8],
) -> Result<Option<Answer>, NoMemory>
    requires rows { table.now ≡ service_rows }
    requires short { length line.now < 4294967295 }
    ensures { IfOk result (λ answer. answer ≡ spec.ran_in word.now line.now) }
{
    if is_word(word, b"RESUME") {
        Ok(cond_of(fourth_word(line)).map(Answer::Resume))
    } else if is_word(word, b"RETURN") {
        Ok(Some(Answer::Return))
    } else if is_word(word, b"END") {
        Ok(Some(Answer::End))
    } else if is_word(word, b"LOCAL") {
        Ok(Some(Answer::Local))
    } else {
        let call = before_last(behind_word(behind_word(line)));
        served_in(alloc, table, call, last_word(line))
    }
}

fn down_in(word: &[u8]) -> Option<Answer>
    ensures { result ≡ spec.down_in word.now }
{
    if is_word(word, b"HANDLER") {
        Some(Answer::Handler)
    } else if is_word(word, b"BUSY") {
        Some(Answer::Busy)
    } else if is_word(word, b"GONE") {
        Some(Answer::Gone)
    } else {
        None
    }
}

fn as_head(alloc: Global, event: Event, answer: Answer) -> Rec
    ensures { result ≡ spec.as_head event answer }
{
    Rec {
        event,
        answer,
        effects: EffectList::new(alloc),
    }
}

fn with_event(alloc: Global, event: Event, answer: Option<Answer>) -> Option<Rec>
    ensures { result ≡ spec.with_event event answer }
{
    Some(as_head(alloc, event, answer?))
}

fn run_in(alloc: Global, table: &ServiceTable<36>, line: &[u8]) -> Result<Option<Rec>, NoMemory>
    requires rows { table.now ≡ service_rows }
    requires short { length line.now < 4294967295 }
    ensures { IfOk result (λ rec. rec ≡ spec.run_in line.now) }
{
    let Some(p) = pid_of(second_word(line)) else {
        return Ok(None);
    };
    let answer = ran_in(alloc, table, third_word(line), line)?;
    Ok(with_event(alloc, Event::Run(p), answer))
}

fn ast_in(alloc: Global, line: &[u8]) -> Option<Rec>
    ensures { result ≡ spec.ast_in line.now }
{
    let p = pid_of(second_word(line))?;
    let id = id_of(third_word(line))?;
    Some(as_head(alloc, Event::Ast(p), Answer::Ast(id)))
}

fn rdn_in(alloc: Global, line: &[u8]) -> Option<Rec>
    ensures { result ≡ spec.rdn_in line.now }
{
    let p = pid_of(second_word(line))?;
    with_event(alloc, Event::Rdn(p), down_in(third_word(line)))
}

fn beg_in(alloc: Global, units: &[UnitDecl], line: &[u8]) -> Option<Rec>
    requires { length units.now ≤ 32 }
    ensures { result ≡ spec.beg_in units.now line.now }
{
    let u = unit_of(units, second_word(line))?;
    let id = id_of(third_word(line))?;
    Some(as_head(alloc, Event::Beg(u), Answer::Unit(id)))
}

fn don_in(alloc: Global, units: &[UnitDecl], line: &[u8]) -> Option<Rec>
    requires { length units.now ≤ 32 }
    ensures { result ≡ spec.don_in units.now line.now }
{
    let u = unit_of(units, second_word(line))?;
    let id = id_of(third_word(line))?;
    Some(as_head(alloc, Event::Don(u), Answer::Unit(id)))
}

fn tick_in(alloc: Global, line: &[u8]) -> Option<Rec>
    ensures { result ≡ spec.tick_in line.now }
{
    let time = value_up_to(18_446_744_073_709_551_615, second_word(line))?;
    Some(as_head(alloc, Event::Tick, Answer::Time(time)))
}

fn other_head(alloc: Global, units: &[UnitDecl], word: &[u8], line: &[u8]) -> Option<Rec>
    requires { length units.now ≤ 32 }
    ensures { result ≡ spec.other_head units.now word.now line.now }
{
    if is_word(word, b"AST") {
        ast_in(alloc, line)
    } else if is_word(word, b"RDN") {
        rdn_in(alloc, line)
    } else if is_word(word, b"BEG") {
        beg_in(alloc, units, line)
    } else if is_word(word, b"DON") {
        don_in(alloc, units, line)
    } else if is_word(word, b"TICK") {
        tick_in(alloc, line)
    } else {
        None
    }
}

fn head_of(
    alloc: Global,
    table: &ServiceTable<36>,
    units: &[UnitDecl],
    line: &[u8],
) -> Result<Option<Rec>, NoMemory>
    requires rows { table.now ≡ service_rows }
    requires few { length units.now ≤ 32 }
    requires short { length line.now < 4294967295 }
    ensures { IfOk result (λ rec. rec ≡ spec.head_of units.now line.now) }
{
    let word = first_word(line);
    if is_word(word, b"RUN") {
        run_in(alloc, table, line)
    } else {
        Ok(other_head(alloc, units, word, line))
    }
}

fn if_head(
    alloc: Global,
    units: &[UnitDecl],
    n: u64,
    line: &[u8],
    rec: Rec,
) -> Result<Option<Rec>, NoMemory>
    ensures { IfOk result (λ read. read ≡ spec.if_head units.now n line.now rec) }
{
    let mut text = Bytes::new(alloc);
    print_head(units, n, &rec, &mut text)?;
    if text.as_slice() == line {
        Ok(Some(rec))
    } else {
        Ok(None)
    }
}

/// The record, without effects, whose head a line with its line feed spells with number n, and None if it spells none.
#[tactic(auto, unfolding(crate::specs::ReadHead::read_head))]
pub fn read_head(
    alloc: Global,
    table: &ServiceTable<36>,
    units: &[UnitDecl],
    n: u64,
    line: &[u8],
) -> Result<Option<Rec>, NoMemory>
    requires rows { table.now ≡ service_rows }
    requires few { length units.now ≤ 32 }
    requires short { length line.now < 4294967295 }
    ensures { IfOk result (λ rec. rec ≡ spec.read_head units.now n line.now) }
{
    match head_of(alloc, table, units, from_space(unfed(line)))? {
        Some(rec) => if_head(alloc, units, n, line, rec),
        None => Ok(None),
    }
}
