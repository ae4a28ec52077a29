//! Reads effects.

ghost use Rattle.std.specs.Prelude.{◌≡◌, ◌<◌, ◌≤◌, IfOk, length};
ghost use Rattle.vx_lines.specs.ReadEffect as spec;

use crate::effect::print_effect;
use crate::fields::{
    bit_of, cell_of, cluster_of, cluster_or_none, common_number, cond_of, cond_or_none, id_of,
    kind_of, mode_or_none, name_of, number_of, pid_of, text_of,
};
use crate::words::{
    behind_word, fifth_word, first_word, fourth_word, is_word, len_before, second_word, sixth_word,
    third_word,
};
use std::alloc::Global;
use vx_base::{Body, Bytes, Effect, NoMemory};
use vx_table::{mode_word, target_word};

fn open_in(line: &[u8]) -> Option<Effect>
    ensures { result ≡ spec.open_in line.now }
{
    let id = id_of(second_word(line))?;
    let kind = kind_of(third_word(line))?;
    let p = pid_of(fourth_word(line))?;
    let mode = mode_or_none(fifth_word(line))?;
    let n = number_of(sixth_word(line))?;
    Some(Effect::Open {
        id,
        kind,
        p,
        mode,
        n,
    })
}

fn fin_in(line: &[u8]) -> Option<Effect>
    ensures { result ≡ spec.fin_in line.now }
{
    let id = id_of(second_word(line))?;
    let cond = cond_of(third_word(line))?;
    Some(Effect::Fin { id, cond })
}

fn only_id(word: &[u8], line: &[u8]) -> Option<Effect>
    ensures { result ≡ spec.only_id word.now line.now }
{
    let id = id_of(second_word(line));
    if is_word(word, b"MARK") {
        id.map(Effect::Mark)
    } else if is_word(word, b"QUE") {
        id.map(Effect::Que)
    } else if is_word(word, b"FIRE") {
        id.map(Effect::Fire)
    } else if is_word(word, b"DROP") {
        id.map(Effect::Drop)
    } else if is_word(word, b"ENTER") {
        id.map(Effect::Enter)
    } else if is_word(word, b"LEAVE") {
        id.map(Effect::Leave)
    } else {
        None
    }
}

fn of_id(word: &[u8], line: &[u8]) -> Option<Effect>
    ensures { result ≡ spec.of_id word.now line.now }
{
    if is_word(word, b"OPEN") {
        open_in(line)
    } else if is_word(word, b"FIN") {
        fin_in(line)
    } else {
        only_id(word, line)
    }
}

fn flag_in(line: &[u8]) -> Option<Effect>
    ensures { result ≡ spec.flag_in line.now }
{
    let cell = cell_of(second_word(line))?;
    let bit = bit_of(third_word(line))?;
    Some(Effect::Flag { cell, bit })
}

fn cef_in(line: &[u8]) -> Option<Effect>
    ensures { result ≡ spec.cef_in line.now }
{
    let (group, name) = cluster_of(second_word(line))?;
    let bit = bit_of(third_word(line))?;
    Some(Effect::Cef { group, name, bit })
}

fn clu_in(line: &[u8]) -> Option<Effect>
    ensures { result ≡ spec.clu_in line.now }
{
    let p = pid_of(second_word(line))?;
    let k = common_number(third_word(line))?;
    let cluster = cluster_or_none(fourth_word(line))?;
    Some(Effect::Clu { p, k, cluster })
}

fn of_flags(word: &[u8], line: &[u8]) -> Option<Effect>
    ensures { result ≡ spec.of_flags word.now line.now }
{
    if is_word(word, b"FLAG") {
        flag_in(line)
    } else if is_word(word, b"CEF") {
        cef_in(line)
    } else if is_word(word, b"CLU") {
        clu_in(line)
    } else {
        of_id(word, line)
    }
}

fn iosb_in(line: &[u8]) -> Option<Effect>
    ensures { result ≡ spec.iosb_in line.now }
{
    let p = pid_of(second_word(line))?;
    let i = number_of(third_word(line))?;
    let cond = cond_or_none(fourth_word(line))?;
    let count = number_of(fifth_word(line))?;
    let info = number_of(sixth_word(line))?;
    Some(Effect::Iosb {
        p,
        i,
        cond,
        count,
        info,
    })
}

fn var_in(line: &[u8]) -> Option<Effect>
    ensures { result ≡ spec.var_in line.now }
{
    let p = pid_of(second_word(line))?;
    let v = target_word(third_word(line))?;
    let n = number_of(fourth_word(line))?;
    Some(Effect::Var { p, v, n })
}

fn enb_in(line: &[u8]) -> Option<Effect>
    ensures { result ≡ spec.enb_in line.now }
{
    let p = pid_of(second_word(line))?;
    let mode = mode_word(third_word(line))?;
    let bit = bit_of(fourth_word(line))?;
    Some(Effect::Enb { p, mode, bit })
}

fn new_in(line: &[u8]) -> Option<Effect>
    ensures { result ≡ spec.new_in line.now }
{
    let p = pid_of(second_word(line))?;
    let name = name_of(third_word(line))?;
    Some(Effect::New { p, name })
}

fn of_pid(word: &[u8], line: &[u8]) -> Option<Effect>
    ensures { result ≡ spec.of_pid word.now line.now }
{
    if is_word(word, b"IOSB") {
        iosb_in(line)
    } else if is_word(word, b"VAR") {
        var_in(line)
    } else if is_word(word, b"ENB") {
        enb_in(line)
    } else if is_word(word, b"NEW") {
        new_in(line)
    } else if is_word(word, b"GONE") {
        pid_of(second_word(line)).map(Effect::Gone)
    } else {
        of_flags(word, line)
    }
}

fn get_in(line: &[u8]) -> Option<Effect>
    ensures { result ≡ spec.get_in line.now }
{
    let name = name_of(second_word(line))?;
    let w = id_of(third_word(line))?;
    let r = id_of(fourth_word(line))?;
    Some(Effect::MGet { name, w, r })
}

fn cut_in(line: &[u8]) -> Option<Effect>
    ensures { result ≡ spec.cut_in line.now }
{
    let name = name_of(second_word(line))?;
    let w = id_of(third_word(line))?;
    Some(Effect::MCut { name, w })
}

fn mbx_in(line: &[u8]) -> Option<Effect>
    ensures { result ≡ spec.mbx_in line.now }
{
    let name = name_of(second_word(line))?;
    let bit = bit_of(third_word(line))?;
    Some(Effect::Mbx { name, bit })
}

fn of_box(word: &[u8], line: &[u8]) -> Option<Effect>
    ensures { result ≡ spec.of_box word.now line.now }
{
    if is_word(word, b"MGET") {
        get_in(line)
    } else if is_word(word, b"MCUT") {
        cut_in(line)
    } else if is_word(word, b"MBX") {
        mbx_in(line)
    } else {
        of_pid(word, line)
    }
}

fn behind_three(line: &[u8]) -> &[u8]
    ensures text { result.now ≡ spec.behind_three line.now }
    ensures within { length result.now ≤ length line.now }
{
    behind_word(behind_word(behind_word(line)))
}

fn buf_in(line: &[u8], text: Option<Bytes>) -> Option<Effect>
    ensures { result ≡ spec.buf_in line.now text }
{
    let p = pid_of(second_word(line))?;
    let b = number_of(third_word(line))?;
    let bytes = text?;
    Some(Effect::Buf { p, b, bytes })
}

fn body_of(alloc: Global, line: &[u8]) -> Result<Option<Body>, NoMemory>
    requires { length line.now < 4294967295 }
    ensures { IfOk result (λ body. body ≡ spec.body_of line.now) }
{
    if is_word(line, b" EOF") {
        return Ok(Some(Body::Eof));
    }
    Ok(text_of(alloc, line)?.map(Body::Text))
}

fn put_in(line: &[u8], body: Option<Body>) -> Option<Effect>
    ensures { result ≡ spec.put_in line.now body }
{
    let name = name_of(second_word(line))?;
    let id = id_of(third_word(line))?;
    let body = body?;
    Some(Effect::MPut { name, id, body })
}

fn with_bytes(alloc: Global, word: &[u8], line: &[u8]) -> Result<Option<Effect>, NoMemory>
    requires { length line.now < 4294967295 }
    ensures { IfOk result (λ effect. effect ≡ spec.with_bytes word.now line.now) }
{
    if is_word(word, b"BUF") {
        Ok(buf_in(line, text_of(alloc, behind_three(line))?))
    } else if is_word(word, b"MPUT") {
        Ok(put_in(line, body_of(alloc, behind_three(line))?))
    } else {
        Ok(of_box(word, line))
    }
}

fn effect_of(alloc: Global, line: &[u8]) -> Result<Option<Effect>, NoMemory>
    requires { length line.now < 4294967295 }
    ensures { IfOk result (λ effect. effect ≡ spec.effect_of line.now) }
{
    with_bytes(alloc, first_word(line), line)
}

/// A line without its line feed.
pub fn unfed(line: &[u8]) -> &[u8]
    ensures text { result.now ≡ spec.unfed line.now }
    ensures within { length result.now ≤ length line.now }
{
    &line[..len_before(b'\n', line)]
}

fn if_spelled(alloc: Global, line: &[u8], effect: Effect) -> Result<Option<Effect>, NoMemory>
    ensures { IfOk result (λ read. read ≡ spec.if_spelled line.now effect) }
{
    let mut text = Bytes::new(alloc);
    print_effect(&effect, &mut text)?;
    if text.as_slice() == line {
        Ok(Some(effect))
    } else {
        Ok(None)
    }
}

/// The effect that a line with its line feed spells, and None if it spells none.
#[tactic(auto, unfolding(crate::specs::ReadEffect::read_effect))]
pub fn read_effect(alloc: Global, line: &[u8]) -> Result<Option<Effect>, NoMemory>
    requires { length line.now < 4294967295 }
    ensures { IfOk result (λ effect. effect ≡ spec.read_effect line.now) }
{
    match effect_of(alloc, unfed(line))? {
        Some(effect) => if_spelled(alloc, line, effect),
        None => Ok(None),
    }
}
