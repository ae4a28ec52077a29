//! Whether two records are the same.

ghost use Rattle.std.specs.Prelude.{◌≡◌, ◌↔◌, IsTrue};

use vx_base::{Answer, Effect, Rec};

/// Whether two effects are the same: of one kind, with the same fields.
fn same_effect(a: &Effect, b: &Effect) -> bool
    ensures { IsTrue result ↔ (a.now ≡ b.now) }
{
    match (a, b) {
        (
            Effect::Open {
                id,
                kind,
                p,
                mode,
                n,
            },
            Effect::Open {
                id: other_id,
                kind: other_kind,
                p: other_p,
                mode: other_mode,
                n: other_n,
            },
        ) => {
            id == other_id
                && kind == other_kind
                && p == other_p
                && mode == other_mode
                && n == other_n
        }
        (
            Effect::Fin { id, cond },
            Effect::Fin {
                id: other_id,
                cond: other_cond,
            },
        ) => id == other_id && cond == other_cond,
        (Effect::Mark(id), Effect::Mark(other_id)) => id == other_id,
        (Effect::Que(id), Effect::Que(other_id)) => id == other_id,
        (Effect::Fire(id), Effect::Fire(other_id)) => id == other_id,
        (Effect::Drop(id), Effect::Drop(other_id)) => id == other_id,
        (Effect::Enter(id), Effect::Enter(other_id)) => id == other_id,
        (Effect::Leave(id), Effect::Leave(other_id)) => id == other_id,
        (
            Effect::Flag { cell, bit },
            Effect::Flag {
                cell: other_cell,
                bit: other_bit,
            },
        ) => cell == other_cell && bit == other_bit,
        (
            Effect::Iosb {
                p,
                i,
                cond,
                count,
                info,
            },
            Effect::Iosb {
                p: other_p,
                i: other_i,
                cond: other_cond,
                count: other_count,
                info: other_info,
            },
        ) => {
            p == other_p
                && i == other_i
                && cond == other_cond
                && count == other_count
                && info == other_info
        }
        (
            Effect::Buf { p, b, bytes },
            Effect::Buf {
                p: other_p,
                b: other_b,
                bytes: other_bytes,
            },
        ) => p == other_p && b == other_b && bytes == other_bytes,
        (
            Effect::Var { p, v, n },
            Effect::Var {
                p: other_p,
                v: other_v,
                n: other_n,
            },
        ) => p == other_p && v == other_v && n == other_n,
        (
            Effect::MPut { name, id, body },
            Effect::MPut {
                name: other_name,
                id: other_id,
                body: other_body,
            },
        ) => name == other_name && id == other_id && body == other_body,
        (
            Effect::MGet { name, w, r },
            Effect::MGet {
                name: other_name,
                w: other_w,
                r: other_r,
            },
        ) => name == other_name && w == other_w && r == other_r,
        (
            Effect::MCut { name, w },
            Effect::MCut {
                name: other_name,
                w: other_w,
            },
        ) => name == other_name && w == other_w,
        (
            Effect::Mbx { name, bit },
            Effect::Mbx {
                name: other_name,
                bit: other_bit,
            },
        ) => name == other_name && bit == other_bit,
        (
            Effect::Cef { group, name, bit },
            Effect::Cef {
                group: other_group,
                name: other_name,
                bit: other_bit,
            },
        ) => group == other_group && name == other_name && bit == other_bit,
        (
            Effect::Clu { p, k, cluster },
            Effect::Clu {
                p: other_p,
                k: other_k,
                cluster: other_cluster,
            },
        ) => p == other_p && k == other_k && cluster == other_cluster,
        (
            Effect::Enb { p, mode, bit },
            Effect::Enb {
                p: other_p,
                mode: other_mode,
                bit: other_bit,
            },
        ) => p == other_p && mode == other_mode && bit == other_bit,
        (
            Effect::New { p, name },
            Effect::New {
                p: other_p,
                name: other_name,
            },
        ) => p == other_p && name == other_name,
        (Effect::Gone(p), Effect::Gone(other_p)) => p == other_p,
        _ => false,
    }
}

fn same_effects(a: &[Effect], b: &[Effect]) -> bool
    ensures { IsTrue result ↔ (a.now ≡ b.now) }
{
    if a.len() != b.len() {
        return false;
    }
    for (i, effect) in a.iter().enumerate() {
        if !same_effect(effect, &b[i]) {
            return false;
        }
    }
    true
}

fn same_answer(a: &Answer, b: &Answer) -> bool
    ensures { IsTrue result ↔ (a.now ≡ b.now) }
{
    match (a, b) {
        (Answer::Service(call, cond), Answer::Service(other_call, other_cond)) => {
            call.same(other_call) && cond == other_cond
        }
        (Answer::Wait(call), Answer::Wait(other_call)) => call.same(other_call),
        (Answer::Resume(cond), Answer::Resume(other_cond)) => cond == other_cond,
        (Answer::Return, Answer::Return)
        | (Answer::End, Answer::End)
        | (Answer::Local, Answer::Local)
        | (Answer::Handler, Answer::Handler)
        | (Answer::Busy, Answer::Busy)
        | (Answer::Gone, Answer::Gone) => true,
        (Answer::Ast(id), Answer::Ast(other_id)) | (Answer::Unit(id), Answer::Unit(other_id)) => {
            id == other_id
        }
        (Answer::Time(time), Answer::Time(other_time)) => time == other_time,
        _ => false,
    }
}

/// Whether two records are the same: of one event, one answer and the same effects in order. Takes no memory.
pub fn same_rec(a: &Rec, b: &Rec) -> bool
    ensures { IsTrue result ↔ (a.now ≡ b.now) }
{
    a.event == b.event
        && same_answer(&a.answer, &b.answer)
        && same_effects(a.effects.as_slice(), b.effects.as_slice())
}
