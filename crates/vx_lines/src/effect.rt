//! Prints effects.
//!
//! Each function appends its text. If memory runs out, it may have appended the start of it.

ghost use Rattle.std.specs.Prelude.{◌≡◌, ◌++◌, ◌∷◌, [], map, OnOk};
ghost use Rattle.vx_base.specs.declared.effects.Effect.TheVariants as variant;
ghost use Rattle.vx_lines.specs.Records.{ended_lines, spaced, effect_words, effect_line};

use crate::effect_parts::{
    cond_text, mode_text, opened_name, print_body, print_cell, print_cluster, print_joined,
    print_of_id, print_of_name, print_of_pid, print_spaced, print_spaced_bit, print_spaced_id,
    print_spaced_num,
};
use vx_base::{Body, Bytes, Cell, Cond, Effect, Id, Mode, Name, NoMemory, Opened, Pid, Target};
use vx_table::{mode_name, print_target};
use vx_text::print_quote;

// OPEN, an id, what it is, its process, the mode and the number.
fn print_open(
    id: Id,
    kind: Opened,
    p: Pid,
    mode: Option<Mode>,
    n: u32,
    out: &mut Bytes,
) -> Result<(), NoMemory>
    ensures { OnOk result (out.new ≡ out.old ++ spaced (effect_words (variant.Open id kind p mode n))) }
{
    print_of_id(b"OPEN", id, out)?;
    print_spaced(opened_name(kind), out)?;
    print_spaced_num(p.0, out)?;
    print_spaced(mode_text(mode), out)?;
    print_spaced_num(n, out)
}

// FIN, an id and a condition.
fn print_fin(id: Id, cond: Cond, out: &mut Bytes) -> Result<(), NoMemory>
    ensures { OnOk result (out.new ≡ out.old ++ spaced (effect_words (variant.Fin id cond))) }
{
    print_of_id(b"FIN", id, out)?;
    print_spaced(cond.name().as_bytes(), out)
}

// FLAG, an event flag and its state.
fn print_flag(cell: &Cell, bit: bool, out: &mut Bytes) -> Result<(), NoMemory>
    ensures { OnOk result (out.new ≡ out.old ++ spaced (effect_words (variant.Flag cell.now bit))) }
{
    out.push_all(b" FLAG ")?;
    print_cell(cell, out)?;
    print_spaced_bit(bit, out)
}

// IOSB, a process, a status block, and the three fields.
fn print_iosb(
    p: Pid,
    i: u32,
    cond: Option<Cond>,
    count: u32,
    info: u32,
    out: &mut Bytes,
) -> Result<(), NoMemory>
    ensures { OnOk result (out.new ≡ out.old ++ spaced (effect_words (variant.Iosb p i cond count info))) }
{
    print_of_pid(b"IOSB", p, out)?;
    print_spaced_num(i, out)?;
    print_spaced(cond_text(cond), out)?;
    print_spaced_num(count, out)?;
    print_spaced_num(info, out)
}

// BUF, a process, a buffer and its quoted bytes.
fn print_buf(p: Pid, b: u32, bytes: &[u8], out: &mut Bytes) -> Result<(), NoMemory>
    ensures { OnOk result (out.new ≡ out.old ++ spaced (effect_words (variant.Buf p b bytes.now))) }
{
    print_of_pid(b"BUF", p, out)?;
    print_spaced_num(b, out)?;
    out.push_all(b" ")?;
    print_quote(out, bytes)
}

// VAR, a process, a variable and its value.
fn print_var(p: Pid, v: Target, n: u32, out: &mut Bytes) -> Result<(), NoMemory>
    ensures { OnOk result (out.new ≡ out.old ++ spaced (effect_words (variant.Var p v n))) }
{
    print_of_pid(b"VAR", p, out)?;
    out.push_all(b" ")?;
    print_target(v, out)?;
    print_spaced_num(n, out)
}

// MPUT, a mailbox, the id of a write and what is written.
fn print_put(name: &Name, id: Id, body: &Body, out: &mut Bytes) -> Result<(), NoMemory>
    ensures { OnOk result (out.new ≡ out.old ++ spaced (effect_words (variant.MPut name.now id body.now))) }
{
    print_of_name(b"MPUT", name, out)?;
    print_spaced_id(id, out)?;
    out.push_all(b" ")?;
    print_body(body, out)
}

// MGET, a mailbox, and the ids of a write and of a read.
fn print_get(name: &Name, w: Id, r: Id, out: &mut Bytes) -> Result<(), NoMemory>
    ensures { OnOk result (out.new ≡ out.old ++ spaced (effect_words (variant.MGet name.now w r))) }
{
    print_of_name(b"MGET", name, out)?;
    print_spaced_id(w, out)?;
    print_spaced_id(r, out)
}

// MCUT, a mailbox and the id of a write.
fn print_cut(name: &Name, w: Id, out: &mut Bytes) -> Result<(), NoMemory>
    ensures { OnOk result (out.new ≡ out.old ++ spaced (effect_words (variant.MCut name.now w))) }
{
    print_of_name(b"MCUT", name, out)?;
    print_spaced_id(w, out)
}

// MBX, a mailbox, and whether it is there.
fn print_mbx(name: &Name, bit: bool, out: &mut Bytes) -> Result<(), NoMemory>
    ensures { OnOk result (out.new ≡ out.old ++ spaced (effect_words (variant.Mbx name.now bit))) }
{
    print_of_name(b"MBX", name, out)?;
    print_spaced_bit(bit, out)
}

// CEF, a common cluster, and whether it is there.
fn print_cef(group: u32, name: &Name, bit: bool, out: &mut Bytes) -> Result<(), NoMemory>
    ensures { OnOk result (out.new ≡ out.old ++ spaced (effect_words (variant.Cef group name.now bit))) }
{
    out.push_all(b" CEF ")?;
    print_cluster(group, name, out)?;
    print_spaced_bit(bit, out)
}

// CLU, a process, the number of its cluster, and the common cluster.
fn print_clu(p: Pid, k: u32, cluster: &Option<(u32, Name)>, out: &mut Bytes) -> Result<(), NoMemory>
    ensures { OnOk result (out.new ≡ out.old ++ spaced (effect_words (variant.Clu p k cluster.now))) }
{
    print_of_pid(b"CLU", p, out)?;
    print_spaced_num(k, out)?;
    out.push_all(b" ")?;
    print_joined(cluster, out)
}

// ENB, a process, a mode, and whether ASTs are delivered.
fn print_enb(p: Pid, mode: Mode, bit: bool, out: &mut Bytes) -> Result<(), NoMemory>
    ensures { OnOk result (out.new ≡ out.old ++ spaced (effect_words (variant.Enb p mode bit))) }
{
    print_of_pid(b"ENB", p, out)?;
    print_spaced(mode_name(mode), out)?;
    print_spaced_bit(bit, out)
}

// NEW, a process and its name.
fn print_new(p: Pid, name: &Name, out: &mut Bytes) -> Result<(), NoMemory>
    ensures { OnOk result (out.new ≡ out.old ++ spaced (effect_words (variant.New p name.now))) }
{
    print_of_pid(b"NEW", p, out)?;
    print_spaced(name.text(), out)
}

// The words of an effect, each behind a space.
fn print_words(effect: &Effect, out: &mut Bytes) -> Result<(), NoMemory>
    ensures { OnOk result (out.new ≡ out.old ++ spaced (effect_words effect.now)) }
{
    match effect {
        Effect::Open {
            id,
            kind,
            p,
            mode,
            n,
        } => print_open(*id, *kind, *p, *mode, *n, out),
        Effect::Fin { id, cond } => print_fin(*id, *cond, out),
        Effect::Mark(id) => print_of_id(b"MARK", *id, out),
        Effect::Que(id) => print_of_id(b"QUE", *id, out),
        Effect::Fire(id) => print_of_id(b"FIRE", *id, out),
        Effect::Drop(id) => print_of_id(b"DROP", *id, out),
        Effect::Enter(id) => print_of_id(b"ENTER", *id, out),
        Effect::Leave(id) => print_of_id(b"LEAVE", *id, out),
        Effect::Flag { cell, bit } => print_flag(cell, *bit, out),
        Effect::Iosb {
            p,
            i,
            cond,
            count,
            info,
        } => print_iosb(*p, *i, *cond, *count, *info, out),
        Effect::Buf { p, b, bytes } => print_buf(*p, *b, bytes.as_slice(), out),
        Effect::Var { p, v, n } => print_var(*p, *v, *n, out),
        Effect::MPut { name, id, body } => print_put(name, *id, body, out),
        Effect::MGet { name, w, r } => print_get(name, *w, *r, out),
        Effect::MCut { name, w } => print_cut(name, *w, out),
        Effect::Mbx { name, bit } => print_mbx(name, *bit, out),
        Effect::Cef { group, name, bit } => print_cef(*group, name, *bit, out),
        Effect::Clu { p, k, cluster } => print_clu(*p, *k, cluster, out),
        Effect::Enb { p, mode, bit } => print_enb(*p, *mode, *bit, out),
        Effect::New { p, name } => print_new(*p, name, out),
        Effect::Gone(p) => print_of_pid(b"GONE", *p, out),
    }
}

/// Appends an effect, on its line.
pub fn print_effect(effect: &Effect, out: &mut Bytes) -> Result<(), NoMemory>
    ensures { OnOk result (out.new ≡ out.old ++ (effect_line effect.now ++ 10 ∷ [])) }
{
    print_words(effect, out)?;
    out.push_all(b"\n")
}

/// Appends effects, each on its line.
pub fn print_effects(effects: &[Effect], out: &mut Bytes) -> Result<(), NoMemory>
    ensures { OnOk result (out.new ≡ out.old ++ ended_lines (map effect_line effects.now)) }
{
    for effect in effects {
        print_effect(effect, out)?;
    }
    Ok(())
}
