//! What stands behind a FIN in its record, and before an OPEN.

ghost use Rattle.std.specs.Prelude.{◌≡◌, List, Option as OptionOf, option_map, reverse};
ghost use Rattle.std.specs.List.{list_any};
ghost use Rattle.vx_laws.specs.Items.{Item, Calling, is_this_cond as is_this_cond_of};
ghost use Rattle.vx_laws.specs.Values.{is_cell as is_cell_of, is_beside as is_beside_of};
ghost use Rattle.vx_laws.specs.StatusLaw.{to_next_fin, is_iosb as is_iosb_of, is_flag as is_flag_of, only, is_iosb_with as is_iosb_with_of, is_flag_set as is_flag_set_of, is_cleared_iosb as is_cleared_iosb_of, tells_iosb as tells_iosb_of, tells_set as tells_set_of, tells_call as tells_call_of, clears_iosb as clears_iosb_of};
ghost use Rattle.vx_record.specs.Flags.{place_in};
ghost use Rattle.vx_judge.specs.Lists.{from_first};
ghost use Rattle.vx_judge.specs.Owing.{owed, AreJoined};

use crate::clusters::Clusters;
use crate::near::is_cond;
use crate::once::agree;
use crate::owed::Owed;
use vx_base::{Cell, Cond, Effect, Pid};

/// The effects before the first FIN.
pub fn to_next(effects: &[Effect]) -> &[Effect]
    ensures { result.now ≡ to_next_fin effects.now }
{
    for (i, effect) in effects.iter().enumerate() {
        match effect {
            Effect::Fin { .. } => return &effects[..i],
            _ => (),
        }
    }
    effects
}

fn is_iosb(effect: &Effect) -> bool
    ensures { result ≡ is_iosb_of effect.now }
{
    match effect {
        Effect::Iosb { .. } => true,
        _ => false,
    }
}

fn is_flag(effect: &Effect) -> bool
    ensures { result ≡ is_flag_of effect.now }
{
    match effect {
        Effect::Flag { .. } => true,
        _ => false,
    }
}

// From the first that writes a status block on.
fn from_iosb(effects: &[Effect]) -> &[Effect]
    ensures { result.now ≡ from_first is_iosb_of effects.now }
{
    for (i, effect) in effects.iter().enumerate() {
        if is_iosb(effect) {
            return &effects[i..];
        }
    }
    &effects[effects.len()..]
}

// From the first that touches a flag on.
fn from_flag(effects: &[Effect]) -> &[Effect]
    ensures { result.now ≡ from_first is_flag_of effects.now }
{
    for (i, effect) in effects.iter().enumerate() {
        if is_flag(effect) {
            return &effects[i..];
        }
    }
    &effects[effects.len()..]
}

fn any_iosb(effects: &[Effect]) -> bool
    ensures { result ≡ list_any is_iosb_of effects.now }
{
    effects.iter().any(|effect| is_iosb(effect))
}

fn any_flag(effects: &[Effect]) -> bool
    ensures { result ≡ list_any is_flag_of effects.now }
{
    effects.iter().any(|effect| is_flag(effect))
}

/// Whether the conditions are one.
pub fn is_this_cond(c: Cond, cond: Option<Cond>) -> bool
    ensures { result ≡ is_this_cond_of c cond }
{
    match cond {
        Some(d) => is_cond(c, d),
        None => false,
    }
}

// It fills this status block with this condition.
fn is_iosb_with(p: Pid, i: u32, c: Cond, effect: &Effect) -> bool
    ensures { result ≡ is_iosb_with_of p i c effect.now }
{
    match effect {
        Effect::Iosb {
            p: q,
            i: j,
            cond,
            ..
        } => { q.0 == p.0 && *j == i && is_this_cond(c, *cond) }
        _ => false,
    }
}

// It clears this status block.
fn is_cleared_iosb(p: Pid, i: u32, effect: &Effect) -> bool
    ensures { result ≡ is_cleared_iosb_of p i effect.now }
{
    match effect {
        Effect::Iosb {
            p: q,
            i: j,
            cond: None,
            count,
            info,
        } => q.0 == p.0 && *j == i && *count == 0 && *info == 0,
        _ => false,
    }
}

/// Whether the flags are of one cluster.
pub fn is_beside(c: &Cell, d: &Cell) -> bool
    ensures { result ≡ is_beside_of c.now d.now }
{
    match c {
        Cell::Local(p, m) => match d {
            Cell::Local(q, n) => p.0 == q.0 && agree(*m < 32, *n < 32),
            Cell::Common(..) => false,
        },
        Cell::Common(g, a, _) => match d {
            Cell::Common(h, b, _) => *g == *h && *a == *b,
            Cell::Local(..) => false,
        },
    }
}

/// A flag's place in its cluster.
pub fn place_of(c: &Cell) -> u32
    ensures { result ≡ place_in c.now }
{
    match c {
        Cell::Local(_, n) => *n % 32,
        Cell::Common(_, _, n) => *n,
    }
}

fn is_cell(c: &Cell, d: &Cell) -> bool
    ensures { result ≡ is_cell_of c.now d.now }
{
    is_beside(c, d) && place_of(c) == place_of(d)
}

// It sets this flag.
fn is_flag_set(c: &Cell, effect: &Effect) -> bool
    ensures { result ≡ is_flag_set_of c.now effect.now }
{
    match effect {
        Effect::Flag { cell, bit } => *bit && is_cell(cell, c),
        _ => false,
    }
}

// One status block is written: this one, with the condition.
fn is_only_iosb(p: Pid, i: u32, c: Cond, effects: &[Effect]) -> bool
    ensures { result ≡ only is_iosb_of (is_iosb_with_of p i c) effects.now }
{
    match from_iosb(effects).split_first() {
        Some((effect, more)) => is_iosb_with(p, i, c, effect) && !any_iosb(more),
        None => false,
    }
}

// One status block is written: this one is cleared.
fn is_only_cleared(p: Pid, i: u32, effects: &[Effect]) -> bool
    ensures { result ≡ only is_iosb_of (is_cleared_iosb_of p i) effects.now }
{
    match from_iosb(effects).split_first() {
        Some((effect, more)) => is_cleared_iosb(p, i, effect) && !any_iosb(more),
        None => false,
    }
}

// One flag is touched: this one is set.
fn is_only_flag(c: &Cell, effects: &[Effect]) -> bool
    ensures { result ≡ only is_flag_of (is_flag_set_of c.now) effects.now }
{
    match from_flag(effects).split_first() {
        Some((effect, more)) => is_flag_set(c, effect) && !any_flag(more),
        None => false,
    }
}

// The status block is written with the condition, and no other.
fn tells_iosb(p: Pid, i: u32, c: Cond, effects: &[Effect]) -> bool
    ensures { result ≡ tells_iosb_of p i c effects.now }
{
    if i == 0 {
        !any_iosb(effects)
    } else {
        is_only_iosb(p, i, c, effects)
    }
}

// The flag is set, and no other.
fn tells_set(cell: Option<Cell>, effects: &[Effect]) -> bool
    ensures { result ≡ tells_set_of cell effects.now }
{
    match cell {
        None => !any_flag(effects),
        Some(c) => is_only_flag(&c, effects),
    }
}

/// Whether what stands behind a FIN is what the completion owes.
pub fn tells_call(clusters: &Clusters, owes: Option<Owed>, c: Cond, later: &[Effect]) -> bool
    ensures { (past : List Item) (full : OptionOf Calling) → AreJoined clusters.now past → owes ≡ option_map owed full → result ≡ tells_call_of past c (to_next_fin later.now) full }
{
    let effects = to_next(later);
    match owes {
        None => false,
        Some(o) => {
            tells_iosb(o.p, o.iosb, c, effects) && tells_set(clusters.cell(o.p, o.efn), effects)
        }
    }
}

/// Whether the status block that a call names is cleared before its OPEN, and no other.
#[tactic(auto, using(crate::proofs::OneOf::none_before))]
pub fn clears_iosb(owes: Option<Owed>, earlier: &[Effect]) -> bool
    ensures { (full : OptionOf Calling) → owes ≡ option_map owed full → result ≡ clears_iosb_of (reverse earlier.now) full }
{
    match owes {
        None => false,
        Some(o) => {
            if o.iosb == 0 {
                !any_iosb(earlier)
            } else {
                is_only_cleared(o.p, o.iosb, earlier)
            }
        }
    }
}
