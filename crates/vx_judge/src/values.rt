//! The values of flags and status blocks, at a position and behind more effects.

ghost use Rattle.std.specs.Prelude.{◌≡◌, List, [], ◌∷◌, OnOk, IfSome, map, ◌<◌};
ghost use Rattle.vx_laws.specs.Items.{Item, Did, later};
ghost use Rattle.vx_laws.specs.Values.{cell_by, cluster_by, flags_by, status_by, is_of_cluster as is_of_cluster_of, flags_hold as flags_hold_of, is_synchronized as is_synchronized_of, satisfied_by};
ghost use Rattle.vx_record.specs.Flags.{place_in, is_filled, normal_if as normal_if_of};
ghost use Rattle.vx_judge.specs.Owing.{AreJoined};
ghost use Rattle.vx_judge.specs.Words.{IsWord};

use crate::behind::{is_beside, place_of};
use crate::bits::{CLEAR, all_set, any_set, is_set, with_flag};
use crate::blocks::Blocks;
use crate::cells::Cells;
use crate::clusters::Clusters;
use crate::word::Word;
use std::alloc::Global;
use vx_base::{Cell, Cond, Effect, Name, NoMemory, Pid, Wait};

// A process's cluster behind one more effect.
fn cluster_after(
    cluster: Option<(u32, Name)>,
    p: Pid,
    k: u32,
    effect: &Effect,
) -> Option<(u32, Name)>
    ensures { (past : List Item) → cluster ≡ cluster_by past p k → result ≡ cluster_by (Did effect.now ∷ past) p k }
{
    match effect {
        Effect::Clu {
            p: q,
            k: j,
            cluster: new,
        } => { if q.0 == p.0 && *j == k { *new } else { cluster } }
        _ => cluster,
    }
}

// A process's cluster behind more effects.
fn cluster_behind(
    first: Option<(u32, Name)>,
    p: Pid,
    k: u32,
    effects: &[Effect],
) -> Option<(u32, Name)>
    ensures { (past : List Item) → first ≡ cluster_by past p k → result ≡ cluster_by (later past (map Did effects.now)) p k }
{
    let mut cluster = first;
    for effect in effects {
        cluster = cluster_after(cluster, p, k, effect);
    }
    cluster
}

/// The flag that a number names behind more effects.
pub fn cell_behind(clusters: &Clusters, effects: &[Effect], p: Pid, efn: u32) -> Option<Cell>
    ensures cell { (past : List Item) → AreJoined clusters.now past → result ≡ cell_by (later past (map Did effects.now)) p efn }
    ensures place { IfSome result (λ c. place_in c < 32) }
{
    if efn < 64 {
        return Some(Cell::Local(p, efn));
    }
    match cluster_behind(clusters.of(p, efn / 32), p, efn / 32, effects) {
        Some((group, name)) => Some(Cell::Common(group, name, efn % 32)),
        None => None,
    }
}

// Whether it is a flag of this common cluster.
fn is_of_cluster(group: u32, name: Name, cell: &Cell) -> bool
    ensures { result ≡ is_of_cluster_of group name cell.now }
{
    match cell {
        Cell::Local(..) => false,
        Cell::Common(g, a, _) => *g == group && *a == name,
    }
}

// The flags of a cell's cluster behind one more effect.
fn word_after(word: Word, cell: &Cell, effect: &Effect) -> Word
    ensures { (past : List Item) → IsWord word (flags_by past cell.now) → IsWord result (flags_by (Did effect.now ∷ past) cell.now) }
{
    match effect {
        Effect::Flag { cell: other, bit } => {
            if is_beside(other, cell) {
                with_flag(word, place_of(other), *bit)
            } else {
                word
            }
        }
        Effect::Cef { group, name, .. } => {
            if is_of_cluster(*group, *name, cell) {
                CLEAR
            } else {
                word
            }
        }
        _ => word,
    }
}

// The flags of a cell's cluster behind more effects.
fn word_behind(first: Word, cell: &Cell, effects: &[Effect]) -> Word
    ensures { (past : List Item) → IsWord first (flags_by past cell.now) → IsWord result (flags_by (later past (map Did effects.now)) cell.now) }
{
    let mut word = first;
    for effect in effects {
        word = word_after(word, cell, effect);
    }
    word
}

// Whether a status block is filled behind one more effect.
fn filled_after(filled: bool, p: Pid, i: u32, effect: &Effect) -> bool
    ensures { (past : List Item) → filled ≡ is_filled (status_by past p i) → result ≡ is_filled (status_by (Did effect.now ∷ past) p i) }
{
    match effect {
        Effect::Iosb {
            p: q,
            i: j,
            cond,
            ..
        } => {
            if q.0 == p.0 && *j == i {
                cond.is_some()
            } else {
                filled
            }
        }
        _ => filled,
    }
}

// Whether a status block is filled behind more effects.
fn filled_behind(first: bool, p: Pid, i: u32, effects: &[Effect]) -> bool
    ensures { (past : List Item) → first ≡ is_filled (status_by past p i) → result ≡ is_filled (status_by (later past (map Did effects.now)) p i) }
{
    let mut filled = first;
    for effect in effects {
        filled = filled_after(filled, p, i, effect);
    }
    filled
}

fn normal_if(holds: bool) -> Option<Cond>
    ensures { result ≡ normal_if_of holds }
{
    if holds { Some(Cond::Normal) } else { None }
}

// What follows a past: flags, clusters and status blocks.
#[derive(Drop)]
pub struct Values {
    cells: Cells,
    clusters: Clusters,
    blocks: Blocks,
}

impl Values {
    ghost use Rattle.vx_judge.specs.Values.{AreValues};

    /// All flags and status blocks are clear, and no process has a common cluster. Takes no memory.
    pub fn new(alloc: Global) -> Values
        ensures { AreValues result [] }
    {
        Values {
            cells: Cells::new(alloc),
            clusters: Clusters::new(alloc),
            blocks: Blocks::new(alloc),
        }
    }

    /// The clusters that processes have.
    pub fn clusters(&self) -> &Clusters
        ensures { (past : List Item) → AreValues self.now past → AreJoined result.now past }
    {
        &self.clusters
    }

    /// The flag that a number names.
    pub fn cell(&self, p: Pid, efn: u32) -> Option<Cell>
        ensures cell { (past : List Item) → AreValues self.now past → result ≡ cell_by past p efn }
        ensures place { IfSome result (λ c. place_in c < 32) }
    {
        cell_behind(&self.clusters, &[], p, efn)
    }

    /// The flags of a cell's cluster.
    pub fn word(&self, cell: &Cell) -> Word
        ensures { (past : List Item) → AreValues self.now past → IsWord result (flags_by past cell.now) }
    {
        self.cells.of(cell)
    }

    // Whether a wait for flags of a cell's cluster is satisfied behind more effects.
    fn flags_hold(&self, effects: &[Effect], mask: u32, all: bool, cell: &Cell) -> bool
        ensures { (past : List Item) → AreValues self.now past → result ≡ flags_hold_of (later past (map Did effects.now)) mask all cell.now }
    {
        let word = word_behind(self.cells.of(cell), cell, effects);
        if all {
            all_set(word, mask)
        } else {
            any_set(word, mask)
        }
    }

    // Whether a wait for a request is satisfied behind more effects.
    fn is_synchronized(&self, effects: &[Effect], p: Pid, iosb: u32, cell: &Cell) -> bool
        ensures { (past : List Item) → place_in cell.now < 32 → AreValues self.now past → result ≡ is_synchronized_of (later past (map Did effects.now)) p iosb cell.now }
    {
        is_set(
            word_behind(self.cells.of(cell), cell, effects),
            place_of(cell),
        ) && (iosb == 0 || filled_behind(self.blocks.is_filled(p, iosb), p, iosb, effects))
    }

    /// The condition with which a wait ends behind more effects; none if it is not satisfied there.
    pub fn satisfied(&self, effects: &[Effect], p: Pid, wait: Wait) -> Option<Cond>
        ensures { (past : List Item) → AreValues self.now past → result ≡ satisfied_by (later past (map Did effects.now)) p wait }
    {
        match wait {
            Wait::Flags(efn, mask, all) => {
                match cell_behind(&self.clusters, effects, p, efn) {
                    Some(cell) => normal_if(self.flags_hold(effects, mask, all, &cell)),
                    None => Some(Cond::UnasEfc),
                }
            }
            Wait::Synch(efn, iosb) => {
                match cell_behind(&self.clusters, effects, p, efn) {
                    Some(cell) => normal_if(self.is_synchronized(effects, p, iosb, &cell)),
                    None => Some(Cond::UnasEfc),
                }
            }
            Wait::Hiber => None,
        }
    }

    /// Goes past an effect.
    pub fn pass_effect(&mut self, effect: &Effect) -> Result<(), NoMemory>
        ensures { OnOk result ((past : List Item) → AreValues self.old past → AreValues self.new (Did effect.now ∷ past)) }
    {
        self.cells.pass_effect(effect)?;
        self.clusters.pass_effect(effect)?;
        self.blocks.pass_effect(effect)
    }
}
