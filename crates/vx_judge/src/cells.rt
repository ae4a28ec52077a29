//! The flags of all clusters, in tables.

ghost use Rattle.std.specs.Prelude.{◌≡◌, List, [], ◌∷◌, OnOk, if◌then◌else◌, position, IfSome, length, ◌<◌, not};
ghost use Rattle.std.specs.List.{filter, find};
ghost use Rattle.vx_base.specs.Lists.{less};
ghost use Rattle.vx_record.specs.Types.{Cell as CellOf};
ghost use Rattle.vx_laws.specs.Items.{Item, Did};
ghost use Rattle.vx_laws.specs.Values.{is_beside, is_of_cluster};
ghost use Rattle.vx_base.specs.declared.effects.Cell.TheVariants.{Local};
ghost use Rattle.vx_judge.specs.Cells.{is_word_of, word_found};
ghost use Rattle.vx_judge.specs.Words.{clear_word};

use crate::behind::place_of;
use crate::bits::{CLEAR, with_flag};
use crate::common_word::CommonWord;
use crate::word::Word;
use std::alloc::Global;
use std::collections::HashMap;
use vx_base::{Cell, Effect, Name, NoMemory, Pid, take_out};

/// The flags of each process's own clusters, and of the common clusters of which a flag was told since they were made, the
/// latest told first.
#[derive(Drop)]
pub struct Cells {
    lower: HashMap<u32, Word>,
    upper: HashMap<u32, Word>,
    common: Vec<CommonWord>,
}

// Whether they are the flags of this common cluster.
fn is_of(x: &CommonWord, group: u32, name: Name) -> bool
    ensures { result ≡ is_word_of group name x.now }
{
    x.group == group && x.name == name
}

// The flags of a common cluster.
fn common_word(items: &[CommonWord], group: u32, name: Name) -> Word
    ensures { result ≡ word_found (find (is_word_of group name) items.now) }
{
    for x in items {
        if is_of(x, group, name) {
            return x.word;
        }
    }
    CLEAR
}

// Where they stand.
fn place_of_word(items: &[CommonWord], group: u32, name: Name) -> Option<usize>
    ensures place { result ≡ position (is_word_of group name) items.now }
    ensures within { IfSome result (λ i. i < length items.now) }
{
    items.iter().position(|x| is_of(x, group, name))
}

// The flags of a common cluster, in place of what they were.
fn put(items: &mut Vec<CommonWord>, new: CommonWord) -> Result<(), NoMemory>
    ensures { OnOk result (items.new.items ≡ new ∷ less (is_word_of new.group new.name) items.old.items) }
{
    let place = place_of_word(items, new.group, new.name);
    take_out(items, place);
    items.insert(0, new)?;
    Ok(())
}

// The flags of a common cluster go.
#[tactic(auto, using(std::proofs::lemmas::List::Elements::filter_more, crate::proofs::Loops::all_taken))]
fn forget(items: &mut Vec<CommonWord>, group: u32, name: Name) -> Result<(), NoMemory>
    ensures { OnOk result (items.new.items ≡ filter (λ x. not (is_word_of group name x)) items.old.items) }
{
    let mut left = Vec::new(*items.allocator());
    for x in items.iter() {
        if !is_of(x, group, name) {
            left.push(*x)?;
        }
    }
    *items = left;
    Ok(())
}

impl Cells {
    ghost use Rattle.vx_judge.specs.Cells.{AreCells, word_in};

    /// All flags are clear. Takes no memory.
    pub fn new(alloc: Global) -> Cells
        ensures { AreCells result [] }
    {
        Cells {
            lower: HashMap::new(alloc),
            upper: HashMap::new(alloc),
            common: Vec::new(alloc),
        }
    }

    // Those of a process's own cluster.
    fn own(&self, p: Pid, n: u32) -> Word
        ensures { result ≡ word_in self.now (Local p n) }
    {
        if n < 32 {
            match self.lower.get(&p.0) {
                Some(word) => *word,
                None => CLEAR,
            }
        } else {
            match self.upper.get(&p.0) {
                Some(word) => *word,
                None => CLEAR,
            }
        }
    }

    /// The flags of a cell's cluster.
    pub fn of(&self, cell: &Cell) -> Word
        ensures { result ≡ word_in self.now cell.now }
    {
        match cell {
            Cell::Local(p, n) => self.own(*p, *n),
            Cell::Common(group, name, _) => common_word(self.common.as_slice(), *group, *name),
        }
    }

    // The flags of a process's own cluster are these.
    fn put_own(&mut self, p: Pid, n: u32, word: Word) -> Result<(), NoMemory>
        ensures { OnOk result ((c : CellOf) → word_in self.new c ≡ (if is_beside (Local p n) c then word else word_in self.old c)) }
    {
        if n < 32 {
            self.lower.insert(p.0, word)?;
            Ok(())
        } else {
            self.upper.insert(p.0, word)?;
            Ok(())
        }
    }

    // The flags of a cell's cluster are these.
    fn set(&mut self, cell: &Cell, word: Word) -> Result<(), NoMemory>
        ensures { OnOk result ((c : CellOf) → word_in self.new c ≡ (if is_beside cell.now c then word else word_in self.old c)) }
    {
        match cell {
            Cell::Local(p, n) => self.put_own(*p, *n, word),
            Cell::Common(group, name, _) => {
                put(
                    &mut self.common,
                    CommonWord {
                        group: *group,
                        name: *name,
                        word,
                    },
                )?;
                Ok(())
            }
        }
    }

    // A common cluster is new or gone: its flags are clear.
    fn clear(&mut self, group: u32, name: Name) -> Result<(), NoMemory>
        ensures { OnOk result ((c : CellOf) → word_in self.new c ≡ (if is_of_cluster group name c then clear_word else word_in self.old c)) }
    {
        forget(&mut self.common, group, name)?;
        Ok(())
    }

    /// Goes past an effect.
    pub fn pass_effect(&mut self, effect: &Effect) -> Result<(), NoMemory>
        ensures { OnOk result ((past : List Item) → AreCells self.old past → AreCells self.new (Did effect.now ∷ past)) }
    {
        match effect {
            Effect::Flag { cell, bit } => {
                let word = with_flag(self.of(cell), place_of(cell), *bit);
                self.set(cell, word)?;
                Ok(())
            }
            Effect::Cef {
                group,
                name,
                bit: _,
            } => {
                self.clear(*group, *name)?;
                Ok(())
            }
            _ => Ok(()),
        }
    }
}
