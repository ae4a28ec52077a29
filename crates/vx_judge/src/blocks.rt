//! Which status blocks are filled.

ghost use Rattle.std.specs.Prelude.{◌≡◌, List, [], ◌∷◌, OnOk};
ghost use Rattle.vx_laws.specs.Items.{Item, Did};
ghost use Rattle.vx_laws.specs.Values.{status_by};
ghost use Rattle.vx_record.specs.Flags.{is_filled};

use std::alloc::Global;
use std::collections::HashMap;
use vx_base::{Effect, NoMemory, Pid};

/// Of each status block, by process and number, whether it was filled or cleared last.
#[derive(Drop)]
pub struct Blocks {
    map: HashMap<(u32, u32), bool>,
}

impl Blocks {
    ghost use Rattle.vx_judge.specs.Blocks.{AreBlocks};

    /// All are clear. Takes no memory.
    pub fn new(alloc: Global) -> Blocks
        ensures { AreBlocks result [] }
    {
        Blocks {
            map: HashMap::new(alloc),
        }
    }

    /// Whether it is filled.
    pub fn is_filled(&self, p: Pid, i: u32) -> bool
        ensures { (past : List Item) → AreBlocks self.now past → result ≡ is_filled (status_by past p i) }
    {
        match self.map.get(&(p.0, i)) {
            Some(filled) => *filled,
            None => false,
        }
    }

    /// Goes past an effect.
    pub fn pass_effect(&mut self, effect: &Effect) -> Result<(), NoMemory>
        ensures { OnOk result ((past : List Item) → AreBlocks self.old past → AreBlocks self.new (Did effect.now ∷ past)) }
    {
        match effect {
            Effect::Iosb { p, i, cond, .. } => {
                self.map.insert((p.0, *i), cond.is_some())?;
                Ok(())
            }
            _ => Ok(()),
        }
    }
}
