//! The ids of which something may still be open.

ghost use Rattle.std.specs.Prelude.{◌≡◌, List, [], ◌∷◌, OnOk};
ghost use Rattle.std.specs.List.{filter};
ghost use Rattle.vx_laws.specs.Items.{Item, Did};
ghost use Rattle.vx_judge.specs.Lives.{IsOf};

use crate::lives::Lives;
use std::alloc::Global;
use vx_base::{Effect, Id, NoMemory};

/// Ids, among them each of which something is open. One that has ended stays until the next GONE or ENTER.
#[derive(Drop)]
pub struct OpenIds {
    ids: Vec<Id>,
}

impl OpenIds {
    ghost use Rattle.vx_judge.specs.OpenIds.{HasOpen, is_open_in};

    /// No ids. Takes no memory.
    pub fn new(alloc: Global) -> OpenIds
        ensures { HasOpen result.ids.items [] }
    {
        OpenIds {
            ids: Vec::new(alloc),
        }
    }

    /// The ids, in the order in which they were opened.
    pub fn ids(&self) -> &[Id]
        ensures { result.now ≡ self.now.ids.items }
    {
        self.ids.as_slice()
    }

    // Leaves out those that have ended.
    #[tactic(auto, using(std::proofs::lemmas::List::Elements::filter_more, crate::proofs::Loops::all_taken))]
    fn forget_ended(&mut self, lives: &Lives) -> Result<(), NoMemory>
        ensures { OnOk result (self.new.ids.items ≡ filter (is_open_in lives.now) self.old.ids.items) }
    {
        let mut left = Vec::new(*self.ids.allocator());
        for id in self.ids.iter() {
            if lives.is_open(*id) {
                left.push(*id)?;
            }
        }
        self.ids = left;
        Ok(())
    }

    /// Goes past an effect, after the table of lives did.
    pub fn pass_effect(&mut self, effect: &Effect, lives: &Lives) -> Result<(), NoMemory>
        ensures { OnOk result ((past : List Item) → IsOf lives.now (Did effect.now ∷ past) → HasOpen self.old.ids.items past → HasOpen self.new.ids.items (Did effect.now ∷ past)) }
    {
        match effect {
            Effect::Open { id, .. } => {
                self.ids.push(*id)?;
                Ok(())
            }
            Effect::Gone(_) => {
                self.forget_ended(lives)?;
                Ok(())
            }
            Effect::Enter(_) => {
                self.forget_ended(lives)?;
                Ok(())
            }
            _ => Ok(()),
        }
    }
}
