//! A level: the states to which one number of steps leads, each once.

ghost use Rattle.std.specs.Prelude.{◌≡◌, ◌≢◌, ◌∷◌, [], ◌++◌, AllPairs, length, None, OnErr, OnOk};
ghost use Rattle.vx_explore.specs.Alike.{Like};
ghost use Rattle.vx_explore.specs.Index.{AreMore, HaveSame, StartAs, whats};

use crate::found::{Found, Picks};
use crate::machine::Machine;
use std::alloc::Global;
use std::collections::HashMap;
use std::marker::Model;
use vx_base::{NoMemory, Reserved};

/// The states, in the order of their first picks, each once. Contracts see them as their list.
#[derive(Drop)]
pub struct Level<M: Machine> {
    reached: Reserved<Found<M>>,
    // for each state the last one before it with the same digest
    older: Reserved<Option<usize>>,
    // for each digest its last state
    latest: HashMap<u64, usize>,
    alloc: Global,
}

impl<M: Machine> Model for Level<M> {
    ghost use Rattle.std.specs.Prelude.{List, nat_eq};
    ghost use Rattle.std.specs.HashMap.{get};
    ghost use Rattle.vx_explore.specs.declared.found.Found.{Found as FoundOf};
    ghost use Rattle.vx_explore.specs.Index.{IsLevel};

    ghost Value = { List (FoundOf M) };

    ghost view = { λ l. l.reached.items };

    ghost invariant = { λ l. IsLevel M.digest_of l.reached.items l.older.items (λ d. get nat_eq l.latest d) };
}

impl<M: Machine> Level<M> {
    /// No states. Takes no memory.
    pub fn new(alloc: Global) -> Level<M>
        ensures { result ≡ [] }
    {
        Level {
            reached: Reserved::new(alloc),
            older: Reserved::new(alloc),
            latest: HashMap::new(alloc),
            alloc,
        }
    }

    /// How many states there are. All differ.
    pub fn len(&self) -> usize
        ensures len { result ≡ length self.now }
        ensures different { AllPairs (λ a b. a ≢ b) (whats self.now) }
    {
        self.reached.len()
    }

    /// The states, in their order.
    pub fn into_states(self) -> Vec<Found<M>>
        ensures { result.items ≡ self }
    {
        let Level {
            reached: states,
            ..
        } = self;
        states.into_vec()
    }

    /// The place of a machine's state, which has this digest, or None if it is not in the level.
    fn place_of(&self, machine: &M::Running, digest: u64) -> Option<usize>
        requires digest { digest ≡ M.digest_of (M.state_of machine.now) }
        requires alike { StartAs M.origin (M.state_of machine.now) (whats self.now) }
        ensures { HaveSame self.now (M.state_of machine.now) result }
    {
        let reached = self.reached.as_slice();
        let older = self.older.as_slice();
        let mut next = self.latest.get(&digest).copied();
        while let Some(i) = next {
            if reached[i].what.same(machine) {
                return Some(i);
            }
            next = older[i];
        }
        None
    }

    /// Adds a new state, which has this digest, or changes nothing.
    fn push(&mut self, found: Found<M>, digest: u64) -> Result<(), NoMemory>
        requires digest { digest ≡ M.digest_of found.what }
        requires new { HaveSame self.old found.what None }
        ensures ok { OnOk result (self.new ≡ self.old ++ found ∷ []) }
        ensures err { OnErr result (self.new ≡ self.old) }
    {
        self.reached.reserve(1)?;
        self.older.reserve(1)?;
        let before = self.latest.insert(digest, self.reached.len())?;
        self.older.put(before);
        self.reached.put(found);
        Ok(())
    }

    /// Counts the runs that come to a machine's state by one more pick, and puts the state away if it is new; or changes nothing.
    pub fn add(
        &mut self,
        machine: &M::Running,
        ways: u64,
        picks: &Picks,
        pick: u32,
    ) -> Result<(), NoMemory>
        requires { StartAs M.origin (M.state_of machine.now) (whats self.old) }
        ensures like { OnOk result (Like u64.MAX self.new
            (self.old ++ record { what = M.state_of machine.now; ways = ways; picks = picks.now ++ pick ∷ [] } ∷ [])) }
        ensures states { OnOk result (AreMore (whats self.old) (M.state_of machine.now) (whats self.new)) }
        ensures err { OnErr result (self.new ≡ self.old) }
    {
        let digest = M::digest(machine);
        match self.place_of(machine, digest) {
            Some(i) => {
                let there = self.reached.at_mut(i);
                there.ways = there.ways.saturating_add(ways);
            }
            None => {
                let what = M::put_away(self.alloc, machine)?;
                let picks = picks.with(pick)?;
                self.push(Found { what, ways, picks }, digest)?;
            }
        }
        Ok(())
    }
}
