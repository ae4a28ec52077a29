//! The clusters of all processes, in a table.

ghost use Rattle.std.specs.Prelude.{◌≡◌, List, [], ◌∷◌, OnOk};
ghost use Rattle.vx_base.specs.declared.effects.Effect.TheVariants.{Clu};
ghost use Rattle.vx_laws.specs.Items.{Item, Did};
ghost use Rattle.vx_laws.specs.Values.{cell_by, cluster_by};
ghost use Rattle.vx_judge.specs.Owing.{cluster_of};

use crate::joined::Joined;
use std::alloc::Global;
use std::collections::HashMap;
use vx_base::{Cell, Effect, Name, NoMemory, Pid};

/// What each process has as its cluster of a number.
#[derive(Drop)]
pub struct Clusters {
    map: HashMap<(u32, u32), Joined>,
}

// It, with its group and name.
fn joined(cluster: (u32, Name)) -> Joined
    ensures { cluster_of result ≡ cluster }
{
    Joined {
        group: cluster.0,
        name: cluster.1,
    }
}

impl Clusters {
    ghost use Rattle.vx_judge.specs.Owing.{AreJoined};

    /// No process has one. Takes no memory.
    pub fn new(alloc: Global) -> Clusters
        ensures { AreJoined result [] }
    {
        Clusters {
            map: HashMap::new(alloc),
        }
    }

    /// A process's cluster of this number, by its group and name.
    pub fn of(&self, p: Pid, k: u32) -> Option<(u32, Name)>
        ensures { (past : List Item) → AreJoined self.now past → result ≡ cluster_by past p k }
    {
        match self.map.get(&(p.0, k)) {
            Some(x) => Some((x.group, x.name)),
            None => None,
        }
    }

    /// The flag that a number names.
    pub fn cell(&self, p: Pid, efn: u32) -> Option<Cell>
        ensures { (past : List Item) → AreJoined self.now past → result ≡ cell_by past p efn }
    {
        if efn < 64 {
            return Some(Cell::Local(p, efn));
        }
        match self.of(p, efn / 32) {
            Some((group, name)) => Some(Cell::Common(group, name, efn % 32)),
            None => None,
        }
    }

    // A process has this cluster, or none.
    fn set(&mut self, p: Pid, k: u32, cluster: Option<(u32, Name)>) -> Result<(), NoMemory>
        ensures { OnOk result ((past : List Item) → AreJoined self.old past → AreJoined self.new (Did (Clu p k cluster) ∷ past)) }
    {
        match cluster {
            Some(cluster) => {
                self.map.insert((p.0, k), joined(cluster))?;
                Ok(())
            }
            None => {
                self.map.remove(&(p.0, k));
                Ok(())
            }
        }
    }

    /// Goes past an effect.
    pub fn pass_effect(&mut self, effect: &Effect) -> Result<(), NoMemory>
        ensures { OnOk result ((past : List Item) → AreJoined self.old past → AreJoined self.new (Did effect.now ∷ past)) }
    {
        match effect {
            Effect::Clu { p, k, cluster } => self.set(*p, *k, *cluster),
            _ => Ok(()),
        }
    }
}
