//! The clusters in as little room as they take.

ghost use Rattle.std.specs.Prelude.{◌≡◌, ◌↔◌, IfOk, IsTrue, OnOk};

use crate::association::Association;
use crate::cluster::FlagCluster;
use crate::clusters::Clusters;
use crate::table::Table;
use std::alloc::Global;
use std::marker::Model;
use std::mem::replace;
use vx_base::NoMemory;
use vx_same::{ReservedSnapshot, same_items};

/// The clusters and who has them associated, and how many of both there was room for.
#[derive(Drop)]
pub(crate) struct TableSnapshot {
    pub(crate) clusters: ReservedSnapshot<FlagCluster>,
    pub(crate) associations: ReservedSnapshot<Association>,
    pub(crate) cluster_room: usize,
    pub(crate) association_room: usize,
}

impl Model for TableSnapshot {
    ghost use Rattle.std.specs.Prelude.{◌<◌, ◌≤◌, length};
    ghost use Rattle.vx_clusters.specs.Clusters.{Shared};

    ghost Value = { Shared };

    ghost view = { λ t. record {
      common = record { clusters = t.clusters.items; associations = t.associations.items };
      cluster_capacity = t.cluster_room;
      association_capacity = t.association_room;
    } };

    ghost invariant = { λ t. (length t.clusters.items ≤ t.cluster_room)
        × (t.cluster_room ≤ t.clusters.capacity)
        × (length t.associations.items ≤ t.association_room)
        × (t.association_room ≤ t.associations.capacity)
        × (t.cluster_room < 4294967296) };
}

impl TableSnapshot {
    // The same clusters and associations again, in the memory of others, with the same room.
    fn restore(&self, others: Table) -> Result<Table, NoMemory>
        ensures { IfOk result (λ table. table ≡ self.now) }
    {
        let Table {
            mut clusters,
            mut associations,
            ..
        } = others;
        self.clusters.restore(&mut clusters)?;
        self.associations.restore(&mut associations)?;
        Ok(Table {
            clusters,
            associations,
            cluster_room: self.cluster_room,
            association_room: self.association_room,
        })
    }
}

/// The common event flag clusters of all groups, who has them associated, and how many of both there was room for in all.
#[derive(Drop)]
pub struct ClustersSnapshot {
    pub(crate) table: TableSnapshot,
}

impl Model for ClustersSnapshot {
    ghost use Rattle.vx_clusters.specs.Clusters.{Shared};
    ghost use Rattle.vx_clusters.specs.Sound.{IsSound};

    ghost Value = { Shared };

    ghost view = { λ c. c.table };

    ghost invariant = { λ c. IsSound c.table.common };
}

impl ClustersSnapshot {
    /// The same clusters and associations in place of others, with the same room. If memory runs out, the others are of
    /// no more use.
    pub fn restore(&self, alloc: Global, clusters: &mut Clusters) -> Result<(), NoMemory>
        ensures { OnOk result (clusters.new ≡ self.now) }
    {
        let others = replace(&mut clusters.table, Table::new(alloc));
        clusters.table = self.table.restore(others)?;
        Ok(())
    }

    /// Whether these are the clusters and associations, with the same flags. Takes no memory.
    pub fn same(&self, clusters: &Clusters) -> bool
        ensures { IsTrue result ↔ (self.now.common ≡ clusters.now.common) }
    {
        same_items(
            self.table.clusters.as_slice(),
            clusters.table.clusters.as_slice(),
        ) && same_items(
            self.table.associations.as_slice(),
            clusters.table.associations.as_slice(),
        )
    }
}
