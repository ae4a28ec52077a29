//! The clusters and the associations, and the steps that a service makes on them.

ghost use Rattle.std.specs.Prelude.{◌≡◌, ◌<◌, ◌≤◌, Bool, length, IfOk, IfSome, OnOk, OnErr, true, false};
ghost use Rattle.std.specs.Prelude.{option_map, position};
ghost use Rattle.std.specs.List.{find};
ghost use Rattle.vx_base.specs.Lists.{amend};
ghost use Rattle.vx_base.specs.Clusters.{is_cluster, is_association, stands, is_used, has_already, with_mark};
ghost use Rattle.vx_base.specs.Clusters.{made_where_new, gone, joined, parted, swept, dissociated, associated, marked};
ghost use Rattle.vx_base.specs.Flags.{is_set};
ghost use Rattle.vx_base.specs.Log.{HasRoom};
ghost use Rattle.vx_base.specs.Pieces.{Cluster};
ghost use Rattle.vx_base.specs.Roomy.{with_items};
ghost use Rattle.vx_clusters.specs.Clusters.{Does, none, with_clusters, cluster_at, with_flag_at};

use crate::association::Association;
use crate::cluster::{FlagCluster, NewCluster};
use crate::snapshot::TableSnapshot;
use std::alloc::Global;
use std::marker::Model;
use vx_base::{Effect, Effects, Name, NoMemory, Pid, Reserved};
use vx_same::ReservedSnapshot;

// A place is a number of 32 bits.
const MOST_CLUSTERS: usize = 4_294_967_295;

/// The clusters and who has them associated. Both get more room, or neither does: so each has its room beside it.
#[derive(Drop)]
pub(crate) struct Table {
    pub(crate) clusters: Reserved<FlagCluster>,
    pub(crate) associations: Reserved<Association>,
    pub(crate) cluster_room: usize,
    pub(crate) association_room: usize,
}

impl Model for Table {
    ghost use Rattle.std.specs.Prelude.{◌<◌, ◌≤◌, length};
    ghost use Rattle.vx_clusters.specs.Clusters.{Shared};

    ghost Value = { Shared };

    ghost view = { λ t. record {
      common = record { clusters = t.clusters.items; associations = t.associations.items };
      cluster_capacity = t.cluster_room;
      association_capacity = t.association_room;
    } };

    ghost invariant = { λ t. (length t.clusters.items ≤ t.cluster_room)
        × (t.cluster_room ≤ t.clusters.capacity)
        × (length t.associations.items ≤ t.association_room)
        × (t.association_room ≤ t.associations.capacity)
        × (t.cluster_room < 4294967296) };
}

impl Table {
    pub(crate) fn new(alloc: Global) -> Table
        ensures { result ≡ none }
    {
        Table {
            clusters: Reserved::new(alloc),
            associations: Reserved::new(alloc),
            cluster_room: 0,
            association_room: 0,
        }
    }

    /// Makes room for one cluster and one association more, or changes nothing.
    pub(crate) fn reserve(&mut self) -> Result<(), NoMemory>
        ensures common { self.new.common ≡ self.old.common }
        ensures kept { (self.old.cluster_capacity ≤ self.new.cluster_capacity) × (self.old.association_capacity ≤ self.new.association_capacity) }
        ensures ok { OnOk result ((length self.new.common.clusters < self.new.cluster_capacity) × (length self.new.common.associations < self.new.association_capacity)) }
        ensures err { OnErr result (self.new ≡ self.old) }
    {
        if self.clusters.len() >= MOST_CLUSTERS {
            return Err(NoMemory);
        }
        self.clusters.reserve(1)?;
        self.associations.reserve(1)?;
        self.cluster_room = self.clusters.capacity().min(MOST_CLUSTERS);
        self.association_room = self.associations.capacity();
        Ok(())
    }

    /// The same clusters and associations put away.
    pub(crate) fn snapshot(&self, alloc: Global) -> Result<TableSnapshot, NoMemory>
        ensures { IfOk result (λ snapshot. snapshot ≡ self.now) }
    {
        Ok(TableSnapshot {
            clusters: ReservedSnapshot::new(alloc, &self.clusters)?,
            associations: ReservedSnapshot::new(alloc, &self.associations)?,
            cluster_room: self.cluster_room,
            association_room: self.association_room,
        })
    }

    /// How many clusters there are.
    pub(crate) fn len(&self) -> usize
        ensures { result ≡ length self.now.common.clusters }
    {
        self.clusters.len()
    }

    /// Whether the cluster of a group and name stands.
    pub(crate) fn stands(&self, group: u32, name: Name) -> bool
        ensures { result ≡ stands self.now.common group name }
    {
        self.clusters
            .as_slice()
            .iter()
            .any(|cluster| cluster.is(group, name))
    }

    /// Whether somebody has the cluster of a group and name associated.
    fn is_used(&self, group: u32, name: Name) -> bool
        ensures { result ≡ is_used self.now.common group name }
    {
        self.associations
            .as_slice()
            .iter()
            .any(|association| association.is_of(group, name))
    }

    /// What a process has as its cluster k.
    pub(crate) fn association(&self, p: Pid, k: u32) -> Option<Association>
        ensures { result ≡ find (is_association p k) self.now.common.associations }
    {
        association_of(self.associations.as_slice(), p, k).copied()
    }

    /// The cluster of a group and name.
    fn cluster(&self, group: u32, name: Name) -> Option<&FlagCluster>
        ensures { option_map (λ cluster. cluster.now) result ≡ find (is_cluster group name) self.now.common.clusters }
    {
        self.clusters
            .as_slice()
            .iter()
            .find(|cluster| cluster.is(group, name))
    }

    /// A cluster is gone.
    fn remove(&mut self, group: u32, name: Name, log: &mut Effects)
        requires { HasRoom log.old 1 }
        ensures does { Does (gone self.old.common group name) self.old self.new log.old log.new }
        ensures fewer { length self.new.common.clusters ≤ length self.old.common.clusters }
    {
        let place = place_of_cluster(self.clusters.as_slice(), group, name);
        let _cluster = self.clusters.take(place);
        log.add(Effect::Cef {
            group,
            name,
            bit: false,
        });
    }

    /// A process has a cluster no more.
    fn part(&mut self, p: Pid, k: u32, log: &mut Effects)
        requires { HasRoom log.old 1 }
        ensures does { Does (parted self.old.common p k) self.old self.new log.old log.new }
        ensures fewer { length self.new.common.associations ≤ length self.old.common.associations }
    {
        let place = place_of_association(self.associations.as_slice(), p, k);
        let _association = self.associations.take(place);
        log.add(Effect::Clu {
            p,
            k,
            cluster: None,
        });
    }

    /// A cluster goes if nobody has it, and it is temporary or marked.
    fn sweep(&mut self, group: u32, name: Name, log: &mut Effects)
        requires { HasRoom log.old (length (swept self.old.common group name).effects) }
        ensures does { Does (swept self.old.common group name) self.old self.new log.old log.new }
        ensures fewer { length self.new.common.clusters ≤ length self.old.common.clusters }
    {
        if self.is_used(group, name) {
            return;
        }
        let Some(cluster) = self.cluster(group, name) else {
            return;
        };
        if cluster.is_permanent() && !cluster.is_marked() {
            return;
        }
        let (group, name) = (cluster.group(), cluster.name());
        self.remove(group, name, log);
    }

    /// What a process has as its cluster k is dissociated, if it has one.
    pub(crate) fn dissociate(&mut self, p: Pid, k: u32, log: &mut Effects)
        requires { HasRoom log.old (length (dissociated self.old.common p k).effects) }
        ensures does { Does (dissociated self.old.common p k) self.old self.new log.old log.new }
        ensures fewer_clusters { length self.new.common.clusters ≤ length self.old.common.clusters }
        ensures fewer_associations { length self.new.common.associations ≤ length self.old.common.associations }
    {
        if let Some(association) = self.association(p, k) {
            self.part(p, k, log);
            self.sweep(association.group(), association.name(), log);
        }
    }

    /// A cluster is made if it does not stand.
    fn make_where_new(&mut self, ask: NewCluster, log: &mut Effects)
        requires room { length self.old.common.clusters < self.old.cluster_capacity }
        requires log { HasRoom log.old (length (made_where_new self.old.common ask.group ask.name ask.permanent).effects) }
        ensures { Does (made_where_new self.old.common ask.group ask.name ask.permanent) self.old self.new log.old log.new }
    {
        let (group, name) = (ask.group, ask.name);
        if self.stands(group, name) {
            return;
        }
        self.clusters.put(FlagCluster::new(ask));
        log.add(Effect::Cef {
            group,
            name,
            bit: true,
        });
    }

    /// A process has a cluster.
    fn join(&mut self, p: Pid, k: u32, group: u32, name: Name, log: &mut Effects)
        requires room { length self.old.common.associations < self.old.association_capacity }
        requires log { HasRoom log.old 1 }
        ensures { Does (joined self.old.common p k group name) self.old self.new log.old log.new }
    {
        self.associations.put(Association::new(p, k, group, name));
        log.add(Effect::Clu {
            p,
            k,
            cluster: Some((group, name)),
        });
    }

    /// Whether a process has a cluster already as its cluster k.
    fn has_already(&self, p: Pid, k: u32, group: u32, name: Name) -> bool
        ensures { result ≡ has_already group name (find (is_association p k) self.now.common.associations) }
    {
        match self.association(p, k) {
            Some(association) => association.is_of(group, name),
            None => false,
        }
    }

    /// A process has a cluster as its cluster k, in place of what it had there.
    pub(crate) fn associate(&mut self, p: Pid, k: u32, ask: NewCluster, log: &mut Effects)
        requires cluster_room { length self.old.common.clusters < self.old.cluster_capacity }
        requires association_room { length self.old.common.associations < self.old.association_capacity }
        requires log { HasRoom log.old (length (associated self.old.common p k ask.group ask.name ask.permanent).effects) }
        ensures { Does (associated self.old.common p k ask.group ask.name ask.permanent) self.old self.new log.old log.new }
    {
        let (group, name) = (ask.group, ask.name);
        if self.has_already(p, k, group, name) {
            return;
        }
        self.dissociate(p, k, log);
        self.make_where_new(ask, log);
        self.join(p, k, group, name, log);
    }

    /// A cluster is marked for deletion.
    fn mark_cluster(&mut self, group: u32, name: Name)
        ensures { self.new ≡ with_clusters self.old (amend (is_cluster group name) with_mark self.old.common.clusters) }
    {
        let place = place_of_cluster(self.clusters.as_slice(), group, name);
        mark_at(&mut self.clusters, place);
    }

    /// A permanent cluster is marked for deletion, and goes if nobody has it.
    pub(crate) fn mark(&mut self, group: u32, name: Name, log: &mut Effects)
        requires { HasRoom log.old (length (marked self.old.common group name).effects) }
        ensures { Does (marked self.old.common group name) self.old self.new log.old log.new }
    {
        let Some(cluster) = self.cluster(group, name) else {
            return;
        };
        if !cluster.is_permanent() {
            return;
        }
        let (group, name) = (cluster.group(), cluster.name());
        if self.is_used(group, name) {
            self.mark_cluster(group, name);
        } else {
            self.remove(group, name, log);
        }
    }

    /// Where the cluster of an association stands.
    pub(crate) fn place_of(&self, group: u32, name: Name) -> Option<usize>
        ensures place { result ≡ position (is_cluster group name) self.now.common.clusters }
        ensures within { IfSome result (λ i. i < length self.now.common.clusters) }
        ensures fits { IfSome result (λ i. i < 4294967296) }
    {
        place_of_cluster(self.clusters.as_slice(), group, name)
    }

    /// The cluster at a place.
    pub(crate) fn at(&self, place: usize) -> &FlagCluster
        requires { place < length self.now.common.clusters }
        ensures { result.now ≡ cluster_at self.now.common place }
    {
        &self.clusters.as_slice()[place]
    }

    /// Sets a flag of the cluster at a place, and tells whether it was set.
    pub(crate) fn set(&mut self, place: usize, n: u8) -> bool
        requires place { place < length self.old.common.clusters }
        requires flag { n < 32 }
        ensures was { result ≡ is_set (cluster_at self.old.common place).flags n }
        ensures after { self.new ≡ record self.old { common = with_flag_at self.old.common place n true } }
    {
        self.clusters.at_mut(place).set(n)
    }

    /// Clears a flag of the cluster at a place, and tells whether it was set.
    pub(crate) fn clear(&mut self, place: usize, n: u8) -> bool
        requires place { place < length self.old.common.clusters }
        requires flag { n < 32 }
        ensures was { result ≡ is_set (cluster_at self.old.common place).flags n }
        ensures after { self.new ≡ record self.old { common = with_flag_at self.old.common place n false } }
    {
        self.clusters.at_mut(place).clear(n)
    }
}

/// What a process has as its cluster k.
fn association_of(associations: &[Association], p: Pid, k: u32) -> Option<&Association>
    ensures { option_map (λ association. association.now) result ≡ find (is_association p k) associations.now }
{
    associations.iter().find(|association| association.is(p, k))
}

/// Marks the cluster at a place for deletion, if there is one.
fn mark_at(clusters: &mut Reserved<FlagCluster>, place: Option<usize>)
    requires { IfSome place (λ i. i < length clusters.old.items) }
    ensures len { length clusters.new.items ≡ length clusters.old.items }
    ensures after { (p : Cluster → Bool) → place ≡ position p clusters.old.items → clusters.new ≡ with_items clusters.old (amend p with_mark clusters.old.items) }
{
    match place {
        Some(place) => clusters.at_mut(place).mark(),
        None => (),
    }
}

/// Where the cluster of a group and name stands.
fn place_of_cluster(clusters: &[FlagCluster], group: u32, name: Name) -> Option<usize>
    ensures place { result ≡ position (is_cluster group name) clusters.now }
    ensures within { IfSome result (λ i. i < length clusters.now) }
{
    clusters.iter().position(|cluster| cluster.is(group, name))
}

/// Where it stands what a process has as its cluster k.
fn place_of_association(associations: &[Association], p: Pid, k: u32) -> Option<usize>
    ensures place { result ≡ position (is_association p k) associations.now }
    ensures within { IfSome result (λ i. i < length associations.now) }
{
    associations
        .iter()
        .position(|association| association.is(p, k))
}
