//! The common clusters, as services call on them.

ghost use Rattle.std.specs.Prelude.{◌≡◌, ◌<◌, ◌≤◌, length, IfOk, IfSome, OnOk, OnErr, Some, None, true, false, if◌then◌else◌, option_map, position};
ghost use Rattle.std.specs.List.{find};
ghost use Rattle.vx_base.specs.Clusters.{cluster_number, is_association, is_cluster, is_common};
ghost use Rattle.vx_base.specs.Flags.{is_set};
ghost use Rattle.vx_base.specs.Log.{HasRoom};
ghost use Rattle.vx_clusters.specs.Clusters.{answer, associate_refusal, dissociate_refusal, mark_refusal};
ghost use Rattle.vx_clusters.specs.Clusters.{Does, associate, dissociate, mark};
ghost use Rattle.vx_clusters.specs.Clusters.{none, resolved, cluster_at, with_flag_at};
ghost use Rattle.vx_clusters.specs.Sound.{IsSound};

use crate::cluster::NewCluster;
use crate::fail::AscFail;
use crate::snapshot::ClustersSnapshot;
use crate::table::Table;
use std::alloc::Global;
use std::marker::Model;
use vx_base::{Effects, Name, NoMemory, Pid};

/// The common event flag clusters of all groups, and which of them each process has associated as its clusters 2 (flags 64
/// to 95) and 3 (flags 96 to 127). Contracts see both lists, and how many of both there is room for in all.
#[derive(Drop)]
pub struct Clusters {
    pub(crate) table: Table,
}

impl Model for Clusters {
    ghost use Rattle.vx_clusters.specs.Clusters.{Shared};
    ghost use Rattle.vx_clusters.specs.Sound.{IsSound};

    ghost Value = { Shared };

    ghost view = { λ c. c.table };

    ghost invariant = { λ c. IsSound c.table.common };
}

impl Clusters {
    /// No clusters, and room for none. Takes no memory.
    pub fn new(alloc: Global) -> Clusters
        ensures { result ≡ none }
    {
        Clusters {
            table: Table::new(alloc),
        }
    }

    /// Makes room for one cluster and one association more, or changes nothing. There is never room for more than
    /// 4294967295 clusters.
    pub fn reserve(&mut self) -> Result<(), NoMemory>
        ensures common { self.new.common ≡ self.old.common }
        ensures kept { (self.old.cluster_capacity ≤ self.new.cluster_capacity) × (self.old.association_capacity ≤ self.new.association_capacity) }
        ensures ok { OnOk result ((length self.new.common.clusters < self.new.cluster_capacity) × (length self.new.common.associations < self.new.association_capacity)) }
        ensures err { OnErr result (self.new ≡ self.old) }
    {
        self.table.reserve()
    }

    /// The same clusters and associations put away.
    pub fn snapshot(&self, alloc: Global) -> Result<ClustersSnapshot, NoMemory>
        ensures { IfOk result (λ snapshot. snapshot ≡ self.now) }
    {
        Ok(ClustersSnapshot {
            table: self.table.snapshot(alloc)?,
        })
    }

    /// A process has the cluster that it asks for as the cluster of a flag from 64 to 127, in place of what it had there;
    /// the cluster is made if it is new ($ASCEFC). `may` is the privilege PRMCEB. IllEfc if the flag is
    /// not from 64 to 127; NoPriv if a permanent cluster would be made without the privilege. Takes no memory.
    pub fn associate(
        &mut self,
        p: Pid,
        efn: u32,
        ask: NewCluster,
        may: bool,
        log: &mut Effects,
    ) -> Result<(), AscFail>
        requires cluster_room { length self.old.common.clusters < self.old.cluster_capacity }
        requires association_room { length self.old.common.associations < self.old.association_capacity }
        requires log { HasRoom log.old (length (associate self.old.common p ask.group efn ask.name ask.permanent may).effects) }
        ensures answer { result ≡ answer (associate_refusal self.old.common ask.group efn ask.name ask.permanent may) }
        ensures does { Does (associate self.old.common p ask.group efn ask.name ask.permanent may) self.old self.new log.old log.new }
    {
        let k = cluster_number(efn).ok_or(AscFail::IllEfc)?;
        let (group, name, permanent) = (ask.group, ask.name, ask.permanent);
        if permanent && !may && !self.table.stands(group, name) {
            return Err(AscFail::NoPriv);
        }
        self.table.associate(p, k, ask, log);
        Ok(())
    }

    /// A process has no cluster any more as the cluster of a flag from 64 to 127; a cluster that nobody has goes, but for
    /// a permanent one that is not marked ($DACEFC). IllEfc if the flag is not from 64 to 127. Takes no memory.
    pub fn dissociate(&mut self, p: Pid, efn: u32, log: &mut Effects) -> Result<(), AscFail>
        requires { HasRoom log.old (length (dissociate self.old.common p efn).effects) }
        ensures answer { result ≡ answer (dissociate_refusal efn) }
        ensures does { Does (dissociate self.old.common p efn) self.old self.new log.old log.new }
    {
        let k = cluster_number(efn).ok_or(AscFail::IllEfc)?;
        self.table.dissociate(p, k, log);
        Ok(())
    }

    /// Marks a permanent cluster for deletion; it goes at once if nobody has it ($DLCEFC). `may` is the privilege
    /// PRMCEB: NoPriv without it. Takes no memory.
    pub fn mark(
        &mut self,
        group: u32,
        name: Name,
        may: bool,
        log: &mut Effects,
    ) -> Result<(), AscFail>
        requires { HasRoom log.old (length (mark self.old.common group name may).effects) }
        ensures answer { result ≡ answer (mark_refusal may) }
        ensures does { Does (mark self.old.common group name may) self.old self.new log.old log.new }
    {
        if !may {
            return Err(AscFail::NoPriv);
        }
        self.table.mark(group, name, log);
        Ok(())
    }

    /// The place of the cluster that a process has associated for a flag: None if the flag is not from 64 to 127, or
    /// nothing is associated there.
    pub fn resolve(&self, p: Pid, efn: u32) -> Option<u32>
        ensures place { result ≡ resolved self.now.common p efn }
        ensures within { IfSome result (λ place. place < length self.now.common.clusters) }
        ensures sound { IsSound self.now.common }
    {
        let table = &self.table;
        let association = table.association(p, cluster_number(efn)?)?;
        let place = table.place_of(association.group(), association.name())?;
        Some(place as u32)
    }

    /// The group and the name of what a process has associated as its cluster k.
    pub fn associated(&self, p: Pid, k: u32) -> Option<(u32, Name)>
        ensures { result ≡ option_map (λ a. (a.group, a.name)) (find (is_association p k) self.now.common.associations) }
    {
        let association = self.table.association(p, k)?;
        Some((association.group(), association.name()))
    }

    /// The place of the cluster of a group and name, if it stands.
    pub fn place(&self, group: u32, name: Name) -> Option<u32>
        ensures place { result ≡ position (is_cluster group name) self.now.common.clusters }
        ensures within { IfSome result (λ place. place < length self.now.common.clusters) }
    {
        let place = self.table.place_of(group, name)?;
        Some(place as u32)
    }

    /// Sets flag n, 0 to 31, of the cluster at a place, and tells whether it was set.
    pub fn set(&mut self, place: u32, n: u8) -> bool
        requires place { place < length self.old.common.clusters }
        requires flag { n < 32 }
        ensures was { result ≡ is_set (cluster_at self.old.common place).flags n }
        ensures after { self.new ≡ record self.old { common = with_flag_at self.old.common place n true } }
    {
        self.table.set(place as usize, n)
    }

    /// Clears flag n, 0 to 31, of the cluster at a place, and tells whether it was set.
    pub fn clear(&mut self, place: u32, n: u8) -> bool
        requires place { place < length self.old.common.clusters }
        requires flag { n < 32 }
        ensures was { result ≡ is_set (cluster_at self.old.common place).flags n }
        ensures after { self.new ≡ record self.old { common = with_flag_at self.old.common place n false } }
    {
        self.table.clear(place as usize, n)
    }

    /// The flags of the cluster at a place as a number, flag 0 as its lowest bit.
    pub fn bits(&self, place: u32) -> u32
        requires { place < length self.now.common.clusters }
        ensures { result ≡ (cluster_at self.now.common place).flags }
    {
        self.table.at(place as usize).bits()
    }

    /// The group and the name of the cluster at a place.
    pub fn named(&self, place: u32) -> (u32, Name)
        requires { place < length self.now.common.clusters }
        ensures { result ≡ ((cluster_at self.now.common place).group, (cluster_at self.now.common place).name) }
    {
        let cluster = self.table.at(place as usize);
        (cluster.group(), cluster.name())
    }
}

/// The number of a flag's common cluster, 2 or 3: None if the flag is not from 64 to 127.
fn cluster_number(efn: u32) -> Option<u32>
    ensures { result ≡ (if is_common efn then Some (cluster_number efn) else None) }
{
    if 64 <= efn && efn <= 127 {
        Some(efn / 32)
    } else {
        None
    }
}
