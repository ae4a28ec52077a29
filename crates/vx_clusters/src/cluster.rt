//! One cluster.

ghost use Rattle.std.specs.Prelude.{◌≡◌, ◌<◌, true, false};
ghost use Rattle.vx_base.specs.Clusters.{is_cluster, with_mark};
ghost use Rattle.vx_base.specs.Flags.{is_set, with_flag};

use std::marker::Model;
use vx_base::{Duplicate, Name, NoMemory, Same};
use vx_flags::Flags;

/// The cluster that $ASCEFC asks for: its group and its name, and whether it is permanent if it is made.
#[derive(Clone, Copy, Debug)]
pub struct NewCluster {
    pub group: u32,
    pub name: Name,
    pub permanent: bool,
}

/// A common event flag cluster, which contracts see as the plain `Cluster` of `vx_base`.
#[derive(Drop)]
pub(crate) struct FlagCluster {
    group: u32,
    name: Name,
    permanent: bool,
    marked: bool,
    flags: Flags,
}

impl Model for FlagCluster {
    ghost use Rattle.vx_base.specs.Pieces.{Cluster};

    ghost Value = { Cluster };

    ghost view = { λ c. record { group = c.group; name = c.name; permanent = c.permanent; marked = c.marked; flags = c.flags } };
}

impl FlagCluster {
    /// All flags clear.
    pub(crate) fn new(ask: NewCluster) -> FlagCluster
        ensures { result ≡ record { group = ask.group; name = ask.name; permanent = ask.permanent; marked = false; flags = 0 } }
    {
        FlagCluster {
            group: ask.group,
            name: ask.name,
            permanent: ask.permanent,
            marked: false,
            flags: Flags::new(),
        }
    }

    /// Whether it is the cluster of a group and name.
    pub(crate) fn is(&self, group: u32, name: Name) -> bool
        ensures { result ≡ is_cluster group name self.now }
    {
        self.group == group && self.name == name
    }

    pub(crate) fn group(&self) -> u32
        ensures { result ≡ self.now.group }
    {
        self.group
    }

    pub(crate) fn name(&self) -> Name
        ensures { result ≡ self.now.name }
    {
        self.name
    }

    pub(crate) fn is_permanent(&self) -> bool
        ensures { result ≡ self.now.permanent }
    {
        self.permanent
    }

    pub(crate) fn is_marked(&self) -> bool
        ensures { result ≡ self.now.marked }
    {
        self.marked
    }

    /// Marks it for deletion.
    pub(crate) fn mark(&mut self)
        ensures { self.new ≡ with_mark self.old }
    {
        self.marked = true;
    }

    /// Sets a flag, and tells whether it was set.
    pub(crate) fn set(&mut self, n: u8) -> bool
        requires { n < 32 }
        ensures was { result ≡ is_set self.old.flags n }
        ensures after { self.new ≡ record self.old { flags = with_flag self.old.flags n true } }
    {
        self.flags.set(n)
    }

    /// Clears a flag, and tells whether it was set.
    pub(crate) fn clear(&mut self, n: u8) -> bool
        requires { n < 32 }
        ensures was { result ≡ is_set self.old.flags n }
        ensures after { self.new ≡ record self.old { flags = with_flag self.old.flags n false } }
    {
        self.flags.clear(n)
    }

    /// Its flags as a number.
    pub(crate) fn bits(&self) -> u32
        ensures { result ≡ self.now.flags }
    {
        self.flags.bits()
    }
}

impl Same for FlagCluster {
    fn same(&self, other: &FlagCluster) -> bool {
        self.group == other.group
            && self.name == other.name
            && self.permanent == other.permanent
            && self.marked == other.marked
            && self.flags.same(&other.flags)
    }
}

impl Duplicate for FlagCluster {
    fn duplicate(&self) -> Result<FlagCluster, NoMemory> {
        Ok(FlagCluster {
            group: self.group,
            name: self.name,
            permanent: self.permanent,
            marked: self.marked,
            flags: self.flags.duplicate()?,
        })
    }
}
