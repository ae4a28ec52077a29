//! One association.

ghost use Rattle.std.specs.Prelude.{◌≡◌};
ghost use Rattle.vx_base.specs.Clusters.{is_association, is_user};

use std::marker::Model;
use vx_base::{Duplicate, Name, NoMemory, Pid, Same};

/// That a process has the cluster of a group and name as its cluster 2 or 3. Contracts see the plain `Association` of
/// `vx_base`.
#[derive(Clone, Copy)]
pub(crate) struct Association {
    p: Pid,
    k: u32,
    group: u32,
    name: Name,
}

impl Model for Association {
    ghost use Rattle.vx_base.specs.Pieces.{Association};

    ghost Value = { Association };

    ghost view = { λ u. record { p = u.p; k = u.k; group = u.group; name = u.name } };

    ghost inverse = { λ a. record { p = a.p; k = a.k; group = a.group; name = a.name } };
}

impl Association {
    pub(crate) fn new(p: Pid, k: u32, group: u32, name: Name) -> Association
        ensures { result ≡ record { p = p; k = k; group = group; name = name } }
    {
        Association { p, k, group, name }
    }

    /// Whether it is what a process has as its cluster k.
    pub(crate) fn is(&self, p: Pid, k: u32) -> bool
        ensures { result ≡ is_association p k self.now }
    {
        self.p.0 == p.0 && self.k == k
    }

    /// Whether it is of the cluster of a group and name.
    pub(crate) fn is_of(&self, group: u32, name: Name) -> bool
        ensures { result ≡ is_user group name self.now }
    {
        self.group == group && self.name == name
    }

    pub(crate) fn group(&self) -> u32
        ensures { result ≡ self.now.group }
    {
        self.group
    }

    pub(crate) fn name(&self) -> Name
        ensures { result ≡ self.now.name }
    {
        self.name
    }
}

impl Same for Association {
    fn same(&self, other: &Association) -> bool {
        self.p == other.p
            && self.k == other.k
            && self.group == other.group
            && self.name == other.name
    }
}

impl Duplicate for Association {
    fn duplicate(&self) -> Result<Association, NoMemory> {
        Ok(*self)
    }
}
