//! Event flags, and the common clusters that processes associate.

ghost use Rattle.std.specs.Prelude.{◌≡◌, ◌+◌, ◌<◌, ◌≤◌, IfSome, length};
ghost use Rattle.std.specs.List.{find};
ghost use Rattle.vx_base.specs.Clusters.{is_cluster};
ghost use Rattle.vx_base.specs.declared.effects.Cell.TheVariants.{Common};
ghost use Rattle.vx_clusters.specs.Clusters.{answer, with_flag_at};
ghost use Rattle.vx_record.specs.State.{IsProcess, process_at};
ghost use Rattle.vx_record.specs.Flags.{cell, cluster_flags, flags_of, is_set_in, local_flags, place_in, with_cell, with_local_flag};
ghost use Rattle.vx_procs.specs.Cells.{IsCell, association_part, association_refusal, dissociation_part, dissociation_refusal, mark_part, mark_refusal};
ghost use Rattle.vx_procs.specs.Kernel.{Acts, Fits, changed, with_state};

use crate::procs::Core;
use vx_base::{Cell, Name, Pid, Routine};
use vx_clusters::{AscFail, Clusters, NewCluster};

// The place of an event flag among the 32 of its cluster.
fn place_in(cell: &Cell) -> u32
    ensures { result ≡ place_in cell.now }
{
    match cell {
        Cell::Local(_, n) => *n % 32,
        Cell::Common(_, _, n) => *n,
    }
}

// Sets or clears flag n of the cluster at a place.
fn put_flag(clusters: &mut Clusters, place: u32, n: u8, on: bool)
    requires place { place < length clusters.old.common.clusters }
    requires flag { n < 32 }
    ensures { clusters.new ≡ record clusters.old { common = with_flag_at clusters.old.common place n on } }
{
    if on {
        clusters.set(place, n);
    } else {
        clusters.clear(place, n);
    }
}

impl<R: Routine> Core<R> {
    /// The event flag that a number names now, if it names one: to 63 one of the process, and from there on one of a cluster that
    /// it has associated.
    pub fn cell(&self, p: Pid, efn: u32) -> Option<Cell>
        requires { IsProcess self.now.state p }
        ensures cell { result ≡ cell self.now.state p efn }
        ensures there { IfSome result (IsCell self.now.state) }
    {
        if efn < 64 {
            return Some(Cell::Local(p, efn));
        }
        let (group, name) = self.clusters.associated(p, efn / 32)?;
        Some(Cell::Common(group, name, efn % 32))
    }

    // The 32 flags of the cluster of a process's flag n, 0 to 63.
    fn local_flags(&self, p: Pid, n: u32) -> u32
        requires { IsProcess self.now.state p }
        ensures { result ≡ local_flags (process_at self.now.state p) n }
    {
        self.process_of(p).local_flags(n).bits()
    }

    // The 32 flags of the common cluster of a group and name.
    #[tactic(auto, using(crate::proofs::Cells::flags_there, crate::proofs::Cells::flags_nowhere))]
    fn cluster_flags(&self, group: u32, name: Name) -> u32
        ensures { result ≡ cluster_flags (find (is_cluster group name) self.now.state.common.clusters) }
    {
        match self.clusters.place(group, name) {
            Some(place) => self.clusters.bits(place),
            None => 0,
        }
    }

    /// The 32 flags of the cluster of an event flag, as a number ($READEF).
    pub fn flags_of(&self, cell: &Cell) -> u32
        requires { IsCell self.now.state cell.now }
        ensures { result ≡ flags_of self.now.state cell.now }
    {
        match cell {
            Cell::Local(p, n) => self.local_flags(*p, *n),
            Cell::Common(group, name, _) => self.cluster_flags(*group, *name),
        }
    }

    /// Whether an event flag is set.
    pub fn is_set(&self, cell: &Cell) -> bool
        requires { IsCell self.now.state cell.now }
        ensures { result ≡ is_set_in self.now.state cell.now }
    {
        let mask = 1u32 << place_in(cell);
        self.flags_of(cell) & mask != 0
    }

    // Sets or clears a process's flag n, 0 to 63.
    fn set_local(&mut self, p: Pid, n: u32, on: bool)
        requires made { IsProcess self.old.state p }
        requires local { n < 64 }
        ensures { self.new ≡ changed self.old p (with_local_flag n on) }
    {
        self.procs.at_mut(p).put_flag(n, on)
    }

    // Sets or clears flag n, 0 to 31, of the common cluster of a group and name.
    fn set_common(&mut self, group: u32, name: Name, n: u32, on: bool)
        requires { n < 32 }
        ensures { self.new ≡ with_state self.old (with_cell self.old.state (Common group name n) on) }
    {
        match self.clusters.place(group, name) {
            Some(place) => put_flag(&mut self.clusters, place, n as u8, on),
            None => (),
        }
    }

    /// Sets or clears an event flag ($SETEF, $CLREF).
    pub fn set_flag(&mut self, cell: &Cell, on: bool)
        requires { IsCell self.old.state cell.now }
        ensures { self.new ≡ with_state self.old (with_cell self.old.state cell.now on) }
    {
        match cell {
            Cell::Local(p, n) => self.set_local(*p, *n, on),
            Cell::Common(group, name, n) => self.set_common(*group, *name, *n, on),
        }
    }

    /// A process has the cluster of its group and this name as the cluster of a flag from 64 to 127, in place of what it had there;
    /// the cluster is made if it is new ($ASCEFC). Takes no memory.
    pub fn associate(
        &mut self,
        p: Pid,
        efn: u32,
        name: Name,
        permanent: bool,
    ) -> Result<(), AscFail>
        requires made { IsProcess self.old.state p }
        requires cluster { length self.old.state.common.clusters + 1 ≤ self.old.clusters }
        requires association { length self.old.state.common.associations + 1 ≤ self.old.associations }
        requires free { Fits self.old (association_part self.old.state p efn name permanent).effects }
        ensures answer { result ≡ answer (association_refusal self.old.state p efn name permanent) }
        ensures acts { Acts (association_part self.old.state p efn name permanent) self.old self.new }
    {
        let (group, may) = (self.group(p), self.privs(p).prmceb);
        let ask = NewCluster {
            group,
            name,
            permanent,
        };
        self.clusters.associate(p, efn, ask, may, &mut self.log)
    }

    /// A process has no cluster any more as the cluster of a flag from 64 to 127 ($DACEFC). Takes no memory.
    pub fn dissociate(&mut self, p: Pid, efn: u32) -> Result<(), AscFail>
        requires { Fits self.old (dissociation_part self.old.state p efn).effects }
        ensures answer { result ≡ answer (dissociation_refusal efn) }
        ensures acts { Acts (dissociation_part self.old.state p efn) self.old self.new }
    {
        self.clusters.dissociate(p, efn, &mut self.log)
    }

    /// Marks a permanent cluster of a process's group for deletion; it goes at once if nobody has it ($DLCEFC). Takes no
    /// memory.
    pub fn mark_cluster(&mut self, p: Pid, name: Name) -> Result<(), AscFail>
        requires made { IsProcess self.old.state p }
        requires free { Fits self.old (mark_part self.old.state p name).effects }
        ensures answer { result ≡ answer (mark_refusal self.old.state p) }
        ensures acts { Acts (mark_part self.old.state p name) self.old self.new }
    {
        let (group, may) = (self.group(p), self.privs(p).prmceb);
        self.clusters.mark(group, name, may, &mut self.log)
    }
}
