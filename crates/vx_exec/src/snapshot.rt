//! The executive, put away.

ghost use Rattle.std.specs.Prelude.{◌≡◌, ◌↔◌, IsTrue, OnErr, OnOk};
ghost use Rattle.vx_exec.specs.Sound.{IsGoing};
ghost use Rattle.vx_exec.specs.View.{LosesState, plan};

use crate::exec::Exec;
use std::marker::Model;
use vx_base::{NoMemory, Routine};
use vx_procs::CoreSnapshot;

/// An executive at one moment, in as little room as it takes: what the script says is shared, what was never written takes nothing, and
/// there is no room for what may come. It can be compared with an executive, and brought back as often as is wanted. It is for
/// routines of scripts, which are made from their tags.
#[derive(Drop)]
pub struct ExecSnapshot<R: Routine> {
    core: CoreSnapshot<R>,
    limit: u32,
    taken: u32,
}

impl<R: Routine> Model for ExecSnapshot<R> {
    ghost use Rattle.vx_exec.specs.Sound.{IsGoing};
    ghost use Rattle.vx_exec.specs.View.{Executive};

    ghost Value = { Executive };

    ghost view = { λ s. record { state = s.core; limit = s.limit; taken = s.taken } };

    ghost invariant = { λ s. IsGoing s.core s.limit s.taken };
}

impl<R: Routine> ExecSnapshot<R> {
    /// A state of a run that goes on, the limit of the run, and how many records it has.
    pub(crate) fn new(core: CoreSnapshot<R>, limit: u32, taken: u32) -> ExecSnapshot<R>
        requires { IsGoing core limit taken }
        ensures { result ≡ record { state = core; limit = limit; taken = taken } }
    {
        ExecSnapshot { core, limit, taken }
    }

    /// Has the executive that was put away in place of another. If memory runs out, the other has no processes any more; what else it keeps
    /// is its system, its limit and how many records it has.
    pub fn restore(&self, exec: &mut Exec<R>) -> Result<(), NoMemory>
        ensures ok { OnOk result (exec.new ≡ self.now) }
        ensures err { OnErr result (LosesState exec.old exec.new) }
    {
        exec.restore(&self.core, self.limit, self.taken)
    }

    /// Whether an executive is in the state that was put away, after as many records and with the same limit. Takes no memory.
    pub fn same(&self, exec: &Exec<R>) -> bool
        ensures { IsTrue result ↔ (self.now ≡ exec.now) }
    {
        exec.is_same(&self.core, self.limit, self.taken)
    }

    /// The same, of an executive of the same system and limit. It does not look at what the script says, so it costs what the state holds.
    pub fn is_at(&self, exec: &Exec<R>) -> bool
        requires { plan self.now ≡ plan exec.now }
        ensures { IsTrue result ↔ (self.now ≡ exec.now) }
    {
        exec.is_at(&self.core, self.taken)
    }
}
