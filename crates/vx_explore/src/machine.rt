//! What a machine offers, so that its runs can be explored.

ghost use Rattle.std.specs.Prelude.{◌≡◌, ◌↔◌, ◌<◌, ℕ, IfOk, IsTrue, OnOk};

use crate::ending::Ending;
use std::alloc::Global;
use vx_base::NoMemory;

/// A state of a machine, put away. At each step a run takes one of the enabled events.
pub trait Machine: Drop {
    /// How its runs end.
    type Ending: Ending;

    /// A machine that takes events.
    type Running: Drop;

    /// The state in which a machine is.
    ghost state_of: { Self.Running → Self };

    /// The number of events that are enabled.
    ghost enabled: { Self → ℕ };

    /// The state after the enabled event at a place.
    ghost after: { Self → ℕ → Self };

    /// How a run ends that stops in this state.
    ghost ending_of: { Self → Self.Ending };

    /// Any function of the state.
    ghost digest_of: { Self → ℕ };

    /// The state in which its runs start. No event changes it.
    ghost origin: { Self → Self };

    /// How many events are enabled.
    fn count(&self) -> u32
        ensures { result ≡ enabled self.now };

    /// Brings a machine, whatever its state was, to the state after the enabled event at a place, from 0. The origin stays that of this
    /// state.
    fn take(&self, pick: u32, machine: &mut Self::Running) -> Result<(), NoMemory>
        requires { pick < enabled self.now }
        ensures after { OnOk result (state_of machine.new ≡ after self.now pick) }
        ensures origin { OnOk result (origin (state_of machine.new) ≡ origin self.now) };

    /// The state of a machine, put away.
    fn put_away(alloc: Global, machine: &Self::Running) -> Result<Self, NoMemory>
        ensures { IfOk result (λ state. state ≡ state_of machine.now) };

    /// How a run ends that stops here. The machine's own state is of no more use after it.
    fn ending(&self, machine: &mut Self::Running) -> Result<Self::Ending, NoMemory>
        ensures { IfOk result (λ ending. ending ≡ ending_of self.now) };

    /// Whether a machine whose runs start where those of this state do is in this state. Takes no memory.
    fn same(&self, machine: &Self::Running) -> bool
        requires { origin self.now ≡ origin (state_of machine.now) }
        ensures { IsTrue result ↔ (self.now ≡ state_of machine.now) };

    /// By this number states are looked up. Different states that share it cost time alone.
    fn digest(machine: &Self::Running) -> u64
        ensures { result ≡ digest_of (state_of machine.now) };
}
