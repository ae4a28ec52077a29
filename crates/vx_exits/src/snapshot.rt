//! Handlers in as little room as they take.

ghost use Rattle.std.specs.Prelude.{◌≡◌, ◌↔◌, ◌≤◌, IsTrue, OnOk};

use crate::declared::Declared;
use crate::exits::Exits;
use std::marker::Model;
use vx_base::{NoMemory, Routine};
use vx_same::{ReservedSnapshot, same_items};

/// The exit handlers of a process. Contracts see them with the newest first, and how many there was room for in all.
#[derive(Drop)]
pub struct ExitsSnapshot<R: Routine> {
    pub(crate) items: ReservedSnapshot<Declared<R>>,
}

impl<R: Routine> Model for ExitsSnapshot<R> {
    ghost use Rattle.vx_exits.specs.Exits.{Stack};

    ghost Value = { Stack };

    ghost view = { λ s. s.items };
}

impl<R: Routine> ExitsSnapshot<R> {
    /// The same handlers in place of others, each with a routine made from its tag, and as much room or more. If memory runs out, the
    /// others are of no more use.
    pub fn restore(&self, exits: &mut Exits<R>) -> Result<(), NoMemory>
        ensures items { OnOk result (exits.new.items ≡ self.now.items) }
        ensures room { OnOk result (self.now.capacity ≤ exits.new.capacity) }
    {
        self.items.restore(&mut exits.items)
    }

    /// Whether it has the handlers of a process, in the same order. Takes no memory.
    pub fn same(&self, exits: &Exits<R>) -> bool
        ensures { IsTrue result ↔ (self.now.items ≡ exits.now.items) }
    {
        same_items(self.items.as_slice(), exits.items.as_slice())
    }
}
