//! The queue in as little room as it takes.

ghost use Rattle.std.specs.Prelude.{◌≡◌, ◌↔◌, ◌≤◌, IsTrue, OnOk};

use crate::delivery::Delivery;
use crate::queue::AstQueue;
use std::marker::Model;
use vx_base::{NoMemory, Routine};
use vx_same::{ReservedSnapshot, same_items};

/// The queued ASTs of one process, the modes that have AST delivery enabled, and how many ASTs there was room for in all.
#[derive(Drop)]
pub struct AstQueueSnapshot<R: Routine> {
    pub(crate) items: ReservedSnapshot<Delivery<R>>,
    pub(crate) kernel: bool,
    pub(crate) exec: bool,
    pub(crate) supervisor: bool,
    pub(crate) user: bool,
}

impl<R: Routine> Model for AstQueueSnapshot<R> {
    ghost use Rattle.vx_ast.specs.Queue.{Queue};

    ghost Value = { Queue };

    ghost view = { λ s. record { items = s.items.items; enables = record { kernel = s.kernel; exec = s.exec; supervisor = s.supervisor; user = s.user }; capacity = s.items.capacity } };
}

impl<R: Routine> AstQueueSnapshot<R> {
    /// The same ASTs in a queue, in place of its own, each with a routine made from its tag, the same enables, and as much room or more. If
    /// memory runs out, the queue is of no more use.
    pub fn restore(&self, queue: &mut AstQueue<R>) -> Result<(), NoMemory>
        ensures items { OnOk result (queue.new.items ≡ self.now.items) }
        ensures enables { OnOk result (queue.new.enables ≡ self.now.enables) }
        ensures room { OnOk result (self.now.capacity ≤ queue.new.capacity) }
    {
        self.items.restore(&mut queue.items)?;
        queue.kernel = self.kernel;
        queue.exec = self.exec;
        queue.supervisor = self.supervisor;
        queue.user = self.user;
        Ok(())
    }

    /// Whether it has the ASTs of a queue, in the same order. Takes no memory.
    pub fn same_items(&self, queue: &AstQueue<R>) -> bool
        ensures { IsTrue result ↔ (self.now.items ≡ queue.now.items) }
    {
        same_items(self.items.as_slice(), queue.items.as_slice())
    }

    /// Whether it has the enables of a queue.
    pub fn same_enables(&self, queue: &AstQueue<R>) -> bool
        ensures { IsTrue result ↔ (self.now.enables ≡ queue.now.enables) }
    {
        self.kernel == queue.kernel
            && self.exec == queue.exec
            && self.supervisor == queue.supervisor
            && self.user == queue.user
    }
}
