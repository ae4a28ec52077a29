//! One mailbox in as little room as it takes.

ghost use Rattle.std.specs.Prelude.{◌≡◌, ◌↔◌, IfOk, IsTrue, OnOk, Some};
ghost use Rattle.std.specs.List.{AllByRecursion};
ghost use Rattle.vx_mailbox.specs.Boxes.{IsShort};
ghost use Rattle.vx_mailbox.specs.Heads.{mailbox_of};
ghost use Rattle.vx_mailbox.specs.Places.{HasRoomFor};

use crate::message::duplicate_messages;
use crate::place::{BoxPlace, Head};
use std::alloc::Global;
use std::marker::Model;
use vx_base::{Msg, NoMemory};

/// A mailbox, with room for exactly its messages. Contracts see the plain `Mailbox` of `vx_base`.
#[derive(Drop)]
pub(crate) struct MailboxSnapshot {
    head: Head,
    messages: Vec<Msg>,
}

impl Model for MailboxSnapshot {
    ghost use Rattle.std.specs.List.{AllByRecursion};
    ghost use Rattle.vx_base.specs.Pieces.{Mailbox};
    ghost use Rattle.vx_mailbox.specs.Boxes.{IsShort};
    ghost use Rattle.vx_mailbox.specs.Heads.{mailbox_of};

    ghost Value = { Mailbox };

    ghost view = { λ s. mailbox_of s.head s.messages.items };

    ghost invariant = { λ s. AllByRecursion IsShort s.messages.items };
}

impl MailboxSnapshot {
    /// The mailbox of a head and messages, which are copied.
    pub(crate) fn new(
        alloc: Global,
        head: Head,
        messages: &[Msg],
    ) -> Result<MailboxSnapshot, NoMemory>
        requires { AllByRecursion IsShort messages.now }
        ensures { IfOk result (λ s. s ≡ mailbox_of head messages.now) }
    {
        Ok(MailboxSnapshot {
            head,
            messages: duplicate_messages(alloc, messages)?,
        })
    }

    /// Has the same mailbox at a place, with room for a message more.
    pub(crate) fn restore(&self, place: &mut BoxPlace) -> Result<(), NoMemory>
        ensures same { OnOk result (place.new.box ≡ Some self.now) }
        ensures room { OnOk result (HasRoomFor place.new) }
    {
        place.restore(self.head, self.messages.as_slice())
    }

    /// Whether it is the mailbox of a place. Takes no memory.
    pub(crate) fn same(&self, place: &BoxPlace) -> bool
        ensures { IsTrue result ↔ (Some self.now ≡ place.now.box) }
    {
        place.is_of(&self.head, self.messages.as_slice())
    }
}
