//! The place of a mailbox: one number of the table.

ghost use Rattle.std.specs.Prelude.{◌≡◌, ◌↔◌, ◌+◌, ◌≤◌, ◌++◌, ◌∷◌, ◌==◌, [], false, true, not, IfOk, IfSome, IsTrue, None, OnOk, Some, is_none, is_some, length, nat_le, option_map};
ghost use Rattle.std.specs.List.{AllByRecursion, find, list_any};
ghost use Rattle.vx_base.specs.Lists.{first, less};
ghost use Rattle.vx_base.specs.Queues.{stored_bytes};
ghost use Rattle.vx_mailbox.specs.Boxes.{IsShort, holding};
ghost use Rattle.vx_mailbox.specs.Digest.{mix_messages};
ghost use Rattle.vx_mailbox.specs.Heads.{mailbox_of};
ghost use Rattle.vx_mailbox.specs.Places.{HasRoomFor, with_box};
ghost use Rattle.vx_record.specs.Channels.{is_box_of};
ghost use Rattle.vx_record.specs.Mailboxes.{or_no_box, this_message};

use crate::mailbox::MailboxSnapshot;
use crate::message::{mix_messages, same_messages};
use crate::messages::Messages;
use std::alloc::Global;
use std::marker::Model;
use vx_base::{Id, Msg, Name, NoMemory, Same};

/// A mailbox without its messages: its name, whether it is permanent and marked for deletion, the longest message that it takes, and
/// how many bytes it stores at most.
#[derive(Clone, Copy)]
pub(crate) struct Head {
    name: Name,
    permanent: bool,
    marked: bool,
    maxmsg: u32,
    bufquo: u32,
}

/// A mailbox, or none, with the room for messages, which stays. Contracts see a `Place` of `specs/Places.antt`.
#[derive(Drop)]
pub(crate) struct BoxPlace {
    head: Option<Head>,
    messages: Messages,
}

impl Model for BoxPlace {
    ghost use Rattle.vx_mailbox.specs.Places.{Place};
    ghost use Rattle.vx_mailbox.specs.Heads.{HeldBy, box_of};

    ghost Value = { Place };

    ghost view = { λ p. record { box = box_of p.head p.messages.items; room = p.messages.capacity } };

    ghost invariant = { λ p. HeldBy p.head p.messages.items };
}

impl BoxPlace {
    /// The place of no mailbox. Takes no memory.
    pub(crate) fn new(alloc: Global) -> BoxPlace
        ensures none { result.box ≡ None }
        ensures room { HasRoomFor result }
    {
        BoxPlace {
            head: None,
            messages: Messages::new(alloc),
        }
    }

    /// Its mailbox, with its messages in room for exactly these; or none, and no memory is taken.
    pub(crate) fn snapshot(&self, alloc: Global) -> Result<Option<MailboxSnapshot>, NoMemory>
        ensures { IfOk result (λ s. s ≡ self.now.box) }
    {
        match self.head {
            Some(head) => Ok(Some(MailboxSnapshot::new(alloc, head, self.messages.as_slice())?)),
            None => Ok(None),
        }
    }

    /// Has a mailbox of this head with these messages in place of its own, with room for a message more. If memory runs out, the mailbox has
    /// some of them.
    pub(crate) fn restore(&mut self, head: Head, messages: &[Msg]) -> Result<(), NoMemory>
        requires { AllByRecursion IsShort messages.now }
        ensures mailbox { OnOk result (self.new.box ≡ Some (mailbox_of head messages.now)) }
        ensures room { OnOk result (HasRoomFor self.new) }
    {
        self.head = Some(head);
        self.messages.restore(messages)
    }

    /// Whether it has the mailbox of this head with these messages. Takes no memory.
    pub(crate) fn is_of(&self, head: &Head, messages: &[Msg]) -> bool
        ensures { IsTrue result ↔ (Some (mailbox_of head.now messages.now) ≡ self.now.box) }
    {
        match &self.head {
            Some(own) => head.same(own) && same_messages(messages, self.messages.as_slice()),
            None => false,
        }
    }

    /// A digest with what its mailbox stores, if there is one.
    pub(crate) fn mix(&self, digest: u64) -> u64
        ensures { result ≡ mix_messages digest (or_no_box self.now.box).messages }
    {
        mix_messages(digest, self.messages.as_slice())
    }

    /// Makes room for a message more. Refused or not, the mailbox stays.
    pub(crate) fn reserve(&mut self) -> Result<(), NoMemory>
        ensures same { self.new.box ≡ self.old.box }
        ensures ok { OnOk result (HasRoomFor self.new) }
    {
        self.messages.reserve()
    }

    /// Whether there is no mailbox.
    pub(crate) fn is_free(&self) -> bool
        ensures { result ≡ is_none self.now.box }
    {
        self.head.is_none()
    }

    /// Whether there is a mailbox of a name.
    pub(crate) fn is_named(&self, name: &[u8]) -> bool
        ensures { result ≡ is_box_of name.now self.now.box }
    {
        match &self.head {
            Some(head) => head.name.text() == name,
            None => false,
        }
    }

    /// Its mailbox's name.
    pub(crate) fn name(&self) -> Name
        requires { IsTrue (is_some self.now.box) }
        ensures { result ≡ (or_no_box self.now.box).name }
    {
        match &self.head {
            Some(head) => head.name,
            None => unreachable!(),
        }
    }

    /// The longest message that its mailbox takes, in bytes.
    pub(crate) fn maxmsg(&self) -> u32
        ensures { result ≡ (or_no_box self.now.box).maxmsg }
    {
        match &self.head {
            Some(head) => head.maxmsg,
            None => 0,
        }
    }

    /// How many bytes its mailbox stores at most.
    pub(crate) fn bufquo(&self) -> u32
        ensures { result ≡ (or_no_box self.now.box).bufquo }
    {
        match &self.head {
            Some(head) => head.bufquo,
            None => 0,
        }
    }

    /// Whether its mailbox is permanent.
    pub(crate) fn is_permanent(&self) -> bool
        ensures { result ≡ (or_no_box self.now.box).permanent }
    {
        match &self.head {
            Some(head) => head.permanent,
            None => false,
        }
    }

    /// Whether its mailbox is marked for deletion.
    pub(crate) fn is_marked(&self) -> bool
        ensures { result ≡ (or_no_box self.now.box).marked }
    {
        match &self.head {
            Some(head) => head.marked,
            None => false,
        }
    }

    // The messages of its mailbox.
    fn messages(&self) -> &Messages
        ensures { result.now.items ≡ (or_no_box self.now.box).messages }
    {
        &self.messages
    }

    /// Whether its mailbox can store so many bytes more.
    pub(crate) fn fits(&self, len: u32) -> bool
        ensures { result ≡ nat_le (stored_bytes (or_no_box self.now.box).messages + len) (or_no_box self.now.box).bufquo }
    {
        let quota = self.bufquo();
        len <= quota && self.messages().are_within(quota - len)
    }

    /// Whether its mailbox stores the message with an id.
    pub(crate) fn has(&self, id: Id) -> bool
        ensures { result ≡ list_any (this_message id) (or_no_box self.now.box).messages }
    {
        self.messages().has(id)
    }

    /// The id of the oldest message.
    pub(crate) fn oldest(&self) -> Option<Id>
        ensures { result ≡ option_map (λ m. m.id) (first (or_no_box self.now.box).messages) }
    {
        self.messages().oldest()
    }

    /// Whether its mailbox stores messages.
    pub(crate) fn has_messages(&self) -> bool
        ensures { result ≡ not (length (or_no_box self.now.box).messages == 0) }
    {
        !self.messages().as_slice().is_empty()
    }

    /// Stores a message. Takes no memory.
    pub(crate) fn put(&mut self, msg: Msg)
        requires stands { IsTrue (is_some self.old.box) }
        requires room { HasRoomFor self.old }
        requires size { IsShort msg }
        ensures { self.new ≡ with_box self.old (Some (holding (or_no_box self.old.box) ((or_no_box self.old.box).messages ++ msg ∷ []))) }
    {
        self.messages.put(msg);
    }

    /// Takes out the message with an id. None exactly where there is none.
    pub(crate) fn take(&mut self, id: Id) -> Option<Msg>
        requires { IsTrue (is_some self.old.box) }
        ensures found { result ≡ find (this_message id) (or_no_box self.old.box).messages }
        ensures after { self.new ≡ with_box self.old (Some (holding (or_no_box self.old.box) (less (this_message id) (or_no_box self.old.box).messages))) }
        ensures fewer { length (or_no_box self.new.box).messages ≤ length (or_no_box self.old.box).messages }
        ensures size { IfSome result IsShort }
    {
        self.messages.take(id)
    }

    /// Makes a mailbox there, which stores nothing. Takes no memory.
    pub(crate) fn make(&mut self, name: Name, permanent: bool, maxmsg: u32, bufquo: u32)
        requires { self.old.box ≡ None }
        ensures { self.new ≡ with_box self.old (Some (record { name = name; permanent = permanent; marked = false; maxmsg = maxmsg; bufquo = bufquo; messages = [] })) }
    {
        self.head = Some(Head {
            name,
            permanent,
            marked: false,
            maxmsg,
            bufquo,
        });
    }

    /// The mailbox is gone, with its messages.
    pub(crate) fn remove(&mut self)
        ensures { self.new ≡ with_box self.old None }
    {
        self.head = None;
        self.messages.clear();
    }

    /// Marks the mailbox for deletion.
    pub(crate) fn mark(&mut self)
        requires { IsTrue (is_some self.old.box) }
        ensures { self.new ≡ with_box self.old (Some (record (or_no_box self.old.box) { marked = true })) }
    {
        if let Some(head) = &mut self.head {
            head.marked = true;
        }
    }
}

impl Same for Head {
    fn same(&self, other: &Head) -> bool {
        self.name == other.name
            && self.permanent == other.permanent
            && self.marked == other.marked
            && self.maxmsg == other.maxmsg
            && self.bufquo == other.bufquo
    }
}
