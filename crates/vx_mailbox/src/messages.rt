//! The messages of a mailbox, with a count of their bytes.

ghost use Rattle.std.specs.Prelude.{◌≡◌, ℕ, ◌+◌, ◌<◌, ◌≤◌, ◌++◌, ◌∷◌, [], IfSome, OnOk, length, nat_le, option_map, position};
ghost use Rattle.std.specs.List.{AllByRecursion, find, list_any};
ghost use Rattle.vx_base.specs.Lists.{first, less};
ghost use Rattle.vx_base.specs.Queues.{body_bytes, stored_bytes};
ghost use Rattle.vx_base.specs.Roomy.{HasSpace, with_items};
ghost use Rattle.vx_mailbox.specs.Boxes.{IsShort};
ghost use Rattle.vx_record.specs.Mailboxes.{this_message};

use crate::message::{duplicate_message, same_messages};
use std::alloc::Global;
use std::marker::Model;
use vx_base::{Body, Id, Msg, NoMemory, Reserved};

/// Messages, the oldest first, with room that was made before. Their bytes are counted, as long as a number can hold the count.
#[derive(Drop)]
pub(crate) struct Messages {
    items: Reserved<Msg>,
    bytes: Option<usize>,
}

impl Model for Messages {
    ghost use Rattle.vx_base.specs.Roomy.{Roomy};
    ghost use Rattle.vx_base.specs.declared.request.Msg.{Msg};
    ghost use Rattle.vx_mailbox.specs.Places.{AreStored};

    ghost Value = { Roomy Msg };

    ghost view = { λ m. m.items };

    ghost invariant = { λ m. AreStored m.items.items m.bytes };
}

// How many bytes a message has.
fn body_len(body: &Body) -> usize
    ensures { result ≡ length (body_bytes body.now) }
{
    match body {
        Body::Text(bytes) => bytes.len(),
        Body::Eof => 0,
    }
}

// A count of bytes, if there is one, with some more.
fn with_bytes(count: Option<usize>, len: usize) -> Option<usize>
    ensures { (n : ℕ) → IfSome count (λ bytes. bytes ≡ n) → IfSome result (λ bytes. bytes ≡ n + len) }
{
    match count {
        Some(bytes) => bytes.checked_add(len),
        None => None,
    }
}

// A count of bytes, if there is one, with some less.
fn without_bytes(count: Option<usize>, len: usize) -> Option<usize>
    ensures { (n : ℕ) → IfSome count (λ bytes. bytes ≡ len + n) → IfSome result (λ bytes. bytes ≡ n) }
{
    match count {
        Some(bytes) => bytes.checked_sub(len),
        None => None,
    }
}

// Whether messages have together at most so many bytes: goes over all of them.
fn are_within(messages: &[Msg], room: usize) -> bool
    ensures { result ≡ nat_le (stored_bytes messages.now) room }
{
    let mut left = room;
    for m in messages {
        let len = body_len(&m.body);
        if left < len {
            return false;
        }
        left -= len;
    }
    true
}

// Where the message with an id stands.
fn place_of(messages: &[Msg], id: Id) -> Option<usize>
    ensures place { result ≡ position (this_message id) messages.now }
    ensures within { IfSome result (λ i. i < length messages.now) }
{
    messages.iter().position(|m| m.id.0 == id.0)
}

impl Messages {
    /// No messages. Takes no memory.
    pub(crate) fn new(alloc: Global) -> Messages
        ensures { result.items ≡ [] }
    {
        Messages {
            items: Reserved::new(alloc),
            bytes: Some(0),
        }
    }

    // Has copies of the messages of a list in place of its own. If memory runs out, it has some of them.
    fn copy_all(&mut self, messages: &[Msg]) -> Result<(), NoMemory>
        requires { AllByRecursion IsShort messages.now }
        ensures { OnOk result (self.new.items ≡ messages.now) }
    {
        self.clear();
        for msg in messages {
            self.reserve()?;
            self.put(duplicate_message(msg)?);
        }
        Ok(())
    }

    /// Has the messages of a list in place of its own, with room for one more. Its own stay if they are the same. If memory runs out, it
    /// has some of them.
    pub(crate) fn restore(&mut self, messages: &[Msg]) -> Result<(), NoMemory>
        requires { AllByRecursion IsShort messages.now }
        ensures items { OnOk result (self.new.items ≡ messages.now) }
        ensures room { OnOk result (HasSpace self.new 1) }
    {
        if !same_messages(messages, self.as_slice()) {
            self.copy_all(messages)?;
        }
        self.reserve()
    }

    /// Makes room for a message more. Refused or not, the messages stay.
    pub(crate) fn reserve(&mut self) -> Result<(), NoMemory>
        ensures items { self.new.items ≡ self.old.items }
        ensures ok { OnOk result (HasSpace self.new 1) }
    {
        self.items.reserve(1)
    }

    /// The messages.
    pub(crate) fn as_slice(&self) -> &[Msg]
        ensures items { result.now ≡ self.now.items }
        ensures short { AllByRecursion IsShort result.now }
    {
        self.items.as_slice()
    }

    /// Whether they have together at most so many bytes.
    pub(crate) fn are_within(&self, room: u32) -> bool
        ensures { result ≡ nat_le (stored_bytes self.now.items) room }
    {
        match self.bytes {
            Some(bytes) => bytes <= room as usize,
            None => are_within(self.items.as_slice(), room as usize),
        }
    }

    /// Whether the message with an id is there.
    pub(crate) fn has(&self, id: Id) -> bool
        ensures { result ≡ list_any (this_message id) self.now.items }
    {
        self.items.as_slice().iter().any(|m| m.id.0 == id.0)
    }

    /// The id of the oldest message.
    pub(crate) fn oldest(&self) -> Option<Id>
        ensures { result ≡ option_map (λ m. m.id) (first self.now.items) }
    {
        match self.items.as_slice().first() {
            Some(m) => Some(m.id),
            None => None,
        }
    }

    /// Puts a message behind the others. Takes no memory.
    pub(crate) fn put(&mut self, msg: Msg)
        requires room { HasSpace self.old 1 }
        requires size { IsShort msg }
        ensures { self.new ≡ with_items self.old (self.old.items ++ msg ∷ []) }
    {
        let len = body_len(&msg.body);
        self.bytes = with_bytes(self.bytes, len);
        self.items.put(msg);
    }

    /// Takes out the message with an id. None exactly where there is none.
    pub(crate) fn take(&mut self, id: Id) -> Option<Msg>
        ensures found { result ≡ find (this_message id) self.old.items }
        ensures after { self.new ≡ with_items self.old (less (this_message id) self.old.items) }
        ensures fewer { length self.new.items ≤ length self.old.items }
        ensures size { IfSome result IsShort }
    {
        let place = place_of(self.items.as_slice(), id);
        let msg = self.items.take(place)?;
        self.bytes = without_bytes(self.bytes, body_len(&msg.body));
        Some(msg)
    }

    /// Takes all messages out; their room stays.
    pub(crate) fn clear(&mut self)
        ensures { self.new ≡ with_items self.old [] }
    {
        self.items.clear();
        self.bytes = Some(0);
    }
}
