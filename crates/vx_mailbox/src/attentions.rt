//! The attention entries of all processes.

ghost use Rattle.std.specs.Prelude.{◌≡◌, ◌↔◌, ◌<◌, ◌≤◌, ◌++◌, ◌∷◌, [], IfOk, IfSome, IsTrue, OnErr, OnOk, length, option_map, position};
ghost use Rattle.std.specs.List.{find};
ghost use Rattle.vx_base.specs.Lists.{less};
ghost use Rattle.vx_record.specs.Cancel.{is_attention_on};
ghost use Rattle.vx_record.specs.Mailboxes.{is_attention_at, this_attention};

use crate::attention::AttentionEntry;
use std::alloc::Global;
use std::marker::Model;
use vx_base::{BoxNo, Func, Id, NoMemory, Pid, Reserved, Routine, at_place};
use vx_same::{ReservedSnapshot, same_items};

/// The attention entries of all processes, in the order that they were added in.
#[derive(Drop)]
pub struct Attentions<R: Routine> {
    entries: Reserved<AttentionEntry<R>>,
}

impl<R: Routine> Model for Attentions<R> {
    ghost use Rattle.vx_mailbox.specs.Boxes.{Attentions};

    ghost Value = { Attentions };

    ghost view = { λ a. a.entries };
}

// Where the entry with an id stands.
fn place_of<R: Routine>(entries: &[AttentionEntry<R>], id: Id) -> Option<usize>
    ensures place { result ≡ position (this_attention id) entries.now }
    ensures within { IfSome result (λ i. i < length entries.now) }
{
    entries.iter().position(|a| a.has_id(id))
}

// Where the first entry stands that asks at a mailbox by a function.
fn place_at<R: Routine>(entries: &[AttentionEntry<R>], b: BoxNo, func: Func) -> Option<usize>
    ensures place { result ≡ position (is_attention_at b func) entries.now }
    ensures within { IfSome result (λ i. i < length entries.now) }
{
    entries.iter().position(|a| a.is_at(b, func))
}

// Where the first entry stands by which a process asks on a channel.
fn place_on<R: Routine>(entries: &[AttentionEntry<R>], p: Pid, chan: u32) -> Option<usize>
    ensures place { result ≡ position (is_attention_on p chan) entries.now }
    ensures within { IfSome result (λ i. i < length entries.now) }
{
    entries.iter().position(|a| a.is_on(p, chan))
}

/// The attention entries of all processes, in the order that they were added in, in as little room as they take, and how many there was
/// room for in all.
#[derive(Drop)]
pub struct AttentionsSnapshot<R: Routine> {
    entries: ReservedSnapshot<AttentionEntry<R>>,
}

impl<R: Routine> Model for AttentionsSnapshot<R> {
    ghost use Rattle.vx_mailbox.specs.Boxes.{Attentions};

    ghost Value = { Attentions };

    ghost view = { λ s. s.entries };
}

impl<R: Routine> AttentionsSnapshot<R> {
    /// The same entries in place of others, each with a routine made from its tag, and as much room or more. If memory runs out, the
    /// others are of no more use.
    pub fn restore(&self, attentions: &mut Attentions<R>) -> Result<(), NoMemory>
        ensures items { OnOk result (attentions.new.items ≡ self.now.items) }
        ensures room { OnOk result (self.now.capacity ≤ attentions.new.capacity) }
    {
        self.entries.restore(&mut attentions.entries)
    }

    /// Whether these are the entries, in the same order. Takes no memory.
    pub fn same(&self, attentions: &Attentions<R>) -> bool
        ensures { IsTrue result ↔ (self.now.items ≡ attentions.now.items) }
    {
        same_items(self.entries.as_slice(), attentions.entries.as_slice())
    }
}

impl<R: Routine> Attentions<R> {
    /// No entries, and room for none. Takes no memory.
    pub fn new(alloc: Global) -> Attentions<R>
        ensures { result ≡ record { items = []; capacity = 0 } }
    {
        Attentions {
            entries: Reserved::new(alloc),
        }
    }

    /// Makes room for an entry more, or changes nothing.
    pub fn reserve(&mut self) -> Result<(), NoMemory>
        ensures items { self.new.items ≡ self.old.items }
        ensures kept { self.old.capacity ≤ self.new.capacity }
        ensures ok { OnOk result (length self.new.items < self.new.capacity) }
        ensures err { OnErr result (self.new ≡ self.old) }
    {
        self.entries.reserve(1)
    }

    /// The same entries put away. Each routine is made from its tag.
    pub fn snapshot(&self, alloc: Global) -> Result<AttentionsSnapshot<R>, NoMemory>
        ensures { IfOk result (λ snapshot. snapshot ≡ self.now) }
    {
        Ok(AttentionsSnapshot {
            entries: ReservedSnapshot::new(alloc, &self.entries)?,
        })
    }

    /// How many entries there are.
    pub fn len(&self) -> usize
        ensures { result ≡ length self.now.items }
    {
        self.entries.len()
    }

    /// Adds an entry behind the others. Takes no memory.
    pub fn add(&mut self, entry: AttentionEntry<R>)
        requires { length self.old.items < self.old.capacity }
        ensures { self.new ≡ record self.old { items = self.old.items ++ entry ∷ [] } }
    {
        self.entries.put(entry);
    }

    /// The first entry that asks at a mailbox by a function. None exactly where there is none.
    pub fn first_at(&self, b: BoxNo, func: Func) -> Option<Id>
        ensures { result ≡ option_map (λ a. a.id) (find (is_attention_at b func) self.now.items) }
    {
        let entries = self.entries.as_slice();
        let found = at_place(entries, place_at(entries, b, func))?;
        Some(found.id())
    }

    /// The first entry by which a process asks on a channel. None exactly where there is none.
    pub fn first_on(&self, p: Pid, chan: u32) -> Option<Id>
        ensures { result ≡ option_map (λ a. a.id) (find (is_attention_on p chan) self.now.items) }
    {
        let entries = self.entries.as_slice();
        let found = at_place(entries, place_on(entries, p, chan))?;
        Some(found.id())
    }

    /// Takes out the entry with an id. None exactly where there is none.
    pub fn take(&mut self, id: Id) -> Option<AttentionEntry<R>>
        ensures found { result ≡ find (this_attention id) self.old.items }
        ensures after { self.new ≡ record self.old { items = less (this_attention id) self.old.items } }
    {
        let place = place_of(self.entries.as_slice(), id);
        self.entries.take(place)
    }
}
