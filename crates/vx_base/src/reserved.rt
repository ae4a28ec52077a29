//! A list with room that was made before.

ghost use Rattle.std.specs.Prelude.{◌≡◌, ◌↔◌, ◌<◌, ◌≤◌, ◌+◌, ◌++◌, ◌∷◌, [], Bool, IfSome, IsSome, OnSome, OnOk, OnErr, length, insert, position, option_to_list, slice_set, slice_index_or};
ghost use Rattle.std.specs.Borrow.{sem, Lends};
ghost use Rattle.std.specs.List.{find};
ghost use Rattle.vx_base.specs.Lists.{first, less, rest};
ghost use Rattle.vx_base.specs.Roomy.{HasSpace, with_items};

use crate::bytes::NoMemory;
use crate::place::take_out;
use std::alloc::Global;
use std::marker::Model;

/// Items in order. Contracts see the items, and how many there is room for in all. Only `reserve` takes memory; what is
/// taken out leaves its room.
pub struct Reserved<T> {
    items: Vec<T>,
    room: usize,
}

impl<T: Drop> Drop for Reserved<T> {
    // Written out, so that it is proved here once, and not in each crate that lets one go.
    fn drop(self) {
        let Self { items: _, room: _ } = self;
    }
}

impl<T> Model for Reserved<T> {
    ghost use Rattle.std.specs.Prelude.{◌≤◌, vec_len, vec_capacity};
    ghost use Rattle.vx_base.specs.Roomy.{Roomy};

    ghost Value = { Roomy T };

    ghost view = { λ a. record { items = a.items.items; capacity = a.room } };

    ghost invariant = { λ a. (vec_len a.items ≤ a.room) × (a.room ≤ vec_capacity a.items) };
}

impl<T> Reserved<T> {
    /// No items, and room for none. Takes no memory.
    pub fn new(alloc: Global) -> Reserved<T>
        ensures { result ≡ record { items = []; capacity = 0 } }
    {
        Reserved {
            items: Vec::new(alloc),
            room: 0,
        }
    }

    /// The items.
    pub fn as_slice(&self) -> &[T]
        ensures { result.now ≡ self.now.items }
    {
        self.items.as_slice()
    }

    /// The items as a `Vec`. Takes no memory.
    pub fn into_vec(self) -> Vec<T>
        ensures { result.items ≡ self.items }
    {
        let Reserved { items, room: _ } = self;
        items
    }

    /// How many items there are.
    pub fn len(&self) -> usize
        ensures { result ≡ length self.now.items }
    {
        self.items.len()
    }

    /// How many items there is room for in all.
    pub fn capacity(&self) -> usize
        ensures { result ≡ self.now.capacity }
    {
        self.room
    }
}

impl<T: Drop> Reserved<T> {
    ghost use Rattle.vx_base.specs.contracts.reserved.Reserved.{the_row};

    /// Makes room for n items more, or changes nothing.
    pub fn reserve(&mut self, n: u32) -> Result<(), NoMemory>
        ensures items { self.new.items ≡ self.old.items }
        ensures kept { self.old.capacity ≤ self.new.capacity }
        ensures ok { OnOk result (HasSpace self.new n) }
        ensures err { OnErr result (self.new ≡ self.old) }
    {
        self.items.reserve(n as usize)?;
        self.room = self.items.capacity();
        Ok(())
    }

    /// Takes all items out; their room stays.
    pub fn clear(&mut self)
        ensures { self.new ≡ with_items self.old [] }
    {
        self.items.clear();
    }

    /// Puts an item at the end. Takes no memory.
    pub fn put(&mut self, item: T)
        requires { HasSpace self.old 1 }
        ensures { self.new ≡ with_items self.old (self.old.items ++ item ∷ []) }
    {
        match self.items.push(item) {
            Ok(()) => (),
            Err(_) => unreachable!(),
        }
    }

    /// Puts an item at a place. Takes no memory.
    pub fn put_at(&mut self, place: usize, item: T)
        requires room { HasSpace self.old 1 }
        requires within { place ≤ length self.old.items }
        ensures { self.new ≡ with_items self.old (insert self.old.items place item) }
    {
        match self.items.insert(place, item) {
            Ok(()) => (),
            Err(_) => unreachable!(),
        }
    }

    /// Takes out the item at a place, if there is one: the first that passes a test, for each test whose first place this is. Of other
    /// places no more is said than that the list gets no longer.
    pub fn take(&mut self, place: Option<usize>) -> Option<T>
        requires { IfSome place (λ i. i < length self.old.items) }
        ensures found { (p : T → Bool) → place ≡ position p self.old.items → result ≡ find p self.old.items }
        ensures after { (p : T → Bool) → place ≡ position p self.old.items → self.new ≡ with_items self.old (less p self.old.items) }
        ensures fewer { length self.new.items ≤ length self.old.items }
    {
        take_out(&mut self.items, place)
    }

    /// Takes out the first item, if there is one.
    pub fn take_first(&mut self) -> Option<T>
        ensures found { result ≡ first self.old.items }
        ensures after { self.new ≡ with_items self.old (rest self.old.items) }
    {
        if self.items.is_empty() {
            None
        } else {
            Some(self.items.remove(0))
        }
    }

    /// Takes out the last item, if there is one.
    pub fn pop(&mut self) -> Option<T>
        ensures last { self.old.items ≡ self.new.items ++ option_to_list result }
        ensures found { IsSome result ↔ (0 < length self.old.items) }
        ensures room { self.new.capacity ≡ self.old.capacity }
        ensures free { OnSome result (HasSpace self.new 1) }
    {
        self.items.pop()
    }

    /// The item at a place, to be changed where it stands.
    pub fn at_mut(&mut self, place: usize) -> &mut T
        requires { place < length self.old.items }
        ensures* writes_back { sem 𝓛 (Lends (the_row T.row) T.row self.entry result (λ item. with_items self.old (slice_set self.old.items place item))) }
        ensures value { result.now ≡ slice_index_or self.old.items place result.now }
    {
        &mut self.items[place]
    }
}
