//! A list that contracts see as a list.

ghost use Rattle.std.specs.Prelude.{◌≡◌, [], ◌∷◌, ◌++◌, IfOk, OnOk, OnErr};

use crate::bytes::NoMemory;
use crate::same::{Duplicate, Same};
use std::alloc::Global;
use std::marker::Model;

/// Items in order, which contracts see as their list.
pub struct Sequence<T> {
    items: Vec<T>,
}

impl<T: Drop> Drop for Sequence<T> {
    // Written out, so that it is proved here once, and not in each crate that lets one go.
    fn drop(self) {
        let Self { items: _ } = self;
    }
}

impl<T> Model for Sequence<T> {
    ghost use Rattle.std.specs.Prelude.{List};

    ghost Value = { List T };

    ghost view = { λ s. s.items.items };
}

impl<T> Sequence<T> {
    /// No items. Takes no memory.
    pub fn new(alloc: Global) -> Sequence<T>
        ensures { result ≡ [] }
    {
        Sequence {
            items: Vec::new(alloc),
        }
    }

    /// The items of a `Vec`. Takes no memory.
    pub fn from_vec(items: Vec<T>) -> Sequence<T>
        ensures { result ≡ items.items }
    {
        Sequence { items }
    }

    /// The items.
    pub fn as_slice(&self) -> &[T]
        ensures { result.now ≡ self.now }
    {
        self.items.as_slice()
    }
}

impl<T: Drop> Sequence<T> {
    /// Appends an item, or changes nothing.
    pub fn push(&mut self, item: T) -> Result<(), NoMemory>
        ensures ok { OnOk result (self.new ≡ self.old ++ item ∷ []) }
        ensures err { OnErr result (self.new ≡ self.old) }
    {
        self.items.push(item)?;
        Ok(())
    }
}

impl<T: Same> Same for Sequence<T> {
    fn same(&self, other: &Sequence<T>) -> bool {
        if self.items.len() != other.items.len() {
            return false;
        }
        for (i, item) in self.items.iter().enumerate() {
            if !item.same(&other.items[i]) {
                return false;
            }
        }
        true
    }
}

impl<T: Duplicate> Sequence<T> {
    // The same items, with room for so many more.
    fn with_room(&self, more: usize) -> Result<Sequence<T>, NoMemory>
        ensures { IfOk result (λ copy. copy ≡ self.now) }
    {
        let room = self.items.len().saturating_add(more);
        let mut copy = Sequence::from_vec(Vec::with_capacity(*self.items.allocator(), room)?);
        for item in &self.items {
            copy.push(item.duplicate()?)?;
        }
        Ok(copy)
    }

    /// The same items and one more.
    pub fn with(&self, item: T) -> Result<Sequence<T>, NoMemory>
        ensures { IfOk result (λ more. more ≡ self.now ++ item ∷ []) }
    {
        let mut more = self.with_room(1)?;
        more.push(item)?;
        Ok(more)
    }
}

impl<T: Duplicate> Duplicate for Sequence<T> {
    fn duplicate(&self) -> Result<Sequence<T>, NoMemory> {
        self.with_room(0)
    }
}
