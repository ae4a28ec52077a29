//! Things in order, found by their names and numbers.

ghost use Rattle.std.specs.Prelude.{◌≡◌, ◌∷◌, ◌++◌, ◌&&◌, ◌==◌, [], OnOk, OnErr, bytes_eq, length};
ghost use Rattle.std.specs.List.{list_any};

use crate::named::Numbered;
use indexmap::IndexSet;
use std::alloc::Global;
use std::hash::{BuildHasherDefault, DefaultHasher};
use std::marker::Model;
use vx_base::{Name, NoMemory};

/// A name and a number, by which a thing is found.
#[derive(Clone, Copy, PartialEq, Eq, Hash)]
struct NumberedKey {
    name: Name,
    number: u32,
}

/// Things in order, found by their names and numbers. Contracts see their list.
#[derive(Drop)]
pub struct NumberedRegister<T: Numbered> {
    items: Vec<T>,
    keys: IndexSet<NumberedKey, BuildHasherDefault<DefaultHasher>>,
}

impl<T: Numbered> Model for NumberedRegister<T> {
    ghost use Rattle.std.specs.Prelude.{◌≡◌, ◌&&◌, ◌==◌, List, ℕ, bytes_eq};
    ghost use Rattle.std.specs.List.{list_any};

    ghost Value = { List T };

    ghost view = { λ r. r.items.items };

    ghost invariant = { λ r. (name : List ℕ) (number : ℕ) →
        list_any (λ key. bytes_eq name key.name && (number == key.number)) r.keys.keys
        ≡ list_any (λ item. bytes_eq name (T.name_of item) && (number == T.number_of item)) r.items.items };
}

impl<T: Numbered> NumberedRegister<T> {
    /// Nothing. Takes no memory.
    pub fn new(alloc: Global) -> NumberedRegister<T>
        ensures { result ≡ [] }
    {
        NumberedRegister {
            items: Vec::new(alloc),
            keys: IndexSet::with_hasher(alloc, BuildHasherDefault::new()),
        }
    }

    /// Whether there is a thing of a name and a number.
    pub fn has(&self, name: Name, number: u32) -> bool
        ensures { result ≡ list_any (λ item. bytes_eq name (T.name_of item) && (number == T.number_of item)) self.now }
    {
        self.keys.contains(&NumberedKey { name, number })
    }

    /// Adds a thing at the end, or changes nothing.
    pub fn push(&mut self, item: T) -> Result<(), NoMemory>
        ensures ok { OnOk result (self.new ≡ self.old ++ item ∷ []) }
        ensures err { OnErr result (self.new ≡ self.old) }
    {
        self.items.reserve(1)?;
        self.keys.insert(NumberedKey {
            name: item.name(),
            number: item.number(),
        })?;
        match self.items.push(item) {
            Ok(()) => Ok(()),
            Err(_) => unreachable!(),
        }
    }

    /// The things, in order.
    pub fn as_slice(&self) -> &[T]
        ensures { result.now ≡ self.now }
    {
        self.items.as_slice()
    }

    /// How many there are.
    pub fn len(&self) -> usize
        ensures { result ≡ length self.now }
    {
        self.items.len()
    }
}
