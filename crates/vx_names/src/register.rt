//! Things in order, found by their names.

ghost use Rattle.std.specs.Prelude.{◌≡◌, ◌∷◌, ◌++◌, [], Some, None, OnOk, OnErr, bytes_eq, length, position, if◌then◌else◌};
ghost use Rattle.std.specs.Option.{option_or};
ghost use Rattle.indexmap.specs.IndexMap.{get};

use crate::named::Named;
use indexmap::IndexMap;
use std::alloc::Global;
use std::hash::{BuildHasherDefault, DefaultHasher};
use std::marker::Model;
use vx_base::{Name, NoMemory};

/// The last place that a name can have.
const LAST_PLACE: usize = 4_294_967_295;

type Places = IndexMap<Name, u32, BuildHasherDefault<DefaultHasher>>;

/// Things in order, found by their names. Contracts see their list.
#[derive(Drop)]
pub struct Register<T: Named> {
    items: Vec<T>,
    places: Places,
}

impl<T: Named> Model for Register<T> {
    ghost use Rattle.std.specs.Prelude.{◌≡◌, List, ℕ, bytes_eq, position};
    ghost use Rattle.indexmap.specs.IndexMap.{get};

    ghost Value = { List T };

    ghost view = { λ r. r.items.items };

    ghost invariant = { λ r. (name : List ℕ) → get bytes_eq r.places name ≡ position (λ item. bytes_eq name (T.name_of item)) r.items.items };
}

// Notes where a name stands. A name that has a place keeps it.
#[tactic(auto, using(crate::proofs::Pushed::noted))]
fn note(places: &mut Places, name: Name, place: u32) -> Result<(), NoMemory>
    ensures ok { OnOk result ((k : _) → get bytes_eq places.new k ≡ option_or (get bytes_eq places.old k) (if bytes_eq k name then Some place else None)) }
    ensures err { OnErr result (places.new.entries ≡ places.old.entries) }
{
    if places.contains_key(&name) {
        return Ok(());
    }
    places.insert(name, place)?;
    Ok(())
}

impl<T: Named> Register<T> {
    /// Nothing. Takes no memory.
    pub fn new(alloc: Global) -> Register<T>
        ensures { result ≡ [] }
    {
        Register {
            items: Vec::new(alloc),
            places: IndexMap::with_hasher(alloc, BuildHasherDefault::new()),
        }
    }

    /// The place, from 0, of the first thing of a name.
    pub fn place(&self, name: Name) -> Option<u32>
        ensures { result ≡ position (λ item. bytes_eq name (T.name_of item)) self.now }
    {
        self.places.get(&name).copied()
    }

    /// Adds a thing at the end, or changes nothing. There is no memory for more than 2^32.
    pub fn push(&mut self, item: T) -> Result<(), NoMemory>
        ensures ok { OnOk result (self.new ≡ self.old ++ item ∷ []) }
        ensures err { OnErr result (self.new ≡ self.old) }
    {
        let place = self.items.len();
        if place > LAST_PLACE {
            return Err(NoMemory);
        }
        self.items.reserve(1)?;
        note(&mut self.places, item.name(), place as u32)?;
        match self.items.push(item) {
            Ok(()) => Ok(()),
            Err(_) => unreachable!(),
        }
    }

    /// The things, in order.
    pub fn as_slice(&self) -> &[T]
        ensures { result.now ≡ self.now }
    {
        self.items.as_slice()
    }

    /// How many there are.
    pub fn len(&self) -> usize
        ensures { result ≡ length self.now }
    {
        self.items.len()
    }

    /// The things alone, in order. Takes no memory.
    pub fn into_vec(self) -> Vec<T>
        ensures { result.items ≡ self }
    {
        let Register { items, places: _ } = self;
        items
    }
}
