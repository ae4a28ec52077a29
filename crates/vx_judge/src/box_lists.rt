//! A list for each mailbox.

ghost use Rattle.std.specs.Prelude.{◌≡◌, ℕ, List, [], ◌∷◌, ◌++◌, OnOk, if◌then◌else◌, bytes_eq};

use crate::text::Text;
use std::alloc::Global;
use std::collections::HashMap;
use vx_base::NoMemory;

/// A list for each mailbox, by its name; a box that is not there has none.
#[derive(Drop)]
pub struct BoxLists<T: Drop> {
    map: HashMap<Text, Vec<T>>,
    alloc: Global,
}

impl<T: Drop> BoxLists<T> {
    ghost use Rattle.vx_judge.specs.BoxLists.{listed};

    /// All are empty. Takes no memory.
    pub fn new(alloc: Global) -> BoxLists<T>
        ensures { (name : List ℕ) → listed result name ≡ [] }
    {
        BoxLists {
            map: HashMap::new(alloc),
            alloc,
        }
    }

    /// The list of a box.
    pub fn at(&self, name: &Text) -> &[T]
        ensures { result.now ≡ listed self.now name.now }
    {
        match self.map.get(name) {
            Some(items) => items.as_slice(),
            None => &[],
        }
    }

    /// Takes the list of a box, and leaves none there.
    pub fn take(&mut self, name: &Text) -> Vec<T>
        ensures taken { result.items ≡ listed self.old name.now }
        ensures left { (other : List ℕ) → listed self.new other ≡ (if bytes_eq name.now other then [] else listed self.old other) }
    {
        match self.map.remove(name) {
            Some(items) => items,
            None => Vec::new(self.alloc),
        }
    }

    /// Puts a list in place of a box's.
    pub fn set(&mut self, name: Text, items: Vec<T>) -> Result<(), NoMemory>
        ensures { OnOk result ((other : List ℕ) → listed self.new other ≡ (if bytes_eq name other then items.items else listed self.old other)) }
    {
        self.map.insert(name, items)?;
        Ok(())
    }

    /// Puts an item at the end of a box's list.
    pub fn push(&mut self, name: Text, item: T) -> Result<(), NoMemory>
        ensures { OnOk result ((other : List ℕ) → listed self.new other ≡ (if bytes_eq name other then listed self.old other ++ item ∷ [] else listed self.old other)) }
    {
        let mut items = self.take(&name);
        items.push(item)?;
        self.set(name, items)
    }
}
