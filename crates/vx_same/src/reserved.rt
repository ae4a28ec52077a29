//! Lists with room.

ghost use Rattle.std.specs.Prelude.{◌≡◌, [], ◌≤◌, IfOk, OnOk, length};

use crate::list::duplicate_items;
use std::alloc::Global;
use std::marker::Model;
use vx_base::{Duplicate, NoMemory, Reserved};

/// Items in order in as little room as they take, and how many there was room for in all.
#[derive(Drop)]
pub struct ReservedSnapshot<T> {
    items: Vec<T>,
    room: usize,
}

impl<T> Model for ReservedSnapshot<T> {
    ghost use Rattle.vx_base.specs.Roomy.{Roomy};

    ghost Value = { Roomy T };

    ghost view = { λ s. record { items = s.items.items; capacity = s.room } };
}

impl<T> ReservedSnapshot<T> {
    /// The items.
    pub fn as_slice(&self) -> &[T]
        ensures { result.now ≡ self.now.items }
    {
        self.items.as_slice()
    }

    /// How many items there are.
    pub fn len(&self) -> usize
        ensures { result ≡ length self.now.items }
    {
        self.items.len()
    }
}

// Makes room for the greater of two numbers of items in a list that has none.
fn make_room<T: Drop>(list: &mut Reserved<T>, len: usize, room: usize) -> Result<(), NoMemory>
    requires { list.old.items ≡ [] }
    ensures none { list.new.items ≡ [] }
    ensures fits { OnOk result (len ≤ list.new.capacity) }
    ensures room { OnOk result (room ≤ list.new.capacity) }
{
    let Ok(wanted) = u32::try_from(len.max(room)) else {
        return Err(NoMemory);
    };
    list.reserve(wanted)
}

// Puts the same items into a list that has none.
fn put_all<T: Duplicate>(list: &mut Reserved<T>, items: &[T]) -> Result<(), NoMemory>
    requires none { list.old.items ≡ [] }
    requires room { length items.now ≤ list.old.capacity }
    ensures items { OnOk result (list.new.items ≡ items.now) }
    ensures room { list.new.capacity ≡ list.old.capacity }
{
    for item in items {
        list.put(item.duplicate()?);
    }
    Ok(())
}

/// The same items again, with as much room or more.
pub fn duplicate_reserved<T: Duplicate>(
    alloc: Global,
    list: &Reserved<T>,
) -> Result<Reserved<T>, NoMemory>
    ensures items { IfOk result (λ copy. copy.items ≡ list.now.items) }
    ensures room { IfOk result (λ copy. list.now.capacity ≤ copy.capacity) }
{
    let mut copy = Reserved::new(alloc);
    make_room(&mut copy, list.len(), list.capacity())?;
    put_all(&mut copy, list.as_slice())?;
    Ok(copy)
}

impl<T: Duplicate> ReservedSnapshot<T> {
    /// A list put away.
    pub fn new(alloc: Global, list: &Reserved<T>) -> Result<ReservedSnapshot<T>, NoMemory>
        ensures { IfOk result (λ snapshot. snapshot ≡ list.now) }
    {
        Ok(ReservedSnapshot {
            items: duplicate_items(alloc, list.as_slice())?,
            room: list.capacity(),
        })
    }

    /// The same items in a list, in place of its own, with as much room or more. If memory runs out, the list is of no more use.
    pub fn restore(&self, list: &mut Reserved<T>) -> Result<(), NoMemory>
        ensures items { OnOk result (list.new.items ≡ self.now.items) }
        ensures room { OnOk result (self.now.capacity ≤ list.new.capacity) }
    {
        list.clear();
        make_room(list, self.items.len(), self.room)?;
        put_all(list, self.items.as_slice())
    }
}
