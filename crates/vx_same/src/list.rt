//! Lists.

ghost use Rattle.std.specs.Prelude.{◌≡◌, ◌↔◌, IfOk, IsTrue};

use std::alloc::Global;
use vx_base::{Duplicate, NoMemory, Same};

/// Whether two lists are the same, item by item. Takes no memory.
pub fn same_items<T: Same>(a: &[T], b: &[T]) -> bool
    ensures { IsTrue result ↔ (a.now ≡ b.now) }
{
    if a.len() != b.len() {
        return false;
    }
    for (i, item) in a.iter().enumerate() {
        if !item.same(&b[i]) {
            return false;
        }
    }
    true
}

/// The same items again, in as little room as they take.
pub fn duplicate_items<T: Duplicate>(alloc: Global, items: &[T]) -> Result<Vec<T>, NoMemory>
    ensures { IfOk result (λ copy. copy.items ≡ items.now) }
{
    let mut copy = Vec::with_capacity(alloc, items.len())?;
    for item in items {
        copy.push(item.duplicate()?)?;
    }
    Ok(copy)
}
