//! Frames in as little room as they take.

ghost use Rattle.std.specs.Prelude.{◌≡◌, ◌↔◌, ◌≤◌, IfOk, IsTrue, OnOk, reverse};
ghost use Rattle.vx_frames.specs.Frames.{goes_inward};

use crate::frames::Frames;
use std::alloc::Global;
use std::marker::Model;
use std::mem::replace;
use vx_base::{Frame, NoMemory, Reserved};
use vx_same::{ReservedSnapshot, same_items};

/// The frames of a process, and how many there was room for in all. Contracts see them with the top first.
#[derive(Drop)]
pub struct FramesSnapshot {
    items: ReservedSnapshot<Frame>,
}

impl Model for FramesSnapshot {
    ghost use Rattle.std.specs.Prelude.{reverse, IsTrue};
    ghost use Rattle.vx_frames.specs.Frames.{Stack, goes_inward};

    ghost Value = { Stack };

    ghost view = { λ s. record { items = reverse s.items.items; capacity = s.items.capacity } };

    ghost invariant = { λ s. IsTrue (goes_inward (reverse s.items.items)) };
}

// Whether two lists of frames are the same, seen with the last first.
fn same_stacks(a: &[Frame], b: &[Frame]) -> bool
    ensures { IsTrue result ↔ (reverse a.now ≡ reverse b.now) }
{
    same_items(a, b)
}

impl FramesSnapshot {
    /// These frames, the top last.
    pub(crate) fn new(alloc: Global, items: &Reserved<Frame>) -> Result<FramesSnapshot, NoMemory>
        requires { IsTrue (goes_inward (reverse items.now.items)) }
        ensures { IfOk result (λ snapshot. snapshot ≡ record { items = reverse items.now.items; capacity = items.now.capacity }) }
    {
        Ok(FramesSnapshot {
            items: ReservedSnapshot::new(alloc, items)?,
        })
    }

    /// The same frames in place of others, with as much room or more. If memory runs out, the others are of no more use.
    pub fn restore(&self, alloc: Global, frames: &mut Frames) -> Result<(), NoMemory>
        ensures items { OnOk result (frames.new.items ≡ self.now.items) }
        ensures room { OnOk result (self.now.capacity ≤ frames.new.capacity) }
    {
        let mut items = replace(frames, Frames::new(alloc)).into_items();
        self.items.restore(&mut items)?;
        *frames = Frames::from_items(items);
        Ok(())
    }

    /// Whether it has the frames of a process. Takes no memory.
    pub fn same(&self, frames: &Frames) -> bool
        ensures { IsTrue result ↔ (self.now.items ≡ frames.now.items) }
    {
        same_stacks(self.items.as_slice(), frames.as_slice())
    }
}
