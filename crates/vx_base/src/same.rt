//! Values that can be told apart, and copied.

ghost use Rattle.std.specs.Prelude.{◌≡◌, ◌↔◌, IsTrue, IfOk};

use crate::bytes::{Bytes, NoMemory};
use crate::frame::Frame;
use crate::name::Name;

/// A type whose values can be told apart.
pub trait Same {
    /// Whether it is the same as another. Takes no memory.
    fn same(&self, other: &Self) -> bool
        ensures { IsTrue result ↔ (self.now ≡ other.now) };
}

/// A type whose values can be copied if memory is found.
pub trait Duplicate: Drop {
    /// The same value again.
    fn duplicate(&self) -> Result<Self, NoMemory>
        ensures { IfOk result (λ copy. copy ≡ self.now) };
}

impl Same for u32 {
    fn same(&self, other: &u32) -> bool {
        *self == *other
    }
}

impl Same for Name {
    fn same(&self, other: &Name) -> bool {
        *self == *other
    }
}

impl Same for Frame {
    fn same(&self, other: &Frame) -> bool {
        *self == *other
    }
}

impl Same for Bytes {
    fn same(&self, other: &Bytes) -> bool {
        *self == *other
    }
}

impl Duplicate for u32 {
    fn duplicate(&self) -> Result<u32, NoMemory> {
        Ok(*self)
    }
}

impl Duplicate for Frame {
    fn duplicate(&self) -> Result<Frame, NoMemory> {
        Ok(*self)
    }
}

impl Duplicate for Bytes {
    fn duplicate(&self) -> Result<Bytes, NoMemory> {
        self.copy()
    }
}
