//! Room for the bytes of one transfer.

ghost use Rattle.std.specs.Prelude.{◌≡◌, ◌≤◌, IfOk, length};

use crate::bytes::{Bytes, NoMemory};
use std::alloc::Global;
use std::marker::Model;

/// The most bytes that one transfer has.
pub const BUFFER_BYTES: usize = 2048;

/// Room for `BUFFER_BYTES` bytes, made before it is needed. Contracts see nothing in it.
pub struct Buffer {
    items: Vec<u8>,
}

impl Drop for Buffer {
    // Written out, so that it is proved here once, and not in each crate that lets one go.
    fn drop(self) {
        let Self { items: _ } = self;
    }
}

impl Model for Buffer {
    ghost use Rattle.std.specs.Prelude.{◌≡◌, ◌≤◌, [], ⊤, vec_capacity};

    ghost Value = { ⊤ };

    ghost view = { λ b. tt };

    ghost invariant = { λ b. (b.items.items ≡ []) × (2048 ≤ vec_capacity b.items) };
}

impl Buffer {
    /// Empty room.
    pub fn new(alloc: Global) -> Result<Buffer, NoMemory>
        ensures { IfOk result (λ buffer. buffer ≡ tt) }
    {
        let mut items = Vec::new(alloc);
        items.reserve(BUFFER_BYTES)?;
        Ok(Buffer { items })
    }

    /// The bytes of a piece, in this room. Takes no memory.
    pub fn fill(self, piece: &[u8]) -> Bytes
        requires { length piece.now ≤ 2048 }
        ensures { result ≡ piece.now }
    {
        let Buffer { mut items } = self;
        match items.extend_from_slice(piece) {
            Ok(()) => (),
            Err(_) => unreachable!(),
        }
        Bytes::from_vec(items)
    }
}
