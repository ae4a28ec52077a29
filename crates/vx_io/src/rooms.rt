//! Spare room for the bytes of a transfer.

ghost use Rattle.std.specs.Prelude.{◌≡◌, ◌≤◌, false, IsTrue, OnOk, is_some, length};
ghost use Rattle.vx_io.specs.Rooms.{AreFull};

use std::alloc::Global;
use std::marker::Model;
use vx_base::{Buffer, Bytes, NoMemory};

/// Room for the bytes that one $QIO moves, made before it is needed: for those that the request keeps, that are told, that the mailbox
/// stores, and that a read gets. Contracts see which of the four are there.
pub struct Rooms {
    kept: Option<Buffer>,
    told: Option<Buffer>,
    stored: Option<Buffer>,
    read: Option<Buffer>,
}

impl Drop for Rooms {
    // Written out, so that it is proved here once, and not in each crate that lets one go.
    fn drop(self) {
        let Self {
            kept: _,
            told: _,
            stored: _,
            read: _,
        } = self;
    }
}

impl Model for Rooms {
    ghost use Rattle.std.specs.Prelude.{is_some};
    ghost use Rattle.vx_io.specs.Rooms.{Room};

    ghost Value = { Room };

    ghost view = { λ r. record { kept = is_some r.kept; told = is_some r.told; stored = is_some r.stored; read = is_some r.read } };
}

// Room, if there was none.
fn fill(room: &mut Option<Buffer>, alloc: Global) -> Result<(), NoMemory>
    ensures { OnOk result (IsTrue (is_some room.new)) }
{
    if room.is_none() {
        *room = Some(Buffer::new(alloc)?);
    }
    Ok(())
}

// The bytes of a piece, in this room.
fn put(room: &mut Option<Buffer>, piece: &[u8]) -> Bytes
    requires there { IsTrue (is_some room.old) }
    requires size { length piece.now ≤ 2048 }
    ensures bytes { result ≡ piece.now }
    ensures used { is_some room.new ≡ false }
{
    match room.take() {
        Some(room) => room.fill(piece),
        None => unreachable!(),
    }
}

impl Rooms {
    /// No room yet. Takes no memory.
    pub fn new() -> Rooms
        ensures { result ≡ record { kept = false; told = false; stored = false; read = false } }
    {
        Rooms {
            kept: None,
            told: None,
            stored: None,
            read: None,
        }
    }

    /// Makes the rooms that are missing.
    pub fn fill(&mut self, alloc: Global) -> Result<(), NoMemory>
        ensures ok { OnOk result (AreFull self.new) }
    {
        fill(&mut self.kept, alloc)?;
        fill(&mut self.told, alloc)?;
        fill(&mut self.stored, alloc)?;
        fill(&mut self.read, alloc)
    }

    // The bytes that a request keeps.
    pub(crate) fn kept(&mut self, piece: &[u8]) -> Bytes
        requires there { IsTrue self.old.kept }
        requires size { length piece.now ≤ 2048 }
        ensures bytes { result ≡ piece.now }
        ensures after { self.new ≡ record self.old { kept = false } }
    {
        put(&mut self.kept, piece)
    }

    // The bytes that are told.
    pub(crate) fn told(&mut self, piece: &[u8]) -> Bytes
        requires there { IsTrue self.old.told }
        requires size { length piece.now ≤ 2048 }
        ensures bytes { result ≡ piece.now }
        ensures after { self.new ≡ record self.old { told = false } }
    {
        put(&mut self.told, piece)
    }

    // The bytes that a mailbox stores.
    pub(crate) fn stored(&mut self, piece: &[u8]) -> Bytes
        requires there { IsTrue self.old.stored }
        requires size { length piece.now ≤ 2048 }
        ensures bytes { result ≡ piece.now }
        ensures after { self.new ≡ record self.old { stored = false } }
    {
        put(&mut self.stored, piece)
    }

    // The bytes that a read gets.
    pub(crate) fn read(&mut self, piece: &[u8]) -> Bytes
        requires there { IsTrue self.old.read }
        requires size { length piece.now ≤ 2048 }
        ensures bytes { result ≡ piece.now }
        ensures after { self.new ≡ record self.old { read = false } }
    {
        put(&mut self.read, piece)
    }
}
