//! Where bytes come from.

ghost use Rattle.std.specs.Prelude.{◌+◌, ◌≤◌, ℕ, List, Option, IfOk, IsErrOf};
ghost use Rattle.std.specs.Io.{ReadsAtMost};
ghost use Rattle.std.specs.Io.KnownBytes.{ReadConsumes};
ghost use Rattle.vx_host.specs.Causes.{HasCause, Rose};
ghost use Rattle.vx_host.specs.Streams.{TakesAll, Takes, TakesAtMost};

use std::alloc::Global;
use thiserror::Error;
use vx_base::{Bytes, NoMemory};

/// A read or a write failed.
#[derive(Clone, Copy, Debug, PartialEq, Eq)]
pub struct Failed;

/// Why a source was not read to its end.
#[derive(Debug, Drop, Error)]
pub enum ReadFail {
    /// A read failed.
    #[error("a read failed")]
    Fault,
    /// There are more bytes than the caller takes.
    #[error("there are more bytes than are taken")]
    TooLong,
    /// Memory ran out.
    #[error("no memory was found")]
    NoMemory,
}

impl From<Failed> for ReadFail {
    ghost use Rattle.std.specs.Prelude.{◌≡◌};
    ghost use Rattle.vx_host.specs.declared.source.ReadFail.{ReadFail};

    ghost from_gives = { λ _ e. e ≡ ReadFail.Fault };

    fn from(_: Failed) -> Self {
        ReadFail::Fault
    }
}

impl From<NoMemory> for ReadFail {
    ghost use Rattle.std.specs.Prelude.{◌≡◌};
    ghost use Rattle.vx_host.specs.declared.source.ReadFail.{ReadFail};

    ghost from_gives = { λ _ e. e ≡ ReadFail.NoMemory };

    fn from(_: NoMemory) -> Self {
        ReadFail::NoMemory
    }
}

/// Gives bytes, and counts its faults.
pub trait Source {
    /// The bytes that are left, if the source tells them.
    ghost left: { Self → Option (List ℕ) };

    /// How many reads have failed.
    ghost faults: { Self → ℕ };

    /// Reads into the start of a buffer, and says how many bytes: 0 only at the end, unless the buffer is empty.
    fn read(&mut self, buf: &mut [u8]) -> Result<usize, Failed>
        ensures bound { ReadsAtMost result buf.new }
        ensures bytes { ReadConsumes (left self.old) (left self.new) result buf.new }
        ensures cause { HasCause (faults self.old) (faults self.new) result };
}

/// All bytes up to the end, at most `max`. Refuses a source with more, once it has given `max + 1`.
pub fn read_all<S: Source>(alloc: Global, source: &mut S, max: u32) -> Result<Bytes, ReadFail>
    ensures all { IfOk result (λ bytes. TakesAll max (S.left source.old) (S.left source.new) bytes) }
    ensures too_long { IsErrOf result ReadFail.TooLong →
        Takes (max + 1) (S.left source.old) (S.left source.new) }
    ensures fault { IsErrOf result ReadFail.Fault →
        TakesAtMost max (S.left source.old) (S.left source.new) × Rose (S.faults source.old) (S.faults source.new) }
    ensures later { S.faults source.old ≤ S.faults source.new }
{
    let mut bytes = Bytes::new(alloc);
    let mut buf = [0u8; 4096];
    let most = max as usize + 1;
    while bytes.len() < most {
        let room = most - bytes.len();
        let want = room.min(4096);
        let piece = &mut buf[..want];
        let count = source.read(piece)?;
        if count == 0 {
            return Ok(bytes);
        }
        bytes.push_all(&piece[..count])?;
    }
    Err(ReadFail::TooLong)
}
