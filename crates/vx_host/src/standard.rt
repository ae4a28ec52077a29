//! Any reader and any writer of std, with a count of its faults.
//!
//! Here the program meets the world. What is left or held is what the reader or the writer itself tells: a reader or a
//! writer in memory tells its bytes, and standard input and output tell nothing. So nothing is claimed of a file, a
//! pipe or a terminal behind them.

ghost use Rattle.std.specs.Prelude.{◌≡◌, ◌<◌, length, is_ok, if◌then◌else◌, IfOk};
ghost use Rattle.std.specs.Io.{ReadsAtMost, WritesAtMost};
ghost use Rattle.std.specs.Io.KnownBytes.{ReadConsumes, WriteAppends};
ghost use Rattle.vx_host.specs.Causes.{counted, HasCause};

use crate::sink::Sink;
use crate::source::{Failed, Source};
use std::io::{Read, Write};
use std::marker::Model;

/// A reader of std, with a count of its errors. Contracts see both.
#[derive(Drop)]
pub struct StdSource<R: Read + Drop> {
    reader: R,
    faults: u64,
}

impl<R: Read + Drop> Model for StdSource<R> {
    ghost use Rattle.vx_host.specs.Causes.{Counted};

    ghost Value = { Counted R };

    ghost view = { λ s. record { inner = s.reader; faults = s.faults } };
}

impl<R: Read + Drop> StdSource<R> {
    /// A source that reads from a reader. Nothing has failed yet.
    pub fn new(reader: R) -> StdSource<R>
        ensures { result ≡ record { inner = reader; faults = 0 } }
    {
        StdSource { reader, faults: 0 }
    }
}

impl<R: Read + Drop> Source for StdSource<R> {
    ghost left = { λ s. R.remaining s.inner };

    ghost faults = { λ s. s.faults };

    fn read(&mut self, buf: &mut [u8]) -> Result<usize, Failed>
        ensures bound { ReadsAtMost result buf.new }
        ensures bytes { ReadConsumes (R.remaining self.old.inner) (R.remaining self.new.inner)
            result buf.new }
        ensures cause { HasCause self.old.faults self.new.faults result }
        ensures count { self.new.faults ≡
            (if is_ok result then self.old.faults else counted self.old.faults) }
    {
        match self.reader.read(buf) {
            Ok(count) => Ok(count),
            Err(_) => {
                self.faults = self.faults.saturating_add(1);
                Err(Failed)
            }
        }
    }
}

/// A writer of std, with a count of its errors, and of the writes that took nothing of a piece that was not empty.
/// Contracts see both.
#[derive(Drop)]
pub struct StdSink<W: Write + Drop> {
    writer: W,
    faults: u64,
}

impl<W: Write + Drop> Model for StdSink<W> {
    ghost use Rattle.vx_host.specs.Causes.{Counted};

    ghost Value = { Counted W };

    ghost view = { λ s. record { inner = s.writer; faults = s.faults } };
}

impl<W: Write + Drop> StdSink<W> {
    /// A sink that writes to a writer. Nothing has failed yet.
    pub fn new(writer: W) -> StdSink<W>
        ensures { result ≡ record { inner = writer; faults = 0 } }
    {
        StdSink { writer, faults: 0 }
    }
}

impl<W: Write + Drop> Sink for StdSink<W> {
    ghost held = { λ s. W.contents s.inner };

    ghost faults = { λ s. s.faults };

    fn write(&mut self, piece: &[u8]) -> Result<usize, Failed>
        ensures bound { WritesAtMost result piece.now }
        ensures takes { IfOk result (λ n. 0 < length piece.now → 0 < n) }
        ensures bytes { WriteAppends (W.contents self.old.inner) (W.contents self.new.inner)
            result piece.now }
        ensures cause { HasCause self.old.faults self.new.faults result }
        ensures count { self.new.faults ≡
            (if is_ok result then self.old.faults else counted self.old.faults) }
    {
        match self.writer.write(piece) {
            Ok(count) if count > 0 || piece.is_empty() => Ok(count),
            _ => {
                self.faults = self.faults.saturating_add(1);
                Err(Failed)
            }
        }
    }
}
