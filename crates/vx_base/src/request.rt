//! Requests to devices ($QIO), messages of mailboxes, and what a device replies.

ghost use Rattle.std.specs.Prelude.{◌≡◌, IfOk};

use crate::bytes::{Bytes, NoMemory};
use crate::cond::Cond;
use crate::mode::Mode;
use crate::number::{BoxNo, Id, Pid, UnitNo};

/// What a request asks of a device: the function of a $QIO.
#[derive(Clone, Copy, Debug, PartialEq, Eq)]
pub enum Func {
    /// Reads; of a mailbox, waits for a message.
    Read,
    /// Reads of a mailbox, and does not wait.
    ReadNow,
    /// Writes; to a mailbox, ends when the message is read.
    Write,
    /// Writes to a mailbox, and does not wait.
    WriteNow,
    /// Writes an end of file to a mailbox, and ends when it is read.
    Eof,
    /// Writes an end of file to a mailbox, and does not wait.
    EofNow,
    /// Asks for an AST when a mailbox is read and has no message.
    ReadAttn,
    /// Asks for an AST when a mailbox has a message.
    WrtAttn,
}

/// What a channel is assigned to.
#[derive(Clone, Copy, Debug, PartialEq, Eq)]
pub enum Device {
    /// A line or block unit.
    Unit(UnitNo),
    /// A mailbox.
    Mailbox(BoxNo),
}

/// An accepted request: its process, its channel with that channel's mode and device, and the arguments of its $QIO: the
/// function, event flag, I/O status block (1 to 32, 0 for none), buffer (0 to 31), length in bytes and block (of 512 bytes).
/// `bytes` are those that a write took from its buffer.
#[derive(Drop, PartialEq)]
pub struct Req {
    pub id: Id,
    pub p: Pid,
    pub chan: u32,
    pub chan_mode: Mode,
    pub device: Device,
    pub func: Func,
    pub efn: u32,
    pub iosb: u32,
    pub buf: u32,
    pub len: u32,
    pub blk: u32,
    pub bytes: Bytes,
}

impl Req {
    /// The same request again.
    pub fn copy(&self) -> Result<Req, NoMemory>
        ensures { IfOk result (λ copy. copy ≡ self.now) }
    {
        let bytes = self.bytes.copy()?;
        Ok(Req {
            id: self.id,
            p: self.p,
            chan: self.chan,
            chan_mode: self.chan_mode,
            device: self.device,
            func: self.func,
            efn: self.efn,
            iosb: self.iosb,
            buf: self.buf,
            len: self.len,
            blk: self.blk,
            bytes,
        })
    }
}

/// What a unit replies to a request: the condition and the count for its I/O status block, and the bytes that were read.
#[derive(Drop, PartialEq)]
pub struct Reply {
    pub cond: Cond,
    pub count: u32,
    pub bytes: Bytes,
}

/// What a message of a mailbox is.
#[derive(Drop, PartialEq)]
pub enum Body {
    /// Bytes.
    Text(Bytes),
    /// An end of file.
    Eof,
}

/// A message of a mailbox: the id and the process of the write, what was written, and whether the write is held, that is,
/// still outstanding until the message is read.
#[derive(Drop, PartialEq)]
pub struct Msg {
    pub id: Id,
    pub writer: Pid,
    pub body: Body,
    pub held: bool,
}
