//! Block units.

ghost use Rattle.std.specs.Prelude.{◌≡◌, ◌≢◌, ◌↔◌, ◌<◌, ◌+◌, ◌*◌, ◌==◌, IfOk, IsTrue, false, length, take, option_map};
ghost use Rattle.vx_image.specs.Units.{first_unit};
ghost use Rattle.vx_base.specs.Serving.{fails, is_past_end};
ghost use Rattle.vx_units.specs.Units.{Serving, has_lines, idle, bytes_of, block_at, outputs_of};

use crate::line::{duplicate_buffer, is_in};
use crate::unit::DeviceUnit;
use std::alloc::Global;
use std::marker::Model;
use std::mem::replace;
use vx_base::{Buffer, Bytes, Cond, Duplicate, Func, NoMemory, Reply, Req, Same};
use vx_image::{Numbers, UnitDecl};

/// How many bytes a block has.
const BLOCK_BYTES: usize = 512;

/// What a pending service of a block unit will do: count alone, or write bytes from a byte on.
#[derive(Drop)]
enum BlockPending {
    Idle,
    Counted,
    Wrote(usize, Bytes),
}

/// A block unit: blocks of 512 bytes, zero at first.
#[derive(Drop)]
pub struct BlockUnit {
    alloc: Global,
    bytes: Vec<u8>,
    faults: Numbers,
    services: u32,
    buffer: Option<Buffer>,
    pending: BlockPending,
}

impl Model for BlockUnit {
    ghost use Rattle.std.specs.Prelude.{length, is_some};
    ghost use Rattle.vx_units.specs.Units.{Serving};

    ghost Value = { Serving };

    ghost use Rattle.vx_units.specs.Blocks.{block_unit, block_pending, BlockStands};

    ghost view = { λ a. record { unit = block_unit a.bytes.items a.faults a.services; pending = block_pending a.pending a.bytes.items a.faults a.services; ready = is_some a.buffer } };

    ghost invariant = { λ a. BlockStands a.pending (length a.bytes.items) a.services };
}

impl BlockUnit {
    /// A unit as it is declared, with at least one block.
    pub fn new(alloc: Global, decl: &UnitDecl) -> Result<BlockUnit, NoMemory>
        requires { decl.now.blocks ≢ 0 }
        ensures { IfOk result (λ unit. unit ≡ idle (first_unit decl.now)) }
    {
        let len = decl.blocks as usize * BLOCK_BYTES;
        Ok(BlockUnit {
            alloc,
            bytes: vec![in alloc; 0; len]?,
            faults: decl.faults.duplicate()?,
            services: 0,
            buffer: None,
            pending: BlockPending::Idle,
        })
    }

    /// The same unit again, with its pending service, and ready if it was.
    pub fn duplicate(&self) -> Result<BlockUnit, NoMemory>
        ensures { IfOk result (λ copy. copy ≡ self.now) }
    {
        Ok(BlockUnit {
            alloc: self.alloc,
            bytes: self.bytes.clone()?,
            faults: self.faults.duplicate()?,
            services: self.services,
            buffer: duplicate_buffer(self.alloc, &self.buffer)?,
            pending: duplicate_pending(&self.pending)?,
        })
    }

    /// Whether it holds the same bytes, with the same faults and as many services. Takes no memory.
    pub fn same(&self, other: &BlockUnit) -> bool
        ensures { IsTrue result ↔ (self.now.unit ≡ other.now.unit) }
    {
        self.bytes.as_slice() == other.bytes.as_slice()
            && self.faults.same(&other.faults)
            && self.services == other.services
    }

    // It is no line unit.
    pub(crate) fn has_lines(&self) -> bool
        ensures answer { result ≡ false }
        ensures kind { has_lines self.now.unit.contents ≡ false }
    {
        let _services = self.services;
        false
    }

    /// The bytes of a block, by its number from 0. None exactly where the unit has no such block.
    pub fn block(&self, n: u32) -> Option<&[u8]>
        ensures { option_map (λ b. b.now) result ≡ block_at n (bytes_of self.now.unit.contents) }
    {
        let at = n as usize * BLOCK_BYTES;
        if at + BLOCK_BYTES <= self.bytes.len() {
            Some(&self.bytes[at..at + BLOCK_BYTES])
        } else {
            None
        }
    }

    /// The lines that were written to it: none.
    pub fn outputs(&self) -> &[Bytes]
        ensures { result.now ≡ outputs_of self.now.unit.contents }
    {
        let _services = self.services;
        &[]
    }

    /// How many services there were.
    pub fn services(&self) -> u32
        ensures { result ≡ self.now.unit.services }
    {
        self.services
    }

    // Whether the next service is one that fails.
    fn fails(&self) -> bool
        requires { self.now.unit.services < 4294967295 }
        ensures { result ≡ fails self.now.unit }
    {
        let number = self.services + 1;
        is_in(self.faults.as_slice(), number)
    }
}

// The same pending service again.
fn duplicate_pending(pending: &BlockPending) -> Result<BlockPending, NoMemory>
    ensures { IfOk result (λ copy. copy ≡ pending.now) }
{
    match pending {
        BlockPending::Idle => Ok(BlockPending::Idle),
        BlockPending::Counted => Ok(BlockPending::Counted),
        BlockPending::Wrote(at, piece) => Ok(BlockPending::Wrote(*at, piece.copy()?)),
    }
}

// Whether a request goes past the end of so many bytes.
fn is_past_end(req: &Req, bytes: &[u8]) -> bool
    ensures { result ≡ is_past_end req.now bytes.now }
{
    let at = req.blk as usize * BLOCK_BYTES;
    bytes.len() <= at || bytes.len() < at + req.len as usize
}

impl DeviceUnit for BlockUnit {
    ghost serving = { λ u. u };

    fn ready(&mut self, _req: &Req) -> Result<(), NoMemory> {
        let buffer = Buffer::new(self.alloc)?;
        self.buffer = Some(buffer);
        Ok(())
    }

    fn serve(&mut self, req: &Req) -> Reply {
        let fails = self.fails();
        let Some(buffer) = self.buffer.take() else {
            unreachable!();
        };
        if fails {
            self.pending = BlockPending::Counted;
            return Reply {
                cond: Cond::CtrlErr,
                count: 0,
                bytes: Bytes::new(self.alloc),
            };
        }
        if is_past_end(req, &self.bytes) {
            self.pending = BlockPending::Counted;
            return Reply {
                cond: Cond::IllBlkNum,
                count: 0,
                bytes: Bytes::new(self.alloc),
            };
        }
        let at = req.blk as usize * BLOCK_BYTES;
        if req.func == Func::Write {
            self.pending = BlockPending::Wrote(at, buffer.fill(req.bytes.as_slice()));
            Reply {
                cond: Cond::Normal,
                count: req.len,
                bytes: Bytes::new(self.alloc),
            }
        } else {
            self.pending = BlockPending::Counted;
            Reply {
                cond: Cond::Normal,
                count: req.len,
                bytes: buffer.fill(&self.bytes[at..at + req.len as usize]),
            }
        }
    }

    fn settle(&mut self) {
        match replace(&mut self.pending, BlockPending::Idle) {
            BlockPending::Idle => (),
            BlockPending::Counted => self.services += 1,
            BlockPending::Wrote(at, piece) => {
                self.bytes[at..at + piece.len()].copy_from_slice(piece.as_slice());
                self.services += 1;
            }
        }
    }
}
