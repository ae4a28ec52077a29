//! Line units.

ghost use Rattle.std.specs.Prelude.{◌≡◌, ◌↔◌, ◌<◌, ◌≤◌, [], ◌+◌, ◌==◌, IfOk, IsTrue, length, take, drop, true};
ghost use Rattle.std.specs.List.{list_any};
ghost use Rattle.vx_image.specs.Units.{first_unit};
ghost use Rattle.vx_base.specs.Serving.{fails, serve, read_line};
ghost use Rattle.vx_units.specs.Units.{Serving, has_lines, idle, outputs_of};

use crate::unit::DeviceUnit;
use std::alloc::Global;
use std::marker::Model;
use std::mem::replace;
use vx_base::{
    Buffer, Bytes, Cond, Duplicate, Func, NoMemory, Reply, Req, Reserved, Same, Sequence,
};
use vx_image::{Lines, Numbers, UnitDecl};
use vx_same::{duplicate_items, duplicate_reserved, same_items};

/// What a pending service of a line unit will do: count alone, take a line of input, or give a line of output.
#[derive(Drop)]
enum LinePending {
    Idle,
    Counted,
    Took,
    Gave(Bytes),
}

/// A line unit: it gives the lines of its declaration, one a read, and keeps the lines that are written.
#[derive(Drop)]
pub struct LineUnit {
    alloc: Global,
    inputs: Lines,
    next: usize,
    outputs: Reserved<Bytes>,
    faults: Numbers,
    services: u32,
    buffer: Option<Buffer>,
    pending: LinePending,
}

impl Model for LineUnit {
    ghost use Rattle.std.specs.Prelude.{◌≤◌, ◌<◌, ◌≡◌, ◌+◌, ◌-◌, length, drop, is_some, true};
    ghost use Rattle.vx_units.specs.Units.{Serving};

    ghost Value = { Serving };

    ghost use Rattle.vx_units.specs.Lined.{line_unit, line_pending, given, LineStands};

    ghost view = { λ a. record { unit = line_unit (drop a.next a.inputs) a.outputs.items a.faults a.services; pending = line_pending a.pending (drop a.next a.inputs) a.outputs.items a.faults a.services; ready = is_some a.buffer } };

    ghost invariant = { λ a. (a.next ≤ length a.inputs) × (is_some a.buffer ≡ true → length a.outputs.items + given a.pending < a.outputs.capacity) × LineStands a.pending (length a.inputs - a.next) (length a.outputs.items) a.outputs.capacity a.services };
}

impl LineUnit {
    /// A unit as it is declared, with no blocks.
    pub fn new(alloc: Global, decl: &UnitDecl) -> Result<LineUnit, NoMemory>
        requires { decl.now.blocks ≡ 0 }
        ensures { IfOk result (λ unit. unit ≡ idle (first_unit decl.now)) }
    {
        Ok(LineUnit {
            alloc,
            inputs: decl.inputs.duplicate()?,
            next: 0,
            outputs: Reserved::new(alloc),
            faults: decl.faults.duplicate()?,
            services: 0,
            buffer: None,
            pending: LinePending::Idle,
        })
    }

    /// The same unit again, with its pending service, and ready if it was. The lines that were read are not copied.
    pub fn duplicate(&self) -> Result<LineUnit, NoMemory>
        ensures { IfOk result (λ copy. copy ≡ self.now) }
    {
        Ok(LineUnit {
            alloc: self.alloc,
            inputs: duplicate_left(self.alloc, &self.inputs, self.next)?,
            next: 0,
            outputs: duplicate_reserved(self.alloc, &self.outputs)?,
            faults: self.faults.duplicate()?,
            services: self.services,
            buffer: duplicate_buffer(self.alloc, &self.buffer)?,
            pending: duplicate_pending(&self.pending)?,
        })
    }

    /// Whether it holds the same lines, with the same faults and as many services. Takes no memory.
    pub fn same(&self, other: &LineUnit) -> bool
        ensures { IsTrue result ↔ (self.now.unit ≡ other.now.unit) }
    {
        same_left(&self.inputs, self.next, &other.inputs, other.next)
            && same_items(self.outputs.as_slice(), other.outputs.as_slice())
            && self.faults.same(&other.faults)
            && self.services == other.services
    }

    // It is a line unit.
    pub(crate) fn has_lines(&self) -> bool
        ensures answer { result ≡ true }
        ensures kind { has_lines self.now.unit.contents ≡ true }
    {
        let _services = self.services;
        true
    }

    /// The lines that were written.
    pub fn outputs(&self) -> &[Bytes]
        ensures { result.now ≡ outputs_of self.now.unit.contents }
    {
        self.outputs.as_slice()
    }

    /// How many services there were.
    pub fn services(&self) -> u32
        ensures { result ≡ self.now.unit.services }
    {
        self.services
    }

    // Whether the next service is one that fails.
    fn fails(&self) -> bool
        requires { self.now.unit.services < 4294967295 }
        ensures { result ≡ fails self.now.unit }
    {
        let number = self.services + 1;
        is_in(self.faults.as_slice(), number)
    }
}

/// Whether a number is in a list.
pub fn is_in(numbers: &[u32], number: u32) -> bool
    ensures { result ≡ list_any (λ n. n == number) numbers.now }
{
    numbers.iter().any(|n| *n == number)
}

/// Room for a transfer again, if there is some.
pub(crate) fn duplicate_buffer(
    alloc: Global,
    buffer: &Option<Buffer>,
) -> Result<Option<Buffer>, NoMemory>
    ensures { IfOk result (λ copy. copy ≡ buffer.now) }
{
    match buffer {
        Some(_) => Ok(Some(Buffer::new(alloc)?)),
        None => Ok(None),
    }
}

// The same pending service again.
fn duplicate_pending(pending: &LinePending) -> Result<LinePending, NoMemory>
    ensures { IfOk result (λ copy. copy ≡ pending.now) }
{
    match pending {
        LinePending::Idle => Ok(LinePending::Idle),
        LinePending::Counted => Ok(LinePending::Counted),
        LinePending::Took => Ok(LinePending::Took),
        LinePending::Gave(bytes) => Ok(LinePending::Gave(bytes.copy()?)),
    }
}

// The lines from a place on.
fn left_of(lines: &Lines, from: usize) -> &[Bytes]
    requires { from ≤ length lines.now }
    ensures { result.now ≡ drop from lines.now }
{
    &lines.as_slice()[from..]
}

// The same lines again from a place on.
fn duplicate_left(alloc: Global, lines: &Lines, from: usize) -> Result<Lines, NoMemory>
    requires { from ≤ length lines.now }
    ensures { IfOk result (λ copy. copy ≡ drop from lines.now) }
{
    let copy = duplicate_items(alloc, left_of(lines, from))?;
    Ok(Sequence::from_vec(copy))
}

// Whether lines from a place on are the same as others.
fn same_left(a: &Lines, from_a: usize, b: &Lines, from_b: usize) -> bool
    requires a { from_a ≤ length a.now }
    requires b { from_b ≤ length b.now }
    ensures { IsTrue result ↔ (drop from_a a.now ≡ drop from_b b.now) }
{
    same_items(left_of(a, from_a), left_of(b, from_b))
}

// The reply to a read of so many bytes that finds a line.
fn read_line(line: &[u8], buffer: Buffer, len: u32) -> Reply
    requires { len ≤ 2048 }
    ensures { result ≡ (read_line len line.now [] []).reply }
{
    let len = len as usize;
    if line.len() <= len {
        Reply {
            cond: Cond::Normal,
            count: line.len() as u32,
            bytes: buffer.fill(line),
        }
    } else {
        Reply {
            cond: Cond::BufferOvf,
            count: len as u32,
            bytes: buffer.fill(&line[..len]),
        }
    }
}

impl DeviceUnit for LineUnit {
    ghost serving = { λ u. u };

    fn ready(&mut self, _req: &Req) -> Result<(), NoMemory> {
        self.outputs.reserve(2)?;
        let buffer = Buffer::new(self.alloc)?;
        self.buffer = Some(buffer);
        Ok(())
    }

    fn serve(&mut self, req: &Req) -> Reply {
        let fails = self.fails();
        let Some(buffer) = self.buffer.take() else {
            unreachable!();
        };
        if fails {
            self.pending = LinePending::Counted;
            return Reply {
                cond: Cond::CtrlErr,
                count: 0,
                bytes: Bytes::new(self.alloc),
            };
        }
        if req.func == Func::Write {
            self.pending = LinePending::Gave(buffer.fill(req.bytes.as_slice()));
            return Reply {
                cond: Cond::Normal,
                count: req.len,
                bytes: Bytes::new(self.alloc),
            };
        }
        match self.inputs.as_slice().get(self.next) {
            Some(line) => {
                let reply = read_line(line.as_slice(), buffer, req.len);
                self.pending = LinePending::Took;
                reply
            }
            None => {
                self.pending = LinePending::Counted;
                Reply {
                    cond: Cond::EndOfFile,
                    count: 0,
                    bytes: Bytes::new(self.alloc),
                }
            }
        }
    }

    #[tactic(auto, using(crate::proofs::Dropped::drop_next))]
    fn settle(&mut self) {
        match replace(&mut self.pending, LinePending::Idle) {
            LinePending::Idle => (),
            LinePending::Counted => self.services += 1,
            LinePending::Took => {
                if self.next < self.inputs.as_slice().len() {
                    self.next += 1;
                    self.services += 1;
                }
            }
            LinePending::Gave(bytes) => {
                self.outputs.put(bytes);
                self.services += 1;
            }
        }
    }
}
