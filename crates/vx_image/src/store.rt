//! What a process stores.

ghost use Rattle.std.specs.Prelude.{◌≡◌, ◌≤◌, ◌<◌, length, IfOk};
ghost use Rattle.vx_image.specs.Storage.{no_storage, stored_in, with_target, status_at, with_status, buffer_at, with_bytes};

use crate::buffers::Buffers;
use crate::status::{Block, Statuses};
use std::alloc::Global;
use std::marker::Model;
use vx_base::{Cond, NoMemory, Target};

/// How many variables a process has.
pub(crate) const VARIABLES: usize = 26;

/// What one process stores: variables A to Z, R0, 32 buffers of 2,048 bytes and 32 I/O status blocks.
#[derive(Drop)]
pub struct Store {
    pub(crate) vars: [u32; VARIABLES],
    pub(crate) r0: u32,
    pub(crate) buffers: Buffers,
    pub(crate) statuses: Statuses,
}

impl Model for Store {
    ghost use Rattle.vx_image.specs.Storage.{Storage};

    ghost Value = { Storage };

    ghost view = { λ s. record { vars = s.vars; r0 = s.r0; buffers = s.buffers; statuses = s.statuses } };
}

impl Store {
    /// All zero. Of the calls of a `Store`, this one and `snapshot` take memory.
    pub fn new(alloc: Global) -> Result<Store, NoMemory>
        ensures { IfOk result (λ store. store ≡ no_storage) }
    {
        Ok(Store {
            vars: [0; VARIABLES],
            r0: 0,
            buffers: Buffers::new(alloc)?,
            statuses: Statuses::new(),
        })
    }

    /// The value of a variable or of R0. A byte that is no capital letter names no variable, and has the value 0.
    pub fn value(&self, target: Target) -> u32
        ensures { result ≡ stored_in self.now target }
    {
        match target {
            Target::Var(v) => {
                if b'A' <= v && v <= b'Z' {
                    self.vars[(v - b'A') as usize]
                } else {
                    0
                }
            }
            Target::R0 => self.r0,
        }
    }

    /// Puts a value into a variable or into R0. A byte that is no capital letter names no variable, and changes nothing.
    pub fn set(&mut self, target: Target, n: u32)
        ensures { self.new ≡ with_target self.old target n }
    {
        match target {
            Target::Var(v) => {
                if b'A' <= v && v <= b'Z' {
                    self.vars[(v - b'A') as usize] = n;
                }
            }
            Target::R0 => self.r0 = n,
        }
    }

    /// The condition, the count of bytes and the device's information of an I/O status block, 1 to 32.
    pub fn iosb(&self, i: u32) -> (Option<Cond>, u32, u32)
        requires low { 1 ≤ i }
        requires high { i ≤ 32 }
        ensures { record { cond = result.0; count = result.1; info = result.2 } ≡ status_at self.now i }
    {
        let block = self.statuses.at(i as usize - 1);
        (block.cond, block.count, block.info)
    }

    /// Fills an I/O status block, 1 to 32, or clears it if the condition is none and the numbers are 0.
    pub fn set_iosb(&mut self, i: u32, cond: Option<Cond>, count: u32, info: u32)
        requires low { 1 ≤ i }
        requires high { i ≤ 32 }
        ensures { self.new ≡ with_status self.old i (record { cond = cond; count = count; info = info }) }
    {
        let block = Block { cond, count, info };
        self.statuses.set(i as usize - 1, block);
    }

    /// The 2,048 bytes of a buffer, 0 to 31.
    pub fn buf(&self, b: u32) -> &[u8]
        requires { b < 32 }
        ensures bytes { result.now ≡ buffer_at self.now b }
        ensures size { length result.now ≡ 2048 }
    {
        self.buffers.bytes(b)
    }

    /// Puts a piece of at most 2,048 bytes over the start of a buffer, 0 to 31.
    pub fn put(&mut self, b: u32, piece: &[u8])
        requires buffer { b < 32 }
        requires size { length piece.now ≤ 2048 }
        ensures { self.new ≡ with_bytes self.old b piece.now }
    {
        self.buffers.overlay(b, piece);
    }
}
