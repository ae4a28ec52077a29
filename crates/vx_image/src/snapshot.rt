//! What a process stores, put away in as little room as it takes.

ghost use Rattle.std.specs.Prelude.{◌≡◌, ◌↔◌, IfOk, IsTrue};
ghost use Rattle.vx_image.specs.Digest.{mix_all, mix_stored};

use crate::buffers::BuffersSnapshot;
use crate::status::StatusesSnapshot;
use crate::store::{Store, VARIABLES};
use std::alloc::Global;
use std::marker::Model;
use vx_base::NoMemory;
use vx_same::mix;

/// What a process stores, put away: of its buffers the bytes that were ever written, and its I/O status blocks up to the last that
/// is not clear. Contracts see all that is stored.
#[derive(Drop)]
pub struct StoreSnapshot {
    vars: [u32; VARIABLES],
    r0: u32,
    buffers: BuffersSnapshot,
    statuses: StatusesSnapshot,
}

impl Model for StoreSnapshot {
    ghost use Rattle.vx_image.specs.Storage.{Storage};

    ghost Value = { Storage };

    ghost view = { λ s. record { vars = s.vars; r0 = s.r0; buffers = s.buffers; statuses = s.statuses } };
}

// Whether two lists of variables are the same.
fn same_variables(a: &[u32], b: &[u32]) -> bool
    ensures { IsTrue result ↔ (a.now ≡ b.now) }
{
    a == b
}

// A digest with numbers more.
fn mix_all(digest: u64, numbers: &[u32]) -> u64
    ensures { result ≡ mix_all digest numbers.now }
{
    let mut mixed = digest;
    for n in numbers {
        mixed = mix(mixed, *n as u64);
    }
    mixed
}

impl Store {
    /// The same, put away. It takes memory for what was written.
    pub fn snapshot(&self, alloc: Global) -> Result<StoreSnapshot, NoMemory>
        ensures { IfOk result (λ snapshot. snapshot ≡ self.now) }
    {
        let buffers = BuffersSnapshot::of(alloc, &self.buffers)?;
        let statuses = StatusesSnapshot::of(alloc, &self.statuses)?;
        Ok(StoreSnapshot {
            vars: self.vars,
            r0: self.r0,
            buffers,
            statuses,
        })
    }
}

impl Store {
    /// A digest with R0, the variables, and the numbers of the I/O status blocks. Takes no memory.
    pub fn mix(&self, digest: u64) -> u64
        ensures { result ≡ mix_stored digest self.now }
    {
        let values = mix_all(mix(digest, self.r0 as u64), &self.vars);
        self.statuses.mix(values)
    }
}

impl StoreSnapshot {
    /// What was put away, in place of what another process stores. Takes no memory.
    pub fn restore(&self, store: &mut Store)
        ensures { store.new ≡ self.now }
    {
        store.vars = self.vars;
        store.r0 = self.r0;
        self.buffers.restore(&mut store.buffers);
        self.statuses.restore(&mut store.statuses);
    }

    /// Whether a process stores the same. Takes no memory.
    pub fn same(&self, store: &Store) -> bool
        ensures { IsTrue result ↔ (self.now ≡ store.now) }
    {
        self.r0 == store.r0
            && same_variables(&self.vars, &store.vars)
            && self.statuses.same(&store.statuses)
            && self.buffers.same(&store.buffers)
    }
}
