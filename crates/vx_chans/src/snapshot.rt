//! The channels of a process in as little room as they take.

ghost use Rattle.std.specs.Prelude.{◌≡◌, ◌↔◌, ◌≤◌, IfOk, IsTrue, None, length};
ghost use Rattle.vx_same.specs.Trimmed.{filled_to, trimmed};

use crate::chans::Chans;
use crate::row::Row;
use std::alloc::Global;
use std::marker::Model;
use vx_base::{NoMemory, Same};
use vx_same::same_options;

/// The channels up to the last one that is assigned. Contracts see all 64, as those of `Chans`.
#[derive(Drop)]
pub struct ChansSnapshot {
    rows: Vec<Option<Row>>,
}

impl Model for ChansSnapshot {
    ghost use Rattle.std.specs.Prelude.{◌≡◌, ◌≤◌, List, None, Option, vec_len};
    ghost use Rattle.vx_base.specs.Pieces.{Channel};
    ghost use Rattle.vx_same.specs.Trimmed.{filled_to, trimmed};

    ghost Value = { List (Option Channel) };

    ghost view = { λ s. filled_to 64 None s.rows.items };

    ghost invariant = { λ s. (vec_len s.rows ≤ 64) × (trimmed s.rows.items ≡ s.rows.items) };
}

// The rows up to the last one that is assigned.
#[tactic(auto, using(vx_same::proofs::Trimmed::some_last, vx_same::proofs::Trimmed::none_last))]
fn trimmed(rows: &[Option<Row>]) -> &[Option<Row>]
    ensures { result.now ≡ trimmed rows.now }
{
    let mut kept = rows;
    while let Some((None, front)) = kept.split_last() {
        kept = front;
    }
    kept
}

impl ChansSnapshot {
    /// The first channels as rows say, and no other. Takes memory for those up to the last one that is assigned.
    #[tactic(auto, using(vx_same::proofs::Trimmed::shorter, vx_same::proofs::Trimmed::filled_same, vx_same::proofs::Trimmed::trimmed_again))]
    pub(crate) fn new(alloc: Global, rows: &[Option<Row>]) -> Result<ChansSnapshot, NoMemory>
        requires { length rows.now ≤ 64 }
        ensures { IfOk result (λ s. s ≡ filled_to 64 None rows.now) }
    {
        Ok(ChansSnapshot {
            rows: Vec::from_slice(alloc, trimmed(rows))?,
        })
    }

    /// The same channels in place of others. Takes no memory.
    pub fn restore(&self, chans: &mut Chans)
        ensures { chans.new ≡ self.now }
    {
        chans.fill(self.rows.as_slice());
    }

    // Whether the first channels are assigned as rows say, and no other.
    #[tactic(auto, using(vx_same::proofs::Trimmed::same_trimmed, vx_same::proofs::Trimmed::trimmed_same))]
    pub(crate) fn same_first(&self, rows: &[Option<Row>]) -> bool
        requires { length rows.now ≤ 64 }
        ensures { IsTrue result ↔ (self.now ≡ filled_to 64 None rows.now) }
    {
        same_options(self.rows.as_slice(), trimmed(rows))
    }

    /// Whether the same channels are assigned to the same devices, in the same modes, by a process. Takes no memory.
    pub fn same(&self, chans: &Chans) -> bool
        ensures { IsTrue result ↔ (self.now ≡ chans.now) }
    {
        self.same_first(chans.used())
    }
}
