//! The I/O status blocks of a process.

ghost use Rattle.std.specs.Prelude.{◌≡◌, ◌↔◌, ◌-◌, ◌<◌, ◌≤◌, drop, length, replicate, slice_index_or, slice_set, IfOk, IsTrue};
ghost use Rattle.vx_base.specs.Pieces.{cleared};
ghost use Rattle.vx_image.specs.Digest.{mix_status, mix_statuses};
ghost use Rattle.vx_image.specs.Filled.{all_statuses};
ghost use Rattle.vx_same.specs.Trimmed.{laid_over};

use std::alloc::Global;
use std::marker::Model;
use vx_base::{Cond, NoMemory, Same};
use vx_same::{mix, same_items};

/// How many I/O status blocks a process has.
const BLOCKS: usize = 32;

/// An I/O status block.
#[derive(Clone, Copy)]
pub(crate) struct Block {
    pub(crate) cond: Option<Cond>,
    pub(crate) count: u32,
    pub(crate) info: u32,
}

impl Model for Block {
    ghost use Rattle.vx_base.specs.Pieces.{Status};

    ghost Value = { Status };

    ghost view = { λ b. record { cond = b.cond; count = b.count; info = b.info } };

    ghost inverse = { λ s. record { cond = s.cond; count = s.count; info = s.info } };
}

impl Same for Block {
    fn same(&self, other: &Block) -> bool {
        self.cond == other.cond && self.count == other.count && self.info == other.info
    }
}

// Whether all blocks are clear.
fn are_clear(blocks: &[Block]) -> bool
    ensures { IsTrue result ↔ (blocks.now ≡ replicate (length blocks.now) cleared) }
{
    for block in blocks {
        if !is_clear(block) {
            return false;
        }
    }
    true
}

// Whether blocks are the same as more of them, all others being clear.
#[tactic(auto, using(vx_same::proofs::Trimmed::begun_same, vx_same::proofs::Trimmed::same_begun, vx_same::proofs::Trimmed::same_behind))]
fn same_filled(few: &[Block], more: &[Block]) -> bool
    requires few { length few.now ≤ length more.now }
    requires more { length more.now ≤ 32 }
    ensures { IsTrue result ↔ (all_statuses few.now ≡ all_statuses more.now) }
{
    let (front, behind) = more.split_at(few.len());
    same_items(few, front) && are_clear(behind)
}

// A digest with the numbers of an I/O status block, if they are not both zero.
fn mix_status(digest: u64, block: &Block) -> u64
    ensures { result ≡ mix_status digest block.now }
{
    if block.count == 0 && block.info == 0 {
        digest
    } else {
        mix(mix(digest, block.count as u64), block.info as u64)
    }
}

// A digest with the numbers of I/O status blocks.
fn mix_statuses(digest: u64, blocks: &[Block]) -> u64
    ensures { result ≡ mix_statuses digest blocks.now }
{
    let mut mixed = digest;
    for block in blocks {
        mixed = mix_status(mixed, block);
    }
    mixed
}

impl Block {
    /// A clear one.
    pub(crate) fn clear() -> Block
        ensures { result ≡ cleared }
    {
        Block {
            cond: None,
            count: 0,
            info: 0,
        }
    }
}

fn is_clear(block: &Block) -> bool
    ensures { IsTrue result ↔ (block.now ≡ cleared) }
{
    block.same(&Block::clear())
}

// How many blocks there are up to the last that is not clear, of which those behind the first so many are clear.
#[tactic(auto, using(crate::proofs::Filled::next_clear))]
fn count_filled(blocks: &[Block], used: usize) -> usize
    requires used { used ≤ length blocks.now }
    requires behind { drop used blocks.now ≡ replicate (length blocks.now - used) cleared }
    ensures within { result ≤ length blocks.now }
    ensures clear { drop result blocks.now ≡ replicate (length blocks.now - result) cleared }
{
    let mut count = used;
    while count > 0 && is_clear(&blocks[count - 1]) {
        count -= 1;
    }
    count
}

// Clears so many of the first blocks, and puts others over the first.
fn lay_over(blocks: &mut [Block], used: usize, first: &[Block])
    requires used { used ≤ length blocks.old }
    requires first { length first.now ≤ length blocks.old }
    ensures { blocks.new ≡ laid_over used cleared first.now blocks.old }
{
    blocks[..used].fill(Block::clear());
    blocks[..first.len()].copy_from_slice(first);
}

/// The 32 I/O status blocks of a process, which contracts see as their list. Behind the last one that was ever filled all are clear.
#[derive(Drop)]
pub(crate) struct Statuses {
    blocks: [Block; BLOCKS],
    used: usize,
}

impl Model for Statuses {
    ghost use Rattle.std.specs.Prelude.{◌≡◌, ◌-◌, ◌≤◌, List, drop, replicate};
    ghost use Rattle.vx_base.specs.Pieces.{Status, cleared};

    ghost Value = { List Status };

    ghost view = { λ s. s.blocks };

    ghost invariant = { λ s. (s.used ≤ 32) × (drop s.used s.blocks ≡ replicate (32 - s.used) cleared) };
}

impl Statuses {
    /// All clear.
    pub(crate) fn new() -> Statuses
        ensures { result ≡ replicate 32 cleared }
    {
        Statuses {
            blocks: [Block::clear(); BLOCKS],
            used: 0,
        }
    }

    /// The block at a place from 0.
    pub(crate) fn at(&self, i: usize) -> &Block
        requires { i < 32 }
        ensures { result.now ≡ slice_index_or self.now i cleared }
    {
        &self.blocks[i]
    }

    /// Puts a block in a place from 0.
    #[tactic(auto, using(crate::proofs::Filled::set_behind))]
    pub(crate) fn set(&mut self, i: usize, block: Block)
        requires { i < 32 }
        ensures { self.new ≡ slice_set self.old i block }
    {
        self.blocks[i] = block;
        self.used = self.used.max(i + 1);
    }

    // Has the first blocks as they are given, and all others clear.
    #[tactic(auto, using(vx_same::proofs::Trimmed::laid_filled, vx_same::proofs::Trimmed::alike_behind))]
    fn fill(&mut self, first: &[Block])
        requires { length first.now ≤ 32 }
        ensures { self.new ≡ all_statuses first.now }
    {
        lay_over(&mut self.blocks, self.used, first);
        self.used = first.len();
    }

    /// A digest with the numbers of the blocks.
    #[tactic(auto, using(crate::proofs::Mixed::mix_filled))]
    pub(crate) fn mix(&self, digest: u64) -> u64
        ensures { result ≡ mix_statuses digest self.now }
    {
        mix_statuses(digest, self.filled())
    }

    // Those up to the last that is not clear.
    #[tactic(auto, using(crate::proofs::Filled::statuses_front))]
    fn filled(&self) -> &[Block]
        ensures blocks { all_statuses result.now ≡ self.now }
        ensures few { length result.now ≤ 32 }
    {
        &self.blocks[..count_filled(&self.blocks, self.used)]
    }
}

/// The I/O status blocks put away: those up to the last that is not clear. Contracts see the 32.
#[derive(Drop)]
pub(crate) struct StatusesSnapshot {
    blocks: Vec<Block>,
}

impl Model for StatusesSnapshot {
    ghost use Rattle.std.specs.Prelude.{◌≤◌, List, length};
    ghost use Rattle.vx_base.specs.Pieces.{Status};
    ghost use Rattle.vx_image.specs.Filled.{all_statuses};

    ghost Value = { List Status };

    ghost view = { λ s. all_statuses s.blocks.items };

    ghost invariant = { λ s. length s.blocks.items ≤ 32 };
}

impl StatusesSnapshot {
    /// Blocks put away.
    pub(crate) fn of(alloc: Global, statuses: &Statuses) -> Result<StatusesSnapshot, NoMemory>
        ensures { IfOk result (λ snapshot. snapshot ≡ statuses.now) }
    {
        let mut blocks = Vec::new(alloc);
        blocks.extend_from_slice(statuses.filled())?;
        Ok(StatusesSnapshot { blocks })
    }

    /// The blocks, in place of others. Takes no memory.
    pub(crate) fn restore(&self, statuses: &mut Statuses)
        ensures { statuses.new ≡ self.now }
    {
        statuses.fill(&self.blocks);
    }

    /// Whether these are the blocks. Takes no memory.
    pub(crate) fn same(&self, statuses: &Statuses) -> bool
        ensures { IsTrue result ↔ (self.now ≡ statuses.now) }
    {
        let filled = statuses.filled();
        if self.blocks.len() <= filled.len() {
            same_filled(&self.blocks, filled)
        } else {
            same_filled(filled, &self.blocks)
        }
    }
}
