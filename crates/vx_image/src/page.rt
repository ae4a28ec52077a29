//! A buffer of a process.

ghost use Rattle.std.specs.Prelude.{◌≡◌, ◌↔◌, ◌≤◌, ◌++◌, drop, length, replicate, IfOk, IsTrue};
ghost use Rattle.vx_base.specs.Lists.{overlaid};
ghost use Rattle.vx_image.specs.Filled.{page_of};

use std::alloc::Global;
use std::marker::Model;
use vx_base::{BUFFER_BYTES, NoMemory};

/// A buffer: 2,048 bytes, which contracts see as their list. Behind the last byte that was ever written all are zero.
#[derive(Drop)]
pub(crate) struct Page {
    bytes: [u8; BUFFER_BYTES],
    written: usize,
}

impl Model for Page {
    ghost use Rattle.std.specs.Prelude.{◌≡◌, ◌-◌, ◌≤◌, List, ℕ, drop, replicate};

    ghost Value = { List ℕ };

    ghost view = { λ p. p.bytes };

    ghost invariant = { λ p. (p.written ≤ 2048) × (drop p.written p.bytes ≡ replicate (2048 - p.written) 0) };
}

/// All bytes zero.
static ZEROS: [u8; BUFFER_BYTES] = [0; BUFFER_BYTES];

/// The bytes of a buffer that was never written.
pub(crate) fn zeros() -> &'static [u8]
    ensures { result.now ≡ replicate 2048 0 }
{
    &ZEROS
}

// Puts a piece over the start of bytes.
fn lay_over(bytes: &mut [u8], piece: &[u8])
    requires { length piece.now ≤ length bytes.old }
    ensures { bytes.new ≡ overlaid piece.now bytes.old }
{
    bytes[..piece.len()].copy_from_slice(piece);
}

// Clears so many of the first bytes.
fn clear_front(bytes: &mut [u8], count: usize)
    requires { count ≤ length bytes.old }
    ensures { bytes.new ≡ replicate count 0 ++ drop count bytes.old }
{
    bytes[..count].fill(0);
}

impl Page {
    /// All bytes zero.
    pub(crate) fn new() -> Page
        ensures { result ≡ replicate 2048 0 }
    {
        Page {
            bytes: [0; BUFFER_BYTES],
            written: 0,
        }
    }

    /// Its bytes.
    pub(crate) fn bytes(&self) -> &[u8]
        ensures bytes { result.now ≡ self.now }
        ensures size { length self.now ≡ 2048 }
    {
        &self.bytes
    }

    /// Its bytes up to the last that was ever written.
    #[tactic(auto, using(crate::proofs::Filled::page_front))]
    pub(crate) fn written(&self) -> &[u8]
        ensures bytes { page_of result.now ≡ self.now }
        ensures few { length result.now ≤ 2048 }
    {
        &self.bytes[..self.written]
    }

    // Clears all bytes.
    #[tactic(auto, using(crate::proofs::Filled::zeros_all))]
    fn clear(&mut self)
        ensures { self.new ≡ replicate 2048 0 }
    {
        clear_front(&mut self.bytes, self.written);
        self.written = 0;
    }

    /// Has these bytes, and zeros behind them.
    #[tactic(auto, using(crate::proofs::Filled::page_laid))]
    pub(crate) fn fill(&mut self, bytes: &[u8])
        requires { length bytes.now ≤ 2048 }
        ensures { self.new ≡ page_of bytes.now }
    {
        self.clear();
        self.overlay(bytes);
    }

    /// Puts a piece over its start.
    #[tactic(auto, using(crate::proofs::Filled::zeros_behind))]
    pub(crate) fn overlay(&mut self, piece: &[u8])
        requires { length piece.now ≤ 2048 }
        ensures { self.new ≡ overlaid piece.now self.old }
    {
        lay_over(&mut self.bytes, piece);
        self.written = self.written.max(piece.len());
    }
}

/// A buffer put away: its bytes up to the last that was ever written. Contracts see the 2,048.
#[derive(Drop)]
pub(crate) struct PageSnapshot {
    bytes: Vec<u8>,
}

impl Model for PageSnapshot {
    ghost use Rattle.std.specs.Prelude.{◌≤◌, List, ℕ, length};
    ghost use Rattle.vx_image.specs.Filled.{page_of};

    ghost Value = { List ℕ };

    ghost view = { λ s. page_of s.bytes.items };

    ghost invariant = { λ s. length s.bytes.items ≤ 2048 };
}

// Whether two lists of bytes are the same.
fn same_bytes(a: &[u8], b: &[u8]) -> bool
    ensures { IsTrue result ↔ (a.now ≡ b.now) }
{
    a == b
}

// Whether all bytes are zero.
#[tactic(auto, using(crate::proofs::Filled::zeros_front))]
fn are_zero(bytes: &[u8]) -> bool
    requires { length bytes.now ≤ 2048 }
    ensures { IsTrue result ↔ (bytes.now ≡ replicate (length bytes.now) 0) }
{
    same_bytes(bytes, &ZEROS[..bytes.len()])
}

// Whether bytes are the same as more of them, all others being zero.
#[tactic(auto, using(vx_same::proofs::Trimmed::begun_same, vx_same::proofs::Trimmed::same_begun, vx_same::proofs::Trimmed::same_behind))]
fn same_filled(few: &[u8], more: &[u8]) -> bool
    requires few { length few.now ≤ length more.now }
    requires more { length more.now ≤ 2048 }
    ensures { IsTrue result ↔ (page_of few.now ≡ page_of more.now) }
{
    let (front, behind) = more.split_at(few.len());
    same_bytes(few, front) && are_zero(behind)
}

/// Whether two buffers are the same, of which the first bytes are given.
pub(crate) fn same_page(a: &[u8], b: &[u8]) -> bool
    requires here { length a.now ≤ 2048 }
    requires there { length b.now ≤ 2048 }
    ensures { IsTrue result ↔ (page_of a.now ≡ page_of b.now) }
{
    if a.len() <= b.len() {
        same_filled(a, b)
    } else {
        same_filled(b, a)
    }
}

impl PageSnapshot {
    /// A buffer put away.
    pub(crate) fn of(alloc: Global, page: &Page) -> Result<PageSnapshot, NoMemory>
        ensures { IfOk result (λ snapshot. snapshot ≡ page.now) }
    {
        let mut bytes = Vec::new(alloc);
        bytes.extend_from_slice(page.written())?;
        Ok(PageSnapshot { bytes })
    }

    /// The buffer, in place of another. Takes no memory.
    pub(crate) fn restore(&self, page: &mut Page)
        ensures { page.new ≡ self.now }
    {
        page.fill(&self.bytes);
    }

    /// Its bytes up to the last that was ever written.
    pub(crate) fn written(&self) -> &[u8]
        ensures bytes { page_of result.now ≡ self.now }
        ensures few { length result.now ≤ 2048 }
    {
        &self.bytes
    }
}
