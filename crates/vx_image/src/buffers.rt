//! The buffers of a process.

ghost use Rattle.std.specs.Prelude.{◌≡◌, ◌↔◌, ◌<◌, ◌≤◌, [], length, replicate, slice_index_or, slice_set, IfOk, IsTrue};
ghost use Rattle.vx_base.specs.Lists.{overlaid};
ghost use Rattle.vx_image.specs.Filled.{filled, page_of};

use crate::page::{Page, PageSnapshot, same_page, zeros};
use std::alloc::Global;
use std::marker::Model;
use vx_base::{NoMemory, Reserved};

/// How many buffers a process has.
const BUFFERS: usize = 32;

/// 32 buffers. There is room for all of them from the start, but only those up to the last one ever written are filled, so the
/// others cost nothing. Contracts see all.
#[derive(Drop)]
pub(crate) struct Buffers {
    pages: Reserved<Page>,
}

impl Model for Buffers {
    ghost use Rattle.std.specs.Prelude.{◌≤◌, List, ℕ, length};
    ghost use Rattle.vx_image.specs.Filled.{filled};

    ghost Value = { List (List ℕ) };

    ghost view = { λ b. filled b.pages.items };

    ghost invariant = { λ b. (length b.pages.items ≤ 32) × (32 ≤ b.pages.capacity) };
}

// Fills pages up to so many, if there are fewer. Takes no memory.
#[tactic(auto, using(crate::proofs::Filled::next_filled))]
fn fill(pages: &mut Reserved<Page>, n: usize)
    requires few { n ≤ 32 }
    requires there { length pages.old.items ≤ 32 }
    requires room { 32 ≤ pages.old.capacity }
    ensures same { filled pages.new.items ≡ filled pages.old.items }
    ensures filled { n ≤ length pages.new.items }
    ensures few { length pages.new.items ≤ 32 }
    ensures exact { length pages.old.items ≤ n → length pages.new.items ≡ n }
    ensures room { pages.new.capacity ≡ pages.old.capacity }
{
    while pages.len() < n {
        pages.put(Page::new());
    }
}

impl Buffers {
    /// All zero.
    pub(crate) fn new(alloc: Global) -> Result<Buffers, NoMemory>
        ensures { IfOk result (λ buffers. buffers ≡ replicate 32 (replicate 2048 0)) }
    {
        let mut pages = Reserved::new(alloc);
        pages.reserve(BUFFERS as u32)?;
        Ok(Buffers { pages })
    }

    /// The bytes of a buffer.
    pub(crate) fn bytes(&self, b: u32) -> &[u8]
        requires { b < 32 }
        ensures bytes { result.now ≡ slice_index_or self.now b [] }
        ensures size { length result.now ≡ 2048 }
    {
        match self.pages.as_slice().get(b as usize) {
            Some(page) => page.bytes(),
            None => zeros(),
        }
    }

    // The bytes of a buffer up to the last that was ever written.
    fn written(&self, b: u32) -> &[u8]
        requires { b < 32 }
        ensures bytes { page_of result.now ≡ slice_index_or self.now b [] }
        ensures few { length result.now ≤ 2048 }
    {
        match self.pages.as_slice().get(b as usize) {
            Some(page) => page.written(),
            None => &[],
        }
    }

    /// Puts a piece over the start of a buffer. Takes no memory.
    #[tactic(auto, using(crate::proofs::Filled::overlaid_at))]
    pub(crate) fn overlay(&mut self, b: u32, piece: &[u8])
        requires buffer { b < 32 }
        requires size { length piece.now ≤ 2048 }
        ensures { self.new ≡ slice_set self.old b (overlaid piece.now (slice_index_or self.old b [])) }
    {
        let place = b as usize;
        fill(&mut self.pages, place + 1);
        self.pages.at_mut(place).overlay(piece);
    }
}

/// The buffers put away: the bytes of those up to the last one ever written. Contracts see all.
#[derive(Drop)]
pub(crate) struct BuffersSnapshot {
    pages: Vec<PageSnapshot>,
}

impl Model for BuffersSnapshot {
    ghost use Rattle.std.specs.Prelude.{◌≤◌, List, ℕ, length};
    ghost use Rattle.vx_image.specs.Filled.{filled};

    ghost Value = { List (List ℕ) };

    ghost view = { λ s. filled s.pages.items };

    ghost invariant = { λ s. length s.pages.items ≤ 32 };
}

// Leaves so many pages at most.
fn shrink(pages: &mut Reserved<Page>, n: usize)
    ensures few { length pages.new.items ≤ n }
    ensures room { pages.new.capacity ≡ pages.old.capacity }
{
    while pages.len() > n {
        let _gone = pages.pop();
    }
}

// Has pages hold what was put away, one by one. Takes no memory.
fn restore_pages(pages: &mut Reserved<Page>, kept: &[PageSnapshot])
    requires { length pages.old.items ≡ length kept.now }
    ensures pages { pages.new.items ≡ kept.now }
    ensures room { pages.new.capacity ≡ pages.old.capacity }
{
    for (i, page) in kept.iter().enumerate() {
        page.restore(pages.at_mut(i));
    }
}

impl BuffersSnapshot {
    /// Buffers put away.
    pub(crate) fn of(alloc: Global, buffers: &Buffers) -> Result<BuffersSnapshot, NoMemory>
        ensures { IfOk result (λ snapshot. snapshot ≡ buffers.now) }
    {
        let written = buffers.pages.as_slice();
        let mut pages = Vec::new(alloc);
        pages.reserve(written.len())?;
        for page in written {
            pages.push(PageSnapshot::of(alloc, page)?)?;
        }
        Ok(BuffersSnapshot { pages })
    }

    /// The buffers, in place of others. Takes no memory.
    pub(crate) fn restore(&self, buffers: &mut Buffers)
        ensures { buffers.new ≡ self.now }
    {
        let n = self.pages.len();
        shrink(&mut buffers.pages, n);
        fill(&mut buffers.pages, n);
        restore_pages(&mut buffers.pages, self.pages.as_slice());
    }

    // The bytes of a buffer up to the last that was ever written.
    fn written(&self, b: u32) -> &[u8]
        requires { b < 32 }
        ensures bytes { page_of result.now ≡ slice_index_or self.now b [] }
        ensures few { length result.now ≤ 2048 }
    {
        match self.pages.get(b as usize) {
            Some(page) => page.written(),
            None => &[],
        }
    }

    /// Whether the bytes are those of buffers. Takes no memory.
    #[tactic(auto, using(crate::proofs::Filled::all_same, crate::proofs::Filled::next_same))]
    pub(crate) fn same(&self, buffers: &Buffers) -> bool
        ensures { IsTrue result ↔ (self.now ≡ buffers.now) }
    {
        let kept = self.pages.len().max(buffers.pages.len()) as u32;
        for b in 0..kept {
            if !same_page(self.written(b), buffers.written(b)) {
                return false;
            }
        }
        true
    }
}
