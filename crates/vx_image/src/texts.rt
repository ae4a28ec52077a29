//! Texts that share one list of bytes.

ghost use Rattle.std.specs.Prelude.{◌≡◌, ◌∷◌, ◌++◌, [], length, slice_index_or, IfOk, IsTrue, OnOk, OnErr};

use std::alloc::Global;
use std::marker::Model;
use vx_base::{NoMemory, Same};
use vx_same::same_items;

/// Where a text stands in the bytes, and how long it is.
#[derive(Clone, Copy, PartialEq)]
pub(crate) struct Span {
    start: u32,
    len: u32,
}

/// Texts in order, which contracts see as their list. A text takes its bytes and 8 more.
#[derive(Drop)]
pub(crate) struct Texts {
    bytes: Vec<u8>,
    spans: Vec<Span>,
}

impl Model for Texts {
    ghost use Rattle.std.specs.Prelude.{List, ℕ};
    ghost use Rattle.vx_image.specs.Packed.{texts_in, AreWithin};

    ghost Value = { List (List ℕ) };

    ghost view = { λ t. texts_in t.bytes.items t.spans.items };

    ghost invariant = { λ t. AreWithin t.bytes.items t.spans.items };
}

/// A length as a number of 32 bits, if it is one.
pub(crate) fn short(len: usize) -> Result<u32, NoMemory>
    ensures { IfOk result (λ n. n ≡ len) }
{
    u32::try_from(len).or(Err(NoMemory))
}

impl Same for Span {
    fn same(&self, other: &Span) -> bool {
        *self == *other
    }
}

impl Texts {
    /// No texts. Takes no memory.
    pub(crate) fn new(alloc: Global) -> Texts
        ensures { result ≡ [] }
    {
        Texts {
            bytes: Vec::new(alloc),
            spans: Vec::new(alloc),
        }
    }

    /// How many there are.
    pub(crate) fn len(&self) -> usize
        ensures { result ≡ length self.now }
    {
        self.spans.len()
    }

    /// The text at a place, empty if there is none.
    pub(crate) fn get(&self, i: u32) -> &[u8]
        ensures { result.now ≡ slice_index_or self.now i [] }
    {
        match self.spans.get(i as usize) {
            Some(span) => {
                let start = span.start as usize;
                &self.bytes[start..start + span.len as usize]
            }
            None => &[],
        }
    }

    /// Appends a text, or changes nothing.
    #[tactic(auto, using(crate::proofs::Packed::texts_kept, crate::proofs::Packed::texts_and_one, crate::proofs::Packed::within_and_one, crate::proofs::Packed::still_within))]
    pub(crate) fn push(&mut self, text: &[u8]) -> Result<(), NoMemory>
        ensures ok { OnOk result (self.new ≡ self.old ++ text.now ∷ []) }
        ensures err { OnErr result (self.new ≡ self.old) }
    {
        let start = short(self.bytes.len())?;
        let len = short(text.len())?;
        self.bytes.extend_from_slice(text)?;
        self.spans.push(Span { start, len })?;
        Ok(())
    }

    /// Appends a text, and gives its place.
    pub(crate) fn add(&mut self, text: &[u8]) -> Result<u32, NoMemory>
        ensures ok { IfOk result (λ place. (place ≡ length self.old) × (self.new ≡ self.old ++ text.now ∷ [])) }
        ensures err { OnErr result (self.new ≡ self.old) }
    {
        let place = short(self.len())?;
        self.push(text)?;
        Ok(place)
    }

    /// Whether both have the same small form: then they are the same.
    pub(crate) fn same_form(&self, other: &Texts) -> bool
        ensures { IsTrue result → self.now ≡ other.now }
    {
        self.bytes.as_slice() == other.bytes.as_slice()
            && same_items(self.spans.as_slice(), other.spans.as_slice())
    }

    /// The same texts again.
    pub(crate) fn duplicate(&self) -> Result<Texts, NoMemory>
        ensures { IfOk result (λ copy. copy ≡ self.now) }
    {
        Ok(Texts {
            bytes: self.bytes.clone()?,
            spans: self.spans.clone()?,
        })
    }
}
