//! The mailboxes in as little room as they take.

ghost use Rattle.std.specs.Prelude.{◌≡◌, ◌↔◌, ◌≤◌, IfOk, IsTrue, None, OnOk, length, map};
ghost use Rattle.vx_mailbox.specs.Digest.{mix_boxes};
ghost use Rattle.vx_mailbox.specs.Places.{box_at};
ghost use Rattle.vx_same.specs.Trimmed.{filled_to, trimmed};

use crate::boxes::Boxes;
use crate::mailbox::MailboxSnapshot;
use crate::place::BoxPlace;
use std::alloc::Global;
use std::marker::Model;
use vx_base::NoMemory;

/// The mailboxes up to the last one, each with room for exactly its messages. Contracts see all 64 numbers.
#[derive(Drop)]
pub struct BoxesSnapshot {
    boxes: Vec<Option<MailboxSnapshot>>,
}

impl Model for BoxesSnapshot {
    ghost use Rattle.std.specs.Prelude.{◌≡◌, ◌≤◌, List, None, Option, vec_len};
    ghost use Rattle.vx_base.specs.Pieces.{Mailbox};
    ghost use Rattle.vx_same.specs.Trimmed.{filled_to, trimmed};

    ghost Value = { List (Option Mailbox) };

    ghost view = { λ s. filled_to 64 None s.boxes.items };

    ghost invariant = { λ s. (vec_len s.boxes ≤ 64) × (trimmed s.boxes.items ≡ s.boxes.items) };
}

// The places up to the last mailbox.
#[tactic(auto, using(crate::proofs::Trimmed::used_last, crate::proofs::Trimmed::free_last))]
fn trimmed(places: &[BoxPlace]) -> &[BoxPlace]
    ensures { map box_at result.now ≡ trimmed (map box_at places.now) }
{
    let mut kept = places;
    while let Some((last, front)) = kept.split_last() {
        if !last.is_free() {
            return kept;
        }
        kept = front;
    }
    kept
}

// The mailboxes of places up to the last one, each with room for exactly its messages.
fn put_away(alloc: Global, places: &[BoxPlace]) -> Result<Vec<Option<MailboxSnapshot>>, NoMemory>
    ensures { IfOk result (λ boxes. boxes.items ≡ trimmed (map box_at places.now)) }
{
    let kept = trimmed(places);
    let mut boxes = Vec::with_capacity(alloc, kept.len())?;
    for place in kept {
        boxes.push(place.snapshot(alloc)?)?;
    }
    Ok(boxes)
}

// Whether what was put away is the mailbox of a place, or none as there.
fn same_place(mailbox: &Option<MailboxSnapshot>, place: &BoxPlace) -> bool
    ensures { IsTrue result ↔ (mailbox.now ≡ place.now.box) }
{
    match mailbox {
        Some(mailbox) => mailbox.same(place),
        None => place.is_free(),
    }
}

// Whether these are the mailboxes of places.
fn same_places(boxes: &[Option<MailboxSnapshot>], places: &[BoxPlace]) -> bool
    ensures { IsTrue result ↔ (boxes.now ≡ map box_at places.now) }
{
    if boxes.len() != places.len() {
        return false;
    }
    for (i, mailbox) in boxes.iter().enumerate() {
        if !same_place(mailbox, &places[i]) {
            return false;
        }
    }
    true
}

// A digest with what the mailboxes of places store.
fn mix_places(digest: u64, places: &[BoxPlace]) -> u64
    ensures { result ≡ mix_boxes digest (map box_at places.now) }
{
    let mut mixed = digest;
    for place in places {
        mixed = place.mix(mixed);
    }
    mixed
}

impl Boxes {
    /// A digest with what the mailboxes store. Takes no memory.
    #[tactic(auto, using(crate::proofs::Trimmed::mix_filled))]
    pub fn mix(&self, digest: u64) -> u64
        ensures { result ≡ mix_boxes digest self.now.boxes }
    {
        mix_places(digest, self.used())
    }
}

impl BoxesSnapshot {
    /// The mailboxes of the first places, if no other has one. Takes memory for those up to the last mailbox, and for their messages.
    #[tactic(auto, using(crate::proofs::Trimmed::trimmed_few, crate::proofs::Trimmed::boxes_again, vx_same::proofs::Trimmed::trimmed_again))]
    pub(crate) fn new(alloc: Global, places: &[BoxPlace]) -> Result<BoxesSnapshot, NoMemory>
        requires { length places.now ≤ 64 }
        ensures { IfOk result (λ s. s ≡ filled_to 64 None (map box_at places.now)) }
    {
        Ok(BoxesSnapshot {
            boxes: put_away(alloc, places)?,
        })
    }

    /// The same mailboxes in place of others, with room for a message more in each. If memory runs out, some of them are there.
    pub fn restore(&self, boxes: &mut Boxes) -> Result<(), NoMemory>
        ensures { OnOk result (boxes.new.boxes ≡ self.now) }
    {
        boxes.restore(self.boxes.as_slice())
    }

    /// Whether these are the mailboxes, with the same messages. Takes no memory.
    #[tactic(auto, using(crate::proofs::Trimmed::boxes_same, crate::proofs::Trimmed::same_boxes))]
    pub fn same(&self, boxes: &Boxes) -> bool
        ensures { IsTrue result ↔ (self.now ≡ boxes.now.boxes) }
    {
        same_places(self.boxes.as_slice(), trimmed(boxes.used()))
    }
}
