//! The reads that wait at mailboxes.

ghost use Rattle.std.specs.Prelude.{◌≡◌, ℕ, List, ◌∷◌, OnOk, IfOk, if◌then◌else◌, bytes_eq};
ghost use Rattle.std.specs.List.{filter};
ghost use Rattle.vx_laws.specs.Boxes.{oldest_read};
ghost use Rattle.vx_laws.specs.Items.{Item, Did};
ghost use Rattle.vx_judge.specs.BoxLists.{listed};
ghost use Rattle.vx_judge.specs.Channels.{AreNames};
ghost use Rattle.vx_judge.specs.Lives.{IsOf};
ghost use Rattle.vx_judge.specs.Places.{past_in};
ghost use Rattle.vx_judge.specs.Readers.{HasReads, counted_wait, least_of, lesser as lesser_of, if_passes, waits_in, box_of as box_of_of};
ghost use Rattle.vx_judge.specs.Requests.{AreAsked};

use crate::asked::Asked;
use crate::box_lists::BoxLists;
use crate::channels::Channels;
use crate::life::is_request;
use crate::lives::Lives;
use crate::requests::{Requests, asked_in};
use crate::text::Text;
use std::alloc::Global;
use vx_base::{Effect, Id, NoMemory, Opened, Rec};

// A READ of the box that is outstanding.
fn waits(lives: &Lives, requests: &Requests, name: &Text, id: Id) -> bool
    ensures { result ≡ waits_in lives.now requests.now name.now id }
{
    lives.is_outstanding(id) && requests.has_read(name, id)
}

// The lesser of two ids, of which each may be missing.
fn lesser(a: Option<Id>, b: Option<Id>) -> Option<Id>
    ensures { result ≡ lesser_of a b }
{
    match (a, b) {
        (None, b) => b,
        (Some(a), None) => Some(a),
        (Some(a), Some(b)) => Some(if b.0 < a.0 { b } else { a }),
    }
}

// The id, if it waits.
fn if_waits(lives: &Lives, requests: &Requests, name: &Text, id: Id) -> Option<Id>
    ensures { result ≡ if_passes (counted_wait lives.now requests.now name.now) id }
{
    if id.0 != 0 && waits(lives, requests, name, id) {
        Some(id)
    } else {
        None
    }
}

// The least of those that wait.
fn least(ids: &[Id], lives: &Lives, requests: &Requests, name: &Text) -> Option<Id>
    ensures { result ≡ least_of (counted_wait lives.now requests.now name.now) ids.now }
{
    let mut found = None;
    for id in ids {
        found = lesser(found, if_waits(lives, requests, name, *id));
    }
    found
}

/// The oldest READ that waits at a box.
pub fn oldest(readers: &BoxLists<Id>, lives: &Lives, requests: &Requests, name: &Text) -> Option<Id>
    ensures { (past : List Item) → IsOf lives.now past → AreAsked requests.now past → HasReads readers.now past → result ≡ oldest_read past name.now }
{
    least(readers.at(name), lives, requests, name)
}

// Those that wait.
#[tactic(auto, using(std::proofs::lemmas::List::Elements::filter_more, crate::proofs::Loops::all_taken))]
fn waiting(
    ids: &[Id],
    lives: &Lives,
    requests: &Requests,
    name: &Text,
    alloc: Global,
) -> Result<Vec<Id>, NoMemory>
    ensures { IfOk result (λ left. left.items ≡ filter (waits_in lives.now requests.now name.now) ids.now) }
{
    let mut left = Vec::new(alloc);
    for id in ids {
        if waits(lives, requests, name, *id) {
            left.push(*id)?;
        }
    }
    Ok(left)
}

// Leaves those at a box that wait.
fn forget_ended(
    readers: &mut BoxLists<Id>,
    lives: &Lives,
    requests: &Requests,
    name: Text,
) -> Result<(), NoMemory>
    ensures { OnOk result ((other : List ℕ) → listed readers.new other ≡ (if bytes_eq name other then filter (waits_in lives.now requests.now name) (listed readers.old name) else listed readers.old other)) }
{
    let ids = readers.take(&name);
    let left = waiting(ids.as_slice(), lives, requests, &name, *ids.allocator())?;
    readers.set(name, left)
}

// The box at which an id that is opened waits.
fn box_of(kind: Opened, asked: Asked) -> Option<Text>
    ensures { result ≡ box_of_of kind asked }
{
    if is_request(kind) && asked.waits {
        asked.device
    } else {
        None
    }
}

/// Goes past an effect, after the tables of lives and of requests did: OPEN lists a READ at its box, MPUT forgets those of its
/// box that have ended.
pub fn pass_effect(
    readers: &mut BoxLists<Id>,
    rec: &Rec,
    earlier: &[Effect],
    effect: &Effect,
    channels: &Channels,
    lives: &Lives,
    requests: &Requests,
) -> Result<(), NoMemory>
    ensures { OnOk result ((past : List Item) → AreNames channels.now (past_in past rec.now earlier.now) → IsOf lives.now (Did effect.now ∷ past_in past rec.now earlier.now) → AreAsked requests.now (Did effect.now ∷ past_in past rec.now earlier.now) →
        HasReads readers.old (past_in past rec.now earlier.now) → HasReads readers.new (Did effect.now ∷ past_in past rec.now earlier.now)) }
{
    match effect {
        Effect::Open { id, kind, .. } => match box_of(*kind, asked_in(channels, rec)) {
            Some(name) => {
                readers.push(name, *id)?;
                Ok(())
            }
            None => Ok(()),
        },
        Effect::MPut { name, .. } => {
            forget_ended(readers, lives, requests, Text::of(name))?;
            Ok(())
        }
        _ => Ok(()),
    }
}
