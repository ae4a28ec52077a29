//! The requests in a slab, and the places where they were accepted.

ghost use Rattle.std.specs.Prelude.{◌≡◌, ◌⊎◌, ◌+◌, ◌<◌, ◌∷◌, ◌++◌, [], OnErr, OnOk, None, Some, get_or, length, option_map, slice_set, vec_capacity, vec_len};
ghost use Rattle.std.specs.List.{filter};
ghost use Rattle.slab.specs.Slab.{HasRoomFor, Updates, get, slab_len};
ghost use Rattle.vx_reqs.specs.Places.{Place, changed, emptied, is_held, live};
ghost use Rattle.vx_reqs.specs.Slots.{has_key};
ghost use Rattle.vx_record.specs.Requests.{taken_up};
ghost use Rattle.vx_record.specs.Cancel.{with_abort};

use crate::outstanding::Outstanding;
use crate::slot::Slot;
use slab::Slab;
use std::alloc::Global;
use std::marker::Model;
use vx_base::{Id, NoMemory, Routine};

/// Places in order of acceptance. Each has the id of the request that was accepted there, and the request's key in the slab until it is
/// finished. A place that is left stays empty, until there is none at the end for a new request and the empty ones are taken out.
#[derive(Drop)]
pub(crate) struct Places<R: Routine> {
    slots: Vec<Slot>,
    requests: Slab<Outstanding<R>>,
    room: usize,
}

impl<R: Routine> Model for Places<R> {
    ghost use Rattle.std.specs.Prelude.{vec_capacity};
    ghost use Rattle.vx_base.specs.Roomy.{Roomy};
    ghost use Rattle.vx_reqs.specs.Places.{Place};
    ghost use Rattle.vx_reqs.specs.Slots.{AreHeld, places_of};

    ghost Value = { Roomy Place };

    ghost view = { λ p. record { items = places_of p.requests p.slots.items; capacity = p.room } };

    ghost invariant = { λ p. AreHeld p.slots.items p.requests p.room (vec_capacity p.slots) };
}

// Keeps the places where requests stand.
fn keep_held(slots: &mut Vec<Slot>)
    ensures items { slots.new.items ≡ filter has_key slots.old.items }
    ensures capacity { vec_capacity slots.new ≡ vec_capacity slots.old }
{
    slots.retain(|s| s.key.is_some());
}

// Makes a place free at the end. As there are places for twice the requests, the empty ones are gone over once in as many requests as
// there is room for, at most.
fn make_space(slots: &mut Vec<Slot>)
    requires { length (filter has_key slots.old.items) < vec_capacity slots.old }
    ensures items { (slots.new.items ≡ slots.old.items) ⊎ (slots.new.items ≡ filter has_key slots.old.items) }
    ensures space { vec_len slots.new < vec_capacity slots.new }
    ensures capacity { vec_capacity slots.new ≡ vec_capacity slots.old }
{
    if slots.len() == slots.capacity() {
        keep_held(slots);
    }
}

// Puts a request into the slab, and its place behind the others.
fn put<R: Routine>(
    slots: &mut Vec<Slot>,
    requests: &mut Slab<Outstanding<R>>,
    request: Outstanding<R>,
)
    requires place { vec_len slots.old < vec_capacity slots.old }
    requires room { HasRoomFor requests.old 1 }
    ensures place { slots.new.items ≡ slots.old.items ++ record { id = request.req.id; key = Some requests.old.vacant_key } ∷ [] }
    ensures free { get requests.old requests.old.vacant_key ≡ None }
    ensures updates { Updates requests.old requests.new requests.old.vacant_key (Some request) }
    ensures len { slab_len requests.new ≡ slab_len requests.old + 1 }
    ensures space { vec_capacity slots.new ≡ vec_capacity slots.old }
    ensures capacity { requests.new.capacity ≡ requests.old.capacity }
{
    let id = request.id();
    let key = requests.insert_reserved(request);
    slots.push_reserved(Slot { id, key: Some(key) });
}

impl<R: Routine> Places<R> {
    /// No places, and room for none. Takes no memory.
    pub(crate) fn new(alloc: Global) -> Places<R>
        ensures { result ≡ record { items = []; capacity = 0 } }
    {
        Places {
            slots: Vec::new(alloc),
            requests: Slab::new(alloc),
            room: 0,
        }
    }

    /// How many places there are.
    pub(crate) fn len(&self) -> usize
        ensures { result ≡ length self.now.items }
    {
        self.slots.len()
    }

    /// How many requests stand in places.
    pub(crate) fn count(&self) -> usize
        ensures { result ≡ length (live self.now.items) }
    {
        self.requests.len()
    }

    /// For how many requests there is room in all.
    pub(crate) fn room(&self) -> usize
        ensures { result ≡ self.now.capacity }
    {
        self.room
    }

    /// The id of the request that was accepted at a place.
    pub(crate) fn id(&self, at: usize) -> Id
        requires { at < length self.now.items }
        ensures { (d : Place) → result ≡ (get_or self.now.items at d).id }
    {
        self.slots[at].id
    }

    /// The request at a place, if it is outstanding.
    pub(crate) fn held(&self, at: usize) -> Option<&Outstanding<R>>
        requires { at < length self.now.items }
        ensures { (d : Place) → option_map (λ o. o.now) result ≡ (get_or self.now.items at d).request }
    {
        match self.slots[at].key {
            Some(key) => self.requests.get(key),
            None => None,
        }
    }

    /// Takes out the request at a place, if it is outstanding.
    pub(crate) fn take(&mut self, at: usize) -> Option<Outstanding<R>>
        requires { at < length self.old.items }
        ensures found { (d : Place) → result ≡ (get_or self.old.items at d).request }
        ensures after { (d : Place) → self.new.items ≡ slice_set self.old.items at (emptied (get_or self.old.items at d)) }
        ensures capacity { self.new.capacity ≡ self.old.capacity }
    {
        let slot = self.slots[at];
        match slot.key {
            Some(key) => {
                self.slots[at] = Slot {
                    id: slot.id,
                    key: None,
                };
                Some(self.requests.remove(key))
            }
            None => None,
        }
    }

    /// Has its unit serve the request at a place.
    pub(crate) fn serve(&mut self, at: usize)
        requires { at < length self.old.items }
        ensures after { (d : Place) → self.new.items ≡ slice_set self.old.items at (changed taken_up (get_or self.old.items at d)) }
        ensures capacity { self.new.capacity ≡ self.old.capacity }
    {
        match self.slots[at].key {
            Some(key) => self.requests[key].serve(),
            None => (),
        }
    }

    /// Has the request at a place aborted.
    pub(crate) fn mark(&mut self, at: usize)
        requires { at < length self.old.items }
        ensures after { (d : Place) → self.new.items ≡ slice_set self.old.items at (changed with_abort (get_or self.old.items at d)) }
        ensures capacity { self.new.capacity ≡ self.old.capacity }
    {
        match self.slots[at].key {
            Some(key) => self.requests[key].mark(),
            None => (),
        }
    }

    /// Puts a request behind the others. Takes no memory.
    pub(crate) fn accept(&mut self, request: Outstanding<R>)
        requires { length (live self.old.items) < self.old.capacity }
        ensures after { (self.new.items ≡ self.old.items ++ record { id = request.req.id; request = Some request } ∷ [])
            ⊎ (self.new.items ≡ filter is_held self.old.items ++ record { id = request.req.id; request = Some request } ∷ []) }
        ensures capacity { self.new.capacity ≡ self.old.capacity }
    {
        make_space(&mut self.slots);
        put(&mut self.slots, &mut self.requests, request);
    }

    /// Takes the empty places out, and makes places for twice the requests and more, with room for one more request at least.
    pub(crate) fn reserve(&mut self) -> Result<(), NoMemory>
        ensures items { self.new.items ≡ filter is_held self.old.items }
        ensures room { OnOk result (length (live self.old.items) < self.new.capacity) }
        ensures kept { OnErr result (self.new.capacity ≡ self.old.capacity) }
    {
        keep_held(&mut self.slots);
        let count = self.slots.len();
        let more = match count.checked_add(2) {
            Some(more) => more,
            None => return Err(NoMemory),
        };
        self.slots.reserve(more)?;
        let room = self.slots.capacity() / 2;
        self.requests.reserve(room - count)?;
        self.room = room;
        Ok(())
    }

    /// Has no places any more, and room for none that is known of.
    pub(crate) fn clear(&mut self)
        ensures { self.new ≡ record { items = []; capacity = 0 } }
    {
        self.slots.clear();
        self.requests.clear();
        self.room = 0;
    }

    /// Puts a request behind the others, and takes memory for it. If there is none, nothing has changed.
    pub(crate) fn push(&mut self, request: Outstanding<R>) -> Result<(), NoMemory>
        ensures after { OnOk result (self.new.items ≡ self.old.items ++ record { id = request.req.id; request = Some request } ∷ []) }
        ensures err { OnErr result (self.new.items ≡ self.old.items) }
        ensures capacity { self.new.capacity ≡ self.old.capacity }
    {
        self.slots.reserve(1)?;
        self.requests.reserve(1)?;
        put(&mut self.slots, &mut self.requests, request);
        Ok(())
    }
}
