//! The mailboxes by number.

ghost use Rattle.std.specs.Prelude.{◌≡◌, ◌<◌, ◌≤◌, ◌++◌, ◌+◌, ◌∷◌, ◌==◌, [], false, true, not, ◌-◌, drop, IfOk, IfSome, None, OnOk, Some, is_none, length, map, nat_le, option_map, position, replicate, slice_index_or, slice_set};
ghost use Rattle.std.specs.List.{AllByRecursion, find, list_any};
ghost use Rattle.vx_base.specs.Lists.{first, less};
ghost use Rattle.vx_base.specs.Queues.{stored_bytes};
ghost use Rattle.vx_mailbox.specs.Boxes.{HaveRoom, IsShort, StandsIn, box_in, holding, with_box_in};
ghost use Rattle.vx_mailbox.specs.Places.{HasRoomFor, box_at, table_of};
ghost use Rattle.vx_same.specs.Trimmed.{filled_to};
ghost use Rattle.vx_record.specs.Channels.{is_box_of};
ghost use Rattle.vx_record.specs.Mailboxes.{this_message};

use crate::mailbox::MailboxSnapshot;
use crate::place::BoxPlace;
use crate::snapshot::BoxesSnapshot;
use std::alloc::Global;
use std::marker::Model;
use vx_base::{BoxNo, Id, Msg, Name, NoMemory};

/// How many mailboxes there can be.
pub(crate) const PLACES: usize = 64;

/// The mailboxes of a system, by number, in 64 places. Each mailbox has room for a message more, but for the one that was made or got a
/// message last, which may be short of it. Behind the used places there is no mailbox.
#[derive(Drop)]
pub struct Boxes {
    places: Vec<BoxPlace>,
    short: usize,
    used: usize,
}

impl Model for Boxes {
    ghost use Rattle.vx_mailbox.specs.Boxes.{Boxes};
    ghost use Rattle.vx_mailbox.specs.Places.{IsTable, table_of};

    ghost Value = { Boxes };

    ghost view = { λ b. table_of b.places.items };

    ghost invariant = { λ b. IsTable b.places.items b.short b.used };
}

/// Adds so many places without mailboxes.
pub(crate) fn add_free(alloc: Global, places: &mut Vec<BoxPlace>, n: usize) -> Result<(), NoMemory>
    requires { AllByRecursion HasRoomFor places.old.items }
    ensures boxes { OnOk result (map box_at places.new.items ≡ map box_at places.old.items ++ replicate n None) }
    ensures rooms { OnOk result (AllByRecursion HasRoomFor places.new.items) }
{
    for _ in 0..n {
        places.push(BoxPlace::new(alloc))?;
    }
    Ok(())
}

// Where the first mailbox of a name stands.
fn place_of_name(places: &[BoxPlace], name: &[u8]) -> Option<usize>
    ensures place { result ≡ position (λ place. is_box_of name.now place.box) places.now }
    ensures within { IfSome result (λ i. i < length places.now) }
{
    places.iter().position(|p| p.is_named(name))
}

// Where the first place without a mailbox is.
fn place_of_none(places: &[BoxPlace]) -> Option<usize>
    ensures place { result ≡ position (λ place. is_none place.box) places.now }
    ensures within { IfSome result (λ i. i < length places.now) }
{
    places.iter().position(|p| p.is_free())
}

// The number of a place.
fn number_of(place: Option<usize>) -> Option<BoxNo>
    requires { IfSome place (λ i. i < 64) }
    ensures same { option_map (λ b. b.0) result ≡ place }
    ensures within { IfSome result (λ b. b.0 < 64) }
{
    match place {
        Some(place) => Some(BoxNo(place as u32)),
        None => None,
    }
}

// Has a mailbox at the place of a number as it was put away, or none.
fn restore_place(
    place: &mut BoxPlace,
    number: usize,
    boxes: &[Option<MailboxSnapshot>],
) -> Result<(), NoMemory>
    ensures mailbox { OnOk result (place.new.box ≡ slice_index_or boxes.now number None) }
    ensures room { OnOk result (HasRoomFor place.new) }
{
    match boxes.get(number) {
        Some(Some(mailbox)) => mailbox.restore(place),
        _ => {
            if !place.is_free() {
                place.remove();
            }
            Ok(())
        }
    }
}

impl Boxes {
    /// No mailboxes.
    pub fn new(alloc: Global) -> Result<Boxes, NoMemory>
        ensures { IfOk result (λ b. b.boxes ≡ replicate 64 None) }
    {
        let mut places = Vec::with_capacity(alloc, PLACES)?;
        add_free(alloc, &mut places, PLACES)?;
        Ok(Boxes {
            places,
            short: 0,
            used: 0,
        })
    }

    // Has a mailbox at a place from 0 to 63 as it was put away, or none.
    fn restore_at(
        &mut self,
        place: usize,
        boxes: &[Option<MailboxSnapshot>],
    ) -> Result<(), NoMemory>
        requires within { place < 64 }
        requires room { HaveRoom self.old.boxes self.old.rooms }
        ensures mailbox { OnOk result (self.new.boxes ≡ slice_set self.old.boxes place (slice_index_or boxes.now place None)) }
        ensures room { OnOk result (HaveRoom self.new.boxes self.new.rooms) }
        ensures count { OnOk result (length self.new.boxes ≡ 64) }
    {
        self.short = place;
        self.used = self.used.max(place + 1);
        restore_place(&mut self.places[place], place, boxes)
    }

    // A number of places, this one or more, behind which there is no mailbox.
    #[tactic(auto, using(crate::proofs::Table::reach_behind))]
    fn reach(&self, least: usize) -> usize
        requires { least ≤ 64 }
        ensures least { least ≤ result }
        ensures most { result ≤ 64 }
        ensures behind { drop result self.now.boxes ≡ replicate (64 - result) None }
    {
        self.used.max(least)
    }

    // Uses the first places alone.
    fn cut(&mut self, used: usize)
        requires most { used ≤ 64 }
        requires behind { drop used self.old.boxes ≡ replicate (64 - used) None }
        ensures { self.new ≡ self.old }
    {
        self.used = used;
    }

    /// Has the first mailboxes as they were put away, with room for a message more in each, and no other.
    pub(crate) fn restore(&mut self, boxes: &[Option<MailboxSnapshot>]) -> Result<(), NoMemory>
        requires { length boxes.now ≤ 64 }
        ensures { OnOk result (self.new.boxes ≡ filled_to 64 None boxes.now) }
    {
        self.reserve()?;
        let reach = self.reach(boxes.len());
        for place in 0..reach {
            self.restore_at(place, boxes)?;
        }
        self.cut(boxes.len());
        Ok(())
    }

    // Its places up to the last that may have a mailbox.
    #[tactic(auto, using(crate::proofs::Table::used_front))]
    pub(crate) fn used(&self) -> &[BoxPlace]
        ensures boxes { filled_to 64 None (map box_at result.now) ≡ self.now.boxes }
        ensures count { length result.now ≤ 64 }
    {
        &self.places[..self.used]
    }

    /// The mailboxes and their messages, in as little room as they take.
    pub fn snapshot(&self, alloc: Global) -> Result<BoxesSnapshot, NoMemory>
        ensures { IfOk result (λ s. s ≡ self.now.boxes) }
    {
        BoxesSnapshot::new(alloc, self.used())
    }

    /// Makes room for a message more in each mailbox. Refused or not, the mailboxes stay.
    pub fn reserve(&mut self) -> Result<(), NoMemory>
        ensures same { self.new.boxes ≡ self.old.boxes }
        ensures ok { OnOk result (HaveRoom self.new.boxes self.new.rooms) }
    {
        self.places[self.short].reserve()
    }

    /// The mailbox of a name. None exactly where there is none.
    pub fn named(&self, name: &[u8]) -> Option<BoxNo>
        ensures number { option_map (λ b. b.0) result ≡ position (is_box_of name.now) self.now.boxes }
        ensures stands { IfSome result (StandsIn self.now.boxes) }
    {
        number_of(place_of_name(self.places.as_slice(), name))
    }

    /// The least number that has no mailbox. None exactly where each has one.
    pub fn free(&self) -> Option<BoxNo>
        ensures number { option_map (λ b. b.0) result ≡ position is_none self.now.boxes }
        ensures within { IfSome result (λ b. b.0 < 64) }
        ensures none { IfSome result (λ b. slice_index_or self.now.boxes b.0 None ≡ None) }
    {
        number_of(place_of_none(self.places.as_slice()))
    }

    // The place of a mailbox.
    fn place(&self, b: BoxNo) -> &BoxPlace
        requires { StandsIn self.now.boxes b }
        ensures { result.now.box ≡ slice_index_or self.now.boxes b.0 None }
    {
        &self.places[b.0 as usize]
    }

    /// Its name.
    pub fn name(&self, b: BoxNo) -> Name
        requires { StandsIn self.now.boxes b }
        ensures { result ≡ (box_in self.now.boxes b).name }
    {
        self.place(b).name()
    }

    /// The longest message that it takes, in bytes.
    pub fn maxmsg(&self, b: BoxNo) -> u32
        requires { StandsIn self.now.boxes b }
        ensures { result ≡ (box_in self.now.boxes b).maxmsg }
    {
        self.place(b).maxmsg()
    }

    /// How many bytes it stores at most.
    pub fn bufquo(&self, b: BoxNo) -> u32
        requires { StandsIn self.now.boxes b }
        ensures { result ≡ (box_in self.now.boxes b).bufquo }
    {
        self.place(b).bufquo()
    }

    /// Whether it is permanent.
    pub fn is_permanent(&self, b: BoxNo) -> bool
        requires { StandsIn self.now.boxes b }
        ensures { result ≡ (box_in self.now.boxes b).permanent }
    {
        self.place(b).is_permanent()
    }

    /// Whether it is marked for deletion.
    pub fn is_marked(&self, b: BoxNo) -> bool
        requires { StandsIn self.now.boxes b }
        ensures { result ≡ (box_in self.now.boxes b).marked }
    {
        self.place(b).is_marked()
    }

    /// Whether it can store so many bytes more: what it stores and these are at most its quota.
    pub fn fits(&self, b: BoxNo, len: u32) -> bool
        requires { StandsIn self.now.boxes b }
        ensures { result ≡ nat_le (stored_bytes (box_in self.now.boxes b).messages + len) (box_in self.now.boxes b).bufquo }
    {
        self.place(b).fits(len)
    }

    /// Whether it stores the message with an id.
    pub fn has(&self, b: BoxNo, id: Id) -> bool
        requires { StandsIn self.now.boxes b }
        ensures { result ≡ list_any (this_message id) (box_in self.now.boxes b).messages }
    {
        self.place(b).has(id)
    }

    /// The id of the oldest message that it stores. None exactly where it stores none.
    pub fn oldest(&self, b: BoxNo) -> Option<Id>
        requires { StandsIn self.now.boxes b }
        ensures { result ≡ option_map (λ m. m.id) (first (box_in self.now.boxes b).messages) }
    {
        self.place(b).oldest()
    }

    /// Whether it stores messages.
    pub fn has_messages(&self, b: BoxNo) -> bool
        requires { StandsIn self.now.boxes b }
        ensures { result ≡ not (length (box_in self.now.boxes b).messages == 0) }
    {
        self.place(b).has_messages()
    }

    /// Stores a message behind the others. Takes no memory.
    pub fn put(&mut self, b: BoxNo, msg: Msg)
        requires stands { StandsIn self.old.boxes b }
        requires room { HaveRoom self.old.boxes self.old.rooms }
        requires size { IsShort msg }
        ensures { self.new ≡ record self.old { boxes = with_box_in self.old.boxes b (Some (holding (box_in self.old.boxes b) ((box_in self.old.boxes b).messages ++ msg ∷ []))) } }
    {
        self.places[b.0 as usize].put(msg);
        self.short = b.0 as usize;
    }

    /// Takes out the message with an id. None exactly where there is none.
    pub fn take(&mut self, b: BoxNo, id: Id) -> Option<Msg>
        requires { StandsIn self.old.boxes b }
        ensures found { result ≡ find (this_message id) (box_in self.old.boxes b).messages }
        ensures after { self.new ≡ record self.old { boxes = with_box_in self.old.boxes b (Some (holding (box_in self.old.boxes b) (less (this_message id) (box_in self.old.boxes b).messages))) } }
        ensures size { IfSome result IsShort }
    {
        self.places[b.0 as usize].take(id)
    }

    /// Makes a mailbox of a number that has none ($CREMBX). It stores nothing. Takes no memory.
    pub fn make(&mut self, b: BoxNo, name: Name, permanent: bool, maxmsg: u32, bufquo: u32)
        requires within { b.0 < 64 }
        requires none { slice_index_or self.old.boxes b.0 None ≡ None }
        requires room { HaveRoom self.old.boxes self.old.rooms }
        ensures { self.new ≡ record self.old { boxes = with_box_in self.old.boxes b (Some (record { name = name; permanent = permanent; marked = false; maxmsg = maxmsg; bufquo = bufquo; messages = [] })) } }
    {
        let place = b.0 as usize;
        self.places[place].make(name, permanent, maxmsg, bufquo);
        self.short = place;
        self.used = self.used.max(place + 1);
    }

    /// The mailbox is gone, with its messages.
    pub fn remove(&mut self, b: BoxNo)
        requires { StandsIn self.old.boxes b }
        ensures { self.new ≡ record self.old { boxes = with_box_in self.old.boxes b None } }
    {
        self.places[b.0 as usize].remove();
    }

    /// Marks it for deletion ($DELMBX).
    pub fn mark(&mut self, b: BoxNo)
        requires { StandsIn self.old.boxes b }
        ensures { self.new ≡ record self.old { boxes = with_box_in self.old.boxes b (Some (record (box_in self.old.boxes b) { marked = true })) } }
    {
        self.places[b.0 as usize].mark();
    }
}
