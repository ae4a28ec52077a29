//! The reads that wait at mailboxes, found in their places.

ghost use Rattle.std.specs.Prelude.{◌≡◌, ◌≢◌, ◌<◌, ◌≤◌, ◌&&◌, [], ℕ, List, IfSome, get_or, length, option_map, position, true};
ghost use Rattle.std.specs.List.{find};
ghost use Rattle.vx_record.specs.Types.{BoxNo as BoxNoOf};
ghost use Rattle.vx_record.specs.Mailboxes.{is_box, is_waiting_func, waits_at};
ghost use Rattle.vx_reqs.specs.Places.{AreFrom, OrderedIf, Place, Rises, holds};

use crate::found::{first_from, id_at, place_from};
use crate::order::Order;
use crate::outstanding::is_waiting_func;
use crate::places::Places;
use crate::sought::Sought;
use vx_base::{BoxNo, Device, Func, Id, Routine};

/// For each of the mailboxes that there may be: the first number that a read may have that waits there.
#[derive(Drop)]
pub(crate) struct Reads {
    pub(crate) from: [u64; 64],
}

impl Reads {
    /// That of no places.
    pub(crate) fn new() -> Reads
        ensures { AreFrom result.from [] }
    {
        Reads {
            from: [u64::MAX; 64],
        }
    }

    /// Nothing is known any more: a read may wait at each mailbox from the first number on.
    pub(crate) fn forget(&mut self)
        ensures { (all : List Place) → AreFrom self.new.from all }
    {
        self.from = [0; 64];
    }

    /// Goes on to a request that is put behind the others.
    pub(crate) fn accept(&mut self, id: Id, device: Device, func: Func)
        ensures here { (b : BoxNoOf) → b.0 < 64 → (is_box b device && is_waiting_func func) ≡ true → get_or self.new.from b.0 0 ≤ id.0 }
        ensures all { (b : BoxNoOf) → get_or self.new.from b.0 0 ≤ get_or self.old.from b.0 0 }
    {
        if is_waiting_func(func) {
            lower(&mut self.from, device, id.0 as u64);
        }
    }

    /// Notes the first read that waits at a mailbox, among ids that rise.
    pub(crate) fn settle(&mut self, b: BoxNo, first: Option<Id>)
        ensures { (all : List Place) (next : ℕ) → Rises 0 all next → first ≡ option_map (λ y. y.id) (find (holds (waits_at b)) all) → AreFrom self.old.from all → AreFrom self.new.from all }
    {
        match first {
            Some(id) => put(&mut self.from, b, id.0 as u64),
            None => put(&mut self.from, b, u64::MAX),
        }
    }
}

// Puts the number of a mailbox.
fn put(numbers: &mut [u64; 64], b: BoxNo, number: u64)
    ensures here { b.0 < 64 → get_or numbers.new b.0 0 ≡ number }
    ensures others { (other : BoxNoOf) → b.0 ≢ other.0 → get_or numbers.new other.0 0 ≡ get_or numbers.old other.0 0 }
{
    if b.0 < 64 {
        numbers[b.0 as usize] = number;
    }
}

// Puts the number of a device, if it is a mailbox with a greater one.
fn lower(numbers: &mut [u64; 64], device: Device, number: u64)
    ensures here { (b : BoxNoOf) → b.0 < 64 → is_box b device ≡ true → get_or numbers.new b.0 0 ≤ number }
    ensures all { (b : BoxNoOf) → get_or numbers.new b.0 0 ≤ get_or numbers.old b.0 0 }
{
    if let Device::Mailbox(b) = device
        && b.0 < 64
        && number < numbers[b.0 as usize]
    {
        numbers[b.0 as usize] = number;
    }
}

/// Where the first read stands that waits at a mailbox. If the ids rise, it is looked for from where it is known to be.
pub(crate) fn place_read<R: Routine>(
    places: &Places<R>,
    order: &Order,
    reads: &Reads,
    b: BoxNo,
) -> Option<usize>
    requires order { OrderedIf order.now.rising order.now.next order.now.from order.now.served places.now.items }
    requires reads { AreFrom reads.now.from places.now.items }
    ensures place { result ≡ position (holds (waits_at b)) places.now.items }
    ensures within { IfSome result (λ i. i < length places.now.items) }
{
    if order.rising && b.0 < 64 {
        let first = first_from(places, order.next, reads.from[b.0 as usize]);
        place_from(places, first, Sought::WaitingAt(b))
    } else {
        place_from(places, 0, Sought::WaitingAt(b))
    }
}

// Notes where the first read is that waits at a mailbox, if the ids rise.
fn settle_box<R: Routine>(reads: &mut Reads, places: &Places<R>, order: &Order, b: BoxNo)
    requires order { OrderedIf order.now.rising order.now.next order.now.from order.now.served places.now.items }
    requires reads { AreFrom reads.old.from places.now.items }
    ensures { AreFrom reads.new.from places.now.items }
{
    if order.rising {
        let place = place_read(places, order, reads, b);
        reads.settle(b, id_at(places, place));
    }
}

/// Notes where the first read is that waits at a device, if it is a mailbox.
pub(crate) fn settle_reads<R: Routine>(
    reads: &mut Reads,
    places: &Places<R>,
    order: &Order,
    device: Device,
)
    requires order { OrderedIf order.now.rising order.now.next order.now.from order.now.served places.now.items }
    requires reads { AreFrom reads.old.from places.now.items }
    ensures { AreFrom reads.new.from places.now.items }
{
    match device {
        Device::Mailbox(b) => settle_box(reads, places, order, b),
        Device::Unit(_) => (),
    }
}
