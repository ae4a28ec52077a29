//! What is known of the order of places: ids that rise, and where each unit's requests are.

ghost use Rattle.std.specs.Prelude.{◌≡◌, ◌≢◌, ◌<◌, ◌≤◌, ◌∷◌, ◌++◌, [], Some, None, true, false, List, get_or, nat_le, option_map, ◌&&◌};
ghost use Rattle.std.specs.List.{find};
ghost use Rattle.vx_base.specs.Lists.{amend};
ghost use Rattle.vx_record.specs.Types.{Request};
ghost use Rattle.vx_base.specs.Queues.{is_served_by, is_unit, waits_for};
ghost use Rattle.vx_reqs.specs.Places.{Place, OrderedIf, changed, holds};
ghost use Rattle.vx_record.specs.Requests.{taken_up};

use vx_base::{Device, Id, UnitNo};

/// Whether the ids rise, as from a counter, and below which number they are. For each of the units that a script may have:
/// the first number that may wait for it, and the id that it serves.
#[derive(Drop)]
pub(crate) struct Order {
    pub(crate) rising: bool,
    pub(crate) next: u64,
    pub(crate) from: [u64; 32],
    pub(crate) served: [u64; 32],
}

impl Order {
    /// That of no places.
    pub(crate) fn new() -> Order
        ensures { OrderedIf result.rising result.next result.from result.served [] }
    {
        Order {
            rising: true,
            next: 0,
            from: [u64::MAX; 32],
            served: [u64::MAX; 32],
        }
    }

    /// Nothing is known any more.
    pub(crate) fn forget(&mut self)
        ensures { self.new.rising ≡ false }
    {
        self.rising = false;
    }

    /// Goes on to a request that is put behind the others.
    pub(crate) fn accept(&mut self, id: Id, device: Device)
        ensures { (places : List Place) (r : Request) → r.req.id ≡ id → r.req.device ≡ device → r.served ≡ false → OrderedIf self.old.rising self.old.next self.old.from self.old.served places → OrderedIf self.new.rising self.new.next self.new.from self.new.served (places ++ record { id = id; request = Some r } ∷ []) }
    {
        let number = id.0 as u64;
        self.rising = goes_on(self.rising, self.next, number);
        self.next = number + 1;
        lower(&mut self.from, device, number);
    }

    /// Goes on to a unit that serves the first request that waited for it.
    pub(crate) fn begin(&mut self, u: UnitNo, first: Option<Id>)
        ensures { (places : List Place) → None ≡ find (holds (is_served_by u)) places → first ≡ option_map (λ y. y.id) (find (holds (waits_for u)) places) → OrderedIf self.old.rising self.old.next self.old.from self.old.served places → OrderedIf self.new.rising self.new.next self.new.from self.new.served (amend (holds (waits_for u)) (changed taken_up) places) }
    {
        match first {
            Some(id) => put(&mut self.served, u, id.0 as u64),
            None => (),
        }
    }

    /// Notes the first request that waits for a unit.
    pub(crate) fn settle(&mut self, u: UnitNo, first: Option<Id>)
        ensures { (places : List Place) → first ≡ option_map (λ y. y.id) (find (holds (waits_for u)) places) → OrderedIf self.old.rising self.old.next self.old.from self.old.served places → OrderedIf self.new.rising self.new.next self.new.from self.new.served places }
    {
        match first {
            Some(id) => put(&mut self.from, u, id.0 as u64),
            None => put(&mut self.from, u, u64::MAX),
        }
    }
}

// Whether the ids still rise, with one more.
fn goes_on(rising: bool, next: u64, number: u64) -> bool
    ensures { result ≡ (rising && nat_le next number) }
{
    rising && next <= number
}

// Puts the number of a unit.
fn put(numbers: &mut [u64; 32], u: UnitNo, number: u64)
    ensures here { u.0 < 32 → get_or numbers.new u.0 0 ≡ number }
    ensures others { (other : UnitNo) → u.0 ≢ other.0 → get_or numbers.new other.0 0 ≡ get_or numbers.old other.0 0 }
{
    if u.0 < 32 {
        numbers[u.0 as usize] = number;
    }
}

// Puts the number of a device, if it is a unit with a greater one.
fn lower(numbers: &mut [u64; 32], device: Device, number: u64)
    ensures here { (u : UnitNo) → u.0 < 32 → is_unit u device ≡ true → get_or numbers.new u.0 0 ≤ number }
    ensures all { (u : UnitNo) → get_or numbers.new u.0 0 ≤ get_or numbers.old u.0 0 }
{
    if let Device::Unit(u) = device
        && u.0 < 32
        && number < numbers[u.0 as usize]
    {
        numbers[u.0 as usize] = number;
    }
}
