//! The requests of a unit found in their places.

ghost use Rattle.std.specs.Prelude.{◌≡◌, ◌<◌, IfSome, length, option_map, position};
ghost use Rattle.std.specs.List.{find};
ghost use Rattle.vx_base.specs.Queues.{front, in_service, is_served_by, waits_for};
ghost use Rattle.vx_reqs.specs.Places.{OrderedIf, holds, live};

use crate::found::{first_from, id_at, place_among, place_from, request_at};
use crate::order::Order;
use crate::outstanding::Outstanding;
use crate::places::Places;
use crate::sought::Sought;
use vx_base::{Device, Routine, UnitNo};

/// Where the first request stands that waits for a unit. If the ids rise, it is looked for from where it is known to be.
pub(crate) fn place_waiting<R: Routine>(
    places: &Places<R>,
    order: &Order,
    u: UnitNo,
) -> Option<usize>
    requires { OrderedIf order.now.rising order.now.next order.now.from order.now.served places.now.items }
    ensures place { result ≡ position (holds (waits_for u)) places.now.items }
    ensures within { IfSome result (λ i. i < length places.now.items) }
{
    if order.rising && u.0 < 32 {
        let first = first_from(places, order.next, order.from[u.0 as usize]);
        place_from(places, first, Sought::WaitingFor(u))
    } else {
        place_from(places, 0, Sought::WaitingFor(u))
    }
}

/// Where the request stands that a unit serves. If the ids rise, in the logarithm of the places.
pub(crate) fn place_served<R: Routine>(
    places: &Places<R>,
    order: &Order,
    u: UnitNo,
) -> Option<usize>
    requires { OrderedIf order.now.rising order.now.next order.now.from order.now.served places.now.items }
    ensures place { result ≡ position (holds (is_served_by u)) places.now.items }
    ensures within { IfSome result (λ i. i < length places.now.items) }
{
    if order.rising && u.0 < 32 {
        let served = order.served[u.0 as usize];
        place_among(places, order.next, served, Sought::ServedBy(u))
    } else {
        place_from(places, 0, Sought::ServedBy(u))
    }
}

// The first request that waits for a unit.
fn waiting<'a, R: Routine>(
    places: &'a Places<R>,
    order: &Order,
    u: UnitNo,
) -> Option<&'a Outstanding<R>>
    requires { OrderedIf order.now.rising order.now.next order.now.from order.now.served places.now.items }
    ensures { option_map (λ o. o.now) result ≡ find (waits_for u) (live places.now.items) }
{
    let place = place_waiting(places, order, u);
    request_at(places, place)
}

/// The request that a unit serves.
pub(crate) fn serving<'a, R: Routine>(
    places: &'a Places<R>,
    order: &Order,
    u: UnitNo,
) -> Option<&'a Outstanding<R>>
    requires { OrderedIf order.now.rising order.now.next order.now.from order.now.served places.now.items }
    ensures { option_map (λ o. o.now) result ≡ in_service u (live places.now.items) }
{
    let place = place_served(places, order, u);
    request_at(places, place)
}

/// The request that a unit takes next.
pub(crate) fn front<'a, R: Routine>(
    places: &'a Places<R>,
    order: &Order,
    u: UnitNo,
) -> Option<&'a Outstanding<R>>
    requires { OrderedIf order.now.rising order.now.next order.now.from order.now.served places.now.items }
    ensures { option_map (λ o. o.now) result ≡ front u (live places.now.items) }
{
    match serving(places, order, u) {
        Some(_) => None,
        None => waiting(places, order, u),
    }
}

/// Notes where the first request is that waits for a unit.
pub(crate) fn settle_unit<R: Routine>(order: &mut Order, places: &Places<R>, u: UnitNo)
    requires { OrderedIf order.old.rising order.old.next order.old.from order.old.served places.now.items }
    ensures { OrderedIf order.new.rising order.new.next order.new.from order.new.served places.now.items }
{
    let place = place_waiting(places, order, u);
    order.settle(u, id_at(places, place));
}

/// Notes where the first request is that waits for a device, if it is a unit.
pub(crate) fn settle<R: Routine>(order: &mut Order, places: &Places<R>, device: Device)
    requires { OrderedIf order.old.rising order.old.next order.old.from order.old.served places.now.items }
    ensures { OrderedIf order.new.rising order.new.next order.new.from order.new.served places.now.items }
{
    match device {
        Device::Unit(u) => settle_unit(order, places, u),
        Device::Mailbox(_) => (),
    }
}
