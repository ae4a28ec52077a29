//! Requests found in their places.

ghost use Rattle.std.specs.Prelude.{◌≡◌, ◌≢◌, ◌<◌, ◌≤◌, ℕ, Bool, false, IfSome, length, option_map, position, get_or};
ghost use Rattle.std.specs.List.{find};
ghost use Rattle.vx_base.specs.Lists.{amend};
ghost use Rattle.vx_record.specs.Types.{Request};
ghost use Rattle.vx_reqs.specs.Places.{Place, emptied, changed, holds, live, OrderedIf, Rises};
ghost use Rattle.vx_reqs.specs.Sought.{is_sought};
ghost use Rattle.vx_record.specs.Requests.{taken_up};
ghost use Rattle.vx_record.specs.Finish.{this_request};
ghost use Rattle.vx_record.specs.Cancel.{with_abort};

use crate::order::Order;
use crate::outstanding::Outstanding;
use crate::places::Places;
use crate::sought::Sought;
use vx_base::{Id, Routine};

/// The first place whose id is not below a number, among ids that rise.
pub(crate) fn first_from<R: Routine>(places: &Places<R>, _next: u64, number: u64) -> usize
    requires { Rises 0 places.now.items _next }
    ensures within { result ≤ length places.now.items }
    ensures below { (k : ℕ) (d : Place) → k < result → (get_or places.now.items k d).id.0 < number }
    ensures above { (k : ℕ) (d : Place) → result ≤ k → k < length places.now.items → number ≤ (get_or places.now.items k d).id.0 }
{
    let mut low = 0;
    let mut high = places.len();
    while low < high {
        let middle = low + (high - low) / 2;
        if (places.id(middle).0 as u64) < number {
            low = middle + 1;
        } else {
            high = middle;
        }
    }
    low
}

/// Whether a request of that kind stands at a place.
pub(crate) fn stands<R: Routine>(places: &Places<R>, at: usize, sought: Sought) -> bool
    requires { at < length places.now.items }
    ensures { (d : Place) → result ≡ holds (is_sought sought) (get_or places.now.items at d) }
{
    match places.held(at) {
        Some(request) => sought.is(request),
        None => false,
    }
}

/// Where the first request of that kind stands, of those from a place on, if none stands before.
pub(crate) fn place_from<R: Routine>(
    places: &Places<R>,
    first: usize,
    sought: Sought,
) -> Option<usize>
    requires { (k : ℕ) (d : Place) → k < first → k < length places.now.items → holds (is_sought sought) (get_or places.now.items k d) ≡ false }
    ensures place { result ≡ position (holds (is_sought sought)) places.now.items }
    ensures within { IfSome result (λ i. i < length places.now.items) }
{
    let mut at = first;
    while at < places.len() {
        if stands(places, at, sought) {
            return Some(at);
        }
        at += 1;
    }
    None
}

/// Where the only request of that kind stands, among ids that rise, if only the one with that id may be of it.
pub(crate) fn place_among<R: Routine>(
    places: &Places<R>,
    next: u64,
    number: u64,
    sought: Sought,
) -> Option<usize>
    requires rises { Rises 0 places.now.items next }
    requires others { (k : ℕ) (d : Place) → k < length places.now.items → (get_or places.now.items k d).id.0 ≢ number → holds (is_sought sought) (get_or places.now.items k d) ≡ false }
    ensures place { result ≡ position (holds (is_sought sought)) places.now.items }
    ensures within { IfSome result (λ i. i < length places.now.items) }
{
    let at = first_from(places, next, number);
    if at < places.len() && stands(places, at, sought) {
        Some(at)
    } else {
        None
    }
}

/// Where the request with an id stands. If the ids rise, as from a counter, in the logarithm of the places.
pub(crate) fn place_of_id<R: Routine>(places: &Places<R>, order: &Order, id: Id) -> Option<usize>
    requires { OrderedIf order.now.rising order.now.next order.now.from order.now.served places.now.items }
    ensures place { result ≡ position (holds (this_request id)) places.now.items }
    ensures within { IfSome result (λ i. i < length places.now.items) }
{
    if order.rising {
        place_among(places, order.next, id.0 as u64, Sought::WithId(id))
    } else {
        place_from(places, 0, Sought::WithId(id))
    }
}

/// The request at a place, if there is one.
pub(crate) fn request_at<R: Routine>(
    places: &Places<R>,
    place: Option<usize>,
) -> Option<&Outstanding<R>>
    requires { IfSome place (λ i. i < length places.now.items) }
    ensures { (p : Request → Bool) → place ≡ position (holds p) places.now.items → option_map (λ o. o.now) result ≡ find p (live places.now.items) }
{
    match place {
        Some(place) => places.held(place),
        None => None,
    }
}

/// The id at a place, if there is one.
pub(crate) fn id_at<R: Routine>(places: &Places<R>, place: Option<usize>) -> Option<Id>
    requires { IfSome place (λ i. i < length places.now.items) }
    ensures { (p : Place → Bool) → place ≡ position p places.now.items → result ≡ option_map (λ y. y.id) (find p places.now.items) }
{
    match place {
        Some(place) => Some(places.id(place)),
        None => None,
    }
}

/// Takes out the request at a place, if there is one.
pub(crate) fn take_at<R: Routine>(
    places: &mut Places<R>,
    place: Option<usize>,
) -> Option<Outstanding<R>>
    requires { IfSome place (λ i. i < length places.old.items) }
    ensures found { (p : Request → Bool) → place ≡ position (holds p) places.old.items → result ≡ find p (live places.old.items) }
    ensures after { (p : Request → Bool) → place ≡ position (holds p) places.old.items → places.new.items ≡ amend (holds p) emptied places.old.items }
    ensures capacity { places.new.capacity ≡ places.old.capacity }
{
    match place {
        Some(place) => places.take(place),
        None => None,
    }
}

/// Has a unit serve the request at a place, if there is one.
pub(crate) fn serve_at<R: Routine>(places: &mut Places<R>, place: Option<usize>)
    requires { IfSome place (λ i. i < length places.old.items) }
    ensures after { (p : Request → Bool) → place ≡ position (holds p) places.old.items → places.new.items ≡ amend (holds p) (changed taken_up) places.old.items }
    ensures capacity { places.new.capacity ≡ places.old.capacity }
{
    match place {
        Some(place) => places.serve(place),
        None => (),
    }
}

/// Has the request at a place aborted, if there is one.
pub(crate) fn mark_at<R: Routine>(places: &mut Places<R>, place: Option<usize>)
    requires { IfSome place (λ i. i < length places.old.items) }
    ensures after { (p : Request → Bool) → place ≡ position (holds p) places.old.items → places.new.items ≡ amend (holds p) (changed with_abort) places.old.items }
    ensures capacity { places.new.capacity ≡ places.old.capacity }
{
    match place {
        Some(place) => places.mark(place),
        None => (),
    }
}
