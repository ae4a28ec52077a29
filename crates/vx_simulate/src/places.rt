//! A list of places, read from the front.

ghost use Rattle.std.specs.Prelude.{◌≡◌};
ghost use Rattle.vx_base.specs.Lists.{rest};
ghost use Rattle.vx_record.specs.Picked as spec;

/// The place of the next record: behind the last place the first.
pub fn next_place(places: &[u32]) -> u32
    ensures { result ≡ spec.next_place places.now }
{
    match places {
        [] => 0,
        [place, ..] => *place,
    }
}

/// The places of the records after the next.
pub fn places_after(places: &[u32]) -> &[u32]
    ensures { result.now ≡ rest places.now }
{
    match places {
        [] => places,
        [_, rest @ ..] => rest,
    }
}
