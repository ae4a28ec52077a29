//! The front of a list, and what is behind it.

ghost use Rattle.std.specs.Prelude.{◌≡◌, take, drop, option_map};
ghost use Rattle.vx_draw.specs.Columns.{sound_part, wrong_record};

use vx_base::Rec;

/// The first n items, or all if there are fewer.
pub fn front<T>(items: &[T], n: u128) -> &[T]
    ensures { result.now ≡ take n items.now }
{
    if n < items.len() as u128 {
        &items[..n as usize]
    } else {
        items
    }
}

/// The items behind the first n.
pub fn behind<T>(items: &[T], n: usize) -> &[T]
    ensures { result.now ≡ drop n items.now }
{
    if n < items.len() { &items[n..] } else { &[] }
}

/// The records before the one of number `wrong`; all if there is no such one.
pub fn sound_part(wrong: Option<u32>, recs: &[Rec]) -> &[Rec]
    ensures { result.now ≡ sound_part wrong recs.now }
{
    match wrong {
        Some(n) => front(recs, u128::from(n.saturating_sub(1))),
        None => recs,
    }
}

/// The record of number `wrong`, if there is one.
pub fn wrong_record(wrong: Option<u32>, recs: &[Rec]) -> Option<&Rec>
    ensures { option_map (λ rec. rec.now) result ≡ wrong_record wrong recs.now }
{
    recs.get(wrong?.saturating_sub(1) as usize)
}
