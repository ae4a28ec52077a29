//! Lists of what is remembered: a place for each thing, None if nothing is remembered of it.

ghost use Rattle.std.specs.Prelude.{◌≡◌, ℕ, None, slice_index_or, slice_set};

use vx_base::NoMemory;

/// What is remembered at a place; None beyond the list too.
pub(crate) fn remembered<T: Copy>(places: &[Option<T>], i: usize) -> Option<T>
    ensures { result ≡ slice_index_or places.now i None }
{
    match places.get(i) {
        Some(place) => *place,
        None => None,
    }
}

/// Makes a place for each of so many things.
pub(crate) fn cover<T: Copy>(places: &mut Vec<Option<T>>, things: usize) -> Result<(), NoMemory>
    ensures { (i : ℕ) → slice_index_or places.new.items i None ≡ slice_index_or places.old.items i None }
{
    while places.len() < things {
        places.push(None)?;
    }
    Ok(())
}

/// Forgets what is remembered at a place, if there is one.
pub(crate) fn forget<T: Copy>(places: &mut Vec<Option<T>>, i: usize)
    ensures { places.new.items ≡ slice_set places.old.items i None }
{
    if i < places.len() {
        places[i] = None;
    }
}
