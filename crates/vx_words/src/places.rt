//! The places that a word lists.

ghost use Rattle.std.specs.Prelude.{◌≡◌, IfErr, IfOk, IsSome, map};
ghost use Rattle.std.specs.List.{list_all, slice_split};
ghost use Rattle.std.specs.Option.{is_some};
ghost use Rattle.vx_words.specs.Listing as listing;
ghost use Rattle.vx_words.specs.Places as spec;

use std::alloc::{AllocError, Global};
use vx_base::{NoMemory, Sequence};
use vx_lines::number_up_to;

/// Places in lists of enabled events, from 0.
pub type Places = Sequence<u32>;

/// The last place that a list may name.
const LAST_PLACE: u64 = 4_294_967_295;

fn place_in(word: &[u8]) -> Option<u32>
    ensures { result ≡ spec.place_in word.now }
{
    let place = number_up_to(LAST_PLACE, word)?;
    Some(place as u32)
}

fn is_place(word: &[u8]) -> bool
    ensures { result ≡ listing.is_place word.now }
{
    place_in(word).is_some()
}

fn place_of(word: &[u8]) -> u32
    ensures { result ≡ listing.place_of word.now }
{
    place_in(word).unwrap_or(0)
}

fn is_list(word: &[u8]) -> bool
    ensures { result ≡ list_all listing.is_place (slice_split spec.is_comma word.now) }
{
    word.split(|b| *b == b',').all(|part| is_place(part))
}

fn collect_places(alloc: Global, word: &[u8]) -> Result<Vec<u32>, AllocError>
    ensures { IfOk result (λ places. places.items ≡ map listing.place_of (slice_split spec.is_comma word.now)) }
{
    word.split(|b| *b == b',')
        .map(|part| place_of(part))
        .collect(alloc)
}

/// The places that a word lists, if it is a list. A word that is none takes no memory.
pub fn places_in(alloc: Global, word: &[u8]) -> Result<Option<Places>, NoMemory>
    ensures places { IfOk result (λ places. places ≡ spec.places_in word.now) }
    ensures no_memory { IfErr result (λ e. IsSome (spec.places_in word.now)) }
{
    if !is_list(word) {
        return Ok(None);
    }
    let places = collect_places(alloc, word)?;
    Ok(Some(Places::from_vec(places)))
}
