//! A schedule of places, as the words of `sim` name it.

ghost use Rattle.std.specs.Prelude.{◌≡◌, ◌≤◌, IfErr, IfOk, IfSome, IsSome, Some};
ghost use Rattle.vx_words.specs.Words as spec;

use crate::command::{USUAL_LIMIT, limit_in};
use crate::places::{Places, places_in};
use std::alloc::Global;
use vx_base::{Bytes, NoMemory};

/// The places of a schedule, and how many records its run may have, 1 to 100,000.
#[derive(Drop)]
pub struct Picks {
    pub places: Places,
    pub limit: u32,
}

fn picks_of(alloc: Global, list: &[u8], limit: u32) -> Result<Option<Picks>, NoMemory>
    requires above { 1 ≤ limit }
    requires within { limit ≤ 100000 }
    ensures picks { IfOk result (λ picks. picks ≡ spec.picks_of list.now (Some limit)) }
    ensures above { IfOk result (λ picks. IfSome picks (λ p. 1 ≤ p.limit)) }
    ensures within { IfOk result (λ picks. IfSome picks (λ p. p.limit ≤ 100000)) }
    ensures no_memory { IfErr result (λ e. IsSome (spec.picks_of list.now (Some limit))) }
{
    match places_in(alloc, list)? {
        Some(places) => Ok(Some(Picks { places, limit })),
        None => Ok(None),
    }
}

fn limited_picks(alloc: Global, list: &[u8], number: &[u8]) -> Result<Option<Picks>, NoMemory>
    ensures picks { IfOk result (λ picks. picks ≡ spec.picks_of list.now (spec.limit_in number.now)) }
    ensures above { IfOk result (λ picks. IfSome picks (λ p. 1 ≤ p.limit)) }
    ensures within { IfOk result (λ picks. IfSome picks (λ p. p.limit ≤ 100000)) }
    ensures no_memory { IfErr result (λ e. IsSome (spec.picks_of list.now (spec.limit_in number.now))) }
{
    match limit_in(number) {
        Some(limit) => picks_of(alloc, list, limit),
        None => Ok(None),
    }
}

/// The schedule that the words behind `sim` name, if they name places and no seed.
pub fn picks_in(alloc: Global, words: &[Bytes]) -> Result<Option<Picks>, NoMemory>
    ensures picks { IfOk result (λ picks. picks ≡ spec.picks_in words.now) }
    ensures above { IfOk result (λ picks. IfSome picks (λ p. 1 ≤ p.limit)) }
    ensures within { IfOk result (λ picks. IfSome picks (λ p. p.limit ≤ 100000)) }
    ensures no_memory { IfErr result (λ e. IsSome (spec.picks_in words.now)) }
{
    match words {
        [name, list] if name.as_slice() == b"--picks".as_slice() => {
            picks_of(alloc, list.as_slice(), USUAL_LIMIT as u32)
        }
        [first, list, second, number]
            if first.as_slice() == b"--picks".as_slice()
                && second.as_slice() == b"--limit".as_slice() => {
            limited_picks(alloc, list.as_slice(), number.as_slice())
        }
        [first, number, second, list]
            if first.as_slice() == b"--limit".as_slice()
                && second.as_slice() == b"--picks".as_slice() => {
            limited_picks(alloc, list.as_slice(), number.as_slice())
        }
        _ => Ok(None),
    }
}
