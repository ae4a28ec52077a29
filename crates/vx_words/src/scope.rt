//! How far a script is explored, as the words of `explore` name it.

ghost use Rattle.std.specs.Prelude.{◌≡◌, IfSome};
ghost use Rattle.vx_words.specs.Words as spec;

use crate::command::limit_option;
use crate::options::{Numbered, numbers_in};
use vx_base::Bytes;

/// How many records a run may have, 1 to 100,000, and how many states may be kept after one number of records, 1 to 10,000,000.
#[derive(Clone, Copy)]
pub struct Scope {
    pub limit: u32,
    pub states: u32,
}

/// How far the words behind `explore` ask it to go.
pub fn scope_in(words: &[Bytes]) -> Option<Scope>
    ensures scope { result ≡ spec.scope_in words.now }
    ensures limited { IfSome result spec.IsScope }
{
    let limit = limit_option(30);
    let states = Numbered::new(b"--states".as_slice(), 1, 10_000_000, 100_000);
    let (limit, states) = numbers_in(&limit, &states, words)?;
    Some(Scope {
        limit: limit as u32,
        states: states as u32,
    })
}
