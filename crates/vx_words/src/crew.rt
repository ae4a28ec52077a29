//! How many threads run a script, as the words of `run` name it.

ghost use Rattle.std.specs.Prelude.{◌≡◌, IfSome};
ghost use Rattle.vx_words.specs.Crew as spec;

use crate::command::{USUAL_LIMIT, limit_option};
use crate::options::{Numbered, numbers_in};
use vx_base::Bytes;

/// How many threads run a script, 1 to 16, and how many records the run may have, 1 to 100,000.
#[derive(Clone, Copy)]
pub struct Crew {
    pub cpus: u32,
    pub limit: u32,
}

fn crew_in(words: &[Bytes]) -> Option<Crew>
    ensures crew { result ≡ spec.crew_in words.now }
    ensures limited { IfSome result spec.IsCrew }
{
    let cpus = Numbered::new(b"--cpus".as_slice(), 1, 16, 4);
    let limit = limit_option(USUAL_LIMIT);
    let (cpus, limit) = numbers_in(&cpus, &limit, words)?;
    Some(Crew {
        cpus: cpus as u32,
        limit: limit as u32,
    })
}

/// What the words of `run` ask for, if they are this command. Takes no memory.
pub fn crew_of(words: &[Bytes]) -> Option<Crew>
    ensures crew { result ≡ spec.crew_of words.now }
    ensures limited { IfSome result spec.IsCrew }
{
    match words {
        [word, rest @ ..] if word.as_slice() == b"run".as_slice() => crew_in(rest),
        _ => None,
    }
}
