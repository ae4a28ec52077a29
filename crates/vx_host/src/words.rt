//! The words that a program is called with.

ghost use Rattle.std.specs.Prelude.{◌≡◌, [], drop, IfErr, IfOk, map, string_bytes};
ghost use Rattle.std.specs.Vec.Iter.{into_iter_items};

use std::alloc::Global;
use std::env::Args;
use std::io;
use std::io::ErrorKind;
use vx_base::{Bytes, NoMemory};

/// The bytes of each text but the first.
fn bytes_of(alloc: Global, mut texts: Args) -> Result<Vec<Bytes>, NoMemory>
    ensures { IfOk result (λ words. words.items ≡ map string_bytes (drop 1 (into_iter_items texts))) }
{
    let mut words = Vec::new(alloc);
    let _name = texts.next();
    for text in texts {
        let mut word = Bytes::new(alloc);
        word.push_all(text.as_bytes())?;
        words.push(word)?;
    }
    Ok(words)
}

/// A program's words, from its arguments as `std::env::args` gives them: all but the first, which is its name; none of them if one is
/// no text. Refuses if memory runs out, here or in std.
pub fn words_of(alloc: Global, args: io::Result<Args>) -> Result<Vec<Bytes>, NoMemory>
    ensures words { IfOk result (λ words. IfOk args (λ texts.
        words.items ≡ map string_bytes (drop 1 (into_iter_items texts)))) }
    ensures none { IfOk result (λ words. IfErr args (λ error. words.items ≡ [])) }
{
    match args {
        Ok(texts) => bytes_of(alloc, texts),
        Err(error) if error.kind() == ErrorKind::OutOfMemory => Err(NoMemory),
        Err(_) => Ok(Vec::new(alloc)),
    }
}
