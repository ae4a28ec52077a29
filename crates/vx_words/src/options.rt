//! Options whose value is a number: two at most, each at most once, in any order.

ghost use Rattle.std.specs.Int.{IsInRange};
ghost use Rattle.std.specs.Option.{option_zip};
ghost use Rattle.std.specs.Prelude.{◌≡◌, IfSome, bytes_eq};
ghost use Rattle.vx_words.specs.Options as spec;

use std::marker::Model;
use vx_base::Bytes;
use vx_lines::number_up_to;

/// An option: its name, the least and the most that its number may be, and what the number is if the option is not given.
#[derive(Drop)]
pub(crate) struct Numbered<'a> {
    name: &'a [u8],
    least: u64,
    most: u64,
    usual: u64,
}

impl<'a> Model for Numbered<'a> {
    ghost use Rattle.std.specs.Int.{IsInRange};
    ghost use Rattle.vx_words.specs.Options.{Numbered};

    ghost Value = { Numbered };

    ghost view = { λ n. record { name = n.name.now; least = n.least; most = n.most; usual = n.usual } };

    ghost invariant = { λ n. IsInRange n.least n.most n.usual };
}

/// The number that a word is, from the least to the most.
pub(crate) fn number_in(least: u64, most: u64, word: &[u8]) -> Option<u64>
    ensures value { result ≡ spec.number_in least most word.now }
    ensures within { IfSome result (IsInRange least most) }
{
    let n = number_up_to(most, word)?;
    if n < least { None } else { Some(n) }
}

impl<'a> Numbered<'a> {
    /// An option of a name.
    pub(crate) fn new(name: &'a [u8], least: u64, most: u64, usual: u64) -> Numbered<'a>
        requires { IsInRange least most usual }
        ensures { result ≡ record { name = name.now; least = least; most = most; usual = usual } }
    {
        Numbered {
            name,
            least,
            most,
            usual,
        }
    }

    fn is(&self, name: &[u8]) -> bool
        ensures { result ≡ bytes_eq name.now self.now.name }
    {
        name == self.name
    }

    // What its number is if it is not given.
    fn usual(&self) -> u64
        ensures value { result ≡ self.now.usual }
        ensures within { IsInRange self.now.least self.now.most result }
    {
        self.usual
    }

    // The number that a word is, if it may have it.
    fn value(&self, word: &[u8]) -> Option<u64>
        ensures value { result ≡ spec.value_of self.now word.now }
        ensures within { IfSome result (IsInRange self.now.least self.now.most) }
    {
        number_in(self.least, self.most, word)
    }
}

// The numbers of two options that are both given.
fn values(
    first: &Numbered<'_>,
    word: &[u8],
    second: &Numbered<'_>,
    other: &[u8],
) -> Option<(u64, u64)>
    ensures numbers { result ≡ option_zip (spec.value_of first.now word.now) (spec.value_of second.now other.now) }
    ensures within { IfSome result (spec.AreIn first.now second.now) }
{
    let n = first.value(word)?;
    let m = second.value(other)?;
    Some((n, m))
}

// The numbers of two options of which one is given, by its name.
fn value_named(
    first: &Numbered<'_>,
    second: &Numbered<'_>,
    name: &[u8],
    word: &[u8],
) -> Option<(u64, u64)>
    ensures numbers { result ≡ spec.one_in first.now second.now name.now word.now }
    ensures within { IfSome result (spec.AreIn first.now second.now) }
{
    if first.is(name) {
        let n = first.value(word)?;
        return Some((n, second.usual()));
    }
    if second.is(name) {
        let m = second.value(word)?;
        return Some((first.usual(), m));
    }
    None
}

/// The numbers of two options, if the words give these and no other. Takes no memory.
pub(crate) fn numbers_in(
    first: &Numbered<'_>,
    second: &Numbered<'_>,
    words: &[Bytes],
) -> Option<(u64, u64)>
    ensures numbers { result ≡ spec.numbers_in first.now second.now words.now }
    ensures within { IfSome result (spec.AreIn first.now second.now) }
{
    match words {
        [] => Some((first.usual(), second.usual())),
        [name, word] => value_named(first, second, name.as_slice(), word.as_slice()),
        [name, word, other, value] if first.is(name.as_slice()) && second.is(other.as_slice()) => {
            values(first, word.as_slice(), second, value.as_slice())
        }
        [name, word, other, value] if second.is(name.as_slice()) && first.is(other.as_slice()) => {
            values(first, value.as_slice(), second, word.as_slice())
        }
        _ => None,
    }
}
