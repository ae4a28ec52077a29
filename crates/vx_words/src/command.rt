//! What the words ask for.

ghost use Rattle.std.specs.Int.{IsInRange};
ghost use Rattle.std.specs.Prelude.{◌≡◌, ◌≤◌, IfErr, IfOk, IfSome, IsSome};
ghost use Rattle.vx_words.specs.Words as spec;

use crate::options::{Numbered, number_in, numbers_in};
use crate::picks::{Picks, picks_in};
use crate::scope::{Scope, scope_in};
use std::alloc::Global;
use vx_base::{Bytes, NoMemory};

/// The options of `sim`: the seed of the schedule, and how many records a run may have, 1 to 100,000.
#[derive(Clone, Copy)]
pub struct Options {
    pub seed: u64,
    pub limit: u32,
}

/// A command of the program that reads its input. `gen N` reads none: `size_of`.
#[derive(Drop)]
pub enum Command {
    /// `sim`: read a script, run its images as a seed chooses, and write the transcript.
    Sim(Options),
    /// `sim --picks`: the same, as a list of places chooses.
    Follow(Picks),
    /// `explore`: read a script, and tell how all its runs end.
    Explore(Scope),
    /// `show`: read a script, and write it canonically.
    Show,
    /// `check` and `draw`: read a transcript, judge it, and write a report of it.
    Check(Report),
}

/// What is written of a transcript that was judged.
#[derive(Clone, Copy)]
pub enum Report {
    /// `check`: the line of its verdict.
    Line,
    /// `draw`: a picture of it, in SVG.
    Picture,
    /// `draw --text`: columns of text.
    Columns,
}

/// The most records that a run may have.
const MOST_RECORDS: u64 = 100_000;

/// How many records a run of `sim` or `run` may have if the words do not say it.
pub(crate) const USUAL_LIMIT: u64 = 10_000;

/// The most producers that a generated system may have.
const MOST_PRODUCERS: u64 = 200;

/// How many records a run may have, if the word says it.
pub(crate) fn limit_in(word: &[u8]) -> Option<u32>
    ensures value { result ≡ spec.limit_in word.now }
    ensures above { IfSome result (λ n. 1 ≤ n) }
    ensures within { IfSome result (λ n. n ≤ 100000) }
{
    let limit = number_in(1, MOST_RECORDS, word)?;
    Some(limit as u32)
}

/// `--limit N`: how many records a run may have, and how many if it is not given.
pub(crate) fn limit_option(usual: u64) -> Numbered<'static>
    requires { IsInRange 1 100000 usual }
    ensures { result ≡ spec.limit_option usual }
{
    Numbered::new(b"--limit".as_slice(), 1, MOST_RECORDS, usual)
}

// The options of `sim`.
fn options_in(words: &[Bytes]) -> Option<Options>
    ensures options { result ≡ spec.options_in words.now }
    ensures above { IfSome result (λ options. 1 ≤ options.limit) }
    ensures within { IfSome result (λ options. options.limit ≤ 100000) }
{
    let seed = Numbered::new(b"--seed".as_slice(), 0, u64::MAX, 0);
    let limit = limit_option(USUAL_LIMIT);
    let (seed, limit) = numbers_in(&seed, &limit, words)?;
    Some(Options {
        seed,
        limit: limit as u32,
    })
}

fn report_in(words: &[Bytes]) -> Option<Report>
    ensures { result ≡ spec.report_in words.now }
{
    match words {
        [] => Some(Report::Picture),
        [word] if word.as_slice() == b"--text".as_slice() => Some(Report::Columns),
        _ => None,
    }
}

// The command of a word and those behind it, if it is not `sim`.
fn other_command(word: &[u8], rest: &[Bytes]) -> Option<Command>
    ensures command { result ≡ spec.other_command word.now rest.now }
    ensures limited { IfSome result spec.HasLimit }
{
    if word == b"show".as_slice() && rest.is_empty() {
        return Some(Command::Show);
    }
    if word == b"check".as_slice() && rest.is_empty() {
        return Some(Command::Check(Report::Line));
    }
    if word == b"draw".as_slice() {
        return match report_in(rest) {
            Some(report) => Some(Command::Check(report)),
            None => None,
        };
    }
    if word == b"explore".as_slice() {
        return match scope_in(rest) {
            Some(scope) => Some(Command::Explore(scope)),
            None => None,
        };
    }
    None
}

fn size_in(word: &[u8]) -> Option<u32>
    ensures value { result ≡ spec.size_in word.now }
    ensures above { IfSome result (λ n. 1 ≤ n) }
    ensures within { IfSome result (λ n. n ≤ 200) }
{
    let size = number_in(1, MOST_PRODUCERS, word)?;
    Some(size as u32)
}

// `sim` with the words behind it.
fn sim_in(alloc: Global, words: &[Bytes]) -> Result<Option<Command>, NoMemory>
    ensures command { IfOk result (λ command. command ≡ spec.sim_in words.now) }
    ensures limited { IfOk result (λ command. IfSome command spec.HasLimit) }
    ensures no_memory { IfErr result (λ e. IsSome (spec.sim_in words.now)) }
{
    if let Some(options) = options_in(words) {
        return Ok(Some(Command::Sim(options)));
    }
    match picks_in(alloc, words)? {
        Some(picks) => Ok(Some(Command::Follow(picks))),
        None => Ok(None),
    }
}

/// The command that the words ask for, if it reads its input and is not `run`, which `crew_of` reads. Words that are none take no memory.
pub fn command_of(alloc: Global, words: &[Bytes]) -> Result<Option<Command>, NoMemory>
    ensures command { IfOk result (λ command. command ≡ spec.command_of words.now) }
    ensures limited { IfOk result (λ command. IfSome command spec.HasLimit) }
    ensures no_memory { IfErr result (λ e. IsSome (spec.command_of words.now)) }
{
    let [word, rest @ ..] = words else {
        return Ok(None);
    };
    if word.as_slice() == b"sim".as_slice() {
        return sim_in(alloc, rest);
    }
    Ok(other_command(word.as_slice(), rest))
}

/// The N of `gen N`, 1 to 200, if the words are this command.
pub fn size_of(words: &[Bytes]) -> Option<u32>
    ensures size { result ≡ spec.size_of words.now }
    ensures above { IfSome result (λ n. 1 ≤ n) }
    ensures within { IfSome result (λ n. n ≤ 200) }
{
    match words {
        [word, number] if word.as_slice() == b"gen".as_slice() => size_in(number.as_slice()),
        _ => None,
    }
}
