//! Counts what records tell.

ghost use Rattle.std.specs.Prelude.{◌≡◌, ◌↔◌, ◌<◌, ◌+◌, ◌^◌, ◌++◌, ◌∷◌, [], IsTrue, List};
ghost use Rattle.vx_base.specs.declared.record.Rec.{Rec};
ghost use Rattle.vx_gen.specs.Counted.{IsCounted, count, finishes, opens_request, starts_ast, tally_of, time_told, with_record};

use vx_base::{Answer, Effect, Event, Opened, Rec};

/// The summary of records: how many there are, how many requests they open and finish, how many ASTs they start, and the time of
/// the last TICK.
#[derive(Clone, Copy)]
pub struct Tally {
    pub records: u32,
    pub requests: u32,
    pub finished: u32,
    pub asts: u32,
    pub time: u64,
}

fn opens_request(effect: &Effect) -> bool
    ensures { result ≡ opens_request effect.now }
{
    match effect {
        Effect::Open { kind, .. } => match *kind {
            Opened::Bio | Opened::Dio => true,
            _ => false,
        },
        _ => false,
    }
}

fn finishes(effect: &Effect) -> bool
    ensures { result ≡ finishes effect.now }
{
    match effect {
        Effect::Fin { .. } => true,
        _ => false,
    }
}

fn starts_ast(rec: &Rec) -> bool
    ensures { result ≡ starts_ast rec.now }
{
    match rec.event {
        Event::Ast(_) => true,
        _ => false,
    }
}

// The time after a record.
fn time_told(time: u64, rec: &Rec) -> u64
    ensures { result ≡ time_told time rec.now.event rec.now.answer }
{
    match (rec.event, rec.answer) {
        (Event::Tick, Answer::Time(t)) => t,
        _ => time,
    }
}

fn requests_in(effects: &[Effect]) -> usize
    ensures { result ≡ count opens_request effects.now }
{
    let mut n = 0;
    for effect in effects {
        if opens_request(effect) {
            n += 1;
        }
    }
    n
}

fn finished_in(effects: &[Effect]) -> usize
    ensures { result ≡ count finishes effects.now }
{
    let mut n = 0;
    for effect in effects {
        if finishes(effect) {
            n += 1;
        }
    }
    n
}

// How many ASTs a record starts.
fn asts_in(rec: &Rec) -> usize
    ensures { result ≡ count starts_ast (rec.now ∷ []) }
{
    if starts_ast(rec) { 1 } else { 0 }
}

// Whether a sum is one of 32 bits.
fn fits(count: u32, more: usize) -> bool
    ensures { IsTrue result ↔ (count + more < 2 ^ 32) }
{
    u128::from(count) + (more as u128) < 4_294_967_296
}

impl Tally {
    /// The tally of no records.
    pub fn new() -> Tally
        ensures { result ≡ tally_of [] }
    {
        Tally {
            records: 0,
            requests: 0,
            finished: 0,
            asts: 0,
            time: 0,
        }
    }

    /// Whether each count still fits, with a record more.
    pub fn has_room(&self, rec: &Rec) -> bool
        ensures { IsTrue result ↔ IsCounted (with_record self.now rec.now) }
    {
        let effects = rec.effects.as_slice();
        fits(self.records, 1)
            && fits(self.requests, requests_in(effects))
            && fits(self.finished, finished_in(effects))
            && fits(self.asts, asts_in(rec))
    }

    // Counts a record more.
    fn count(&mut self, rec: &Rec)
        requires { IsCounted (with_record self.old rec.now) }
        ensures { self.new ≡ with_record self.old rec.now }
    {
        let effects = rec.effects.as_slice();
        self.records += 1;
        self.requests += requests_in(effects) as u32;
        self.finished += finished_in(effects) as u32;
        self.asts += asts_in(rec) as u32;
        self.time = time_told(self.time, rec);
    }

    /// Counts a record more.
    pub fn add(&mut self, rec: &Rec)
        requires { IsCounted (with_record self.old rec.now) }
        ensures sum { self.new ≡ with_record self.old rec.now }
        ensures counts { (recs : List Rec) → self.old ≡ tally_of recs →
            self.new ≡ tally_of (recs ++ rec.now ∷ []) }
    {
        self.count(rec);
    }
}
