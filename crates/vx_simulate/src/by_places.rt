//! Follows a list of places: from what a script says to the transcript of the run that they choose.

ghost use Rattle.std.specs.Prelude.{◌≡◌, ◌<◌, ◌≤◌, IfErr, IfOk, length};
ghost use Rattle.vx_image.specs.WellFormed.{IsWellFormed};
ghost use Rattle.vx_simulate.specs.Picking.{tells_missing};
ghost use Rattle.vx_simulate.specs.Followed.{IsFollowText, IsPickedText, pick_line};
ghost use Rattle.vx_tell.specs.Scripts.{OfScript};
ghost use Rattle.vx_tell.specs.Told.{IsOutputOf, Told};

use crate::schedule::{PickFail, run_picks};
use std::alloc::Global;
use vx_base::{Bytes, End, NoMemory, Scripted};
use vx_grammar::read_script;
use vx_host::Sink;
use vx_image::System;
use vx_script::print_script;
use vx_tell::{Output, Status, refusal, tell_output};
use vx_text::print_num;
use vx_trailer::print_run;
use vx_words::Picks;

// The line of a record that has no event at its place, by its number and how many events are enabled there.
fn pick_line(alloc: Global, number: u32, count: u32) -> Result<Bytes, NoMemory>
    ensures { IfOk result (λ text. text ≡ pick_line number count) }
{
    let mut text = Bytes::new(alloc);
    text.push_all(b"vms: pick ")?;
    print_num(&mut text, u64::from(number))?;
    text.push_all(b" of ")?;
    print_num(&mut text, u64::from(count))?;
    text.push_all(b"\n")?;
    Ok(text)
}

/// The transcript of the run that the places choose, and how the run ended.
fn transcript(alloc: Global, system: System, picks: &Picks) -> Result<(Bytes, End), PickFail>
    requires formed { IsWellFormed system }
    requires above { 1 ≤ picks.now.limit }
    requires within { picks.now.limit ≤ 100000 }
    ensures done { IfOk result (λ run. IsPickedText system picks.now run.1 run.0) }
    ensures missing { IfErr result (tells_missing system picks.now.places picks.now.limit) }
{
    let mut text = print_script(alloc, &system)?;
    let places = picks.places.as_slice();
    let (exec, recs, end) = run_picks::<Scripted>(alloc, system, places, picks.limit)?;
    let printed = print_run(&exec, recs.as_slice(), end, &mut text);
    drop(exec);
    drop(recs);
    match printed {
        Ok(()) => Ok((text, end)),
        Err(NoMemory) => Err(PickFail::NoMemory),
    }
}

/// What a system comes to: the run that the places choose, or the place that is not there.
fn followed(alloc: Global, system: System, picks: &Picks) -> Result<Output, NoMemory>
    requires formed { IsWellFormed system }
    requires above { 1 ≤ picks.now.limit }
    requires within { picks.now.limit ≤ 100000 }
    ensures { IfOk result (IsOutputOf (IsFollowText picks.now system)) }
{
    match transcript(alloc, system, picks) {
        Ok((text, end)) => Ok(Output {
            status: Status::from(end),
            text,
        }),
        Err(PickFail::Missing { number, count }) => Ok(Output {
            status: Status::Illegal,
            text: pick_line(alloc, number, count)?,
        }),
        Err(PickFail::NoMemory) => Err(NoMemory),
    }
}

/// What an input comes to that was read whole.
fn answer(alloc: Global, picks: &Picks, input: &[u8]) -> Result<Output, NoMemory>
    requires size { length input.now < 4294967295 }
    requires above { 1 ≤ picks.now.limit }
    requires within { picks.now.limit ≤ 100000 }
    ensures { IfOk result (IsOutputOf (OfScript (IsFollowText picks.now) input.now)) }
{
    match read_script(alloc, input) {
        Ok(system) => followed(alloc, system, picks),
        Err(fail) => refusal(alloc, fail),
    }
}

/// Takes the run of an input that was read whole as the places choose it, and writes its transcript or why there is none.
pub fn follow<K: Sink>(alloc: Global, picks: &Picks, input: &Bytes, sink: &mut K) -> Status
    requires size { length input.now < 4294967295 }
    requires above { 1 ≤ picks.now.limit }
    requires within { picks.now.limit ≤ 100000 }
    ensures told { Told (OfScript (IsFollowText picks.now) input.now) (K.faults sink.old) (K.faults sink.new)
        (K.held sink.old) (K.held sink.new) result }
    ensures later { K.faults sink.old ≤ K.faults sink.new }
{
    tell_output(sink, answer(alloc, picks, input.as_slice()))
}
