//! Runs a generated system, and writes the summary of its records. It keeps none of them.

ghost use Rattle.std.specs.Prelude.{◌≡◌, ◌≤◌, ◌++◌, ◌∷◌, [], IfOk, OnOk};
ghost use Rattle.vx_gen.specs.Generated.{generated};
ghost use Rattle.vx_image.specs.WellFormed.{IsWellFormed};
ghost use Rattle.vx_record.specs.Runs.{first};
ghost use Rattle.vx_simulate.specs.Summed.{IsGenText, IsSummed, count_line, full_run, summary};
ghost use Rattle.vx_simulate.specs.Summing.{Tallies};
ghost use Rattle.vx_tell.specs.Told.{IsOutputOf, Told};

use std::alloc::Global;
use vx_base::{Bytes, End, NoMemory, Scripted};
use vx_exec::{Exec, Seed};
use vx_gen::{Tally, generate};
use vx_host::Sink;
use vx_image::System;
use vx_journal::print_end;
use vx_tell::{Output, Status, tell_output};
use vx_text::print_num;
use vx_words::Options;

const FULL_RUN: Options = Options {
    seed: 0,
    limit: 100_000,
};

/// Takes the events that a seed picks until the run has ended: the tally of its records, and how it ended.
fn tally_run(exec: &mut Exec<Scripted>, seed: u64) -> Result<(Tally, End), NoMemory>
    ensures { IfOk result (λ run. Tallies exec.old exec.new seed run.0 run.1) }
{
    let mut tally = Tally::new();
    let mut next = Seed { x: seed };
    'steps: loop {
        if let Some(end) = exec.ended() {
            return Ok((tally, end));
        }
        match exec.pick(&mut next) {
            Some(event) => {
                let rec = exec.step(event)?;
                if !tally.has_room(&rec) {
                    return Err(NoMemory);
                }
                tally.add(&rec);
            }
            None => unreachable!(),
        }
    }
}

/// Appends a word and a number, on their line.
fn print_count(word: &[u8], n: u64, out: &mut Bytes) -> Result<(), NoMemory>
    ensures { OnOk result (out.new ≡ out.old ++ (count_line word.now n ++ 10 ∷ [])) }
{
    out.push_all(word)?;
    out.push_all(b" ")?;
    print_num(out, n)?;
    out.push_all(b"\n")
}

/// Appends the summary of a run.
fn print_summary(tally: &Tally, end: End, out: &mut Bytes) -> Result<(), NoMemory>
    ensures { OnOk result (out.new ≡ out.old ++ summary tally.now end) }
{
    print_count(b"records", u64::from(tally.records), out)?;
    print_count(b"requests", u64::from(tally.requests), out)?;
    print_count(b"finished", u64::from(tally.finished), out)?;
    print_count(b"asts", u64::from(tally.asts), out)?;
    print_count(b"time", tally.time, out)?;
    print_end(end, tally.records, out)
}

/// Takes the run that the seed chooses: its summary, and how it ended.
fn sum_run(
    alloc: Global,
    exec: &mut Exec<Scripted>,
    options: Options,
) -> Result<(Bytes, End), NoMemory>
    requires opened { exec.old ≡ record { state = first exec.old.state.system; limit = options.limit; taken = 0 } }
    requires within { options.limit ≤ 100000 }
    ensures { IfOk result (λ run. IsSummed exec.old.state.system options run.1 run.0) }
{
    let (tally, end) = tally_run(exec, options.seed)?;
    let mut text = Bytes::new(alloc);
    print_summary(&tally, end, &mut text)?;
    Ok((text, end))
}

/// The summary of the run that the seed chooses, and how the run ended.
fn sum_up(alloc: Global, system: System, options: Options) -> Result<(Bytes, End), NoMemory>
    requires formed { IsWellFormed system }
    requires above { 1 ≤ options.limit }
    requires within { options.limit ≤ 100000 }
    ensures { IfOk result (λ run. IsSummed system options run.1 run.0) }
{
    let mut exec = Exec::new(alloc, system, options.limit)?;
    let run = sum_run(alloc, &mut exec, options);
    drop(exec);
    run
}

/// The summary of a generated system's run, and how the run ended.
#[tactic(auto, unfolding(crate::specs::Summed::full_run))]
fn generated_summary(alloc: Global, n: u32) -> Result<(Bytes, End), NoMemory>
    requires above { 1 ≤ n }
    requires within { n ≤ 200 }
    ensures { IfOk result (λ run. IsSummed (generated n) full_run run.1 run.0) }
{
    let system = generate(alloc, n)?;
    sum_up(alloc, system, FULL_RUN)
}

/// What `gen` comes to.
fn summed(alloc: Global, n: u32) -> Result<Output, NoMemory>
    requires above { 1 ≤ n }
    requires within { n ≤ 200 }
    ensures { IfOk result (IsOutputOf (IsGenText n)) }
{
    let (text, end) = generated_summary(alloc, n)?;
    Ok(Output {
        status: Status::from(end),
        text,
    })
}

/// Runs the generated system for n, and writes its summary.
pub fn summarize<K: Sink>(alloc: Global, n: u32, sink: &mut K) -> Status
    requires above { 1 ≤ n }
    requires within { n ≤ 200 }
    ensures told { Told (IsGenText n) (K.faults sink.old) (K.faults sink.new) (K.held sink.old) (K.held sink.new) result }
    ensures later { K.faults sink.old ≤ K.faults sink.new }
{
    tell_output(sink, summed(alloc, n))
}
