//! A script run by threads, and what is written of it.

ghost use Rattle.std.specs.Prelude.{◌<◌, ◌≤◌, IfOk, length};
ghost use Rattle.vx_image.specs.WellFormed.{IsWellFormed};
ghost use Rattle.vx_commands.specs.Carried.{IsCarriedText, IsRunText};
ghost use Rattle.vx_tell.specs.Scripts.{OfScript};
ghost use Rattle.vx_tell.specs.Told.{IsOutputOf, Told};
ghost use Rattle.vx_words.specs.Crew.{IsCrew};

use std::alloc::Global;
use std::sync::Wait;
use std::thread::Threads;
use vx_base::{Bytes, End, NoMemory, Scripted};
use vx_carrier::{Gate, run_pool};
use vx_exec::Exec;
use vx_grammar::read_script;
use vx_host::Sink;
use vx_image::System;
use vx_script::print_script;
use vx_tell::{Output, Status, refusal, tell_output};
use vx_trailer::print_run;
use vx_words::Crew;

// The transcript of the run that the threads take, and how the run ended.
fn transcript<Q: Threads + Wait + Sync, G: Gate + Sync>(
    rt: &Q,
    alloc: Global,
    system: System,
    crew: Crew,
    gate: G,
) -> Result<(Bytes, End), NoMemory>
    requires formed { IsWellFormed system }
    requires crew { IsCrew crew }
    ensures { IfOk result (λ run. IsCarriedText system crew.limit run.1 run.0) }
{
    let mut text = print_script(alloc, &system)?;
    let exec = Exec::<Scripted>::new(alloc, system, crew.limit)?;
    let (exec, recs, end) = run_pool(rt, alloc, exec, gate, crew.cpus)?;
    let printed = print_run(&exec, recs.as_slice(), end, &mut text);
    drop(exec);
    drop(recs);
    match printed {
        Ok(()) => Ok((text, end)),
        Err(NoMemory) => Err(NoMemory),
    }
}

// What an input comes to that was read whole.
fn answer<Q: Threads + Wait + Sync, G: Gate + Sync>(
    rt: &Q,
    alloc: Global,
    crew: Crew,
    input: &[u8],
    gate: G,
) -> Result<Output, NoMemory>
    requires size { length input.now < 4294967295 }
    requires crew { IsCrew crew }
    ensures { IfOk result (IsOutputOf (OfScript (IsRunText crew.limit) input.now)) }
{
    match read_script(alloc, input) {
        Ok(system) => {
            let (text, end) = transcript(rt, alloc, system, crew, gate)?;
            Ok(Output {
                status: Status::from(end),
                text,
            })
        }
        Err(fail) => refusal(alloc, fail),
    }
}

/// Runs an input that was read whole by threads, and writes the transcript or why there is none.
pub fn run_input<Q: Threads + Wait + Sync, K: Sink, G: Gate + Sync>(
    rt: &Q,
    alloc: Global,
    crew: Crew,
    input: &Bytes,
    sink: &mut K,
    gate: G,
) -> Status
    requires size { length input.now < 4294967295 }
    requires crew { IsCrew crew }
    ensures told { Told (OfScript (IsRunText crew.limit) input.now) (K.faults sink.old) (K.faults sink.new)
        (K.held sink.old) (K.held sink.new) result }
    ensures later { K.faults sink.old ≤ K.faults sink.new }
{
    tell_output(sink, answer(rt, alloc, crew, input.as_slice(), gate))
}
