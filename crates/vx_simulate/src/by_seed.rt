//! Runs a system, and writes its transcript as the run goes. It keeps no record.

ghost use Rattle.std.specs.Prelude.{◌≡◌, ◌<◌, ◌≤◌, ◌++◌, [], None, Contains, IfOk, IsErrOf, OnErr, OnOk, length};
ghost use Rattle.vx_exec.specs.View.{after_step, plan};
ghost use Rattle.vx_host.specs.Causes.{HasCause, Rose};
ghost use Rattle.vx_host.specs.Streams.{AppendsFront};
ghost use Rattle.vx_image.specs.WellFormed.{IsWellFormed};
ghost use Rattle.vx_lines.specs.Records.{ended_lines, record_lines};
ghost use Rattle.vx_record.specs.Events.{enabled};
ghost use Rattle.vx_record.specs.Runs.{end_of, first, record_of};
ghost use Rattle.vx_simulate.specs.Simulated.{IsSimText};
ghost use Rattle.vx_simulate.specs.Simulating.{GainsFront, GainsLines, GainsRun, Sends, lines_so_far};
ghost use Rattle.vx_tell.specs.Scripts.{OfScript};
ghost use Rattle.vx_tell.specs.Told.{Told};

use std::alloc::Global;
use vx_base::{Bytes, End, Event, NoMemory, Scripted};
use vx_exec::{Exec, Seed};
use vx_grammar::read_script;
use vx_host::{Failed, Sink, write_all};
use vx_image::System;
use vx_lines::print_record;
use vx_script::print_script;
use vx_tell::{Status, refusal, tell_no_memory, tell_output};
use vx_trailer::print_trailer;
use vx_words::Options;

/// How many bytes wait at least before they are written.
const PIECE: usize = 65_536;

/// Why a transcript was not written whole.
#[derive(Clone, Copy)]
enum RunFail {
    /// A write failed.
    Fault,
    /// Memory ran out.
    NoMemory,
}

impl From<Failed> for RunFail {
    ghost use Rattle.std.specs.Prelude.{◌≡◌};
    ghost use Rattle.vx_simulate.specs.declared.by_seed.RunFail.{RunFail};

    ghost from_gives = { λ _ e. e ≡ RunFail.Fault };

    fn from(_: Failed) -> Self {
        RunFail::Fault
    }
}

impl From<NoMemory> for RunFail {
    ghost use Rattle.std.specs.Prelude.{◌≡◌};
    ghost use Rattle.vx_simulate.specs.declared.by_seed.RunFail.{RunFail};

    ghost from_gives = { λ _ e. e ≡ RunFail.NoMemory };

    fn from(_: NoMemory) -> Self {
        RunFail::NoMemory
    }
}

/// What a transcript begins with: the script, and the line `$JOURNAL`.
fn front_text(alloc: Global, system: &System) -> Result<Bytes, NoMemory>
    ensures { IfOk result (λ text. text ≡ ended_lines (lines_so_far system.now [])) }
{
    let mut text = print_script(alloc, system)?;
    text.push_all(b"$JOURNAL 1\n")?;
    Ok(text)
}

/// Takes an enabled event, and appends its record.
fn take_step(exec: &mut Exec<Scripted>, event: Event, pending: &mut Bytes) -> Result<(), NoMemory>
    requires enabled { Contains (enabled exec.old.state) event }
    requires going { end_of exec.old.limit exec.old.taken exec.old.state ≡ None }
    ensures after { OnOk result (exec.new ≡ after_step exec.old event) }
    ensures printed { OnOk result (pending.new ≡ pending.old
        ++ ended_lines (record_lines exec.new.state.system.units exec.new.taken (record_of exec.old.state event))) }
    ensures plan { plan exec.new ≡ plan exec.old }
{
    let rec = exec.step(event)?;
    let units = exec.system().units.as_slice();
    print_record(units, u64::from(exec.taken()), &rec, pending)
}

/// Writes the bytes that wait, if they are a piece.
fn send_piece<K: Sink>(pending: &mut Bytes, sink: &mut K) -> Result<(), Failed>
    ensures ok { OnOk result (Sends (K.held sink.old) (K.held sink.new) pending.old pending.new) }
    ensures err { OnErr result (AppendsFront (K.held sink.old) (K.held sink.new) pending.old) }
    ensures cause { HasCause (K.faults sink.old) (K.faults sink.new) result }
{
    if pending.len() < PIECE {
        return Ok(());
    }
    write_all(sink, pending.as_slice())?;
    pending.truncate(0);
    Ok(())
}

/// Writes what a transcript begins with, each record after its step, and the trailer.
fn write_journal<K: Sink>(
    alloc: Global,
    exec: &mut Exec<Scripted>,
    front: Bytes,
    options: Options,
    sink: &mut K,
) -> Result<End, RunFail>
    requires opened { exec.old ≡ record { state = first exec.old.state.system; limit = options.limit; taken = 0 } }
    requires within { options.limit ≤ 100000 }
    requires front { front ≡ ended_lines (lines_so_far exec.old.state.system []) }
    ensures done { IfOk result (λ end.
        GainsRun exec.old.state.system options (K.held sink.old) (K.held sink.new) end) }
    ensures no_memory { IsErrOf result RunFail.NoMemory →
        GainsLines exec.old.state.system options (K.held sink.old) (K.held sink.new) }
    ensures fault { IsErrOf result RunFail.Fault →
        GainsFront exec.old.state.system options (K.held sink.old) (K.held sink.new) }
    ensures cause { IsErrOf result RunFail.Fault → Rose (K.faults sink.old) (K.faults sink.new) }
    ensures later { K.faults sink.old ≤ K.faults sink.new }
{
    write_all(sink, front.as_slice())?;
    drop(front);
    let mut pending = Bytes::new(alloc);
    let mut next = Seed { x: options.seed };
    'steps: loop {
        if let Some(end) = exec.ended() {
            print_trailer(exec, end, &mut pending)?;
            write_all(sink, pending.as_slice())?;
            return Ok(end);
        }
        match exec.pick(&mut next) {
            Some(event) => {
                take_step(exec, event, &mut pending)?;
                send_piece(&mut pending, sink)?;
            }
            None => unreachable!(),
        }
    }
}

/// Takes the run that the seed chooses, and writes its transcript as it goes: how the run ended.
fn write_run<K: Sink>(
    alloc: Global,
    system: System,
    options: Options,
    sink: &mut K,
) -> Result<End, RunFail>
    requires formed { IsWellFormed system }
    requires above { 1 ≤ options.limit }
    requires within { options.limit ≤ 100000 }
    ensures done { IfOk result (λ end. GainsRun system options (K.held sink.old) (K.held sink.new) end) }
    ensures no_memory { IsErrOf result RunFail.NoMemory →
        GainsLines system options (K.held sink.old) (K.held sink.new) }
    ensures fault { IsErrOf result RunFail.Fault →
        GainsFront system options (K.held sink.old) (K.held sink.new) }
    ensures cause { IsErrOf result RunFail.Fault → Rose (K.faults sink.old) (K.faults sink.new) }
    ensures later { K.faults sink.old ≤ K.faults sink.new }
{
    let front = front_text(alloc, &system)?;
    let mut exec = Exec::new(alloc, system, options.limit)?;
    let end = write_journal(alloc, &mut exec, front, options, sink);
    drop(exec);
    end
}

/// Runs a system, and writes the transcript of the run that the seed chooses, up to the line on memory if memory runs out.
fn run<K: Sink>(alloc: Global, system: System, options: Options, sink: &mut K) -> Status
    requires formed { IsWellFormed system }
    requires above { 1 ≤ options.limit }
    requires within { options.limit ≤ 100000 }
    ensures told { Told (IsSimText options system) (K.faults sink.old) (K.faults sink.new)
        (K.held sink.old) (K.held sink.new) result }
    ensures later { K.faults sink.old ≤ K.faults sink.new }
{
    match write_run(alloc, system, options, sink) {
        Ok(end) => Status::from(end),
        Err(RunFail::NoMemory) => tell_no_memory(sink),
        Err(RunFail::Fault) => Status::WriteFault,
    }
}

/// Simulates an input that was read whole, and writes its transcript as the run goes, or why there is none.
pub fn simulate<K: Sink>(alloc: Global, options: Options, input: &Bytes, sink: &mut K) -> Status
    requires size { length input.now < 4294967295 }
    requires above { 1 ≤ options.limit }
    requires within { options.limit ≤ 100000 }
    ensures told { Told (OfScript (IsSimText options) input.now) (K.faults sink.old) (K.faults sink.new)
        (K.held sink.old) (K.held sink.new) result }
    ensures later { K.faults sink.old ≤ K.faults sink.new }
{
    match read_script(alloc, input.as_slice()) {
        Ok(system) => run(alloc, system, options, sink),
        Err(fail) => tell_output(sink, refusal(alloc, fail)),
    }
}
