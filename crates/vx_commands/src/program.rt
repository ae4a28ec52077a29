//! The call that the program makes.

ghost use Rattle.std.specs.Prelude.{◌≡◌, ◌⊎◌, ◌≤◌};
ghost use Rattle.vx_commands.specs.Threads.{AllLawful, IsProgramAnswer};
ghost use Rattle.vx_tell.specs.Told.{Told};

use crate::call::quiet_call;
use crate::threads::run_input;
use std::alloc::Global;
use std::sync::Wait;
use std::thread::Threads;
use vx_base::Bytes;
use vx_carrier::Gate;
use vx_host::{Sink, Source, read_all};
use vx_tell::{MOST_INPUT, Status, tell_unread};
use vx_words::crew_of;

/// The call that the program makes: what the words ask for, from the source to the sink. For `run` it starts threads, which may
/// wait for one another, and hands them the gate; for all other words it is `quiet_call`. The words are those after the
/// program's name.
pub fn vms_call<Q: Threads + Wait + Sync, S: Source, K: Sink, G: Gate + Sync>(
    rt: &Q,
    alloc: Global,
    words: &[Bytes],
    source: &mut S,
    sink: &mut K,
    gate: G,
) -> Status
    // What the words come to was written, by the status that is answered; or, with `WriteFault`, the sink failed after a front of it.
    ensures told { Told (IsProgramAnswer words.now (S.left source.old) (S.left source.new) (S.faults source.old) (S.faults source.new))
        (K.faults sink.old) (K.faults sink.new) (K.held sink.old) (K.held sink.new) result }
    // The records whose transcript was written or read, or that `gen` counted, keep the six laws of transcripts.
    ensures lawful { (result ≡ Status.Done) ⊎ (result ≡ Status.Hung) ⊎ (result ≡ Status.Limit)
        ⊎ (result ≡ Status.Illegal) →
        AllLawful words.now (S.left source.old) (S.left source.new)
        (K.held sink.old) (K.held sink.new) result }
    // No count of faults falls.
    ensures later { (S.faults source.old ≤ S.faults source.new) × (K.faults sink.old ≤ K.faults sink.new) }
{
    let Some(crew) = crew_of(words) else {
        return quiet_call(alloc, words, source, sink);
    };
    match read_all(alloc, source, MOST_INPUT) {
        Ok(input) => run_input(rt, alloc, crew, &input, sink, gate),
        Err(fail) => tell_unread(sink, fail),
    }
}
