//! The call of all commands but `run`.

ghost use Rattle.std.specs.Prelude.{◌≡◌, ◌⊎◌, ◌≤◌, None};
ghost use Rattle.vx_commands.specs.Top.{IsAnswer, IsLawful};
ghost use Rattle.vx_tell.specs.Told.{Told};
ghost use Rattle.vx_words.specs.Words.{size_of};

use crate::judging::judge;
use crate::show::show;
use crate::survey::explore;
use std::alloc::Global;
use vx_base::Bytes;
use vx_host::{Sink, Source, read_all};
use vx_simulate::{follow, simulate, summarize};
use vx_tell::{MOST_INPUT, Status, tell, tell_no_memory, tell_unread};
use vx_words::{Command, command_of, size_of};

/// What words ask for that are not `gen N`, from the source to the sink.
fn answer_input<S: Source, K: Sink>(
    alloc: Global,
    words: &[Bytes],
    source: &mut S,
    sink: &mut K,
) -> Status
    requires { size_of words.now ≡ None }
    ensures told { Told (IsAnswer words.now (S.left source.old) (S.left source.new) (S.faults source.old) (S.faults source.new))
        (K.faults sink.old) (K.faults sink.new) (K.held sink.old) (K.held sink.new) result }
    ensures later { (S.faults source.old ≤ S.faults source.new) × (K.faults sink.old ≤ K.faults sink.new) }
{
    let Ok(asked) = command_of(alloc, words) else {
        return tell_no_memory(sink);
    };
    let Some(command) = asked else {
        return tell(sink, b"vms: usage\n", Status::Words);
    };
    match read_all(alloc, source, MOST_INPUT) {
        Ok(input) => match command {
            Command::Sim(options) => simulate(alloc, options, &input, sink),
            Command::Follow(picks) => follow(alloc, &picks, &input, sink),
            Command::Explore(scope) => explore(alloc, scope, &input, sink),
            Command::Show => show(alloc, &input, sink),
            Command::Check(report) => judge(alloc, report, &input, sink),
        },
        Err(fail) => tell_unread(sink, fail),
    }
}

/// What the words ask for, from the source to the sink, of all words but those of `run`. It waits for nobody, and
/// returns if the source and the sink do. The words are those after the program's name.
pub fn quiet_call<S: Source, K: Sink>(
    alloc: Global,
    words: &[Bytes],
    source: &mut S,
    sink: &mut K,
) -> Status
    // What the words come to was written, by the status that is answered; or, with `WriteFault`, the sink failed after a front of it.
    ensures told { Told (IsAnswer words.now (S.left source.old) (S.left source.new) (S.faults source.old) (S.faults source.new))
        (K.faults sink.old) (K.faults sink.new) (K.held sink.old) (K.held sink.new) result }
    // The records that `sim` wrote, those that `gen` counted, and those that were read and found to be the machine's, of a cut
    // transcript too, keep the six laws of transcripts.
    ensures lawful { (result ≡ Status.Done) ⊎ (result ≡ Status.Hung) ⊎ (result ≡ Status.Limit)
        ⊎ (result ≡ Status.Illegal) →
        IsLawful words.now (S.left source.old) (S.left source.new)
        (K.held sink.old) (K.held sink.new) result }
    // No count of faults falls.
    ensures later { (S.faults source.old ≤ S.faults source.new) × (K.faults sink.old ≤ K.faults sink.new) }
{
    match size_of(words) {
        Some(n) => summarize(alloc, n, sink),
        None => answer_input(alloc, words, source, sink),
    }
}
