//! Explores a script: how all its runs end.

ghost use Rattle.std.specs.Prelude.{◌<◌, ◌≤◌, IfOk, length};
ghost use Rattle.vx_image.specs.WellFormed.{IsWellFormed};
ghost use Rattle.vx_commands.specs.Explored.{IsExploreText};
ghost use Rattle.vx_tell.specs.Scripts.{OfScript};
ghost use Rattle.vx_tell.specs.Told.{IsOutputOf, Told};

use std::alloc::Global;
use vx_base::{Bytes, NoMemory};
use vx_endings::{endings, print_answer, worst_end};
use vx_explore::Answer;
use vx_grammar::read_script;
use vx_host::Sink;
use vx_image::System;
use vx_tell::{Output, Status, refusal, tell_output};
use vx_words::Scope;

/// How all runs of a system end, with the status of the worst end; or that too many states would be kept.
fn tell_endings(alloc: Global, system: System, scope: Scope) -> Result<Output, NoMemory>
    requires formed { IsWellFormed system }
    requires above { 1 ≤ scope.limit }
    requires within { scope.limit ≤ 100000 }
    ensures { IfOk result (IsOutputOf (IsExploreText scope system)) }
{
    let answer = endings(alloc, system, scope.limit, scope.states)?;
    let mut text = Bytes::new(alloc);
    print_answer(&answer, scope.limit, scope.states, &mut text)?;
    match answer {
        Answer::Told(rows) => Ok(Output {
            status: Status::from(worst_end(rows.as_slice())),
            text,
        }),
        Answer::Cut => Ok(Output {
            status: Status::Cut,
            text,
        }),
    }
}

/// What an input comes to that was read whole.
fn answer(alloc: Global, scope: Scope, input: &[u8]) -> Result<Output, NoMemory>
    requires size { length input.now < 4294967295 }
    requires above { 1 ≤ scope.limit }
    requires within { scope.limit ≤ 100000 }
    ensures { IfOk result (IsOutputOf (OfScript (IsExploreText scope) input.now)) }
{
    match read_script(alloc, input) {
        Ok(system) => tell_endings(alloc, system, scope),
        Err(fail) => refusal(alloc, fail),
    }
}

/// Explores an input that was read whole, and writes how all its runs end, or why that is not told.
pub fn explore<K: Sink>(alloc: Global, scope: Scope, input: &Bytes, sink: &mut K) -> Status
    requires size { length input.now < 4294967295 }
    requires above { 1 ≤ scope.limit }
    requires within { scope.limit ≤ 100000 }
    ensures told { Told (OfScript (IsExploreText scope) input.now) (K.faults sink.old) (K.faults sink.new)
        (K.held sink.old) (K.held sink.new) result }
    ensures later { K.faults sink.old ≤ K.faults sink.new }
{
    tell_output(sink, answer(alloc, scope, input.as_slice()))
}
