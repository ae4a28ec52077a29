//! Shows a script in its canonical form.

ghost use Rattle.std.specs.Prelude.{◌<◌, ◌≤◌, IfOk, length};
ghost use Rattle.vx_commands.specs.Shown.{IsShowText};
ghost use Rattle.vx_tell.specs.Scripts.{OfScript};
ghost use Rattle.vx_tell.specs.Told.{IsOutputOf, Told};

use std::alloc::Global;
use vx_base::{Bytes, NoMemory};
use vx_grammar::read_script;
use vx_host::Sink;
use vx_script::print_script;
use vx_tell::{Output, Status, refusal, tell_output};

/// What an input comes to that was read whole.
fn answer(alloc: Global, input: &[u8]) -> Result<Output, NoMemory>
    requires { length input.now < 4294967295 }
    ensures { IfOk result (IsOutputOf (OfScript IsShowText input.now)) }
{
    match read_script(alloc, input) {
        Ok(system) => Ok(Output {
            status: Status::Done,
            text: print_script(alloc, &system)?,
        }),
        Err(fail) => refusal(alloc, fail),
    }
}

/// Writes the canonical script of an input that was read whole, or why there is none.
pub fn show<K: Sink>(alloc: Global, input: &Bytes, sink: &mut K) -> Status
    requires { length input.now < 4294967295 }
    ensures told { Told (OfScript IsShowText input.now) (K.faults sink.old) (K.faults sink.new)
        (K.held sink.old) (K.held sink.new) result }
    ensures later { K.faults sink.old ≤ K.faults sink.new }
{
    tell_output(sink, answer(alloc, input.as_slice()))
}
