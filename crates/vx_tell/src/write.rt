//! Writes the text of a call.

ghost use Rattle.std.specs.Prelude.{◌≤◌};
ghost use Rattle.vx_tell.specs.Lines.{no_memory};
ghost use Rattle.vx_tell.specs.Told.{IsOutputText, Only, Told};
ghost use Rattle.vx_tell.specs.Unread.{unread_line, unread_status};

use crate::output::Output;
use crate::status::Status;
use vx_base::NoMemory;
use vx_host::{ReadFail, Sink, write_all};

/// Writes a text, and answers the status that stands for it, or `WriteFault`.
pub fn tell<K: Sink>(sink: &mut K, text: &[u8], status: Status) -> Status
    ensures told { Told (Only status text.now) (K.faults sink.old) (K.faults sink.new) (K.held sink.old) (K.held sink.new) result }
    ensures later { K.faults sink.old ≤ K.faults sink.new }
{
    match write_all(sink, text) {
        Ok(()) => status,
        Err(_) => Status::WriteFault,
    }
}

/// Writes that memory ran out.
pub fn tell_no_memory<K: Sink>(sink: &mut K) -> Status
    ensures told { Told (Only Status.NoMemory no_memory) (K.faults sink.old) (K.faults sink.new)
        (K.held sink.old) (K.held sink.new) result }
    ensures later { K.faults sink.old ≤ K.faults sink.new }
{
    tell(sink, b"vms: no memory\n", Status::NoMemory)
}

/// Writes what a command comes to, or that memory ran out.
pub fn tell_output<K: Sink>(sink: &mut K, output: Result<Output, NoMemory>) -> Status
    ensures told { Told (IsOutputText output) (K.faults sink.old) (K.faults sink.new) (K.held sink.old) (K.held sink.new) result }
    ensures later { K.faults sink.old ≤ K.faults sink.new }
{
    match output {
        Ok(output) => tell(sink, output.text.as_slice(), output.status),
        Err(NoMemory) => tell_no_memory(sink),
    }
}

/// The most bytes of an input, 64 MiB.
pub const MOST_INPUT: u32 = 67_108_864;

/// Writes why an input was not read whole.
pub fn tell_unread<K: Sink>(sink: &mut K, fail: ReadFail) -> Status
    ensures told { Told (Only (unread_status fail) (unread_line fail)) (K.faults sink.old) (K.faults sink.new)
        (K.held sink.old) (K.held sink.new) result }
    ensures later { K.faults sink.old ≤ K.faults sink.new }
{
    match fail {
        ReadFail::Fault => tell(sink, b"vms: read fault\n", Status::ReadFault),
        ReadFail::TooLong => tell(sink, b"vms: input too long\n", Status::TooLong),
        ReadFail::NoMemory => tell_no_memory(sink),
    }
}
