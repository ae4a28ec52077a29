//! What a command comes to, before any of it is written.

ghost use Rattle.std.specs.Prelude.{IfOk};
ghost use Rattle.vx_tell.specs.Refused.{IsRefusalOf};

use crate::lines::fault_line;
use crate::status::Status;
use std::alloc::Global;
use vx_base::{Bytes, NoMemory};
use vx_script::ScriptFail;

/// What a command comes to: a text to write, and the status that the call answers once it is written.
#[derive(Drop)]
pub struct Output {
    pub status: Status,
    pub text: Bytes,
}

/// What a command comes to whose script was not read: the line of the script's first fault.
pub fn refusal(alloc: Global, fail: ScriptFail) -> Result<Output, NoMemory>
    ensures { IfOk result (IsRefusalOf fail) }
{
    match fail {
        ScriptFail::Fault(fault) => Ok(Output {
            status: Status::Form,
            text: fault_line(alloc, fault)?,
        }),
        ScriptFail::NoMemory => Err(NoMemory),
    }
}
