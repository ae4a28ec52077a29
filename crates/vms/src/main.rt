//! The program `vms`, a hosted executive with asynchronous services in the manner of OpenVMS.
//!
//! `main` hands standard input, standard output, the words, and a gate that does nothing to `vms_call` of `vx_commands`, whose contract
//! says all that the program may answer and write.
#![tactic(auto)]

use std::env;
use std::process::ExitCode;
use vx_base::NoMemory;
use vx_carrier::NoGate;
use vx_commands::vms_call;
use vx_host::{StdSink, StdSource, words_of};
use vx_tell::tell_no_memory;

fn main(rt: HostRuntime) -> ExitCode {
    let mut source = StdSource::new(rt.stdin());
    let mut sink = StdSink::new(rt.stdout());
    let status = match words_of(rt.alloc(), env::args(&rt)) {
        Ok(words) => vms_call(
            &rt,
            rt.alloc(),
            words.as_slice(),
            &mut source,
            &mut sink,
            NoGate,
        ),
        Err(NoMemory) => tell_no_memory(&mut sink),
    };
    ExitCode::from(status.code())
}
