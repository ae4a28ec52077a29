//! The program `vms_sim`: `sim` and `gen` of `vms`, and no other command.
//!
//! If nothing is built, `./vms` runs the sources without their proofs, which takes longer the more code a program reaches. So it
//! runs this program for these two commands. The same calls answer them as in `vms`, and `tools/checks` compares the two programs.
#![tactic(auto)]

use std::alloc::Global;
use std::env;
use std::process::ExitCode;
use vx_base::{Bytes, NoMemory};
use vx_host::{Sink, Source, StdSink, StdSource, read_all, words_of};
use vx_simulate::{follow, simulate, summarize};
use vx_tell::{MOST_INPUT, Status, tell, tell_no_memory, tell_unread};
use vx_words::{Command, command_of, size_of};

/// Answers `sim`. The words of any other command are wrong.
fn answer_sim<S: Source, K: Sink>(
    alloc: Global,
    words: &[Bytes],
    source: &mut S,
    sink: &mut K,
) -> Status {
    match command_of(alloc, words) {
        Ok(Some(Command::Sim(options))) => match read_all(alloc, source, MOST_INPUT) {
            Ok(input) => simulate(alloc, options, &input, sink),
            Err(fail) => tell_unread(sink, fail),
        },
        Ok(Some(Command::Follow(picks))) => match read_all(alloc, source, MOST_INPUT) {
            Ok(input) => follow(alloc, &picks, &input, sink),
            Err(fail) => tell_unread(sink, fail),
        },
        Ok(_) => tell(sink, b"vms: usage\n", Status::Words),
        Err(NoMemory) => tell_no_memory(sink),
    }
}

fn main(rt: HostRuntime) -> ExitCode {
    let mut source = StdSource::new(rt.stdin());
    let mut sink = StdSink::new(rt.stdout());
    let status = match words_of(rt.alloc(), env::args(&rt)) {
        Ok(words) => match size_of(words.as_slice()) {
            Some(n) => summarize(rt.alloc(), n, &mut sink),
            None => answer_sim(rt.alloc(), words.as_slice(), &mut source, &mut sink),
        },
        Err(NoMemory) => tell_no_memory(&mut sink),
    };
    ExitCode::from(status.code())
}
