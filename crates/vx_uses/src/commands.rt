//! Two units in service at once: what threads may do and no contract says.

use crate::meeting::{Meeting, Notes};
use std::alloc::Global;
use std::sync::Wait;
use std::test::*;
use std::thread::Threads;
use vx_base::{Bytes, NoMemory};
use vx_commands::vms_call;
use vx_host::{MemSink, MemSource};
use vx_tell::Status;

/// Two processes, each of which reads a line of its own unit.
const SCRIPT: &[u8] = b"UNIT TA LINE
UNIT TB LINE
IMAGE FIRST
$ASSIGN A,TA
$QIOW 1,A,READ,1,,,0,8
$EXIT
END
IMAGE SECOND
$ASSIGN A,TB
$QIOW 1,A,READ,1,,,0,8
$EXIT
END
PROCESS P FIRST
PROCESS Q SECOND
";

fn bytes_of(alloc: Global, text: &[u8]) -> Result<Bytes, NoMemory> {
    let mut bytes = Bytes::new(alloc);
    bytes.push_all(text)?;
    Ok(bytes)
}

fn words_of(alloc: Global, texts: &[&[u8]]) -> Result<Vec<Bytes>, NoMemory> {
    let mut words = Vec::new(alloc);
    for text in texts {
        words.push(bytes_of(alloc, text)?)?;
    }
    Ok(words)
}

/// Whether the text has this line, whole.
fn has_line(text: &[u8], line: &[u8]) -> bool {
    text.split(|b| *b == b'\n').any(|it| it == line)
}

/// How a call of `run` ended, and whether its transcript has both units in service at once.
#[derive(Clone, Copy, Debug)]
struct Told {
    status: Status,
    is_first_begun: bool,
    is_second_begun: bool,
}

/// Runs the script by two threads, with this gate.
fn run_by_two<Q: Threads + Wait + Sync>(
    rt: &Q,
    alloc: Global,
    gate: Meeting<'_>,
) -> Result<Told, NoMemory> {
    let words = words_of(alloc, &[b"run", b"--cpus", b"2"])?;
    let mut source = MemSource::new(bytes_of(alloc, SCRIPT)?, 4096, Vec::new(alloc));
    let mut sink = MemSink::new(alloc, 65_536, 65_536, Vec::new(alloc))?;
    let status = vms_call(rt, alloc, words.as_slice(), &mut source, &mut sink, gate);
    // `sim` has `6 DON TA #1` there: it takes the first event, and no unit is out when it does.
    Ok(Told {
        status,
        is_first_begun: has_line(sink.held(), b"5 BEG TA #1"),
        is_second_begun: has_line(sink.held(), b"6 BEG TB #2"),
    })
}

#[test]
fn two_units_are_in_service_at_once(rt: HostRuntime) -> Result<(), Fail> {
    let notes = Notes::new();
    let told = run_by_two(&rt, rt.alloc(), Meeting::at(&notes))
        .ok()
        .ok_or("memory")?;
    assert_eq!(rt; told.status, Status::Done);
    assert_eq!(rt; notes.seen(), [1, 1, 0]);
    assert!(rt; told.is_first_begun);
    assert!(rt; told.is_second_begun);
    Ok(())
}
