//! What is set first falls due when its time comes.

use std::test::*;
use vx_base::{Id, Pid, Scripted};
use vx_timers::{Due, Timers, What, Which};

#[test]
fn the_least_due_time_comes_first(rt: HostRuntime) -> Result<(), Fail> {
    let mut timers: Timers<Scripted> = Timers::new(rt.alloc());
    for (id, due) in [(1, 30), (2, 10)] {
        timers.reserve(1).ok().ok_or("memory")?;
        let wake = What::Wake {
            target: Pid(2),
            repeat: 0,
        };
        timers.put(Due::new(Id(id), Pid(1), due, wake));
    }
    assert_eq!(rt; timers.least(), Some(10));
    let due = timers.take_first(Which::Due(10)).ok_or("a wake")?;
    assert_eq!(rt; due.id(), Id(2));
    Ok(())
}
