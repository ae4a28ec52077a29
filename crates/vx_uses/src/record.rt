//! Two records are compared.

use std::alloc::Global;
use std::test::*;
use vx_base::{Answer, Cell, Cond, Effect, Event, Pid, Rec, Sequence};
use vx_record::same_rec;

// Process 1 goes on behind a wait, and its flag 5 is set or cleared.
fn resumed(alloc: Global, bit: bool) -> Result<Rec, Fail> {
    let effect = Effect::Flag {
        cell: Cell::Local(Pid(1), 5),
        bit,
    };
    Ok(Rec {
        event: Event::Run(Pid(1)),
        answer: Answer::Resume(Cond::Normal),
        effects: Sequence::from_vec(vec![in alloc; effect]?),
    })
}

#[test]
fn records_differ_by_one_bit(rt: HostRuntime) -> Result<(), Fail> {
    let record = resumed(rt.alloc(), true)?;
    assert!(rt; same_rec(&record, &resumed(rt.alloc(), true)?));
    assert!(rt; !same_rec(&record, &resumed(rt.alloc(), false)?));
    Ok(())
}
