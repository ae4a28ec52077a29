//! Threads over one executive: two services at once, and a run that its limit ends while a unit is out.

ghost use Rattle.std.specs.Prelude.{◌≤◌};

use crate::meeting::{Meeting, Notes};
use std::alloc::Global;
use std::sync::Wait;
use std::test::*;
use std::thread::Threads;
use vx_base::{End, Event, NoMemory, Recs, Scripted, UnitNo};
use vx_carrier::{Gate, NoGate, run_pool};
use vx_exec::Exec;
use vx_grammar::read_script;

const SCRIPT: &[u8] =
    b"UNIT TA LINE\nINPUT TA \"A\"\nUNIT TB LINE\nINPUT TB \"B\"\nIMAGE MA\n$ASSIGN A,TA\n$QIOW 1,A,READ,1,,,0,8\n$EXIT\nEND\nIMAGE MB\n$ASSIGN A,TB\n$QIOW 1,A,READ,1,,,0,8\n$EXIT\nEND\nPROCESS PA MA\nPROCESS PB MB\n";

// The records and the end of a run of the script by so many carriers.
fn run_by<Q: Threads + Wait + Sync, G: Gate + Sync>(
    rt: &Q,
    alloc: Global,
    gate: G,
    carriers: u32,
    limit: u32,
) -> Result<(Recs, End), NoMemory>
    requires carriers { (1 ≤ carriers) × (carriers ≤ 16) }
    requires limit { (1 ≤ limit) × (limit ≤ 100000) }
{
    let Ok(system) = read_script(alloc, SCRIPT) else {
        return Err(NoMemory);
    };
    let exec: Exec<Scripted> = Exec::new(alloc, system, limit)?;
    let (exec, recs, end) = run_pool(rt, alloc, exec, gate, carriers)?;
    drop(exec);
    Ok((recs, end))
}

// The event of the record at a place from 0.
fn event_at(recs: &Recs, place: usize) -> Option<Event> {
    match recs.as_slice().get(place) {
        Some(rec) => Some(rec.event),
        None => None,
    }
}

// Both units are out at once, so each gate sees the other's note.
#[test]
fn two_services_at_once(rt: HostRuntime) -> Result<(), Fail> {
    let notes = Notes::new();
    let (recs, end) = run_by(&rt, rt.alloc(), Meeting::at(&notes), 2, 10_000)
        .ok()
        .ok_or("memory")?;
    assert_eq!(rt; notes.seen(), [1, 1, 0]);
    assert!(rt; event_at(&recs, 4) == Some(Event::Beg(UnitNo(0))));
    assert!(rt; event_at(&recs, 5) == Some(Event::Beg(UnitNo(1))));
    assert!(rt; end == End::Done);
    Ok(())
}

// One carrier serves a unit before it takes the next turn, so its first gate waits in vain.
#[test]
fn one_service_at_a_time(rt: HostRuntime) -> Result<(), Fail> {
    let notes = Notes::new();
    let (recs, end) = run_by(&rt, rt.alloc(), Meeting::at(&notes), 1, 10_000)
        .ok()
        .ok_or("memory")?;
    assert_eq!(rt; notes.seen(), [1, 1, 1]);
    assert!(rt; event_at(&recs, 5) == Some(Event::Don(UnitNo(0))));
    assert!(rt; end == End::Done);
    Ok(())
}

// Whatever sixteen carriers choose, each process makes seven records.
#[test]
fn sixteen_carriers(rt: HostRuntime) -> Result<(), Fail> {
    let (recs, end) = run_by(&rt, rt.alloc(), NoGate, 16, 10_000)
        .ok()
        .ok_or("memory")?;
    assert_eq!(rt; recs.as_slice().len(), 14);
    assert!(rt; end == End::Done);
    Ok(())
}

// The fifth record is the BEG of TA: the run ends while that unit is out, and it comes back.
#[test]
fn the_limit_comes_while_a_unit_is_out(rt: HostRuntime) -> Result<(), Fail> {
    let (recs, end) = run_by(&rt, rt.alloc(), NoGate, 1, 5).ok().ok_or("memory")?;
    assert_eq!(rt; recs.as_slice().len(), 5);
    assert!(rt; event_at(&recs, 4) == Some(Event::Beg(UnitNo(0))));
    assert!(rt; end == End::Limit);
    Ok(())
}
