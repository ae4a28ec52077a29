//! How all runs of a script end.

use std::alloc::Global;
use std::test::*;
use vx_base::End;
use vx_endings::{RunEnding, endings, worst_end};
use vx_explore::{Answer, Found};
use vx_grammar::read_script;

/// Two processes that know nothing of each other. Each has a record for its call and one for its rundown.
const SCRIPT: &[u8] = b"IMAGE MAIN
$EXIT 7
END
PROCESS P MAIN
PROCESS Q MAIN
";

// The endings of all runs, or none if more than so many states would be kept.
fn rows_of(alloc: Global, states: u32) -> Result<Option<Vec<Found<RunEnding>>>, Fail> {
    let system = read_script(alloc, SCRIPT).ok().ok_or("a script")?;
    match endings(alloc, system, 4, states).ok().ok_or("memory")? {
        Answer::Told(rows) => Ok(Some(rows)),
        Answer::Cut => Ok(None),
    }
}

// There are 6 ways to choose the two records of P among the four, and all runs end alike.
#[test]
fn all_orders_end_alike(rt: HostRuntime) -> Result<(), Fail> {
    let rows = rows_of(rt.alloc(), 100)?.ok_or("endings")?;
    assert_eq!(rt; rows.len(), 1);
    for row in &rows {
        assert_eq!(rt; row.ways, 6);
    }
    assert!(rt; worst_end(rows.as_slice()) == End::Done);
    Ok(())
}

// The first record is of P or of Q, so there are two states behind it.
#[test]
fn one_state_is_too_few(rt: HostRuntime) -> Result<(), Fail> {
    assert!(rt; rows_of(rt.alloc(), 1)?.is_none());
    Ok(())
}
