//! Conditions by number, severity and name; a list that is copied; a list with room.

use std::test::*;
use vx_base::{Bytes, Cond, Duplicate, Reserved, Same, Sequence, Severity};

#[test]
fn conditions_have_numbers_severities_and_names(rt: HostRuntime) -> Result<(), Fail> {
    let expected = [
        (Cond::Normal, 1, Severity::Success, "NORMAL"),
        (Cond::WasSet, 9, Severity::Success, "WASSET"),
        (Cond::MbFull, 8120, Severity::Warning, "MBFULL"),
        (Cond::IllEfc, 8052, Severity::Severe, "ILLEFC"),
    ];
    for (cond, number, severity, name) in expected {
        assert_eq!(rt; cond.number(), number);
        assert_eq!(rt; cond.severity(), severity);
        assert_eq!(rt; Cond::from_name(name.as_bytes()), Some(cond));
    }
    Ok(())
}

#[test]
fn a_list_of_lines_is_copied(rt: HostRuntime) -> Result<(), Fail> {
    let mut line = Bytes::new(rt.alloc());
    line.push_all(b"AB").ok().ok_or("memory")?;
    let mut lines = Sequence::new(rt.alloc());
    lines.push(line).ok().ok_or("memory")?;
    let copy = lines.duplicate().ok().ok_or("memory")?;
    assert!(rt; copy.same(&lines));
    Ok(())
}

#[test]
fn a_list_takes_what_it_has_room_for(rt: HostRuntime) -> Result<(), Fail> {
    let mut numbers: Reserved<u32> = Reserved::new(rt.alloc());
    numbers.reserve(2).ok().ok_or("memory")?;
    numbers.put(7);
    numbers.put(8);
    assert_eq!(rt; numbers.as_slice(), [7, 8].as_slice());
    assert_eq!(rt; numbers.take_first(), Some(7));
    assert_eq!(rt; numbers.pop(), Some(8));
    assert_eq!(rt; numbers.pop(), None);
    Ok(())
}
