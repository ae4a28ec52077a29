//! Exit handlers come out with their routines, the newest first.

use std::test::*;
use vx_base::{Entry, Id, Mode, Routine, Scripted};
use vx_exits::Exits;

#[test]
fn the_newest_handler_is_entered_first(rt: HostRuntime) -> Result<(), Fail> {
    let mut exits: Exits<Scripted> = Exits::new(rt.alloc());
    for id in [1, 2] {
        exits.reserve().ok().ok_or("memory")?;
        let _refused = exits.declare(Id(id), Mode::User, Scripted::scripted(Entry::Host(id)));
    }
    let (id, routine) = exits.pop(Mode::User).ok_or("a handler")?;
    assert_eq!(rt; id, Id(2));
    assert_eq!(rt; routine.enter(), Entry::Host(2));
    assert_eq!(rt; exits.len(), 1);
    Ok(())
}
