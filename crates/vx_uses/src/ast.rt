//! Queued ASTs: of the innermost mode the first starts.

use std::test::*;
use vx_ast::AstQueue;
use vx_base::{Entry, Id, Mode, Routine, Scripted};

#[test]
fn the_innermost_ast_starts_first(rt: HostRuntime) -> Result<(), Fail> {
    let mut queue: AstQueue<Scripted> = AstQueue::new(rt.alloc());
    for (id, mode) in [(5, Mode::User), (6, Mode::Exec)] {
        queue.reserve(1).ok().ok_or("memory")?;
        queue.put(Id(id), mode, Scripted::scripted(Entry::Label(id, 0)), true);
    }
    assert_eq!(rt; queue.deliverable(Mode::User, None), Some(Id(6)));
    let delivery = queue.take(Mode::User, None).ok_or("an AST")?;
    assert_eq!(rt; delivery.into_routine().enter(), Entry::Label(6, 0));
    Ok(())
}
