//! Frames stand on one another, and the top one returns.

use std::test::*;
use vx_base::{Frame, FrameKind, Id, Mode};
use vx_frames::Frames;

#[test]
fn an_ast_stands_on_the_image(rt: HostRuntime) -> Result<(), Fail> {
    let main = Frame {
        kind: FrameKind::Main,
        mode: Mode::User,
        pc: 3,
        prm: 4,
        saved_r0: 5,
        wait: None,
    };
    let mut frames = Frames::new(rt.alloc());
    frames.reserve().ok().ok_or("memory")?;
    frames.push(main);
    frames.reserve().ok().ok_or("memory")?;
    frames.push(Frame {
        kind: FrameKind::Ast(Id(1)),
        ..main
    });
    assert_eq!(rt; frames.active_ast_mode(), Some(Mode::User));
    assert!(rt; frames.pop().is_some());
    assert_eq!(rt; frames.pop(), Some(main));
    Ok(())
}
