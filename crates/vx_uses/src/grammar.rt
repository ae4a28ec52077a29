//! A script is read and printed in full, and its first fault is told.

use std::test::*;
use vx_grammar::read_script;
use vx_script::{FaultKind, ScriptFail, print_script};

const SCRIPT: &[u8] =
    b"unit tt line\ninput tt \"a\\0Ab\" ! a comment\r\nimage m\ntop: let a = prm + 1\n$setef 5\ngoto top\nend\nprocess p m priv=world+group";

const CANONICAL: &[u8] =
    b"UNIT TT LINE\nINPUT TT \"a\\0Ab\"\nIMAGE M\nTOP:\n  LET A = PRM + 1\n  $SETEF 5\n  GOTO TOP\nEND\nPROCESS P M UIC=1:1 MODE=USER ASTLM=24 BIOLM=18 DIOLM=18 BYTLM=8192 TQELM=10 PRIV=GROUP+WORLD START=1\n";

#[test]
fn a_script_is_read_and_printed(rt: HostRuntime) -> Result<(), Fail> {
    let system = read_script(rt.alloc(), SCRIPT).ok().ok_or("a script")?;
    let printed = print_script(rt.alloc(), &system).ok().ok_or("memory")?;
    assert!(rt; printed.as_slice() == CANONICAL);
    Ok(())
}

#[test]
fn the_first_fault_is_told(rt: HostRuntime) -> Result<(), Fail> {
    match read_script(rt.alloc(), b"PROCESS P B\nIMAGE A\nLET\nEND".as_slice()) {
        Err(ScriptFail::Fault(fault)) => {
            assert_eq!(rt; (fault.line, fault.kind), (3, FaultKind::Missing))
        }
        _ => return Err("a fault".into()),
    }
    Ok(())
}
