//! A call is read from its tokens, and printed with all its arguments.

ghost use Rattle.std.specs.Prelude.{IsTrue};
ghost use Rattle.vx_table.specs.Reading.{BeginsCall, toks};

use std::alloc::Global;
use std::test::*;
use vx_base::{Bytes, NoMemory};
use vx_table::service_table;
use vx_text::{Tok, Token, tokens};

fn begins_call(tokens: &[Token]) -> bool
    ensures { IsTrue result → BeginsCall (toks tokens.now) }
{
    match tokens {
        [first, ..] => matches!(first.tok, Tok::Service(_)),
        [] => false,
    }
}

// The call of a line in full, and nothing if the line is none.
fn in_full(alloc: Global, line: &str) -> Result<Bytes, NoMemory> {
    let line = line.as_bytes();
    if line.len() > 1000 {
        return Ok(Bytes::new(alloc));
    }
    match tokens(alloc, line) {
        Ok(found) => call_in_full(alloc, &found),
        Err(_) => Ok(Bytes::new(alloc)),
    }
}

fn call_in_full(alloc: Global, tokens: &[Token]) -> Result<Bytes, NoMemory> {
    let mut text = Bytes::new(alloc);
    if !begins_call(tokens) {
        return Ok(text);
    }
    let table = service_table();
    match table.read_call(tokens) {
        Ok(call) => table.print_call(alloc, &call, &mut text)?,
        Err(_) => return Ok(text),
    }
    Ok(text)
}

#[test]
fn what_is_left_out_has_a_default(rt: HostRuntime) -> Result<(), Fail> {
    let expected = [
        ("$hiber ! 1", "$HIBER"),
        ("$setimr ,9,l", "$SETIMR 0,9,L,0"),
        ("$crembx a,b", "$CREMBX A,B,0,256,1024,KERNEL"),
        ("$qio ,1,eof", "$QIO 0,1,EOF,0,-,0,0,0,0"),
    ];
    for (line, full) in expected {
        let text = in_full(rt.alloc(), line).ok().ok_or("memory")?;
        assert_eq!(rt; text.as_slice(), full.as_bytes());
    }
    Ok(())
}
