//! A line is cut into tokens; a number and a quoted text are printed.

use std::test::*;
use vx_base::Bytes;
use vx_text::{LexFail, print_num, print_quote, read_quote, tokens};

#[test]
fn tokens_stand_at_their_places(rt: HostRuntime) -> Result<(), Fail> {
    let found = tokens(rt.alloc(), b" put 10 \"a\\41\",%x1 ! x")
        .ok()
        .ok_or("tokens")?;
    let expected = [(1, 4), (5, 7), (8, 14), (14, 15), (15, 18)];
    assert_eq!(rt; found.len(), expected.len());
    for (token, (start, end)) in found.iter().zip(expected) {
        assert_eq!(rt; token.start, start);
        assert_eq!(rt; token.end, end);
    }
    Ok(())
}

#[test]
fn numbers_and_quotes_have_one_spelling(rt: HostRuntime) -> Result<(), Fail> {
    let mut text = Bytes::new(rt.alloc());
    print_num(&mut text, 18_446_744_073_709_551_615)
        .ok()
        .ok_or("memory")?;
    print_quote(&mut text, b"A~ \"\\\n\xff")
        .ok()
        .ok_or("memory")?;
    assert_eq!(rt;
        text.as_slice(),
        b"18446744073709551615\"A~ \\22\\5C\\0A\\FF\"".as_slice()
    );
    let other = read_quote(rt.alloc(), b"\"\\0a\"").ok().ok_or("memory")?;
    assert!(rt; other.is_none());
    Ok(())
}

fn fault_word(fail: &LexFail) -> &'static str {
    match fail {
        LexFail::Byte => "BYTE",
        LexFail::Quote => "QUOTE",
        LexFail::Number => "NUMBER",
        LexFail::Name => "NAME",
        LexFail::NoMemory => "no memory",
    }
}

#[test]
fn the_leftmost_fault_of_a_line_is_told(rt: HostRuntime) -> Result<(), Fail> {
    let expected: [(&[u8], &str); 4] = [
        (b"# A", "BYTE"),
        (b"5A A$B", "NUMBER"),
        (b"FOO A$B 5A", "NAME"),
        (b"PUT 99 \"a", "QUOTE"),
    ];
    for (line, word) in expected {
        if line.len() < 1000 {
            let fail = tokens(rt.alloc(), line).err().ok_or("no fault")?;
            assert_eq!(rt; fault_word(&fail), word);
        }
    }
    Ok(())
}
