//! Bytes are read to their end and written whole, over memory and over what std reads and writes; reads and writes that fail.

ghost use Rattle.std.specs.Prelude.{◌<◌};

use std::alloc::Global;
use std::io;
use std::io::{Cursor, ErrorKind, Read, Write};
use std::test::*;
use vx_base::Bytes;
use vx_host::{MemSink, MemSource, ReadFail, Sink, StdSink, StdSource, read_all, write_all};

const FIVE: &[u8] = b"ABCDE";

// A source of five bytes.
fn five(alloc: Global, piece: u32, fails: Vec<u32>) -> Result<MemSource, Fail>
    requires { 0 < piece }
{
    let mut bytes = Bytes::new(alloc);
    bytes.push_all(FIVE).ok().ok_or("memory")?;
    Ok(MemSource::new(bytes, piece, fails))
}

fn sink(alloc: Global, room: u32, piece: u32, fails: Vec<u32>) -> Result<MemSink, Fail>
    requires { 0 < piece }
{
    Ok(
        MemSink::new(alloc, room, piece, fails)
            .ok()
            .ok_or("memory")?,
    )
}

#[test]
fn read_and_written(rt: HostRuntime) -> Result<(), Fail> {
    for piece in [5, 1] {
        let mut source = five(rt.alloc(), piece, Vec::new(rt.alloc()))?;
        let all = read_all(rt.alloc(), &mut source, 5).ok().ok_or("all")?;
        assert_eq!(rt; all.as_slice(), FIVE);
        let mut sink = sink(rt.alloc(), 5, piece, Vec::new(rt.alloc()))?;
        assert!(rt; write_all(&mut sink, all.as_slice()).is_ok());
        assert_eq!(rt; sink.held(), FIVE);
    }
    Ok(())
}

// Six reads take five bytes one by one: the last finds the end.
#[test]
fn each_read_fails(rt: HostRuntime) -> Result<(), Fail> {
    for k in 1..=6 {
        let mut source = five(rt.alloc(), 1, vec![in rt.alloc(); k]?)?;
        assert!(rt;
            matches!(read_all(rt.alloc(), &mut source, 5), Err(ReadFail::Fault)),
            "at {k}"
        );
    }
    let mut source = five(rt.alloc(), 1, vec![in rt.alloc(); 7]?)?;
    assert!(rt; read_all(rt.alloc(), &mut source, 5).is_ok());
    Ok(())
}

#[test]
fn a_write_fails(rt: HostRuntime) -> Result<(), Fail> {
    let mut second = sink(rt.alloc(), 5, 2, vec![in rt.alloc(); 2]?)?;
    assert!(rt; write_all(&mut second, FIVE).is_err());
    assert_eq!(rt; second.held(), b"AB".as_slice());
    let mut small = sink(rt.alloc(), 3, 2, Vec::new(rt.alloc()))?;
    assert!(rt; write_all(&mut small, FIVE).is_err());
    assert_eq!(rt; small.held(), b"AB".as_slice());
    Ok(())
}

#[test]
fn over_std(rt: HostRuntime) -> Result<(), Fail> {
    let mut source = StdSource::new(Cursor::new(FIVE));
    let all = read_all(rt.alloc(), &mut source, 5).ok().ok_or("all")?;
    assert_eq!(rt; all.as_slice(), FIVE);
    let mut written: Vec<u8> = Vec::new(rt.alloc());
    let mut sink = StdSink::new(&mut written);
    assert!(rt; write_all(&mut sink, FIVE).is_ok());
    assert_eq!(rt; written.as_slice(), FIVE);
    Ok(())
}

// Gives one byte a call, and then the end, but fails at the second call.
#[derive(Drop)]
struct Flaky {
    calls: u8,
}

impl Read for Flaky {
    fn read(&mut self, buf: &mut [u8]) -> io::Result<usize> {
        self.calls = self.calls.saturating_add(1);
        if self.calls == 2 {
            return Err(io::Error::from(ErrorKind::Other));
        }
        if self.calls > 4 || buf.is_empty() {
            return Ok(0);
        }
        buf[0] = b'X';
        Ok(1)
    }
}

impl Write for Flaky {
    fn write(&mut self, buf: &[u8]) -> io::Result<usize> {
        self.calls = self.calls.saturating_add(1);
        match self.calls {
            2 => Err(io::Error::from(ErrorKind::Other)),
            4 => Ok(0),
            _ => Ok(buf.len().min(1)),
        }
    }

    fn flush(&mut self) -> io::Result<()> {
        Ok(())
    }
}

#[test]
fn a_fault_in_mid_stream(rt: HostRuntime) -> Result<(), Fail> {
    let mut source = StdSource::new(Flaky { calls: 0 });
    assert!(rt; matches!(read_all(rt.alloc(), &mut source, 9), Err(ReadFail::Fault)));
    let rest = read_all(rt.alloc(), &mut source, 9).ok().ok_or("rest")?;
    assert_eq!(rt; rest.as_slice(), b"XX".as_slice());
    let mut sink = StdSink::new(Flaky { calls: 0 });
    assert!(rt; write_all(&mut sink, b"XY").is_err());
    assert!(rt; sink.write(b"Y").is_ok());
    assert!(rt; sink.write(b"Z").is_err());
    assert!(rt; write_all(&mut sink, b"Z").is_ok());
    Ok(())
}
