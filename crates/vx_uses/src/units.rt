//! A unit makes ready, answers a request, and settles.

ghost use Rattle.std.specs.Prelude.{◌≡◌};

use std::test::*;
use vx_base::{Bytes, Cond, Device, Func, Id, Mode, Name, Pid, Req, UnitNo};
use vx_image::{Lines, Numbers, UnitDecl};
use vx_units::{DeviceUnit, LineUnit};

#[test]
fn a_line_is_read(rt: HostRuntime) -> Result<(), Fail> {
    let mut line = Bytes::new(rt.alloc());
    line.push_all(b"ABC").ok().ok_or("memory")?;
    let decl = UnitDecl {
        name: Name::new(b"TT").ok_or("a name")?,
        blocks: 0,
        inputs: Lines::from_vec(vec![in rt.alloc(); line]?),
        faults: Numbers::new(rt.alloc()),
    };
    let mut unit = LineUnit::new(rt.alloc(), &decl).ok().ok_or("memory")?;
    let req = read_request(Bytes::new(rt.alloc()));
    unit.ready(&req).ok().ok_or("memory")?;
    let reply = unit.serve(&req);
    unit.settle();
    assert_eq!(rt; reply.cond, Cond::Normal);
    assert_eq!(rt; reply.bytes.as_slice(), b"ABC".as_slice());
    Ok(())
}

// Process 1 reads eight bytes at most.
fn read_request(bytes: Bytes) -> Req
    ensures func { result.func ≡ Func.Read }
    ensures len { result.len ≡ 8 }
{
    Req {
        id: Id(1),
        p: Pid(1),
        chan: 1,
        chan_mode: Mode::User,
        device: Device::Unit(UnitNo(0)),
        func: Func::Read,
        efn: 0,
        iosb: 0,
        buf: 0,
        len: 8,
        blk: 0,
        bytes,
    }
}
