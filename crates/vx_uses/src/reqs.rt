//! A request is accepted, taken by its unit and finished.

use std::test::*;
use vx_base::{Bytes, Device, Entry, Func, Id, Mode, Pid, Req, Routine, Scripted, UnitNo};
use vx_reqs::Reqs;

#[test]
fn a_request_is_served_and_finished(rt: HostRuntime) -> Result<(), Fail> {
    let req = Req {
        id: Id(3),
        p: Pid(1),
        chan: 1,
        chan_mode: Mode::User,
        device: Device::Unit(UnitNo(0)),
        func: Func::Read,
        efn: 0,
        iosb: 0,
        buf: 0,
        len: 8,
        blk: 0,
        bytes: Bytes::new(rt.alloc()),
    };
    let mut reqs: Reqs<Scripted> = Reqs::new(rt.alloc());
    reqs.reserve().ok().ok_or("memory")?;
    reqs.accept(req, Some((Mode::User, Scripted::scripted(Entry::Host(4)))));
    assert_eq!(rt; reqs.begin(UnitNo(0)), Some(Id(3)));
    let (_, ast, marked) = reqs.finish(Id(3)).ok_or("a request")?.parts();
    assert!(rt; ast.is_some() && !marked);
    Ok(())
}
