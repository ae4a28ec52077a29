//! Channels are assigned by their least free number.

use std::test::*;
use vx_base::{Device, Mode, UnitNo};
use vx_chans::{ChanFail, Chans};

#[test]
fn sixty_four_channels_are_assigned(rt: HostRuntime) -> Result<(), Fail> {
    let unit = Device::Unit(UnitNo(2));
    let mut chans = Chans::new(rt.alloc()).ok().ok_or("memory")?;
    for number in 1..=64 {
        assert_eq!(rt; chans.assign(unit, Mode::Exec), Ok(number));
    }
    assert_eq!(rt; chans.assign(unit, Mode::Exec), Err(ChanFail::NoIoChan));
    assert_eq!(rt; chans.find(64, Mode::Kernel), Ok((unit, Mode::Exec)));
    Ok(())
}
