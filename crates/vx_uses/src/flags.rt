//! Event flags are set and cleared, and a mask asks for some of them.

use std::test::*;
use vx_flags::Flags;

#[test]
fn a_mask_asks_for_any_or_for_all(rt: HostRuntime) -> Result<(), Fail> {
    let mut flags = Flags::new();
    assert!(rt; !flags.set(31));
    assert!(rt; !flags.set(0));
    assert_eq!(rt; flags.bits(), 0x8000_0001);
    assert!(rt; flags.any(3));
    assert!(rt; !flags.all(3));
    assert!(rt; flags.clear(31));
    Ok(())
}
