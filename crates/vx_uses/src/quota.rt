//! An amount is charged within its limits, or not at all.

use std::test::*;
use vx_base::Need;
use vx_quota::Account;

#[test]
fn a_charge_above_a_limit_is_refused(rt: HostRuntime) -> Result<(), Fail> {
    let limits = Need {
        ast: 2,
        bio: 1,
        dio: 1,
        byt: 10,
        tqe: 1,
    };
    let mut account = Account::new(limits);
    assert!(rt; account.charge(limits));
    assert!(rt; !account.charge(limits));
    assert_eq!(rt; account.used(), limits);
    Ok(())
}
