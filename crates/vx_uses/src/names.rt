//! What has a name is found by it.

use std::test::*;
use vx_base::Name;
use vx_names::{Named, Register};

#[derive(Drop)]
struct Label {
    name: Name,
    number: u32,
}

impl Named for Label {
    ghost name_of = { λ label. label.name };

    fn name(&self) -> Name {
        self.name
    }
}

#[test]
fn the_first_of_a_name_is_found(rt: HostRuntime) -> Result<(), Fail> {
    let alpha = Name::new(b"ALPHA").ok_or("a name")?;
    let beta = Name::new(b"BETA").ok_or("a name")?;
    let mut labels = Register::new(rt.alloc());
    for (name, number) in [(beta, 1), (alpha, 2), (alpha, 3)] {
        labels.push(Label { name, number }).ok().ok_or("memory")?;
    }
    assert_eq!(rt; labels.place(alpha), Some(1));
    assert_eq!(rt; labels.into_vec().last().map(|label| label.number), Some(3));
    Ok(())
}
