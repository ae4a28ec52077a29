//! The names of a system's parts.

use crate::named::Named;
use vx_base::Name;
use vx_image::{Image, Label, UnitDecl};

impl Named for UnitDecl {
    ghost name_of = { λ u. u.name };

    fn name(&self) -> Name {
        self.name
    }
}

impl Named for Image {
    ghost name_of = { λ i. i.name };

    fn name(&self) -> Name {
        self.name
    }
}

impl Named for Label {
    ghost name_of = { λ l. l.name };

    fn name(&self) -> Name {
        self.name
    }
}
