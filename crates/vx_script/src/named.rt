//! The names of the lines that have one.

use crate::lines::{DeclLine, FaultLine};
use vx_base::Name;
use vx_names::{Named, Numbered};

impl Named for DeclLine {
    ghost name_of = { λ d. d.name };

    fn name(&self) -> Name {
        self.name
    }
}

impl Named for FaultLine {
    ghost name_of = { λ f. f.unit };

    fn name(&self) -> Name {
        self.unit
    }
}

impl Numbered for FaultLine {
    ghost number_of = { λ f. f.number };

    fn number(&self) -> u32 {
        self.number
    }
}
