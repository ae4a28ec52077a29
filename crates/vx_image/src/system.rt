//! What a script says.

use crate::decl::ProcDecls;
use crate::image::Images;
use crate::unit::UnitDecls;

/// A system: what a script says.
pub struct System {
    pub units: UnitDecls,
    pub images: Images,
    pub decls: ProcDecls,
}

impl Drop for System {
    // Written out, so that it is proved here once, and not in each crate that lets a system go.
    fn drop(self) {
        let Self {
            units: _,
            images: _,
            decls: _,
        } = self;
    }
}
