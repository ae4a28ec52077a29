//! A type that names a system and a limit.

use std::marker::Brand;

/// It says of which system a run is, and how many records it may have. Whoever starts a run picks it.
pub trait Naming {
    ghost use Rattle.vx_exec.specs.View.{Plan};

    /// The system, and the limit.
    ghost plan: { Plan };
}

impl Naming for Brand {
    ghost use Rattle.std.specs.Prelude.{[]};

    ghost plan = { record { system = record { images = []; decls = []; units = [] }; limit = 0 } };
}
