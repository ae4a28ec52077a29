//! What the script says, shared by an executive and its copies.

ghost use Rattle.std.specs.Prelude.{◌≡◌, IfOk};

use std::alloc::Global;
use std::marker::Model;
use std::sync::Arc;
use vx_base::NoMemory;
use vx_image::System;

/// A system that is never written, behind a shared pointer: a copy of it is one more owner. Contracts see the system.
#[derive(Drop)]
pub(crate) struct SharedSystem {
    system: Arc<System, Global>,
}

impl Model for SharedSystem {
    ghost use Rattle.vx_image.specs.declared.system.System.{System};

    ghost Value = { System };

    ghost use Rattle.std.specs.Arc.{arc_value};

    ghost view = { λ s. arc_value s.system };
}

impl SharedSystem {
    /// A system with one owner.
    pub(crate) fn new(alloc: Global, system: System) -> Result<SharedSystem, NoMemory>
        ensures { IfOk result (λ shared. shared ≡ system) }
    {
        Ok(SharedSystem {
            system: Arc::new(alloc, system)?,
        })
    }

    /// One more owner. Takes no memory.
    pub(crate) fn share(&self) -> Result<SharedSystem, NoMemory>
        ensures { IfOk result (λ shared. shared ≡ self.now) }
    {
        Ok(SharedSystem {
            system: Arc::try_clone(&self.system)?,
        })
    }

    /// The system.
    pub(crate) fn get(&self) -> &System
        ensures { result.now ≡ self.now }
    {
        &self.system
    }
}
