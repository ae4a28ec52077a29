//! The units that were read.

ghost use Rattle.std.specs.Prelude.{◌≡◌, ◌∷◌, ◌++◌, [], IsTrue, None, OnOk, length};
ghost use Rattle.vx_image.specs.WellFormed.{are_distinct};
ghost use Rattle.vx_script.specs.Places.{unit_place};
ghost use Rattle.vx_script.specs.Steps.{unit_names};

use std::alloc::Global;
use std::marker::Model;
use vx_base::{Name, NoMemory};
use vx_image::UnitDecl;
use vx_names::Register;

/// Units of different names, in order. Contracts see their list.
#[derive(Drop)]
pub struct Units {
    register: Register<UnitDecl>,
}

impl Model for Units {
    ghost use Rattle.std.specs.Prelude.{IsTrue, List, map};
    ghost use Rattle.vx_image.specs.WellFormed.{are_distinct};
    ghost use Rattle.vx_image.specs.declared.unit.UnitDecl.{UnitDecl};

    ghost Value = { List UnitDecl };

    ghost view = { λ u. u.register };

    ghost invariant = { λ u. IsTrue (are_distinct (map (λ unit. unit.name) u.register)) };
}

impl Units {
    /// No units. Takes no memory.
    pub fn new(alloc: Global) -> Units
        ensures { result ≡ [] }
    {
        Units {
            register: Register::new(alloc),
        }
    }

    /// The place, from 0, of the unit of a name.
    pub fn place(&self, name: Name) -> Option<u32>
        ensures place { result ≡ unit_place name self.now }
        ensures distinct { IsTrue (are_distinct (unit_names self.now)) }
    {
        self.register.place(name)
    }

    /// Adds a unit at the end.
    pub fn push(&mut self, unit: UnitDecl) -> Result<(), NoMemory>
        requires { unit_place unit.name self.old ≡ None }
        ensures { OnOk result (self.new ≡ self.old ++ unit ∷ []) }
    {
        self.register.push(unit)
    }

    /// The units, in order.
    pub fn as_slice(&self) -> &[UnitDecl]
        ensures { result.now ≡ self.now }
    {
        self.register.as_slice()
    }

    /// How many there are.
    pub fn len(&self) -> usize
        ensures { result ≡ length self.now }
    {
        self.register.len()
    }
}
