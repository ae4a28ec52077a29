//! Lines that are looked up when the text is at its end.

ghost use Rattle.std.specs.Prelude.{◌≡◌, ◌∷◌, ◌++◌, [], OnOk};

use crate::keys::Keys;
use std::alloc::Global;
use std::marker::Model;
use vx_base::{Bytes, Name, NoMemory};

/// An INPUT line: one more line of a line unit.
#[derive(Drop)]
pub struct InputLine {
    pub line: u32,
    pub unit: Name,
    pub text: Bytes,
}

/// INPUT lines in order, which contracts see as their list.
#[derive(Drop)]
pub struct InputLines {
    items: Vec<InputLine>,
}

impl Model for InputLines {
    ghost use Rattle.std.specs.Prelude.{List};
    ghost use Rattle.vx_script.specs.declared.lines.InputLine.{InputLine};

    ghost Value = { List InputLine };

    ghost view = { λ l. l.items.items };
}

impl InputLines {
    /// No lines. Takes no memory.
    pub fn new(alloc: Global) -> InputLines
        ensures { result ≡ [] }
    {
        InputLines {
            items: Vec::new(alloc),
        }
    }

    /// The lines.
    pub fn as_slice(&self) -> &[InputLine]
        ensures { result.now ≡ self.now }
    {
        self.items.as_slice()
    }

    /// Adds a line at the end.
    pub fn push(&mut self, line: InputLine) -> Result<(), NoMemory>
        ensures { OnOk result (self.new ≡ self.old ++ line ∷ []) }
    {
        self.items.push(line)?;
        Ok(())
    }

    /// The lines, taken out. Takes no memory.
    pub fn into_vec(self) -> Vec<InputLine>
        ensures { result.items ≡ self }
    {
        self.items
    }
}

/// A FAULT line: the number, from 1, of a unit's service that fails.
#[derive(Clone, Copy)]
pub struct FaultLine {
    pub line: u32,
    pub unit: Name,
    pub number: u32,
}

/// A PROCESS line.
#[derive(Clone, Copy)]
pub struct DeclLine {
    pub line: u32,
    pub name: Name,
    pub image: Name,
    pub keys: Keys,
}

/// A $CREPRC, and the process declaration that it names.
#[derive(Clone, Copy)]
pub struct Creation {
    pub line: u32,
    pub name: Name,
}
