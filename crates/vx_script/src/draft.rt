//! An image that is being read.

ghost use Rattle.std.specs.Prelude.{◌≡◌, ◌<◌, ◌≤◌, [], ◌∷◌, ◌++◌, OnOk, length};

use std::alloc::Global;
use std::marker::Model;
use vx_base::{Name, NoMemory, Operand};
use vx_image::{Label, Rel, Stmt};
use vx_names::{Named, Register};

/// A statement, in which a label stands by its name.
#[derive(Drop)]
pub enum Draft {
    /// Goes on at a label.
    Goto(Name),
    /// Goes on at a label if two values compare so.
    If(Operand, Rel, Operand, Name),
    /// Goes to no label.
    Plain(Stmt),
}

/// A statement, and the number of its line.
#[derive(Drop)]
pub struct DraftLine {
    pub line: u32,
    pub draft: Draft,
}

/// The most statements of an image.
pub const MOST_STMTS: usize = 10_000;

/// At most 10,000 statements, which contracts see as their list.
#[derive(Drop)]
pub struct DraftLines {
    items: Vec<DraftLine>,
}

impl Model for DraftLines {
    ghost use Rattle.std.specs.Prelude.{◌≤◌, List, length};
    ghost use Rattle.vx_script.specs.declared.draft.DraftLine.{DraftLine};

    ghost Value = { List DraftLine };

    ghost view = { λ s. s.items.items };

    ghost invariant = { λ s. length s.items.items ≤ 10000 };
}

impl DraftLines {
    /// No statements. Takes no memory.
    pub fn new(alloc: Global) -> DraftLines
        ensures { result ≡ [] }
    {
        DraftLines {
            items: Vec::new(alloc),
        }
    }

    /// The statements.
    pub fn as_slice(&self) -> &[DraftLine]
        ensures { result.now ≡ self.now }
    {
        self.items.as_slice()
    }

    /// How many there are.
    pub fn len(&self) -> u32
        ensures { result ≡ length self.now }
    {
        self.items.len() as u32
    }

    /// Appends a statement, if there are fewer than 10,000.
    pub fn push(&mut self, line: DraftLine) -> Result<(), NoMemory>
        requires { length self.old < 10000 }
        ensures { OnOk result (self.new ≡ self.old ++ line ∷ []) }
    {
        self.items.push(line)?;
        Ok(())
    }

    /// The statements, taken out.
    pub fn into_vec(self) -> Vec<DraftLine>
        ensures { result.items ≡ self }
    {
        self.items
    }
}

/// An image that is not ended: its labels and its statements so far.
#[derive(Drop)]
pub struct DraftImage {
    pub name: Name,
    pub labels: Register<Label>,
    pub lines: DraftLines,
}

impl DraftImage {
    /// An image without labels and statements. Takes no memory.
    pub fn new(alloc: Global, name: Name) -> DraftImage
        ensures { result ≡ record { name = name; labels = []; lines = [] } }
    {
        DraftImage {
            name,
            labels: Register::new(alloc),
            lines: DraftLines::new(alloc),
        }
    }
}
