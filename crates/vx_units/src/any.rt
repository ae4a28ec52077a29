//! A unit of either kind.

ghost use Rattle.std.specs.Prelude.{◌≡◌, ◌↔◌, IfOk, IsTrue};
ghost use Rattle.vx_image.specs.Units.{first_unit};
ghost use Rattle.vx_units.specs.Any.{seen};
ghost use Rattle.vx_units.specs.Units.{idle, outputs_of};

use crate::block::BlockUnit;
use crate::line::LineUnit;
use crate::unit::DeviceUnit;
use std::alloc::Global;
use vx_base::{Bytes, NoMemory, Reply, Req};
use vx_image::UnitDecl;

/// A device unit of either kind.
#[derive(Drop)]
pub enum AnyUnit {
    /// A line unit.
    Line(LineUnit),
    /// A block unit.
    Block(BlockUnit),
}

impl AnyUnit {
    /// A unit as it is declared: of blocks if it has some, else of lines.
    pub fn new(alloc: Global, decl: &UnitDecl) -> Result<AnyUnit, NoMemory>
        ensures { IfOk result (λ unit. seen unit ≡ idle (first_unit decl.now)) }
    {
        if decl.blocks == 0 {
            Ok(AnyUnit::Line(LineUnit::new(alloc, decl)?))
        } else {
            Ok(AnyUnit::Block(BlockUnit::new(alloc, decl)?))
        }
    }

    /// The same unit again, with its pending service, and ready if it was.
    pub fn duplicate(&self) -> Result<AnyUnit, NoMemory>
        ensures { IfOk result (λ copy. seen copy ≡ seen self.now) }
    {
        match self {
            AnyUnit::Line(unit) => Ok(AnyUnit::Line(unit.duplicate()?)),
            AnyUnit::Block(unit) => Ok(AnyUnit::Block(unit.duplicate()?)),
        }
    }

    /// Whether it is of the same kind and holds the same, with the same faults and as many services. Takes no memory.
    pub fn same(&self, other: &AnyUnit) -> bool
        ensures { IsTrue result ↔ ((seen self.now).unit ≡ (seen other.now).unit) }
    {
        match (self, other) {
            (AnyUnit::Line(unit), AnyUnit::Line(other)) => unit.same(other),
            (AnyUnit::Block(unit), AnyUnit::Block(other)) => unit.same(other),
            (AnyUnit::Line(line), AnyUnit::Block(block)) => are_same(line, block),
            (AnyUnit::Block(block), AnyUnit::Line(line)) => are_same(line, block),
        }
    }

    /// How many services there were.
    pub fn services(&self) -> u32
        ensures { result ≡ (seen self.now).unit.services }
    {
        match self {
            AnyUnit::Line(unit) => unit.services(),
            AnyUnit::Block(unit) => unit.services(),
        }
    }

    /// The lines that were written to it; a block unit has none.
    pub fn outputs(&self) -> &[Bytes]
        ensures { result.now ≡ outputs_of (seen self.now).unit.contents }
    {
        match self {
            AnyUnit::Line(unit) => unit.outputs(),
            AnyUnit::Block(unit) => unit.outputs(),
        }
    }
}

// Whether a line unit holds the same as a block unit: it never does.
fn are_same(line: &LineUnit, block: &BlockUnit) -> bool
    ensures same { IsTrue result ↔ (line.now.unit ≡ block.now.unit) }
    ensures other { IsTrue result ↔ (block.now.unit ≡ line.now.unit) }
{
    line.has_lines() && block.has_lines()
}

impl DeviceUnit for AnyUnit {
    ghost serving = { seen };

    fn ready(&mut self, req: &Req) -> Result<(), NoMemory> {
        match self {
            AnyUnit::Line(unit) => unit.ready(req),
            AnyUnit::Block(unit) => unit.ready(req),
        }
    }

    fn serve(&mut self, req: &Req) -> Reply {
        match self {
            AnyUnit::Line(unit) => unit.serve(req),
            AnyUnit::Block(unit) => unit.serve(req),
        }
    }

    fn settle(&mut self) {
        match self {
            AnyUnit::Line(unit) => unit.settle(),
            AnyUnit::Block(unit) => unit.settle(),
        }
    }
}
