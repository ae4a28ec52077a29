//! Systems that can be told apart, and copied.

ghost use Rattle.std.specs.Prelude.{◌≡◌, ◌↔◌, IsTrue, IfOk};

use crate::decl::ProcDecl;
use crate::image::{Image, Label};
use crate::system::System;
use crate::unit::UnitDecl;
use vx_base::{Duplicate, Need, NoMemory, Privs, Same};

impl Same for Label {
    fn same(&self, other: &Label) -> bool {
        *self == *other
    }
}

impl Duplicate for Label {
    fn duplicate(&self) -> Result<Label, NoMemory> {
        Ok(*self)
    }
}

impl Same for Image {
    fn same(&self, other: &Image) -> bool {
        self.name == other.name && self.labels.same(&other.labels) && self.stmts.same(&other.stmts)
    }
}

impl Duplicate for Image {
    fn duplicate(&self) -> Result<Image, NoMemory> {
        Ok(Image {
            name: self.name,
            labels: self.labels.duplicate()?,
            stmts: self.stmts.duplicate()?,
        })
    }
}

impl Same for UnitDecl {
    fn same(&self, other: &UnitDecl) -> bool {
        self.name == other.name
            && self.blocks == other.blocks
            && self.inputs.same(&other.inputs)
            && self.faults.same(&other.faults)
    }
}

impl Duplicate for UnitDecl {
    fn duplicate(&self) -> Result<UnitDecl, NoMemory> {
        Ok(UnitDecl {
            name: self.name,
            blocks: self.blocks,
            inputs: self.inputs.duplicate()?,
            faults: self.faults.duplicate()?,
        })
    }
}

// Whether the first four fields are the same.
fn same_place(a: &ProcDecl, b: &ProcDecl) -> bool
    ensures { IsTrue result ↔ ((a.now.name ≡ b.now.name) × (a.now.image ≡ b.now.image) × (a.now.group ≡ b.now.group) × (a.now.member ≡ b.now.member)) }
{
    a.name == b.name && a.image == b.image && a.group == b.group && a.member == b.member
}

fn same_limits(a: &Need, b: &Need) -> bool
    ensures { IsTrue result ↔ (a.now ≡ b.now) }
{
    *a == *b
}

// Whether the first three privileges are the same.
fn same_first_privs(a: &Privs, b: &Privs) -> bool
    ensures { IsTrue result ↔ ((a.now.cmexec ≡ b.now.cmexec) × (a.now.cmkrnl ≡ b.now.cmkrnl) × (a.now.group ≡ b.now.group)) }
{
    a.cmexec == b.cmexec && a.cmkrnl == b.cmkrnl && a.group == b.group
}

// Whether the last three privileges are the same.
fn same_last_privs(a: &Privs, b: &Privs) -> bool
    ensures { IsTrue result ↔ ((a.now.prmceb ≡ b.now.prmceb) × (a.now.prmmbx ≡ b.now.prmmbx) × (a.now.world ≡ b.now.world)) }
{
    a.prmceb == b.prmceb && a.prmmbx == b.prmmbx && a.world == b.world
}

/// Whether the privileges are the same.
pub fn same_privs(a: &Privs, b: &Privs) -> bool
    ensures { IsTrue result ↔ (a.now ≡ b.now) }
{
    same_first_privs(a, b) && same_last_privs(a, b)
}

// Whether the last four fields are the same.
fn same_rights(a: &ProcDecl, b: &ProcDecl) -> bool
    ensures { IsTrue result ↔ ((a.now.mode ≡ b.now.mode) × (a.now.limits ≡ b.now.limits) × (a.now.privs ≡ b.now.privs) × (a.now.start ≡ b.now.start)) }
{
    a.mode == b.mode
        && same_limits(&a.limits, &b.limits)
        && same_privs(&a.privs, &b.privs)
        && a.start == b.start
}

impl Same for ProcDecl {
    fn same(&self, other: &ProcDecl) -> bool {
        same_place(self, other) && same_rights(self, other)
    }
}

impl Duplicate for ProcDecl {
    fn duplicate(&self) -> Result<ProcDecl, NoMemory> {
        Ok(*self)
    }
}

impl System {
    /// Whether it is the same as another. Takes no memory.
    pub fn same(&self, other: &System) -> bool
        ensures { IsTrue result ↔ (self.now ≡ other.now) }
    {
        self.units.same(&other.units)
            && self.images.same(&other.images)
            && self.decls.same(&other.decls)
    }

    /// The same system again.
    pub fn copy(&self) -> Result<System, NoMemory>
        ensures { IfOk result (λ copy. copy ≡ self.now) }
    {
        Ok(System {
            units: self.units.duplicate()?,
            images: self.images.duplicate()?,
            decls: self.decls.duplicate()?,
        })
    }
}
