//! The mailboxes of records, which have a column each.

ghost use Rattle.std.specs.Prelude.{◌≡◌, OnOk, IfOk, [], unwrap_or};
ghost use Rattle.vx_draw.specs.Boxes as spec;

use std::alloc::Global;
use std::marker::Model;
use vx_base::{Effect, Name, NoMemory, Rec};
use vx_names::{Named, Register};

/// A mailbox, which contracts see as its name.
#[derive(Clone, Copy)]
pub struct BoxName(Name);

impl Model for BoxName {
    ghost use Rattle.std.specs.Prelude.{List, ℕ};

    ghost Value = { List ℕ };

    ghost view = { λ b. b.0 };

    ghost inverse = { λ text. record { 0 = text } };
}

impl BoxName {
    /// The name's text.
    pub fn text(&self) -> &[u8]
        ensures { result.now ≡ self.now }
    {
        self.0.text()
    }
}

impl Named for BoxName {
    ghost name_of = { λ b. b };

    fn name(&self) -> Name {
        self.0
    }
}

/// Mailboxes in the order in which they were made first. Contracts see the list of their names.
pub type Boxes = Register<BoxName>;

/// The place of a mailbox, from 0; that of the first if it is not among them.
pub fn box_place(boxes: &Boxes, name: Name) -> u32
    ensures { result ≡ unwrap_or (spec.place_of boxes.now name) 0 }
{
    boxes.place(name).unwrap_or(0)
}

fn add_name(boxes: &mut Boxes, name: Name) -> Result<(), NoMemory>
    ensures { OnOk result (boxes.new ≡ spec.with_name boxes.old name) }
{
    match boxes.place(name) {
        Some(_) => Ok(()),
        None => boxes.push(BoxName(name)),
    }
}

fn add_effect(boxes: &mut Boxes, effect: &Effect) -> Result<(), NoMemory>
    ensures { OnOk result (boxes.new ≡ spec.with_effect boxes.old effect.now) }
{
    match effect {
        Effect::Mbx { name, bit: _ } => add_name(boxes, *name),
        _ => Ok(()),
    }
}

fn add_effects(boxes: &mut Boxes, effects: &[Effect]) -> Result<(), NoMemory>
    ensures { OnOk result (boxes.new ≡ spec.with_effects boxes.old effects.now) }
{
    for effect in effects {
        add_effect(boxes, effect)?;
    }
    Ok(())
}

fn add_records(boxes: &mut Boxes, recs: &[Rec]) -> Result<(), NoMemory>
    ensures { OnOk result (boxes.new ≡ spec.box_names boxes.old recs.now) }
{
    for rec in recs {
        add_effects(boxes, rec.effects.as_slice())?;
    }
    Ok(())
}

/// The mailboxes of records.
pub fn boxes_of(alloc: Global, recs: &[Rec]) -> Result<Boxes, NoMemory>
    ensures { IfOk result (λ boxes. boxes ≡ spec.box_names [] recs.now) }
{
    let mut boxes = Register::new(alloc);
    add_records(&mut boxes, recs)?;
    Ok(boxes)
}
