//! The rows of a picture.
//!
//! Each function appends its text. If memory runs out, it may have appended the start of it.

ghost use Rattle.std.specs.Prelude.{◌≡◌, ◌<◌, ◌^◌, ◌+◌, ◌++◌, OnOk, IfOk, length};
ghost use Rattle.vx_draw.specs.Frames.{open_bars};
ghost use Rattle.vx_draw.specs.Shapes.{bottom};
ghost use Rattle.vx_draw.specs.Rows as spec;

use crate::deed::print_deed;
use crate::frames::Stacks;
use crate::marks::{print_answer_marks, print_effect_marks};
use crate::moves::{
    answer_move, answer_tale, effect_move, effect_mover, effect_tale, is_refused, mover,
};
use crate::places::anchor;
use crate::scene::Scene;
use crate::shapes::{Point, base, bottom, print_label, print_titled};
use crate::spot::Spot;
use crate::trails::Trails;
use std::alloc::Global;
use vx_base::{Answer, Bytes, Effect, Event, NoMemory, Rec};
use vx_lines::print_effects;
use vx_text::print_num;

/// What is open: the frames of processes, and the trails of ids.
#[derive(Drop)]
pub struct Canvas {
    pub stacks: Stacks,
    pub trails: Trails,
}

/// The event of a record, and an effect of it with its number there, from 0.
#[derive(Drop)]
struct Act<'a> {
    event: Event,
    k: u64,
    effect: &'a Effect,
}

fn said_text(alloc: Global, rec: &Rec) -> Result<Bytes, NoMemory>
    ensures { IfOk result (λ text. text ≡ spec.said_text rec.now) }
{
    let mut text = Bytes::new(alloc);
    text.push_all(if is_refused(&rec.answer) { b"! " } else { b"" })?;
    print_deed(rec, &mut text)?;
    Ok(text)
}

fn said_title(alloc: Global, rec: &Rec) -> Result<Bytes, NoMemory>
    ensures { IfOk result (λ title. title ≡ spec.said_title rec.now) }
{
    let mut title = Bytes::new(alloc);
    print_deed(rec, &mut title)?;
    title.push_all(b"\n")?;
    print_effects(rec.effects.as_slice(), &mut title)?;
    Ok(title)
}

fn said_class(answer: &Answer) -> &'static [u8]
    ensures { result.now ≡ spec.said_class answer.now }
{
    match answer {
        Answer::Wait(_) => b"waits",
        _ => {
            if is_refused(answer) {
                b"refused"
            } else {
                b"done"
            }
        }
    }
}

// Appends the text of the record at a spot.
#[tactic(auto, unfolding(crate::specs::Rows::said))]
fn print_said(alloc: Global, spot: Spot, rec: &Rec, out: &mut Bytes) -> Result<(), NoMemory>
    requires { spot.x < 2 ^ 100 }
    ensures { OnOk result (out.new ≡ out.old ++ spec.said spot.row spot.x rec.now) }
{
    let text = said_text(alloc, rec)?;
    let title = said_title(alloc, rec)?;
    let class = said_class(&rec.answer);
    let at = Point {
        x: spot.x + 6,
        y: base(spot.row),
    };
    print_titled(class, at, text.as_slice(), title.as_slice(), out)
}

/// Appends the number of row n.
#[tactic(auto, unfolding(crate::specs::Rows::number_label))]
pub fn print_number_label(alloc: Global, n: u64, out: &mut Bytes) -> Result<(), NoMemory>
    ensures { OnOk result (out.new ≡ out.old ++ spec.number_label n) }
{
    let mut digits = Bytes::new(alloc);
    print_num(&mut digits, n)?;
    let at = Point { x: 44, y: base(n) };
    print_label(b"n", at, digits.as_slice(), out)
}

fn trail_class(event: Event) -> &'static [u8]
    ensures { result.now ≡ spec.trail_class event }
{
    match event {
        Event::Don(_) => b"serve",
        _ => b"request",
    }
}

// Appends what the answer of the record at a spot draws.
#[tactic(auto, unfolding(crate::specs::Rows::answer_text, crate::specs::Rows::after_answer))]
fn print_answer(spot: Spot, rec: &Rec, canvas: &mut Canvas, out: &mut Bytes) -> Result<(), NoMemory>
    ensures text { OnOk result (out.new ≡ out.old ++ spec.answer_text spot.row spot.x rec.now canvas.old) }
    ensures canvas { OnOk result (canvas.new ≡ spec.after_answer spot.row spot.x rec.now canvas.old) }
{
    let step = answer_move(spot.row, &canvas.trails, &rec.answer);
    canvas
        .stacks
        .make(mover(rec.event, &rec.answer), step, out)?;
    let tale = answer_tale(&rec.answer);
    canvas
        .trails
        .tell(trail_class(rec.event), spot.middle(), tale, out)
}

// Appends what an effect of the record at a spot draws.
#[tactic(auto, unfolding(crate::specs::Rows::effect_text, crate::specs::Rows::after_effect))]
fn print_effect(
    alloc: Global,
    scene: &Scene<'_>,
    spot: Spot,
    act: &Act<'_>,
    canvas: &mut Canvas,
    out: &mut Bytes,
) -> Result<(), NoMemory>
    ensures text { OnOk result (out.new ≡ out.old
        ++ spec.effect_text scene.now.places scene.now.boxes.now scene.now.decls.now spot.row spot.x
        act.now.event act.now.k act.now.effect.now canvas.old) }
    ensures canvas { OnOk result (canvas.new
        ≡ spec.after_effect scene.now.decls.now spot.row spot.x act.now.event act.now.effect.now canvas.old) }
{
    let step = effect_move(spot.row, scene.decls, &canvas.trails, act.effect);
    let mover = effect_mover(act.event, act.effect);
    canvas.stacks.make(mover, step, out)?;
    let tale = effect_tale(act.effect);
    canvas.trails.tell(b"request", spot.middle(), tale, out)?;
    print_effect_marks(alloc, scene, spot, act.k, act.effect, out)
}

// Appends what the effects of the record at a spot draw.
fn print_row_effects(
    alloc: Global,
    scene: &Scene<'_>,
    spot: Spot,
    rec: &Rec,
    canvas: &mut Canvas,
    out: &mut Bytes,
) -> Result<(), NoMemory>
    ensures text { OnOk result (out.new ≡ out.old
        ++ spec.effects_text scene.now.places scene.now.boxes.now scene.now.decls.now spot.row spot.x
        rec.now.event 0 rec.now.effects canvas.old) }
    ensures canvas { OnOk result (canvas.new
        ≡ spec.after_effects scene.now.decls.now spot.row spot.x rec.now.event rec.now.effects canvas.old) }
{
    for (k, effect) in rec.effects.as_slice().iter().enumerate() {
        let act = Act {
            event: rec.event,
            k: k as u64,
            effect,
        };
        print_effect(alloc, scene, spot, &act, canvas, out)?;
    }
    Ok(())
}

// Appends the row of the record at a spot.
#[tactic(auto, unfolding(crate::specs::Rows::row_text, crate::specs::Rows::after_row))]
fn print_row(
    alloc: Global,
    scene: &Scene<'_>,
    spot: Spot,
    rec: &Rec,
    canvas: &mut Canvas,
    out: &mut Bytes,
) -> Result<(), NoMemory>
    requires { spot.x < 2 ^ 100 }
    ensures text { OnOk result (out.new ≡ out.old
        ++ spec.row_text scene.now.places scene.now.boxes.now scene.now.decls.now spot.row spot.x rec.now canvas.old) }
    ensures canvas { OnOk result (canvas.new
        ≡ spec.after_row scene.now.decls.now spot.row spot.x rec.now canvas.old) }
{
    print_number_label(alloc, spot.row, out)?;
    print_answer(spot, rec, canvas, out)?;
    print_answer_marks(alloc, spot, rec, out)?;
    print_row_effects(alloc, scene, spot, rec, canvas, out)?;
    print_said(alloc, spot, rec, out)
}

// Appends the rows of records, numbered from 1.
fn print_recs(
    alloc: Global,
    scene: &Scene<'_>,
    recs: &[Rec],
    canvas: &mut Canvas,
    out: &mut Bytes,
) -> Result<(), NoMemory>
    ensures { OnOk result (out.new ++ open_bars 1 (bottom (1 + length recs.now)) canvas.new.stacks
        ≡ out.old ++ spec.rows_text scene.now.places scene.now.boxes.now scene.now.decls.now 1 recs.now canvas.old) }
{
    for (i, rec) in recs.iter().enumerate() {
        let spot = Spot {
            row: i as u64 + 1,
            x: anchor(scene.places, rec.event),
        };
        print_row(alloc, scene, spot, rec, canvas, out)?;
    }
    Ok(())
}

/// Appends the rows of records, numbered from 1, and behind them the bars of what is open still.
pub fn print_rows(
    alloc: Global,
    scene: &Scene<'_>,
    recs: &[Rec],
    canvas: &mut Canvas,
    out: &mut Bytes,
) -> Result<(), NoMemory>
    ensures { OnOk result (out.new ≡ out.old
        ++ spec.rows_text scene.now.places scene.now.boxes.now scene.now.decls.now 1 recs.now canvas.old) }
{
    print_recs(alloc, scene, recs, canvas, out)?;
    canvas.stacks.end(bottom(1 + recs.len() as u64), out)
}
