//! The marks of effects.
//!
//! Each function appends its text. If memory runs out, it may have appended the start of it.

ghost use Rattle.std.specs.Prelude.{◌≡◌, ◌+◌, ◌<◌, ◌++◌, OnOk, IfOk, if◌then◌else◌};
ghost use Rattle.vx_base.specs.Cond.{severity_of};
ghost use Rattle.vx_lines.specs.Records.{id_text};
ghost use Rattle.vx_draw.specs.Moves.{is_success, named_by, actor};
ghost use Rattle.vx_draw.specs.Marks as spec;

use crate::boxes::box_place;
use crate::deed::print_deed;
use crate::moves::{actor, is_success, named_by};
use crate::places::{Places, box_x, process_x};
use crate::scene::Scene;
use crate::shapes::{Point, base, print_figure, print_label, print_stroke, top};
use crate::spot::Spot;
use std::alloc::Global;
use std::slice::from_ref;
use vx_base::{
    Answer, Bytes, Call, Cell, Cond, Effect, Event, Id, Name, NoMemory, Pid, Rec, Service,
};
use vx_lines::print_effects;
use vx_text::print_num;

/// What a mark looks like.
#[derive(Clone, Copy)]
pub enum Figure {
    Square,
    Down,
    Up,
    Diamond,
    Cross,
}

/// A mark: where it stands, where lines to the owner of its column end, and what it looks like.
#[derive(Clone, Copy)]
pub struct Mark {
    pub x: u64,
    pub owner: u128,
    pub figure: Figure,
    pub filled: bool,
}

fn figure_shape(figure: Figure) -> &'static [u8]
    ensures { result.now ≡ spec.figure_shape figure }
{
    match figure {
        Figure::Square => b"h8v8h-8z",
        Figure::Down => b"h8l-4 8z",
        Figure::Up => b"m0 8h8l-4 -8z",
        Figure::Diamond => b"m4 0l4 4l-4 4l-4 -4z",
        Figure::Cross => b"l8 8m0 -8l-8 8",
    }
}

fn fill_class(filled: bool) -> &'static [u8]
    ensures { result.now ≡ spec.fill_class filled }
{
    if filled { b"on" } else { b"off" }
}

fn process_mark(k: u64, p: Pid, figure: Figure, filled: bool) -> Mark
    ensures { result ≡ spec.process_mark k p figure filled }
{
    let x = process_x(p);
    Mark {
        x: x + (388 + 24 * (k % 2)),
        owner: u128::from(x) + 50,
        figure,
        filled,
    }
}

fn shared_mark(x: u64, figure: Figure, filled: bool) -> Mark
    ensures { result ≡ spec.shared_mark x figure filled }
{
    Mark {
        x,
        owner: 0,
        figure,
        filled,
    }
}

fn flag_mark(places: Places, k: u64, cell: &Cell, bit: bool) -> Mark
    ensures { result ≡ spec.flag_mark places k cell.now bit }
{
    match cell {
        Cell::Local(p, _) => process_mark(k, *p, Figure::Square, bit),
        Cell::Common(..) => shared_mark(u64::from(places.clusters), Figure::Square, bit),
    }
}

fn box_mark(scene: &Scene<'_>, name: &Name, shift: u64, figure: Figure, filled: bool) -> Mark
    requires { shift < 100 }
    ensures { result ≡ spec.box_mark scene.now.places scene.now.boxes.now name.now shift figure filled }
{
    let x = box_x(scene.places, box_place(scene.boxes, *name));
    shared_mark(x + shift, figure, filled)
}

// The mark of the k-th effect of a record, if it has one.
fn mark_of(scene: &Scene<'_>, k: u64, effect: &Effect) -> Option<Mark>
    ensures { result ≡ spec.mark_of scene.now.places scene.now.boxes.now k effect.now }
{
    match effect {
        Effect::Flag { cell, bit } => Some(flag_mark(scene.places, k, cell, *bit)),
        Effect::MPut { name, .. } => Some(box_mark(scene, name, 6, Figure::Down, true)),
        Effect::MGet { name, .. } => Some(box_mark(scene, name, 60, Figure::Up, false)),
        Effect::MCut { name, .. } => Some(box_mark(scene, name, 60, Figure::Cross, false)),
        Effect::Mbx { name, bit } => Some(box_mark(scene, name, 6, Figure::Diamond, *bit)),
        Effect::Cef { bit, .. } => Some(shared_mark(
            u64::from(scene.places.clusters),
            Figure::Diamond,
            *bit,
        )),
        Effect::New { p, name: _ } => Some(process_mark(k, *p, Figure::Down, true)),
        Effect::Gone(p) => Some(process_mark(k, *p, Figure::Cross, false)),
        _ => None,
    }
}

fn service_mark(service: Service, q: Pid) -> Option<Mark>
    ensures { result ≡ spec.service_mark service q }
{
    match service {
        Service::Wake => Some(process_mark(0, q, Figure::Down, true)),
        Service::Resume => Some(process_mark(0, q, Figure::Down, false)),
        Service::Suspnd => Some(process_mark(0, q, Figure::Cross, true)),
        _ => None,
    }
}

fn done_mark(event: Event, call: &Call, cond: Cond) -> Option<Mark>
    ensures { result ≡ (if is_success (severity_of cond) then spec.service_mark call.now.service (named_by call.now.args.a0 (actor event)) else None) }
{
    if is_success(cond) {
        service_mark(call.service, named_by(&call.args.a0, actor(event)))
    } else {
        None
    }
}

// The mark of a service that reaches another process.
fn answer_mark(event: Event, answer: &Answer) -> Option<Mark>
    ensures { result ≡ spec.answer_mark event answer.now }
{
    match answer {
        Answer::Service(call, cond) => done_mark(event, call, *cond),
        _ => None,
    }
}

fn print_id(id: Id, out: &mut Bytes) -> Result<(), NoMemory>
    ensures { OnOk result (out.new ≡ out.old ++ id_text id) }
{
    out.push_all(b"#")?;
    print_num(out, u64::from(id.0))
}

fn print_cell_label(cell: &Cell, out: &mut Bytes) -> Result<(), NoMemory>
    ensures { OnOk result (out.new ≡ out.old ++ spec.cell_label cell.now) }
{
    match cell {
        Cell::Local(_, efn) => print_num(out, u64::from(*efn)),
        Cell::Common(_, name, n) => {
            out.push_all(name.text())?;
            out.push_all(b":")?;
            print_num(out, u64::from(*n))
        }
    }
}

// Appends what stands beside the mark of an effect.
fn print_effect_label(effect: &Effect, out: &mut Bytes) -> Result<(), NoMemory>
    ensures { OnOk result (out.new ≡ out.old ++ spec.effect_label effect.now) }
{
    match effect {
        Effect::Flag { cell, bit: _ } => print_cell_label(cell, out),
        Effect::MPut { id, .. } => print_id(*id, out),
        Effect::MGet { w, .. } => print_id(*w, out),
        Effect::MCut { name: _, w } => print_id(*w, out),
        Effect::Cef { name, .. } => out.push_all(name.text()),
        _ => Ok(()),
    }
}

// Appends a line from who acted to a mark in another column.
fn print_tie(spot: Spot, mark: Mark, out: &mut Bytes) -> Result<(), NoMemory>
    ensures { OnOk result (out.new ≡ out.old ++ spec.tie spot.row spot.x mark) }
{
    if mark.owner == spot.x {
        Ok(())
    } else {
        let y = base(spot.row) + 4;
        let from = Point { x: spot.x, y };
        let to = Point {
            x: u128::from(mark.x),
            y,
        };
        print_stroke(b"tie", from, to, out)
    }
}

// Appends a mark of what a record did.
#[tactic(auto, unfolding(crate::specs::Marks::mark_text))]
fn print_mark(
    spot: Spot,
    mark: Mark,
    beside: &[u8],
    title: &[u8],
    out: &mut Bytes,
) -> Result<(), NoMemory>
    ensures { OnOk result (out.new ≡ out.old ++ spec.mark_text spot.row spot.x mark beside.now title.now) }
{
    print_tie(spot, mark, out)?;
    let corner = Point {
        x: u128::from(mark.x),
        y: top(spot.row) + 5,
    };
    let shape = figure_shape(mark.figure);
    print_figure(fill_class(mark.filled), corner, shape, title, out)?;
    let right = Point {
        x: u128::from(mark.x) + 11,
        y: base(spot.row),
    };
    print_label(b"m", right, beside, out)
}

fn effect_label(alloc: Global, effect: &Effect) -> Result<Bytes, NoMemory>
    ensures { IfOk result (λ label. label ≡ spec.effect_label effect.now) }
{
    let mut label = Bytes::new(alloc);
    print_effect_label(effect, &mut label)?;
    Ok(label)
}

fn effect_title(alloc: Global, effect: &Effect) -> Result<Bytes, NoMemory>
    ensures { IfOk result (λ title. title ≡ spec.effect_title effect.now) }
{
    let mut title = Bytes::new(alloc);
    print_effects(from_ref(effect), &mut title)?;
    Ok(title)
}

fn print_marked(
    alloc: Global,
    spot: Spot,
    mark: Option<Mark>,
    effect: &Effect,
    out: &mut Bytes,
) -> Result<(), NoMemory>
    ensures { OnOk result (out.new ≡ out.old ++ spec.marked_text spot.row spot.x mark effect.now) }
{
    let Some(mark) = mark else {
        return Ok(());
    };
    let beside = effect_label(alloc, effect)?;
    let title = effect_title(alloc, effect)?;
    print_mark(spot, mark, beside.as_slice(), title.as_slice(), out)
}

/// Appends the mark of the k-th effect of the record at a spot, if it has one.
#[tactic(auto, unfolding(crate::specs::Marks::effect_marks))]
pub fn print_effect_marks(
    alloc: Global,
    scene: &Scene<'_>,
    spot: Spot,
    k: u64,
    effect: &Effect,
    out: &mut Bytes,
) -> Result<(), NoMemory>
    ensures { OnOk result (out.new ≡ out.old
        ++ spec.effect_marks scene.now.places scene.now.boxes.now spot.row spot.x k effect.now) }
{
    print_marked(alloc, spot, mark_of(scene, k, effect), effect, out)
}

fn print_reached(
    alloc: Global,
    spot: Spot,
    mark: Option<Mark>,
    rec: &Rec,
    out: &mut Bytes,
) -> Result<(), NoMemory>
    ensures { OnOk result (out.new ≡ out.old ++ spec.reached_text spot.row spot.x mark rec.now) }
{
    let Some(mark) = mark else {
        return Ok(());
    };
    let mut title = Bytes::new(alloc);
    print_deed(rec, &mut title)?;
    print_mark(spot, mark, b"", title.as_slice(), out)
}

/// Appends the mark of the service of the record at a spot, if it reaches another process.
#[tactic(auto, unfolding(crate::specs::Marks::answer_marks))]
pub fn print_answer_marks(
    alloc: Global,
    spot: Spot,
    rec: &Rec,
    out: &mut Bytes,
) -> Result<(), NoMemory>
    ensures { OnOk result (out.new ≡ out.old ++ spec.answer_marks spot.row spot.x rec.now) }
{
    let mark = answer_mark(rec.event, &rec.answer);
    print_reached(alloc, spot, mark, rec, out)
}
