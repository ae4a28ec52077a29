//! A transcript as a picture in SVG.
//!
//! Each function appends its text. If memory runs out, it may have appended the start of it.

ghost use Rattle.std.specs.Prelude.{◌≡◌, ◌+◌, ◌*◌, ◌∷◌, ◌++◌, ◌==◌, ◌<◌, ◌^◌, decimal, flat_map, OnOk, IfOk, length, option_map};
ghost use Rattle.vx_draw.specs.Headings.{has_clusters};
ghost use Rattle.vx_draw.specs.Places.{process_x, box_x, columns_of};
ghost use Rattle.vx_draw.specs.Rows.{rows_text};
ghost use Rattle.vx_draw.specs.Picture as spec;

use crate::boxes::{BoxName, Boxes, boxes_of};
use crate::deed::print_deed;
use crate::ending::Ending;
use crate::frames::Stacks;
use crate::front::{behind, sound_part, wrong_record};
use crate::heading::{has_clusters, process_heading, process_names};
use crate::moves::runs_from;
use crate::places::{Places, anchor, column_x, columns_of};
use crate::rows::{Canvas, print_number_label, print_rows};
use crate::scene::Scene;
use crate::shapes::{
    Point, base, bottom, print_attribute, print_coordinate, print_escaped_byte, print_label,
    print_stroke, top,
};
use crate::style::{HEAD, STYLE};
use crate::trails::Trails;
use std::alloc::Global;
use vx_base::{Bytes, Name, NoMemory, Rec};
use vx_image::{ProcDecl, System, UnitDecl};

/// What a picture is of: a system, the names of its processes and of its mailboxes, and the records that are drawn.
#[derive(Drop)]
struct Subject<'a> {
    system: &'a System,
    names: &'a [Name],
    boxes: &'a Boxes,
    recs: &'a [Rec],
}

impl Subject<'_> {
    // Where its columns begin.
    fn places(&self) -> Places
        ensures { result ≡ columns_of (length self.now.names.now) (length self.now.system.now.units)
            (length self.now.boxes.now) (has_clusters self.now.recs.now) }
    {
        columns_of(
            self.names.len(),
            self.system.units.as_slice().len(),
            self.boxes.len(),
            has_clusters(self.recs),
        )
    }
}

// Appends a heading at x, and its column down to a height.
#[tactic(auto, unfolding(crate::specs::Picture::heading))]
fn print_heading(x: u128, until: u128, text: &[u8], out: &mut Bytes) -> Result<(), NoMemory>
    requires { x < 2 ^ 100 }
    ensures { OnOk result (out.new ≡ out.old ++ spec.heading x until text.now) }
{
    let from = Point { x, y: 40 };
    let to = Point { x, y: until };
    print_stroke(b"rule", from, to, out)?;
    print_label(b"h", Point { x: x + 4, y: 32 }, text, out)
}

// Appends the heading of process n.
fn print_process_heading(
    alloc: Global,
    until: u128,
    n: u64,
    name: &Name,
    out: &mut Bytes,
) -> Result<(), NoMemory>
    ensures { OnOk result (out.new ≡ out.old ++ spec.heading (process_x n) until (decimal n ++ 32 ∷ name.now)) }
{
    let text = process_heading(alloc, n, name)?;
    print_heading(column_x(n), until, text.as_slice(), out)
}

// Appends the headings of the processes.
fn print_process_headings(
    alloc: Global,
    until: u128,
    names: &[Name],
    out: &mut Bytes,
) -> Result<(), NoMemory>
    ensures { OnOk result (out.new ≡ out.old ++ spec.process_headings until 1 names.now) }
{
    for (i, name) in names.iter().enumerate() {
        print_process_heading(alloc, until, i as u64 + 1, name, out)?;
    }
    Ok(())
}

// Where the column of the n-th unit begins, from 0.
fn unit_x(places: Places, n: usize) -> u128
    ensures value { result ≡ places.units + 150 * n }
    ensures small { result < 2 ^ 100 }
{
    u128::from(places.units) + 150 * n as u128
}

// Where the column of the i-th mailbox begins, from 0.
fn wide_box_x(places: Places, i: usize) -> u128
    ensures value { result ≡ box_x places i }
    ensures small { result < 2 ^ 100 }
{
    u128::from(places.boxes) + 120 * i as u128
}

// Appends the headings of the units.
fn print_unit_headings(
    places: Places,
    until: u128,
    units: &[UnitDecl],
    out: &mut Bytes,
) -> Result<(), NoMemory>
    ensures { OnOk result (out.new ≡ out.old ++ spec.unit_headings places until 0 units.now) }
{
    for (i, unit) in units.iter().enumerate() {
        print_heading(unit_x(places, i), until, unit.name.text(), out)?;
    }
    Ok(())
}

// Appends the headings of the mailboxes.
fn print_box_headings(
    places: Places,
    until: u128,
    boxes: &[BoxName],
    out: &mut Bytes,
) -> Result<(), NoMemory>
    ensures { OnOk result (out.new ≡ out.old ++ spec.box_headings places until 0 boxes.now) }
{
    for (i, name) in boxes.iter().enumerate() {
        print_heading(wide_box_x(places, i), until, name.text(), out)?;
    }
    Ok(())
}

// Appends the heading of the last column.
#[tactic(auto, unfolding(crate::specs::Picture::last_heading))]
fn print_last_heading(
    places: Places,
    until: u128,
    clusters: bool,
    out: &mut Bytes,
) -> Result<(), NoMemory>
    ensures { OnOk result (out.new ≡ out.old ++ spec.last_heading places until clusters) }
{
    let text: &[u8] = if clusters { b"clusters" } else { b"" };
    print_heading(u128::from(places.clusters), until, text, out)
}

// Appends the headings of all columns.
#[tactic(auto, unfolding(crate::specs::Picture::headings))]
fn print_headings(
    alloc: Global,
    subject: &Subject<'_>,
    places: Places,
    until: u128,
    out: &mut Bytes,
) -> Result<(), NoMemory>
    ensures { OnOk result (out.new ≡ out.old
        ++ spec.headings places until subject.now.names.now subject.now.system.now.units
        subject.now.boxes.now (has_clusters subject.now.recs.now)) }
{
    let units = subject.system.units.as_slice();
    print_process_headings(alloc, until, subject.names, out)?;
    print_unit_headings(places, until, units, out)?;
    print_box_headings(places, until, subject.boxes.as_slice(), out)?;
    print_last_heading(places, until, has_clusters(subject.recs), out)
}

// Adds the frames of the processes that are there from the start.
fn add_started(alloc: Global, decls: &[ProcDecl], stacks: &mut Stacks) -> Result<(), NoMemory>
    ensures { OnOk result (stacks.new ≡ stacks.old ++ spec.started_stacks decls.now) }
{
    for decl in decls {
        if decl.start {
            stacks.add_running(alloc, runs_from(decl.mode, top(1)))?;
        }
    }
    Ok(())
}

// Adds the processes of these names, without frames.
fn add_others(alloc: Global, names: &[Name], stacks: &mut Stacks) -> Result<(), NoMemory>
    ensures { OnOk result (stacks.new ≡ stacks.old ++ spec.no_frames names.now) }
{
    for _ in names {
        stacks.add(alloc)?;
    }
    Ok(())
}

// What is open before the first record.
fn first_canvas(alloc: Global, decls: &[ProcDecl], names: &[Name]) -> Result<Canvas, NoMemory>
    ensures { IfOk result (λ canvas. canvas ≡ spec.first_canvas decls.now names.now) }
{
    let mut stacks = Stacks::new(alloc);
    add_started(alloc, decls, &mut stacks)?;
    let others = behind(names, stacks.len());
    add_others(alloc, others, &mut stacks)?;
    Ok(Canvas {
        stacks,
        trails: Trails::new(alloc),
    })
}

#[tactic(auto, unfolding(crate::specs::Picture::next_line))]
fn next_line() -> &'static [u8]
    ensures { result.now ≡ spec.next_line }
{
    b"</tspan><tspan x=\"8\" dy=\"18\">"
}

// Appends a byte of the trailer.
#[tactic(auto, unfolding(crate::specs::Picture::trailer_byte))]
fn print_trailer_byte(b: u8, out: &mut Bytes) -> Result<(), NoMemory>
    ensures { OnOk result (out.new ≡ out.old ++ spec.trailer_byte b) }
{
    if b == b'\n' {
        out.push_all(next_line())
    } else {
        print_escaped_byte(b, out)
    }
}

// Appends the bytes of the trailer.
fn print_trailer_bytes(trailer: &[u8], out: &mut Bytes) -> Result<(), NoMemory>
    ensures { OnOk result (out.new ≡ out.old ++ flat_map spec.trailer_byte trailer.now) }
{
    for b in trailer {
        print_trailer_byte(*b, out)?;
    }
    Ok(())
}

#[tactic(auto, unfolding(crate::specs::Picture::trailer_open))]
fn trailer_open() -> &'static [u8]
    ensures { result.now ≡ spec.trailer_open }
{
    b"<text class=\"t\" y=\""
}

#[tactic(auto, unfolding(crate::specs::Picture::first_line))]
fn first_line() -> &'static [u8]
    ensures { result.now ≡ spec.first_line }
{
    b"\"><tspan x=\"8\" dy=\"18\">"
}

// Appends the trailer below row n.
#[tactic(auto, unfolding(crate::specs::Picture::trailer_text))]
fn print_trailer(n: u64, trailer: &[u8], out: &mut Bytes) -> Result<(), NoMemory>
    ensures { OnOk result (out.new ≡ out.old ++ spec.trailer_text n trailer.now) }
{
    out.push_all(trailer_open())?;
    print_coordinate(bottom(n), out)?;
    out.push_all(first_line())?;
    print_trailer_bytes(trailer, out)?;
    out.push_all(b"</tspan></text>\n")
}

// What a record that is not the machine's says.
fn wrong_text(alloc: Global, rec: &Rec) -> Result<Bytes, NoMemory>
    ensures { IfOk result (λ text. text ≡ spec.wrong_text rec.now) }
{
    let mut text = Bytes::new(alloc);
    text.push_all(b"?? ")?;
    print_deed(rec, &mut text)?;
    Ok(text)
}

// Appends the record in row n, which is not the machine's.
#[tactic(auto, unfolding(crate::specs::Picture::wrong_row))]
fn print_wrong_row(
    alloc: Global,
    places: Places,
    n: u64,
    rec: &Rec,
    out: &mut Bytes,
) -> Result<(), NoMemory>
    ensures { OnOk result (out.new ≡ out.old ++ spec.wrong_row places n rec.now) }
{
    let text = wrong_text(alloc, rec)?;
    let at = Point {
        x: anchor(places, rec.event) + 6,
        y: base(n),
    };
    print_number_label(alloc, n, out)?;
    print_label(b"wrong", at, text.as_slice(), out)
}

// Appends what stands below the rows, of which there are n.
#[tactic(auto, unfolding(crate::specs::Picture::below))]
fn print_below(
    alloc: Global,
    places: Places,
    n: u64,
    ending: &Ending<'_>,
    out: &mut Bytes,
) -> Result<(), NoMemory>
    requires { n < 2 ^ 63 }
    ensures { OnOk result (out.new ≡ out.old
        ++ spec.below places n ending.now.wrong (option_map (λ rec. rec.now) ending.now.rec) ending.now.trailer.now) }
{
    match (ending.wrong, ending.rec) {
        (None, _) => print_trailer(n, ending.trailer, out),
        (Some(_), None) => {
            let at = Point {
                x: 8,
                y: base(n + 1),
            };
            print_label(b"wrong", at, b"?? ", out)?;
            print_trailer(n + 1, ending.trailer, out)
        }
        (Some(_), Some(rec)) => print_wrong_row(alloc, places, n + 1, rec, out),
    }
}

// How high a picture of so many rows is.
fn height(n: u64, trailer: &[u8]) -> u128
    requires { n < 2 ^ 63 }
    ensures { result ≡ spec.height n trailer.now }
{
    let lines = trailer.iter().filter(|b| **b == b'\n').count();
    top(n + 5) + 18 * lines as u128
}

// Appends the start.
#[tactic(auto, unfolding(crate::specs::Picture::start))]
fn print_start(width: u128, height: u128, out: &mut Bytes) -> Result<(), NoMemory>
    ensures { OnOk result (out.new ≡ out.old ++ spec.start width height) }
{
    out.push_all(HEAD)?;
    print_attribute(b" width=\"", width, out)?;
    print_attribute(b" height=\"", height, out)?;
    out.push_all(b">\n")?;
    out.push_all(STYLE)
}

// Appends the rows of records, on a canvas of its own.
fn print_canvas(
    alloc: Global,
    subject: &Subject<'_>,
    places: Places,
    out: &mut Bytes,
) -> Result<(), NoMemory>
    ensures { OnOk result (out.new ≡ out.old
        ++ rows_text places subject.now.boxes.now subject.now.system.now.decls 1 subject.now.recs.now
        (spec.first_canvas subject.now.system.now.decls subject.now.names.now)) }
{
    let scene = Scene {
        places,
        boxes: subject.boxes,
        decls: subject.system.decls.as_slice(),
    };
    let mut canvas = first_canvas(alloc, scene.decls, subject.names)?;
    print_rows(alloc, &scene, subject.recs, &mut canvas, out)
}

// Appends a picture, with what stands below the rows.
fn print_all(
    alloc: Global,
    subject: &Subject<'_>,
    places: Places,
    until: u128,
    below: &[u8],
    out: &mut Bytes,
) -> Result<(), NoMemory>
    ensures { OnOk result (out.new ≡ out.old
        ++ spec.with_names places until subject.now.names.now subject.now.boxes.now subject.now.system.now
        subject.now.recs.now below.now) }
{
    print_start(u128::from(places.end), until, out)?;
    print_headings(alloc, subject, places, until, out)?;
    print_canvas(alloc, subject, places, out)?;
    out.push_all(below)?;
    out.push_all(b"</svg>\n")
}

// Appends the picture of a subject.
fn print_named(
    alloc: Global,
    subject: &Subject<'_>,
    ending: &Ending<'_>,
    out: &mut Bytes,
) -> Result<(), NoMemory>
    ensures { OnOk result (out.new ≡ out.old
        ++ spec.named_picture subject.now.names.now subject.now.boxes.now subject.now.system.now subject.now.recs.now
        ending.now.trailer.now ending.now.wrong (option_map (λ rec. rec.now) ending.now.rec)) }
{
    let places = subject.places();
    let rows = subject.recs.len() as u64;
    let mut below = Bytes::new(alloc);
    print_below(alloc, places, rows, ending, &mut below)?;
    let until = height(rows, ending.trailer);
    print_all(alloc, subject, places, until, below.as_slice(), out)
}

/// Appends a transcript as a picture in SVG. `wrong` is the number of the first record that is not the machine's, if one is
/// not: that record is the last that is drawn, and has `??` in front; if there is no record of the number, the trailer has.
pub fn print_picture(
    alloc: Global,
    system: &System,
    recs: &[Rec],
    trailer: &[u8],
    wrong: Option<u32>,
    out: &mut Bytes,
) -> Result<(), NoMemory>
    ensures { OnOk result (out.new ≡ out.old ++ spec.picture system.now recs.now trailer.now wrong) }
{
    let sound = sound_part(wrong, recs);
    let names = process_names(alloc, system, sound)?;
    let boxes = boxes_of(alloc, sound)?;
    let subject = Subject {
        system,
        names: names.as_slice(),
        boxes: &boxes,
        recs: sound,
    };
    let ending = Ending {
        wrong,
        rec: wrong_record(wrong, recs),
        trailer,
    };
    print_named(alloc, &subject, &ending, out)
}
