//! The end of an image: its labels are looked up.

ghost use Rattle.std.specs.Prelude.{◌≡◌, ◌++◌, OnOk, IfOk, map, unwrap_or};
ghost use Rattle.vx_base.specs.Services.{args_list};
ghost use Rattle.vx_script.specs.Places.{label_place};
ghost use Rattle.vx_script.specs.Resolving as spec;

use crate::draft::{Draft, DraftImage, DraftLine};
use crate::lines::Creation;
use crate::parts::Parts;
use std::alloc::Global;
use vx_base::{Arg, Call, Name, NoMemory, Sequence, Service};
use vx_image::{Image, Label, Labels, Stmt, Stmts};
use vx_names::Register;
use vx_table::args_list;

/// The earlier of two lines.
pub fn least_line(a: Option<u32>, b: Option<u32>) -> Option<u32>
    ensures { result ≡ spec.least_line a b }
{
    match (a, b) {
        (None, b) => b,
        (a, None) => a,
        (Some(a), Some(b)) => Some(if a <= b { a } else { b }),
    }
}

fn is_label(labels: &Register<Label>, name: Name) -> bool
    ensures { result ≡ spec.is_label labels.now name }
{
    labels.place(name).is_some()
}

// An argument names a label that is not there.
fn arg_names_none(labels: &Register<Label>, arg: &Arg) -> bool
    ensures { result ≡ spec.arg_names_none labels.now arg.now }
{
    match arg {
        Arg::Label(Some(name)) => !is_label(labels, *name),
        _ => false,
    }
}

fn call_names_none(labels: &Register<Label>, call: &Call) -> bool
    ensures { result ≡ spec.call_names_none labels.now call.now }
{
    args_list(&call.args)
        .iter()
        .any(|arg| arg_names_none(labels, arg))
}

fn names_no_label(labels: &Register<Label>, line: &DraftLine) -> bool
    ensures { result ≡ spec.names_no_label labels.now line.now }
{
    match &line.draft {
        Draft::Goto(label) | Draft::If(_, _, _, label) => !is_label(labels, *label),
        Draft::Plain(Stmt::Service(call)) => call_names_none(labels, call),
        Draft::Plain(_) => false,
    }
}

// The first line that names a label not in its image.
fn first_unlabelled(image: &DraftImage) -> Option<u32>
    ensures { result ≡ spec.first_unlabelled image.now }
{
    image
        .lines
        .as_slice()
        .iter()
        .find(|line| names_no_label(&image.labels, line))
        .map(|line| line.line)
}

// Appends the process declaration that a call names, if it does.
fn push_creation(line: u32, call: &Call, creations: &mut Sequence<Creation>) -> Result<(), NoMemory>
    ensures { OnOk result (creations.new ≡ creations.old ++ spec.created_by line call.now.service call.now.args.a1) }
{
    match (call.service, call.args.a1) {
        (Service::CrePrc, Arg::Name(name)) => creations.push(Creation { line, name }),
        _ => Ok(()),
    }
}

// Appends the process declaration that a statement names, if it does.
fn push_creation_of(line: &DraftLine, creations: &mut Sequence<Creation>) -> Result<(), NoMemory>
    ensures { OnOk result (creations.new ≡ creations.old ++ spec.creation_of line.now) }
{
    match &line.draft {
        Draft::Plain(Stmt::Service(call)) => push_creation(line.line, call, creations),
        _ => Ok(()),
    }
}

// Appends the process declarations that statements name.
fn push_creations(lines: &[DraftLine], creations: &mut Sequence<Creation>) -> Result<(), NoMemory>
    ensures { OnOk result (creations.new ≡ creations.old ++ spec.creations_of lines.now) }
{
    for line in lines {
        push_creation_of(line, creations)?;
    }
    Ok(())
}

// Where a label stands; 0 if it is none, which is a fault.
fn label_number(labels: &Register<Label>, label: Name) -> u32
    ensures { result ≡ unwrap_or (label_place label labels.now) 0 }
{
    labels.place(label).unwrap_or(0)
}

// The statement of a draft.
fn settled(labels: &Register<Label>, draft: Draft) -> Stmt
    ensures { result ≡ spec.settled labels.now draft }
{
    match draft {
        Draft::Goto(label) => Stmt::Goto(label_number(labels, label)),
        Draft::If(x, rel, y, label) => Stmt::If(x, rel, y, label_number(labels, label)),
        Draft::Plain(stmt) => stmt,
    }
}

fn settle_all(
    alloc: Global,
    labels: &Register<Label>,
    lines: Vec<DraftLine>,
) -> Result<Stmts, NoMemory>
    ensures { IfOk result (λ stmts. stmts ≡ map (λ d. spec.settled labels.now d.draft) lines.items) }
{
    let mut stmts = Stmts::new(alloc);
    for line in lines {
        stmts.push(settled(labels, line.draft))?;
    }
    Ok(stmts)
}

// The image of a draft.
fn image_of(alloc: Global, image: DraftImage) -> Result<Image, NoMemory>
    ensures { IfOk result (λ i. i ≡ spec.image_of image) }
{
    let DraftImage {
        name,
        labels,
        lines,
    } = image;
    let stmts = settle_all(alloc, &labels, lines.into_vec())?;
    Ok(Image {
        name,
        labels: Labels::from_vec(labels.into_vec()),
        stmts,
    })
}

/// Adds an image that is ended, with what it names.
pub fn with_image(alloc: Global, parts: &mut Parts, image: DraftImage) -> Result<(), NoMemory>
    ensures { OnOk result (parts.new ≡ spec.with_image parts.old image) }
{
    push_creations(image.lines.as_slice(), &mut parts.creations)?;
    parts.unlabelled = least_line(parts.unlabelled, first_unlabelled(&image));
    parts.images.push(image_of(alloc, image)?)?;
    Ok(())
}
