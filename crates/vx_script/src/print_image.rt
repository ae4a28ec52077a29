//! The canonical lines of an image.

ghost use Rattle.std.specs.Prelude.{OnOk, [], ◌++◌, ◌∷◌, ◌≡◌, ◌≤◌, length, map};
ghost use Rattle.vx_script.specs.Script as spec;
ghost use Rattle.vx_script.specs.Script.{ended_lines};

use crate::print_stmt::print_stmt;
use vx_base::{Bytes, NoMemory};
use vx_image::{Image, Label, Stmts};

fn print_label(label: &Label, out: &mut Bytes) -> Result<(), NoMemory>
    ensures { OnOk result (out.new ≡ out.old ++ (spec.label_line label.now ++ 10 ∷ [])) }
{
    out.push_all(label.name.text())?;
    out.push_all(b":\n")
}

fn print_labels(labels: &[Label], out: &mut Bytes) -> Result<(), NoMemory>
    ensures { OnOk result (out.new ≡ out.old ++ ended_lines (map spec.label_line labels.now)) }
{
    for label in labels {
        print_label(label, out)?;
    }
    Ok(())
}

/// How many labels stand first that name this place or one before it.
fn labels_up_to(place: usize, labels: &[Label]) -> usize
    ensures count { result ≡ spec.labels_up_to place labels.now }
    ensures within { result ≤ length labels.now }
{
    labels
        .iter()
        .take_while(|label| label.place as usize <= place)
        .count()
}

/// Appends the statements, each behind its labels, and the labels of the end.
fn print_body(labels: &[Label], stmts: &Stmts, out: &mut Bytes) -> Result<(), NoMemory>
    ensures { OnOk result (out.new ≡ out.old
        ++ ended_lines (spec.body_lines labels.now 0 labels.now stmts.now)) }
{
    let mut left = labels;
    for place in 0..stmts.len() {
        let (own, behind) = left.split_at(labels_up_to(place, left));
        print_labels(own, out)?;
        print_stmt(labels, &stmts.at(place), out)?;
        left = behind;
    }
    print_labels(left, out)
}

/// Appends an image, from IMAGE to END.
pub fn print_image(image: &Image, out: &mut Bytes) -> Result<(), NoMemory>
    ensures { OnOk result (out.new ≡ out.old ++ ended_lines (spec.image_lines image.now)) }
{
    out.push_all(b"IMAGE ")?;
    out.push_all(image.name.text())?;
    out.push_all(b"\n")?;
    print_body(image.labels.as_slice(), &image.stmts, out)?;
    out.push_all(b"END\n")
}
