//! The shapes of a picture.
//!
//! Each function appends its text. If memory runs out, it may have appended the start of it.

ghost use Rattle.std.specs.Prelude.{◌≡◌, ◌<◌, ◌^◌, ◌++◌, OnOk, decimal};
ghost use Rattle.vx_draw.specs.Shapes as spec;

use itoa::Buffer;
use vx_base::{Bytes, NoMemory};

/// A point, by how far right and how far down it is, in units of which a row has 18.
#[derive(Clone, Copy)]
pub struct Point {
    pub x: u128,
    pub y: u128,
}

/// Where row n begins.
pub fn top(n: u64) -> u128
    ensures value { result ≡ spec.top n }
    ensures small { result < 2 ^ 100 }
{
    18 * u128::from(n) + 40
}

/// Where row n ends.
pub fn bottom(n: u64) -> u128
    ensures { result ≡ spec.bottom n }
{
    18 * u128::from(n) + 58
}

/// The middle of row n.
pub fn middle(n: u64) -> u128
    ensures { result ≡ spec.middle n }
{
    18 * u128::from(n) + 49
}

/// Where the text of row n stands.
pub fn base(n: u64) -> u128
    ensures value { result ≡ spec.base n }
    ensures small { result < 2 ^ 100 }
{
    18 * u128::from(n) + 53
}

/// Appends a byte of a text.
#[tactic(auto, unfolding(crate::specs::Shapes::escaped_byte))]
pub fn print_escaped_byte(b: u8, out: &mut Bytes) -> Result<(), NoMemory>
    ensures { OnOk result (out.new ≡ out.old ++ spec.escaped_byte b) }
{
    if b == b'&' {
        out.push_all(b"&amp;")
    } else if b == b'<' {
        out.push_all(b"&lt;")
    } else if b == b'>' {
        out.push_all(b"&gt;")
    } else if b == b'"' {
        out.push_all(b"&quot;")
    } else if b == b'\n' {
        out.push_all(b"&#10;")
    } else if 32 <= b && b <= 126 {
        out.push_all(&[b])
    } else {
        out.push_all(b".")
    }
}

/// Appends a text, of which nothing leaves the element or the attribute that it stands in.
pub fn print_escaped(text: &[u8], out: &mut Bytes) -> Result<(), NoMemory>
    ensures { OnOk result (out.new ≡ out.old ++ spec.escaped text.now) }
{
    for b in text {
        print_escaped_byte(*b, out)?;
    }
    Ok(())
}

/// Appends a number.
pub fn print_coordinate(n: u128, out: &mut Bytes) -> Result<(), NoMemory>
    ensures { OnOk result (out.new ≡ out.old ++ decimal n) }
{
    let mut digits = Buffer::new();
    out.push_all(digits.format(n).as_bytes())
}

/// Appends an attribute, behind the end of the one before.
#[tactic(auto, unfolding(crate::specs::Shapes::attribute))]
pub fn print_attribute(name: &[u8], n: u128, out: &mut Bytes) -> Result<(), NoMemory>
    ensures { OnOk result (out.new ≡ out.old ++ spec.attribute name.now n) }
{
    out.push_all(name)?;
    print_coordinate(n, out)?;
    out.push_all(b"\"")
}

// Appends a point.
#[tactic(auto, unfolding(crate::specs::Shapes::point))]
fn print_point(at: Point, out: &mut Bytes) -> Result<(), NoMemory>
    ensures { OnOk result (out.new ≡ out.old ++ spec.point at.x at.y) }
{
    print_coordinate(at.x, out)?;
    out.push_all(b" ")?;
    print_coordinate(at.y, out)
}

/// Appends a bar of a class, from one height to another.
#[tactic(auto, unfolding(crate::specs::Shapes::bar))]
pub fn print_bar(
    class: &[u8],
    x: u128,
    from: u128,
    until: u128,
    out: &mut Bytes,
) -> Result<(), NoMemory>
    ensures { OnOk result (out.new ≡ out.old ++ spec.bar class.now x from until) }
{
    out.push_all(b"<rect class=\"")?;
    out.push_all(class)?;
    print_attribute(b"\" width=\"9\" x=\"", x, out)?;
    print_attribute(b" y=\"", from, out)?;
    print_attribute(b" height=\"", until.saturating_sub(from), out)?;
    out.push_all(b"/>\n")
}

// Appends the start of a path of a class at a point.
#[tactic(auto, unfolding(crate::specs::Shapes::path_start))]
fn print_path_start(class: &[u8], at: Point, out: &mut Bytes) -> Result<(), NoMemory>
    ensures { OnOk result (out.new ≡ out.old ++ spec.path_start class.now at.x at.y) }
{
    out.push_all(b"<path class=\"")?;
    out.push_all(class)?;
    out.push_all(b"\" d=\"M")?;
    print_point(at, out)
}

/// Appends a line of a class, from one point to another.
#[tactic(auto, unfolding(crate::specs::Shapes::stroke))]
pub fn print_stroke(class: &[u8], from: Point, to: Point, out: &mut Bytes) -> Result<(), NoMemory>
    ensures { OnOk result (out.new ≡ out.old ++ spec.stroke class.now from.x from.y to.x to.y) }
{
    print_path_start(class, from, out)?;
    out.push_all(b"L")?;
    print_point(to, out)?;
    out.push_all(b"\"/>\n")
}

// Appends the start of a text of a class at a point.
#[tactic(auto, unfolding(crate::specs::Shapes::text_start))]
fn print_text_start(class: &[u8], at: Point, out: &mut Bytes) -> Result<(), NoMemory>
    ensures { OnOk result (out.new ≡ out.old ++ spec.text_start class.now at.x at.y) }
{
    out.push_all(b"<text class=\"")?;
    out.push_all(class)?;
    print_attribute(b"\" x=\"", at.x, out)?;
    print_attribute(b" y=\"", at.y, out)?;
    out.push_all(b">")
}

/// Appends a text of a class at a point.
#[tactic(auto, unfolding(crate::specs::Shapes::label))]
pub fn print_label(class: &[u8], at: Point, text: &[u8], out: &mut Bytes) -> Result<(), NoMemory>
    ensures { OnOk result (out.new ≡ out.old ++ spec.label class.now at.x at.y text.now) }
{
    print_text_start(class, at, out)?;
    print_escaped(text, out)?;
    out.push_all(b"</text>\n")
}

// Appends what a pointer shows.
#[tactic(auto, unfolding(crate::specs::Shapes::title))]
fn print_title(text: &[u8], out: &mut Bytes) -> Result<(), NoMemory>
    ensures { OnOk result (out.new ≡ out.old ++ spec.title text.now) }
{
    out.push_all(b"<title>")?;
    print_escaped(text, out)?;
    out.push_all(b"</title>")
}

/// Appends a text of a class at a point, which shows another to a pointer.
#[tactic(auto, unfolding(crate::specs::Shapes::titled))]
pub fn print_titled(
    class: &[u8],
    at: Point,
    text: &[u8],
    shown: &[u8],
    out: &mut Bytes,
) -> Result<(), NoMemory>
    ensures { OnOk result (out.new ≡ out.old ++ spec.titled class.now at.x at.y text.now shown.now) }
{
    print_text_start(class, at, out)?;
    print_escaped(text, out)?;
    print_title(shown, out)?;
    out.push_all(b"</text>\n")
}

/// Appends a figure of a class, drawn from a point on, which shows a text to a pointer.
#[tactic(auto, unfolding(crate::specs::Shapes::figure))]
pub fn print_figure(
    class: &[u8],
    at: Point,
    shape: &[u8],
    shown: &[u8],
    out: &mut Bytes,
) -> Result<(), NoMemory>
    ensures { OnOk result (out.new ≡ out.old ++ spec.figure class.now at.x at.y shape.now shown.now) }
{
    print_path_start(class, at, out)?;
    out.push_all(shape)?;
    out.push_all(b"\">")?;
    print_title(shown, out)?;
    out.push_all(b"</path>\n")
}
