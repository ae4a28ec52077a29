//! The canonical line of a statement.

ghost use Rattle.std.specs.Prelude.{OnOk, [], ◌++◌, ◌∷◌, ◌≡◌};
ghost use Rattle.vx_script.specs.Script as spec;
ghost use Rattle.vx_script.specs.Script.{spaced};
ghost use Rattle.vx_script.specs.Statements.{rel_name, field_name};
ghost use Rattle.vx_image.specs.Stmts.{meant};
ghost use Rattle.vx_image.specs.declared.stmt.Stmt.TheVariants as stmt;
ghost use Rattle.vx_table.specs.Spelling.{call_text, operand_text};

use crate::print_word::{print_number, print_place, print_text, print_value, print_word};
use vx_base::{Bytes, Call, NoMemory, Operand, Target};
use vx_image::{Field, Label, Rel, StmtRef};
use vx_table::append_call;

fn rel_name(rel: Rel) -> &'static [u8]
    ensures { result.now ≡ rel_name rel }
{
    match rel {
        Rel::Eq => b"EQ",
        Rel::Ne => b"NE",
        Rel::Lt => b"LT",
        Rel::Ge => b"GE",
    }
}

fn field_name(field: Field) -> &'static [u8]
    ensures { result.now ≡ field_name field }
{
    match field {
        Field::Status => b"STATUS",
        Field::Count => b"COUNT",
        Field::Info => b"INFO",
    }
}

/// The name of the label at a place of the list, empty if there is none.
fn label_name(labels: &[Label], place: u32) -> &[u8]
    ensures { result.now ≡ spec.label_name labels.now place }
{
    match labels.get(place as usize) {
        Some(label) => label.name.text(),
        None => &[],
    }
}

// LET, a target, = and a value.
fn print_let(target: Target, value: Operand, out: &mut Bytes) -> Result<(), NoMemory>
    ensures { OnOk result (out.new ≡ out.old
        ++ spaced (spec.let_words target value)) }
{
    print_word(b"LET", out)?;
    print_place(target, out)?;
    print_word(b"=", out)?;
    print_value(value, out)
}

// GOTO and a label.
fn print_goto(labels: &[Label], place: u32, out: &mut Bytes) -> Result<(), NoMemory>
    ensures { OnOk result (out.new ≡ out.old ++ spaced (spec.goto_words labels.now place)) }
{
    print_word(b"GOTO", out)?;
    print_word(label_name(labels, place), out)
}

// LET, a target, =, a value, a sign and a value.
fn print_sum(
    target: Target,
    x: Operand,
    sign: &[u8],
    y: Operand,
    out: &mut Bytes,
) -> Result<(), NoMemory>
    ensures { OnOk result (out.new ≡ out.old
        ++ spaced (spec.let_words target x ++ sign.now ∷ operand_text y ∷ [])) }
{
    print_let(target, x, out)?;
    print_word(sign, out)?;
    print_value(y, out)
}

// IF, two values with how they compare, GOTO and a label.
fn print_if(
    labels: &[Label],
    x: Operand,
    rel: Rel,
    y: Operand,
    place: u32,
    out: &mut Bytes,
) -> Result<(), NoMemory>
    ensures { OnOk result (out.new ≡ out.old ++ spaced (spec.stmt_words labels.now (stmt.If x rel y place))) }
{
    print_word(b"IF", out)?;
    print_value(x, out)?;
    print_word(rel_name(rel), out)?;
    print_value(y, out)?;
    print_goto(labels, place, out)
}

// PUT, a buffer and a quoted text.
fn print_put(buffer: u8, bytes: &[u8], out: &mut Bytes) -> Result<(), NoMemory>
    ensures { OnOk result (out.new ≡ out.old ++ spaced (spec.stmt_words [] (stmt.Put buffer bytes.now))) }
{
    print_word(b"PUT", out)?;
    print_number(u32::from(buffer), out)?;
    print_text(bytes, out)
}

// BYTE, a target, a buffer and a value.
fn print_byte(target: Target, buffer: u8, x: Operand, out: &mut Bytes) -> Result<(), NoMemory>
    ensures { OnOk result (out.new ≡ out.old ++ spaced (spec.stmt_words [] (stmt.Byte target buffer x))) }
{
    print_word(b"BYTE", out)?;
    print_place(target, out)?;
    print_number(u32::from(buffer), out)?;
    print_value(x, out)
}

// IOSB, a target, the number of a status block and a field of it.
fn print_iosb(target: Target, block: u8, field: Field, out: &mut Bytes) -> Result<(), NoMemory>
    ensures { OnOk result (out.new ≡ out.old ++ spaced (spec.stmt_words [] (stmt.Iosb target block field))) }
{
    print_word(b"IOSB", out)?;
    print_place(target, out)?;
    print_number(u32::from(block), out)?;
    print_word(field_name(field), out)
}

// Appends a call behind a space.
fn print_call(call: &Call, out: &mut Bytes) -> Result<(), NoMemory>
    ensures { OnOk result (out.new ≡ out.old ++ 32 ∷ call_text call.now) }
{
    out.push_all(b" ")?;
    append_call(call, out)
}

// The words of a statement, each behind a space.
fn print_words(labels: &[Label], stmt: &StmtRef<'_>, out: &mut Bytes) -> Result<(), NoMemory>
    ensures { OnOk result (out.new ≡ out.old ++ spaced (spec.stmt_words labels.now (meant stmt.now))) }
{
    match stmt {
        StmtRef::Let(t, x) => print_let(*t, *x, out),
        StmtRef::Add(t, x, y) => print_sum(*t, *x, b"+", *y, out),
        StmtRef::Sub(t, x, y) => print_sum(*t, *x, b"-", *y, out),
        StmtRef::Goto(k) => print_goto(labels, *k, out),
        StmtRef::If(x, r, y, k) => print_if(labels, *x, *r, *y, *k, out),
        StmtRef::Put(b, bytes) => print_put(*b, bytes, out),
        StmtRef::Byte(t, b, x) => print_byte(*t, *b, *x, out),
        StmtRef::Iosb(t, i, f) => print_iosb(*t, *i, *f, out),
        StmtRef::Return => print_word(b"RETURN", out),
        StmtRef::Service(call) => print_call(&call.call(), out),
    }
}

/// Appends a statement's line, if the image has these labels.
pub fn print_stmt(labels: &[Label], stmt: &StmtRef<'_>, out: &mut Bytes) -> Result<(), NoMemory>
    ensures { OnOk result (out.new ≡ out.old ++ (spec.stmt_line labels.now (meant stmt.now) ++ 10 ∷ [])) }
{
    out.push_all(b" ")?;
    print_words(labels, stmt, out)?;
    out.push_all(b"\n")
}
