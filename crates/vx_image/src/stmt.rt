//! Statements of an image.

ghost use Rattle.std.specs.Prelude.{◌≡◌, ◌↔◌, IsTrue};
ghost use Rattle.vx_image.specs.Stmts.{meant};

use crate::call_ref::CallRef;
use vx_base::{Bytes, Call, Operand, Target};

/// How two values are compared, as numbers without a sign.
#[derive(Clone, Copy, Debug, PartialEq, Eq)]
pub enum Rel {
    /// Equal.
    Eq,
    /// Not equal.
    Ne,
    /// Less.
    Lt,
    /// Not less.
    Ge,
}

/// A field of an I/O status block.
#[derive(Clone, Copy, Debug, PartialEq, Eq)]
pub enum Field {
    /// The condition's number, 0 if the block is cleared.
    Status,
    /// The count of bytes.
    Count,
    /// The device's information.
    Info,
}

/// A statement of an image. All but the last two are local: they change the store of their process, and where it goes on.
/// Labels are named by their places in the image's list of labels, from 0; buffers by 0 to 31; status blocks by 1 to 32.
#[derive(Drop)]
pub enum Stmt {
    /// Puts a value into a target.
    Let(Target, Operand),
    /// Puts a sum into a target, modulo 2^32.
    Add(Target, Operand, Operand),
    /// Puts a difference into a target, modulo 2^32.
    Sub(Target, Operand, Operand),
    /// Goes on at a label.
    Goto(u32),
    /// Goes on at a label if two values compare so.
    If(Operand, Rel, Operand, u32),
    /// Writes bytes over the start of a buffer.
    Put(u8, Bytes),
    /// Puts the byte of a buffer at a place into a target, 0 past the buffer's end.
    Byte(Target, u8, Operand),
    /// Puts a field of a status block into a target.
    Iosb(Target, u8, Field),
    /// Returns from a routine; in the main frame, exits.
    Return,
    /// Calls a service.
    Service(Call),
}

/// A statement that was read from a list: a `Stmt` whose bytes, or whose call's arguments, stand in the list.
#[derive(Drop)]
pub enum StmtRef<'a> {
    Let(Target, Operand),
    Add(Target, Operand, Operand),
    Sub(Target, Operand, Operand),
    Goto(u32),
    If(Operand, Rel, Operand, u32),
    Put(u8, &'a [u8]),
    Byte(Target, u8, Operand),
    Iosb(Target, u8, Field),
    Return,
    Service(CallRef<'a>),
}

// Whether two operands are the same as two others.
fn same_pair(x: Operand, y: Operand, x2: Operand, y2: Operand) -> bool
    ensures { IsTrue result ↔ ((x ≡ x2) × (y ≡ y2)) }
{
    x == x2 && y == y2
}

/// Whether two statements are the same.
pub(crate) fn same_stmt(a: &StmtRef<'_>, b: &StmtRef<'_>) -> bool
    ensures { IsTrue result ↔ (meant a.now ≡ meant b.now) }
{
    match (a, b) {
        (StmtRef::Let(t, x), StmtRef::Let(t2, x2)) => t == t2 && x == x2,
        (StmtRef::Add(t, x, y), StmtRef::Add(t2, x2, y2)) => t == t2 && same_pair(*x, *y, *x2, *y2),
        (StmtRef::Sub(t, x, y), StmtRef::Sub(t2, x2, y2)) => t == t2 && same_pair(*x, *y, *x2, *y2),
        (StmtRef::Goto(k), StmtRef::Goto(k2)) => k == k2,
        (StmtRef::If(x, r, y, k), StmtRef::If(x2, r2, y2, k2)) => {
            r == r2 && k == k2 && same_pair(*x, *y, *x2, *y2)
        }
        (StmtRef::Put(b, bytes), StmtRef::Put(b2, bytes2)) => b == b2 && *bytes == *bytes2,
        (StmtRef::Byte(t, b, x), StmtRef::Byte(t2, b2, x2)) => t == t2 && b == b2 && x == x2,
        (StmtRef::Iosb(t, i, f), StmtRef::Iosb(t2, i2, f2)) => t == t2 && i == i2 && f == f2,
        (StmtRef::Return, StmtRef::Return) => true,
        (StmtRef::Service(call), StmtRef::Service(call2)) => call.call().same(&call2.call()),
        _ => false,
    }
}
