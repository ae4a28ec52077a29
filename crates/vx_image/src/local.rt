//! One local statement.

ghost use Rattle.std.specs.Prelude.{◌≡◌, ◌<◌, ◌≤◌, IsTrue, Some, None, MatchOption, slice_index};
ghost use Rattle.vx_image.specs.Local.{value_of, sum_of, difference_of, compares, field_of, place_of, local, is_storable};
ghost use Rattle.vx_image.specs.Stmts.{meant};
ghost use Rattle.vx_image.specs.Storage.{buffer_at, status_at};

use crate::image::Image;
use crate::stmt::{Field, Rel, StmtRef};
use crate::store::Store;
use vx_base::{Operand, Pid, Target};

/// The value of an operand: `prm` is the parameter of the top frame, `p` the process.
pub(crate) fn value_of(store: &Store, prm: u32, p: Pid, x: Operand) -> u32
    ensures { result ≡ value_of (record { prm = prm; p = p }) store.now x }
{
    match x {
        Operand::Num(n) => n,
        Operand::Cond(cond) => cond.number(),
        Operand::Var(v) => store.value(Target::Var(v)),
        Operand::R0 => store.value(Target::R0),
        Operand::Pid => p.0,
        Operand::Prm => prm,
    }
}

fn sum_of(a: u32, b: u32) -> u32
    ensures { result ≡ sum_of a b }
{
    a.wrapping_add(b)
}

fn difference_of(a: u32, b: u32) -> u32
    ensures { result ≡ difference_of a b }
{
    a.wrapping_sub(b)
}

fn compares(rel: Rel, a: u32, b: u32) -> bool
    ensures { result ≡ compares rel a b }
{
    match rel {
        Rel::Eq => a == b,
        Rel::Ne => a != b,
        Rel::Lt => a < b,
        Rel::Ge => a >= b,
    }
}

fn field_of(store: &Store, i: u8, field: Field) -> u32
    requires low { 1 ≤ i }
    requires high { i ≤ 32 }
    ensures { result ≡ field_of (status_at store.now i) field }
{
    let (cond, count, info) = store.iosb(i as u32);
    match field {
        Field::Status => match cond {
            Some(cond) => cond.number(),
            None => 0,
        },
        Field::Count => count,
        Field::Info => info,
    }
}

fn byte_at(store: &Store, b: u8, at: u32) -> u32
    requires { b < 32 }
    ensures { result ≡ slice_index (buffer_at store.now b) at }
{
    match store.buf(b as u32).get(at as usize) {
        Some(byte) => *byte as u32,
        None => 0,
    }
}

// The place that a label names.
fn place_of(image: &Image, k: u32) -> u32
    ensures { result ≡ place_of image.now k }
{
    match image.labels.as_slice().get(k as usize) {
        Some(label) => label.place,
        None => 0,
    }
}

/// Runs the statement at a place, and gives the place where it goes on, or none if it is not local: then nothing changes.
pub(crate) fn local(
    image: &Image,
    store: &mut Store,
    prm: u32,
    p: Pid,
    place: u32,
    stmt: &StmtRef<'_>,
) -> Option<u32>
    requires place { place < 10000 }
    requires storable { IsTrue (is_storable (meant stmt.now)) }
    ensures { MatchOption result ((local image.now (record { prm = prm; p = p }) store.old place (meant stmt.now) ≡ None) × (store.new ≡ store.old)) (λ next. local image.now (record { prm = prm; p = p }) store.old place (meant stmt.now) ≡ Some (record { store = store.new; place = next })) }
{
    match stmt {
        StmtRef::Let(target, x) => {
            let n = value_of(store, prm, p, *x);
            store.set(*target, n);
        }
        StmtRef::Add(target, x, y) => {
            let n = sum_of(value_of(store, prm, p, *x), value_of(store, prm, p, *y));
            store.set(*target, n);
        }
        StmtRef::Sub(target, x, y) => {
            let n = difference_of(value_of(store, prm, p, *x), value_of(store, prm, p, *y));
            store.set(*target, n);
        }
        StmtRef::Goto(label) => return Some(place_of(image, *label)),
        StmtRef::If(x, rel, y, label) => {
            if compares(
                *rel,
                value_of(store, prm, p, *x),
                value_of(store, prm, p, *y),
            ) {
                return Some(place_of(image, *label));
            }
        }
        StmtRef::Put(b, bytes) => store.put(*b as u32, bytes),
        StmtRef::Byte(target, b, x) => {
            let n = byte_at(store, *b, value_of(store, prm, p, *x));
            store.set(*target, n);
        }
        StmtRef::Iosb(target, i, field) => {
            let n = field_of(store, *i, *field);
            store.set(*target, n);
        }
        StmtRef::Return | StmtRef::Service(_) => return None,
    }
    Some(place + 1)
}
