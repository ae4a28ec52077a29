//! What stands behind a message that is handed over or withdrawn.

ghost use Rattle.std.specs.Prelude.{◌≡◌, take};
ghost use Rattle.std.specs.List.{list_any, list_all};
ghost use Rattle.vx_laws.specs.Lives.{Life as FullLife};
ghost use Rattle.vx_laws.specs.MessageLaw.{read_cond as read_cond_of, read_bytes as read_bytes_of, puts_bytes as puts_bytes_of, counts_right as counts_right_of, told_read as told_read_of, is_cancelled_next as is_cancelled_next_of, is_taken_by as is_taken_by_of, hands_over as hands_over_of};
ghost use Rattle.vx_laws.specs.StatusLaw.{to_next_fin};

use crate::behind::to_next;
use crate::near::is_cond;
use vx_base::{Body, Cond, Effect, Id, Name, Pid};

/// Whether FIN of this id with CANCEL stands next.
pub fn is_cancelled_next(id: Id, later: &[Effect]) -> bool
    ensures { result ≡ is_cancelled_next_of id later.now }
{
    match later.first() {
        Some(Effect::Fin { id: i, cond }) => i.0 == id.0 && is_cond(*cond, Cond::Cancel),
        _ => false,
    }
}

// It hands a message to this read.
fn is_taken_by(read: Id, effect: &Effect) -> bool
    ensures { result ≡ is_taken_by_of read effect.now }
{
    match effect {
        Effect::MGet { r, .. } => r.0 == read.0,
        _ => false,
    }
}

/// Whether one of them hands a message to this read.
pub fn is_taken(read: Id, later: &[Effect]) -> bool
    ensures { result ≡ list_any (is_taken_by_of read) later.now }
{
    later.iter().any(|effect| is_taken_by(read, effect))
}

/// Whether a message goes at once to the read that waits, if there is one, and only then.
pub fn hands_over(name: &Name, write: Id, read: Option<Id>, later: &[Effect]) -> bool
    ensures { result ≡ hands_over_of name.now write read later.now }
{
    match later.first() {
        Some(
            Effect::MGet {
                name: box_name,
                w,
                r,
            },
        ) => match read {
            Some(read) => *box_name == *name && w.0 == write.0 && r.0 == read.0,
            None => false,
        },
        _ => read.is_none(),
    }
}

// The condition of a reader of so many bytes.
fn read_cond(len: u32, body: &Body) -> Cond
    ensures { result ≡ read_cond_of len body.now }
{
    match body {
        Body::Eof => Cond::EndOfFile,
        Body::Text(bytes) => {
            if (len as usize) < bytes.len() {
                Cond::BufferOvf
            } else {
                Cond::Normal
            }
        }
    }
}

// So many of the bytes, or all of them.
#[tactic(auto, using(crate::proofs::Loops::all_taken))]
fn first_bytes(len: u32, bytes: &[u8]) -> &[u8]
    ensures { result.now ≡ take len bytes.now }
{
    if (len as usize) < bytes.len() {
        &bytes[..len as usize]
    } else {
        bytes
    }
}

// The bytes that such a reader takes.
fn read_bytes(len: u32, body: &Body) -> &[u8]
    ensures { result.now ≡ read_bytes_of len body.now }
{
    match body {
        Body::Eof => first_bytes(len, &[]),
        Body::Text(bytes) => first_bytes(len, bytes.as_slice()),
    }
}

// The bytes that were read stand next, if there are any.
fn puts_bytes(p: Pid, bytes: &[u8], later: &[Effect]) -> bool
    ensures { result ≡ puts_bytes_of p bytes.now later.now }
{
    match (bytes.split_first(), later.first()) {
        (None, Some(Effect::Buf { .. })) => false,
        (None, _) => true,
        (
            Some(_),
            Some(
                Effect::Buf {
                    p: q,
                    bytes: told,
                    ..
                },
            ),
        ) => { q.0 == p.0 && told.as_slice() == bytes }
        (Some(_), _) => false,
    }
}

// A status block tells this number of bytes and this writer.
fn counts_right(count: usize, writer: Pid, effect: &Effect) -> bool
    ensures { result ≡ counts_right_of count writer effect.now }
{
    match effect {
        Effect::Iosb { count: n, info, .. } => *n as usize == count && *info == writer.0,
        _ => true,
    }
}

// Each that is written before the next FIN does.
fn all_count_right(count: usize, writer: Pid, later: &[Effect]) -> bool
    ensures { result ≡ list_all (counts_right_of count writer) (to_next_fin later.now) }
{
    to_next(later)
        .iter()
        .all(|effect| counts_right(count, writer, effect))
}

/// Whether the read finishes next, with the bytes of the message for which it has room, their number and the writer.
pub fn told_read(read: Id, p: Pid, writer: Pid, len: u32, body: &Body, later: &[Effect]) -> bool
    ensures { (l : FullLife) → p ≡ l.p → result ≡ told_read_of read l writer len body.now later.now }
{
    match later.split_first() {
        Some((Effect::Fin { id, cond }, more)) => {
            let bytes = read_bytes(len, body);
            id.0 == read.0
                && is_cond(*cond, read_cond(len, body))
                && puts_bytes(p, bytes, more)
                && all_count_right(bytes.len(), writer, more)
        }
        _ => false,
    }
}
