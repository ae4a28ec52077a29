//! Messages that are compared, copied and mixed into a digest.

ghost use Rattle.std.specs.Prelude.{◌≡◌, ◌↔◌, IfOk, IsTrue};
ghost use Rattle.vx_mailbox.specs.Digest.{mix_messages};

use std::alloc::Global;
use vx_base::{Body, Msg, NoMemory};
use vx_same::mix;

// Whether two messages are the same.
fn same_message(a: &Msg, b: &Msg) -> bool
    ensures { IsTrue result ↔ (a.now ≡ b.now) }
{
    *a == *b
}

/// Whether two lists of messages are the same. Takes no memory.
pub(crate) fn same_messages(a: &[Msg], b: &[Msg]) -> bool
    ensures { IsTrue result ↔ (a.now ≡ b.now) }
{
    if a.len() != b.len() {
        return false;
    }
    for (i, msg) in a.iter().enumerate() {
        if !same_message(msg, &b[i]) {
            return false;
        }
    }
    true
}

/// A digest with messages. Takes no memory.
pub(crate) fn mix_messages(digest: u64, messages: &[Msg]) -> u64
    ensures { result ≡ mix_messages digest messages.now }
{
    let mut mixed = digest;
    for m in messages {
        mixed = mix(mix(mixed, m.id.0 as u64), m.writer.0 as u64);
    }
    mixed
}

fn duplicate_body(body: &Body) -> Result<Body, NoMemory>
    ensures { IfOk result (λ copy. copy ≡ body.now) }
{
    match body {
        Body::Text(bytes) => Ok(Body::Text(bytes.copy()?)),
        Body::Eof => Ok(Body::Eof),
    }
}

/// The same message again.
pub(crate) fn duplicate_message(msg: &Msg) -> Result<Msg, NoMemory>
    ensures { IfOk result (λ copy. copy ≡ msg.now) }
{
    Ok(Msg {
        id: msg.id,
        writer: msg.writer,
        body: duplicate_body(&msg.body)?,
        held: msg.held,
    })
}

/// The same messages again, in room for exactly these.
pub(crate) fn duplicate_messages(alloc: Global, messages: &[Msg]) -> Result<Vec<Msg>, NoMemory>
    ensures { IfOk result (λ copy. copy.items ≡ messages.now) }
{
    let mut copy = Vec::with_capacity(alloc, messages.len())?;
    for msg in messages {
        copy.push(duplicate_message(msg)?)?;
    }
    Ok(copy)
}
