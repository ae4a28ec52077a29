//! A mailbox is made, stores a message, and gives it out; an attention entry is added, found and taken.

use std::test::*;
use vx_base::{Body, BoxNo, Entry, Func, Id, Mode, Msg, Name, Pid, Routine, Scripted};
use vx_mailbox::{AttentionEntry, Attentions, Boxes};

#[test]
fn a_message_is_stored_and_taken(rt: HostRuntime) -> Result<(), Fail> {
    let name = Name::new(b"BOX").ok_or("a name")?;
    let mut boxes = Boxes::new(rt.alloc()).ok().ok_or("memory")?;
    let free = boxes.free().ok_or("a number")?;
    boxes.reserve().ok().ok_or("memory")?;
    boxes.make(free, name, false, 8, 10);
    boxes.reserve().ok().ok_or("memory")?;
    let b = boxes.named(b"BOX").ok_or("a mailbox")?;
    boxes.put(
        b,
        Msg {
            id: Id(1),
            writer: Pid(1),
            body: Body::Eof,
            held: true,
        },
    );
    let b = boxes.named(b"BOX").ok_or("a mailbox")?;
    let oldest = boxes.oldest(b).ok_or("a message")?;
    let msg = boxes.take(b, oldest).ok_or("the message")?;
    assert_eq!(rt; msg.id, Id(1));
    Ok(())
}

#[test]
fn an_entry_is_found_and_taken(rt: HostRuntime) -> Result<(), Fail> {
    let mut attention: Attentions<Scripted> = Attentions::new(rt.alloc());
    attention.reserve().ok().ok_or("memory")?;
    let routine = Scripted::scripted(Entry::Label(0, 1));
    attention.add(AttentionEntry::new(
        Id(1),
        Pid(1),
        2,
        BoxNo(0),
        Func::WrtAttn,
        Mode::User,
        routine,
    ));
    let id = attention
        .first_at(BoxNo(0), Func::WrtAttn)
        .ok_or("an entry")?;
    let entry = attention.take(id).ok_or("the entry")?;
    assert_eq!(rt; entry.p(), Pid(1));
    Ok(())
}
