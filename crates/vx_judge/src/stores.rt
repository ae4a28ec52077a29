//! The messages that mailboxes store, the oldest first.

ghost use Rattle.std.specs.Prelude.{◌≡◌, ℕ, List, ◌∷◌, OnOk, if◌then◌else◌, bytes_eq, position, IfSome, length, ◌<◌};
ghost use Rattle.std.specs.List.{list_any};
ghost use Rattle.vx_base.specs.Lists.{less};
ghost use Rattle.vx_laws.specs.Boxes.{this_stored, stored_at};
ghost use Rattle.vx_laws.specs.Items.{Item, Did};
ghost use Rattle.vx_judge.specs.BoxLists.{listed};
ghost use Rattle.vx_judge.specs.Stores.{AreStored};

use crate::box_lists::BoxLists;
use crate::message::Message;
use crate::text::Text;
use vx_base::{Effect, Id, NoMemory, take_out};

/// What the box of a name stores; nothing without a name.
pub fn stored_at(stores: &BoxLists<Message>, device: Option<Text>) -> &[Message]
    ensures { (past : List Item) → AreStored stores.now past → result.now ≡ stored_at past device }
{
    match device {
        Some(name) => stores.at(&name),
        None => &[],
    }
}

/// Whether one of them is of this id.
pub fn is_stored(messages: &[Message], id: Id) -> bool
    ensures { result ≡ list_any (this_stored id) messages.now }
{
    messages.iter().any(|m| m.id().0 == id.0)
}

// Where the first of an id stands.
fn place_of(messages: &[Message], id: Id) -> Option<usize>
    ensures place { result ≡ position (this_stored id) messages.now }
    ensures within { IfSome result (λ i. i < length messages.now) }
{
    messages.iter().position(|m| m.id().0 == id.0)
}

// Takes out the first of an id at a box.
fn cut(stores: &mut BoxLists<Message>, name: Text, id: Id) -> Result<(), NoMemory>
    ensures { OnOk result ((other : List ℕ) → listed stores.new other ≡ (if bytes_eq name other then less (this_stored id) (listed stores.old other) else listed stores.old other)) }
{
    let mut messages = stores.take(&name);
    let place = place_of(messages.as_slice(), id);
    take_out(&mut messages, place);
    stores.set(name, messages)
}

/// Goes past an effect: MPUT stores a message behind the others of its box, MGET and MCUT take it out, MBX empties the box.
pub fn pass_effect(stores: &mut BoxLists<Message>, effect: &Effect) -> Result<(), NoMemory>
    ensures { OnOk result ((past : List Item) → AreStored stores.old past → AreStored stores.new (Did effect.now ∷ past)) }
{
    match effect {
        Effect::Mbx { name, .. } => {
            stores.take(&Text::of(name));
            Ok(())
        }
        Effect::MPut { name, id, body } => {
            let message = Message::copy_of(*id, body)?;
            stores.push(Text::of(name), message)?;
            Ok(())
        }
        Effect::MGet { name, w, .. } => cut(stores, Text::of(name), *w),
        Effect::MCut { name, w } => cut(stores, Text::of(name), *w),
        _ => Ok(()),
    }
}
