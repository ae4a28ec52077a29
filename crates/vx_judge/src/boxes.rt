//! The law of mailboxes.

ghost use Rattle.std.specs.Prelude.{◌≡◌, List, Option as OptionOf, map, ◌++◌, IfOk, option_map, true};
ghost use Rattle.vx_base.specs.Lists.{is_some_and};
ghost use Rattle.vx_record.specs.Types.{Rec as RecOf, System as SystemOf};
ghost use Rattle.vx_record.specs.Runs.{IsRun};
ghost use Rattle.vx_laws.specs.Boxes.{is_at as is_at_of};
ghost use Rattle.vx_laws.specs.Items.{Item, Did, flat, calling};
ghost use Rattle.vx_laws.specs.Lives.{Life as FullLife};
ghost use Rattle.vx_laws.specs.MessageLaw.{messages, handles_messages, takes_oldest as takes_oldest_of, told_reader as told_reader_of, is_stored_nowhere as is_stored_nowhere_of, reads_where_stored as reads_where_stored_of};
ghost use Rattle.vx_judge.specs.Channels.{AreNames};
ghost use Rattle.vx_judge.specs.Following.{KnowsBoxes};
ghost use Rattle.vx_judge.specs.Lives.{kept, IsOf};
ghost use Rattle.vx_judge.specs.Places.{past_in};
ghost use Rattle.vx_judge.specs.Requests.{asked_by, AreAsked};
ghost use Rattle.vx_judge.specs.Stores.{AreStored};

use crate::asked::Asked;
use crate::box_lists::BoxLists;
use crate::channels::Channels;
use crate::handed::{hands_over, is_cancelled_next, is_taken, told_read};
use crate::judge::{Judge, holds_throughout};
use crate::life::{Life, is_request};
use crate::lives::Lives;
use crate::message::Message;
use crate::near::is_cond;
use crate::requests::{Requests, is_at, reads_in};
use crate::text::Text;
use crate::{readers, stores};
use std::alloc::Global;
use vx_base::{Body, Cond, Effect, Id, Name, NoMemory, Rec};
use vx_laws::every_run_keeps_mailboxes;

// The read finishes next, and is told the message and its writer.
fn is_told(
    read: Id,
    writer: Option<Life>,
    body: &Body,
    reader: Option<Life>,
    asked: Option<Asked>,
    later: &[Effect],
) -> bool
    ensures { (written full : OptionOf FullLife) → writer ≡ option_map kept written → reader ≡ option_map kept full → asked ≡ option_map asked_by full → result ≡ is_some_and (λ w. is_some_and (λ l. told_reader_of read w.p body.now later.now l l.by) full) written }
{
    match (writer, reader, asked) {
        (Some(w), Some(l), Some(Asked { len: Some(len), .. })) => told_read(
            read, l.p, w.p, len, body, later,
        ),
        _ => false,
    }
}

// The message is the oldest of those that are stored, and its read is told it.
fn takes_oldest(
    lives: &Lives,
    requests: &Requests,
    messages: &[Message],
    write: Id,
    read: Id,
    later: &[Effect],
) -> bool
    ensures { (past : List Item) → IsOf lives.now past → AreAsked requests.now past → result ≡ takes_oldest_of past write read later.now messages.now }
{
    match messages.split_first() {
        Some((m, _)) => {
            m.id().0 == write.0
                && is_told(
                    read,
                    lives.of(write),
                    m.body(),
                    lives.of(read),
                    requests.of(read),
                    later,
                )
        }
        None => false,
    }
}

// The message of a write is stored no more.
fn is_stored_nowhere(stored: &BoxLists<Message>, id: Id, asked: Option<Asked>) -> bool
    ensures { (past : List Item) (full : OptionOf FullLife) → AreStored stored.now past → asked ≡ option_map asked_by full → result ≡ is_some_and (is_stored_nowhere_of past id) full }
{
    match asked {
        Some(a) => !stores::is_stored(stores::stored_at(stored, a.device), id),
        None => false,
    }
}

// A call that reads takes a message in its record, if one is stored, and only then.
fn reads_where_stored(
    stored: &BoxLists<Message>,
    channels: &Channels,
    rec: &Rec,
    id: Id,
    later: &[Effect],
) -> bool
    ensures { (past : List Item) → AreStored stored.now past → AreNames channels.now past → result ≡ reads_where_stored_of past id later.now (calling rec.now.event rec.now.answer) }
{
    if !reads_in(rec) {
        return true;
    }
    let is_empty = stores::stored_at(stored, channels.called(rec)).is_empty();
    is_taken(id, later) != is_empty
}

// The device of a write is this box.
fn is_written_at(name: &Name, asked: Option<Asked>) -> bool
    ensures { (full : OptionOf FullLife) → asked ≡ option_map asked_by full → result ≡ is_some_and (λ l. is_at_of name.now l.device) full }
{
    match asked {
        Some(a) => is_at(&Text::of(name), a.device),
        None => false,
    }
}

// What follows the past for the law of mailboxes.
#[derive(Drop)]
struct Boxes {
    lives: Lives,
    channels: Channels,
    requests: Requests,
    stored: BoxLists<Message>,
    readers: BoxLists<Id>,
}

impl Boxes {
    // What is asked of an effect.
    fn handles(&self, rec: &Rec, earlier: &[Effect], effect: &Effect, later: &[Effect]) -> bool
        ensures { (past : List Item) (more : List RecOf) → KnowsBoxes self.now (past_in past rec.now earlier.now) → result ≡ handles_messages (past_in past rec.now earlier.now) (Did effect.now) (map Did later.now ++ flat more) }
    {
        match effect {
            Effect::MGet { name, w, r } => takes_oldest(
                &self.lives,
                &self.requests,
                self.stored.at(&Text::of(name)),
                *w,
                *r,
                later,
            ),
            Effect::MCut { name, w } => {
                stores::is_stored(self.stored.at(&Text::of(name)), *w)
                    && is_cancelled_next(*w, later)
            }
            Effect::Fin { id, cond } => {
                !is_cond(*cond, Cond::Cancel)
                    || is_stored_nowhere(&self.stored, *id, self.requests.of(*id))
            }
            Effect::Open { id, kind, .. } => {
                !is_request(*kind)
                    || reads_where_stored(&self.stored, &self.channels, rec, *id, later)
            }
            Effect::MPut { name, id, .. } => {
                let oldest = readers::oldest(
                    &self.readers,
                    &self.lives,
                    &self.requests,
                    &Text::of(name),
                );
                is_written_at(name, self.requests.of(*id)) && hands_over(name, *id, oldest, later)
            }
            _ => true,
        }
    }
}

impl Judge for Boxes {
    ghost holds = { λ j. handles_messages };

    ghost follows = { KnowsBoxes };

    fn at_head(&self, _rec: &Rec) -> bool {
        true
    }

    fn at_effect(&self, rec: &Rec, earlier: &[Effect], effect: &Effect, later: &[Effect]) -> bool {
        self.handles(rec, earlier, effect, later)
    }

    fn pass_head(&mut self, rec: &Rec) -> Result<(), NoMemory> {
        self.lives.pass_head(rec.event, &rec.answer)
    }

    fn pass_effect(
        &mut self,
        rec: &Rec,
        earlier: &[Effect],
        effect: &Effect,
    ) -> Result<(), NoMemory> {
        self.lives.pass_effect(effect)?;
        self.requests
            .pass_effect(rec, earlier, effect, &self.channels)?;
        readers::pass_effect(
            &mut self.readers,
            rec,
            earlier,
            effect,
            &self.channels,
            &self.lives,
            &self.requests,
        )?;
        self.channels.pass_effect(rec, earlier, effect)?;
        stores::pass_effect(&mut self.stored, effect)
    }
}

// Whether the law holds at each position.
fn is_kept(recs: &[Rec], alloc: Global) -> Result<bool, NoMemory>
    ensures { IfOk result (λ holds. holds ≡ messages recs.now) }
{
    let mut judge = Boxes {
        lives: Lives::new(alloc),
        channels: Channels::new(alloc),
        requests: Requests::new(alloc),
        stored: BoxLists::new(alloc),
        readers: BoxLists::new(alloc),
    };
    holds_throughout(&mut judge, recs)
}

/// Whether records keep the law of mailboxes: a message goes out once, whole or cut to the reader's length, the oldest first
/// and to the oldest read; a message that is withdrawn is handed to nobody. Takes memory for what became of each id and for
/// its call, for the channels, and for the messages and reads that wait at one moment. A message that is put goes over the
/// reads that wait at its box, and over those that ended since the message before.
pub fn law_box(recs: &[Rec], alloc: Global) -> Result<bool, NoMemory>
    ensures exact { IfOk result (λ holds. holds ≡ messages recs.now) }
    ensures run { (system : SystemOf) → IsRun system recs.now → IfOk result (λ holds. holds ≡ true) }
{
    every_run_keeps_mailboxes();
    is_kept(recs, alloc)
}
