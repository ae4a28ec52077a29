//! What the requests ask of mailboxes.

ghost use Rattle.std.specs.Prelude.{◌≡◌, List, [], ◌∷◌, ◌&&◌, OnOk, Some, cond, nat_eq, option_map};
ghost use Rattle.std.specs.HashMap.{get};
ghost use Rattle.vx_record.specs.Types.{Id as IdOf};
ghost use Rattle.vx_laws.specs.Boxes.{asks, is_at as is_at_of};
ghost use Rattle.vx_laws.specs.Items.{Item, Did, calling};
ghost use Rattle.vx_laws.specs.Lives.{life, device_called};
ghost use Rattle.vx_record.specs.Mailboxes.{is_waiting_func};
ghost use Rattle.vx_record.specs.Finish.{is_read};
ghost use Rattle.vx_record.specs.Services.{number as number_of};
ghost use Rattle.vx_judge.specs.Channels.{AreNames};
ghost use Rattle.vx_judge.specs.Places.{past_in};
ghost use Rattle.vx_judge.specs.Requests.{asked_at};

use crate::args::{function, number};
use crate::asked::{Asked, Asking};
use crate::channels::Channels;
use crate::text::Text;
use std::alloc::Global;
use std::collections::HashMap;
use vx_base::{Answer, Effect, Event, Func, Id, NoMemory, Rec};

/// Of each id what its call asks. The device stands apart, if there is one.
#[derive(Drop)]
pub struct Requests {
    devices: HashMap<u32, Text>,
    map: HashMap<u32, Asking>,
}

/// The name is the device's.
pub fn is_at(name: &Text, device: Option<Text>) -> bool
    ensures { result ≡ is_at_of name.now device }
{
    match device {
        Some(d) => d == *name,
        None => false,
    }
}

// Its function waits for a message.
fn waits(function: Func) -> bool
    ensures { result ≡ is_waiting_func function }
{
    match function {
        Func::Read => true,
        _ => false,
    }
}

fn reads(function: Func) -> bool
    ensures { result ≡ is_read function }
{
    match function {
        Func::Read | Func::ReadNow => true,
        _ => false,
    }
}

// A record's call waits for a message.
fn waits_in(rec: &Rec) -> bool
    ensures { result ≡ asks is_waiting_func (calling rec.now.event rec.now.answer) }
{
    match (rec.event, rec.answer) {
        (Event::Run(_), Answer::Service(call, _)) => waits(function(call.args.a2)),
        (Event::Run(_), Answer::Wait(call)) => waits(function(call.args.a2)),
        _ => false,
    }
}

/// Whether a record's call reads.
pub fn reads_in(rec: &Rec) -> bool
    ensures { result ≡ asks is_read (calling rec.now.event rec.now.answer) }
{
    match (rec.event, rec.answer) {
        (Event::Run(_), Answer::Service(call, _)) => reads(function(call.args.a2)),
        (Event::Run(_), Answer::Wait(call)) => reads(function(call.args.a2)),
        _ => false,
    }
}

// The length that a record's call gives.
fn len_in(rec: &Rec) -> Option<u32>
    ensures { result ≡ option_map (λ k. number_of k.call.args.a7) (calling rec.now.event rec.now.answer) }
{
    match (rec.event, rec.answer) {
        (Event::Run(_), Answer::Service(call, _)) => Some(number(call.args.a7)),
        (Event::Run(_), Answer::Wait(call)) => Some(number(call.args.a7)),
        _ => None,
    }
}

/// What a record's call asks.
pub fn asked_in(channels: &Channels, rec: &Rec) -> Asked
    ensures { (past : List Item) → AreNames channels.now past → result ≡ asked_at (device_called past (calling rec.now.event rec.now.answer)) (calling rec.now.event rec.now.answer) }
{
    Asked {
        device: channels.called(rec),
        waits: waits_in(rec),
        len: len_in(rec),
    }
}

// The device of an id from now on.
fn set_device(
    devices: &mut HashMap<u32, Text>,
    id: Id,
    device: Option<Text>,
) -> Result<(), NoMemory>
    ensures { OnOk result ((i : IdOf) → get nat_eq devices.new i.0 ≡ cond (nat_eq id.0 i.0) device (get nat_eq devices.old i.0)) }
{
    match device {
        Some(name) => {
            devices.insert(id.0, name)?;
        }
        None => {
            devices.remove(&id.0);
        }
    }
    Ok(())
}

impl Requests {
    ghost use Rattle.vx_judge.specs.Requests.{AreAsked, asked_by, asked_in, reads_in};

    /// No ids. Takes no memory.
    pub fn new(alloc: Global) -> Requests
        ensures { AreAsked result [] }
    {
        Requests {
            devices: HashMap::new(alloc),
            map: HashMap::new(alloc),
        }
    }

    /// What the call of an id asks.
    pub fn of(&self, id: Id) -> Option<Asked>
        ensures { (past : List Item) → AreAsked self.now past → result ≡ option_map asked_by (life past id) }
    {
        self.found(id)
    }

    // What the tables have of it.
    fn found(&self, id: Id) -> Option<Asked>
        ensures { result ≡ asked_in self.now id }
    {
        match self.map.get(&id.0) {
            Some(a) => Some(Asked {
                device: self.devices.get(&id.0).copied(),
                waits: a.waits,
                len: a.len,
            }),
            None => None,
        }
    }

    /// Whether an id is a READ of a box, outstanding or not.
    pub fn has_read(&self, name: &Text, id: Id) -> bool
        ensures { result ≡ reads_in self.now name.now id }
    {
        match self.found(id) {
            Some(a) => is_at(name, a.device) && a.waits,
            None => false,
        }
    }

    // What it asks from now on.
    fn set(&mut self, id: Id, asked: Asked) -> Result<(), NoMemory>
        ensures { OnOk result ((i : IdOf) → asked_in self.new i ≡ cond (nat_eq id.0 i.0) (Some asked) (asked_in self.old i)) }
    {
        set_device(&mut self.devices, id, asked.device)?;
        let asking = Asking {
            waits: asked.waits,
            len: asked.len,
        };
        self.map.insert(id.0, asking)?;
        Ok(())
    }

    /// Goes past an effect.
    pub fn pass_effect(
        &mut self,
        rec: &Rec,
        earlier: &[Effect],
        effect: &Effect,
        channels: &Channels,
    ) -> Result<(), NoMemory>
        ensures { OnOk result ((past : List Item) → AreNames channels.now (past_in past rec.now earlier.now) → AreAsked self.old (past_in past rec.now earlier.now) → AreAsked self.new (Did effect.now ∷ past_in past rec.now earlier.now)) }
    {
        match effect {
            Effect::Open { id, .. } => {
                self.set(*id, asked_in(channels, rec))?;
                Ok(())
            }
            _ => Ok(()),
        }
    }
}
