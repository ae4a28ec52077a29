//! The names of devices by channel.

ghost use Rattle.std.specs.Prelude.{◌≡◌, List, [], ◌∷◌, OnOk};
ghost use Rattle.vx_laws.specs.Items.{Item, Did, calling};
ghost use Rattle.vx_laws.specs.Lives.{names_device as names_device_of, named_in as named_in_of, device_name, device_called};
ghost use Rattle.vx_judge.specs.Places.{past_in};

use crate::args::{number, text};
use crate::near::is_cond;
use crate::text::Text;
use std::alloc::Global;
use std::collections::HashMap;
use vx_base::{Answer, Cond, Effect, Event, NoMemory, Pid, Rec, Service};

/// For each process and each number that an accepted $ASSIGN or $CREMBX of it answered the name that the last such call gave.
#[derive(Drop)]
pub struct Channels {
    map: HashMap<(u32, u32), Text>,
}

fn names_device(service: Service) -> bool
    ensures { result ≡ names_device_of service }
{
    match service {
        Service::Assign | Service::CreMbx => true,
        _ => false,
    }
}

// The name that a record gives to a channel.
fn named_in(rec: &Rec) -> Option<Text>
    ensures { result ≡ named_in_of (calling rec.now.event rec.now.answer) }
{
    match (rec.event, rec.answer) {
        (Event::Run(_), Answer::Service(call, cond)) => {
            if names_device(call.service) && is_cond(Cond::Normal, cond) {
                Some(text(call.args.a1))
            } else {
                None
            }
        }
        _ => None,
    }
}

impl Channels {
    ghost use Rattle.vx_judge.specs.Channels.{AreNames};

    /// No channels. Takes no memory.
    pub fn new(alloc: Global) -> Channels
        ensures { AreNames result [] }
    {
        Channels {
            map: HashMap::new(alloc),
        }
    }

    // The device of a channel.
    fn of(&self, p: Pid, chan: u32) -> Option<Text>
        ensures { (past : List Item) → AreNames self.now past → result ≡ device_name past p chan }
    {
        self.map.get(&(p.0, chan)).copied()
    }

    /// The device of the channel that a record's call names.
    pub fn called(&self, rec: &Rec) -> Option<Text>
        ensures { (past : List Item) → AreNames self.now past → result ≡ device_called past (calling rec.now.event rec.now.answer) }
    {
        match (rec.event, rec.answer) {
            (Event::Run(p), Answer::Service(call, _)) => self.of(p, number(call.args.a1)),
            (Event::Run(p), Answer::Wait(call)) => self.of(p, number(call.args.a1)),
            _ => None,
        }
    }

    /// Goes past an effect.
    pub fn pass_effect(
        &mut self,
        rec: &Rec,
        earlier: &[Effect],
        effect: &Effect,
    ) -> Result<(), NoMemory>
        ensures { OnOk result ((past : List Item) → AreNames self.old (past_in past rec.now earlier.now) → AreNames self.new (Did effect.now ∷ past_in past rec.now earlier.now)) }
    {
        match effect {
            Effect::Var { p, n, .. } => match named_in(rec) {
                Some(name) => {
                    self.map.insert((p.0, *n), name)?;
                    Ok(())
                }
                None => Ok(()),
            },
            _ => Ok(()),
        }
    }
}
