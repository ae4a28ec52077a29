//! What the completions of ids owe to the calls that opened them.

ghost use Rattle.std.specs.Prelude.{◌≡◌, List, [], ◌∷◌, OnOk, option_map};
ghost use Rattle.vx_laws.specs.Items.{Item, Did, calling};
ghost use Rattle.vx_laws.specs.Lives.{life};
ghost use Rattle.vx_judge.specs.Owing.{owed};
ghost use Rattle.vx_judge.specs.Places.{past_in};

use crate::args::number;
use crate::owed::Owed;
use std::alloc::Global;
use std::collections::HashMap;
use vx_base::{Answer, Effect, Event, Id, NoMemory, Rec};

/// Of each id what its completion owes; none if no call opened it.
#[derive(Drop)]
pub struct Debts {
    map: HashMap<u32, Option<Owed>>,
}

/// What is owed to the call of a record.
pub fn owed_in(rec: &Rec) -> Option<Owed>
    ensures { result ≡ option_map owed (calling rec.now.event rec.now.answer) }
{
    match (rec.event, rec.answer) {
        (Event::Run(p), Answer::Service(call, _)) => Some(Owed {
            p,
            efn: number(call.args.a0),
            iosb: number(call.args.a3),
        }),
        (Event::Run(p), Answer::Wait(call)) => Some(Owed {
            p,
            efn: number(call.args.a0),
            iosb: number(call.args.a3),
        }),
        _ => None,
    }
}

impl Debts {
    ghost use Rattle.vx_judge.specs.Owing.{AreOwed, owed_by};

    /// No ids. Takes no memory.
    pub fn new(alloc: Global) -> Debts
        ensures { AreOwed result [] }
    {
        Debts {
            map: HashMap::new(alloc),
        }
    }

    /// What the completion of an id owes.
    pub fn of(&self, id: Id) -> Option<Option<Owed>>
        ensures { (past : List Item) → AreOwed self.now past → result ≡ option_map owed_by (life past id) }
    {
        self.map.get(&id.0).copied()
    }

    /// Goes past an effect.
    pub fn pass_effect(
        &mut self,
        rec: &Rec,
        earlier: &[Effect],
        effect: &Effect,
    ) -> Result<(), NoMemory>
        ensures { OnOk result ((past : List Item) → AreOwed self.old (past_in past rec.now earlier.now) → AreOwed self.new (Did effect.now ∷ past_in past rec.now earlier.now)) }
    {
        match effect {
            Effect::Open { id, .. } => {
                self.map.insert(id.0, owed_in(rec))?;
                Ok(())
            }
            _ => Ok(()),
        }
    }
}
