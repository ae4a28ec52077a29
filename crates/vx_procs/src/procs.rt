//! What the executive keeps.

ghost use Rattle.std.specs.Prelude.{◌≡◌, [], ◌∷◌, IfSome, OnOk, length};
ghost use Rattle.vx_base.specs.Log.{HasRoom};
ghost use Rattle.vx_base.specs.Roomy.{with_items};
ghost use Rattle.vx_procs.specs.Kernel.{Fits, told};
ghost use Rattle.vx_record.specs.State.{IsProcess};
ghost use Rattle.vx_procs.specs.Making.{KeepsLists};
ghost use Rattle.vx_procs.specs.Ready.{HasBegun, HasHandlerRoom, HasNewcomer, HasSpares};

use crate::kept::KeptUnit;
use crate::newcomer::Newcomer;
use crate::shared::SharedSystem;
use crate::table::Procs;
use std::alloc::Global;
use std::marker::Model;
use std::mem;
use vx_base::{Effect, EffectList, Effects, NoMemory, Pid, Routine};
use vx_clusters::Clusters;
use vx_mailbox::{Attentions, Boxes};
use vx_reqs::Reqs;
use vx_timers::Timers;

/// The time, in ticks, from which on no timer can be set: due times are counted in 64 bits.
const LAST_TIME: u64 = 9_223_372_036_854_775_808;

/// What the script says, the time in ticks, the next id, the processes in the order of their numbers from 1, the common event
/// flag clusters, timers, requests, attention entries, mailboxes, units, and the log of the event under way. Contracts see the plain
/// state, the log, and how much there is room for: `specs/Kernel.antt`.
pub struct Core<R: Routine> {
    pub(crate) system: SharedSystem,
    pub(crate) time: u64,
    pub(crate) next: u32,
    pub(crate) procs: Procs<R>,
    pub(crate) clusters: Clusters,
    // what the next process takes memory for, if it is made
    pub(crate) spare: Option<Newcomer<R>>,
    pub(crate) timers: Timers<R>,
    pub(crate) requests: Reqs<R>,
    pub(crate) attention: Attentions<R>,
    pub(crate) boxes: Boxes,
    pub(crate) units: Vec<KeptUnit>,
    pub(crate) log: Effects,
    // the process whose spares may have been used since they were made
    pub(crate) short: Option<Pid>,
    pub(crate) alloc: Global,
}

impl<R: Routine> Drop for Core<R> {
    // Written out, so that it is proved here once, and not in each crate that lets an executive go.
    fn drop(self) {
        let Self {
            system: _,
            time: _,
            next: _,
            procs: _,
            clusters: _,
            spare: _,
            timers: _,
            requests: _,
            attention: _,
            boxes: _,
            units: _,
            log: _,
            short: _,
            alloc: _,
        } = self;
    }
}

impl<R: Routine> Model for Core<R> {
    ghost use Rattle.vx_procs.specs.Kernel.{Kernel};

    ghost Value = { Kernel };

    ghost use Rattle.vx_procs.specs.View.{kernel, IsHeld};

    ghost view = { kernel };

    ghost invariant = { IsHeld };
}

// Empties a log, and makes room in it for so many effects.
fn clear_log(log: &mut Effects, effects: u32) -> Result<(), NoMemory>
    ensures empty { OnOk result (log.new.items ≡ []) }
    ensures room { OnOk result (HasRoom log.new effects) }
{
    log.clear();
    log.reserve(effects)
}

impl<R: Routine> Core<R> {
    /// Makes good what spare room the last event used, and makes room for a timer, a process, a cluster, an association, a request and
    /// an attention entry more, for a message more in each mailbox, for an exit handler more of the process whose event it is, and for
    /// as many effects as are told. Nothing that the state says is changed, even if memory is short. (A time beyond 2^63 has no room
    /// for timers either.)
    pub fn begin(&mut self, effects: u32, caller: Option<Pid>) -> Result<(), NoMemory>
        requires { IfSome caller (IsProcess self.old.state) }
        ensures same { self.new.state ≡ self.old.state }
        ensures ends { self.new.ends ≡ self.old.ends }
        ensures begun { OnOk result (HasBegun self.new caller effects) }
    {
        if self.time >= LAST_TIME {
            return Err(NoMemory);
        }
        self.timers.reserve(1)?;
        self.clusters.reserve()?;
        self.requests.reserve()?;
        self.attention.reserve()?;
        self.boxes.reserve()?;
        self.make_spare()?;
        self.mend()?;
        self.make_caller_room(caller)?;
        clear_log(&mut self.log, effects)
    }

    // Makes a spare process and a place for it, if they are missing.
    fn make_spare(&mut self) -> Result<(), NoMemory>
        ensures same { self.new.state ≡ self.old.state }
        ensures lists { KeepsLists self.old self.new }
        ensures newcomer { OnOk result (HasNewcomer self.new) }
    {
        self.procs.reserve()?;
        if self.spare.is_some() {
            return Ok(());
        }
        self.spare = Some(Newcomer::new(self.alloc)?);
        Ok(())
    }

    // Makes good what spare room the last event used.
    fn mend(&mut self) -> Result<(), NoMemory>
        ensures same { self.new.state ≡ self.old.state }
        ensures lists { KeepsLists self.old self.new }
        ensures rooms { length self.new.rooms ≡ length self.old.rooms }
        ensures spares { OnOk result (HasSpares self.new) }
    {
        let Some(p) = self.short else {
            return Ok(());
        };
        self.procs.at_mut(p).reserve()?;
        self.short = None;
        Ok(())
    }

    // Makes room for an exit handler more of a process.
    fn make_handler_room(&mut self, p: Pid) -> Result<(), NoMemory>
        requires { IsProcess self.old.state p }
        ensures same { self.new.state ≡ self.old.state }
        ensures lists { KeepsLists self.old self.new }
        ensures rooms { length self.new.rooms ≡ length self.old.rooms }
        ensures spares { HasSpares self.old → HasSpares self.new }
        ensures room { OnOk result (HasHandlerRoom self.new p) }
    {
        self.procs.at_mut(p).exits.reserve()?;
        Ok(())
    }

    // Makes room for an exit handler more of the process whose event it is, if it is one of a process.
    fn make_caller_room(&mut self, caller: Option<Pid>) -> Result<(), NoMemory>
        requires { IfSome caller (IsProcess self.old.state) }
        ensures same { self.new.state ≡ self.old.state }
        ensures lists { KeepsLists self.old self.new }
        ensures rooms { length self.new.rooms ≡ length self.old.rooms }
        ensures spares { HasSpares self.old → HasSpares self.new }
        ensures room { OnOk result (IfSome caller (HasHandlerRoom self.new)) }
    {
        match caller {
            Some(p) => self.make_handler_room(p),
            None => Ok(()),
        }
    }

    /// Tells an effect. Takes no memory.
    pub fn tell(&mut self, effect: Effect)
        requires { Fits self.old (effect ∷ []) }
        ensures { self.new ≡ told self.old (effect ∷ []) }
    {
        self.log.add(effect)
    }

    /// Forgets the effects that were told; their room stays. Takes no memory.
    pub fn forget_log(&mut self)
        ensures { self.new ≡ record self.old { log = with_items self.old.log [] } }
    {
        self.log.clear();
    }

    /// The effects that were told. Takes no memory.
    pub fn take_log(&mut self) -> EffectList
        ensures effects { result ≡ self.old.log.items }
        ensures after { self.new ≡ record self.old { log = record { items = []; capacity = 0 } } }
    {
        let log = mem::replace(&mut self.log, Effects::new(self.alloc));
        log.done()
    }
}
