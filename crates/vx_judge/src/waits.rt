//! What the frames of all processes wait for, in tables.

ghost use Rattle.std.specs.Prelude.{◌≡◌, ℕ, List, [], ◌∷◌, OnOk, if◌then◌else◌, ◌&&◌, ◌==◌, None, map};
ghost use Rattle.vx_base.specs.Lists.{rest};
ghost use Rattle.vx_record.specs.Types.{Pid as PidOf};
ghost use Rattle.vx_record.specs.Charges.{is_same};
ghost use Rattle.vx_laws.specs.Items.{Item, Head, Did};
ghost use Rattle.vx_laws.specs.Agrees.{waited};
ghost use Rattle.vx_laws.specs.Frames.{awaited, with_first};
ghost use Rattle.vx_judge.specs.Lives.{IsOf};
ghost use Rattle.vx_judge.specs.Frames.{as_turn};
ghost use Rattle.vx_judge.specs.Asked.{top_of, waits_changed, waits_answered};

use crate::frames::{process_turned, turn_of};
use crate::lives::Lives;
use crate::routine::Turned;
use crate::wait_of::wait_of;
use std::alloc::Global;
use std::collections::HashMap;
use vx_base::{Answer, Effect, Event, NoMemory, Pid, Wait};

/// How many frames each process has, and what they wait for, by process and place from the bottom. A process that no record
/// names has its main frame alone.
#[derive(Drop)]
pub struct Waits {
    counts: HashMap<u32, u64>,
    asked: HashMap<(u32, u64), Wait>,
}

impl Waits {
    ghost use Rattle.vx_judge.specs.Waits.{AreAwaited, count_in, waits_in, wait_at};

    /// Each process has its main frame, which waits for nothing. Takes no memory.
    pub fn new(alloc: Global) -> Waits
        ensures { AreAwaited result [] }
    {
        Waits {
            counts: HashMap::new(alloc),
            asked: HashMap::new(alloc),
        }
    }

    // How many frames a process has.
    fn count(&self, p: Pid) -> u64
        ensures { result ≡ count_in self.now p }
    {
        match self.counts.get(&p.0) {
            Some(count) => *count,
            None => 1,
        }
    }

    /// What the top frame of a process waits for.
    pub fn top(&self, p: Pid) -> Option<Wait>
        ensures { (past : List Item) → AreAwaited self.now past → result ≡ top_of (map waited (awaited past p)) }
    {
        let count = self.count(p);
        if count == 0 {
            return None;
        }
        self.asked.get(&(p.0, count - 1)).copied()
    }

    // A process has so many frames.
    fn set_count(&mut self, p: Pid, count: u64) -> Result<(), NoMemory>
        ensures counts { OnOk result ((q : PidOf) → count_in self.new q ≡ (if is_same p q then count else count_in self.old q)) }
        ensures asked { self.new.asked ≡ self.old.asked }
    {
        self.counts.insert(p.0, count)?;
        Ok(())
    }

    // A frame waits for this.
    fn set_wait(&mut self, p: Pid, place: u64, wait: Option<Wait>) -> Result<(), NoMemory>
        ensures asked { OnOk result ((q : PidOf) (n : ℕ) → wait_at self.new q n ≡ (if is_same p q && (place == n) then wait else wait_at self.old q n)) }
        ensures counts { self.new.counts ≡ self.old.counts }
    {
        match wait {
            Some(wait) => {
                self.asked.insert((p.0, place), wait)?;
                Ok(())
            }
            None => {
                self.asked.remove(&(p.0, place));
                Ok(())
            }
        }
    }

    // A frame that waits for nothing, on the top.
    fn enter(&mut self, p: Pid) -> Result<(), NoMemory>
        ensures { OnOk result ((q : PidOf) → waits_in self.new q ≡ (if is_same p q then None ∷ waits_in self.old q else waits_in self.old q)) }
    {
        let count = self.count(p);
        match count.checked_add(1) {
            Some(more) => {
                self.set_wait(p, count, None)?;
                self.set_count(p, more)?;
                Ok(())
            }
            None => Err(NoMemory),
        }
    }

    // The top frame goes.
    fn leave(&mut self, p: Pid) -> Result<(), NoMemory>
        ensures { OnOk result ((q : PidOf) → waits_in self.new q ≡ (if is_same p q then rest (waits_in self.old q) else waits_in self.old q)) }
    {
        let count = self.count(p);
        self.set_count(p, count.saturating_sub(1))?;
        Ok(())
    }

    // All frames go.
    fn clear(&mut self, p: Pid) -> Result<(), NoMemory>
        ensures { OnOk result ((q : PidOf) → waits_in self.new q ≡ (if is_same p q then [] else waits_in self.old q)) }
    {
        self.set_count(p, 0)?;
        Ok(())
    }

    // The top frame, if there is one, waits for this.
    fn set_top(&mut self, p: Pid, wait: Option<Wait>) -> Result<(), NoMemory>
        ensures { OnOk result ((q : PidOf) → waits_in self.new q ≡ (if is_same p q then with_first wait (waits_in self.old q) else waits_in self.old q)) }
    {
        let count = self.count(p);
        if count == 0 {
            return Ok(());
        }
        self.set_wait(p, count - 1, wait)?;
        Ok(())
    }

    // Changes the frames of a process.
    fn change(&mut self, p: Pid, turned: Turned) -> Result<(), NoMemory>
        ensures { OnOk result ((q : PidOf) → waits_in self.new q ≡ (if is_same p q then waits_changed (as_turn turned) (waits_in self.old q) else waits_in self.old q)) }
    {
        match turned {
            Turned::Enters(_, _) => self.enter(p),
            Turned::Returns => self.leave(p),
            Turned::Clears => self.clear(p),
            Turned::Stays => Ok(()),
        }
    }

    // Its top frame waits, or its wait ends.
    fn tell(&mut self, p: Pid, answer: &Answer) -> Result<(), NoMemory>
        ensures { OnOk result ((q : PidOf) → waits_in self.new q ≡ (if is_same p q then waits_answered answer.now (waits_in self.old q) else waits_in self.old q)) }
    {
        match *answer {
            Answer::Wait(call) => self.set_top(p, wait_of(call)),
            Answer::Resume(_) => self.set_top(p, None),
            _ => Ok(()),
        }
    }

    /// Goes past a head.
    pub fn pass_head(
        &mut self,
        event: Event,
        answer: &Answer,
        lives: &Lives,
    ) -> Result<(), NoMemory>
        ensures { OnOk result ((past : List Item) → IsOf lives.now past → AreAwaited self.old past → AreAwaited self.new (Head event answer.now ∷ past)) }
    {
        let p = process_turned(event, answer);
        self.change(p, turn_of(event, answer, lives))?;
        self.tell(p, answer)
    }

    /// Goes past an effect: an exit handler is entered.
    pub fn pass_effect(&mut self, effect: &Effect, lives: &Lives) -> Result<(), NoMemory>
        ensures { OnOk result ((past : List Item) → IsOf lives.now past → AreAwaited self.old past → AreAwaited self.new (Did effect.now ∷ past)) }
    {
        match effect {
            Effect::Enter(id) => match lives.of(*id) {
                Some(l) => self.enter(l.p),
                None => Ok(()),
            },
            _ => Ok(()),
        }
    }
}
