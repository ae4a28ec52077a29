//! The law of flags and status blocks.

ghost use Rattle.std.specs.Prelude.{◌≡◌, List, map, ◌++◌, IfOk, true};
ghost use Rattle.vx_record.specs.Types.{Rec as RecOf, System as SystemOf};
ghost use Rattle.vx_record.specs.Runs.{IsRun};
ghost use Rattle.vx_laws.specs.Items.{Item, Head, Did, flat};
ghost use Rattle.vx_laws.specs.StatusLaw.{status, is_status_right, is_enable_told as is_enable_told_of, answers_right as answers_right_of};
ghost use Rattle.vx_judge.specs.Enables.{AreOf};
ghost use Rattle.vx_judge.specs.Lives.{IsOf};
ghost use Rattle.vx_judge.specs.Owing.{AreOwed};
ghost use Rattle.vx_judge.specs.Values.{AreValues};
ghost use Rattle.vx_judge.specs.Waits.{AreAwaited};

use crate::completions::completes_effect;
use crate::debts::Debts;
use crate::earlier::{tells_earlier, tells_setast};
use crate::enables::Enables;
use crate::judge::{Judge, holds_throughout};
use crate::lives::Lives;
use crate::values::Values;
use crate::wait_of::wait_of;
use crate::waiting::{resumes_right, waits_right};
use crate::waits::Waits;
use std::alloc::Global;
use vx_base::{Answer, Effect, Event, NoMemory, Rec};
use vx_laws::every_run_keeps_flags_and_blocks;

// $SETAST tells the mode.
fn is_enable_told(enables: &Enables, rec: &Rec) -> bool
    ensures { (past : List Item) (more : List RecOf) → AreOf enables.now past → result ≡ is_enable_told_of past (Head rec.now.event rec.now.answer) (map Did rec.now.effects ++ flat more) }
{
    match (rec.event, rec.answer) {
        (Event::Run(_), Answer::Service(call, c)) => {
            tells_setast(enables, c, rec.effects.as_slice(), call.service)
        }
        _ => true,
    }
}

// Answers tell flags, and waits begin and end as they should.
fn answers_right(values: &Values, waits: &Waits, rec: &Rec) -> bool
    ensures { (past : List Item) (more : List RecOf) → AreValues values.now past → AreAwaited waits.now past → result ≡ answers_right_of past (Head rec.now.event rec.now.answer) (map Did rec.now.effects ++ flat more) }
{
    let effects = rec.effects.as_slice();
    match (rec.event, rec.answer) {
        (Event::Run(p), Answer::Service(call, c)) => {
            tells_earlier(values, p, &call, c, effects)
                && waits_right(values, effects, p, Some(c), wait_of(call))
        }
        (Event::Run(p), Answer::Wait(call)) => {
            waits_right(values, effects, p, None, wait_of(call))
        }
        (Event::Run(p), Answer::Resume(c)) => resumes_right(values, waits, p, c),
        _ => true,
    }
}

// What follows the past.
#[derive(Drop)]
struct Status {
    values: Values,
    waits: Waits,
    enables: Enables,
    lives: Lives,
    debts: Debts,
}

impl Judge for Status {
    ghost holds = { λ j. is_status_right };

    ghost follows = { λ j past. record {
      values : AreValues j.values past;
      waits : AreAwaited j.waits past;
      enables : AreOf j.enables past;
      lives : IsOf j.lives past;
      debts : AreOwed j.debts past;
    } };

    fn at_head(&self, rec: &Rec) -> bool {
        is_enable_told(&self.enables, rec) && answers_right(&self.values, &self.waits, rec)
    }

    fn at_effect(&self, rec: &Rec, earlier: &[Effect], effect: &Effect, later: &[Effect]) -> bool {
        completes_effect(
            &self.debts,
            self.values.clusters(),
            rec,
            earlier,
            effect,
            later,
        )
    }

    fn pass_head(&mut self, rec: &Rec) -> Result<(), NoMemory> {
        self.waits.pass_head(rec.event, &rec.answer, &self.lives)?;
        self.lives.pass_head(rec.event, &rec.answer)
    }

    fn pass_effect(
        &mut self,
        rec: &Rec,
        earlier: &[Effect],
        effect: &Effect,
    ) -> Result<(), NoMemory> {
        self.values.pass_effect(effect)?;
        self.waits.pass_effect(effect, &self.lives)?;
        self.enables.pass_effect(effect)?;
        self.debts.pass_effect(rec, earlier, effect)?;
        self.lives.pass_effect(effect)?;
        Ok(())
    }
}

// Whether the law holds at each position.
fn is_kept(recs: &[Rec], alloc: Global) -> Result<bool, NoMemory>
    ensures { IfOk result (λ holds. holds ≡ status recs.now) }
{
    let mut judge = Status {
        values: Values::new(alloc),
        waits: Waits::new(alloc),
        enables: Enables::new(alloc),
        lives: Lives::new(alloc),
        debts: Debts::new(alloc),
    };
    holds_throughout(&mut judge, recs)
}

/// Whether records keep the law of flags and status blocks: answers tell the values of flags and modes, a service waits only if
/// its wait is not satisfied, a resumption ends a wait of the top frame that is satisfied, and completions write their status
/// blocks and set their flags. Takes memory for what became of each id, for the flags and status blocks that were told, and for
/// the frames of each process. Fails with `NoMemory` too if a process has more frames than u64 counts.
pub fn law_flag(recs: &[Rec], alloc: Global) -> Result<bool, NoMemory>
    ensures exact { IfOk result (λ holds. holds ≡ status recs.now) }
    ensures run { (system : SystemOf) → IsRun system recs.now → IfOk result (λ holds. holds ≡ true) }
{
    every_run_keeps_flags_and_blocks();
    is_kept(recs, alloc)
}
