//! What the law of flags and status blocks asks of completions.

ghost use Rattle.std.specs.Prelude.{◌≡◌, List, Option as OptionOf, map, ◌++◌, IfOk, option_map};
ghost use Rattle.vx_base.specs.Lists.{is_some_and};
ghost use Rattle.vx_record.specs.Types.{Rec as RecOf};
ghost use Rattle.vx_laws.specs.Items.{Item, Did, flat};
ghost use Rattle.vx_laws.specs.Lives.{Life as FullLife};
ghost use Rattle.vx_laws.specs.StatusLaw.{completes_right, is_asked as is_asked_of, tells_call as tells_call_of, to_next_fin};
ghost use Rattle.vx_laws.specs.StatusParts.{completes};
ghost use Rattle.vx_judge.specs.Places.{past_in};
ghost use Rattle.vx_judge.specs.Owing.{AreOwed, AreJoined, owed_by};

use crate::behind::{clears_iosb, tells_call};
use crate::clusters::Clusters;
use crate::debts::{Debts, owed_in};
use crate::judge::{Judge, holds_throughout};
use crate::owed::Owed;
use std::alloc::Global;
use vx_base::{Cond, Effect, NoMemory, Opened, Rec};

// Requests and attention entries.
fn is_asked(kind: Opened) -> bool
    ensures { result ≡ is_asked_of kind }
{
    match kind {
        Opened::Attn | Opened::Bio | Opened::Dio => true,
        _ => false,
    }
}

// The completion of an id tells what it owes; an id that was not opened has none.
fn is_told(clusters: &Clusters, owes: Option<Option<Owed>>, c: Cond, later: &[Effect]) -> bool
    ensures { (past : List Item) (full : OptionOf FullLife) → AreJoined clusters.now past → owes ≡ option_map owed_by full → result ≡ is_some_and (λ l. tells_call_of past c (to_next_fin later.now) l.by) full }
{
    match owes {
        Some(owes) => tells_call(clusters, owes, c, later),
        None => false,
    }
}

/// What is asked of an effect.
pub fn completes_effect(
    debts: &Debts,
    clusters: &Clusters,
    rec: &Rec,
    earlier: &[Effect],
    effect: &Effect,
    later: &[Effect],
) -> bool
    ensures { (past : List Item) (more : List RecOf) → AreOwed debts.now (past_in past rec.now earlier.now) → AreJoined clusters.now (past_in past rec.now earlier.now) → result ≡ completes_right (past_in past rec.now earlier.now) (Did effect.now) (map Did later.now ++ flat more) }
{
    match effect {
        Effect::Fin { id, cond } => is_told(clusters, debts.of(*id), *cond, later),
        Effect::Open { kind, .. } => !is_asked(*kind) || clears_iosb(owed_in(rec), earlier),
        _ => true,
    }
}

// What follows the past: what completions owe, and clusters.
#[derive(Drop)]
struct Completions {
    debts: Debts,
    clusters: Clusters,
}

impl Judge for Completions {
    ghost holds = { λ j. completes_right };

    ghost follows = { λ j past. record {
      debts : AreOwed j.debts past;
      clusters : AreJoined j.clusters past;
    } };

    fn at_head(&self, _rec: &Rec) -> bool {
        true
    }

    fn at_effect(&self, rec: &Rec, earlier: &[Effect], effect: &Effect, later: &[Effect]) -> bool {
        completes_effect(&self.debts, &self.clusters, rec, earlier, effect, later)
    }

    fn pass_head(&mut self, _rec: &Rec) -> Result<(), NoMemory> {
        Ok(())
    }

    fn pass_effect(
        &mut self,
        rec: &Rec,
        earlier: &[Effect],
        effect: &Effect,
    ) -> Result<(), NoMemory> {
        self.debts.pass_effect(rec, earlier, effect)?;
        self.clusters.pass_effect(effect)
    }
}

/// Whether records keep what the law of flags and status blocks asks of completions: behind each FIN, and before the record's
/// next, the call's status block takes the condition and its flag is set, and no other; and before the OPEN of a request or an
/// attention entry its status block is cleared. Takes memory for the call of each id and for the clusters of each process.
pub fn law_completions(recs: &[Rec], alloc: Global) -> Result<bool, NoMemory>
    ensures { IfOk result (λ holds. holds ≡ completes recs.now) }
{
    let mut judge = Completions {
        debts: Debts::new(alloc),
        clusters: Clusters::new(alloc),
    };
    holds_throughout(&mut judge, recs)
}
