//! Services on common event flag clusters.

ghost use Rattle.std.specs.Prelude.{◌≡◌};
ghost use Rattle.vx_record.specs.Flags.{ascefc, dacefc, dlcefc};
ghost use Rattle.vx_procs.specs.Kernel.{Does, Fits};
ghost use Rattle.vx_procs.specs.Ready.{IsReady};
ghost use Rattle.vx_ctl.specs.Answers.{cond_of_clusters};

use vx_base::{Cond, Name, Pid, Routine};
use vx_clusters::AscFail;
use vx_procs::Core;

// The condition of a call on clusters, refused or not.
fn cond_of_clusters(answer: Result<(), AscFail>) -> Cond
    ensures { result ≡ cond_of_clusters answer }
{
    match answer {
        Ok(()) => Cond::Normal,
        Err(AscFail::IllEfc) => Cond::IllEfc,
        Err(AscFail::NoPriv) => Cond::NoPriv,
    }
}

/// $ASCEFC: the caller has the cluster of its group and this name as the cluster of an event flag from 64 to 127, in place of what it had
/// there. A cluster that is new is made, permanent if the number is not 0: ILLEFC if the flag is of no common cluster, NOPRIV
/// if a permanent cluster would be made without PRMCEB.
#[tactic(auto, using(crate::proofs::Common::associates))]
pub fn ascefc<R: Routine>(core: &mut Core<R>, p: Pid, efn: u32, name: Name, perm: u32) -> Cond
    requires ready { IsReady core.old p }
    requires room { Fits core.old (ascefc core.old.state p efn name perm).effects }
    ensures { Does (ascefc core.old.state p efn name perm) result core.old core.new }
{
    cond_of_clusters(core.associate(p, efn, name, perm != 0))
}

/// $DACEFC: the caller has no cluster any more as the cluster of an event flag from 64 to 127: ILLEFC for any other. A cluster that
/// nobody has goes, but for a permanent one that is not marked.
#[tactic(auto, using(crate::proofs::Common::dissociates))]
pub fn dacefc<R: Routine>(core: &mut Core<R>, p: Pid, efn: u32) -> Cond
    requires ready { IsReady core.old p }
    requires room { Fits core.old (dacefc core.old.state p efn).effects }
    ensures { Does (dacefc core.old.state p efn) result core.old core.new }
{
    cond_of_clusters(core.dissociate(p, efn))
}

/// $DLCEFC: marks a permanent cluster of the caller's group for deletion: NOPRIV without PRMCEB. It goes at once if nobody has it. A
/// temporary cluster stays as it is.
#[tactic(auto, using(crate::proofs::Common::marks))]
pub fn dlcefc<R: Routine>(core: &mut Core<R>, p: Pid, name: Name) -> Cond
    requires ready { IsReady core.old p }
    requires room { Fits core.old (dlcefc core.old.state p name).effects }
    ensures { Does (dlcefc core.old.state p name) result core.old core.new }
{
    cond_of_clusters(core.mark_cluster(p, name))
}
