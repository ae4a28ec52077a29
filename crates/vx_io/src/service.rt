//! BEG and DON: a unit begins and ends a service.

ghost use Rattle.std.specs.Prelude.{◌≡◌, ◌<◌, [], IsSome, false, if◌then◌else◌};
ghost use Rattle.vx_base.specs.Queues.{front, in_service};
ghost use Rattle.vx_record.specs.State.{unit_at};
ghost use Rattle.vx_record.specs.Events.{beg, don};
ghost use Rattle.vx_base.specs.declared.cond.Cond.TheVariants.{Abort};
ghost use Rattle.vx_units.specs.Leases.{is_out};
ghost use Rattle.vx_procs.specs.Kernel.{Does, IsPrepared, opened, stand_for};
ghost use Rattle.vx_io.specs.Finishing.{AreRequests};

use crate::finish::finish;
use vx_base::{Answer, Cond, Reply, Routine, UnitNo};
use vx_procs::Core;

// What a service ends with: a request that was marked is aborted, whatever the unit replied.
fn unit_ending(marked: bool, reply: Reply) -> Reply
    ensures { result ≡ (if marked then record { cond = Abort; count = 0; bytes = reply.bytes } else reply) }
{
    if marked {
        Reply {
            cond: Cond::Abort,
            count: 0,
            bytes: reply.bytes,
        }
    } else {
        reply
    }
}

/// BEG: a unit that serves none takes its front request into service. Takes no memory.
#[tactic(auto, using(crate::proofs::Parted::told_none))]
pub fn begin<R: Routine>(core: &mut Core<R>, u: UnitNo) -> Answer
    requires prepared { IsPrepared core.old u }
    requires requests { AreRequests core.old.state }
    ensures { Does (beg core.old.state (front u core.old.state.requests)) result core.old core.new }
{
    match core.begin_request(u) {
        Some(id) => Answer::Unit(id),
        None => Answer::Local,
    }
}

/// DON: a unit has served its request, which finishes, in the log that was made for that before, and in which nothing was told
/// yet. A unit that was given back has served before. Takes no memory.
pub fn done<R: Routine>(core: &mut Core<R>, u: UnitNo) -> Answer
    requires serves { IsSome (in_service u core.old.state.requests) }
    requires requests { AreRequests core.old.state }
    requires count { (unit_at core.old.state u).services < 4294967295 }
    requires home { is_out (stand_for core.old u) ≡ false }
    ensures does { Does (don core.old.state u (in_service u core.old.state.requests)) result (opened core.old u) core.new }
    ensures untold { (opened core.old u).log.items ≡ [] }
{
    let Some((done, reply)) = core.end_service(u) else {
        unreachable!()
    };
    let id = done.req.id;
    let reply = unit_ending(done.marked, reply);
    finish(core, done, reply, 0);
    Answer::Unit(id)
}
