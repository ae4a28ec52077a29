//! Creation of processes.

ghost use Rattle.std.specs.Prelude.{◌<◌, length};
ghost use Rattle.vx_record.specs.Control.{creprc};
ghost use Rattle.vx_procs.specs.Kernel.{Does, Fits};
ghost use Rattle.vx_procs.specs.Ready.{IsReady};

use vx_base::{Cond, Effect, Pid, Routine};
use vx_procs::Core;

/// How many processes a run can make.
const MOST_PROCESSES: usize = 1000;

/// $CREPRC: creates a process of the declaration at a place, and gives its number: NOSLOT if 1,000 processes were made. The process has
/// its creator's group and member, the privileges that both its creator and its declaration have, and no inner mode than its
/// creator's; its limits are its declaration's. It takes no memory: there is a spare process.
#[tactic(auto, using(crate::proofs::Told::told_none))]
pub fn creprc<R: Routine>(core: &mut Core<R>, p: Pid, place: u32) -> Result<u32, Cond>
    requires ready { IsReady core.old p }
    requires declared { place < length core.old.state.system.decls }
    requires room { Fits core.old (creprc core.old.state p place).effects }
    ensures { Does (creprc core.old.state p place) result core.old core.new }
{
    if MOST_PROCESSES <= core.process_count() {
        return Err(Cond::NoSlot);
    }
    let name = core.declared_name(place);
    let number = core.create(p, place);
    core.tell(Effect::New { p: number, name });
    Ok(number.0)
}
