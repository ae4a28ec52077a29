//! Processes that were put away, in place of others.

ghost use Rattle.std.specs.Prelude.{◌≡◌, OnOk, length, map};
ghost use Rattle.vx_procs.specs.Again.{AreWider};
ghost use Rattle.vx_procs.specs.Snapshots.{books_in, process_in};
ghost use Rattle.vx_procs.specs.View.{books_of, process};

use crate::proc_snapshot::ProcSnapshot;
use crate::process::Proc;
use std::alloc::Global;
use vx_base::{Duplicate, NoMemory, Routine};

// Has as many processes as were put away: the first of these, and behind them others of which all is still to be said.
fn fit<R: Routine>(
    alloc: Global,
    procs: &mut Vec<Proc<R>>,
    kept: &[ProcSnapshot<R>],
) -> Result<(), NoMemory>
    ensures { OnOk result (length procs.new.items ≡ length kept.now) }
{
    procs.truncate(kept.len());
    while procs.len() < kept.len() {
        let next = &kept[procs.len()];
        procs.push(Proc::unsaid(alloc, next.privs, next.account.duplicate()?)?)?;
    }
    Ok(())
}

/// Has the processes that were put away in place of others, each of their routines made from its tag, with as much room or more. If memory
/// runs out, some of them are there.
pub(crate) fn restore_all<R: Routine>(
    alloc: Global,
    procs: &mut Vec<Proc<R>>,
    kept: &[ProcSnapshot<R>],
) -> Result<(), NoMemory>
    ensures procs { OnOk result (map process procs.new.items ≡ map process_in kept.now) }
    ensures books { OnOk result (AreWider (map books_in kept.now) (map books_of procs.new.items)) }
{
    fit(alloc, procs, kept)?;
    for (i, snapshot) in kept.iter().enumerate() {
        snapshot.restore(alloc, &mut procs[i])?;
    }
    Ok(())
}
