//! The processes that are there from the start.

ghost use Rattle.std.specs.Prelude.{◌≡◌, ◌≤◌, ◌++◌, List, IfOk, OnOk, length, map, slice_index_or};
ghost use Rattle.std.specs.List.{AllByRecursion};
ghost use Rattle.vx_record.specs.Types.{ProcDecl as ProcDeclOf};
ghost use Rattle.vx_record.specs.State.{no_decl};
ghost use Rattle.vx_record.specs.Runs.{born_from, first};
ghost use Rattle.vx_procs.specs.Kernel.{AreIn};
ghost use Rattle.vx_procs.specs.View.{process};
ghost use Rattle.vx_procs.specs.Fresh.{IsFresh};
ghost use Rattle.vx_procs.specs.Words.{born_if_started};

use crate::kept::first_units;
use crate::process::Proc;
use crate::procs::Core;
use crate::shared::SharedSystem;
use crate::table::Procs;
use std::alloc::Global;
use vx_base::{Effects, NoMemory, Routine};
use vx_clusters::Clusters;
use vx_image::{ProcDecl, ProcDecls, System};
use vx_mailbox::{Attentions, Boxes};
use vx_reqs::Reqs;
use vx_timers::Timers;

// Adds the process of a declaration at a place, if it is there from the start.
fn add_started<R: Routine>(
    alloc: Global,
    procs: &mut Vec<Proc<R>>,
    place: u32,
    decl: &ProcDecl,
) -> Result<(), NoMemory>
    ensures procs { OnOk result (map process procs.new.items ≡ map process procs.old.items ++ born_if_started place decl.now) }
    ensures fresh { OnOk result ((decls : List ProcDeclOf) → slice_index_or decls place no_decl ≡ decl.now → AllByRecursion (IsFresh decls) procs.old.items → AllByRecursion (IsFresh decls) procs.new.items) }
{
    if decl.start {
        procs.push(Proc::created(alloc, place, decl)?)?;
    }
    Ok(())
}

// The processes that are there from the start.
fn first_procs<R: Routine>(alloc: Global, decls: &ProcDecls) -> Result<Procs<R>, NoMemory>
    requires { length decls.now ≤ 1000 }
    ensures procs { IfOk result (λ procs. map process procs.items ≡ born_from 0 decls.now) }
    ensures fresh { IfOk result (λ procs. AllByRecursion (IsFresh decls.now) procs.items) }
{
    let mut procs = Vec::new(alloc);
    for (place, decl) in decls.as_slice().iter().enumerate() {
        add_started(alloc, &mut procs, place as u32, decl)?;
    }
    Ok(Procs::new(alloc, procs))
}

impl<R: Routine> Core<R> {
    /// A system before its first event: the processes that are there from the start, in the order of the script, which
    /// declares at most 1,000.
    pub fn new(alloc: Global, system: System) -> Result<Core<R>, NoMemory>
        requires { length system.decls ≤ 1000 }
        ensures state { IfOk result (λ core. core.state ≡ first system) }
        ensures home { IfOk result AreIn }
    {
        let procs = first_procs(alloc, &system.decls)?;
        let units = first_units(alloc, &system.units)?;
        let boxes = Boxes::new(alloc)?;
        let system = SharedSystem::new(alloc, system)?;
        Ok(Core {
            system,
            time: 0,
            next: 1,
            procs,
            clusters: Clusters::new(alloc),
            spare: None,
            timers: Timers::new(alloc),
            requests: Reqs::new(alloc),
            attention: Attentions::new(alloc),
            boxes,
            units,
            log: Effects::new(alloc),
            short: None,
            alloc,
        })
    }
}
