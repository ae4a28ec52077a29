//! Waits, and the services that wait.

ghost use Rattle.std.specs.Prelude.{◌≡◌, ◌≤◌, ◌^◌, ◌%◌, if◌then◌else◌};
ghost use Rattle.vx_base.specs.Flags.{any_set, all_set};
ghost use Rattle.vx_record.specs.State.{IsProcess};
ghost use Rattle.vx_record.specs.Control.{hiber};
ghost use Rattle.vx_record.specs.Flags.{awaited, is_synchronized, normal_if, wait_condition, waitfr, wfland, wflor};
ghost use Rattle.vx_procs.specs.Cells.{IsCell};
ghost use Rattle.vx_procs.specs.Kernel.{DoesQuietly};
ghost use Rattle.vx_record.specs.Sound.{WaitStands};
ghost use Rattle.vx_procs.specs.Ready.{IsReady};
ghost use Rattle.vx_ctl.specs.Answers.{awaited_on_flag};

use crate::flags::named_flag;
use vx_base::{Cell, Cond, Pid, Routine, Wait};
use vx_procs::Core;
use vx_record::Served;

fn normal_if(holds: bool) -> Option<Cond>
    ensures { result ≡ normal_if holds }
{
    if holds { Some(Cond::Normal) } else { None }
}

// Whether flags hold what a mask asks: all of them, or any.
fn hold(flags: u32, mask: u32, all: bool) -> bool
    ensures { result ≡ (if all then all_set flags mask else any_set flags mask) }
{
    if all {
        flags & mask == mask
    } else {
        flags & mask != 0
    }
}

// Whether an event flag is set, and a process's status block, if one is named, filled.
fn is_synchronized<R: Routine>(core: &Core<R>, p: Pid, cell: &Cell, iosb: u32) -> bool
    requires made { IsProcess core.now.state p }
    requires there { IsCell core.now.state cell.now }
    requires block { iosb ≤ 32 }
    ensures { result ≡ is_synchronized core.now.state p iosb cell.now }
{
    core.is_set(cell) && (iosb == 0 || core.is_filled(p, iosb))
}

/// The condition with which a wait of a process ends now: UNASEFC if its number names no flag any more, else NORMAL; None if it
/// is not satisfied.
pub fn wait_condition<R: Routine>(core: &Core<R>, p: Pid, wait: Wait) -> Option<Cond>
    requires made { IsProcess core.now.state p }
    requires block { WaitStands wait }
    ensures { result ≡ wait_condition core.now.state p wait }
{
    match wait {
        Wait::Flags(efn, mask, all) => match core.cell(p, efn) {
            Some(cell) => normal_if(hold(core.flags_of(&cell), mask, all)),
            None => Some(Cond::UnasEfc),
        },
        Wait::Synch(efn, iosb) => match core.cell(p, efn) {
            Some(cell) => normal_if(is_synchronized(core, p, &cell, iosb)),
            None => Some(Cond::UnasEfc),
        },
        Wait::Hiber => normal_if(core.has_wake(p)),
    }
}

/// A service that waits answers at once if its wait is satisfied, and else leaves the wait in the top frame.
pub fn awaited<R: Routine>(core: &mut Core<R>, p: Pid, wait: Wait) -> Served
    requires made { IsProcess core.old.state p }
    requires block { WaitStands wait }
    ensures { DoesQuietly (awaited core.old.state p wait) result core.old core.new }
{
    match wait_condition(core, p, wait) {
        Some(cond) => Served::Answered(cond),
        None => {
            core.set_wait(p, Some(wait));
            Served::Waits
        }
    }
}

/// A service that waits by an event flag's number: ILLEFC above 127, UNASEFC if the number names no flag, else as `awaited`.
pub fn awaited_on_flag<R: Routine>(core: &mut Core<R>, p: Pid, efn: u32, wait: Wait) -> Served
    requires made { IsProcess core.old.state p }
    requires block { WaitStands wait }
    ensures { DoesQuietly (awaited_on_flag core.old.state p efn wait) result core.old core.new }
{
    match named_flag(core, p, efn) {
        Ok(_) => awaited(core, p, wait),
        Err(cond) => Served::Answered(cond),
    }
}

// The mask of one event flag in its cluster.
fn mask_of(efn: u32) -> u32
    ensures { result ≡ 2 ^ (efn % 32) }
{
    1u32 << (efn % 32)
}

/// $WAITFR: waits for an event flag: ILLEFC above 127, UNASEFC if the number names no flag. If the flag is set it answers at once.
pub fn waitfr<R: Routine>(core: &mut Core<R>, p: Pid, efn: u32) -> Served
    requires { IsReady core.old p }
    ensures { DoesQuietly (waitfr core.old.state p efn) result core.old core.new }
{
    awaited_on_flag(core, p, efn, Wait::Flags(efn, mask_of(efn), false))
}

/// $WFLOR: waits for any flag of a mask, in an event flag's cluster, and refuses as $WAITFR does. If the mask is 0 it waits for ever.
pub fn wflor<R: Routine>(core: &mut Core<R>, p: Pid, efn: u32, mask: u32) -> Served
    requires { IsReady core.old p }
    ensures { DoesQuietly (wflor core.old.state p efn mask) result core.old core.new }
{
    awaited_on_flag(core, p, efn, Wait::Flags(efn, mask, false))
}

/// $WFLAND: waits for all flags of a mask, in an event flag's cluster, and refuses as $WAITFR does. If the mask is 0 it answers at once.
pub fn wfland<R: Routine>(core: &mut Core<R>, p: Pid, efn: u32, mask: u32) -> Served
    requires { IsReady core.old p }
    ensures { DoesQuietly (wfland core.old.state p efn mask) result core.old core.new }
{
    awaited_on_flag(core, p, efn, Wait::Flags(efn, mask, true))
}

/// $HIBER: waits for a wake. If one pends, it is used up and the call answers at once.
pub fn hiber<R: Routine>(core: &mut Core<R>, p: Pid) -> Served
    requires { IsReady core.old p }
    ensures { DoesQuietly (hiber core.old.state p) result core.old core.new }
{
    if core.has_wake(p) {
        core.set_wake(p, false);
        return Served::Answered(Cond::Normal);
    }
    core.set_wait(p, Some(Wait::Hiber));
    Served::Waits
}
