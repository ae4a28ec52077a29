//! Services on event flags.

ghost use Rattle.std.specs.Prelude.{◌≡◌, true};
ghost use Rattle.vx_record.specs.State.{IsProcess};
ghost use Rattle.vx_record.specs.Flags.{cell, clref, flag_part, flag_where_named, how_it_was, readef, setef};
ghost use Rattle.vx_procs.specs.Cells.{IsCell};
ghost use Rattle.vx_procs.specs.Kernel.{Acts, Does, DoesQuietly, Fits};
ghost use Rattle.vx_procs.specs.Ready.{IsReady};
ghost use Rattle.vx_ctl.specs.Answers.{named_flag, put_flag};

use vx_base::{Cell, Cond, Effect, Pid, Routine};
use vx_procs::Core;

// The last number that an event flag may have.
const LAST_FLAG: u32 = 127;

/// The condition that tells how a flag, or an enable, was.
pub(crate) fn how_it_was(on: bool) -> Cond
    ensures { result ≡ how_it_was on }
{
    if on { Cond::WasSet } else { Cond::WasClr }
}

/// The event flag that a number names for a process: ILLEFC above 127, UNASEFC if the number names no flag.
pub fn named_flag<R: Routine>(core: &Core<R>, p: Pid, efn: u32) -> Result<Cell, Cond>
    requires { IsProcess core.now.state p }
    ensures { result ≡ named_flag core.now.state p efn }
{
    if efn > LAST_FLAG {
        return Err(Cond::IllEfc);
    }
    core.cell(p, efn).ok_or(Cond::UnasEfc)
}

/// Sets or clears an event flag that a number names.
pub fn put_cell<R: Routine>(core: &mut Core<R>, cell: Cell, on: bool)
    requires there { IsCell core.old.state cell }
    requires room { Fits core.old (flag_part core.old.state cell on).effects }
    ensures { Acts (flag_part core.old.state cell on) core.old core.new }
{
    core.set_flag(&cell, on);
    core.tell(Effect::Flag { cell, bit: on });
}

/// FLAG: sets an event flag of a process, if the number names one now.
#[tactic(auto, using(crate::proofs::Told::told_none))]
pub fn set_where_named<R: Routine>(core: &mut Core<R>, p: Pid, efn: u32)
    requires made { IsProcess core.old.state p }
    requires room { Fits core.old (flag_where_named core.old.state (cell core.old.state p efn) true).effects }
    ensures { Acts (flag_where_named core.old.state (cell core.old.state p efn) true) core.old core.new }
{
    let Some(cell) = core.cell(p, efn) else {
        return;
    };
    put_cell(core, cell, true);
}

// Sets or clears the event flag of a number.
fn put_flag<R: Routine>(core: &mut Core<R>, p: Pid, efn: u32, on: bool) -> Cond
    requires ready { IsReady core.old p }
    requires room { Fits core.old (put_flag core.old.state p efn on).effects }
    ensures { Does (put_flag core.old.state p efn on) result core.old core.new }
{
    let cell = match named_flag(core, p, efn) {
        Ok(cell) => cell,
        Err(cond) => return cond,
    };
    let was = core.is_set(&cell);
    put_cell(core, cell, on);
    how_it_was(was)
}

/// $SETEF: sets an event flag. Its condition tells how the flag was: ILLEFC above 127, UNASEFC if the number names no
/// flag.
pub fn setef<R: Routine>(core: &mut Core<R>, p: Pid, efn: u32) -> Cond
    requires ready { IsReady core.old p }
    requires room { Fits core.old (setef core.old.state p efn).effects }
    ensures { Does (setef core.old.state p efn) result core.old core.new }
{
    put_flag(core, p, efn, true)
}

/// $CLREF: clears an event flag, and refuses as $SETEF does.
pub fn clref<R: Routine>(core: &mut Core<R>, p: Pid, efn: u32) -> Cond
    requires ready { IsReady core.old p }
    requires room { Fits core.old (clref core.old.state p efn).effects }
    ensures { Does (clref core.old.state p efn) result core.old core.new }
{
    put_flag(core, p, efn, false)
}

/// $READEF: how an event flag is, and the 32 flags of its cluster. It refuses as $SETEF does.
pub fn readef<R: Routine>(core: &Core<R>, p: Pid, efn: u32) -> Result<(Cond, u32), Cond>
    requires { IsProcess core.now.state p }
    ensures { DoesQuietly (readef core.now.state p efn) result core.now core.now }
{
    let cell = named_flag(core, p, efn)?;
    let cond = how_it_was(core.is_set(&cell));
    Ok((cond, core.flags_of(&cell)))
}
