//! Services that ask a unit for something, and that wait for it.

ghost use Rattle.std.specs.Prelude.{◌≡◌, IfErr, option_map};
ghost use Rattle.vx_record.specs.State.{IsProcess};
ghost use Rattle.vx_record.specs.Requests.{qio, qiow, synch};
ghost use Rattle.vx_procs.specs.Kernel.{Does, DoesQuietly, Fits};
ghost use Rattle.vx_procs.specs.Ready.{IsReady};
ghost use Rattle.vx_ctl.specs.Answers.{cond_of};
ghost use Rattle.vx_io.specs.Asking.{AreOpen, asked, served_of};
ghost use Rattle.vx_io.specs.Rooms.{AreFull};

use crate::accept::accept;
use crate::asking::{Asking, request_test};
use crate::rooms::Rooms;
use vx_base::{Cond, Pid, Routine, Wait};
use vx_ctl::{Refused, awaited, awaited_on_flag};
use vx_procs::Core;
use vx_record::Served;

/// $QIO: asks the device of a channel to read or to write, a mailbox for attention too, with an AST or without. Its event flag and its
/// status block are cleared, and a write's bytes are taken now. A request to a unit waits for it; a mailbox does its part at once.
/// BADPARAM, ILLEFC, UNASEFC, IVCHAN, NOPRIV, ILLIOFUNC, MBTOOSML, MBFULL and EXQUOTA, in this order. A refusal hands the routine back.
/// Takes no memory, and of the rooms what it uses.
#[tactic(auto, using(crate::proofs::Parted::told_none))]
pub fn qio<R: Routine>(
    core: &mut Core<R>,
    p: Pid,
    ask: Asking,
    ast: Option<R>,
    rooms: &mut Rooms,
) -> Result<Cond, Refused<R>>
    requires ready { IsReady core.old p }
    requires open { AreOpen core.old.state p }
    requires rooms { AreFull rooms.old }
    requires room { Fits core.old (qio core.old.state p (asked ask (option_map R.tagged ast))).effects }
    ensures does { Does (qio core.old.state p (asked ask (option_map R.tagged ast))) (cond_of result) core.old core.new }
    ensures handed { IfErr result (λ refused. refused.ast ≡ ast) }
{
    let to = match request_test(core, p, &ask, &ast) {
        Ok(to) => to,
        Err(cond) => return Err(Refused { cond, ast }),
    };
    accept(core, p, ask, to, ast, rooms);
    Ok(Cond::Normal)
}

/// $QIOW: as $QIO, and then waits as $SYNCH does.
#[tactic(auto, using(crate::proofs::Parted::told_none))]
pub fn qiow<R: Routine>(
    core: &mut Core<R>,
    p: Pid,
    ask: Asking,
    ast: Option<R>,
    rooms: &mut Rooms,
) -> Result<Served, Refused<R>>
    requires ready { IsReady core.old p }
    requires open { AreOpen core.old.state p }
    requires rooms { AreFull rooms.old }
    requires room { Fits core.old (qiow core.old.state p (asked ask (option_map R.tagged ast))).effects }
    ensures does { Does (qiow core.old.state p (asked ask (option_map R.tagged ast))) (served_of result) core.old core.new }
    ensures handed { IfErr result (λ refused. refused.ast ≡ ast) }
{
    let to = match request_test(core, p, &ask, &ast) {
        Ok(to) => to,
        Err(cond) => return Err(Refused { cond, ast }),
    };
    accept(core, p, ask, to, ast, rooms);
    Ok(awaited(core, p, Wait::Synch(ask.efn, ask.iosb)))
}

/// $SYNCH: waits for an event flag and, if one is named, for a filled I/O status block: BADPARAM above block 32, ILLEFC above flag
/// 127, UNASEFC if the number names no flag. If both are there it answers at once.
pub fn synch<R: Routine>(core: &mut Core<R>, p: Pid, efn: u32, iosb: u32) -> Served
    requires { IsProcess core.old.state p }
    ensures { DoesQuietly (synch core.old.state p efn iosb) result core.old core.new }
{
    if iosb > 32 {
        return Served::Answered(Cond::BadParam);
    }
    awaited_on_flag(core, p, efn, Wait::Synch(efn, iosb))
}
