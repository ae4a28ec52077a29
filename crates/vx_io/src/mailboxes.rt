//! Mailboxes: made, marked for deletion, and gone with their last channel.

ghost use Rattle.std.specs.Prelude.{◌≡◌, ◌<◌, ◌||◌, ◌&&◌, None};
ghost use Rattle.vx_base.specs.declared.request.Device.TheVariants.{Mailbox};
ghost use Rattle.vx_record.specs.Channels.{box_named, crembx, create_box, delete_box, delmbx, find_or_create, free_channel_of, goes_unused, is_bad_box, make_box, swept_device};
ghost use Rattle.vx_record.specs.Mailboxes.{mailbox_at};
ghost use Rattle.vx_record.specs.Sound.{BoxStands, ground};
ghost use Rattle.vx_record.specs.State.{IsProcess, box_at};
ghost use Rattle.vx_procs.specs.Kernel.{Acts, Does, Fits};
ghost use Rattle.vx_procs.specs.Ready.{HasMessageRooms};
ghost use Rattle.vx_io.specs.Asking.{AreOpen, box_asked};

use crate::asking::device_channel;
use vx_base::{BoxNo, Cond, Device, Effect, Mode, Name, Pid, Routine, outer_of};
use vx_procs::Core;

/// The mailbox that $CREMBX asks for: its name, and, if there is none of that name, whether it is permanent (0 for a temporary one), the
/// most bytes of a message, and how many bytes it holds.
#[derive(Clone, Copy, Debug)]
pub struct NewBox {
    pub name: Name,
    pub perm: u32,
    pub maxmsg: u32,
    pub bufquo: u32,
}

// Whether a mailbox goes when no channel is assigned to it: it is temporary, or marked for deletion.
fn goes_unused<R: Routine>(core: &Core<R>, b: BoxNo) -> bool
    requires { BoxStands (ground core.now.state) b }
    ensures { result ≡ goes_unused (mailbox_at core.now.state b) }
{
    core.is_marked(b) || !core.is_permanent(b)
}

/// MBX: a mailbox that no channel is assigned to goes with its messages, if it is temporary or marked for deletion.
#[tactic(auto, using(crate::proofs::Parted::told_none))]
pub(crate) fn sweep<R: Routine>(core: &mut Core<R>, b: BoxNo)
    requires stands { BoxStands (ground core.old.state) b }
    requires room { Fits core.old (swept_device core.old.state (Mailbox b)).effects }
    ensures { Acts (swept_device core.old.state (Mailbox b)) core.old core.new }
{
    if !core.is_assigned(b) && goes_unused(core, b) {
        let name = core.box_name(b);
        core.tell(Effect::Mbx { name, bit: false });
        core.remove_box(b);
    }
}

// Whether a unit has the name of a mailbox that is asked for, or a number is out of its range.
fn is_bad_box<R: Routine>(core: &Core<R>, name: &[u8], maxmsg: u32, bufquo: u32) -> bool
    ensures { result ≡ is_bad_box core.now.state name.now maxmsg bufquo }
{
    core.is_unit_name(name) || maxmsg < 1 || 2048 < maxmsg || bufquo < maxmsg || 65535 < bufquo
}

// MBX: a mailbox is made under a number that none has, and a channel to it is assigned: NOIOCHAN if no channel is free.
fn make_box<R: Routine>(
    core: &mut Core<R>,
    p: Pid,
    mode: Mode,
    b: BoxNo,
    ask: NewBox,
) -> Result<u32, Cond>
    requires made { IsProcess core.old.state p }
    requires within { b.0 < 64 }
    requires free { box_at core.old.state b ≡ None }
    requires messages { HasMessageRooms core.old }
    requires room { Fits core.old (make_box core.old.state p mode (box_asked ask) b.0 (free_channel_of core.old.state p)).effects }
    ensures { Does (make_box core.old.state p mode (box_asked ask) b.0 (free_channel_of core.old.state p)) result core.old core.new }
{
    let n = core.assign(p, Device::Mailbox(b), mode)?;
    core.make_box(b, ask.name, ask.perm != 0, ask.maxmsg, ask.bufquo);
    core.tell(Effect::Mbx {
        name: ask.name,
        bit: true,
    });
    Ok(n)
}

// Makes a mailbox that is not there yet, with a channel to it: NOPRIV if it is permanent and the caller may not, NOSLOT if there
// are 64, NOIOCHAN if no channel is free.
fn create_box<R: Routine>(core: &mut Core<R>, p: Pid, mode: Mode, ask: NewBox) -> Result<u32, Cond>
    requires made { IsProcess core.old.state p }
    requires messages { HasMessageRooms core.old }
    requires room { Fits core.old (create_box core.old.state p mode (box_asked ask)).effects }
    ensures { Does (create_box core.old.state p mode (box_asked ask)) result core.old core.new }
{
    if ask.perm != 0 && !core.privs(p).prmmbx {
        return Err(Cond::NoPriv);
    }
    match core.free_box() {
        Some(b) => make_box(core, p, mode, b, ask),
        None => Err(Cond::NoSlot),
    }
}

// Assigns a channel to the mailbox of a name, which is made if there is none.
#[tactic(auto, using(crate::proofs::Parted::told_none))]
fn find_or_create<R: Routine>(
    core: &mut Core<R>,
    p: Pid,
    mode: Mode,
    ask: NewBox,
) -> Result<u32, Cond>
    requires made { IsProcess core.old.state p }
    requires messages { HasMessageRooms core.old }
    requires room { Fits core.old (find_or_create core.old.state p mode (box_asked ask) (box_named core.old.state ask.name)).effects }
    ensures { Does (find_or_create core.old.state p mode (box_asked ask) (box_named core.old.state ask.name)) result core.old core.new }
{
    match core.box_named(ask.name.text()) {
        Some(b) => core.assign(p, Device::Mailbox(b), mode),
        None => create_box(core, p, mode, ask),
    }
}

/// $CREMBX: assigns the least free channel of the caller, in the outer one of a mode and the caller's, to the mailbox of a name, which
/// is made if there is none, and gives the channel's number. BADPARAM if a unit has the name or a number is out of its range; of a
/// new mailbox NOPRIV if it is permanent and the caller may not make one, and NOSLOT if there are 64; NOIOCHAN if no channel
/// is free. Takes no memory.
pub fn crembx<R: Routine>(core: &mut Core<R>, p: Pid, ask: NewBox, mode: Mode) -> Result<u32, Cond>
    requires made { IsProcess core.old.state p }
    requires messages { HasMessageRooms core.old }
    requires room { Fits core.old (crembx core.old.state p ask.name ask.perm ask.maxmsg ask.bufquo mode).effects }
    ensures { Does (crembx core.old.state p ask.name ask.perm ask.maxmsg ask.bufquo mode) result core.old core.new }
{
    if is_bad_box(core, ask.name.text(), ask.maxmsg, ask.bufquo) {
        return Err(Cond::BadParam);
    }
    let mode = outer_of(mode, core.current_mode(p));
    find_or_create(core, p, mode, ask)
}

// Marks a permanent mailbox for deletion: NOPRIV if the caller may not. A temporary one goes by itself.
#[tactic(auto, using(crate::proofs::Parted::told_none))]
fn delete_box<R: Routine>(core: &mut Core<R>, p: Pid, b: BoxNo) -> Cond
    requires made { IsProcess core.old.state p }
    requires stands { BoxStands (ground core.old.state) b }
    ensures { Does (delete_box core.old.state p b) result core.old core.new }
{
    if !core.is_permanent(b) {
        return Cond::Normal;
    }
    if !core.privs(p).prmmbx {
        return Cond::NoPriv;
    }
    core.mark_box(b);
    Cond::Normal
}

/// $DELMBX: the mailbox of a channel, if it is permanent, is marked for deletion, and goes with its last channel: IVCHAN and NOPRIV as
/// $CANCEL, DEVNOTMBX if the channel is to a unit, NOPRIV if the caller may not delete a permanent mailbox.
pub fn delmbx<R: Routine>(core: &mut Core<R>, p: Pid, chan: u32) -> Cond
    requires made { IsProcess core.old.state p }
    requires open { AreOpen core.old.state p }
    ensures { Does (delmbx core.old.state p chan) result core.old core.new }
{
    match device_channel(core, p, chan) {
        Ok((Device::Mailbox(b), _)) => delete_box(core, p, b),
        Ok((Device::Unit(_), _)) => Cond::DevNotMbx,
        Err(cond) => cond,
    }
}
