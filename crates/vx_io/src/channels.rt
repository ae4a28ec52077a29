//! Services on channels, and how a channel is freed.

ghost use Rattle.std.specs.Prelude.{◌<◌, IsSome, IsTrue, length};
ghost use Rattle.vx_base.specs.Channels.{channel_at, is_channel_number};
ghost use Rattle.vx_record.specs.State.{IsProcess, process_at};
ghost use Rattle.vx_record.specs.Channels.{assign, free_channel};
ghost use Rattle.vx_record.specs.Sound.{ChannelStands, ground};
ghost use Rattle.vx_procs.specs.Kernel.{Acts, DoesQuietly, Fits};

use crate::mailboxes::sweep;
use vx_base::{Cond, Device, Mode, Pid, Routine, outer_of};
use vx_procs::Core;

/// $ASSIGN: assigns the least free channel of a process to the device of a name, in the outer one of a mode and the caller's, and gives
/// its number: NOSUCHDEV exactly where no device has the name, NOIOCHAN if one has and no channel is free.
pub fn assign<R: Routine>(core: &mut Core<R>, p: Pid, name: &[u8], mode: Mode) -> Result<u32, Cond>
    requires made { IsProcess core.old.state p }
    requires units { length core.old.state.system.units < 4294967296 }
    ensures { DoesQuietly (assign core.old.state p name.now mode) result core.old core.new }
{
    let mode = outer_of(mode, core.current_mode(p));
    match core.device_named(name) {
        Some(device) => core.assign(p, device, mode),
        None => Err(Cond::NoSuchDev),
    }
}

/// Frees a channel that is assigned. If it was the last to its mailbox, and that is temporary or marked for deletion, the mailbox goes
/// with its messages. Takes no memory.
pub fn free_channel<R: Routine>(core: &mut Core<R>, p: Pid, n: u32)
    requires made { IsProcess core.old.state p }
    requires number { IsTrue (is_channel_number n) }
    requires assigned { IsSome (channel_at (process_at core.old.state p).channels n) }
    requires stands { ChannelStands (ground core.old.state) (channel_at (process_at core.old.state p).channels n) }
    requires room { Fits core.old (free_channel core.old.state p n).effects }
    ensures { Acts (free_channel core.old.state p n) core.old core.new }
{
    let device = core.channel_device(p, n);
    core.free_channel(p, n);
    match device {
        Some(Device::Mailbox(b)) => sweep(core, b),
        Some(Device::Unit(_)) => (),
        None => (),
    }
}
