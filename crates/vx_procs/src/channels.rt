//! The channels of a process.

ghost use Rattle.std.specs.Prelude.{◌≡◌, IsSome, IsTrue, None, length, option_map};
ghost use Rattle.vx_base.specs.Channels.{channel_at, is_channel_number, next_of_mode};
ghost use Rattle.vx_record.specs.State.{IsProcess, process_at};
ghost use Rattle.vx_record.specs.Channels.{assign_at, channel_test, free_channel_of, with_channel};
ghost use Rattle.vx_procs.specs.Channels.{channel_of, cond_of, or_cond};
ghost use Rattle.vx_procs.specs.Kernel.{DoesQuietly, changed};

use crate::procs::Core;
use vx_base::{Cond, Device, Mode, Pid, Routine};
use vx_chans::ChanFail;

// The condition of a refusal.
fn cond_of(fail: ChanFail) -> Cond
    ensures { result ≡ cond_of fail }
{
    match fail {
        ChanFail::IvChan => Cond::IvChan,
        ChanFail::NoPriv => Cond::NoPriv,
        ChanFail::NoIoChan => Cond::NoIoChan,
    }
}

// The condition of a refusal, if it is one.
fn or_cond(answer: Result<u32, ChanFail>) -> Result<u32, Cond>
    ensures { result ≡ or_cond answer }
{
    match answer {
        Ok(number) => Ok(number),
        Err(fail) => Err(cond_of(fail)),
    }
}

impl<R: Routine> Core<R> {
    /// Assigns the least free channel of a process to a device, in a mode, and gives its number, 1 to 64 ($ASSIGN). NOIOCHAN, and
    /// nothing changed, exactly where none is free. Takes no memory.
    pub fn assign(&mut self, p: Pid, device: Device, mode: Mode) -> Result<u32, Cond>
        requires { IsProcess self.old.state p }
        ensures { DoesQuietly (assign_at self.old.state p device mode (free_channel_of self.old.state p)) result self.old self.new }
    {
        or_cond(self.procs.at_mut(p).chans.assign(device, mode))
    }

    /// The device and the mode of a channel that a process may use now. IVCHAN exactly where the number is none of a channel, NOPRIV
    /// if the channel is free or of a mode further in than the one in which the process runs.
    pub fn channel(&self, p: Pid, n: u32) -> Result<(Device, Mode), Cond>
        requires { IsProcess self.now.state p }
        ensures { channel_test self.now.state p n ≡ channel_of result }
    {
        let proc = self.process_of(p);
        match proc.chans.find(n, proc.mode()) {
            Ok(found) => Ok(found),
            Err(fail) => Err(cond_of(fail)),
        }
    }

    /// The device of a channel, if it is assigned, whatever its mode.
    pub fn channel_device(&self, p: Pid, n: u32) -> Option<Device>
        requires made { IsProcess self.now.state p }
        requires number { IsTrue (is_channel_number n) }
        ensures { result ≡ option_map (λ ch. ch.device) (channel_at (process_at self.now.state p).channels n) }
    {
        self.process_of(p).chans.device(n)
    }

    /// Frees a channel that is assigned ($DASSGN). Takes no memory.
    pub fn free_channel(&mut self, p: Pid, n: u32)
        requires made { IsProcess self.old.state p }
        requires number { IsTrue (is_channel_number n) }
        requires assigned { IsSome (channel_at (process_at self.old.state p).channels n) }
        ensures { self.new ≡ changed self.old p (with_channel n None) }
    {
        self.procs.at_mut(p).chans.free(n)
    }

    /// The least channel of a process above a number that is assigned in a mode or an outer one.
    pub fn next_channel(&self, p: Pid, mode: Mode, after: u32) -> Option<u32>
        requires { IsProcess self.now.state p }
        ensures { result ≡ next_of_mode mode after (process_at self.now.state p).channels }
    {
        self.process_of(p).chans.next_of_mode(mode, after)
    }
}
