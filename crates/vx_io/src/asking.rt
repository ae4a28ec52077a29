//! What a request asks ($QIO), and its tests, in their order.

ghost use Rattle.std.specs.Prelude.{◌≡◌, false, true, IfOk, None, is_some, option_map};
ghost use Rattle.std.specs.List.{AllByRecursion};
ghost use Rattle.vx_record.specs.State.{IsProcess, process_at};
ghost use Rattle.vx_record.specs.Channels.{channel_test};
ghost use Rattle.vx_record.specs.Charges.{exceeds, is_attention, request_need};
ghost use Rattle.vx_record.specs.Finish.{is_write};
ghost use Rattle.vx_record.specs.Requests.{device_test, has_function, is_bad, is_full, is_too_long, request_test};
ghost use Rattle.vx_procs.specs.Cells.{IsCell};
ghost use Rattle.vx_procs.specs.Channels.{channel_of};
ghost use Rattle.vx_record.specs.Sound.{ChannelStands, DeviceStands, ground};
ghost use Rattle.vx_procs.specs.Ready.{IsReady};
ghost use Rattle.vx_io.specs.Asking.{AreOpen, IsGranted, IsInRange, asked, granted, to_device};

use vx_base::{Cell, Cond, Device, Func, Mode, Pid, Routine};
use vx_ctl::named_flag;
use vx_procs::{Core, is_attention};

/// What a request asks ($QIO), but for its AST: event flag, channel, function, I/O status block (1 to 32, 0 for none), buffer (0 to
/// 31), length in bytes, and block.
#[derive(Clone, Copy, Debug)]
pub struct Asking {
    pub efn: u32,
    pub chan: u32,
    pub func: Func,
    pub iosb: u32,
    pub buf: u32,
    pub len: u32,
    pub blk: u32,
}

/// Where a request goes that passed its tests: its event flag, and the device and the mode of its channel.
#[derive(Clone, Copy)]
pub(crate) struct Granted {
    pub cell: Cell,
    pub device: Device,
    pub mode: Mode,
}

// Whether a number is out of its range, or an attention AST is asked for and there is none.
#[tactic(auto, using(crate::proofs::Asked::mapped_none))]
fn is_bad<R: Routine>(ask: &Asking, ast: &Option<R>) -> bool
    ensures bad { result ≡ is_bad (asked ask.now (option_map R.tagged ast.now)) }
    ensures range { result ≡ false → IsInRange ask.now }
    ensures ast { result ≡ false → is_attention ask.now.func ≡ true → is_some (option_map R.tagged ast.now) ≡ true }
{
    if ask.iosb > 32 {
        return true;
    }
    if ask.buf > 31 {
        return true;
    }
    if ask.len > 2048 {
        return true;
    }
    is_attention(ask.func) && ast.is_none()
}

// Whether a device has a function: a unit reads and writes, and a mailbox does all.
fn has_function(device: Device, func: Func) -> bool
    ensures { result ≡ has_function device func }
{
    match device {
        Device::Unit(_) => matches!(func, Func::Read | Func::Write),
        Device::Mailbox(_) => true,
    }
}

/// Whether a request writes.
pub(crate) fn is_write(func: Func) -> bool
    ensures { result ≡ is_write func }
{
    matches!(func, Func::Write | Func::WriteNow)
}

// Whether a request writes more than its mailbox takes.
fn is_too_long<R: Routine>(core: &Core<R>, device: Device, ask: &Asking) -> bool
    requires { DeviceStands (ground core.now.state) device }
    ensures { result ≡ is_too_long core.now.state device (asked ask.now None) }
{
    match device {
        Device::Unit(_) => false,
        Device::Mailbox(b) => is_write(ask.func) && core.maxmsg(b) < ask.len,
    }
}

// Whether no read waits for what a request writes, and its mailbox has no room for it.
#[tactic(auto, using(crate::proofs::Asked::none_waits, crate::proofs::Asked::not_within))]
fn is_full<R: Routine>(core: &Core<R>, device: Device, ask: &Asking) -> bool
    requires { DeviceStands (ground core.now.state) device }
    ensures { result ≡ is_full core.now.state device (asked ask.now None) }
{
    match device {
        Device::Unit(_) => false,
        Device::Mailbox(b) => {
            is_write(ask.func) && core.first_read(b).is_none() && !core.box_fits(b, ask.len)
        }
    }
}

// Whether a request would exceed a limit of its process.
#[tactic(auto, using(crate::proofs::Asked::mapped_some))]
fn is_beyond<R: Routine>(
    core: &Core<R>,
    p: Pid,
    ask: &Asking,
    ast: &Option<R>,
    device: Device,
) -> bool
    requires { IsProcess core.now.state p }
    ensures { result ≡ exceeds core.now.state p (request_need core.now.state device ask.now.func (is_some (option_map R.tagged ast.now)) ask.now.len) }
{
    core.exceeds(
        p,
        core.request_need(device, ask.func, ast.is_some(), ask.len),
    )
}

// The tests of a device: ILLIOFUNC if it has not the function, MBTOOSML and MBFULL if a mailbox cannot take a write, EXQUOTA
// beyond a limit.
fn device_test<R: Routine>(
    core: &Core<R>,
    p: Pid,
    ask: &Asking,
    ast: &Option<R>,
    to: Granted,
) -> Result<Granted, Cond>
    requires made { IsProcess core.now.state p }
    requires range { IsInRange ask.now }
    requires ast { is_attention ask.now.func ≡ true → is_some (option_map R.tagged ast.now) ≡ true }
    requires there { IsCell core.now.state to.cell }
    requires device { DeviceStands (ground core.now.state) to.device }
    ensures test { device_test core.now.state p (asked ask.now (option_map R.tagged ast.now)) to.cell (to_device to.device to.mode) ≡ granted result }
    ensures passed { IfOk result (IsGranted core.now.state p ask.now (is_some (option_map R.tagged ast.now))) }
{
    if !has_function(to.device, ask.func) {
        return Err(Cond::IllIoFunc);
    }
    if is_too_long(core, to.device, ask) {
        return Err(Cond::MbTooSml);
    }
    if is_full(core, to.device, ask) {
        return Err(Cond::MbFull);
    }
    if is_beyond(core, p, ask, ast, to.device) {
        return Err(Cond::ExQuota);
    }
    Ok(to)
}

/// The device and the mode of a channel that a process may use now.
pub(crate) fn device_channel<R: Routine>(
    core: &Core<R>,
    p: Pid,
    n: u32,
) -> Result<(Device, Mode), Cond>
    requires made { IsProcess core.now.state p }
    requires channels { AllByRecursion (ChannelStands (ground core.now.state)) (process_at core.now.state p).channels }
    ensures channel { channel_test core.now.state p n ≡ channel_of result }
    ensures device { IfOk result (λ found. DeviceStands (ground core.now.state) found.0) }
{
    core.channel(p, n)
}

/// The tests of a request: BADPARAM if a number is out of its range or attention is asked for with no AST, ILLEFC above event flag
/// 127, UNASEFC if the number names no flag, IVCHAN and NOPRIV by the channel, ILLIOFUNC if a unit has not the function,
/// MBTOOSML and MBFULL if a mailbox cannot take a write, EXQUOTA beyond a limit.
pub(crate) fn request_test<R: Routine>(
    core: &Core<R>,
    p: Pid,
    ask: &Asking,
    ast: &Option<R>,
) -> Result<Granted, Cond>
    requires ready { IsReady core.now p }
    requires open { AreOpen core.now.state p }
    ensures test { request_test core.now.state p (asked ask.now (option_map R.tagged ast.now)) ≡ granted result }
    ensures passed { IfOk result (IsGranted core.now.state p ask.now (is_some (option_map R.tagged ast.now))) }
{
    if is_bad(ask, ast) {
        return Err(Cond::BadParam);
    }
    let cell = named_flag(core, p, ask.efn)?;
    let (device, mode) = device_channel(core, p, ask.chan)?;
    device_test(core, p, ask, ast, Granted { cell, device, mode })
}
