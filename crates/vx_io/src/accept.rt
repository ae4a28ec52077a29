//! How a request is accepted: its event flag and its status block are cleared, a write's bytes are taken, and it is opened.

ghost use Rattle.std.specs.Prelude.{◌≡◌, ◌≤◌, ◌∷◌, [], false, true, IsTrue, None, is_some, length, option_map};
ghost use Rattle.vx_base.specs.Pieces.{cleared};
ghost use Rattle.vx_base.specs.Queues.{body_bytes};
ghost use Rattle.vx_record.specs.State.{IsProcess, next_id};
ghost use Rattle.vx_record.specs.Charges.{is_attention};
ghost use Rattle.vx_record.specs.Finish.{iosb_part, is_write};
ghost use Rattle.vx_record.specs.Requests.{accepted, asked_of, captured, cleared_part, has_function, opened_request, promised, transfer};
ghost use Rattle.vx_record.specs.Mailboxes.{is_held};
ghost use Rattle.vx_reqs.specs.Requests.{promised_of};
ghost use Rattle.vx_procs.specs.Cells.{IsCell};
ghost use Rattle.vx_procs.specs.Kernel.{Acts, Fits, told};
ghost use Rattle.vx_io.specs.Asking.{IsGranted, IsInRange, IsOpening, asked, opened_effect, to_device};
ghost use Rattle.vx_io.specs.Boxes.{IsServing};
ghost use Rattle.vx_io.specs.Moving.{moved, written};
ghost use Rattle.vx_io.specs.Rooms.{AreFull};
ghost use Rattle.vx_procs.specs.Ready.{HasMessageRooms};

use crate::asking::{Asking, Granted};
use crate::attention::set_attention;
use crate::finish::is_read;
use crate::messages::{read_box, write_box};
use crate::rooms::Rooms;
use vx_base::{
    Body, BoxNo, Bytes, Cell, Device, Effect, Func, Id, Mode, Msg, Opened, Pid, Req, Routine,
};
use vx_ctl::{mode_of_ast, put_cell};
use vx_procs::{Core, is_attention, moved_bytes};

// IOSB: the status block is cleared, if the request named one.
#[tactic(auto, using(crate::proofs::Parted::told_none))]
fn clear_status<R: Routine>(core: &mut Core<R>, p: Pid, i: u32)
    requires made { IsProcess core.old.state p }
    requires iosb { i ≤ 32 }
    requires room { Fits core.old (iosb_part core.old.state p i cleared).effects }
    ensures { Acts (iosb_part core.old.state p i cleared) core.old core.new }
{
    if i != 0 {
        core.set_status(p, i, None, 0, 0);
        core.tell(Effect::Iosb {
            p,
            i,
            cond: None,
            count: 0,
            info: 0,
        });
    }
}

// The event flag and the status block of a request are cleared.
fn clear<R: Routine>(core: &mut Core<R>, p: Pid, ask: &Asking, cell: Cell)
    requires made { IsProcess core.old.state p }
    requires there { IsCell core.old.state cell }
    requires range { IsInRange ask.now }
    requires room { Fits core.old (cleared_part core.old.state p (asked ask.now None) cell).effects }
    ensures { Acts (cleared_part core.old.state p (asked ask.now None) cell) core.old core.new }
{
    put_cell(core, cell, false);
    clear_status(core, p, ask.iosb);
}

// The bytes that a write takes from its buffer now; a request that does not write takes none.
fn captured<R: Routine>(core: &Core<R>, p: Pid, ask: &Asking, rooms: &mut Rooms) -> Bytes
    requires made { IsProcess core.now.state p }
    requires range { IsInRange ask.now }
    requires kept { IsTrue rooms.old.kept }
    ensures bytes { result ≡ captured core.now.state p (asked ask.now None) }
    ensures size { IsTrue (is_write ask.now.func) → length result ≡ ask.now.len }
    ensures after { rooms.new ≡ record rooms.old { kept = false } }
{
    match ask.func {
        Func::Write | Func::WriteNow => { rooms.kept(&core.buffer(p, ask.buf)[..ask.len as usize]) }
        _ => rooms.kept(b"".as_slice()),
    }
}

// The AST of a request, with its mode.
fn promised<R: Routine>(mode: Mode, ast: Option<R>) -> Option<(Mode, R)>
    ensures ast { option_map (promised_of R.tagged) result ≡ promised mode (option_map R.tagged ast) }
    ensures some { is_some result ≡ is_some (option_map R.tagged ast) }
{
    match ast {
        Some(routine) => Some((mode, routine)),
        None => None,
    }
}

// OPEN: a request to a block unit is a direct one; one to a line unit is buffered, and its bytes are charged.
fn tell_opened<R: Routine>(
    core: &mut Core<R>,
    id: Id,
    p: Pid,
    mode: Option<Mode>,
    device: Device,
    ask: &Asking,
)
    requires room { Fits core.old (opened_effect core.old.state id p mode device ask.now.func ask.now.len ∷ []) }
    ensures { core.new ≡ told core.old (opened_effect core.old.state id p mode device ask.now.func ask.now.len ∷ []) }
{
    if core.is_direct(device) {
        core.tell(Effect::Open {
            id,
            kind: Opened::Dio,
            p,
            mode,
            n: 0,
        });
    } else {
        core.tell(Effect::Open {
            id,
            kind: Opened::Bio,
            p,
            mode,
            n: moved_bytes(ask.func, ask.len),
        });
    }
}

// Opens a request, with an AST or without.
fn open<R: Routine>(
    core: &mut Core<R>,
    p: Pid,
    ask: &Asking,
    device: Device,
    chan_mode: Mode,
    ast: Option<R>,
    rooms: &mut Rooms,
) -> Id
    requires opening { IsOpening core.old p device ask.now.func (is_some (option_map R.tagged ast)) ask.now.len }
    requires range { IsInRange ask.now }
    requires func { IsTrue (has_function device ask.now.func) }
    requires transfer { is_attention ask.now.func ≡ false }
    requires kept { IsTrue rooms.old.kept }
    requires room { Fits core.old (opened_request core.old.state p (asked ask.now (option_map R.tagged ast)) (to_device device chan_mode)).effects }
    ensures id { result ≡ next_id core.old.state }
    ensures does { Acts (opened_request core.old.state p (asked ask.now (option_map R.tagged ast)) (to_device device chan_mode)) core.old core.new }
    ensures rooms { rooms.new ≡ record rooms.old { kept = false } }
{
    let mode = core.current_mode(p);
    let bytes = captured(core, p, ask, rooms);
    let id = core.new_id();
    tell_opened(core, id, p, mode_of_ast(mode, &ast), device, ask);
    let req = Req {
        id,
        p,
        chan: ask.chan,
        chan_mode,
        device,
        func: ask.func,
        efn: ask.efn,
        iosb: ask.iosb,
        buf: ask.buf,
        len: ask.len,
        blk: ask.blk,
        bytes,
    };
    core.accept(req, promised(mode, ast));
    id
}

// What a request writes to a mailbox: an end of file, or the bytes of its buffer.
fn body<R: Routine>(core: &Core<R>, p: Pid, ask: &Asking, rooms: &mut Rooms) -> Body
    requires made { IsProcess core.now.state p }
    requires range { IsInRange ask.now }
    requires stored { IsTrue rooms.old.stored }
    ensures body { result ≡ written core.now.state p (asked ask.now None) }
    ensures size { length (body_bytes result) ≤ 2048 }
    ensures told { rooms.new.told ≡ rooms.old.told }
    ensures read { rooms.new.read ≡ rooms.old.read }
{
    match ask.func {
        Func::Write | Func::WriteNow => {
            Body::Text(rooms.stored(&core.buffer(p, ask.buf)[..ask.len as usize]))
        }
        Func::Eof | Func::EofNow => Body::Eof,
        _ => Body::Text(rooms.stored(b"".as_slice())),
    }
}

// Whether a write is held until its message is read.
fn is_held(func: Func) -> bool
    ensures { result ≡ is_held func }
{
    matches!(func, Func::Write | Func::Eof)
}

// A request that was opened on a mailbox does its part.
fn move_message<R: Routine>(
    core: &mut Core<R>,
    p: Pid,
    ask: &Asking,
    b: BoxNo,
    id: Id,
    rooms: &mut Rooms,
)
    requires made { IsProcess core.old.state p }
    requires range { IsInRange ask.now }
    requires serving { IsServing core.old.state b }
    requires messages { HasMessageRooms core.old }
    requires stored { IsTrue rooms.old.stored }
    requires told { IsTrue rooms.old.told }
    requires read { IsTrue rooms.old.read }
    requires room { Fits core.old (moved core.old.state p (asked ask.now None) b id).effects }
    ensures { Acts (moved core.old.state p (asked ask.now None) b id) core.old core.new }
{
    if is_read(ask.func) {
        read_box(core, b, id, ask.func, rooms);
    } else {
        let body = body(core, p, ask, rooms);
        let held = is_held(ask.func);
        write_box(
            core,
            b,
            Msg {
                id,
                writer: p,
                body,
                held,
            },
            rooms,
        );
    }
}

// Opens a request on a device; one on a mailbox does its part at once.
fn transfer<R: Routine>(
    core: &mut Core<R>,
    p: Pid,
    ask: Asking,
    device: Device,
    chan_mode: Mode,
    ast: Option<R>,
    rooms: &mut Rooms,
)
    requires opening { IsOpening core.old p device ask.func (is_some (option_map R.tagged ast)) ask.len }
    requires range { IsInRange ask }
    requires func { IsTrue (has_function device ask.func) }
    requires transfer { is_attention ask.func ≡ false }
    requires rooms { AreFull rooms.old }
    requires room { Fits core.old (transfer core.old.state p (asked ask (option_map R.tagged ast)) (to_device device chan_mode)).effects }
    ensures { Acts (transfer core.old.state p (asked ask (option_map R.tagged ast)) (to_device device chan_mode)) core.old core.new }
{
    let id = open(core, p, &ask, device, chan_mode, ast, rooms);
    match device {
        Device::Mailbox(b) => move_message(core, p, &ask, b, id, rooms),
        Device::Unit(_) => (),
    }
}

// What is asked of a device: attention of a mailbox, or a transfer.
fn ask_device<R: Routine>(
    core: &mut Core<R>,
    p: Pid,
    ask: Asking,
    device: Device,
    chan_mode: Mode,
    ast: Option<R>,
    rooms: &mut Rooms,
)
    requires opening { IsOpening core.old p device ask.func (is_some (option_map R.tagged ast)) ask.len }
    requires range { IsInRange ask }
    requires func { IsTrue (has_function device ask.func) }
    requires ast { is_attention ask.func ≡ true → is_some (option_map R.tagged ast) ≡ true }
    requires rooms { AreFull rooms.old }
    requires room { Fits core.old (asked_of core.old.state p (asked ask (option_map R.tagged ast)) (to_device device chan_mode)).effects }
    ensures { Acts (asked_of core.old.state p (asked ask (option_map R.tagged ast)) (to_device device chan_mode)) core.old core.new }
{
    if !is_attention(ask.func) {
        transfer(core, p, ask, device, chan_mode, ast, rooms);
        return;
    }
    match device {
        Device::Mailbox(b) => match ast {
            Some(routine) => set_attention(core, p, ask, b, routine),
            None => unreachable!(),
        },
        Device::Unit(_) => unreachable!(),
    }
}

/// Accepts a request that passed its tests.
pub(crate) fn accept<R: Routine>(
    core: &mut Core<R>,
    p: Pid,
    ask: Asking,
    to: Granted,
    ast: Option<R>,
    rooms: &mut Rooms,
)
    requires opening { IsOpening core.old p to.device ask.func (is_some (option_map R.tagged ast)) ask.len }
    requires passed { IsGranted core.old.state p ask (is_some (option_map R.tagged ast)) to }
    requires rooms { AreFull rooms.old }
    requires room { Fits core.old (accepted core.old.state p (asked ask (option_map R.tagged ast)) to.cell (to_device to.device to.mode)).effects }
    ensures does { Acts (accepted core.old.state p (asked ask (option_map R.tagged ast)) to.cell (to_device to.device to.mode)) core.old core.new }
    ensures made { IsProcess core.new.state p }
{
    clear(core, p, &ask, to.cell);
    ask_device(core, p, ask, to.device, to.mode, ast, rooms);
}
