//! What an accepted write, end of file or read does at a mailbox.

ghost use Rattle.std.specs.Prelude.{◌≡◌, ◌≤◌, [], IfSome, IsSome, IsTrue, Some, length, option_map};
ghost use Rattle.std.specs.List.{find};
ghost use Rattle.vx_base.specs.Queues.{body_bytes};
ghost use Rattle.vx_base.specs.declared.cond.Cond.TheVariants.{Normal};
ghost use Rattle.vx_record.specs.Finish.{this_request};
ghost use Rattle.vx_record.specs.Mailboxes.{is_waiting_func, mailbox_at, mput_part, this_message, waits_at, write_box};
ghost use Rattle.vx_record.specs.Sound.{BoxStands, ground};
ghost use Rattle.vx_procs.specs.Kernel.{Acts, Fits};
ghost use Rattle.vx_procs.specs.Ready.{HasMessageRooms};
ghost use Rattle.vx_io.specs.Boxes.{IsServing, keep_by, len_found, mget_by, pass_by, read_by, read_reply, store_by, take_found, wait_by};
ghost use Rattle.vx_io.specs.Steady.{AreSteady};

use crate::attention::call_attention;
use crate::finish::finish_id;
use crate::rooms::Rooms;
use vx_base::{Body, BoxNo, Cond, Effect, Func, Id, Msg, Pid, Reply, Routine};
use vx_procs::Core;

// How many bytes a message has.
fn body_len(body: &Body) -> u32
    requires { length (body_bytes body.now) ≤ 2048 }
    ensures { result ≡ length (body_bytes body.now) }
{
    match body {
        Body::Text(bytes) => bytes.len() as u32,
        Body::Eof => 0,
    }
}

// The body of a message again, to be told.
fn told_body(body: &Body, rooms: &mut Rooms) -> Body
    requires room { IsTrue rooms.old.told }
    requires size { length (body_bytes body.now) ≤ 2048 }
    ensures body { result ≡ body.now }
    ensures read { rooms.new.read ≡ rooms.old.read }
{
    match body {
        Body::Text(bytes) => Body::Text(rooms.told(bytes.as_slice())),
        Body::Eof => Body::Eof,
    }
}

// What a read of so many bytes gets of a message: what is longer is cut.
fn read_reply(len: u32, body: &Body, rooms: &mut Rooms) -> Reply
    requires room { IsTrue rooms.old.read }
    requires len { len ≤ 2048 }
    ensures reply { result ≡ read_reply len body.now }
    ensures size { length result.bytes ≤ 2048 }
    ensures told { rooms.new.told ≡ rooms.old.told }
{
    match body {
        Body::Eof => Reply {
            cond: Cond::EndOfFile,
            count: 0,
            bytes: rooms.read(b"".as_slice()),
        },
        Body::Text(bytes) => {
            let bytes = bytes.as_slice();
            if (len as usize) < bytes.len() {
                Reply {
                    cond: Cond::BufferOvf,
                    count: len,
                    bytes: rooms.read(&bytes[..len as usize]),
                }
            } else {
                Reply {
                    cond: Cond::Normal,
                    count: bytes.len() as u32,
                    bytes: rooms.read(bytes),
                }
            }
        }
    }
}

// What a write ends with that was read: how many bytes it wrote.
fn write_reply<R: Routine>(core: &Core<R>, count: u32) -> Reply
    ensures { result ≡ record { cond = Normal; count = count; bytes = [] } }
{
    Reply {
        cond: Cond::Normal,
        count,
        bytes: core.no_bytes(),
    }
}

// How many bytes a request asks for.
fn asked_len<R: Routine>(core: &Core<R>, id: Id) -> u32
    requires { AreSteady core.now.state }
    ensures len { result ≡ len_found (find (this_request id) core.now.state.requests) }
    ensures size { result ≤ 2048 }
{
    match core.request(id) {
        Some(req) => req.len,
        None => 0,
    }
}

// MGET: a message, by the id of its write, is taken out of its mailbox for a read.
fn take_out<R: Routine>(core: &mut Core<R>, b: BoxNo, w: Id, r: Id) -> Option<Msg>
    requires stands { BoxStands (ground core.old.state) b }
    requires room { Fits core.old (mget_by core.old.state b w r).effects }
    ensures found { result ≡ find (this_message w) (mailbox_at core.old.state b).messages }
    ensures size { IfSome result (λ m. length (body_bytes m.body) ≤ 2048) }
    ensures after { Acts (mget_by core.old.state b w r) core.old core.new }
{
    let name = core.box_name(b);
    let msg = core.take_message(b, w);
    core.tell(Effect::MGet { name, w, r });
    msg
}

// MPUT: a message is the newest of its mailbox.
fn put_in<R: Routine>(core: &mut Core<R>, b: BoxNo, msg: Msg, rooms: &mut Rooms)
    requires stands { BoxStands (ground core.old.state) b }
    requires messages { HasMessageRooms core.old }
    requires rooms { IsTrue rooms.old.told }
    requires size { length (body_bytes msg.body) ≤ 2048 }
    requires room { Fits core.old (mput_part core.old.state b msg).effects }
    ensures after { Acts (mput_part core.old.state b msg) core.old core.new }
    ensures read { rooms.new.read ≡ rooms.old.read }
{
    let name = core.box_name(b);
    let id = msg.id;
    let body = told_body(&msg.body, rooms);
    core.tell(Effect::MPut { name, id, body });
    core.put_message(b, msg);
}

// A message that no read waits for stays; a write that does not wait is finished, and whoever asked for attention gets it.
fn store<R: Routine>(core: &mut Core<R>, b: BoxNo, w: Id, held: bool, count: u32)
    requires steady { AreSteady core.old.state }
    requires room { Fits core.old (store_by core.old.state b w held count).effects }
    ensures { Acts (store_by core.old.state b w held count) core.old core.new }
{
    if held {
        call_attention(core, b, Func::WrtAttn);
        return;
    }
    let reply = write_reply(core, count);
    finish_id(core, w, reply, 0);
    call_attention(core, b, Func::WrtAttn);
}

// A message goes to the read that waits for it, and both finish.
fn pass_on<R: Routine>(
    core: &mut Core<R>,
    b: BoxNo,
    w: Id,
    r: Id,
    writer: Pid,
    count: u32,
    reply: Reply,
)
    requires serving { IsServing core.old.state b }
    requires size { length reply.bytes ≤ 2048 }
    requires room { Fits core.old (pass_by core.old.state b w r (reply, writer.0) count).effects }
    ensures { Acts (pass_by core.old.state b w r (reply, writer.0) count) core.old core.new }
{
    let _taken = take_out(core, b, w, r);
    finish_id(core, r, reply, writer.0);
    let reply = write_reply(core, count);
    finish_id(core, w, reply, 0);
}

// A message that a read waits for is put, and goes to it, and both finish.
fn deliver<R: Routine>(core: &mut Core<R>, b: BoxNo, msg: Msg, r: Id, rooms: &mut Rooms)
    requires serving { IsServing core.old.state b }
    requires waits { Some r ≡ option_map (λ x. x.req.id) (find (waits_at b) core.old.state.requests) }
    requires messages { HasMessageRooms core.old }
    requires told { IsTrue rooms.old.told }
    requires read { IsTrue rooms.old.read }
    requires size { length (body_bytes msg.body) ≤ 2048 }
    requires room { Fits core.old (write_box core.old.state b msg).effects }
    ensures { Acts (write_box core.old.state b msg) core.old core.new }
{
    let (w, writer) = (msg.id, msg.writer);
    let count = body_len(&msg.body);
    let len = asked_len(core, r);
    let reply = read_reply(len, &msg.body, rooms);
    put_in(core, b, msg, rooms);
    pass_on(core, b, w, r, writer, count, reply);
}

// A message that no read waits for is put, and stays.
fn keep<R: Routine>(core: &mut Core<R>, b: BoxNo, msg: Msg, rooms: &mut Rooms)
    requires serving { IsServing core.old.state b }
    requires messages { HasMessageRooms core.old }
    requires told { IsTrue rooms.old.told }
    requires size { length (body_bytes msg.body) ≤ 2048 }
    requires room { Fits core.old (keep_by core.old.state b msg).effects }
    ensures { Acts (keep_by core.old.state b msg) core.old core.new }
{
    let (w, held) = (msg.id, msg.held);
    let count = body_len(&msg.body);
    put_in(core, b, msg, rooms);
    store(core, b, w, held, count);
}

/// What an accepted write or end of file does: the oldest read that waits takes it, and both finish; if none waits, it is stored.
#[tactic(auto, using(crate::proofs::Passing::kept_same))]
pub(crate) fn write_box<R: Routine>(core: &mut Core<R>, b: BoxNo, msg: Msg, rooms: &mut Rooms)
    requires serving { IsServing core.old.state b }
    requires messages { HasMessageRooms core.old }
    requires told { IsTrue rooms.old.told }
    requires read { IsTrue rooms.old.read }
    requires size { length (body_bytes msg.body) ≤ 2048 }
    requires room { Fits core.old (write_box core.old.state b msg).effects }
    ensures { Acts (write_box core.old.state b msg) core.old core.new }
{
    match core.first_read(b) {
        Some(r) => deliver(core, b, msg, r, rooms),
        None => keep(core, b, msg, rooms),
    }
}

// Whether a read waits for a message.
fn waits(func: Func) -> bool
    ensures { result ≡ is_waiting_func func }
{
    match func {
        Func::Read => true,
        _ => false,
    }
}

// A read that finds no message waits, or with NOW ends; and whoever asked for attention gets it.
fn wait<R: Routine>(core: &mut Core<R>, b: BoxNo, id: Id, func: Func)
    requires steady { AreSteady core.old.state }
    requires room { Fits core.old (wait_by core.old.state b id func).effects }
    ensures { Acts (wait_by core.old.state b id func) core.old core.new }
{
    if waits(func) {
        call_attention(core, b, Func::ReadAttn);
        return;
    }
    let reply = Reply {
        cond: Cond::EndOfFile,
        count: 0,
        bytes: core.no_bytes(),
    };
    finish_id(core, id, reply, 0);
    call_attention(core, b, Func::ReadAttn);
}

// A read takes a message, and finishes, and so does the write if it is held.
fn take<R: Routine>(core: &mut Core<R>, b: BoxNo, w: Id, r: Id, rooms: &mut Rooms)
    requires serving { IsServing core.old.state b }
    requires there { IsSome (find (this_message w) (mailbox_at core.old.state b).messages) }
    requires rooms { IsTrue rooms.old.read }
    requires room { Fits core.old (take_found core.old.state b w r (find (this_message w) (mailbox_at core.old.state b).messages)).effects }
    ensures { Acts (take_found core.old.state b w r (find (this_message w) (mailbox_at core.old.state b).messages)) core.old core.new }
{
    let len = asked_len(core, r);
    let Some(msg) = take_out(core, b, w, r) else {
        unreachable!()
    };
    let Msg {
        id: _,
        writer,
        body,
        held,
    } = msg;
    let count = body_len(&body);
    let reply = read_reply(len, &body, rooms);
    finish_id(core, r, reply, writer.0);
    if held {
        let reply = write_reply(core, count);
        finish_id(core, w, reply, 0);
    }
}

/// What an accepted read does: it takes the oldest message, whose write finishes if it is held; or it waits; or with NOW it finds
/// an end of file.
pub(crate) fn read_box<R: Routine>(
    core: &mut Core<R>,
    b: BoxNo,
    id: Id,
    func: Func,
    rooms: &mut Rooms,
)
    requires serving { IsServing core.old.state b }
    requires rooms { IsTrue rooms.old.read }
    requires room { Fits core.old (read_by core.old.state b id func (mailbox_at core.old.state b).messages).effects }
    ensures { Acts (read_by core.old.state b id func (mailbox_at core.old.state b).messages) core.old core.new }
{
    match core.oldest(b) {
        Some(w) => take(core, b, w, id, rooms),
        None => wait(core, b, id, func),
    }
}
