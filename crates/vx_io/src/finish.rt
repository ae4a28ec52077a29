//! How a request finishes, in its parts.

ghost use Rattle.std.specs.Prelude.{◌≡◌, ◌≤◌, Some, length};
ghost use Rattle.vx_record.specs.State.{IsProcess};
ghost use Rattle.vx_record.specs.Finish.{buf_part, finish_id, iosb_part, is_read};
ghost use Rattle.vx_procs.specs.Kernel.{Acts, Fits};
ghost use Rattle.vx_io.specs.Finishing.{IsEnding, finishing, storing};
ghost use Rattle.vx_io.specs.Steady.{AreSteady};

use vx_base::{Bytes, Cond, Effect, Func, Id, Pid, Reply, Req, Routine};
use vx_ctl::set_where_named;
use vx_procs::{Core, Finished};

/// Whether a request reads.
pub(crate) fn is_read(func: Func) -> bool
    ensures { result ≡ is_read func }
{
    matches!(func, Func::Read | Func::ReadNow)
}

// BUF: the bytes that were read, over the start of the buffer.
#[tactic(auto, using(crate::proofs::Parted::told_none))]
fn fill_buffer<R: Routine>(
    core: &mut Core<R>,
    req: &Req,
    cond: Cond,
    count: u32,
    info: u32,
    bytes: Bytes,
)
    requires made { IsProcess core.old.state req.now.p }
    requires buf { req.now.buf ≤ 31 }
    requires size { length bytes ≤ 2048 }
    requires room { Fits core.old (buf_part core.old.state req.now (record { cond = cond; count = count; bytes = bytes }, info)).effects }
    ensures { Acts (buf_part core.old.state req.now (record { cond = cond; count = count; bytes = bytes }, info)) core.old core.new }
{
    let (p, b) = (req.p, req.buf);
    if is_read(req.func) && 0 < count {
        core.set_buffer(p, b, bytes.as_slice());
        core.tell(Effect::Buf { p, b, bytes });
    }
}

/// IOSB: the status block, if the request named one.
#[tactic(auto, using(crate::proofs::Parted::told_none))]
pub(crate) fn fill_status<R: Routine>(
    core: &mut Core<R>,
    p: Pid,
    i: u32,
    cond: Cond,
    count: u32,
    info: u32,
)
    requires made { IsProcess core.old.state p }
    requires iosb { i ≤ 32 }
    requires room { Fits core.old (iosb_part core.old.state p i (record { cond = Some cond; count = count; info = info })).effects }
    ensures { Acts (iosb_part core.old.state p i (record { cond = Some cond; count = count; info = info })) core.old core.new }
{
    if i != 0 {
        core.set_status(p, i, Some(cond), count, info);
        core.tell(Effect::Iosb {
            p,
            i,
            cond: Some(cond),
            count,
            info,
        });
    }
}

// FIN, BUF, IOSB: how a request ended is told, and what it read and its status, whose last number is given apart, are stored.
fn store<R: Routine>(core: &mut Core<R>, req: &Req, reply: Reply, info: u32)
    requires ending { IsEnding core.old.state req.now reply }
    requires room { Fits core.old (storing req.now (reply, info) core.old.state).effects }
    ensures { Acts (storing req.now (reply, info) core.old.state) core.old core.new }
{
    let Reply { cond, count, bytes } = reply;
    core.tell(Effect::Fin { id: req.id, cond });
    fill_buffer(core, req, cond, count, info, bytes);
    fill_status(core, req.p, req.iosb, cond, count, info);
}

/// Tells how a request ended that is out, and stores what it read and its status, whose last number is given apart. Its AST, if it has
/// one, is queued already.
pub(crate) fn finish<R: Routine>(core: &mut Core<R>, done: Finished, reply: Reply, info: u32)
    requires ending { IsEnding core.old.state done.req reply }
    requires room { Fits core.old (finishing done (reply, info) core.old.state).effects }
    ensures { Acts (finishing done (reply, info) core.old.state) core.old core.new }
{
    store(core, &done.req, reply, info);
    set_where_named(core, done.req.p, done.req.efn);
    if done.queued {
        core.tell(Effect::Que(done.req.id));
    }
}

/// The request with an id finishes, if there is one.
pub(crate) fn finish_id<R: Routine>(core: &mut Core<R>, id: Id, reply: Reply, info: u32)
    requires steady { AreSteady core.old.state }
    requires size { length reply.bytes ≤ 2048 }
    requires room { Fits core.old (finish_id core.old.state id (reply, info)).effects }
    ensures does { Acts (finish_id core.old.state id (reply, info)) core.old core.new }
    ensures steady { AreSteady core.new.state }
    ensures many { length core.new.state.procs ≡ length core.old.state.procs }
    ensures boxes { core.new.state.boxes ≡ core.old.state.boxes }
{
    if let Some(done) = core.finish_request(id) {
        finish(core, done, reply, info);
    }
}
