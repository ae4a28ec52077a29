//! Requests: what they need, accepted, marked and finished.

ghost use Rattle.std.specs.Prelude.{◌≡◌, ◌+◌, ◌≤◌, [], false, not, option_map, IfSome, IsTrue, is_some, length};
ghost use Rattle.std.specs.List.{find, list_any};
ghost use Rattle.vx_base.specs.Lists.{is_some_and};
ghost use Rattle.vx_base.specs.Queues.{front, in_service};
ghost use Rattle.vx_record.specs.Charges.{exceeds, is_attention, is_direct, moved_bytes, request_need};
ghost use Rattle.vx_record.specs.Finish.{this_request};
ghost use Rattle.vx_record.specs.Requests.{with_request};
ghost use Rattle.vx_record.specs.Rundown.{is_busy};
ghost use Rattle.vx_record.specs.Runs.{first};
ghost use Rattle.vx_reqs.specs.Requests.{is_to_cancel, promised_of};
ghost use Rattle.vx_procs.specs.Kernel.{with_state};
ghost use Rattle.vx_procs.specs.Ready.{HasSpares};
ghost use Rattle.vx_procs.specs.Requests.{IsOwnRequest, ended_if, finished, to_abort};

use crate::process::ast_need;
use crate::procs::Core;
use vx_base::{Bytes, Device, Func, Id, Mode, Need, Pid, Req, Routine, UnitNo};
use vx_image::System;

/// A request that was finished: what was accepted, whether it was to be aborted, and whether an AST was queued for it.
#[derive(Drop)]
pub struct Finished {
    pub req: Req,
    pub marked: bool,
    pub queued: bool,
}

// Whether a device is a block unit.
fn is_direct(system: &System, device: Device) -> bool
    ensures { result ≡ is_direct (first system.now) device }
{
    match device {
        Device::Unit(u) => match system.units.as_slice().get(u.0 as usize) {
            Some(decl) => decl.blocks != 0,
            None => false,
        },
        Device::Mailbox(_) => false,
    }
}

/// How many bytes a request moves: an end of file none.
pub fn moved_bytes(func: Func, len: u32) -> u32
    ensures { result ≡ moved_bytes func len }
{
    match func {
        Func::Eof | Func::EofNow => 0,
        _ => len,
    }
}

/// Whether a function asks for an attention AST.
pub fn is_attention(func: Func) -> bool
    ensures { result ≡ is_attention func }
{
    matches!(func, Func::ReadAttn | Func::WrtAttn)
}

// What a request needs, on a device of this system.
fn need_of(system: &System, device: Device, func: Func, with_ast: bool, len: u32) -> Need
    ensures { result ≡ request_need (first system.now) device func with_ast len }
{
    let ast = ast_need(with_ast);
    if is_attention(func) {
        ast
    } else if is_direct(system, device) {
        Need { dio: 1, ..ast }
    } else {
        Need {
            bio: 1,
            byt: moved_bytes(func, len),
            ..ast
        }
    }
}

impl<R: Routine> Core<R> {
    /// Whether requests to a device are direct ones: it is a block unit.
    pub fn is_direct(&self, device: Device) -> bool
        ensures { result ≡ is_direct self.now.state device }
    {
        is_direct(self.system.get(), device)
    }

    /// What a request needs ($QIO), with an AST or without.
    pub fn request_need(&self, device: Device, func: Func, with_ast: bool, len: u32) -> Need
        ensures { result ≡ request_need self.now.state device func with_ast len }
    {
        need_of(self.system.get(), device, func, with_ast, len)
    }

    /// Opens a request ($QIO) with a place for its AST, if it has one, and charges its process. Takes no memory.
    pub fn accept(&mut self, req: Req, ast: Option<(Mode, R)>)
        requires own { IsOwnRequest self.old.state req }
        requires spares { HasSpares self.old }
        requires room { length self.old.state.requests + 1 ≤ self.old.requests }
        requires fresh { list_any (this_request req.id) self.old.state.requests ≡ false }
        requires within { exceeds self.old.state req.p (request_need self.old.state req.device req.func (is_some ast) req.len) ≡ false }
        ensures { self.new ≡ with_state self.old (with_request self.old.state (record { req = req; ast = option_map (promised_of R.tagged) ast; served = false; marked = false })) }
    {
        let p = req.p;
        let need = need_of(
            self.system.get(),
            req.device,
            req.func,
            ast.is_some(),
            req.len,
        );
        self.procs.at_mut(p).charge(need);
        self.requests.accept(req, ast);
        self.short = Some(p);
    }

    /// Takes out the request with an id. Its AST, if it has one, is queued, charged, in the place that was made for it; what else
    /// it was charged is given back. None exactly where there is none. Takes no memory, and no spare room.
    pub fn finish_request(&mut self, id: Id) -> Option<Finished>
        ensures found { result ≡ option_map finished (find (this_request id) self.old.state.requests) }
        ensures after { self.new ≡ with_state self.old (ended_if self.old.state (find (this_request id) self.old.state.requests)) }
    {
        let done = self.requests.finish(id)?;
        let (req, ast, marked) = done.parts();
        let need = need_of(self.system.get(), req.device, req.func, false, req.len);
        let queued = self.procs.at_mut(req.p).end_request(req.id, need, ast);
        Some(Finished {
            req,
            marked,
            queued,
        })
    }

    /// The request with an id is to be aborted when its service ends ($CANCEL). False exactly where it was marked.
    pub fn mark_request(&mut self, id: Id) -> bool
        requires { IsTrue (list_any (this_request id) self.old.state.requests) }
        ensures unmarked { result ≡ not (is_some_and (λ r. r.marked) (find (this_request id) self.old.state.requests)) }
        ensures after { self.new ≡ with_state self.old (to_abort id self.old.state) }
    {
        self.requests.mark(id)
    }

    /// The request with an id. None exactly where there is none.
    pub fn request(&self, id: Id) -> Option<&Req>
        ensures { option_map (λ r. r.now) result ≡ option_map (λ r. r.req) (find (this_request id) self.now.state.requests) }
    {
        self.requests.get(id)
    }

    /// Whether there is a request with an id, and it is in service.
    pub fn is_served(&self, id: Id) -> bool
        ensures { result ≡ is_some_and (λ r. r.served) (find (this_request id) self.now.state.requests) }
    {
        self.requests.is_served(id)
    }

    /// The request that a unit serves. None exactly where it serves none.
    pub fn in_service(&self, u: UnitNo) -> Option<Id>
        ensures { result ≡ option_map (λ r. r.req.id) (in_service u self.now.state.requests) }
    {
        self.requests.in_service(u)
    }

    /// The request that a unit takes next. None exactly where it serves one, or none waits for it.
    pub fn front(&self, u: UnitNo) -> Option<Id>
        ensures { result ≡ option_map (λ r. r.req.id) (front u self.now.state.requests) }
    {
        self.requests.front(u)
    }

    /// The first request of a process on a channel that is still to be cancelled: it waits, or it is in service and not yet
    /// marked. None exactly where there is none.
    pub fn to_cancel(&self, p: Pid, chan: u32) -> Option<Id>
        ensures id { result ≡ option_map (λ r. r.req.id) (find (is_to_cancel p chan) self.now.state.requests) }
        ensures own { IfSome (find (is_to_cancel p chan) self.now.state.requests) (λ r. IsOwnRequest self.now.state r.req) }
    {
        self.requests.to_cancel(p, chan)
    }

    /// No bytes, as a request has that is cancelled. Takes no memory.
    pub fn no_bytes(&self) -> Bytes
        ensures { result ≡ [] }
    {
        Bytes::new(self.alloc)
    }

    /// Whether a request of a process is outstanding on a channel of a mode or an outer one: rundown waits for these.
    pub fn is_busy(&self, p: Pid, mode: Mode) -> bool
        ensures { result ≡ is_busy self.now.state p mode }
    {
        self.requests.outstanding(p, mode)
    }

    /// How many requests are outstanding.
    pub fn request_count(&self) -> usize
        ensures { result ≡ length self.now.state.requests }
    {
        self.requests.len()
    }
}
