//! One outstanding request.

ghost use Rattle.std.specs.Prelude.{◌≡◌, ◌↔◌, IsTrue, false, option_map};
ghost use Rattle.vx_base.specs.Queues.{is_unit, is_served_by, waits_for};
ghost use Rattle.vx_record.specs.Mailboxes.{is_box, is_waiting_func, waits_at};
ghost use Rattle.vx_reqs.specs.Requests.{is_to_cancel, keeps_open, promised_of};
ghost use Rattle.vx_record.specs.Requests.{taken_up};
ghost use Rattle.vx_record.specs.Finish.{this_request};
ghost use Rattle.vx_record.specs.Cancel.{with_abort};

use std::marker::Model;
use vx_base::{
    BoxNo, Device, Duplicate, Func, Id, Mode, NoMemory, Pid, Req, Routine, Same, UnitNo,
};

/// A request with its AST, if it has one, whether its unit serves it, and whether it is to be aborted. Contracts see the
/// plain `Request` of `vx_base`.
#[derive(Drop)]
pub struct Outstanding<R: Routine> {
    req: Req,
    ast: Option<(Mode, R)>,
    served: bool,
    marked: bool,
}

impl<R: Routine> Model for Outstanding<R> {
    ghost use Rattle.std.specs.Prelude.{option_map};
    ghost use Rattle.vx_base.specs.Pieces.{Request};
    ghost use Rattle.vx_reqs.specs.Requests.{promised_of};

    ghost Value = { Request };

    ghost view = { λ o. record { req = o.req; ast = option_map (promised_of R.tagged) o.ast; served = o.served; marked = o.marked } };
}

impl<R: Routine> Outstanding<R> {
    /// A request that waits.
    pub(crate) fn new(req: Req, ast: Option<(Mode, R)>) -> Outstanding<R>
        ensures { result ≡ record { req = req; ast = option_map (promised_of R.tagged) ast; served = false; marked = false } }
    {
        Outstanding {
            req,
            ast,
            served: false,
            marked: false,
        }
    }

    /// The request itself.
    pub fn req(&self) -> &Req
        ensures { result.now ≡ self.now.req }
    {
        &self.req
    }

    /// Its id.
    pub(crate) fn id(&self) -> Id
        ensures { result ≡ self.now.req.id }
    {
        self.req.id
    }

    /// Whether its unit serves it.
    pub(crate) fn is_served(&self) -> bool
        ensures { result ≡ self.now.served }
    {
        self.served
    }

    /// Whether it is to be aborted.
    pub(crate) fn is_marked(&self) -> bool
        ensures { result ≡ self.now.marked }
    {
        self.marked
    }

    /// The request, its AST, and whether it is to be aborted.
    pub fn parts(self) -> (Req, Option<(Mode, R)>, bool)
        ensures req { result.0 ≡ self.req }
        ensures ast { option_map (promised_of R.tagged) result.1 ≡ self.ast }
        ensures marked { result.2 ≡ self.marked }
    {
        let Outstanding {
            req,
            ast,
            served: _,
            marked,
        } = self;
        (req, ast, marked)
    }

    /// Has its unit serve it.
    pub(crate) fn serve(&mut self)
        ensures { self.new ≡ taken_up self.old }
    {
        self.served = true;
    }

    /// Has it aborted.
    pub(crate) fn mark(&mut self)
        ensures { self.new ≡ with_abort self.old }
    {
        self.marked = true;
    }

    /// Whether it has an id.
    pub(crate) fn has_id(&self, id: Id) -> bool
        ensures { result ≡ this_request id self.now }
    {
        self.req.id.0 == id.0
    }

    /// Whether a unit serves it.
    pub(crate) fn is_served_by(&self, u: UnitNo) -> bool
        ensures { result ≡ is_served_by u self.now }
    {
        is_unit(self.req.device, u) && self.served
    }

    /// Whether it waits for a unit.
    pub(crate) fn waits_for(&self, u: UnitNo) -> bool
        ensures { result ≡ waits_for u self.now }
    {
        is_unit(self.req.device, u) && !self.served
    }

    /// Whether it is a read that waits at a mailbox.
    pub(crate) fn waits_at(&self, b: BoxNo) -> bool
        ensures { result ≡ waits_at b self.now }
    {
        is_box(self.req.device, b) && is_waiting_func(self.req.func)
    }

    /// Whether it is of a process, on that channel, and still to be cancelled.
    pub(crate) fn is_to_cancel(&self, p: Pid, chan: u32) -> bool
        ensures { result ≡ is_to_cancel p chan self.now }
    {
        self.req.p.0 == p.0 && self.req.chan == chan && !(self.served && self.marked)
    }

    /// Whether it is of a process, and on a channel of a mode or an outer one.
    pub(crate) fn keeps_open(&self, p: Pid, mode: Mode) -> bool
        ensures { result ≡ keeps_open p mode self.now }
    {
        self.req.p.0 == p.0 && mode.rank() <= self.req.chan_mode.rank()
    }
}

// Whether a device is that unit.
fn is_unit(device: Device, u: UnitNo) -> bool
    ensures { result ≡ is_unit u device }
{
    match device {
        Device::Unit(v) => v.0 == u.0,
        Device::Mailbox(_) => false,
    }
}

// Whether a device is that mailbox.
fn is_box(device: Device, b: BoxNo) -> bool
    ensures { result ≡ is_box b device }
{
    match device {
        Device::Unit(_) => false,
        Device::Mailbox(c) => b.0 == c.0,
    }
}

/// Whether a request by a function waits at a mailbox.
pub(crate) fn is_waiting_func(func: Func) -> bool
    ensures { result ≡ is_waiting_func func }
{
    match func {
        Func::Read => true,
        _ => false,
    }
}

impl<R: Routine> Same for Outstanding<R> {
    fn same(&self, other: &Outstanding<R>) -> bool {
        same_req(&self.req, &other.req)
            && same_ast(&self.ast, &other.ast)
            && self.served == other.served
            && self.marked == other.marked
    }
}

impl<R: Routine> Duplicate for Outstanding<R> {
    fn duplicate(&self) -> Result<Outstanding<R>, NoMemory> {
        Ok(Outstanding {
            req: self.req.copy()?,
            ast: ast_again(&self.ast),
            served: self.served,
            marked: self.marked,
        })
    }
}

// Whether the first four fields are the same.
fn same_origin(a: &Req, b: &Req) -> bool
    ensures { IsTrue result ↔ ((a.now.id ≡ b.now.id) × (a.now.p ≡ b.now.p) × (a.now.chan ≡ b.now.chan) × (a.now.chan_mode ≡ b.now.chan_mode)) }
{
    a.id == b.id && a.p == b.p && a.chan == b.chan && a.chan_mode == b.chan_mode
}

// Whether the middle four fields are the same.
fn same_function(a: &Req, b: &Req) -> bool
    ensures { IsTrue result ↔ ((a.now.device ≡ b.now.device) × (a.now.func ≡ b.now.func) × (a.now.efn ≡ b.now.efn) × (a.now.iosb ≡ b.now.iosb)) }
{
    a.device == b.device && a.func == b.func && a.efn == b.efn && a.iosb == b.iosb
}

// Whether the last four fields are the same.
fn same_piece(a: &Req, b: &Req) -> bool
    ensures { IsTrue result ↔ ((a.now.buf ≡ b.now.buf) × (a.now.len ≡ b.now.len) × (a.now.blk ≡ b.now.blk) × (a.now.bytes ≡ b.now.bytes)) }
{
    a.buf == b.buf && a.len == b.len && a.blk == b.blk && a.bytes == b.bytes
}

// Whether two requests are the same.
fn same_req(a: &Req, b: &Req) -> bool
    ensures { IsTrue result ↔ (a.now ≡ b.now) }
{
    same_origin(a, b) && same_function(a, b) && same_piece(a, b)
}

// Whether two ASTs have one mode and one tag, or there are none.
fn same_ast<R: Routine>(a: &Option<(Mode, R)>, b: &Option<(Mode, R)>) -> bool
    ensures { IsTrue result ↔ (option_map (promised_of R.tagged) a.now ≡ option_map (promised_of R.tagged) b.now) }
{
    match (a, b) {
        (Some((mode, routine)), Some((mode_2, routine_2))) => {
            mode == mode_2 && routine.tag() == routine_2.tag()
        }
        (None, None) => true,
        _ => false,
    }
}

// An AST with a routine made again from its tag, if there is one.
fn ast_again<R: Routine>(ast: &Option<(Mode, R)>) -> Option<(Mode, R)>
    ensures { option_map (promised_of R.tagged) result ≡ option_map (promised_of R.tagged) ast.now }
{
    match ast {
        Some((mode, routine)) => Some((*mode, R::scripted(routine.tag()))),
        None => None,
    }
}
