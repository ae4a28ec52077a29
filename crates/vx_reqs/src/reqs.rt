//! The requests: one list, in order of acceptance.

ghost use Rattle.std.specs.Prelude.{◌≡◌, ◌<◌, ◌≤◌, ◌+◌, ◌++◌, ◌∷◌, [], IfOk, IsTrue, false, not, length, OnOk, OnErr, option_map};
ghost use Rattle.std.specs.List.{find, list_any};
ghost use Rattle.vx_base.specs.Lists.{less, amend, is_some_and};
ghost use Rattle.vx_base.specs.Queues.{front, in_service};
ghost use Rattle.vx_record.specs.Mailboxes.{waits_at};
ghost use Rattle.vx_reqs.specs.Places.{live};
ghost use Rattle.vx_reqs.specs.Requests.{promised_of, begun, is_to_cancel, keeps_open};
ghost use Rattle.vx_record.specs.Finish.{this_request};
ghost use Rattle.vx_record.specs.Cancel.{with_abort};

use crate::found::{id_at, mark_at, place_from, place_of_id, request_at, serve_at, take_at};
use crate::order::Order;
use crate::outstanding::Outstanding;
use crate::places::Places;
use crate::reads::{Reads, place_read, settle_reads};
use crate::snapshot::ReqsSnapshot;
use crate::sought::Sought;
use crate::units::{front, place_waiting, serving, settle, settle_unit};
use std::alloc::Global;
use std::marker::Model;
use vx_base::{BoxNo, Id, Mode, NoMemory, Pid, Req, Routine, UnitNo};

/// The outstanding requests of all processes: their places, and what is known of where those of a unit or of a mailbox are.
#[derive(Drop)]
pub struct Reqs<R: Routine> {
    places: Places<R>,
    order: Order,
    reads: Reads,
}

impl<R: Routine> Model for Reqs<R> {
    ghost use Rattle.vx_reqs.specs.Places.{IsKept, live};
    ghost use Rattle.vx_reqs.specs.Requests.{Requests};

    ghost Value = { Requests };

    ghost view = { λ a. record { items = live a.places.items; capacity = a.places.capacity } };

    ghost invariant = { λ a. IsKept a.places.items a.order.rising a.order.next a.order.from a.order.served a.reads.from };
}

impl<R: Routine> Reqs<R> {
    /// No requests, and room for none. Takes no memory.
    pub fn new(alloc: Global) -> Reqs<R>
        ensures { result ≡ record { items = []; capacity = 0 } }
    {
        Reqs {
            places: Places::new(alloc),
            order: Order::new(),
            reads: Reads::new(),
        }
    }

    /// Makes room for a request more, or changes nothing.
    pub fn reserve(&mut self) -> Result<(), NoMemory>
        ensures items { self.new.items ≡ self.old.items }
        ensures kept { self.old.capacity ≤ self.new.capacity }
        ensures ok { OnOk result (length self.new.items < self.new.capacity) }
        ensures err { OnErr result (self.new ≡ self.old) }
    {
        if self.places.count() < self.places.room() {
            return Ok(());
        }
        self.places.reserve()
    }

    /// Has no requests any more, and room for none that is known of.
    pub(crate) fn clear(&mut self)
        ensures { self.new ≡ record { items = []; capacity = 0 } }
    {
        self.places.clear();
        self.order.forget();
        self.reads.forget();
    }

    /// Puts a request behind the others, if nothing is known of where they are, and takes memory for it.
    pub(crate) fn push(&mut self, request: Outstanding<R>) -> Result<(), NoMemory>
        ensures { OnOk result (self.new.items ≡ self.old.items ++ request ∷ []) }
    {
        self.order.forget();
        self.reads.forget();
        self.places.push(request)
    }

    /// The same requests put away.
    pub fn snapshot(&self, alloc: Global) -> Result<ReqsSnapshot<R>, NoMemory>
        ensures { IfOk result (λ snapshot. snapshot ≡ self.now.items) }
    {
        ReqsSnapshot::new(alloc, &self.places)
    }

    /// Accepts a request ($QIO), with the AST that it is to queue when it finishes, if it has one. Takes no memory.
    pub fn accept(&mut self, req: Req, ast: Option<(Mode, R)>)
        requires room { length self.old.items < self.old.capacity }
        requires fresh { list_any (this_request req.id) self.old.items ≡ false }
        ensures { self.new ≡ record self.old { items = self.old.items ++ record { req = req; ast = option_map (promised_of R.tagged) ast; served = false; marked = false } ∷ [] } }
    {
        self.order.accept(req.id, req.device);
        self.reads.accept(req.id, req.device, req.func);
        self.places.accept(Outstanding::new(req, ast));
    }

    /// What a unit would be asked next, as `front` has it.
    pub fn next(&self, u: UnitNo) -> Option<&Req>
        ensures { option_map (λ r. r.now) result ≡ option_map (λ r. r.req) (front u self.now.items) }
    {
        let front = front(&self.places, &self.order, u)?;
        Some(front.req())
    }

    /// The request that a unit would take next: the first that waits for it. None exactly where the unit serves one, or
    /// none waits for it.
    pub fn front(&self, u: UnitNo) -> Option<Id>
        ensures { result ≡ option_map (λ r. r.req.id) (front u self.now.items) }
    {
        let front = front(&self.places, &self.order, u)?;
        Some(front.id())
    }

    /// Has a unit take the request that it takes next, as `front` has it: the unit serves it from now on.
    pub fn begin(&mut self, u: UnitNo) -> Option<Id>
        ensures found { result ≡ option_map (λ r. r.req.id) (front u self.old.items) }
        ensures after { self.new ≡ record self.old { items = begun u self.old.items } }
    {
        let front = front(&self.places, &self.order, u)?.id();
        let place = place_waiting(&self.places, &self.order, u);
        let first = id_at(&self.places, place);
        serve_at(&mut self.places, place);
        self.order.begin(u, first);
        settle_unit(&mut self.order, &self.places, u);
        Some(front)
    }

    /// The request that a unit serves. None exactly where it serves none.
    pub fn in_service(&self, u: UnitNo) -> Option<Id>
        ensures { result ≡ option_map (λ r. r.req.id) (in_service u self.now.items) }
    {
        let served = serving(&self.places, &self.order, u)?;
        Some(served.id())
    }

    /// The first read that waits at a mailbox. None exactly where none waits.
    pub fn first_read(&self, b: BoxNo) -> Option<Id>
        ensures { result ≡ option_map (λ r. r.req.id) (find (waits_at b) self.now.items) }
    {
        let place = place_read(&self.places, &self.order, &self.reads, b);
        let found = request_at(&self.places, place)?;
        Some(found.id())
    }

    // The request with an id.
    fn with_id(&self, id: Id) -> Option<&Outstanding<R>>
        ensures { option_map (λ o. o.now) result ≡ find (this_request id) self.now.items }
    {
        let place = place_of_id(&self.places, &self.order, id);
        request_at(&self.places, place)
    }

    /// The request with an id. None exactly where there is none.
    pub fn get(&self, id: Id) -> Option<&Req>
        ensures { option_map (λ r. r.now) result ≡ option_map (λ r. r.req) (find (this_request id) self.now.items) }
    {
        let found = self.with_id(id)?;
        Some(found.req())
    }

    // Its places.
    pub(crate) fn places(&self) -> &Places<R>
        ensures { live result.now.items ≡ self.now.items }
    {
        &self.places
    }

    /// How many requests there are.
    pub fn len(&self) -> usize
        ensures { result ≡ length self.now.items }
    {
        self.places.count()
    }

    /// Whether there is a request with an id.
    pub fn has(&self, id: Id) -> bool
        ensures { result ≡ list_any (this_request id) self.now.items }
    {
        self.with_id(id).is_some()
    }

    /// Takes out the request with an id. None exactly where there is none.
    pub fn finish(&mut self, id: Id) -> Option<Outstanding<R>>
        ensures found { result ≡ find (this_request id) self.old.items }
        ensures after { self.new ≡ record self.old { items = less (this_request id) self.old.items } }
    {
        let place = place_of_id(&self.places, &self.order, id);
        let done = take_at(&mut self.places, place)?;
        let device = done.req().device;
        settle(&mut self.order, &self.places, device);
        settle_reads(&mut self.reads, &self.places, &self.order, device);
        Some(done)
    }

    /// The first request of a process on a channel that is still to be cancelled: it waits, or it is in service and not yet
    /// marked. None exactly where there is none. Goes over all requests.
    pub fn to_cancel(&self, p: Pid, chan: u32) -> Option<Id>
        ensures { result ≡ option_map (λ r. r.req.id) (find (is_to_cancel p chan) self.now.items) }
    {
        let place = place_from(&self.places, 0, Sought::ToCancel(p, chan));
        let found = request_at(&self.places, place)?;
        Some(found.id())
    }

    /// Marks the request with an id: it is to be aborted when its unit has served it ($CANCEL). Answers false, and changes
    /// nothing, exactly where it was marked.
    pub fn mark(&mut self, id: Id) -> bool
        requires { IsTrue (list_any (this_request id) self.old.items) }
        ensures was { result ≡ not (is_some_and (λ r. r.marked) (find (this_request id) self.old.items)) }
        ensures kept { result ≡ false → self.new ≡ self.old }
        ensures after { self.new ≡ record self.old { items = amend (this_request id) with_abort self.old.items } }
    {
        if let Some(found) = self.with_id(id)
            && found.is_marked()
        {
            return false;
        }
        let place = place_of_id(&self.places, &self.order, id);
        mark_at(&mut self.places, place);
        true
    }

    /// Whether a request of a process is outstanding on a channel of a mode or an outer one: rundown waits for these.
    /// Goes over all requests.
    pub fn outstanding(&self, p: Pid, mode: Mode) -> bool
        ensures { result ≡ list_any (keeps_open p mode) self.now.items }
    {
        place_from(&self.places, 0, Sought::Open(p, mode)).is_some()
    }

    /// Whether there is a request with an id, and its unit serves it.
    pub fn is_served(&self, id: Id) -> bool
        ensures { result ≡ is_some_and (λ r. r.served) (find (this_request id) self.now.items) }
    {
        match self.with_id(id) {
            Some(found) => found.is_served(),
            None => false,
        }
    }
}
