//! Units: made ready for the end of a service, and serving.

ghost use Rattle.std.specs.Prelude.{◌≡◌, ◌<◌, IsSome, OnErr, OnOk, Some, false, length, option_map, slice_set};
ghost use Rattle.vx_base.specs.Lists.{tally};
ghost use Rattle.vx_base.specs.Queues.{front, in_service, is_served_by};
ghost use Rattle.vx_base.specs.Serving.{serve, settled};
ghost use Rattle.vx_record.specs.State.{unit_at};
ghost use Rattle.vx_record.specs.Requests.{with_unit};
ghost use Rattle.vx_record.specs.Sound.{AreOrdered, request_id};
ghost use Rattle.vx_units.specs.Leases.{is_out};
ghost use Rattle.vx_units.specs.Units.{outputs_of};
ghost use Rattle.vx_procs.specs.Kernel.{IsPrepared, asked_for, ending_for, opened, stand_for, with_state};
ghost use Rattle.vx_procs.specs.Requests.{begun_if, served_if, replied};
ghost use Rattle.vx_procs.specs.Units.{IsForEnd};

use crate::procs::Core;
use crate::requests::Finished;
use vx_base::{Bytes, Id, NoMemory, Reply, Req, Routine, UnitNo};

impl<R: Routine> Core<R> {
    /// How many units there are.
    pub fn unit_count(&self) -> usize
        ensures { result ≡ length self.now.state.units }
    {
        self.units.len()
    }

    /// The lines that were written to a unit; a block unit has none.
    pub fn outputs(&self, u: UnitNo) -> &[Bytes]
        requires unit { u.0 < length self.now.state.units }
        requires home { is_out (stand_for self.now u) ≡ false }
        ensures { result.now ≡ outputs_of (unit_at self.now.state u).contents }
    {
        self.units[u.0 as usize].outputs()
    }

    /// Makes what the end of the next service of a unit needs, if a request waits for it. If memory is short, nothing is
    /// changed; nor is a unit made ready that is out or has served.
    pub fn prepare(&mut self, u: UnitNo) -> Result<(), NoMemory>
        requires { IsSome (front u self.old.state.requests) }
        ensures ok { OnOk result (IsPrepared self.new u) }
        ensures after { self.new ≡ record self.old { ends = slice_set self.old.ends u.0 (ending_for self.new u) } }
        ensures err { OnErr result (self.new ≡ self.old) }
    {
        let Some(req) = self.requests.next(u) else {
            unreachable!()
        };
        self.units[u.0 as usize].prepare(self.alloc, req)
    }

    /// Has a unit take the request that it takes next, as `front` has it: the unit serves it from now on. Takes no memory.
    pub fn begin_request(&mut self, u: UnitNo) -> Option<Id>
        requires prepared { IsPrepared self.old u }
        requires order { AreOrdered request_id 0 self.old.state.next self.old.state.requests }
        ensures found { result ≡ option_map (λ r. r.req.id) (front u self.old.state.requests) }
        ensures after { self.new ≡ with_state self.old (begun_if self.old.state (front u self.old.state.requests)) }
    {
        self.requests.begin(u)
    }

    // The service of the request that a unit is asked ends. The log that was made for that is the log of the event.
    fn serve(&mut self, u: UnitNo, req: &Req) -> Reply
        requires unit { u.0 < length self.old.state.units }
        requires asked { asked_for self.old u ≡ Some req.now }
        requires home { is_out (stand_for self.old u) ≡ false }
        requires free { tally (is_served_by u) self.old.state.requests ≡ 0 }
        requires count { (unit_at self.old.state u).services < 4294967295 }
        ensures reply { result ≡ (serve (unit_at self.old.state u) req.now).reply }
        ensures log { IsForEnd self.new.log }
        ensures after { self.new ≡ with_state (opened self.old u) (with_unit self.old.state u (settled (unit_at self.old.state u) req.now)) }
    {
        let (reply, log) = self.units[u.0 as usize].finish(req);
        self.log = log;
        reply
    }

    /// The service of a unit ends: the unit has served its request, which is taken out as `finish_request` does. A unit that was
    /// given back has served before. The log that was made for that end is the log of the event. None exactly where the unit serves
    /// no request. Takes no memory.
    pub fn end_service(&mut self, u: UnitNo) -> Option<(Finished, Reply)>
        requires serves { IsSome (in_service u self.old.state.requests) }
        requires order { AreOrdered request_id 0 self.old.state.next self.old.state.requests }
        requires count { (unit_at self.old.state u).services < 4294967295 }
        requires home { is_out (stand_for self.old u) ≡ false }
        ensures found { result ≡ option_map (replied self.old.state u) (in_service u self.old.state.requests) }
        ensures log { IsForEnd self.new.log }
        ensures after { self.new ≡ with_state (opened self.old u) (served_if self.old.state u (in_service u self.old.state.requests)) }
    {
        let id = self.requests.in_service(u)?;
        let done = self.finish_request(id)?;
        let reply = self.serve(u, &done.req);
        Some((done, reply))
    }
}
