//! The executive under its lock, and what carriers do at it.

ghost use Rattle.std.specs.Prelude.{◌≡◌, ◌≤◌, ◌<◌, All, IfOk, vec_len};
ghost use Rattle.vx_record.specs.Runs.{first};
ghost use Rattle.vx_exec.specs.View.{plan};
ghost use Rattle.vx_turn.specs.Seats.{IsNew, IsOne, IsSharedBy};
ghost use Rattle.vx_carrier.specs.Desk.{HasRun};
ghost use Rattle.vx_carrier.specs.Turns.{AtEnd, SawBeg, SawEnd, SeatGave, SeatGrew, SeatTook};

use crate::desk::Desk;
use crate::gate::Gate;
use crate::naming::Naming;
use crate::turn::Turn;
use std::alloc::Global;
use std::marker::Model;
use std::sync::Wait;
use std::thread;
use vx_base::{End, NoMemory, Rec, Recs, Routine};
use vx_exec::{Exec, LeasingExec};
use vx_turn::Turnstile;
use vx_units::{ServedUnit, UnitLease};

/// A carrier's place at the executive.
pub type Seat<R, J> = vx_turn::Seat<Desk<R, J>, Rec>;

/// An executive under a lock, with the gate that is told of its services.
#[derive(Drop)]
pub struct Executive<R: Routine, G: Gate, J: Naming> {
    lock: Turnstile<Desk<R, J>, Rec>,
    gate: G,
}

impl<R: Routine, G: Gate, J: Naming> Model for Executive<R, G, J> {
    ghost use Rattle.vx_turn.specs.Seats.{Lock};

    ghost Value = { Lock };

    ghost view = { λ e. e.lock };
}

impl<R: Routine, G: Gate, J: Naming> Executive<R, G, J> {
    /// An executive before its first event, with so many seats, 1 to 16.
    pub fn new(
        alloc: Global,
        exec: Exec<R>,
        gate: G,
        carriers: u32,
    ) -> Result<(Executive<R, G, J>, Vec<Seat<R, J>>), NoMemory>
        requires named { plan exec ≡ J.plan }
        requires new { exec.state ≡ first exec.state.system }
        requires none { exec.taken ≡ 0 }
        requires carriers { (0 < carriers) × (carriers ≤ 16) }
        ensures count { IfOk result (λ r. (r.0.seats ≡ carriers) × (vec_len r.1 ≡ carriers)) }
        ensures seats { IfOk result (λ r. All (IsNew r.0.table) r.1.items) }
    {
        let (lock, seats) = Turnstile::new(alloc, Desk::new(alloc, exec), carriers)?;
        Ok((Executive { lock, gate }, seats))
    }

    /// Takes a turn: the first enabled event that ends no service, and after a BEG its unit. Only here memory is taken.
    pub fn turn<Q: Wait>(&self, rt: &Q, seat: &mut Seat<R, J>) -> Turn
        requires { IsOne self.now.table seat.old }
        ensures seat { IsOne self.now.table seat.new }
        ensures took { SeatTook J.plan seat.old.me.0 result seat.new.me.0 }
    {
        let mut desk = self.lock.enter(rt, seat);
        desk.show();
        let turn = desk.take();
        self.lock.leave(seat, desk);
        turn
    }

    /// Gives back a unit whose BEG the seat has seen: its DON is taken. Takes no memory.
    pub fn give_back<Q: Wait>(&self, rt: &Q, seat: &mut Seat<R, J>, served: ServedUnit) -> Turn
        requires seat { IsOne self.now.table seat.old }
        requires saw { SawBeg J.plan seat.old.me.0.seen served.lease }
        ensures seat { IsOne self.now.table seat.new }
        ensures gave { SeatGave J.plan seat.old.me.0 served result seat.new.me.0 }
    {
        let mut desk = self.lock.enter(rt, seat);
        desk.show();
        let turn = desk.put(served);
        self.lock.leave(seat, desk);
        turn
    }

    // Serves a unit with the lock free, and gives it back.
    fn serve<Q: Wait>(&self, rt: &Q, seat: &mut Seat<R, J>, lease: UnitLease) -> Turn
        requires seat { IsOne self.now.table seat.old }
        requires saw { SawBeg J.plan seat.old.me.0.seen lease }
        ensures seat { IsOne self.now.table seat.new }
        ensures grew { SeatGrew seat.old.me.0 seat.new.me.0 }
        ensures ended { AtEnd J.plan result seat.new.me.0.seen }
    {
        self.gate.serving(lease.unit(), lease.number());
        self.give_back(rt, seat, lease.serve())
    }

    // Takes a turn, and serves the unit that it hands out.
    #[tactic(auto, using(crate::proofs::Seats::took_grew, crate::proofs::Seats::grew_on))]
    fn go_on<Q: Wait>(&self, rt: &Q, seat: &mut Seat<R, J>) -> Turn
        requires { IsOne self.now.table seat.old }
        ensures seat { IsOne self.now.table seat.new }
        ensures grew { SeatGrew seat.old.me.0 seat.new.me.0 }
        ensures ended { AtEnd J.plan result seat.new.me.0.seen }
    {
        match self.turn(rt, seat) {
            Turn::Took(Some(lease)) => self.serve(rt, seat, lease),
            other => other,
        }
    }

    /// Takes turns until the run has ended, and serves the units that they hand out, while the lock is free. What the seat had seen and left
    /// stays.
    #[tactic(auto, using(crate::proofs::Seats::grew_on, crate::proofs::Seats::grew_still))]
    pub fn carry<Q: Wait>(&self, rt: &Q, seat: &mut Seat<R, J>) -> Result<End, NoMemory>
        requires { IsOne self.now.table seat.old }
        ensures seat { IsOne self.now.table seat.new }
        ensures grew { SeatGrew seat.old.me.0 seat.new.me.0 }
        ensures ended { IfOk result (SawEnd J.plan seat.new.me.0.seen) }
    {
        'turns: for _ in rt.forever() {
            match self.go_on(rt, seat) {
                Turn::Took(_) | Turn::Stale => (),
                Turn::Nothing => thread::yield_now(),
                Turn::Ended(end) => return Ok(end),
                Turn::NoMemory => return Err(NoMemory),
            }
        }
        unreachable!()
    }

    /// Ends the lock with all its seats. The records are a run, and each of them stands in what one seat has left. Takes no memory.
    pub fn close(self, seats: Vec<Seat<R, J>>) -> (LeasingExec<R>, Recs)
        requires seats { All (IsOne self.table) seats.items }
        requires all { vec_len seats ≡ self.seats }
        requires some { 0 < vec_len seats }
        ensures run { HasRun J.plan (record { leasing = result.0; recs = result.1 }) }
        ensures shared { IsSharedBy result.1 seats.items }
    {
        let Executive { lock, gate: _ } = self;
        lock.close(seats).into_parts()
    }
}
