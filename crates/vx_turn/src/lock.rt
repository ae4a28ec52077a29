//! The lock.

ghost use Rattle.std.specs.Prelude.{◌≡◌, ◌-◌, ◌<◌, ◌≤◌, [], ◌∷◌, Some, None, MatchBool, IfOk, All, vec_len};
ghost use Rattle.vx_turn.specs.declared.view.Stage.TheVariants.{Waiting};
ghost use Rattle.vx_turn.specs.Rule.{StartsWith, Entered, Shared, first_view, glued};
ghost use Rattle.vx_turn.specs.Seats.{IsInside, Keeps, Adds, IsNew, IsFree, IsOne, IsSharedBy};

use crate::rule::{Cuts, Draws, Kept, Law, Looks, Passes};
use crate::view::View;
use atomic_table::Table;
use std::alloc::Global;
use std::marker::Model;
use std::sync::Wait;
use std::thread;
use vx_base::NoMemory;

/// A thread's place at a lock. Only the thread that has it enters by it.
pub type Seat<T, E> = atomic_table::Seat<Option<T>, View<E>>;

/// A ticket lock round one value.
#[derive(Drop)]
pub struct Turnstile<T: Kept<E>, E> {
    table: Table<Option<T>, View<E>, u64, Law, Global>,
}

impl<T: Kept<E>, E> Model for Turnstile<T, E> {
    ghost use Rattle.vx_turn.specs.Seats.{IsTicketed, Lock};

    ghost Value = { Lock };

    ghost view = { λ l. record { table = l.table.shared.table_id; seats = l.table.shared.key } };

    ghost invariant = { λ l. IsTicketed l.table.shared.table_id };
}

impl<T: Kept<E> + Drop, E> Turnstile<T, E> {
    /// A lock round a value whose history is empty, with so many seats, 1 to 16.
    pub fn new(
        alloc: Global,
        value: T,
        seats: u32,
    ) -> Result<(Turnstile<T, E>, Vec<Seat<T, E>>), NoMemory>
        requires seats { (0 < seats) × (seats ≤ 16) }
        requires empty { T.history value ≡ [] }
        ensures count { IfOk result (λ r. (r.0.seats ≡ seats) × (vec_len r.1 ≡ seats)) }
        ensures seats { IfOk result (λ r. All (IsNew r.0.table) r.1.items) }
    {
        let mut row = Vec::with_capacity(alloc, 1)?;
        row.push_reserved(Some(value));
        let mut made = Vec::with_capacity(alloc, seats as usize)?;
        let count = u64::from(seats);
        let Ok((table, mut first)) = Table::new(alloc, &[0, 0], row, &count) else {
            return Err(NoMemory);
        };
        let lock = Turnstile { table };
        'seats: for _i in 1..seats {
            let seat = lock.split(&mut first);
            made.push_reserved(seat);
        }
        made.push_reserved(first);
        Ok((lock, made))
    }
}

impl<T: Kept<E>, E> Turnstile<T, E> {
    // Cuts off a seat with one part.
    fn split(&self, seat: &mut Seat<T, E>) -> Seat<T, E>
        requires own { seat.old.table_id ≡ self.now.table }
        requires some { (1 < seat.old.me.0.parts) × (seat.old.me ≡ (first_view seat.old.me.0.parts, [])) }
        ensures own { seat.new.table_id ≡ seat.old.table_id }
        ensures left { seat.new.me ≡ (first_view (seat.old.me.0.parts - 1), []) }
        ensures right { IsNew seat.old.table_id result }
    {
        self.table.shared.split_seat::<Cuts>(seat)
    }

    // Takes in a seat.
    fn glue(&self, seat: &mut Seat<T, E>, other: Seat<T, E>)
        requires seat { IsFree self.now.table seat.old }
        requires other { IsFree self.now.table other }
        ensures free { IsFree self.now.table seat.new }
        ensures view { seat.new.me.0 ≡ glued seat.old.me.0 other.me.0 }
    {
        self.table.shared.join_seat::<Cuts>(seat, other);
    }

    // Ends the lock, with the seat that took in all others.
    fn end(self, seat: Seat<T, E>) -> T
        requires seat { IsFree self.table seat }
        requires all { seat.me.0.parts ≡ self.seats }
        ensures { Shared (T.history result) seat.me.0 }
    {
        let Turnstile { table } = self;
        let mut closed = table.close_with(seat);
        let found = closed.take(0);
        closed.free();
        let Some(value) = found else { unreachable!() };
        value
    }

    /// Ends the lock, with all its seats, and gives the value back. What the seats have left is its history: each entry once. Takes no
    /// memory.
    pub fn close(self, mut seats: Vec<Seat<T, E>>) -> T
        requires free { All (IsOne self.table) seats.items }
        requires all { vec_len seats ≡ self.seats }
        requires some { 0 < vec_len seats }
        ensures { IsSharedBy (T.history result) seats.items }
    {
        let last = seats.pop();
        let Some(mut all) = last else { unreachable!() };
        'seats: while let Some(seat) = seats.pop() {
            self.glue(&mut all, seat);
        }
        self.end(all)
    }

    /// Waits for the seat's turn, and gives it the value. The history goes on from all that the seat has seen. Takes no memory.
    pub fn enter<R: Wait>(&self, rt: &R, seat: &mut Seat<T, E>) -> T
        requires { IsFree self.now.table seat.old }
        ensures inside { IsInside self.now.table seat.new }
        ensures seen { (seat.new.me.0.seen ≡ T.history result) × StartsWith (T.history result) seat.old.me.0.seen }
        ensures kept { Keeps seat.old.me.0 seat.new.me.0 }
        ensures id { seat.new.id ≡ seat.old.id }
    {
        let ticket = self.table.shared.fetch_add::<Draws>(seat, 0, 1);
        self.wait_for(rt, seat, ticket)
    }

    // Looks again and again until the ticket is served.
    fn wait_for<R: Wait>(&self, rt: &R, seat: &mut Seat<T, E>, ticket: u64) -> T
        requires own { seat.old.table_id ≡ self.now.table }
        requires waits { (seat.old.me.1 ≡ []) × (seat.old.me.0.stage ≡ Waiting ticket) }
        requires part { 0 < seat.old.me.0.parts }
        ensures inside { IsInside self.now.table seat.new }
        ensures seen { (seat.new.me.0.seen ≡ T.history result) × StartsWith (T.history result) seat.old.me.0.seen }
        ensures kept { Keeps seat.old.me.0 seat.new.me.0 }
        ensures id { seat.new.id ≡ seat.old.id }
    {
        for _ in rt.forever() {
            if self.look(seat, ticket) {
                return self.take_out(seat);
            }
            thread::yield_now();
        }
        unreachable!()
    }

    // Whether the ticket is served. Then the value is the seat's.
    fn look(&self, seat: &mut Seat<T, E>, ticket: u64) -> bool
        requires own { seat.old.table_id ≡ self.now.table }
        requires waits { (seat.old.me.1 ≡ []) × (seat.old.me.0.stage ≡ Waiting ticket) }
        ensures own { (seat.new.table_id ≡ seat.old.table_id) × (seat.new.id ≡ seat.old.id) }
        ensures looked { MatchBool result (Entered T.history seat.old.me ticket seat.new.me) (seat.new.me ≡ seat.old.me) }
    {
        let serving = self.table.shared.load::<Looks>(seat, 1);
        serving == ticket
    }

    // Takes the value out of its slot.
    fn take_out(&self, seat: &mut Seat<T, E>) -> T
        requires own { seat.old.table_id ≡ self.now.table }
        requires has { (x : T) × (seat.old.me.1 ≡ (0, Some x) ∷ []) }
        ensures own { (seat.new.table_id ≡ seat.old.table_id) × (seat.new.id ≡ seat.old.id) }
        ensures had { seat.old.me.1 ≡ (0, Some result) ∷ [] }
        ensures left { seat.new.me ≡ (seat.old.me.0, (0, None) ∷ []) }
    {
        let found = self.table.shared.exchange(seat, 0, None);
        let Some(value) = found else { unreachable!() };
        value
    }

    /// Hands the value back, with a history that goes on from the one that was seen; what it grew by is the seat's own. Takes no memory.
    pub fn leave(&self, seat: &mut Seat<T, E>, value: T)
        requires inside { IsInside self.now.table seat.old }
        requires longer { StartsWith (T.history value) seat.old.me.0.seen }
        ensures free { IsFree self.now.table seat.new }
        ensures adds { Adds seat.old.me.0 seat.new.me.0 (T.history value) }
        ensures id { seat.new.id ≡ seat.old.id }
    {
        let hole = self.table.shared.exchange(seat, 0, Some(value));
        let None = hole else { unreachable!() };
        self.table.shared.fetch_add::<Passes>(seat, 1, 1);
    }
}
