//! Threads that fill one log under a ticket lock.

ghost use Rattle.std.specs.Prelude.{◌<◌, ◌≤◌};
ghost use Rattle.vx_turn.specs.Seats.{IsOne};

use std::alloc::Global;
use std::sync::Wait;
use std::test::*;
use std::thread;
use std::thread::Threads;
use vx_base::NoMemory;
use vx_turn::{Kept, Seat, Turnstile};

/// Entries, and the history that they are.
#[derive(Drop)]
struct Log {
    items: Vec<u64>,
}

impl Kept<u64> for Log {
    ghost history = { λ l. l.items.items };
}

// Enters, leaves an entry, if there is memory for it, and goes.
fn leave_one<R: Wait>(
    rt: &R,
    lock: &Turnstile<Log, u64>,
    mut seat: Seat<Log, u64>,
    entry: u64,
) -> Seat<Log, u64>
    requires { IsOne lock.now.table seat }
    ensures { IsOne lock.now.table result }
{
    let mut log = lock.enter(rt, &mut seat);
    let _ = log.items.push(entry);
    lock.leave(&mut seat, log);
    seat
}

// Leaves a thousand entries.
fn leave_many<R: Wait>(
    rt: &R,
    lock: &Turnstile<Log, u64>,
    mut seat: Seat<Log, u64>,
) -> Seat<Log, u64>
    requires { IsOne lock.now.table seat }
    ensures { IsOne lock.now.table result }
{
    'rounds: for i in 0..1000u64 {
        seat = leave_one(rt, lock, seat, i);
    }
    seat
}

// So many threads leave a thousand entries each: all that were left.
fn fill<R: Threads + Wait + Sync>(rt: &R, alloc: Global, threads: u32) -> Result<Vec<u64>, NoMemory>
    requires few { (0 < threads) × (threads ≤ 16) }
{
    let log = Log {
        items: Vec::new(alloc),
    };
    let (lock, seats) = Turnstile::new(alloc, log, threads)?;
    let shared = &lock;
    let seats = thread::map_vec(
        rt,
        seats,
        &|seat: Seat<Log, u64>| -> Seat<Log, u64>
            requires { IsOne shared.now.table seat }
            ensures { IsOne shared.entry.now.table result }
        { leave_many(rt, shared, seat) },
    )?;
    let Log { items } = lock.close(seats);
    Ok(items)
}

// None of 4,000 entries is lost.
#[test]
fn four_threads_fill_one_log(rt: HostRuntime) -> Result<(), Fail> {
    let items = fill(&rt, rt.alloc(), 4).ok().ok_or("memory")?;
    assert_eq!(rt; items.len(), 4000);
    Ok(())
}
