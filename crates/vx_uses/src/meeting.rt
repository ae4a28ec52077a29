//! A gate at which two units wait for each other.

use std::sync::atomic::{AtomicU64, Ordering};
use std::thread;
use vx_base::UnitNo;
use vx_carrier::Gate;

/// How often each of two units has been seen in service, and how often one waited for the other in vain.
#[derive(Drop)]
pub(crate) struct Notes {
    first: AtomicU64,
    second: AtomicU64,
    missed: AtomicU64,
}

/// Each unit's first service waits until the other unit is in service too.
#[derive(Drop)]
pub(crate) struct Meeting<'a> {
    notes: &'a Notes,
}

impl Notes {
    /// Nothing seen yet.
    pub(crate) fn new() -> Notes {
        Notes {
            first: AtomicU64::new(0),
            second: AtomicU64::new(0),
            missed: AtomicU64::new(0),
        }
    }

    /// How often unit 0, unit 1, and a wait in vain were seen.
    pub(crate) fn seen(&self) -> [u64; 3] {
        [
            self.first.load(Ordering::SeqCst),
            self.second.load(Ordering::SeqCst),
            self.missed.load(Ordering::SeqCst),
        ]
    }
}

impl Meeting<'_> {
    /// A gate that notes here.
    pub(crate) fn at(notes: &Notes) -> Meeting<'_> {
        Meeting { notes }
    }
}

impl Gate for Meeting<'_> {
    fn serving(&self, unit: UnitNo, _number: u32) {
        let (mine, other) = if unit.0 == 0 {
            (&self.notes.first, &self.notes.second)
        } else {
            (&self.notes.second, &self.notes.first)
        };
        if mine.fetch_add(1, Ordering::SeqCst) > 0 {
            return;
        }
        for _ in 0..1_000_000u32 {
            if other.load(Ordering::SeqCst) > 0 {
                return;
            }
            thread::yield_now();
        }
        self.notes.missed.fetch_add(1, Ordering::SeqCst);
    }
}
