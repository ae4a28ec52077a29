//! The processes, and what is remembered of them.
//!
//! Of each process it is remembered whether it has an event, if it alone tells that, and how deep it is. The processes stand in
//! blocks of 32, and of a block it is remembered how many of its processes have an event, and how deep the deepest is. Who is lent a
//! process to change makes it and its block forgotten first, so what is remembered of the others stays right.

ghost use Rattle.std.specs.Prelude.{◌≡◌, ◌+◌, ◌-◌, ◌<◌, ◌++◌, ◌∷◌, [], None, Some, length, map, slice_index_or, vec_capacity, vec_len, IfSome, OnOk};
ghost use Rattle.std.specs.Borrow.{sem, Lends};
ghost use Rattle.std.specs.Vec.{with_item};
ghost use Rattle.vx_procs.specs.Own.{AreOwn, block_of, own_event};
ghost use Rattle.vx_procs.specs.Again.{AreWider};
ghost use Rattle.vx_procs.specs.Processes.{process};
ghost use Rattle.vx_procs.specs.Snapshots.{books_in, process_in};
ghost use Rattle.vx_procs.specs.View.{books_of};
ghost use Rattle.vx_record.specs.State.{IsWithin, nobody};
ghost use Rattle.vx_procs.specs.Summaries.{AreRight, IsSummary};
ghost use Rattle.vx_procs.specs.Words.{deepest};

use crate::block::{BLOCK, block};
use crate::depth::deeper;
use crate::places::{cover, forget, remembered};
use crate::proc_snapshot::ProcSnapshot;
use crate::process::Proc;
use crate::restored::restore_all;
use crate::seen::{Seen, look};
use crate::summary::{Summary, deepest_in, summarize};
use std::alloc::Global;
use std::marker::Model;
use vx_base::{NoMemory, Pid, Routine};

/// The processes in the order of their numbers. Contracts see these alone.
#[derive(Drop)]
pub(crate) struct Procs<R: Routine> {
    items: Vec<Proc<R>>,
    // a place for each process; None if nothing is remembered of it
    seen: Vec<Option<Seen>>,
    // a place for each block; None if nothing is remembered of it
    summaries: Vec<Option<Summary>>,
}

impl<R: Routine> Model for Procs<R> {
    ghost use Rattle.std.specs.declared.vec.Vec.{Vec};
    ghost use Rattle.std.specs.declared.alloc.Global.{Global};
    ghost use Rattle.vx_procs.specs.declared.process.Proc.{Proc};

    ghost Value = { Vec (Proc R) Global };

    ghost use Rattle.vx_procs.specs.Summaries.{AreRight};

    ghost view = { λ t. t.items };

    ghost invariant = { λ t. AreRight t.seen.items t.summaries.items t.items.items };
}

// Remembers each block that was forgotten, and of its processes those that were.
fn refresh<R: Routine>(
    seen: &mut Vec<Option<Seen>>,
    summaries: &mut Vec<Option<Summary>>,
    procs: &[Proc<R>],
)
    requires { AreRight seen.old.items summaries.old.items procs.now }
    ensures { AreRight seen.new.items summaries.new.items procs.now }
{
    for b in 0..summaries.len() {
        if summaries[b].is_none() {
            look(seen, procs, b);
            summaries[b] = Some(summarize(block(seen, b), block(procs, b)));
        }
    }
}

impl<R: Routine> Procs<R> {
    ghost use Rattle.vx_procs.specs.contracts.process.Proc.{the_row as proc_row};
    ghost use Rattle.vx_procs.specs.contracts.table.Procs.{the_row};

    /// These processes. Takes no memory.
    pub(crate) fn new(alloc: Global, items: Vec<Proc<R>>) -> Procs<R>
        ensures { result ≡ items }
    {
        Procs {
            items,
            seen: Vec::new(alloc),
            summaries: Vec::new(alloc),
        }
    }

    /// Has the processes that were put away in place of its own, each of their routines made from its tag, with as much room or more. If
    /// memory runs out, some of them are there.
    pub(crate) fn restore(
        &mut self,
        alloc: Global,
        kept: &[ProcSnapshot<R>],
    ) -> Result<(), NoMemory>
        ensures procs { OnOk result (map process self.new.items ≡ map process_in kept.now) }
        ensures books { OnOk result (AreWider (map books_in kept.now) (map books_of self.new.items)) }
    {
        self.seen.clear();
        self.summaries.clear();
        restore_all(alloc, &mut self.items, kept)
    }

    /// How many there are.
    pub(crate) fn len(&self) -> usize
        ensures { result ≡ length self.now.items }
    {
        self.items.len()
    }

    /// All of them.
    pub(crate) fn as_slice(&self) -> &[Proc<R>]
        ensures { result.now ≡ self.now.items }
    {
        self.items.as_slice()
    }

    /// A process.
    pub(crate) fn at(&self, p: Pid) -> &Proc<R>
        requires { IsWithin (length self.now.items) p }
        ensures { result.now ≡ slice_index_or self.now.items (p.0 - 1) result.now }
    {
        &self.items[p.0 as usize - 1]
    }

    /// A process, to be changed where it stands.
    pub(crate) fn at_mut(&mut self, p: Pid) -> &mut Proc<R>
        requires { IsWithin (length self.old.items) p }
        ensures* writes_back { sem 𝓛 (Lends (the_row R.row R.Routine) (proc_row R.row R.Routine) self.entry result (λ proc. with_item self.old (p.0 - 1) proc)) }
        ensures value { result.now ≡ slice_index_or self.old.items (p.0 - 1) result.now }
    {
        let place = p.0 as usize - 1;
        forget(&mut self.seen, place);
        forget(&mut self.summaries, place / BLOCK);
        &mut self.items[place]
    }

    /// Makes room for a process more, or changes no process.
    pub(crate) fn reserve(&mut self) -> Result<(), NoMemory>
        ensures items { self.new.items ≡ self.old.items }
        ensures room { OnOk result (vec_len self.new < vec_capacity self.new) }
    {
        self.items.reserve(1)?;
        cover(&mut self.seen, self.items.len() + 1)?;
        cover(&mut self.summaries, self.items.len() / BLOCK + 1)
    }

    /// Puts a process at the end. Takes no memory.
    pub(crate) fn put(&mut self, proc: Proc<R>)
        requires { vec_len self.old < vec_capacity self.old }
        ensures { self.new.items ≡ self.old.items ++ proc ∷ [] }
    {
        let place = self.items.len();
        forget(&mut self.seen, place);
        forget(&mut self.summaries, place / BLOCK);
        match self.items.push(proc) {
            Ok(()) => (),
            Err(_) => unreachable!(),
        }
    }

    /// Brings up to date what is remembered. Takes no memory.
    pub(crate) fn refresh(&mut self)
        ensures { self.new ≡ self.old }
    {
        refresh(&mut self.seen, &mut self.summaries, self.items.as_slice());
    }

    /// Whether a process has an event; None if that is not known without a look at it.
    pub(crate) fn event_of(&self, p: Pid) -> Option<bool>
        requires { IsWithin (length self.now.items) p }
        ensures { IfSome result (λ has. own_event (slice_index_or (map process self.now.items) (p.0 - 1) nobody) ≡ Some has) }
    {
        remembered(&self.seen, p.0 as usize - 1)?.event()
    }

    // What is remembered of a block.
    fn summary(&self, b: usize) -> Option<Summary>
        ensures { IfSome result (λ m. IsSummary m (block_of b (map process self.now.items))) }
    {
        remembered(&self.summaries, b)
    }

    /// How many processes of a block have an event; None if that is not known without a look at each.
    pub(crate) fn events_in(&self, b: usize) -> Option<u32>
        ensures { IfSome result (λ n. AreOwn n (block_of b (map process self.now.items))) }
    {
        self.summary(b)?.events()
    }

    // The most frames and exit handlers that one of a block has.
    fn depth_of(&self, b: usize) -> u128
        ensures { result ≡ deepest (block_of b (map process self.now.items)) }
    {
        match self.summary(b) {
            Some(summary) => summary.depth(),
            None => deepest_in(block(&self.seen, b), block(self.items.as_slice(), b)),
        }
    }

    /// The most frames and exit handlers that one has.
    pub(crate) fn deepest(&self) -> u128
        ensures { result ≡ deepest (map process self.now.items) }
    {
        let mut most = 0;
        for b in 0..self.items.len() / BLOCK + 1 {
            most = deeper(most, self.depth_of(b));
        }
        most
    }
}
