//! A timer or a scheduled wake.

ghost use Rattle.std.specs.Prelude.{◌≡◌, ◌↔◌, ◌+◌, ◌<◌, ◌^◌, IsTrue, option_map};
ghost use Rattle.vx_record.specs.Charges.{is_timer, takes_ast};
ghost use Rattle.vx_record.specs.Rundown.{is_timer_in, is_wake_by};
ghost use Rattle.vx_record.specs.Timers.{due_again, is_cancelled_timer, is_due, is_wake_for};
ghost use Rattle.vx_timers.specs.Seen.{alarm_of};

use std::marker::Model;
use vx_base::{Duplicate, Id, Mode, NoMemory, Pid, Routine, Same};

/// What happens when an entry falls due.
#[derive(Drop)]
pub enum What<R> {
    /// A timer: its event flag, the identification that it can be cancelled by (0 if it has none), its mode, and its AST
    /// routine if it has one.
    Timer {
        efn: u32,
        reqid: u32,
        mode: Mode,
        routine: Option<R>,
    },
    /// A wake of a process, and again after so many ticks if these are not 0.
    Wake {
        target: Pid,
        repeat: u32,
    },
}

/// What an entry does when it falls due.
#[derive(Clone, Copy, Drop)]
pub enum Falls {
    /// A timer sets an event flag.
    Timer(u32),
    /// A wake wakes a process, and again after so many ticks if these are not 0.
    Wake(Pid, u32),
}

/// Which entries are looked for.
#[derive(Clone, Copy, Drop)]
pub enum Which {
    /// Those that are due by a time.
    Due(u64),
    /// The timers of a process of a mode or an outer one, with an identification, 0 for any ($CANTIM).
    Cancelled(Pid, u32, Mode),
    /// The timers of a process of a mode or an outer one.
    TimersOf(Pid, Mode),
    /// The wakes that a process scheduled.
    WakesBy(Pid),
    /// The wakes of a process ($CANWAK).
    WakesFor(Pid),
}

/// A timer or a scheduled wake: its id, the process that set it, and when it is due, in ticks. Contracts see the plain
/// `Timer` of `vx_base`.
#[derive(Drop)]
pub struct Due<R: Routine> {
    id: Id,
    p: Pid,
    due: u64,
    what: What<R>,
}

impl<R: Routine> Model for Due<R> {
    ghost use Rattle.vx_base.specs.Pieces.{Timer};

    ghost Value = { Timer };

    ghost use Rattle.vx_timers.specs.Seen.{alarm_of};

    ghost view = { λ d. record { id = d.id; p = d.p; due = d.due; what = alarm_of R.tagged d.what } };
}

impl<R: Routine> Due<R> {
    ghost use Rattle.vx_timers.specs.Seen.{alarm_of, falls_of, passes};

    /// An entry.
    pub fn new(id: Id, p: Pid, due: u64, what: What<R>) -> Due<R>
        ensures { result ≡ record { id = id; p = p; due = due; what = alarm_of R.tagged what } }
    {
        Due { id, p, due, what }
    }

    /// Its id.
    pub fn id(&self) -> Id
        ensures { result ≡ self.now.id }
    {
        self.id
    }

    /// The process that set it.
    pub fn p(&self) -> Pid
        ensures { result ≡ self.now.p }
    {
        self.p
    }

    /// When it is due.
    pub fn due(&self) -> u64
        ensures { result ≡ self.now.due }
    {
        self.due
    }

    /// What it does when it falls due.
    pub fn falls(&self) -> Falls
        ensures { result ≡ falls_of self.now.what }
    {
        match &self.what {
            What::Timer {
                efn,
                reqid: _,
                mode: _,
                routine: _,
            } => Falls::Timer(*efn),
            What::Wake { target, repeat } => Falls::Wake(*target, *repeat),
        }
    }

    /// Whether it is a timer.
    pub fn is_timer(&self) -> bool
        ensures { result ≡ is_timer self.now.what }
    {
        match &self.what {
            What::Timer {
                efn: _,
                reqid: _,
                mode: _,
                routine: _,
            } => true,
            What::Wake {
                target: _,
                repeat: _,
            } => false,
        }
    }

    /// Whether it takes an AST: a timer with a routine, and each wake.
    pub fn takes_ast(&self) -> bool
        ensures { result ≡ takes_ast self.now.what }
    {
        match &self.what {
            What::Timer {
                efn: _,
                reqid: _,
                mode: _,
                routine,
            } => routine.is_some(),
            What::Wake {
                target: _,
                repeat: _,
            } => true,
        }
    }

    /// What happens then.
    pub fn into_what(self) -> What<R>
        ensures { alarm_of R.tagged result ≡ self.what }
    {
        let Due {
            id: _,
            p: _,
            due: _,
            what,
        } = self;
        what
    }

    /// Whether it is one of those that are looked for.
    pub(crate) fn passes(&self, which: Which) -> bool
        ensures { result ≡ passes which self.now }
    {
        match which {
            Which::Due(now) => self.is_due(now),
            Which::Cancelled(p, reqid, mode) => self.is_cancelled(p, reqid, mode),
            Which::TimersOf(p, mode) => self.is_timer_in(p, mode),
            Which::WakesBy(p) => self.is_wake_by(p),
            Which::WakesFor(q) => self.is_wake_for(q),
        }
    }

    /// It is due so many ticks later.
    pub(crate) fn put_off(&mut self, ticks: u32)
        requires { self.old.due + ticks < 2 ^ 64 }
        ensures { self.new ≡ due_again ticks self.old }
    {
        self.due += ticks as u64;
    }

    /// Whether it is due by then.
    fn is_due(&self, now: u64) -> bool
        ensures { result ≡ is_due now self.now }
    {
        self.due <= now
    }

    /// Whether a process set it, and it is a timer of a mode or an outer one with an identification, 0 for any.
    fn is_cancelled(&self, p: Pid, reqid: u32, mode: Mode) -> bool
        ensures { result ≡ is_cancelled_timer p reqid mode self.now }
    {
        self.p.0 == p.0
            && match &self.what {
                What::Timer {
                    efn: _,
                    reqid: own,
                    mode: its,
                    routine: _,
                } => mode.rank() <= its.rank() && (reqid == 0 || *own == reqid),
                What::Wake {
                    target: _,
                    repeat: _,
                } => false,
            }
    }

    /// Whether a process set it, and it is a timer of a mode or an outer one.
    fn is_timer_in(&self, p: Pid, mode: Mode) -> bool
        ensures { result ≡ is_timer_in p mode self.now }
    {
        self.p.0 == p.0
            && match &self.what {
                What::Timer {
                    efn: _,
                    reqid: _,
                    mode: its,
                    routine: _,
                } => mode.rank() <= its.rank(),
                What::Wake {
                    target: _,
                    repeat: _,
                } => false,
            }
    }

    /// Whether a process set it, and it is a wake.
    fn is_wake_by(&self, p: Pid) -> bool
        ensures { result ≡ is_wake_by p self.now }
    {
        self.p.0 == p.0
            && match &self.what {
                What::Timer {
                    efn: _,
                    reqid: _,
                    mode: _,
                    routine: _,
                } => false,
                What::Wake {
                    target: _,
                    repeat: _,
                } => true,
            }
    }

    /// Whether it is a wake of a process.
    fn is_wake_for(&self, q: Pid) -> bool
        ensures { result ≡ is_wake_for q self.now }
    {
        match &self.what {
            What::Timer {
                efn: _,
                reqid: _,
                mode: _,
                routine: _,
            } => false,
            What::Wake { target, repeat: _ } => target.0 == q.0,
        }
    }
}

impl<R: Routine> Same for Due<R> {
    fn same(&self, other: &Due<R>) -> bool {
        self.id == other.id
            && self.p == other.p
            && self.due == other.due
            && same_what(&self.what, &other.what)
    }
}

impl<R: Routine> Duplicate for Due<R> {
    fn duplicate(&self) -> Result<Due<R>, NoMemory> {
        Ok(Due {
            id: self.id,
            p: self.p,
            due: self.due,
            what: duplicate_what(&self.what),
        })
    }
}

// Whether two routines have one tag, or there are none.
fn same_tags<R: Routine>(a: &Option<R>, b: &Option<R>) -> bool
    ensures { IsTrue result ↔ (option_map R.tagged a.now ≡ option_map R.tagged b.now) }
{
    match (a, b) {
        (Some(a), Some(b)) => a.tag() == b.tag(),
        (None, None) => true,
        _ => false,
    }
}

// A routine made again from its tag, if there is one.
fn again<R: Routine>(routine: &Option<R>) -> Option<R>
    ensures { option_map R.tagged result ≡ option_map R.tagged routine.now }
{
    match routine {
        Some(routine) => Some(R::scripted(routine.tag())),
        None => None,
    }
}

// Whether two entries do the same when they fall due.
fn same_what<R: Routine>(a: &What<R>, b: &What<R>) -> bool
    ensures { IsTrue result ↔ (alarm_of R.tagged a.now ≡ alarm_of R.tagged b.now) }
{
    match (a, b) {
        (
            What::Timer {
                efn,
                reqid,
                mode,
                routine,
            },
            What::Timer {
                efn: efn_2,
                reqid: reqid_2,
                mode: mode_2,
                routine: routine_2,
            },
        ) => efn == efn_2 && reqid == reqid_2 && mode == mode_2 && same_tags(routine, routine_2),
        (
            What::Wake { target, repeat },
            What::Wake {
                target: target_2,
                repeat: repeat_2,
            },
        ) => target == target_2 && repeat == repeat_2,
        _ => false,
    }
}

// What does the same when it falls due.
fn duplicate_what<R: Routine>(what: &What<R>) -> What<R>
    ensures { alarm_of R.tagged result ≡ alarm_of R.tagged what.now }
{
    match what {
        What::Timer {
            efn,
            reqid,
            mode,
            routine,
        } => What::Timer {
            efn: *efn,
            reqid: *reqid,
            mode: *mode,
            routine: again(routine),
        },
        What::Wake { target, repeat } => What::Wake {
            target: *target,
            repeat: *repeat,
        },
    }
}
