//! Effects, and the log of one event.

ghost use Rattle.std.specs.Prelude.{◌≡◌, ◌<◌, ◌≤◌, ◌+◌, ◌++◌, ◌∷◌, [], length, OnOk, OnErr};
ghost use Rattle.vx_base.specs.Roomy.{with_items};

use crate::bytes::{Bytes, NoMemory};
use crate::call::Target;
use crate::cond::Cond;
use crate::mode::Mode;
use crate::name::Name;
use crate::number::{Id, Pid};
use crate::request::Body;
use crate::reserved::Reserved;
use crate::sequence::Sequence;
use std::alloc::Global;
use std::marker::Model;

/// What was opened, and now has an id.
#[derive(Clone, Copy, Debug, PartialEq, Eq)]
pub enum Opened {
    /// A buffered request, to a line unit or a mailbox.
    Bio,
    /// A direct request, to a block unit.
    Dio,
    /// An attention entry of a mailbox.
    Attn,
    /// A timer.
    Timer,
    /// A scheduled wake.
    Wake,
    /// A declared AST.
    Ast,
    /// A forced exit.
    Force,
    /// An exit handler.
    Exh,
}

/// An event flag, as records name it.
#[derive(Clone, Copy, Debug, PartialEq, Eq)]
pub enum Cell {
    /// A process's own flag, by its number 0 to 63.
    Local(Pid, u32),
    /// A flag of a common cluster, by the cluster's group and name and a number 0 to 31.
    Common(u32, Name, u32),
}

/// One change that an event made.
#[derive(Drop)]
pub enum Effect {
    /// An id was opened, of a kind, by a process (a forced exit: for one), with the mode of its routine, if it has one.
    /// The number is the length of a buffered request, the repeat of a wake in ticks, else 0.
    Open {
        id: Id,
        kind: Opened,
        p: Pid,
        mode: Option<Mode>,
        n: u32,
    },
    /// A request finished.
    Fin {
        id: Id,
        cond: Cond,
    },
    /// A request in service is to be aborted.
    Mark(Id),
    /// An AST was queued.
    Que(Id),
    /// A timer, wake or attention entry fired.
    Fire(Id),
    /// An id ended, and its routine is never entered.
    Drop(Id),
    /// An exit handler was entered.
    Enter(Id),
    /// An AST is no longer active.
    Leave(Id),
    /// An event flag was set or cleared.
    Flag {
        cell: Cell,
        bit: bool,
    },
    /// An I/O status block, 1 to 32, was filled, or cleared if it has no condition.
    Iosb {
        p: Pid,
        i: u32,
        cond: Option<Cond>,
        count: u32,
        info: u32,
    },
    /// Bytes were put at the start of a buffer, 0 to 31.
    Buf {
        p: Pid,
        b: u32,
        bytes: Bytes,
    },
    /// An answer was put into a variable.
    Var {
        p: Pid,
        v: Target,
        n: u32,
    },
    /// A message was written to a mailbox.
    MPut {
        name: Name,
        id: Id,
        body: Body,
    },
    /// A message, by the id of its write, went to a read.
    MGet {
        name: Name,
        w: Id,
        r: Id,
    },
    /// A stored message was withdrawn.
    MCut {
        name: Name,
        w: Id,
    },
    /// A mailbox was made, or is gone.
    Mbx {
        name: Name,
        bit: bool,
    },
    /// A common cluster was made, or is gone.
    Cef {
        group: u32,
        name: Name,
        bit: bool,
    },
    /// A process's cluster 2 or 3 was associated, by its group and name, or dissociated.
    Clu {
        p: Pid,
        k: u32,
        cluster: Option<(u32, Name)>,
    },
    /// AST delivery in a mode was enabled or disabled.
    Enb {
        p: Pid,
        mode: Mode,
        bit: bool,
    },
    /// A process was made from the declaration of this name.
    New {
        p: Pid,
        name: Name,
    },
    /// A process was deleted.
    Gone(Pid),
}

/// Effects in order.
pub type EffectList = Sequence<Effect>;

/// The effects of one event, as they are logged. Contracts see the effects, and how many there is room for in all.
pub struct Effects {
    items: Reserved<Effect>,
}

impl Drop for Effects {
    // Written out, so that it is proved here once, and not in each crate that lets one go.
    fn drop(self) {
        let Self { items: _ } = self;
    }
}

impl Model for Effects {
    ghost use Rattle.vx_base.specs.Log.{Log};

    ghost Value = { Log };

    ghost view = { λ a. a.items };
}

impl Effects {
    /// No effects, and room for none. Takes no memory.
    pub fn new(alloc: Global) -> Effects
        ensures { result ≡ record { items = []; capacity = 0 } }
    {
        Effects {
            items: Reserved::new(alloc),
        }
    }

    /// Makes room for n effects more, or changes nothing.
    pub fn reserve(&mut self, n: u32) -> Result<(), NoMemory>
        ensures items { self.new.items ≡ self.old.items }
        ensures kept { self.old.capacity ≤ self.new.capacity }
        ensures ok { OnOk result (length self.new.items + n ≤ self.new.capacity) }
        ensures err { OnErr result (self.new ≡ self.old) }
    {
        self.items.reserve(n)
    }

    /// Takes all effects out; their room stays. Takes no memory.
    pub fn clear(&mut self)
        ensures { self.new ≡ with_items self.old [] }
    {
        self.items.clear();
    }

    /// Logs an effect. Takes no memory.
    pub fn add(&mut self, effect: Effect)
        requires { length self.old.items < self.old.capacity }
        ensures { self.new ≡ record self.old { items = self.old.items ++ effect ∷ [] } }
    {
        self.items.put(effect);
    }

    /// The effects alone. Takes no memory.
    pub fn done(self) -> EffectList
        ensures { result ≡ self.items }
    {
        let Effects { items } = self;
        Sequence::from_vec(items.into_vec())
    }
}
