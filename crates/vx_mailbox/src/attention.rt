//! One attention entry.

ghost use Rattle.std.specs.Prelude.{◌≡◌, ◌↔◌, IsTrue};
ghost use Rattle.vx_record.specs.Cancel.{is_attention_on};
ghost use Rattle.vx_record.specs.Mailboxes.{is_attention_at, is_same_attention, this_attention};

use std::marker::Model;
use vx_base::{BoxNo, Duplicate, Func, Id, Mode, NoMemory, Pid, Routine, Same};

/// A process asks, on its channel to a mailbox, for an AST. Contracts see the plain `Attention` of `vx_base`.
#[derive(Drop)]
pub struct AttentionEntry<R: Routine> {
    id: Id,
    p: Pid,
    chan: u32,
    b: BoxNo,
    func: Func,
    mode: Mode,
    routine: R,
}

impl<R: Routine> Model for AttentionEntry<R> {
    ghost use Rattle.vx_base.specs.Pieces.{Attention};

    ghost Value = { Attention };

    ghost view = { λ a. record { id = a.id; p = a.p; chan = a.chan; box = a.b; func = a.func; mode = a.mode; tag = R.tagged a.routine } };
}

impl<R: Routine> AttentionEntry<R> {
    /// The entry of a process on its channel to a mailbox: by which function it asks, and the mode and the routine of its AST.
    pub fn new(
        id: Id,
        p: Pid,
        chan: u32,
        b: BoxNo,
        func: Func,
        mode: Mode,
        routine: R,
    ) -> AttentionEntry<R>
        ensures { result ≡ record { id = id; p = p; chan = chan; box = b; func = func; mode = mode; tag = R.tagged routine } }
    {
        AttentionEntry {
            id,
            p,
            chan,
            b,
            func,
            mode,
            routine,
        }
    }

    /// Its id.
    pub fn id(&self) -> Id
        ensures { result ≡ self.now.id }
    {
        self.id
    }

    /// The process that asks.
    pub fn p(&self) -> Pid
        ensures { result ≡ self.now.p }
    {
        self.p
    }

    /// The mode of its AST.
    pub fn mode(&self) -> Mode
        ensures { result ≡ self.now.mode }
    {
        self.mode
    }

    /// The routine of its AST.
    pub fn into_routine(self) -> R
        ensures { R.tagged result ≡ self.tag }
    {
        let AttentionEntry {
            id: _,
            p: _,
            chan: _,
            b: _,
            func: _,
            mode: _,
            routine,
        } = self;
        routine
    }

    /// Whether it has an id.
    pub(crate) fn has_id(&self, id: Id) -> bool
        ensures { result ≡ this_attention id self.now }
    {
        self.id.0 == id.0
    }

    /// Whether it asks at a mailbox by a function.
    pub(crate) fn is_at(&self, b: BoxNo, func: Func) -> bool
        ensures { result ≡ is_attention_at b func self.now }
    {
        self.b.0 == b.0 && is_same_attention(self.func, func)
    }

    // Whether it has the same id, process, channel and mailbox.
    fn is_same_place(&self, other: &AttentionEntry<R>) -> bool
        ensures { IsTrue result ↔ ((self.now.id ≡ other.now.id) × (self.now.p ≡ other.now.p) × (self.now.chan ≡ other.now.chan) × (self.now.box ≡ other.now.box)) }
    {
        self.id == other.id && self.p == other.p && self.chan == other.chan && self.b == other.b
    }

    // Whether it has the same function, mode and tag.
    fn is_same_ast(&self, other: &AttentionEntry<R>) -> bool
        ensures { IsTrue result ↔ ((self.now.func ≡ other.now.func) × (self.now.mode ≡ other.now.mode) × (self.now.tag ≡ other.now.tag)) }
    {
        self.func == other.func
            && self.mode == other.mode
            && self.routine.tag() == other.routine.tag()
    }

    /// Whether a process asks by it on a channel.
    pub(crate) fn is_on(&self, p: Pid, chan: u32) -> bool
        ensures { result ≡ is_attention_on p chan self.now }
    {
        self.p.0 == p.0 && self.chan == chan
    }
}

// Whether both functions ask for the same.
fn is_same_attention(a: Func, b: Func) -> bool
    ensures { result ≡ is_same_attention a b }
{
    match (a, b) {
        (Func::ReadAttn, Func::ReadAttn) => true,
        (Func::WrtAttn, Func::WrtAttn) => true,
        _ => false,
    }
}

impl<R: Routine> Same for AttentionEntry<R> {
    fn same(&self, other: &AttentionEntry<R>) -> bool {
        self.is_same_place(other) && self.is_same_ast(other)
    }
}

// The routine is made again from its tag.
impl<R: Routine> Duplicate for AttentionEntry<R> {
    fn duplicate(&self) -> Result<AttentionEntry<R>, NoMemory> {
        Ok(AttentionEntry {
            id: self.id,
            p: self.p,
            chan: self.chan,
            b: self.b,
            func: self.func,
            mode: self.mode,
            routine: R::scripted(self.routine.tag()),
        })
    }
}
