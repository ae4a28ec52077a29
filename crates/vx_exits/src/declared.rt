//! One declared handler.

ghost use Rattle.std.specs.Prelude.{◌≡◌, IsTrue, ◌↔◌};
ghost use Rattle.vx_base.specs.Entries.{is_same_entry};
ghost use Rattle.vx_base.specs.Handlers.{is_handler_of, is_handler_with};
ghost use Rattle.vx_exits.specs.Exits.{known, handed};

use std::marker::Model;
use vx_base::{Duplicate, Entry, Id, Mode, NoMemory, Routine, Same};

/// A declared exit handler, which contracts see as the plain `Handler` of `vx_base`.
#[derive(Drop)]
pub(crate) struct Declared<R: Routine> {
    id: Id,
    mode: Mode,
    routine: R,
}

impl<R: Routine> Model for Declared<R> {
    ghost use Rattle.vx_base.specs.Pieces.{Handler};

    ghost Value = { Handler };

    ghost view = { λ d. record { id = d.id; mode = d.mode; tag = R.tagged d.routine } };
}

impl<R: Routine> Declared<R> {
    pub(crate) fn new(id: Id, mode: Mode, routine: R) -> Declared<R>
        ensures { result ≡ record { id = id; mode = mode; tag = R.tagged routine } }
    {
        Declared { id, mode, routine }
    }

    /// Whether it is of a mode.
    pub(crate) fn is_of_mode(&self, mode: Mode) -> bool
        ensures { result ≡ is_handler_of mode self.now }
    {
        self.mode.rank() == mode.rank()
    }

    /// Whether it is of a mode and has a tag.
    pub(crate) fn is_tagged(&self, mode: Mode, tag: Entry) -> bool
        ensures { result ≡ is_handler_with mode tag self.now }
    {
        self.is_of_mode(mode) && is_same_entry(self.routine.tag(), tag)
    }

    /// Its id and its routine.
    pub(crate) fn parts(self) -> (Id, R)
        ensures { handed R.tagged result ≡ known self }
    {
        let Declared {
            id,
            mode: _,
            routine,
        } = self;
        (id, routine)
    }
}

/// Whether two tags are one.
fn is_same_entry(a: Entry, b: Entry) -> bool
    ensures word { result ≡ is_same_entry a b }
    ensures same { IsTrue result ↔ (a ≡ b) }
{
    match (a, b) {
        (Entry::Label(a, x), Entry::Label(b, y)) => a == b && x == y,
        (Entry::Exit(a), Entry::Exit(b)) => a == b,
        (Entry::Host(a), Entry::Host(b)) => a == b,
        _ => false,
    }
}

impl<R: Routine> Same for Declared<R> {
    fn same(&self, other: &Declared<R>) -> bool {
        self.id == other.id && self.mode == other.mode && self.routine.tag() == other.routine.tag()
    }
}

// The routine is made again from its tag.
impl<R: Routine> Duplicate for Declared<R> {
    fn duplicate(&self) -> Result<Declared<R>, NoMemory> {
        Ok(Declared {
            id: self.id,
            mode: self.mode,
            routine: R::scripted(self.routine.tag()),
        })
    }
}
