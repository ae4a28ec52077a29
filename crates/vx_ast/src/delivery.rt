//! One queued AST.

ghost use Rattle.std.specs.Prelude.{◌≡◌};

use std::marker::Model;
use vx_base::{Duplicate, Id, Mode, NoMemory, Routine, Same};

/// A queued AST: its id, its mode, whether it is charged to its process's AST limit, and its routine. Contracts see the
/// plain `Queued` of `vx_base`.
#[derive(Drop)]
pub struct Delivery<R: Routine> {
    id: Id,
    mode: Mode,
    charged: bool,
    routine: R,
}

impl<R: Routine> Model for Delivery<R> {
    ghost use Rattle.vx_base.specs.Pieces.{Queued};

    ghost Value = { Queued };

    ghost view = { λ d. record { id = d.id; mode = d.mode; tag = R.tagged d.routine; charged = d.charged } };
}

impl<R: Routine> Delivery<R> {
    /// An AST of a routine.
    pub fn new(id: Id, mode: Mode, routine: R, charged: bool) -> Delivery<R>
        ensures { result ≡ record { id = id; mode = mode; tag = R.tagged routine; charged = charged } }
    {
        Delivery {
            id,
            mode,
            charged,
            routine,
        }
    }

    /// Its id.
    pub fn id(&self) -> Id
        ensures { result ≡ self.now.id }
    {
        self.id
    }

    /// Its mode.
    pub fn mode(&self) -> Mode
        ensures { result ≡ self.now.mode }
    {
        self.mode
    }

    /// Whether it is charged.
    pub fn is_charged(&self) -> bool
        ensures { result ≡ self.now.charged }
    {
        self.charged
    }

    /// Its routine.
    pub fn into_routine(self) -> R
        ensures { R.tagged result ≡ self.tag }
    {
        let Delivery {
            id: _,
            mode: _,
            charged: _,
            routine,
        } = self;
        routine
    }
}

impl<R: Routine> Same for Delivery<R> {
    fn same(&self, other: &Delivery<R>) -> bool {
        self.id == other.id
            && self.mode == other.mode
            && self.charged == other.charged
            && self.routine.tag() == other.routine.tag()
    }
}

// The routine is made again from its tag.
impl<R: Routine> Duplicate for Delivery<R> {
    fn duplicate(&self) -> Result<Delivery<R>, NoMemory> {
        Ok(Delivery {
            id: self.id,
            mode: self.mode,
            charged: self.charged,
            routine: R::scripted(self.routine.tag()),
        })
    }
}
