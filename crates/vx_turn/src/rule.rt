//! The rule of the lock, and its steps.

ghost use Rattle.std.specs.Prelude.{List};

use crate::view::View;
use atomic_table::{Join, Play, Split, TableRule};
use std::marker::PhantomData;

/// A value that stands for a history.
pub trait Kept<E> {
    /// The history, oldest entry first.
    ghost history: { Self → List E };
}

// What holds between any two steps.
pub(crate) struct Law;

impl<E, T: Kept<E>> TableRule<Option<T>, View<E>, u64> for Law {
    ghost use Rattle.vx_turn.specs.Rule.{Rule, first_view};

    ghost holds = { λ n. Rule T.history n };

    ghost first = { λ n. first_view n };
}

// A ticket is drawn.
pub(crate) struct Draws;

impl<E, T: Kept<E>> Play<Option<T>, View<E>> for Draws {
    ghost use Rattle.vx_turn.specs.Rule.{Drew};

    ghost then = { λ st m r w. Drew m r w };
}

// A seat looks which ticket is served.
pub(crate) struct Looks;

impl<E, T: Kept<E>> Play<Option<T>, View<E>> for Looks {
    ghost use Rattle.vx_turn.specs.Rule.{Looked};

    ghost then = { λ st m r w. Looked T.history m r w };
}

// A seat that has handed the value back lets the next ticket be served.
pub(crate) struct Passes;

impl<E, T: Kept<E>> Play<Option<T>, View<E>> for Passes {
    ghost use Rattle.vx_turn.specs.Rule.{Passed};

    ghost then = { λ st m r w. Passed T.history m w };
}

// A seat is cut off, or taken in.
pub(crate) struct Cuts;

impl<E> Split<View<E>> for Cuts {
    ghost use Rattle.vx_turn.specs.Rule.{cut_left, cut_right};

    ghost left = { cut_left };

    ghost right = { cut_right };
}

impl<E> Join<View<E>> for Cuts {
    ghost use Rattle.vx_turn.specs.Rule.{glued, used_up};

    ghost both = { glued };

    ghost spent = { used_up };
}
