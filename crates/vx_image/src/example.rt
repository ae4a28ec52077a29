//! Worked examples, computed.

ghost use Rattle.vx_image.specs.Example.{Wraps, GoesRound, ReadsPast};

/// A sum and a difference wrap, by computation from the definitions alone.
pub fn wrapping_example()
    ensures { Wraps }
{}

/// A statement that goes to itself is run as often as a run may, and no more, whatever is stored.
#[tactic(auto, using(crate::proofs::Computed::goes_round))]
pub fn round_example()
    ensures { GoesRound }
{}

/// Past a buffer's end the bytes are 0, by computation from the definitions alone.
pub fn past_example()
    ensures { ReadsPast }
{}
