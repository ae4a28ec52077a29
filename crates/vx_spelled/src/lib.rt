//! The law that every run can be written down: each record of a run has a spelling, which is read back as the record.
//!
//! `vx_lines/specs/Spelled.antt` and `SpelledHead.antt` say which effects and heads have a spelling. What the program's types hold
//! (`specs/Held.antt`) is a premise here; that the rest holds of every run follows from the definitions of `vx_record`.
#![tactic(auto)]

ghost use Rattle.vx_spelled.specs.Law.{RunsAreSpelled};

/// The records of a run of a well formed system have a spelling, if their numbers, names and bytes are such as the program's
/// types hold.
#[tactic(auto, using(crate::proofs::Runs::runs_spelled))]
pub fn runs_are_spelled()
    ensures { RunsAreSpelled }
{}
