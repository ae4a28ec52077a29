//! The law that what is printed is read back: the canonical script of a well formed system is read as the system.
//!
//! `vx_script/specs/Script.antt` says what the canonical script of a system is, and the grammar (`vx_grammar`) what a text is spelled
//! as; they share only the spelling of calls and of fixed words. The law holds for every system that a script may say
//! (`IsWellFormed`) and that the program's types hold (`IsHeldSystem`).
#![tactic(auto)]

ghost use Rattle.vx_roundtrip.specs.Example.{IsExample};
ghost use Rattle.vx_roundtrip.specs.Law.{ReadsBack};

/// A canonical script is spelled as its system, and so `vx_grammar::read_script` reads it back, for every well formed system.
#[tactic(auto, using(crate::proofs::Back::reads_back))]
pub fn canonical_script_is_read_back()
    ensures { ReadsBack }
{}

/// A worked example of the law, computed: a system with every kind of line and of local statement.
#[tactic(auto, using(crate::proofs::Worked::worked_example))]
pub fn worked_example()
    ensures { IsExample }
{}
