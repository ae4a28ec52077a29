//! The grammar of scripts, and the reader whose contract it is.
//!
//! `specs/Grammar.antt` says what a script is, line by line: each production has the form of a line and the part of the system that
//! the line stands for. `specs/FirstFault.antt` says which line of a text is the first faulty one: the first that no production fits;
//! `specs/LineFault.antt` says the kind of its fault, and `specs/UnknownName.antt` which line names what is not there. None of them
//! carries a part of the system from line to line. They share with the reader the rules of tokens (`vx_text`), the table of services,
//! the fields of a line, the spelling of fixed words, and small words on lists.
#![tactic(auto)]

ghost use Rattle.std.specs.Prelude.{◌≡◌, ◌⊎◌, ◌<◌, ℕ, List, length, Ok, Err, IfOk};
ghost use Rattle.vx_image.specs.WellFormed.{IsWellFormed};
ghost use Rattle.vx_image.specs.declared.system.System.{System};
ghost use Rattle.vx_script.specs.Results.{ReadsScript};
ghost use Rattle.vx_script.specs.declared.fault.ScriptFault.{ScriptFault};
ghost use Rattle.vx_grammar.specs.FirstFault.{Tells, TellsIfFault};
ghost use Rattle.vx_grammar.specs.Grammar.{Spells};

use std::alloc::Global;
use vx_image::System;
use vx_script::ScriptFail;

/// Reads the system that a text is spelled as, or tells the first fault of the text: its line, from 1, and its kind. The text may
/// be of any bytes.
#[tactic(auto, using(crate::proofs::Returned::if_spelled, crate::proofs::Returned::no_other, crate::proofs::Returned::if_fault, crate::proofs::Returned::no_other_fault))]
pub fn read_script(alloc: Global, text: &[u8]) -> Result<System, ScriptFail>
    requires { length text.now < 4294967295 }
    // What is read is spelled so and well formed, and what is spelled so is read, unless memory runs out.
    ensures spelled { IfOk result (λ s. Spells text.now s × IsWellFormed s) }
    ensures only { (s : System) → Spells text.now s → ReadsScript result (Ok s) }
    // The same of the text's fault.
    ensures fault { TellsIfFault text.now result }
    ensures only_fault { (fault : ScriptFault) → Tells text.now fault → ReadsScript result (Err fault) }
{
    vx_script::parse_script(alloc, text)
}

/// Each text says exactly one thing: a system that the grammar spells it as, or a first fault.
pub fn each_text_says_one_thing()
    ensures some { (text : List ℕ) → ((s : System) × Spells text s) ⊎ ((fault : ScriptFault) × Tells text fault) }
    ensures one_system { (text : List ℕ) (s t : System) → Spells text s → Spells text t → s ≡ t }
    ensures one_fault { (text : List ℕ) (f g : ScriptFault) → Tells text f → Tells text g → f ≡ g }
    ensures not_both { (text : List ℕ) (s : System) (fault : ScriptFault) → Spells text s → Tells text fault → ⊥ }
{}
