//! Nothing in a script leaves its element.

ghost use Rattle.std.specs.Prelude.{ℕ, List, IsTrue};
ghost use Rattle.std.specs.List.{list_all};
ghost use Rattle.vx_draw.specs.Shapes.{is_inert, escaped};

/// No byte of an escaped text ends an element or an attribute, and each is one that is printed.
#[tactic(auto, using(crate::proofs::Escapes::text_inert))]
pub fn escaped_is_inert()
    ensures { (text : List ℕ) → IsTrue (list_all is_inert (escaped text)) }
{}
