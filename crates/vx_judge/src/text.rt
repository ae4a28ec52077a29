//! Names of devices.

ghost use Rattle.std.specs.Prelude.{◌≡◌, []};

use std::hash::{Hash, Hasher};
use std::marker::Model;
use vx_base::Name;

/// A name that can be hashed, or no name, which contracts see as a text without bytes.
#[derive(Clone, Copy)]
pub struct Text {
    bytes: [u8; 31],
    len: u8,
}

impl Model for Text {
    ghost use Rattle.std.specs.Prelude.{List, ℕ, length};
    ghost use Rattle.vx_base.specs.Padded.{text_of, padded};
    ghost use Rattle.vx_judge.specs.Texts.{IsText};

    ghost Value = { List ℕ };

    ghost view = { λ t. text_of t.len t.bytes };

    ghost invariant = { λ t. IsText t.len t.bytes };

    ghost inverse = { λ text. record { bytes = padded text; len = length text } };
}

impl PartialEq for Text {
    ghost use Rattle.std.specs.Prelude.{bytes_eq};
    ghost use Rattle.std.specs.Cmp.{partial_equiv_from_equiv};
    ghost use Rattle.std.proofs.lemmas.Cmp.{nat_list_eq_equiv};

    ghost eq = { λ a b. bytes_eq a b };

    ghost laws = { partial_equiv_from_equiv nat_list_eq_equiv };

    fn eq(&self, other: &Self) -> bool {
        self.bytes() == other.bytes()
    }
}

impl Eq for Text {
    ghost use Rattle.std.proofs.lemmas.Cmp.{nat_list_eq_equiv};

    ghost laws = { nat_list_eq_equiv };
}

// Its bytes, and one that no name has.
impl Hash for Text {
    ghost use Rattle.std.specs.Hash as fed;
    ghost use Rattle.std.proofs.Common.{ap};
    ghost use Rattle.std.specs.Cmp.Lexicographic.{bytes_decides};

    ghost hash_input = { λ t. fed.str t };

    ghost respects_eq = { λ a b e. ap fed.str ((bytes_decides a b).0 e) };

    fn hash<H: Hasher>(&self, state: &mut H) {
        state.write(self.bytes());
        state.write_u8(0xff);
    }
}

impl Text {
    /// No name.
    pub fn empty() -> Text
        ensures { result ≡ [] }
    {
        Text {
            bytes: [0; 31],
            len: 0,
        }
    }

    /// A name.
    #[tactic(auto, using(crate::proofs::Texts::text_padded))]
    pub fn of(name: &Name) -> Text
        ensures { result ≡ name.now }
    {
        let text = name.text();
        let mut bytes = [0; 31];
        bytes[..text.len()].copy_from_slice(text);
        Text {
            bytes,
            len: text.len() as u8,
        }
    }

    /// Its bytes.
    pub fn bytes(&self) -> &[u8]
        ensures { result.now ≡ self.now }
    {
        &self.bytes[..self.len as usize]
    }
}
