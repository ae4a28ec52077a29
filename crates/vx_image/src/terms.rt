//! The terms of statements in a small form.

ghost use Rattle.std.specs.Prelude.{◌≡◌, ◌∷◌, ◌++◌, [], length, map, IfOk, IsTrue, OnOk, OnErr};
ghost use Rattle.vx_image.specs.Packed.{Begins};
ghost use Rattle.vx_image.specs.Terms.{OfArg, OfText, arg_in, text_in, arg_of, IsPacked, term_of};

use crate::texts::Texts;
use std::alloc::Global;
use std::marker::Model;
use vx_base::{Arg, Cond, Func, Mode, Name, NoMemory, Operand, Same, Target};
use vx_same::same_items;

/// A term in 8 bytes: a name or a quoted text is its place among the texts.
#[derive(Clone, Copy, PartialEq)]
pub(crate) enum Packed {
    Num(u32),
    Cond(Cond),
    Var(u8),
    R0,
    Pid,
    Prm,
    Target(Target),
    Mode(Mode),
    Name(u32),
    Label(u32),
    NoLabel,
    Func(Func),
    Unused,
    Text(u32),
}

/// Arguments and quoted texts in order, which contracts see as their list.
#[derive(Drop)]
pub(crate) struct Terms {
    packed: Vec<Packed>,
    texts: Texts,
}

impl Model for Terms {
    ghost use Rattle.std.specs.Prelude.{List};
    ghost use Rattle.vx_image.specs.Terms.{Term, terms_in, AreThere};

    ghost Value = { List Term };

    ghost view = { λ t. terms_in t.texts t.packed.items };

    ghost invariant = { λ t. AreThere t.texts t.packed.items };
}

// An argument in its small form, with its name put behind the texts.
#[tactic(auto, using(crate::proofs::KeptTerms::last_text, crate::proofs::KeptTerms::begins_longer))]
fn pack(texts: &mut Texts, arg: &Arg) -> Result<Packed, NoMemory>
    ensures kept { Begins texts.old texts.new }
    ensures packed { IfOk result (λ p. IsPacked texts.new p (OfArg arg.now)) }
{
    Ok(match arg {
        Arg::Value(Operand::Num(n)) => Packed::Num(*n),
        Arg::Value(Operand::Cond(cond)) => Packed::Cond(*cond),
        Arg::Value(Operand::Var(v)) => Packed::Var(*v),
        Arg::Value(Operand::R0) => Packed::R0,
        Arg::Value(Operand::Pid) => Packed::Pid,
        Arg::Value(Operand::Prm) => Packed::Prm,
        Arg::Target(t) => Packed::Target(*t),
        Arg::Mode(m) => Packed::Mode(*m),
        Arg::Name(name) => Packed::Name(texts.add(name.text())?),
        Arg::Label(Some(name)) => Packed::Label(texts.add(name.text())?),
        Arg::Label(None) => Packed::NoLabel,
        Arg::Func(f) => Packed::Func(*f),
        Arg::Unused => Packed::Unused,
    })
}

// A quoted text in its small form, with its bytes put behind the texts.
#[tactic(auto, using(crate::proofs::KeptTerms::last_text, crate::proofs::KeptTerms::begins_longer))]
fn pack_text(texts: &mut Texts, text: &[u8]) -> Result<Packed, NoMemory>
    ensures kept { Begins texts.old texts.new }
    ensures packed { IfOk result (λ p. IsPacked texts.new p (OfText text.now)) }
{
    Ok(Packed::Text(texts.add(text)?))
}

// An argument from its small form.
fn unpack(texts: &Texts, packed: Packed) -> Arg
    ensures { result ≡ arg_of (term_of texts.now packed) }
{
    match packed {
        Packed::Num(n) => Arg::Value(Operand::Num(n)),
        Packed::Cond(cond) => Arg::Value(Operand::Cond(cond)),
        Packed::Var(v) => Arg::Value(Operand::Var(v)),
        Packed::R0 => Arg::Value(Operand::R0),
        Packed::Pid => Arg::Value(Operand::Pid),
        Packed::Prm => Arg::Value(Operand::Prm),
        Packed::Target(t) => Arg::Target(t),
        Packed::Mode(m) => Arg::Mode(m),
        Packed::Name(i) => match Name::new(texts.get(i)) {
            Some(name) => Arg::Name(name),
            None => Arg::Unused,
        },
        Packed::Label(i) => match Name::new(texts.get(i)) {
            Some(name) => Arg::Label(Some(name)),
            None => Arg::Unused,
        },
        Packed::NoLabel => Arg::Label(None),
        Packed::Func(f) => Arg::Func(f),
        Packed::Unused | Packed::Text(_) => Arg::Unused,
    }
}

impl Same for Packed {
    fn same(&self, other: &Packed) -> bool {
        *self == *other
    }
}

impl Terms {
    /// No terms. Takes no memory.
    pub(crate) fn new(alloc: Global) -> Terms
        ensures { result ≡ [] }
    {
        Terms {
            packed: Vec::new(alloc),
            texts: Texts::new(alloc),
        }
    }

    /// How many there are.
    pub(crate) fn len(&self) -> usize
        ensures { result ≡ length self.now }
    {
        self.packed.len()
    }

    /// The argument at a place, `Unused` if there is none.
    pub(crate) fn arg(&self, i: usize) -> Arg
        ensures { result ≡ arg_in self.now i }
    {
        match self.packed.get(i) {
            Some(packed) => unpack(&self.texts, *packed),
            None => Arg::Unused,
        }
    }

    /// The quoted text at a place, empty if there is none.
    pub(crate) fn text(&self, i: usize) -> &[u8]
        ensures { result.now ≡ text_in self.now i }
    {
        match self.packed.get(i) {
            Some(Packed::Text(text)) => self.texts.get(*text),
            _ => &[],
        }
    }

    /// Appends an argument, or changes nothing.
    #[tactic(auto, using(crate::proofs::KeptTerms::terms_and_one, crate::proofs::KeptTerms::there_and_one))]
    pub(crate) fn push(&mut self, arg: &Arg) -> Result<(), NoMemory>
        ensures ok { OnOk result (self.new ≡ self.old ++ OfArg arg.now ∷ []) }
        ensures err { OnErr result (self.new ≡ self.old) }
    {
        let packed = pack(&mut self.texts, arg)?;
        self.packed.push(packed)?;
        Ok(())
    }

    /// Appends arguments. If memory runs out, it may have appended some of them.
    pub(crate) fn push_all(&mut self, args: &[Arg]) -> Result<(), NoMemory>
        ensures ok { OnOk result (self.new ≡ self.old ++ map OfArg args.now) }
        ensures kept { Begins self.old self.new }
    {
        for arg in args {
            self.push(arg)?;
        }
        Ok(())
    }

    /// Appends a quoted text, or changes nothing.
    #[tactic(auto, using(crate::proofs::KeptTerms::terms_and_one, crate::proofs::KeptTerms::there_and_one))]
    pub(crate) fn push_text(&mut self, text: &[u8]) -> Result<(), NoMemory>
        ensures ok { OnOk result (self.new ≡ self.old ++ OfText text.now ∷ []) }
        ensures err { OnErr result (self.new ≡ self.old) }
    {
        let packed = pack_text(&mut self.texts, text)?;
        self.packed.push(packed)?;
        Ok(())
    }

    /// Whether both have the same small form: then they are the same.
    pub(crate) fn same_form(&self, other: &Terms) -> bool
        ensures { IsTrue result → self.now ≡ other.now }
    {
        same_items(self.packed.as_slice(), other.packed.as_slice())
            && self.texts.same_form(&other.texts)
    }

    /// The same terms again.
    pub(crate) fn duplicate(&self) -> Result<Terms, NoMemory>
        ensures { IfOk result (λ copy. copy ≡ self.now) }
    {
        Ok(Terms {
            packed: self.packed.clone()?,
            texts: self.texts.duplicate()?,
        })
    }
}
