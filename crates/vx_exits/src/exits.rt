//! Handlers, the newest first.

ghost use Rattle.std.specs.Prelude.{◌≡◌, ◌↔◌, ◌<◌, ◌≤◌, [], length, IsTrue, IsErr, IfErr, IfSome, OnOk, OnErr};
ghost use Rattle.std.specs.Prelude.{IfOk, option_map, position};
ghost use Rattle.std.specs.List.{find};
ghost use Rattle.vx_base.specs.Handlers.{any_handler, is_handler_of, is_handler_with};
ghost use Rattle.vx_base.specs.Lists.{less};
ghost use Rattle.vx_base.specs.Modes.{is_kernel};
ghost use Rattle.vx_exits.specs.Exits.{declared};
ghost use Rattle.vx_exits.specs.Exits.{known, handed, handed_or, or_no_handler};

use crate::declared::Declared;
use crate::snapshot::ExitsSnapshot;
use std::alloc::Global;
use std::marker::Model;
use vx_base::{Entry, Id, Mode, NoMemory, Reserved, Routine};
use vx_same::ReservedSnapshot;

/// Why a call on exit handlers is refused.
#[derive(Clone, Copy, Debug, PartialEq, Eq)]
pub enum ExitFail {
    /// None is declared in kernel mode.
    IvSsRq,
    /// No handler of the mode has the tag.
    NoHandler,
}

/// The exit handlers of a process. Contracts see them with the newest first, and how many there is room for in all.
#[derive(Drop)]
pub struct Exits<R: Routine> {
    pub(crate) items: Reserved<Declared<R>>,
}

impl<R: Routine> Model for Exits<R> {
    ghost use Rattle.vx_exits.specs.Exits.{Stack};

    ghost Value = { Stack };

    ghost view = { λ a. a.items };
}

impl<R: Routine> Exits<R> {
    /// No handlers, and room for none. Takes no memory.
    pub fn new(alloc: Global) -> Exits<R>
        ensures { result ≡ record { items = []; capacity = 0 } }
    {
        Exits {
            items: Reserved::new(alloc),
        }
    }

    /// Makes room for one handler more, or changes nothing.
    pub fn reserve(&mut self) -> Result<(), NoMemory>
        ensures items { self.new.items ≡ self.old.items }
        ensures kept { self.old.capacity ≤ self.new.capacity }
        ensures ok { OnOk result (length self.new.items < self.new.capacity) }
        ensures err { OnErr result (self.new ≡ self.old) }
    {
        self.items.reserve(1)
    }

    /// Declares a handler, as the newest ($DCLEXH). IvSsRq in kernel mode: it hands the routine back, and changes
    /// nothing. Takes no memory.
    pub fn declare(&mut self, id: Id, mode: Mode, routine: R) -> Result<(), (ExitFail, R)>
        requires { length self.old.items < self.old.capacity }
        ensures refused { IsErr result ↔ IsTrue (is_kernel mode) }
        ensures handed_back { IfErr result (λ e. e ≡ (ExitFail.IvSsRq, routine)) }
        ensures after { self.new ≡ declared self.old (record { id = id; mode = mode; tag = R.tagged routine }) }
    {
        if mode == Mode::Kernel {
            return Err((ExitFail::IvSsRq, routine));
        }
        self.items.put_at(0, Declared::new(id, mode, routine));
        Ok(())
    }

    /// Takes out the newest handler of a mode that has a tag ($CANEXH). NoHandler, and nothing changed, if there is
    /// none.
    pub fn cancel(&mut self, mode: Mode, tag: Entry) -> Result<(Id, R), ExitFail>
        ensures answer { handed_or R.tagged result ≡ or_no_handler (option_map known (find (is_handler_with mode tag) self.old.items)) }
        ensures after { self.new ≡ record self.old { items = less (is_handler_with mode tag) self.old.items } }
    {
        let place = place_of_tag(self.items.as_slice(), mode, tag);
        match self.items.take(place) {
            Some(handler) => Ok(handler.parts()),
            None => Err(ExitFail::NoHandler),
        }
    }

    /// Takes out the newest handler of a mode, if there is one.
    pub fn pop(&mut self, mode: Mode) -> Option<(Id, R)>
        ensures handler { option_map (handed R.tagged) result ≡ option_map known (find (is_handler_of mode) self.old.items) }
        ensures after { self.new ≡ record self.old { items = less (is_handler_of mode) self.old.items } }
    {
        let place = place_of_mode(self.items.as_slice(), mode);
        let handler = self.items.take(place)?;
        Some(handler.parts())
    }

    /// Takes out the newest handler, if there is one.
    pub fn pop_any(&mut self) -> Option<(Id, R)>
        ensures handler { option_map (handed R.tagged) result ≡ option_map known (find any_handler self.old.items) }
        ensures after { self.new ≡ record self.old { items = less any_handler self.old.items } }
    {
        let handler = self.items.take_first()?;
        Some(handler.parts())
    }

    /// The same handlers put away. Each routine is made from its tag.
    pub fn snapshot(&self, alloc: Global) -> Result<ExitsSnapshot<R>, NoMemory>
        ensures { IfOk result (λ snapshot. snapshot ≡ self.now) }
    {
        Ok(ExitsSnapshot {
            items: ReservedSnapshot::new(alloc, &self.items)?,
        })
    }

    /// How many handlers there are.
    pub fn len(&self) -> usize
        ensures { result ≡ length self.now.items }
    {
        self.items.len()
    }
}

/// Where the first handler of a mode is.
fn place_of_mode<R: Routine>(items: &[Declared<R>], mode: Mode) -> Option<usize>
    ensures place { result ≡ position (is_handler_of mode) items.now }
    ensures within { IfSome result (λ i. i < length items.now) }
{
    items.iter().position(|handler| handler.is_of_mode(mode))
}

/// Where the first handler of a mode is that has a tag.
fn place_of_tag<R: Routine>(items: &[Declared<R>], mode: Mode, tag: Entry) -> Option<usize>
    ensures place { result ≡ position (is_handler_with mode tag) items.now }
    ensures within { IfSome result (λ i. i < length items.now) }
{
    items
        .iter()
        .position(|handler| handler.is_tagged(mode, tag))
}
