//! The bars of frames.

ghost use Rattle.std.specs.Prelude.{◌≡◌, ◌<◌, ◌^◌, ◌++◌, ◌∷◌, [], length, OnOk};
ghost use Rattle.vx_base.specs.Lists.{first, rest};
ghost use Rattle.vx_draw.specs.Frames as spec;

use crate::places::{column_x, process_x};
use crate::shapes::print_bar;
use std::alloc::Global;
use std::collections::VecDeque;
use std::marker::Model;
use vx_base::{Bytes, Mode, NoMemory, Pid};

/// A frame from a height on: its mode, and whether it waits.
#[derive(Clone, Copy)]
pub struct Bar {
    pub mode: Mode,
    pub since: u128,
    pub waits: bool,
}

/// What becomes of a process's frames at a height.
#[derive(Clone, Copy)]
pub enum Move {
    /// Nothing.
    Stay,
    /// The top frame begins to wait, or goes on.
    Turn { at: u128, waits: bool },
    /// The top frame ends.
    Leave(u128),
    /// All frames end.
    LeaveAll(u128),
    /// A frame is entered.
    Enter(Bar),
    /// A routine is entered in a mode, or in that of the top frame if it is further in.
    Inward(Mode, u128),
}

/// The frames of a process. Contracts see them with the top first.
#[derive(Drop)]
pub struct Stack {
    items: VecDeque<Bar>,
}

impl Model for Stack {
    ghost use Rattle.std.specs.Prelude.{List};
    ghost use Rattle.vx_draw.specs.declared.frames.Bar.{Bar};

    ghost Value = { List Bar };

    ghost view = { λ s. s.items.items };
}

fn mode_class(mode: Mode) -> &'static [u8]
    ensures { result.now ≡ spec.mode_class mode }
{
    match mode {
        Mode::Kernel => b"kernel",
        Mode::Exec => b"exec",
        Mode::Super => b"super",
        Mode::User => b"user",
    }
}

fn bar_class(bar: Bar) -> &'static [u8]
    ensures { result.now ≡ spec.bar_class bar }
{
    if bar.waits {
        b"wait"
    } else {
        mode_class(bar.mode)
    }
}

fn lane(x: u128, below: usize) -> u128
    requires { x < 2 ^ 100 }
    ensures { result ≡ spec.lane x below }
{
    let shift = if below < 4 { 10 * below as u128 } else { 40 };
    x + shift
}

fn further_in(mode: Mode, other: Mode) -> Mode
    ensures { result ≡ spec.further_in mode other }
{
    match mode {
        Mode::Kernel => Mode::Kernel,
        _ => other,
    }
}

// Appends the bar of a frame on so many others.
#[tactic(auto, unfolding(crate::specs::Frames::bar_on))]
fn print_bar_on(
    x: u128,
    below: usize,
    bar: Bar,
    until: u128,
    out: &mut Bytes,
) -> Result<(), NoMemory>
    requires { x < 2 ^ 100 }
    ensures { OnOk result (out.new ≡ out.old ++ spec.bar_on x below bar until) }
{
    print_bar(bar_class(bar), lane(x, below), bar.since, until, out)
}

impl Stack {
    fn new(alloc: Global) -> Stack
        ensures { result ≡ [] }
    {
        Stack {
            items: VecDeque::new(alloc),
        }
    }

    fn push(&mut self, bar: Bar) -> Result<(), NoMemory>
        ensures { OnOk result (self.new ≡ bar ∷ self.old) }
    {
        self.items.push_front(bar)?;
        Ok(())
    }

    fn pop(&mut self) -> Option<Bar>
        ensures top { result ≡ first self.old }
        ensures below { self.new ≡ rest self.old }
    {
        self.items.pop_front()
    }

    // The top frame begins to wait, or goes on.
    fn turn(&mut self, x: u128, at: u128, waits: bool, out: &mut Bytes) -> Result<(), NoMemory>
        requires { x < 2 ^ 100 }
        ensures text { OnOk result (out.new ≡ out.old ++ spec.top_bar x at self.old) }
        ensures frames { OnOk result (self.new ≡ spec.turned at waits self.old) }
    {
        let Some(bar) = self.pop() else {
            return Ok(());
        };
        print_bar_on(x, self.items.len(), bar, at, out)?;
        self.push(Bar {
            mode: bar.mode,
            since: at,
            waits,
        })
    }

    // The top frame ends.
    fn leave(&mut self, x: u128, at: u128, out: &mut Bytes) -> Result<(), NoMemory>
        requires { x < 2 ^ 100 }
        ensures text { OnOk result (out.new ≡ out.old ++ spec.top_bar x at self.old) }
        ensures frames { OnOk result (self.new ≡ rest self.old) }
    {
        match self.pop() {
            Some(bar) => print_bar_on(x, self.items.len(), bar, at, out),
            None => Ok(()),
        }
    }

    // All frames end.
    fn leave_all(&mut self, x: u128, at: u128, out: &mut Bytes) -> Result<(), NoMemory>
        requires { x < 2 ^ 100 }
        ensures text { OnOk result (out.new ≡ out.old ++ spec.bars x at self.old) }
        ensures frames { OnOk result (self.new ≡ []) }
    {
        while let Some(bar) = self.pop() {
            print_bar_on(x, self.items.len(), bar, at, out)?;
        }
        Ok(())
    }

    // A routine is entered in a mode, or in that of the top frame if it is further in.
    fn go_inward(&mut self, mode: Mode, at: u128) -> Result<(), NoMemory>
        ensures { OnOk result (self.new ≡ spec.inward mode at self.old) }
    {
        let Some(bar) = self.pop() else {
            return Ok(());
        };
        self.push(bar)?;
        self.push(Bar {
            mode: further_in(bar.mode, mode),
            since: at,
            waits: false,
        })
    }

    // Makes a move.
    fn make(&mut self, x: u128, step: Move, out: &mut Bytes) -> Result<(), NoMemory>
        requires { x < 2 ^ 100 }
        ensures text { OnOk result (out.new ≡ out.old ++ spec.move_text x step self.old) }
        ensures frames { OnOk result (self.new ≡ spec.moved step self.old) }
    {
        match step {
            Move::Stay => Ok(()),
            Move::Turn { at, waits } => self.turn(x, at, waits, out),
            Move::Leave(at) => self.leave(x, at, out),
            Move::LeaveAll(at) => self.leave_all(x, at, out),
            Move::Enter(bar) => self.push(bar),
            Move::Inward(mode, at) => self.go_inward(mode, at),
        }
    }
}

/// The frames of all processes, by their numbers from 1. Contracts see the list of their frames.
#[derive(Drop)]
pub struct Stacks {
    items: Vec<Stack>,
}

impl Model for Stacks {
    ghost use Rattle.std.specs.Prelude.{List};
    ghost use Rattle.vx_draw.specs.declared.frames.Bar.{Bar};

    ghost Value = { List (List Bar) };

    ghost view = { λ s. s.items.items };
}

impl Stacks {
    /// No processes. Takes no memory.
    pub fn new(alloc: Global) -> Stacks
        ensures { result ≡ [] }
    {
        Stacks {
            items: Vec::new(alloc),
        }
    }

    /// One process more, with no frames.
    pub fn add(&mut self, alloc: Global) -> Result<(), NoMemory>
        ensures { OnOk result (self.new ≡ self.old ++ [] ∷ []) }
    {
        self.items.push(Stack::new(alloc))?;
        Ok(())
    }

    /// One process more, with a frame.
    pub fn add_running(&mut self, alloc: Global, bar: Bar) -> Result<(), NoMemory>
        ensures { OnOk result (self.new ≡ self.old ++ (bar ∷ []) ∷ []) }
    {
        let mut stack = Stack::new(alloc);
        stack.push(bar)?;
        self.items.push(stack)?;
        Ok(())
    }

    /// How many processes there are.
    pub fn len(&self) -> usize
        ensures { result ≡ length self.now }
    {
        self.items.len()
    }

    /// Appends what a move of a process draws, and makes the move.
    pub fn make(&mut self, p: Pid, step: Move, out: &mut Bytes) -> Result<(), NoMemory>
        ensures text { OnOk result (out.new ≡ out.old ++ spec.process_move_text p step self.old) }
        ensures frames { OnOk result (self.new ≡ spec.process_moved p step self.old) }
    {
        let i = p.0.saturating_sub(1) as usize;
        if i < self.items.len() {
            self.items[i].make(u128::from(process_x(p)), step, out)
        } else {
            Ok(())
        }
    }
    /// Ends all frames at a height, and appends their bars.
    #[tactic(auto, using(crate::proofs::Behind::drop_behind))]
    pub fn end(&mut self, until: u128, out: &mut Bytes) -> Result<(), NoMemory>
        ensures { OnOk result (out.new ≡ out.old ++ spec.open_bars 1 until self.old) }
    {
        for i in 0..self.items.len() {
            self.items[i].leave_all(column_x(i as u64 + 1), until, out)?;
        }
        Ok(())
    }
}
