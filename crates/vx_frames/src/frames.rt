//! Frames as a stack, which contracts see with the top first.

ghost use Rattle.std.specs.Prelude.{◌≡◌, ◌<◌, ◌≤◌, ◌∷◌, [], length, IfOk, IsTrue, OnOk, OnErr, IfSome, option_map, reverse};
ghost use Rattle.std.specs.List.{find};
ghost use Rattle.vx_base.specs.Frames.{active_mode, is_ast};
ghost use Rattle.vx_base.specs.Lists.{rest, first};
ghost use Rattle.vx_frames.specs.Frames.{gone_on, may_stand_on, goes_inward};
ghost use Rattle.vx_frames.specs.Frames.{is_inmost};

use crate::snapshot::FramesSnapshot;
use std::alloc::Global;
use std::marker::Model;
use vx_base::{Frame, FrameKind, Mode, NoMemory, Reserved, Wait};

/// The frames of a process. Contracts see them with the top first, and how many there is room for in all.
#[derive(Drop)]
pub struct Frames {
    items: Reserved<Frame>,
}

impl Model for Frames {
    ghost use Rattle.std.specs.Prelude.{reverse, IsTrue};
    ghost use Rattle.vx_frames.specs.Frames.{Stack, goes_inward};

    ghost Value = { Stack };

    ghost view = { λ a. record { items = reverse a.items.items; capacity = a.items.capacity } };

    ghost invariant = { λ a. IsTrue (goes_inward (reverse a.items.items)) };
}

impl Frames {
    /// No frames, and room for none. Takes no memory.
    pub fn new(alloc: Global) -> Frames
        ensures { result ≡ record { items = []; capacity = 0 } }
    {
        Frames {
            items: Reserved::new(alloc),
        }
    }

    /// Makes room for one frame more, or changes nothing.
    pub fn reserve(&mut self) -> Result<(), NoMemory>
        ensures items { self.new.items ≡ self.old.items }
        ensures kept { self.old.capacity ≤ self.new.capacity }
        ensures ok { OnOk result (length self.new.items < self.new.capacity) }
        ensures err { OnErr result (self.new ≡ self.old) }
    {
        self.items.reserve(1)
    }

    /// Puts a frame on the top; it is not further out than the frame there. Takes no memory.
    pub fn push(&mut self, frame: Frame)
        requires room { length self.old.items < self.old.capacity }
        requires inward { IsTrue (may_stand_on frame self.old.items) }
        ensures { self.new ≡ record self.old { items = frame ∷ self.old.items } }
    {
        self.items.put(frame);
    }

    /// The top frame, if there is one.
    pub fn top(&self) -> Option<&Frame>
        ensures { option_map (λ frame. frame.now) result ≡ first self.now.items }
    {
        self.items.as_slice().last()
    }

    /// Puts into the top frame at which statement it goes on, and what it waits for; all else stays.
    pub fn go(&mut self, pc: u32, wait: Option<Wait>)
        requires { 0 < length self.old.items }
        ensures { self.new ≡ record self.old { items = gone_on pc wait self.old.items } }
    {
        let Some(frame) = self.items.pop() else {
            unreachable!()
        };
        self.items.put(Frame { pc, wait, ..frame });
    }

    /// Takes the top frame off, if there is one.
    pub fn pop(&mut self) -> Option<Frame>
        ensures top { result ≡ first self.old.items }
        ensures after { self.new ≡ record self.old { items = rest self.old.items } }
    {
        self.items.pop()
    }

    /// The mode of the innermost active AST: None if no frame is an AST's.
    #[tactic(auto, using(crate::proofs::Active::active_find, crate::proofs::Active::inmost_active))]
    pub fn active_ast_mode(&self) -> Option<Mode>
        ensures mode { result ≡ active_mode self.now.items }
        ensures inmost { IfSome result (λ mode. IsTrue (is_inmost mode self.now.items)) }
    {
        let frame = active_frame(self.items.as_slice())?;
        Some(frame.mode)
    }

    /// The same frames put away.
    pub fn snapshot(&self, alloc: Global) -> Result<FramesSnapshot, NoMemory>
        ensures { IfOk result (λ snapshot. snapshot ≡ self.now) }
    {
        FramesSnapshot::new(alloc, &self.items)
    }

    /// These frames, the top last.
    pub(crate) fn from_items(items: Reserved<Frame>) -> Frames
        requires { IsTrue (goes_inward (reverse items.items)) }
        ensures { result ≡ record { items = reverse items.items; capacity = items.capacity } }
    {
        Frames { items }
    }

    /// Its frames, the top last.
    pub(crate) fn as_slice(&self) -> &[Frame]
        ensures { reverse result.now ≡ self.now.items }
    {
        self.items.as_slice()
    }

    /// Its frames, the top last, with their room.
    pub(crate) fn into_items(self) -> Reserved<Frame>
        ensures { reverse result.items ≡ self.items }
    {
        self.items
    }

    /// How many frames there are.
    pub fn len(&self) -> usize
        ensures length { result ≡ length self.now.items }
        ensures inward { IsTrue (goes_inward self.now.items) }
    {
        self.items.len()
    }
}

/// The last frame that is an AST's.
fn active_frame(frames: &[Frame]) -> Option<&Frame>
    ensures { option_map (λ frame. frame.now) result ≡ find (λ frame. is_ast frame.kind) (reverse frames.now) }
{
    frames.iter().rev().find(|frame| is_ast(frame.kind))
}

fn is_ast(kind: FrameKind) -> bool
    ensures { result ≡ is_ast kind }
{
    matches!(kind, FrameKind::Ast(_))
}
