//! Changes of the frames of one process.

ghost use Rattle.std.specs.Prelude.{◌≡◌, [], length};
ghost use Rattle.vx_base.specs.Lists.{rest};
ghost use Rattle.vx_base.specs.Log.{HasRoom, logged};
ghost use Rattle.vx_record.specs.State.{with_top};
ghost use Rattle.vx_procs.specs.Words.{left, left_kind, left_top};

use vx_base::{Effect, Effects, FrameKind, Wait};
use vx_frames::Frames;

/// The top frame, if there is one, waits for something, or for nothing.
pub(crate) fn wait_at_top(frames: &mut Frames, wait: Option<Wait>)
    ensures { frames.new ≡ record frames.old { items = with_top (λ f. record f { wait = wait }) frames.old.items } }
{
    let Some(frame) = frames.top() else {
        return;
    };
    let pc = frame.pc;
    frames.go(pc, wait);
}

/// The top frame, if there is one, stands at a place.
pub(crate) fn place_top(frames: &mut Frames, place: u32)
    ensures { frames.new ≡ record frames.old { items = with_top (λ f. record f { pc = place }) frames.old.items } }
{
    let Some(frame) = frames.top() else {
        return;
    };
    let wait = frame.wait;
    frames.go(place, wait);
}

// A frame of a kind is left.
fn log_left(kind: FrameKind, log: &mut Effects)
    requires { HasRoom log.old (length (left_kind kind)) }
    ensures { log.new ≡ logged log.old (left_kind kind) }
{
    match kind {
        FrameKind::Ast(id) => log.add(Effect::Leave(id)),
        _ => (),
    }
}

// Takes the top frame off, if there is one.
#[tactic(auto, using(crate::proofs::Stack::none_left, crate::proofs::Stack::top_left, crate::proofs::Stack::no_top_left))]
fn leave_top(frames: &mut Frames, log: &mut Effects)
    requires { HasRoom log.old (length (left_top frames.old.items)) }
    ensures frames { frames.new ≡ record frames.old { items = rest frames.old.items } }
    ensures log { log.new ≡ logged log.old (left_top frames.old.items) }
{
    match frames.pop() {
        Some(frame) => log_left(frame.kind, log),
        None => (),
    }
}

/// Takes all frames off, the top first, and logs for each AST that it is no longer active.
#[tactic(auto, using(crate::proofs::Stack::below_drop, crate::proofs::Stack::left_room, crate::proofs::Stack::room_below, crate::proofs::Stack::log_below, crate::proofs::Stack::none_left))]
pub(crate) fn leave_all(frames: &mut Frames, log: &mut Effects)
    requires { HasRoom log.old (length (left frames.old.items)) }
    ensures frames { frames.new ≡ record frames.old { items = [] } }
    ensures log { log.new ≡ logged log.old (left frames.old.items) }
{
    for _ in 0..frames.len() {
        leave_top(frames, log);
    }
}
