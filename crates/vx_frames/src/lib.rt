//! The frames of a process: what it runs, one in another, from its image to the routine that it is in now.
//!
//! A routine in an inner mode, of an AST or of an exit handler is a frame on the one that it was entered from. Frames
//! never go outward from the bottom to the top, so the first AST from the top is the innermost that is active.
#![tactic(auto)]

mod frames;
mod snapshot;

pub use frames::Frames;
pub use snapshot::FramesSnapshot;
