//! Frames, waits and phases of a process.

use crate::mode::Mode;
use crate::number::Id;

/// What a frame runs.
#[derive(Clone, Copy, Debug, PartialEq, Eq)]
pub enum FrameKind {
    /// The image, from its start.
    Main,
    /// A routine in an inner mode ($CMEXEC, $CMKRNL).
    Change,
    /// The routine of an AST.
    Ast(Id),
    /// An exit handler.
    Handler,
}

/// What a frame waits for.
#[derive(Clone, Copy, Debug, PartialEq, Eq)]
pub enum Wait {
    /// Flags of the cluster of an event flag number, by a mask of 32 bits: all of them, or any ($WAITFR, $WFLOR, $WFLAND).
    Flags(u32, u32, bool),
    /// An event flag, and an I/O status block that is filled, none if its number is 0 ($SYNCH, $QIOW).
    Synch(u32, u32),
    /// A wake ($HIBER).
    Hiber,
}

/// A frame: what it runs, in which mode, from which statement on (by its place, from 0), with which parameter, the R0 to be
/// put back after it, and what it waits for, if it does.
#[derive(Clone, Copy, Debug, PartialEq, Eq)]
pub struct Frame {
    pub kind: FrameKind,
    pub mode: Mode,
    pub pc: u32,
    pub prm: u32,
    pub saved_r0: u32,
    pub wait: Option<Wait>,
}

/// How far a process is on its way out.
#[derive(Clone, Copy, Debug, PartialEq, Eq)]
pub enum Phase {
    /// It runs.
    Alive,
    /// It has exited, and its exit handlers of this mode are next.
    Handlers(Mode),
    /// What it opened in this mode and outer ones is cancelled, and is waited for.
    Draining(Mode),
    /// It is gone.
    Deleted,
}
