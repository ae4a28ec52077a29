//! Process declarations.

use vx_base::{Mode, Name, Need, Privs, Sequence};

/// A process declaration: its name, the place of its image among the images, from 0, its identification code (group and
/// member), mode, quota limits and privileges, and whether the process is there from the start.
#[derive(Clone, Copy, Debug)]
pub struct ProcDecl {
    pub name: Name,
    pub image: u32,
    pub group: u32,
    pub member: u32,
    pub mode: Mode,
    pub limits: Need,
    pub privs: Privs,
    pub start: bool,
}

/// Process declarations in order.
pub type ProcDecls = Sequence<ProcDecl>;
