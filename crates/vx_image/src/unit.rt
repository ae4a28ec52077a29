//! Device units, as a script declares them.

use vx_base::{Bytes, Name, Sequence};

/// Lines of input, of at most 2,048 bytes each.
pub type Lines = Sequence<Bytes>;

/// Numbers, rising.
pub type Numbers = Sequence<u32>;

/// A unit: its name; its number of blocks of 512 bytes, 0 for a line unit; the lines that a line unit reads; and the numbers,
/// from 1, of its services that fail.
#[derive(Drop)]
pub struct UnitDecl {
    pub name: Name,
    pub blocks: u32,
    pub inputs: Lines,
    pub faults: Numbers,
}

/// Unit declarations in order.
pub type UnitDecls = Sequence<UnitDecl>;
