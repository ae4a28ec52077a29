//! A cluster that a process has.

use vx_base::Name;

/// A common cluster that a process has associated, by its group and name.
#[derive(Clone, Copy)]
pub struct Joined {
    pub group: u32,
    pub name: Name,
}
