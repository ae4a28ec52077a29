//! The flags of a common cluster.

use crate::word::Word;
use vx_base::Name;

/// The flags of a common cluster, by its group and name.
#[derive(Clone, Copy)]
pub struct CommonWord {
    pub group: u32,
    pub name: Name,
    pub word: Word,
}
