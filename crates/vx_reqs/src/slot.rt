//! One place in the order of acceptance.

use vx_base::Id;

/// The id of the request that was accepted there, and its key in the slab until it is finished.
#[derive(Clone, Copy, Debug)]
pub(crate) struct Slot {
    pub(crate) id: Id,
    pub(crate) key: Option<usize>,
}
