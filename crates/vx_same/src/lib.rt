//! Lists, and values that may be missing, that can be told apart and copied.
//!
//! `Same` and `Duplicate` of `vx_base` say what an equality and a copy are. Here they are lifted from items to what holds them:
//! `list.rt`, `option.rt`, and `reserved.rt` for a list with room. `digest.rt` folds numbers into one, by which states are looked up.
#![tactic(auto)]

mod digest;
mod list;
mod option;
mod reserved;

pub use digest::mix;
pub use list::{duplicate_items, same_items};
pub use option::same_options;
pub use reserved::{ReservedSnapshot, duplicate_reserved};
