//! Thirty-two event flags: a process's cluster 0 or 1, or a common cluster.
//!
//! Contracts see the flags as one number, flag n as its bit n, in the words of `vx_base`'s `specs/Flags.antt`; that it is
//! thirty-two flags, each by itself, is said by `set` and `clear`.
#![tactic(auto)]

mod flags;

pub use flags::Flags;
