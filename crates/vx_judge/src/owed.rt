//! What a completion owes.

use vx_base::Pid;

/// What the completion of a request owes to the call that opened it: to the caller's status block, 0 for none, and to the flag
/// of a number.
#[derive(Clone, Copy)]
pub struct Owed {
    pub p: Pid,
    pub efn: u32,
    pub iosb: u32,
}
