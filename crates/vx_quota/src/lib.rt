//! The quotas of a process: ASTs, buffered and direct requests, their bytes, and timer requests.
//!
//! What a process asks for is charged whole, in all five accounts, or not at all, and given back when it ends. An amount
//! is never charged past a limit, and sums above 2^32 are the sums that they are.
#![tactic(auto)]

mod account;

pub use account::Account;
