//! Things in the order of a text, found by their names.
//!
//! A `Register` keeps what has a name (`Named`), a `NumberedRegister` what has a number beside it (`Numbered`). Contracts
//! see the list of what was pushed. A name is looked up in time that does not grow with the list, and of several things of
//! one name the first is found. Units, images and labels have their names here.
#![tactic(auto)]

mod named;
mod numbered;
mod register;
mod system;

pub use named::{Named, Numbered};
pub use numbered::NumberedRegister;
pub use register::Register;
