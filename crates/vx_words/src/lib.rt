//! What the words behind the program's name ask for.
//!
//! `command_of` reads the words of a command that reads its input, `size_of` those of `gen`, and `crew_of` those of `run`. Words that
//! are none of these are no command's. The definitions that the contracts name stand in `specs/Words.antt`, `Options.antt`,
//! `Places.antt` and `Crew.antt`.
#![tactic(auto)]

mod command;
mod crew;
mod options;
mod picks;
mod places;
mod scope;

pub use command::{Command, Options, Report, command_of, size_of};
pub use crew::{Crew, crew_of};
pub use picks::Picks;
pub use places::Places;
pub use scope::Scope;
