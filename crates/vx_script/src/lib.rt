//! Reads scripts, and prints them.
//!
//! `parse_script` reads a text line by line, exactly as `specs/Reading.antt` does. That definition serves proofs alone:
//! `vx_grammar::read_script` is the call for users, and its contract is the grammar.
//! `print_script` writes the canonical script of any system, as `specs/Script.antt` has it line by line.
#![tactic(auto)]

mod declaration;
mod draft;
mod ending;
mod fault;
mod fields;
mod image;
mod keys;
mod lines;
mod named;
mod parts;
mod print;
mod print_image;
mod print_process;
mod print_stmt;
mod print_unit;
mod print_word;
mod privileges;
mod read;
mod resolve;
mod services;
mod statement;
mod units;

pub use fault::{FaultKind, ScriptFail, ScriptFault};
pub use print::print_script;
pub use read::parse_script;
