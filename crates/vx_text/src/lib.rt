//! The tokens of a line, and canonical spellings of numbers and quoted texts.
//!
//! `tokens` reads a line of a script by its lexical rules: words, services, conditions, numbers, quoted texts and
//! signs, each with its place in the line; or it answers the leftmost fault. The definition that it meets says what stands
//! first in a list of bytes (`specs/First.antt`), and goes over the line by that (`specs/Lex.antt`).
//!
//! `print_num` and `print_quote` append the one canonical spelling of a number and of a text (`specs/Quote.antt`), and
//! `read_quote` reads that spelling and no other.
#![tactic(auto)]

mod bytes;
mod first;
mod quote;
mod quoted;
mod reading;
mod token;

pub use quote::{print_num, print_quote, read_quote};
pub use reading::tokens;
pub use token::{LexFail, Tok, Token};
