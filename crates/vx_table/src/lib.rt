//! The service table: what arguments each system service takes, and calls read and printed by it.
//!
//! The services are those of the "OpenVMS System Services Reference Manual". A row of the table has a service and its
//! arguments in order: the kind of each, and what stands in its place, if it may be left out. `service_table`
//! gives the table, `read_call` reads a call from the tokens of a line, and `print_call` writes one canonically, so
//! that it reads back as the same call (`specs/Spelling.antt`, `specs/Reading.antt`). `append_call` writes any call, and
//! `mode_name`, `print_operand` and `print_target` spell its parts.
#![tactic(auto)]

mod arg;
mod fail;
mod print;
mod read;
mod slot;
mod table;

pub use arg::{mode_word, operand_of, target_word};
pub use fail::CallFail;
pub use print::{append_call, args_list, mode_name, print_operand, print_target};
pub use table::{ServiceTable, service_table};
