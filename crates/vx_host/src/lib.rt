//! Bytes in and bytes out.
//!
//! A `Source` gives bytes and a `Sink` takes them. Each tells contracts what is left or held, if it can, and counts
//! its faults: a count never falls, and a call answers `Failed` only if the count rose in it, or stands at its last
//! value. For the layer above, `read_all` gives all bytes of a source up to a limit, or says why not, and `write_all`
//! writes all of a piece, or the start of it and a fault. `MemSource` and `MemSink` stand in memory and fail at stated
//! calls, and their contracts say exactly what each call does. `StdSource` and `StdSink` stand over the readers and
//! writers of std, and `words_of` gives a program's words.
#![tactic(auto)]

mod memory;
mod sink;
mod source;
mod standard;
mod words;

pub use memory::{MemSink, MemSource};
pub use sink::{Sink, write_all};
pub use source::{Failed, ReadFail, Source, read_all};
pub use standard::{StdSink, StdSource};
pub use words::words_of;
