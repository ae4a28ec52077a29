//! Transcripts: the canonical script, the records and the trailer (`specs/Transcript.antt`).
//!
//! `read_journal` reads a transcript back, whole or cut (`specs/ReadJournal.antt`). A line is taken only if what it was read as is
//! spelled so. Who keeps no list of the records reads what stands before them by `read_front`, the records by `vx_lines`, and the
//! rest by `read_trailer`. The lines of a trailer are printed here; `vx_trailer` prints the trailer of an executive, and `vx_lines` the
//! records.
#![tactic(auto)]

mod journal;
mod print;
mod read;
mod trailer;

pub use journal::{Front, HeaderEnd, Journal, JournalFail, Part};
pub use print::{end_word, print_end, print_output, print_standing};
pub use read::{read_front, read_journal};
pub use trailer::read_trailer;
