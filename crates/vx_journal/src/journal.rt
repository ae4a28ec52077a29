//! What a transcript is read as.

ghost use Rattle.std.specs.Prelude.{◌≡◌};
ghost use Rattle.vx_journal.specs.ReadJournal.{failure_of};
ghost use Rattle.vx_journal.specs.declared.journal.JournalFail.TheVariants as fail;

use vx_base::{Bytes, NoMemory, Recs};
use vx_image::System;
use vx_script::{ScriptFail, ScriptFault};

/// How far a transcript goes.
#[derive(Clone, Copy)]
pub enum Part {
    /// It stops behind a record, or behind the line `$JOURNAL 1`.
    Cut,
    /// It has a trailer.
    Ended,
}

/// A transcript that was read: the system of its script, its records, and its trailer as it stands in the text.
#[derive(Drop)]
pub struct Journal {
    pub system: System,
    pub recs: Recs,
    pub part: Part,
    /// The lines of the trailer with their line feeds; empty if the transcript is cut.
    pub trailer: Bytes,
}

/// Where the header of a transcript ends.
#[derive(Clone, Copy)]
pub struct HeaderEnd {
    /// The number of the line behind it.
    pub line: u32,
    /// How many bytes stand before that line.
    pub len: usize,
}

/// What stands before the records of a transcript: the system of its script, and where the header ends.
#[derive(Drop)]
pub struct Front {
    pub system: System,
    pub end: HeaderEnd,
}

/// Why a text is not read as a transcript.
#[derive(Clone, Copy, Debug, PartialEq, Eq)]
pub enum JournalFail {
    /// What stands before `$JOURNAL` is no script, and this is its first fault.
    Script(ScriptFault),
    /// The number, from 1, of the first line that may not stand there; if a line is missing at the end, one more than the number of lines.
    Form(u32),
    /// No memory was found.
    NoMemory,
}

impl From<NoMemory> for JournalFail {
    ghost from_gives = { λ _ e. e ≡ fail.NoMemory };

    fn from(_: NoMemory) -> Self {
        JournalFail::NoMemory
    }
}

impl From<ScriptFail> for JournalFail {
    ghost from_gives = { λ failure e. e ≡ failure_of failure };

    fn from(failure: ScriptFail) -> Self {
        match failure {
            ScriptFail::Fault(fault) => JournalFail::Script(fault),
            ScriptFail::NoMemory => JournalFail::NoMemory,
        }
    }
}
