//! Faults of a script.

ghost use Rattle.std.specs.Prelude.{◌≡◌};
ghost use Rattle.vx_script.specs.declared.fault.LineFail.TheVariants as line_fail;
ghost use Rattle.vx_script.specs.declared.fault.ScriptFail.TheVariants as script_fail;

use std::alloc::{AllocError, AllocFailed};
use vx_base::NoMemory;

/// What is wrong with a line. The first four are faults of its tokens.
#[derive(Clone, Copy, Debug, PartialEq, Eq)]
pub enum FaultKind {
    /// A byte begins no token.
    Byte,
    /// A quoted text is not closed, or a byte may not stand in it; or something else stands where a text must stand.
    Quote,
    /// Digits are no number; or something else stands where a number must stand.
    Number,
    /// A word is no name; or something else stands where a name, a value or a variable must stand.
    Name,
    /// The line begins with no word or service that may stand there, or a fixed word or sign is not there.
    Word,
    /// No service has the name.
    Service,
    /// An argument of a call is not of its kind, is missing, or is one too many.
    Argument,
    /// A number or a length is out of its range.
    Range,
    /// A name of its kind, a label, a key, a privilege or a fault number stands again.
    Twice,
    /// The line names what is not in the script.
    Unknown,
    /// Tokens are left.
    Extra,
    /// The line ends too early.
    Missing,
    /// The text ends within an image. The line is the one behind the last.
    End,
    /// There are more units, images, PROCESS lines or statements than a script may have.
    Size,
}

/// The first fault, and the number of its line, from 1.
#[derive(Clone, Copy, Debug, PartialEq, Eq)]
pub struct ScriptFault {
    pub line: u32,
    pub kind: FaultKind,
}

/// Why a text is not read as a script.
#[derive(Clone, Copy, Debug, PartialEq, Eq)]
pub enum ScriptFail {
    /// It is no script, and this is its first fault.
    Fault(ScriptFault),
    /// No memory was found.
    NoMemory,
}

impl From<NoMemory> for ScriptFail {
    ghost from_gives = { λ _ e. e ≡ script_fail.NoMemory };

    fn from(_: NoMemory) -> Self {
        ScriptFail::NoMemory
    }
}

/// Why a line is not read.
#[derive(Clone, Copy)]
pub enum LineFail {
    /// It has a fault of this kind.
    Fault(FaultKind),
    /// No memory was found.
    NoMemory,
}

impl From<FaultKind> for LineFail {
    ghost from_gives = { λ kind e. e ≡ line_fail.Fault kind };

    fn from(kind: FaultKind) -> Self {
        LineFail::Fault(kind)
    }
}

impl From<NoMemory> for LineFail {
    ghost from_gives = { λ _ e. e ≡ line_fail.NoMemory };

    fn from(_: NoMemory) -> Self {
        LineFail::NoMemory
    }
}

impl<T: Drop> From<AllocFailed<T>> for LineFail {
    ghost from_gives = { λ _ e. e ≡ line_fail.NoMemory };

    fn from(_: AllocFailed<T>) -> Self {
        LineFail::NoMemory
    }
}

impl From<AllocError> for LineFail {
    ghost from_gives = { λ _ e. e ≡ line_fail.NoMemory };

    fn from(_: AllocError) -> Self {
        LineFail::NoMemory
    }
}
