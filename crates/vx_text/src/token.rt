//! Tokens, and the faults of a line.

use std::alloc::{AllocError, AllocFailed};
use thiserror::Error;
use vx_base::{Bytes, Cond, Name, NoMemory};

/// A token of a line.
#[derive(Drop)]
pub enum Tok {
    /// A letter with letters, digits and `_` behind it, in capitals.
    Word(Name),
    /// The name of a service, in capitals and without its `$`.
    Service(Name),
    /// A condition, which is `SS$_` and its name.
    Cond(Cond),
    /// A number, in decimal or hexadecimal.
    Num(u32),
    /// A quoted text.
    Quote(Bytes),
    /// One of `,` `=` `+` `-` `:`.
    Sign(u8),
}

/// A token and where it stands in its line: from its first byte to the one behind its last, counted from 0.
#[derive(Drop)]
pub struct Token {
    pub tok: Tok,
    pub start: u32,
    pub end: u32,
}

/// Why a line has no tokens.
#[derive(Debug, Drop, Error)]
pub enum LexFail {
    /// A byte begins no token, and is no space, tab or comment.
    #[error("a byte begins no token")]
    Byte,
    /// A quoted text is not closed, or a byte may not stand in it.
    #[error("a quoted text is not closed, or a byte may not stand in it")]
    Quote,
    /// Digits are no number, or one above 4294967295; or `%` begins no number.
    #[error("digits are no number of at most 4294967295")]
    Number,
    /// A word is neither a name nor a condition, or a `$` begins no service's name.
    #[error("a word is no name")]
    Name,
    /// No memory was found.
    #[error("no memory was found")]
    NoMemory,
}

impl<T: Drop> From<AllocFailed<T>> for LexFail {
    ghost use Rattle.std.specs.Prelude.{◌≡◌};
    ghost use Rattle.vx_text.specs.declared.token.LexFail.{LexFail};

    ghost from_gives = { λ _ e. e ≡ LexFail.NoMemory };

    fn from(_: AllocFailed<T>) -> Self {
        LexFail::NoMemory
    }
}

impl From<AllocError> for LexFail {
    ghost use Rattle.std.specs.Prelude.{◌≡◌};
    ghost use Rattle.vx_text.specs.declared.token.LexFail.{LexFail};

    ghost from_gives = { λ _ e. e ≡ LexFail.NoMemory };

    fn from(_: AllocError) -> Self {
        LexFail::NoMemory
    }
}

impl From<NoMemory> for LexFail {
    ghost use Rattle.std.specs.Prelude.{◌≡◌};
    ghost use Rattle.vx_text.specs.declared.token.LexFail.{LexFail};

    ghost from_gives = { λ _ e. e ≡ LexFail.NoMemory };

    fn from(_: NoMemory) -> Self {
        LexFail::NoMemory
    }
}
