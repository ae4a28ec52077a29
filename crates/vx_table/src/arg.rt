//! An argument of a kind, from its token.

ghost use Rattle.std.specs.Prelude.{◌≡◌};
ghost use Rattle.vx_table.specs.Reading as spec;

use vx_base::{Arg, Func, Kind, Mode, Name, Operand, Target};
use vx_text::Tok;

// The variable of a letter.
fn letter(b: u8) -> Option<u8>
    ensures { result ≡ spec.letter b }
{
    if 65 <= b && b <= 90 { Some(b) } else { None }
}

fn long_operand(word: &[u8]) -> Option<Operand>
    ensures { result ≡ spec.long_operand word.now }
{
    match word {
        b"R0" => Some(Operand::R0),
        b"PID" => Some(Operand::Pid),
        b"PRM" => Some(Operand::Prm),
        _ => None,
    }
}

fn operand_word(word: &[u8]) -> Option<Operand>
    ensures { result ≡ spec.operand_word word.now }
{
    if word.len() == 1 {
        letter(word[0]).map(Operand::Var)
    } else {
        long_operand(word)
    }
}

/// The target that a word is: a variable of one letter, or R0.
pub fn target_word(word: &[u8]) -> Option<Target>
    ensures { result ≡ spec.target_word word.now }
{
    match word {
        [b] => letter(*b).map(Target::Var),
        b"R0" => Some(Target::R0),
        _ => None,
    }
}

/// The access mode that a word names.
pub fn mode_word(word: &[u8]) -> Option<Mode>
    ensures { result ≡ spec.mode_word word.now }
{
    if word == b"KERNEL".as_slice() {
        Some(Mode::Kernel)
    } else if word == b"EXEC".as_slice() {
        Some(Mode::Exec)
    } else if word == b"SUPER".as_slice() {
        Some(Mode::Super)
    } else if word == b"USER".as_slice() {
        Some(Mode::User)
    } else {
        None
    }
}

fn func_word(word: &[u8]) -> Option<Func>
    ensures { result ≡ spec.func_word word.now }
{
    if word == b"READ".as_slice() {
        Some(Func::Read)
    } else if word == b"READNOW".as_slice() {
        Some(Func::ReadNow)
    } else if word == b"WRITE".as_slice() {
        Some(Func::Write)
    } else if word == b"WRITENOW".as_slice() {
        Some(Func::WriteNow)
    } else if word == b"EOF".as_slice() {
        Some(Func::Eof)
    } else if word == b"EOFNOW".as_slice() {
        Some(Func::EofNow)
    } else if word == b"READATTN".as_slice() {
        Some(Func::ReadAttn)
    } else if word == b"WRTATTN".as_slice() {
        Some(Func::WrtAttn)
    } else {
        None
    }
}

/// The value that a token is: a number, a condition, a variable of one letter, R0, PID or PRM.
pub fn operand_of(tok: &Tok) -> Option<Operand>
    ensures { result ≡ spec.operand_of tok.now }
{
    match tok {
        Tok::Num(n) => Some(Operand::Num(*n)),
        Tok::Cond(cond) => Some(Operand::Cond(*cond)),
        Tok::Word(word) => operand_word(word.text()),
        _ => None,
    }
}

fn word_arg(kind: Kind, word: Name) -> Option<Arg>
    ensures { result ≡ spec.word_arg kind word }
{
    match kind {
        Kind::Value => operand_word(word.text()).map(Arg::Value),
        Kind::Target => target_word(word.text()).map(Arg::Target),
        Kind::Mode => mode_word(word.text()).map(Arg::Mode),
        Kind::Name => Some(Arg::Name(word)),
        Kind::Label | Kind::LabelOrNone => Some(Arg::Label(Some(word))),
        Kind::Func => func_word(word.text()).map(Arg::Func),
    }
}

/// The argument of a kind that a token is, and None if it is none of its kind.
pub fn token_arg(kind: Kind, tok: &Tok) -> Option<Arg>
    ensures { result ≡ spec.token_arg kind tok.now }
{
    match tok {
        Tok::Word(word) => word_arg(kind, *word),
        Tok::Num(n) if kind == Kind::Value => Some(Arg::Value(Operand::Num(*n))),
        Tok::Cond(cond) if kind == Kind::Value => Some(Arg::Value(Operand::Cond(*cond))),
        Tok::Sign(b'-') if kind == Kind::LabelOrNone => Some(Arg::Label(None)),
        _ => None,
    }
}
