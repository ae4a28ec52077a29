//! The keys of a PROCESS line.

ghost use Rattle.std.specs.Prelude.{◌≡◌};
ghost use Rattle.vx_table.specs.Reading.{toks};
ghost use Rattle.vx_script.specs.Keys as spec;

use crate::fault::FaultKind;
use crate::fields::{behind, number_at, sign_at};
use crate::privileges::privs_at;
use vx_base::{Mode, Privs};
use vx_table::mode_word;
use vx_text::{Tok, Token};

/// A quota limit.
#[derive(Clone, Copy)]
pub enum Limit {
    Ast,
    Bio,
    Dio,
    Byt,
    Tqe,
}

/// A key.
#[derive(Clone, Copy)]
pub enum Key {
    Uic,
    Mode,
    Limit(Limit),
    Priv,
    Start,
}

/// A user identification code.
#[derive(Clone, Copy)]
pub struct Uic {
    pub group: u32,
    pub member: u32,
}

/// The values of the keys that stand.
#[derive(Clone, Copy)]
pub struct Keys {
    pub uic: Option<Uic>,
    pub mode: Option<Mode>,
    pub ast: Option<u32>,
    pub bio: Option<u32>,
    pub dio: Option<u32>,
    pub byt: Option<u32>,
    pub tqe: Option<u32>,
    pub privs: Option<Privs>,
    pub start: Option<bool>,
}

/// Keys with one more, and how many tokens stand behind its name.
#[derive(Clone, Copy)]
pub struct TakenKey {
    pub keys: Keys,
    pub used: usize,
}

/// No key stands.
pub const NO_KEYS: Keys = Keys {
    uic: None,
    mode: None,
    ast: None,
    bio: None,
    dio: None,
    byt: None,
    tqe: None,
    privs: None,
    start: None,
};

fn key_word(word: &[u8]) -> Option<Key>
    ensures { result ≡ spec.key_word word.now }
{
    if word == b"UIC".as_slice() {
        Some(Key::Uic)
    } else if word == b"MODE".as_slice() {
        Some(Key::Mode)
    } else if word == b"ASTLM".as_slice() {
        Some(Key::Limit(Limit::Ast))
    } else if word == b"BIOLM".as_slice() {
        Some(Key::Limit(Limit::Bio))
    } else if word == b"DIOLM".as_slice() {
        Some(Key::Limit(Limit::Dio))
    } else if word == b"BYTLM".as_slice() {
        Some(Key::Limit(Limit::Byt))
    } else if word == b"TQELM".as_slice() {
        Some(Key::Limit(Limit::Tqe))
    } else if word == b"PRIV".as_slice() {
        Some(Key::Priv)
    } else if word == b"START".as_slice() {
        Some(Key::Start)
    } else {
        None
    }
}

fn key_in(tok: &Tok) -> Option<Key>
    ensures { result ≡ spec.key_in tok.now }
{
    match tok {
        Tok::Word(word) => key_word(word.text()),
        _ => None,
    }
}

// The value of UIC, behind its `=`.
#[tactic(auto, unfolding(crate::specs::Keys::uic_at))]
fn uic_at(tokens: &[Token]) -> Result<Uic, FaultKind>
    ensures { result ≡ spec.uic_at (toks tokens.now) }
{
    sign_at(b'=', tokens)?;
    let group = number_at(1, 16382, behind(tokens, 1))?;
    sign_at(b':', behind(tokens, 2))?;
    let member = number_at(0, 65534, behind(tokens, 3))?;
    Ok(Uic { group, member })
}

fn mode_in(tok: &Tok) -> Option<Mode>
    ensures { result ≡ spec.mode_in tok.now }
{
    match tok {
        Tok::Word(word) => mode_word(word.text()),
        _ => None,
    }
}

fn mode_of(tokens: &[Token]) -> Result<Mode, FaultKind>
    ensures { result ≡ spec.mode_of (toks tokens.now) }
{
    let [first, ..] = tokens else {
        return Err(FaultKind::Missing);
    };
    mode_in(&first.tok).ok_or(FaultKind::Word)
}

// The value of MODE, behind its `=`.
#[tactic(auto, unfolding(crate::specs::Keys::mode_at))]
fn mode_at(tokens: &[Token]) -> Result<Mode, FaultKind>
    ensures { result ≡ spec.mode_at (toks tokens.now) }
{
    sign_at(b'=', tokens)?;
    mode_of(behind(tokens, 1))
}

// The value of a quota limit, behind its `=`.
#[tactic(auto, unfolding(crate::specs::Keys::limit_at))]
fn limit_at(tokens: &[Token]) -> Result<u32, FaultKind>
    ensures { result ≡ spec.limit_at (toks tokens.now) }
{
    sign_at(b'=', tokens)?;
    number_at(0, 1_000_000, behind(tokens, 1))
}

// The value of START, behind its `=`.
#[tactic(auto, unfolding(crate::specs::Keys::start_at))]
fn start_at(tokens: &[Token]) -> Result<bool, FaultKind>
    ensures { result ≡ spec.start_at (toks tokens.now) }
{
    sign_at(b'=', tokens)?;
    let n = number_at(0, 1, behind(tokens, 1))?;
    Ok(n == 1)
}

// A key that does not stand yet.
fn once<T: Copy>(value: Option<T>) -> Result<(), FaultKind>
    ensures { result ≡ spec.once value }
{
    match value {
        None => Ok(()),
        Some(_) => Err(FaultKind::Twice),
    }
}

fn with_uic(keys: Keys, tokens: &[Token]) -> Result<TakenKey, FaultKind>
    ensures { result ≡ spec.with_uic keys (toks tokens.now) }
{
    once(keys.uic)?;
    let uic = uic_at(tokens)?;
    let keys = Keys {
        uic: Some(uic),
        ..keys
    };
    Ok(TakenKey { keys, used: 4 })
}

fn with_mode(keys: Keys, tokens: &[Token]) -> Result<TakenKey, FaultKind>
    ensures { result ≡ spec.with_mode keys (toks tokens.now) }
{
    once(keys.mode)?;
    let mode = mode_at(tokens)?;
    let keys = Keys {
        mode: Some(mode),
        ..keys
    };
    Ok(TakenKey { keys, used: 2 })
}

// The limit that stands.
fn limit_in(keys: Keys, limit: Limit) -> Option<u32>
    ensures { result ≡ spec.limit_in keys limit }
{
    match limit {
        Limit::Ast => keys.ast,
        Limit::Bio => keys.bio,
        Limit::Dio => keys.dio,
        Limit::Byt => keys.byt,
        Limit::Tqe => keys.tqe,
    }
}

fn with_limit_in(keys: Keys, limit: Limit, n: u32) -> Keys
    ensures { result ≡ spec.with_limit_in keys limit n }
{
    let value = Some(n);
    match limit {
        Limit::Ast => Keys { ast: value, ..keys },
        Limit::Bio => Keys { bio: value, ..keys },
        Limit::Dio => Keys { dio: value, ..keys },
        Limit::Byt => Keys { byt: value, ..keys },
        Limit::Tqe => Keys { tqe: value, ..keys },
    }
}

fn with_limit(keys: Keys, limit: Limit, tokens: &[Token]) -> Result<TakenKey, FaultKind>
    ensures { result ≡ spec.with_limit keys limit (toks tokens.now) }
{
    once(limit_in(keys, limit))?;
    let n = limit_at(tokens)?;
    let keys = with_limit_in(keys, limit, n);
    Ok(TakenKey { keys, used: 2 })
}

fn with_privs(keys: Keys, tokens: &[Token]) -> Result<TakenKey, FaultKind>
    ensures { result ≡ spec.with_privs keys (toks tokens.now) }
{
    once(keys.privs)?;
    let taken = privs_at(tokens)?;
    let keys = Keys {
        privs: Some(taken.privs),
        ..keys
    };
    Ok(TakenKey {
        keys,
        used: taken.used + 1,
    })
}

fn with_start(keys: Keys, tokens: &[Token]) -> Result<TakenKey, FaultKind>
    ensures { result ≡ spec.with_start keys (toks tokens.now) }
{
    once(keys.start)?;
    let start = start_at(tokens)?;
    let keys = Keys {
        start: Some(start),
        ..keys
    };
    Ok(TakenKey { keys, used: 2 })
}

// One key more, by its name; the tokens are those behind it.
#[tactic(auto, unfolding(crate::specs::Keys::with_key))]
fn with_key(keys: Keys, key: Key, tokens: &[Token]) -> Result<TakenKey, FaultKind>
    ensures { result ≡ spec.with_key keys key (toks tokens.now) }
{
    match key {
        Key::Uic => with_uic(keys, tokens),
        Key::Mode => with_mode(keys, tokens),
        Key::Limit(limit) => with_limit(keys, limit, tokens),
        Key::Priv => with_privs(keys, tokens),
        Key::Start => with_start(keys, tokens),
    }
}

fn taken_key(keys: Keys, tok: &Tok, tokens: &[Token]) -> Result<TakenKey, FaultKind>
    ensures { result ≡ spec.taken_key keys tok.now (toks tokens.now) }
{
    match key_in(tok) {
        Some(key) => with_key(keys, key, tokens),
        None => Err(FaultKind::Word),
    }
}

/// The keys that tokens are, beside those that stand: each key once, in any order. A line has no more than nine, so that
/// this goes no deeper.
pub fn keys_at(keys: Keys, tokens: &[Token]) -> Result<Keys, FaultKind>
    ensures { result ≡ spec.keys_from 0 keys (toks tokens.now) }
{
    let Some((first, rest)) = tokens.split_first() else {
        return Ok(keys);
    };
    match taken_key(keys, &first.tok, rest) {
        Ok(taken) => keys_at(taken.keys, behind(rest, taken.used)),
        Err(kind) => Err(kind),
    }
}
