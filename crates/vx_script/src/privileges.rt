//! Privileges of a PROCESS line.

ghost use Rattle.std.specs.Prelude.{◌≡◌, ◌≤◌, ◌<◌, ◌^◌, true, false, IfOk, length};
ghost use Rattle.vx_table.specs.Reading.{toks};
ghost use Rattle.vx_script.specs.Keys as spec;

use crate::fault::FaultKind;
use crate::fields::{behind, is_sign, is_word, sign_at};
use vx_base::Privs;
use vx_text::{Tok, Token};

/// A privilege.
#[derive(Clone, Copy)]
pub enum Privilege {
    CmExec,
    CmKrnl,
    Group,
    PrmCeb,
    PrmMbx,
    World,
}

/// Privileges, and how many tokens name them.
#[derive(Clone, Copy)]
pub struct TakenPrivs {
    pub privs: Privs,
    pub used: usize,
}

/// No privilege.
pub const NO_PRIVS: Privs = Privs {
    cmexec: false,
    cmkrnl: false,
    group: false,
    prmceb: false,
    prmmbx: false,
    world: false,
};

fn privilege_word(word: &[u8]) -> Option<Privilege>
    ensures { result ≡ spec.privilege_word word.now }
{
    if word == b"CMEXEC".as_slice() {
        Some(Privilege::CmExec)
    } else if word == b"CMKRNL".as_slice() {
        Some(Privilege::CmKrnl)
    } else if word == b"GROUP".as_slice() {
        Some(Privilege::Group)
    } else if word == b"PRMCEB".as_slice() {
        Some(Privilege::PrmCeb)
    } else if word == b"PRMMBX".as_slice() {
        Some(Privilege::PrmMbx)
    } else if word == b"WORLD".as_slice() {
        Some(Privilege::World)
    } else {
        None
    }
}

fn privilege_in(tok: &Tok) -> Option<Privilege>
    ensures { result ≡ spec.privilege_in tok.now }
{
    match tok {
        Tok::Word(word) => privilege_word(word.text()),
        _ => None,
    }
}

fn holds(privs: Privs, privilege: Privilege) -> bool
    ensures { result ≡ spec.holds privs privilege }
{
    match privilege {
        Privilege::CmExec => privs.cmexec,
        Privilege::CmKrnl => privs.cmkrnl,
        Privilege::Group => privs.group,
        Privilege::PrmCeb => privs.prmceb,
        Privilege::PrmMbx => privs.prmmbx,
        Privilege::World => privs.world,
    }
}

fn granted(privs: Privs, privilege: Privilege) -> Privs
    ensures { result ≡ spec.granted privs privilege }
{
    let mut held = privs;
    match privilege {
        Privilege::CmExec => held.cmexec = true,
        Privilege::CmKrnl => held.cmkrnl = true,
        Privilege::Group => held.group = true,
        Privilege::PrmCeb => held.prmceb = true,
        Privilege::PrmMbx => held.prmmbx = true,
        Privilege::World => held.world = true,
    }
    held
}

// One privilege more, each once.
fn with_token(privs: Privs, tok: &Tok) -> Result<Privs, FaultKind>
    ensures { result ≡ spec.with_token privs tok.now }
{
    let Some(privilege) = privilege_in(tok) else {
        return Err(FaultKind::Word);
    };
    if holds(privs, privilege) {
        return Err(FaultKind::Twice);
    }
    Ok(granted(privs, privilege))
}

fn one_more(taken: TakenPrivs) -> TakenPrivs
    requires { taken.used < 2 ^ 63 }
    ensures { result ≡ spec.one_more taken }
{
    TakenPrivs {
        privs: taken.privs,
        used: taken.used + 1,
    }
}

// Where a name may stand, and then a + or the end.
#[cycle(privs)]
fn name_first(privs: Privs, tokens: &[Token]) -> Result<TakenPrivs, FaultKind>
    ensures taken { result ≡ spec.privs_from false privs (toks tokens.now) }
    ensures within { IfOk result (λ taken. taken.used ≤ length tokens.now) }
{
    let [first, rest @ ..] = tokens else {
        return Err(FaultKind::Missing);
    };
    let held = with_token(privs, &first.tok)?;
    let taken = sign_first(held, rest)?;
    Ok(one_more(taken))
}

// Behind a name: a + and then a name, or the end.
#[cycle(privs)]
fn sign_first(privs: Privs, tokens: &[Token]) -> Result<TakenPrivs, FaultKind>
    ensures taken { result ≡ spec.privs_from true privs (toks tokens.now) }
    ensures within { IfOk result (λ taken. taken.used ≤ length tokens.now) }
{
    let [first, rest @ ..] = tokens else {
        return Ok(TakenPrivs { privs, used: 0 });
    };
    if !is_sign(b'+', &first.tok) {
        return Ok(TakenPrivs { privs, used: 0 });
    }
    let taken = name_first(privs, rest)?;
    Ok(one_more(taken))
}

fn privs_of(tokens: &[Token]) -> Result<TakenPrivs, FaultKind>
    ensures taken { result ≡ spec.privs_of (toks tokens.now) }
    ensures within { IfOk result (λ taken. taken.used ≤ length tokens.now) }
{
    let [first, ..] = tokens else {
        return Err(FaultKind::Missing);
    };
    if is_word(b"NONE", &first.tok) {
        return Ok(TakenPrivs {
            privs: NO_PRIVS,
            used: 1,
        });
    }
    name_first(NO_PRIVS, tokens)
}

/// The privileges that stand behind a `=`: NONE, or names joined by `+`.
#[tactic(auto, unfolding(crate::specs::Keys::privs_at))]
pub fn privs_at(tokens: &[Token]) -> Result<TakenPrivs, FaultKind>
    ensures taken { result ≡ spec.privs_at (toks tokens.now) }
    ensures within { IfOk result (λ taken. taken.used ≤ length tokens.now) }
{
    sign_at(b'=', tokens)?;
    privs_of(behind(tokens, 1))
}
