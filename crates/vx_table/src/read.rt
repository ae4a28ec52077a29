//! The arguments of a call, from the tokens behind its service.

ghost use Rattle.std.specs.Prelude.{◌≡◌, ◌+◌, ◌≤◌, ◌<◌, length};
ghost use Rattle.std.specs.List.{prefix_len};
ghost use Rattle.vx_base.specs.Lists.{rest};
ghost use Rattle.vx_base.specs.Services.{args_of};
ghost use Rattle.vx_table.specs.Reading as spec;
ghost use Rattle.vx_table.specs.Cutting as cutting;
ghost use Rattle.vx_table.specs.Rows.{params_in};

use crate::arg::token_arg;
use crate::fail::CallFail;
use crate::slot::Slot;
use vx_base::{Arg, Args, Kind, Param};
use vx_text::{Tok, Token};

fn is_comma(tok: &Tok) -> bool
    ensures { result ≡ spec.is_comma tok.now }
{
    matches!(tok, Tok::Sign(b','))
}

// How many tokens stand before the next comma.
fn piece_len(tokens: &[Token]) -> usize
    ensures { result ≡ prefix_len cutting.stays tokens.now }
{
    tokens
        .iter()
        .take_while(|token| !is_comma(&token.tok))
        .count()
}

fn kind_of(param: &Param) -> Kind
    ensures { result ≡ Rattle.vx_base.specs.Services.kind_of param.now }
{
    match param {
        Param::Required(kind) | Param::Optional(kind, _) => *kind,
    }
}

fn default_of(k: u8, param: &Param) -> Result<Arg, CallFail>
    ensures { result ≡ spec.default_of k param.now }
{
    match param {
        Param::Required(_) => Err(CallFail::Missing(k)),
        Param::Optional(_, default) => Ok(*default),
    }
}

fn only_arg(k: u8, param: &Param, tok: &Tok) -> Result<Arg, CallFail>
    ensures { result ≡ spec.arg_or k (spec.token_arg (Rattle.vx_base.specs.Services.kind_of param.now) tok.now) }
{
    match token_arg(kind_of(param), tok) {
        Some(arg) => Ok(arg),
        None => Err(CallFail::Argument(k)),
    }
}

// Argument k, from the tokens of its piece.
fn read_arg(k: u8, param: &Param, piece: &[Token]) -> Result<Arg, CallFail>
    ensures { result ≡ spec.read_arg k param.now (spec.toks piece.now) }
{
    match piece {
        [] => default_of(k, param),
        [token] => only_arg(k, param, &token.tok),
        _ => Err(CallFail::Argument(k)),
    }
}

// The tokens of the argument that begins at a place; none behind the last argument.
fn piece(tokens: &[Token], at: usize) -> &[Token]
    ensures { spec.toks result.now ≡ spec.first_piece (cutting.left at tokens.now) }
{
    if at > tokens.len() {
        return &tokens[..0];
    }
    let rest = &tokens[at..];
    &rest[..piece_len(rest)]
}

// The place where the argument after it begins.
fn after(tokens: &[Token], at: usize) -> usize
    requires { at ≤ length tokens.now + 1 }
    ensures left { cutting.left result tokens.now ≡ rest (cutting.left at tokens.now) }
    ensures within { result ≤ length tokens.now + 1 }
{
    if at > tokens.len() {
        return at;
    }
    at + piece_len(&tokens[at..]) + 1
}

// The place where the first argument begins: behind the last one, if there are no tokens.
fn first_place(tokens: &[Token]) -> usize
    ensures left { cutting.left result tokens.now ≡ spec.pieces (spec.toks tokens.now) }
    ensures within { result ≤ length tokens.now + 1 }
{
    if tokens.is_empty() { 1 } else { 0 }
}

fn args_of(args: &[Arg; 9]) -> Args
    ensures { result ≡ args_of args.now }
{
    Args {
        a0: args[0],
        a1: args[1],
        a2: args[2],
        a3: args[3],
        a4: args[4],
        a5: args[5],
        a6: args[6],
        a7: args[7],
        a8: args[8],
    }
}

// The arguments, if no argument is left.
fn finish(args: &[Arg; 9], tokens: &[Token], at: usize) -> Result<Args, CallFail>
    ensures { result ≡ cutting.finish args.now (cutting.left at tokens.now) }
{
    if at > tokens.len() {
        Ok(args_of(args))
    } else {
        Err(CallFail::Extra)
    }
}

/// The arguments that these places take, from the tokens behind a service.
pub fn read_args(params: &[Option<Slot>; 9], tokens: &[Token]) -> Result<Args, CallFail>
    ensures { result ≡ spec.as_args (spec.read_args 1 (params_in params.now) (spec.pieces (spec.toks tokens.now))) }
{
    let mut args = [Arg::Unused; 9];
    let mut at = first_place(tokens);
    for (k, slot) in params.iter().enumerate() {
        let Some(slot) = slot else {
            return finish(&args, tokens, at);
        };
        args[k] = read_arg(k as u8 + 1, &slot.param(), piece(tokens, at))?;
        at = after(tokens, at);
    }
    finish(&args, tokens, at)
}
