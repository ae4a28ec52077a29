//! Answers that tell how a flag or a mode was.

ghost use Rattle.std.specs.Prelude.{◌≡◌, ℕ, List, IfSome, ◌<◌};
ghost use Rattle.vx_laws.specs.Items.{Item};
ghost use Rattle.vx_laws.specs.StatusLaw.{is_earlier_state as is_earlier_state_of, tells_flag as tells_flag_of, is_var_with as is_var_with_of, tells_flags as tells_flags_of, tells_enable as tells_enable_of, tells_earlier as tells_earlier_of, tells_setast as tells_setast_of};
ghost use Rattle.vx_record.specs.Flags.{how_it_was as how_it_was_of, place_in};
ghost use Rattle.vx_judge.specs.Enables.{AreOf};
ghost use Rattle.vx_judge.specs.Values.{AreValues};
ghost use Rattle.vx_judge.specs.Words.{IsWord};

use crate::args::number;
use crate::behind::place_of;
use crate::bits::{is_number, is_set};
use crate::enables::Enables;
use crate::near::is_cond;
use crate::values::Values;
use crate::word::Word;
use vx_base::{Call, Cell, Cond, Effect, Pid, Service};

fn how_it_was(on: bool) -> Cond
    ensures { result ≡ how_it_was_of on }
{
    if on { Cond::WasSet } else { Cond::WasClr }
}

fn is_earlier_state(c: Cond) -> bool
    ensures { result ≡ is_earlier_state_of c }
{
    is_cond(c, Cond::WasSet) || is_cond(c, Cond::WasClr)
}

// The condition tells how a flag was.
fn tells_flag(values: &Values, c: Cond, cell: &Option<Cell>) -> bool
    ensures { (past : List Item) → AreValues values.now past → IfSome cell.now (λ k. place_in k < 32) → result ≡ tells_flag_of past c cell.now }
{
    match cell {
        Some(at) => is_cond(c, how_it_was(is_set(values.word(at), place_of(at)))),
        None => false,
    }
}

// One variable takes these flags, and that is all.
fn is_var_with(word: Word, effects: &[Effect]) -> bool
    ensures { (flags : ℕ) → IsWord word flags → result ≡ is_var_with_of flags effects.now }
{
    match effects.split_first() {
        Some((Effect::Var { n, .. }, more)) => more.is_empty() && is_number(word, *n),
        _ => false,
    }
}

// A variable takes the flags of the cluster.
fn tells_flags(values: &Values, effects: &[Effect], cell: &Option<Cell>) -> bool
    ensures { (past : List Item) → AreValues values.now past → result ≡ tells_flags_of past effects.now cell.now }
{
    match cell {
        Some(at) => is_var_with(values.word(at), effects),
        None => false,
    }
}

/// Whether what $SETEF, $CLREF and $READEF answer tells the flag, and $READEF stores the flags of its cluster.
pub fn tells_earlier(values: &Values, p: Pid, call: &Call, c: Cond, effects: &[Effect]) -> bool
    ensures { (past : List Item) → AreValues values.now past → result ≡ tells_earlier_of past p call.now.args c effects.now call.now.service }
{
    let efn = number(call.args.a0);
    match call.service {
        Service::SetEf | Service::ClrEf => {
            !is_earlier_state(c) || tells_flag(values, c, &values.cell(p, efn))
        }
        Service::ReadEf => {
            let cell = values.cell(p, efn);
            !is_earlier_state(c)
                || tells_flag(values, c, &cell) && tells_flags(values, effects, &cell)
        }
        _ => true,
    }
}

// The one effect sets a mode, and the condition tells how it was.
fn tells_enable(enables: &Enables, c: Cond, effects: &[Effect]) -> bool
    ensures { (past : List Item) → AreOf enables.now past → result ≡ tells_enable_of past c effects.now }
{
    match effects.split_first() {
        Some((Effect::Enb { p, mode, .. }, more)) => {
            more.is_empty() && is_cond(c, how_it_was(enables.is_enabled(*p, *mode)))
        }
        _ => false,
    }
}

/// Whether what $SETAST answers tells the mode.
pub fn tells_setast(enables: &Enables, c: Cond, effects: &[Effect], service: Service) -> bool
    ensures { (past : List Item) → AreOf enables.now past → result ≡ tells_setast_of past c effects.now service }
{
    match service {
        Service::SetAst => tells_enable(enables, c, effects),
        _ => true,
    }
}
