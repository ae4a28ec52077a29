//! Services that wait, and resumptions.

ghost use Rattle.std.specs.Prelude.{◌≡◌, List, map, Some};
ghost use Rattle.vx_laws.specs.Frames.{awaited};
ghost use Rattle.vx_laws.specs.Items.{Item, Did, later};
ghost use Rattle.vx_laws.specs.StatusLaw.{is_held_up as is_held_up_of, waits_right as waits_right_of, resumes_wait as resumes_wait_of, resumes_right as resumes_right_of};
ghost use Rattle.vx_judge.specs.Values.{AreValues};
ghost use Rattle.vx_judge.specs.Waits.{AreAwaited};

use crate::behind::is_this_cond;
use crate::near::is_cond;
use crate::values::Values;
use crate::waits::Waits;
use vx_base::{Cond, Effect, Pid, Wait};

// What it answered, or that it waits, is right by whether the wait is satisfied.
fn is_held_up(told: Option<Cond>, met: Option<Cond>) -> bool
    ensures { result ≡ is_held_up_of told met }
{
    match told {
        None => met.is_none(),
        Some(c) => !is_cond(c, Cond::Normal) || is_this_cond(Cond::Normal, met),
    }
}

// The same of what a service waits for. Of $HIBER nothing is asked.
fn is_due(values: &Values, effects: &[Effect], p: Pid, told: Option<Cond>, wait: Wait) -> bool
    ensures { (past : List Item) → AreValues values.now past → result ≡ waits_right_of (later past (map Did effects.now)) p told (Some wait) }
{
    match wait {
        Wait::Flags(..) => is_held_up(told, values.satisfied(effects, p, wait)),
        Wait::Synch(..) => is_held_up(told, values.satisfied(effects, p, wait)),
        Wait::Hiber => true,
    }
}

/// Whether a service that waits answered NORMAL, or waits, as it should behind the effects of its record.
pub fn waits_right(
    values: &Values,
    effects: &[Effect],
    p: Pid,
    told: Option<Cond>,
    wait: Option<Wait>,
) -> bool
    ensures { (past : List Item) → AreValues values.now past → result ≡ waits_right_of (later past (map Did effects.now)) p told wait }
{
    match wait {
        Some(wait) => is_due(values, effects, p, told, wait),
        None => true,
    }
}

// A wait ends with this condition.
fn ends_with(values: &Values, p: Pid, c: Cond, wait: Wait) -> bool
    ensures { (past : List Item) → AreValues values.now past → result ≡ resumes_wait_of past p c (Some wait) }
{
    match wait {
        Wait::Flags(..) => is_this_cond(c, values.satisfied(&[], p, wait)),
        Wait::Synch(..) => is_this_cond(c, values.satisfied(&[], p, wait)),
        Wait::Hiber => is_cond(c, Cond::Normal),
    }
}

// The wait, if there is one, ends with this condition.
fn resumes_wait(values: &Values, p: Pid, c: Cond, wait: Option<Wait>) -> bool
    ensures { (past : List Item) → AreValues values.now past → result ≡ resumes_wait_of past p c wait }
{
    match wait {
        Some(wait) => ends_with(values, p, c, wait),
        None => false,
    }
}

/// Whether the wait of the top frame ends with this condition.
pub fn resumes_right(values: &Values, waits: &Waits, p: Pid, c: Cond) -> bool
    ensures { (past : List Item) → AreValues values.now past → AreAwaited waits.now past → result ≡ resumes_right_of past p c (awaited past p) }
{
    resumes_wait(values, p, c, waits.top(p))
}
