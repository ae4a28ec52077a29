//! Which events are enabled.

ghost use Rattle.std.specs.Prelude.{◌≡◌, ◌<◌, ◌≤◌, ◌↔◌, [], ◌∷◌, ◌++◌, Contains, IsTrue, length, option_to_list, slice_get};
ghost use Rattle.vx_record.specs.State.{IsProcess, process_at};
ghost use Rattle.vx_record.specs.Events.{can_run, can_run_down, enabled, process_events, processes_from, tick_events, unit_events, units_from};
ghost use Rattle.vx_record.specs.Runs.{are_deleted};
ghost use Rattle.vx_record.specs.Sound.{WaitsStand};
ghost use Rattle.std.specs.List.{find};
ghost use Rattle.vx_exec.specs.Leases.{first_open, is_open};
ghost use Rattle.vx_exec.specs.Ready.{process_of};
ghost use Rattle.vx_exec.specs.Sound.{IsWhole};

use crate::block::{block_count, count_in, event_in};
use vx_base::{Event, Phase, Pid, Routine, UnitNo};
use vx_ctl::wait_condition;
use vx_procs::Core;

// Whether a process can go on: it has a frame, which waits for nothing or for what has come.
#[tactic(auto, using(crate::proofs::Enabled::top_fits))]
fn can_run<R: Routine>(core: &Core<R>, p: Pid) -> bool
    requires made { IsProcess core.now.state p }
    requires waits { WaitsStand (process_at core.now.state p).frames }
    ensures { result ≡ can_run core.now.state p (process_at core.now.state p).frames }
{
    let Some(frame) = core.top(p) else {
        return false;
    };
    match frame.wait {
        Some(wait) => wait_condition(core, p, wait).is_some(),
        None => true,
    }
}

// Whether a process can be run down: it has no frame, and is neither deleted nor waits for its requests.
fn can_run_down<R: Routine>(core: &Core<R>, p: Pid) -> bool
    requires { IsProcess core.now.state p }
    ensures { result ≡ can_run_down core.now.state p (process_at core.now.state p).frames }
{
    if core.top(p).is_some() {
        return false;
    }
    match core.phase(p) {
        Phase::Draining(mode) => !core.is_busy(p, mode),
        Phase::Deleted => false,
        Phase::Alive | Phase::Handlers(_) => true,
    }
}

// The event of a process, if it has one. Asks the process, and what it waits for.
fn asked_event<R: Routine>(core: &Core<R>, p: Pid) -> Option<Event>
    requires made { IsProcess core.now.state p }
    requires waits { WaitsStand (process_at core.now.state p).frames }
    ensures { option_to_list result ≡ process_events core.now.state p }
{
    if core.is_suspended(p) {
        return None;
    }
    if core.deliverable(p).is_some() {
        return Some(Event::Ast(p));
    }
    if can_run(core, p) {
        return Some(Event::Run(p));
    }
    if can_run_down(core, p) {
        Some(Event::Rdn(p))
    } else {
        None
    }
}

/// The event of a process, if it has one. A process that is known to have none is not asked.
#[tactic(auto, using(crate::proofs::Owned::none_known))]
pub(crate) fn event_of<R: Routine>(core: &Core<R>, p: Pid) -> Option<Event>
    requires made { IsProcess core.now.state p }
    requires waits { WaitsStand (process_at core.now.state p).frames }
    ensures { option_to_list result ≡ process_events core.now.state p }
{
    match core.known_event(p) {
        Some(false) => None,
        _ => asked_event(core, p),
    }
}

/// How many events a process has: one or none. It is asked only if that is not known.
#[tactic(auto, using(crate::proofs::Owned::one_known, crate::proofs::Owned::none_known))]
pub(crate) fn events_of<R: Routine>(core: &Core<R>, p: Pid) -> u32
    requires made { IsProcess core.now.state p }
    requires waits { WaitsStand (process_at core.now.state p).frames }
    ensures count { result ≡ length (process_events core.now.state p) }
    ensures few { result ≤ 1 }
{
    match core.known_event(p) {
        Some(true) => 1,
        Some(false) => 0,
        None => match asked_event(core, p) {
            Some(_) => 1,
            None => 0,
        },
    }
}

/// The process of an event, if it is one of a process.
pub(crate) fn process_of(event: Event) -> Option<Pid>
    ensures { result ≡ process_of event }
{
    match event {
        Event::Run(p) | Event::Ast(p) | Event::Rdn(p) => Some(p),
        Event::Beg(_) | Event::Don(_) | Event::Tick => None,
    }
}

// How many events processes have.
fn process_count<R: Routine>(core: &Core<R>) -> u32
    requires { IsWhole core.now.state }
    ensures count { result ≡ length (processes_from core.now.state 1 core.now.state.procs) }
    ensures few { result ≤ 1000 }
{
    let mut count: u32 = 0;
    for b in 0..block_count(core) {
        count += count_in(core, b);
    }
    count
}

// The event of a unit, if it has one: it ends the service of the request that it serves, or begins the first that waits.
fn unit_event<R: Routine>(core: &Core<R>, u: UnitNo) -> Option<Event>
    ensures { option_to_list result ≡ unit_events core.now.state u }
{
    if core.in_service(u).is_some() {
        return Some(Event::Don(u));
    }
    if core.front(u).is_some() {
        Some(Event::Beg(u))
    } else {
        None
    }
}

// How many events a unit has: one or none.
fn events_of_unit<R: Routine>(core: &Core<R>, u: UnitNo) -> u32
    ensures count { result ≡ length (unit_events core.now.state u) }
    ensures few { result ≤ 1 }
{
    match unit_event(core, u) {
        Some(_) => 1,
        None => 0,
    }
}

// How many events units have.
fn unit_count<R: Routine>(core: &Core<R>) -> u32
    requires { IsWhole core.now.state }
    ensures count { result ≡ length (units_from core.now.state 0 core.now.state.units) }
    ensures few { result ≤ 32 }
{
    let mut count: u32 = 0;
    for place in 0..core.unit_count() as u32 {
        count += events_of_unit(core, UnitNo(place));
    }
    count
}

/// How many events are enabled.
pub(crate) fn count<R: Routine>(core: &Core<R>) -> u32
    requires { IsWhole core.now.state }
    ensures { result ≡ length (enabled core.now.state) }
{
    let count = process_count(core) + unit_count(core);
    if core.timer_count() == 0 {
        count
    } else {
        count + 1
    }
}

// TICK, if it is enabled and is the event at a place.
fn tick_at<R: Routine>(core: &Core<R>, place: u32) -> Option<Event>
    ensures { result ≡ slice_get (tick_events core.now.state.timers) place }
{
    if place == 0 && core.timer_count() > 0 {
        Some(Event::Tick)
    } else {
        None
    }
}

// The event at a place from 0 among those of the units, in the script's order, and then of time.
fn unit_event_at<R: Routine>(core: &Core<R>, i: u32) -> Option<Event>
    requires { IsWhole core.now.state }
    ensures { result ≡ slice_get (units_from core.now.state 0 core.now.state.units ++ tick_events core.now.state.timers) i }
{
    let mut left = i;
    for place in 0..core.unit_count() as u32 {
        if let Some(event) = unit_event(core, UnitNo(place)) {
            if left == 0 {
                return Some(event);
            }
            left -= 1;
        }
    }
    tick_at(core, left)
}

/// The enabled event at a place from 0: the processes in number order, then the units in the script's order, each with one
/// event or none, and then time.
pub(crate) fn enabled_at<R: Routine>(core: &Core<R>, i: u32) -> Option<Event>
    requires { IsWhole core.now.state }
    ensures { result ≡ slice_get (enabled core.now.state) i }
{
    let mut left = i;
    for b in 0..block_count(core) {
        match event_in(core, b, left) {
            Ok(event) => return Some(event),
            Err(behind) => left = behind,
        }
    }
    unit_event_at(core, left)
}

// Whether an event ends no service.
fn is_open(event: Event) -> bool
    ensures { result ≡ is_open event }
{
    match event {
        Event::Don(_) => false,
        Event::Run(_) | Event::Ast(_) | Event::Rdn(_) | Event::Beg(_) | Event::Tick => true,
    }
}

// The first event of a unit that ends no service, and then that of time.
fn first_open_later<R: Routine>(core: &Core<R>) -> Option<Event>
    requires { IsWhole core.now.state }
    ensures { result ≡ find is_open (units_from core.now.state 0 core.now.state.units ++ tick_events core.now.state.timers) }
{
    for place in 0..core.unit_count() as u32 {
        if let Some(event) = unit_event(core, UnitNo(place)) {
            if is_open(event) {
                return Some(event);
            }
        }
    }
    tick_at(core, 0)
}

/// The first enabled event that ends no service: that of the first process that has one, else the BEG of the first unit that has one,
/// else time's.
pub(crate) fn first_open<R: Routine>(core: &Core<R>) -> Option<Event>
    requires { IsWhole core.now.state }
    ensures { result ≡ first_open core.now.state }
{
    for b in 0..block_count(core) {
        if let Ok(event) = event_in(core, b, 0) {
            return Some(event);
        }
    }
    first_open_later(core)
}

// Whether an event is the event of a process, if that is there.
fn has_event<R: Routine>(core: &Core<R>, p: Pid, event: Event) -> bool
    requires { IsWhole core.now.state }
    ensures made { IsTrue result → IsProcess core.now.state p }
    ensures has { IsTrue result → process_events core.now.state p ≡ event ∷ [] }
    ensures only { IsProcess core.now.state p → process_events core.now.state p ≡ event ∷ [] → IsTrue result }
{
    if p.0 == 0 || core.process_count() < p.0 as usize {
        return false;
    }
    match event_of(core, p) {
        Some(own) => own == event,
        None => false,
    }
}

// Whether an event is the event of a unit, if that is there.
fn has_unit_event<R: Routine>(core: &Core<R>, u: UnitNo, event: Event) -> bool
    ensures made { IsTrue result → u.0 < length core.now.state.units }
    ensures has { IsTrue result → unit_events core.now.state u ≡ event ∷ [] }
    ensures only { u.0 < length core.now.state.units → unit_events core.now.state u ≡ event ∷ [] → IsTrue result }
{
    if core.unit_count() <= u.0 as usize {
        return false;
    }
    match unit_event(core, u) {
        Some(own) => own == event,
        None => false,
    }
}

/// Whether an event is enabled. It asks of the process or the unit of that event alone.
pub(crate) fn is_enabled<R: Routine>(core: &Core<R>, event: Event) -> bool
    requires { IsWhole core.now.state }
    ensures { IsTrue result ↔ Contains (enabled core.now.state) event }
{
    match event {
        Event::Run(p) | Event::Ast(p) | Event::Rdn(p) => has_event(core, p, event),
        Event::Tick => core.timer_count() > 0,
        Event::Beg(u) | Event::Don(u) => has_unit_event(core, u, event),
    }
}

/// Whether every process is deleted.
#[tactic(auto, using(crate::proofs::Enabled::procs_step))]
pub(crate) fn are_deleted<R: Routine>(core: &Core<R>) -> bool
    requires { IsWhole core.now.state }
    ensures { result ≡ are_deleted core.now.state }
{
    for place in 0..core.process_count() as u32 {
        if !core.is_deleted(Pid(place + 1)) {
            return false;
        }
    }
    true
}
