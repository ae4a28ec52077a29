//! Time.

ghost use Rattle.std.specs.Prelude.{◌≡◌, ◌<◌, ◌≤◌, ◌^◌, true, is_some};
ghost use Rattle.std.specs.List.{find};
ghost use Rattle.vx_record.specs.State.{IsProcess};
ghost use Rattle.vx_record.specs.Timers.{gettim, is_due, next_time, tick};
ghost use Rattle.vx_record.specs.Sound.{AreOrdered, timer_id};
ghost use Rattle.vx_record.specs.Control.{with_wake};
ghost use Rattle.vx_procs.specs.Kernel.{Acts, Fits, changed, with_state};
ghost use Rattle.vx_ctl.specs.Firing.{AreFiring, due_part, firing, woken_off};

use crate::flags::set_where_named;
use vx_base::{Effect, Pid, Routine};
use vx_procs::Core;
use vx_timers::Falls;

// A wake that is due ends, or is due so many ticks later.
fn end_or_put_off<R: Routine>(core: &mut Core<R>, now: u64, repeat: u32)
    requires past { now ≤ core.old.state.time }
    requires counted { now < 9223372041149743104 }
    ensures { core.new ≡ with_state core.old (woken_off core.old.state now repeat) }
{
    if repeat == 0 {
        let _queued = core.fire(now);
    } else {
        core.put_off(now, repeat);
    }
}

// A wake that is due pends for its process.
fn fire_wake<R: Routine>(core: &mut Core<R>, now: u64, target: Pid, repeat: u32)
    requires past { now ≤ core.old.state.time }
    requires counted { now < 9223372041149743104 }
    requires made { IsProcess core.old.state target }
    ensures { core.new ≡ changed (with_state core.old (woken_off core.old.state now repeat)) target (with_wake true) }
{
    end_or_put_off(core, now, repeat);
    core.set_wake(target, true);
}

// The first entry that is due by then fires, if there is one. Takes no memory.
#[tactic(auto, using(crate::proofs::Told::told_none))]
fn fire_first<R: Routine>(core: &mut Core<R>, now: u64) -> bool
    requires past { now ≤ core.old.state.time }
    requires counted { now < 9223372041149743104 }
    requires room { Fits core.old (firing core.old.state now).effects }
    ensures found { result ≡ is_some (find (is_due now) core.old.state.timers) }
    ensures fires { Acts (firing core.old.state now) core.old core.new }
{
    let Some((id, p, falls)) = core.due_entry(now) else {
        return false;
    };
    core.tell(Effect::Fire(id));
    match falls {
        Falls::Timer(efn) => {
            set_where_named(core, p, efn);
            if core.fire(now) {
                core.tell(Effect::Que(id));
            }
            true
        }
        Falls::Wake(target, repeat) => {
            fire_wake(core, now, target, repeat);
            true
        }
    }
}

// All that is due by then fires, in id order: timers set their flags and queue their ASTs, wakes pend. Takes no memory.
fn fire_due<R: Routine>(core: &mut Core<R>, now: u64)
    requires timers { AreFiring now core.old.state }
    requires room { Fits core.old (due_part now core.old.state).effects }
    ensures { Acts (due_part now core.old.state) core.old core.new }
{
    'due: while fire_first(core, now) {}
}

/// $GETTIM: the low 32 bits of the time, in ticks.
pub fn gettim<R: Routine>(core: &Core<R>) -> u32
    ensures { result ≡ gettim core.now.state }
{
    (core.time() % 4_294_967_296) as u32
}

/// TICK: time moves to the least due time, and what is due then fires: timers and scheduled wakes, in id order. A wake that repeats
/// is due again, so many ticks later. Takes no memory.
pub fn tick<R: Routine>(core: &mut Core<R>) -> u64
    requires order { AreOrdered timer_id 0 core.old.state.next core.old.state.timers }
    requires counted { core.old.state.time < 2 ^ 63 }
    requires room { Fits core.old (tick core.old.state).effects }
    ensures time { result ≡ next_time core.old.state }
    ensures acts { Acts (tick core.old.state) core.old core.new }
{
    let now = core.next_time();
    core.set_time(now);
    fire_due(core, now);
    now
}
