//! Room for one event, which is made before it.

ghost use Rattle.std.specs.Prelude.{◌≡◌, ◌≤◌, IfSome, IsSome, OnErr, OnOk, false, slice_set};
ghost use Rattle.vx_base.specs.Queues.{front};
ghost use Rattle.vx_record.specs.Events.{is_don};
ghost use Rattle.vx_units.specs.Leases.{Home};
ghost use Rattle.vx_procs.specs.Kernel.{stands};
ghost use Rattle.vx_exec.specs.Engines.{stands_prepared};
ghost use Rattle.vx_exec.specs.Ready.{HasOwner, HasRoomFor, HasRooms, IsRoomMade, most};
ghost use Rattle.vx_base.specs.declared.record.Event.TheVariants.{Beg};

use crate::events::process_of;
use std::alloc::Global;
use vx_base::{Event, NoMemory, Routine, UnitNo};
use vx_io::Rooms;
use vx_procs::Core;

// A count that an event's effects do not exceed; None if 32 bits do not count them.
fn most<R: Routine>(core: &Core<R>, event: Event) -> Option<u32>
    requires { HasOwner core.now.state event }
    ensures { IfSome result (λ n. most core.now.state event ≤ n) }
{
    let most = match event {
        Event::Run(p) | Event::Ast(p) => {
            let asked = 6 * core.request_count() as u128 + 2 * core.attention_count() as u128;
            let listed = core.timer_count() as u128 + asked;
            let own = core.frame_count(p) as u128 + core.handler_count(p) as u128;
            core.depth().checked_add(own + listed + 15)?
        }
        Event::Rdn(p) => {
            let timers = core.timer_count() as u128;
            let listed = core.ast_count(p) as u128 + 11 * core.request_count() as u128;
            let waiting = 2 * timers + core.attention_count() as u128;
            let load = listed + waiting + core.channel_count(p) as u128 + 4;
            4 * load + core.handler_count(p) as u128 + timers + 1
        }
        Event::Tick => 3 * core.timer_count() as u128,
        Event::Beg(_) => 0,
        Event::Don(_) => 5,
    };
    u32::try_from(most).ok()
}

// Makes the spares, and room for what an event tells.
fn make_spares<R: Routine>(core: &mut Core<R>, event: Event) -> Result<(), NoMemory>
    requires { HasOwner core.old.state event }
    ensures same { core.new.state ≡ core.old.state }
    ensures ends { core.new.ends ≡ core.old.ends }
    ensures made { OnOk result (HasRoomFor core.new event) }
{
    match most(core, event) {
        Some(effects) => core.begin(effects, process_of(event)),
        None => Err(NoMemory),
    }
}

// Makes an empty log for a BEG, and what the end of the service needs that it begins.
fn prepare<R: Routine>(core: &mut Core<R>, u: UnitNo) -> Result<(), NoMemory>
    requires { IsSome (front u core.old.state.requests) }
    ensures same { core.new.state ≡ core.old.state }
    ensures made { OnOk result (IsRoomMade core.new (Beg u)) }
    ensures home { OnOk result (stands core.new ≡ slice_set (stands core.old) u.0 Home) }
    ensures stay { OnErr result (core.new.ends ≡ core.old.ends) }
{
    core.begin(0, None)?;
    core.prepare(u)
}

/// Makes spare room for the bytes of a request before a process runs, and for no other event.
pub(crate) fn make_rooms(alloc: Global, rooms: &mut Rooms, event: Event) -> Result<(), NoMemory>
    ensures made { OnOk result (HasRooms event rooms.new) }
    ensures err { OnErr result (is_don event ≡ false) }
{
    match event {
        Event::Run(_) => rooms.fill(alloc),
        _ => Ok(()),
    }
}

/// Makes room for an event. A BEG is given what the end of its service needs, so a DON needs nothing, and cannot fail. If
/// memory is short, no state shows it.
pub(crate) fn make_room<R: Routine>(core: &mut Core<R>, event: Event) -> Result<(), NoMemory>
    requires { HasOwner core.old.state event }
    ensures same { core.new.state ≡ core.old.state }
    ensures made { OnOk result (IsRoomMade core.new event) }
    ensures home { OnOk result (stands core.new ≡ stands_prepared event (stands core.old)) }
    ensures stay { OnErr result ((is_don event ≡ false) × (stands core.new ≡ stands core.old)) }
{
    match event {
        Event::Run(_) => make_spares(core, event),
        Event::Ast(_) => make_spares(core, event),
        Event::Rdn(_) => make_spares(core, event),
        Event::Tick => make_spares(core, event),
        Event::Beg(u) => prepare(core, u),
        Event::Don(_) => Ok(()),
    }
}
