//! What holds of the definitions, said on functions that do nothing: the laws are proved where these are.

ghost use Rattle.std.specs.Prelude.{◌≡◌, Contains, List};
ghost use Rattle.vx_record.specs.Types.{Call as CallOf, Event as EventOf, Pid as PidOf, Rec as RecOf, System as SystemOf};
ghost use Rattle.vx_image.specs.WellFormed.{IsWellFormed};
ghost use Rattle.vx_record.specs.Events.{enabled, step};
ghost use Rattle.vx_record.specs.Runs.{IsRun, after, first};
ghost use Rattle.vx_record.specs.Services.{service};
ghost use Rattle.vx_record.specs.Sound.{FitsImage, IsSound};
ghost use Rattle.vx_record.specs.State.{HasFrame, IsProcess, State, image_of};

/// In the first state of every system what the state names is there, and no two open things have one id.
pub fn references_stand_at_first()
    ensures { (system : SystemOf) → IsSound (first system) }
{}

/// What the state names is there, and no two open things have one id, after a service that a process with a frame calls,
/// if that held before it, and if the call's labels are labels of the process's image.
pub fn references_stand_after_each_service()
    ensures { (s : State) (p : PidOf) (c : CallOf) → FitsImage (image_of s p) c → IsProcess s p → HasFrame s p → IsSound s →
        IsSound (service s p c).after }
{}

/// What the state names is there, and no two open things have one id, after each enabled event, if that held before it.
pub fn references_stand_after_each_step()
    ensures { (s : State) (e : EventOf) → IsWellFormed s.system → IsSound s → Contains (enabled s) e →
        IsSound (step s e).after }
{}

/// What the state names is there, and no two open things have one id, at each moment of every run of a well formed system.
#[tactic(auto, using(crate::proofs::SoundSteps::every_run_sound))]
pub fn references_stand_in_every_run()
    ensures { (system : SystemOf) (recs : List RecOf) → IsWellFormed system → IsRun system recs →
        IsSound (after system recs) }
{}

/// No event changes the system.
#[tactic(auto, using(crate::proofs::Fixed::step_keeps_system))]
pub fn events_keep_the_system()
    ensures { (s : State) (e : EventOf) → (step s e).after.system ≡ s.system }
{}
