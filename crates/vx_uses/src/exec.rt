//! The executive by hand: a run that a seed chooses, a step, and a state that is put away and brought back.

use std::alloc::Global;
use std::test::*;
use vx_base::{End, Event, NoMemory, Pid, Recs, Scripted};
use vx_exec::{Exec, take_run};
use vx_grammar::read_script;

/// A process that waits until its timer sets event flag 1.
const SCRIPT: &[u8] = b"IMAGE MAIN
$SETIMR 1,10
$WAITFR 1
$EXIT
END
PROCESS P MAIN
";

/// The first event of the script, and the only one that is enabled then.
const FIRST: Event = Event::Run(Pid(1));

// The executive of the script before its first event.
fn opened(alloc: Global) -> Result<Exec<Scripted>, NoMemory> {
    let Ok(system) = read_script(alloc, SCRIPT) else {
        return Err(NoMemory);
    };
    Exec::new(alloc, system, 100)
}

// Takes an event, if the run goes on and the event is enabled; answers whether it did.
fn step_if(exec: &mut Exec<Scripted>, event: Event) -> Result<bool, NoMemory> {
    if exec.ended().is_some() || !exec.is_enabled(event) {
        return Ok(false);
    }
    exec.step(event)?;
    Ok(true)
}

// The run from a state on that a seed chooses, twice.
fn runs_from(alloc: Global, seed: u64) -> Result<[(Recs, End); 2], NoMemory> {
    let mut exec = opened(alloc)?;
    let before = exec.snapshot()?;
    let once = take_run(alloc, &mut exec, seed)?;
    before.restore(&mut exec)?;
    let again = take_run(alloc, &mut exec, seed)?;
    Ok([once, again])
}

// Two runs by one seed are the same: the timer, the wait, the tick, $EXIT, and rundown.
#[test]
fn a_seed_chooses_one_run(rt: HostRuntime) -> Result<(), Fail> {
    let [(once, end), (again, other)] = runs_from(rt.alloc(), 7).ok().ok_or("memory")?;
    assert_eq!(rt; once.as_slice().len(), again.as_slice().len());
    assert!(rt; end == End::Done);
    assert!(rt; other == End::Done);
    Ok(())
}

// Time may pass as soon as the timer is set, before the process waits. A state that was put away is another after these steps, and comes
// back.
#[test]
fn a_state_comes_back(rt: HostRuntime) -> Result<(), Fail> {
    let mut exec = opened(rt.alloc()).ok().ok_or("memory")?;
    let before = exec.snapshot().ok().ok_or("memory")?;
    assert!(rt; !step_if(&mut exec, Event::Tick).ok().ok_or("memory")?);
    assert!(rt; step_if(&mut exec, FIRST).ok().ok_or("memory")?);
    assert!(rt; step_if(&mut exec, Event::Tick).ok().ok_or("memory")?);
    assert!(rt; !before.same(&exec));
    before.restore(&mut exec).ok().ok_or("memory")?;
    assert!(rt; before.same(&exec));
    assert_eq!(rt; exec.taken(), 0);
    Ok(())
}
