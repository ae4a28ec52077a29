//! The executive: it takes one event of a system at a time, and gives its record.
//!
//! `Exec` stands for the plain state of the machine's definitions, the limit of its runs and how many records its steps have
//! made (`specs/View.antt`). What is enabled, what a step does, what a seed picks and when a run ends is the machine of
//! `vx_record`: `count` and `enabled` are the list of its enabled events, `step` takes any one of them and leaves the state
//! after it, `ended` is its end, and `run_system` takes the run that a seed chooses. `step`, and `advance`, which gives no record, change
//! nothing if memory is short; no other call of `Exec` takes memory but `new` and `snapshot`. An `ExecSnapshot` is an executive put away:
//! it takes no more room than it holds, tells whether an executive is in the same state, and can be brought back in place of another by
//! `restore`, which takes memory too: if it finds none, the other is left without processes.
//!
//! `LeasingExec` is an executive whose units may be out: a unit that serves is taken out with its request, is served while the executive
//! takes other events, and is given back with the reply (`specs/Leases.antt`). It steps as `Exec` does. An `Exec` never has a unit out.
#![tactic(auto)]

mod arguments;
mod block;
mod engine;
mod events;
mod exec;
mod leasing;
mod machine;
mod room;
mod run;
mod seed;
mod services;
mod snapshot;
mod standing;

pub use exec::Exec;
pub use leasing::LeasingExec;
pub use run::{run_system, take_run};
pub use seed::Seed;
pub use snapshot::ExecSnapshot;
pub use vx_base::End;
