//! The services on event flags and their common clusters, ASTs, access modes, timers and other processes, and those that wait, each
//! by its entry in the "OpenVMS System Services Reference Manual".
//!
//! Each call does the row of its service in the machine's definitions: it tests in the row's order, logs the row's effects,
//! and leaves the row's state. The caller advances the frame before the service, and stores R0 and any result
//! afterwards. No call takes memory: `Core::begin` makes the room before.
#![tactic(auto)]

mod asts;
mod clusters;
mod control;
mod create;
mod flags;
mod modes;
mod refused;
mod time;
mod timers;
mod waits;
mod wakes;

pub use asts::{dclast, setast};
pub use clusters::{ascefc, dacefc, dlcefc};
pub use control::{forcex, process_test, resume, suspnd, wake};
pub use create::creprc;
pub use flags::{clref, named_flag, put_cell, readef, set_where_named, setef};
pub use modes::{cmexec, cmkrnl};
pub use refused::Refused;
pub use time::{gettim, tick};
pub use timers::{cantim, mode_of_ast, setimr};
pub use waits::{awaited, awaited_on_flag, hiber, wait_condition, waitfr, wfland, wflor};
pub use wakes::{canwak, schdwk};
