//! Images, and the systems that a script says.
//!
//! A `System` is what a script says: units, images and process declarations. For definitions these are plain data, which
//! they compare with plain equality. What a script may say is `specs/WellFormed.antt`. A `Store` is what one process
//! stores, `StoreSnapshot` the same put away, and `advance` runs an image's local statements on it: `specs/Local.antt`.
#![tactic(auto)]

mod buffers;
mod call_ref;
mod decl;
mod example;
mod image;
mod local;
mod page;
mod run;
mod same;
mod snapshot;
mod status;
mod stmt;
mod stmts;
mod stop;
mod store;
mod system;
mod terms;
mod texts;
mod unit;

pub use call_ref::CallRef;
pub use decl::{ProcDecl, ProcDecls};
pub use example::{past_example, round_example, wrapping_example};
pub use image::{Image, Images, Label, Labels};
pub use run::advance;
pub use same::same_privs;
pub use snapshot::StoreSnapshot;
pub use stmt::{Field, Rel, Stmt, StmtRef};
pub use stmts::Stmts;
pub use stop::Stop;
pub use store::Store;
pub use system::System;
pub use unit::{Lines, Numbers, UnitDecl, UnitDecls};
