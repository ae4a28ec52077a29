//! The plain data that every other crate speaks of.
//!
//! What a call of a service is (`Call`), what an event did (`Rec`), and the small types that both are made of: names,
//! bytes, conditions, modes, ids, requests, frames. For the crates above these are data of definitions: a clause sees an
//! enum or a struct as it stands, and a type with private fields as the list of what it holds.
//!
//! `specs/Pieces.antt` has the pieces that the plain state of the executive is made of; `Lists`, `Roomy`, `Flags`, `Modes`, `Frames`,
//! `Queues`, `Channels`, `Handlers`, `Clusters`, `Quotas`, `Entries` and `Serving` the words on them; `Services` the services with their
//! names and arguments; `Cond` the table of conditions.
#![tactic(auto)]

mod buffer;
mod bytes;
mod call;
mod cond;
mod effects;
mod frame;
mod mode;
mod name;
mod number;
mod place;
mod quota;
mod record;
mod request;
mod reserved;
mod routine;
mod same;
mod sequence;
mod service;

pub use buffer::{BUFFER_BYTES, Buffer};
pub use bytes::{Bytes, NoMemory};
pub use call::{Arg, Args, Call, Operand, Target};
pub use cond::{Cond, CondRow, CondTable, Severity, cond_table};
pub use effects::{Cell, Effect, EffectList, Effects, Opened};
pub use frame::{Frame, FrameKind, Phase, Wait};
pub use mode::{Mode, outer_of};
pub use name::{Name, is_name};
pub use number::{BoxNo, Id, Pid, UnitNo};
pub use place::{at_place, take_out};
pub use quota::{Need, Privs};
pub use record::{Answer, End, Event, Rec, Recs};
pub use request::{Body, Device, Func, Msg, Reply, Req};
pub use reserved::Reserved;
pub use routine::{Entry, Routine, Scripted};
pub use same::{Duplicate, Same};
pub use sequence::Sequence;
pub use service::{Kind, Param, Service};
