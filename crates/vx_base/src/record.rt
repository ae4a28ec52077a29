//! Events, and records of them.

use crate::call::Call;
use crate::cond::Cond;
use crate::effects::EffectList;
use crate::number::{Id, Pid, UnitNo};
use crate::sequence::Sequence;

/// An event of the executive: one atomic step.
#[derive(Clone, Copy, Debug, PartialEq, Eq)]
pub enum Event {
    /// The process runs up to and with its next service, or to the end of its top frame, or for 1,000 statements.
    Run(Pid),
    /// An AST is delivered to the process.
    Ast(Pid),
    /// One step of the process's rundown.
    Rdn(Pid),
    /// The unit takes its front request into service.
    Beg(UnitNo),
    /// The unit finishes the request that it serves.
    Don(UnitNo),
    /// Time moves to the least due time, and what is due then fires.
    Tick,
}

/// What an event came to.
#[derive(Clone, Copy, Debug)]
pub enum Answer {
    /// A service was called, with its values computed, and answered a condition.
    Service(Call, Cond),
    /// A service was called, with its values computed, and waits.
    Wait(Call),
    /// A wait ended with a condition.
    Resume(Cond),
    /// A routine returned.
    Return,
    /// The main frame ended.
    End,
    /// Only local statements were run.
    Local,
    /// The AST of this id was delivered.
    Ast(Id),
    /// An exit handler was entered.
    Handler,
    /// A request is still to be waited for.
    Busy,
    /// The process was deleted.
    Gone,
    /// The request of this id was taken into service, or finished.
    Unit(Id),
    /// The time, in ticks.
    Time(u64),
}

/// A record: an event, what it came to, and its effects in order.
#[derive(Drop)]
pub struct Rec {
    pub event: Event,
    pub answer: Answer,
    pub effects: EffectList,
}

/// Records in order.
pub type Recs = Sequence<Rec>;

/// How a run ended.
#[derive(Clone, Copy, Debug, PartialEq, Eq)]
pub enum End {
    /// Nothing is enabled, and every process is deleted.
    Done,
    /// Nothing is enabled, and a process is not deleted.
    Hung,
    /// Something is enabled, and as many records were taken as the limit allows.
    Limit,
}
