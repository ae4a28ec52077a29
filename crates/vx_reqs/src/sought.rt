//! What is looked for among the requests.

ghost use Rattle.std.specs.Prelude.{◌≡◌};
ghost use Rattle.vx_reqs.specs.Sought.{is_sought};

use crate::outstanding::Outstanding;
use vx_base::{BoxNo, Id, Mode, Pid, Routine, UnitNo};

/// A kind of request.
#[derive(Clone, Copy, Debug)]
pub(crate) enum Sought {
    /// The one with this id.
    WithId(Id),
    /// The one that this unit serves.
    ServedBy(UnitNo),
    /// One that waits for this unit.
    WaitingFor(UnitNo),
    /// A read that waits at this mailbox.
    WaitingAt(BoxNo),
    /// One of this process, on this channel, that is still to be cancelled.
    ToCancel(Pid, u32),
    /// One of this process, on a channel of this mode or an outer one.
    Open(Pid, Mode),
}

impl Sought {
    /// Whether a request is of this kind.
    pub(crate) fn is<R: Routine>(self, request: &Outstanding<R>) -> bool
        ensures { result ≡ is_sought self request.now }
    {
        match self {
            Sought::WithId(id) => request.has_id(id),
            Sought::ServedBy(u) => request.is_served_by(u),
            Sought::WaitingFor(u) => request.waits_for(u),
            Sought::WaitingAt(b) => request.waits_at(b),
            Sought::ToCancel(p, chan) => request.is_to_cancel(p, chan),
            Sought::Open(p, mode) => request.keeps_open(p, mode),
        }
    }
}
