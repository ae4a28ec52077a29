//! The system services by name, and the kinds of their arguments.
//!
//! The services are those of the "OpenVMS System Services Reference Manual", where each has its entry. What arguments
//! each takes here, in which order and with which defaults, is this project's own: `specs/Services.antt`.

use crate::call::Arg;

/// A system service.
#[derive(Clone, Copy, Debug, PartialEq, Eq)]
pub enum Service {
    /// $SETEF: sets an event flag.
    SetEf,
    /// $CLREF: clears an event flag.
    ClrEf,
    /// $READEF: reads the flags of a cluster.
    ReadEf,
    /// $WAITFR: waits for an event flag.
    WaitFr,
    /// $WFLOR: waits for any of several event flags.
    WflOr,
    /// $WFLAND: waits for all of several event flags.
    WflAnd,
    /// $ASCEFC: associates a common event flag cluster.
    AscEfc,
    /// $DACEFC: dissociates one.
    DacEfc,
    /// $DLCEFC: marks a permanent one for deletion.
    DlcEfc,
    /// $DCLAST: declares an AST.
    DclAst,
    /// $SETAST: enables or disables AST delivery.
    SetAst,
    /// $CMEXEC: runs a routine in executive mode.
    CmExec,
    /// $CMKRNL: runs a routine in kernel mode.
    CmKrnl,
    /// $SETIMR: sets a timer.
    SetImr,
    /// $CANTIM: cancels timers.
    CanTim,
    /// $SCHDWK: schedules a wake.
    SchdWk,
    /// $CANWAK: cancels scheduled wakes.
    CanWak,
    /// $HIBER: hibernates.
    Hiber,
    /// $WAKE: wakes a process.
    Wake,
    /// $SUSPND: suspends a process.
    Suspnd,
    /// $RESUME: resumes a process.
    Resume,
    /// $FORCEX: forces a process to exit.
    ForceX,
    /// $CREPRC: creates a process.
    CrePrc,
    /// $DELPRC: deletes a process.
    DelPrc,
    /// $EXIT: exits.
    Exit,
    /// $DCLEXH: declares an exit handler.
    DclExh,
    /// $CANEXH: cancels exit handlers.
    CanExh,
    /// $ASSIGN: assigns a channel.
    Assign,
    /// $DASSGN: deassigns a channel.
    Dassgn,
    /// $CREMBX: creates a mailbox, and assigns a channel to it.
    CreMbx,
    /// $DELMBX: marks a permanent mailbox for deletion.
    DelMbx,
    /// $QIO: queues a request to a device.
    Qio,
    /// $QIOW: queues a request, and waits for it.
    QioW,
    /// $SYNCH: waits for a request.
    Synch,
    /// $CANCEL: cancels the requests on a channel.
    Cancel,
    /// $GETTIM: reads the time.
    GetTim,
}

/// What an argument of a call may be.
#[derive(Clone, Copy, Debug, PartialEq, Eq)]
pub enum Kind {
    /// A value: a number, condition, variable, R0, PID or PRM.
    Value,
    /// A variable or R0, for an answer.
    Target,
    /// An access mode.
    Mode,
    /// A name.
    Name,
    /// A label of the image.
    Label,
    /// A label of the image, or none.
    LabelOrNone,
    /// A function of a request.
    Func,
}

/// An argument that a service takes: its kind, and what stands in its place, if it may be left out.
#[derive(Clone, Copy, Debug)]
pub enum Param {
    /// It must be there.
    Required(Kind),
    /// It may be left out, and is this then.
    Optional(Kind, Arg),
}
