//! Numbers that name things.

/// A process's number: the processes of a run are numbered from 1, and no number is used again.
#[derive(Clone, Copy, Debug, PartialEq, Eq)]
pub struct Pid(pub u32);

/// The number of whatever a run opens: a request, timer, wake, AST, attention entry or exit handler. One counter gives
/// them all, from 1.
#[derive(Clone, Copy, Debug, PartialEq, Eq)]
pub struct Id(pub u32);

/// A device unit, by its place among the script's units, from 0.
#[derive(Clone, Copy, Debug, PartialEq, Eq)]
pub struct UnitNo(pub u32);

/// A mailbox, by its place in the table of mailboxes, from 0.
#[derive(Clone, Copy, Debug, PartialEq, Eq)]
pub struct BoxNo(pub u32);
