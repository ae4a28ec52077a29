//! How a process stands when a run is over.

/// How a process stands when a run is over: the first that fits.
#[derive(Clone, Copy, Debug, PartialEq, Eq)]
pub enum Standing {
    /// It is deleted.
    Gone,
    /// It is suspended.
    Susp,
    /// It has no frame.
    Rundown,
    /// Its top frame waits for a wake.
    Hiber,
    /// Its top frame waits for event flags.
    Flag,
    /// It can run.
    Active,
}
