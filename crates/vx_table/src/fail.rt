//! Why tokens are no call.

/// Why tokens are no call. Arguments are numbered from 1.
#[derive(Clone, Copy, Debug, PartialEq, Eq)]
pub enum CallFail {
    /// No service has the name.
    UnknownService,
    /// This argument is not of its kind.
    Argument(u8),
    /// This argument is left out, and has no default.
    Missing(u8),
    /// There are more arguments than the service takes. It comes if no argument has a fault.
    Extra,
}
