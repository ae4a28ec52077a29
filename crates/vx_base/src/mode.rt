//! Access modes.

ghost use Rattle.std.specs.Prelude.{◌≡◌};
ghost use Rattle.vx_base.specs.Modes.{rank, outer};

/// An access mode, the innermost and most privileged first.
#[derive(Clone, Copy, Debug, PartialEq, Eq)]
pub enum Mode {
    /// Kernel, 0.
    Kernel,
    /// Executive, 1.
    Exec,
    /// Supervisor, 2.
    Super,
    /// User, 3.
    User,
}

impl Mode {
    /// Its number, 0 for kernel to 3 for user: a smaller one is further in.
    pub fn rank(self) -> u8
        ensures { result ≡ rank self }
    {
        match self {
            Mode::Kernel => 0,
            Mode::Exec => 1,
            Mode::Super => 2,
            Mode::User => 3,
        }
    }
}

/// The outer, less privileged one of two modes.
pub fn outer_of(a: Mode, b: Mode) -> Mode
    ensures { result ≡ outer a b }
{
    if a.rank() < b.rank() { b } else { a }
}
