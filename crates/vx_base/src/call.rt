//! Calls of system services.

ghost use Rattle.std.specs.Prelude.{◌≡◌, ◌↔◌, IsTrue};

use crate::cond::Cond;
use crate::mode::Mode;
use crate::name::Name;
use crate::request::Func;
use crate::service::Service;

/// What a value is read from.
#[derive(Clone, Copy, Debug, PartialEq, Eq)]
pub enum Operand {
    /// A number.
    Num(u32),
    /// A condition's number.
    Cond(Cond),
    /// A variable, by its capital letter.
    Var(u8),
    /// Register 0.
    R0,
    /// The number of the process.
    Pid,
    /// The parameter of the top frame.
    Prm,
}

/// What a value is written to.
#[derive(Clone, Copy, Debug, PartialEq, Eq)]
pub enum Target {
    /// A variable, by its capital letter.
    Var(u8),
    /// Register 0, which also takes each service's condition.
    R0,
}

/// An argument of a call.
#[derive(Clone, Copy, Debug, PartialEq, Eq)]
pub enum Arg {
    /// A value.
    Value(Operand),
    /// A place for an answer.
    Target(Target),
    /// An access mode.
    Mode(Mode),
    /// The name of a device, mailbox, cluster or process declaration.
    Name(Name),
    /// A label of the image, or none.
    Label(Option<Name>),
    /// A function of a request.
    Func(Func),
    /// No argument: the service has fewer.
    Unused,
}

/// The arguments of a call in order, and `Unused` after them.
#[derive(Clone, Copy, Debug)]
pub struct Args {
    pub a0: Arg,
    pub a1: Arg,
    pub a2: Arg,
    pub a3: Arg,
    pub a4: Arg,
    pub a5: Arg,
    pub a6: Arg,
    pub a7: Arg,
    pub a8: Arg,
}

impl Args {
    /// Whether they are the same as others.
    pub fn same(&self, other: &Args) -> bool
        ensures { IsTrue result ↔ (self.now ≡ other.now) }
    {
        self.same_first(other) && self.same_middle(other) && self.same_last(other)
    }

    // The first three.
    fn same_first(&self, other: &Args) -> bool
        ensures { IsTrue result ↔ ((self.now.a0 ≡ other.now.a0) × (self.now.a1 ≡ other.now.a1) × (self.now.a2 ≡ other.now.a2)) }
    {
        self.a0 == other.a0 && self.a1 == other.a1 && self.a2 == other.a2
    }

    // The three after them.
    fn same_middle(&self, other: &Args) -> bool
        ensures { IsTrue result ↔ ((self.now.a3 ≡ other.now.a3) × (self.now.a4 ≡ other.now.a4) × (self.now.a5 ≡ other.now.a5)) }
    {
        self.a3 == other.a3 && self.a4 == other.a4 && self.a5 == other.a5
    }

    // The last three.
    fn same_last(&self, other: &Args) -> bool
        ensures { IsTrue result ↔ ((self.now.a6 ≡ other.now.a6) × (self.now.a7 ≡ other.now.a7) × (self.now.a8 ≡ other.now.a8)) }
    {
        self.a6 == other.a6 && self.a7 == other.a7 && self.a8 == other.a8
    }
}

/// A call of a service with its arguments.
#[derive(Clone, Copy, Debug)]
pub struct Call {
    pub service: Service,
    pub args: Args,
}

impl Call {
    /// Whether it is the same as another.
    pub fn same(&self, other: &Call) -> bool
        ensures { IsTrue result ↔ (self.now ≡ other.now) }
    {
        self.service == other.service && self.args.same(&other.args)
    }
}
