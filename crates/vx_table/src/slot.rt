//! What a row of the table says of one argument.

ghost use Rattle.std.specs.Prelude.{◌≡◌};
ghost use Rattle.vx_table.specs.Rows.{param_of};

use vx_base::{Arg, Kind, Mode, Operand, Param};

/// An argument of a row: its kind, and what stands in its place, if it may be left out. It has no `Arg` in it, which would have
/// room for a name: so a row is small.
#[derive(Clone, Copy, Debug)]
pub enum Slot {
    /// It must be there.
    Required(Kind),
    /// A value; if it is left out, this number.
    Number(u32),
    /// A mode; if it is left out, kernel mode.
    Mode,
    /// A label; if it is left out, none.
    Label,
}

impl Slot {
    /// The argument that a service takes.
    pub fn param(self) -> Param
        ensures { result ≡ param_of self }
    {
        match self {
            Slot::Required(kind) => Param::Required(kind),
            Slot::Number(n) => Param::Optional(Kind::Value, Arg::Value(Operand::Num(n))),
            Slot::Mode => Param::Optional(Kind::Mode, Arg::Mode(Mode::Kernel)),
            Slot::Label => Param::Optional(Kind::LabelOrNone, Arg::Label(None)),
        }
    }
}
