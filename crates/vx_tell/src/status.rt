//! The ways in which a call ends.

ghost use Rattle.std.specs.Prelude.{◌≡◌};

use vx_base::End;

/// What a call answers.
#[derive(Clone, Copy, Debug, PartialEq, Eq)]
pub enum Status {
    /// The run ended with every process deleted, and its text was written or is the machine's; of `explore`, every run ends so. Or the
    /// canonical script was written.
    Done,
    /// The run ended with nothing enabled and a process that is not deleted; of `explore`, some run ends so, and the limit stopped none.
    Hung,
    /// The words are no command's.
    Words,
    /// The input is no script, or for `check` and `draw` no transcript.
    Form,
    /// The run reached its limit with an event enabled; of `explore`, some run did.
    Limit,
    /// The transcript is cut, or is not the machine's; or a record has no event at the place that the words name for it.
    Illegal,
    /// The source failed.
    ReadFault,
    /// The sink failed, after the start of a text.
    WriteFault,
    /// Memory ran out.
    NoMemory,
    /// The input is longer than 67,108,864 bytes.
    TooLong,
    /// More states would have been kept than the words allow.
    Cut,
}

impl Status {
    ghost use Rattle.vx_tell.specs.Code.{code_of};

    /// The exit status of the program.
    pub fn code(self) -> u8
        ensures { result ≡ code_of self }
    {
        match self {
            Status::Done => 0,
            Status::Hung => 1,
            Status::Words => 2,
            Status::Form => 3,
            Status::Limit => 4,
            Status::Illegal => 5,
            Status::ReadFault => 6,
            Status::WriteFault => 7,
            Status::NoMemory => 8,
            Status::TooLong => 9,
            Status::Cut => 10,
        }
    }
}

impl From<End> for Status {
    ghost use Rattle.std.specs.Prelude.{◌≡◌};
    ghost use Rattle.vx_tell.specs.Code.{status_of_end};

    ghost from_gives = { λ end status. status ≡ status_of_end end };

    fn from(end: End) -> Self {
        match end {
            End::Done => Status::Done,
            End::Hung => Status::Hung,
            End::Limit => Status::Limit,
        }
    }
}
