//! The table of the services.

ghost use Rattle.std.specs.Prelude.{◌≡◌, ◌++◌, IsTrue, map, IfOk, OnOk, OnErr};
ghost use Rattle.vx_base.specs.Services.{service_rows, service_name, is_call};
ghost use Rattle.vx_table.specs.Rows.{row_of, is_table, HasLaws};
ghost use Rattle.vx_table.specs.Back.{ReadsBack};
ghost use Rattle.vx_table.specs.Reading as reading;
ghost use Rattle.vx_table.specs.Spelling.{call_text};

use crate::fail::CallFail;
use crate::print;
use crate::read::read_args;
use crate::slot::Slot;
use std::alloc::Global;
use std::marker::Model;
use vx_base::{Bytes, Call, Kind, NoMemory, Service};
use vx_text::{Tok, Token};

/// A row: a service and its arguments in order, and no argument after them.
#[derive(Clone, Copy, Debug)]
pub struct Row {
    pub service: Service,
    pub params: [Option<Slot>; 9],
}

/// A table of N services, which contracts see as its rows in order: a service with the arguments that it takes.
///
/// In a table no two rows have one name, a service takes at most nine arguments, and what stands for an argument that
/// is left out is of the argument's kind.
#[derive(Drop)]
pub struct ServiceTable<const N: usize> {
    rows: [Row; N],
}

impl<const N: usize> Model for ServiceTable<N> {
    ghost use Rattle.std.specs.Prelude.{List, IsTrue, map};
    ghost use Rattle.vx_base.specs.Services.{ServiceRow};
    ghost use Rattle.vx_table.specs.Rows.{row_of, is_table};

    ghost Value = { List ServiceRow };

    ghost view = { λ t. map row_of t.rows };

    ghost invariant = { λ t. IsTrue (is_table (map row_of t.rows)) };
}

// The rows: service, name, and the kinds of its arguments in order with their defaults. `$write` makes code of them,
// about the service `$of` if any. The arguments are named in the definitions of `vx_base`.
macro_rules! services {
    ($write:ident $($of:ident)?) => {
        $write! {
            $($of)?;
            SetEf "SETEF" [Value],
            ClrEf "CLREF" [Value],
            ReadEf "READEF" [Value, Target],
            WaitFr "WAITFR" [Value],
            WflOr "WFLOR" [Value, Value],
            WflAnd "WFLAND" [Value, Value],
            AscEfc "ASCEFC" [Value, Name, Value 0],
            DacEfc "DACEFC" [Value],
            DlcEfc "DLCEFC" [Name],
            DclAst "DCLAST" [Label, Value 0, Mode],
            SetAst "SETAST" [Value],
            CmExec "CMEXEC" [Label, Value 0],
            CmKrnl "CMKRNL" [Label, Value 0],
            SetImr "SETIMR" [Value 0, Value, LabelOrNone, Value 0],
            CanTim "CANTIM" [Value 0, Mode],
            SchdWk "SCHDWK" [Value 0, Value, Value 0],
            CanWak "CANWAK" [Value 0],
            Hiber "HIBER" [],
            Wake "WAKE" [Value 0],
            Suspnd "SUSPND" [Value 0],
            Resume "RESUME" [Value 0],
            ForceX "FORCEX" [Value 0, Value 1],
            CrePrc "CREPRC" [Target, Name],
            DelPrc "DELPRC" [Value 0],
            Exit "EXIT" [Value 1],
            DclExh "DCLEXH" [Label],
            CanExh "CANEXH" [LabelOrNone],
            Assign "ASSIGN" [Target, Name, Mode],
            Dassgn "DASSGN" [Value],
            CreMbx "CREMBX" [Target, Name, Value 0, Value 256, Value 1024, Mode],
            DelMbx "DELMBX" [Value],
            Qio "QIO" [Value 0, Value, Func, Value 0, LabelOrNone, Value 0, Value 0, Value 0, Value 0],
            QioW "QIOW" [Value 0, Value, Func, Value 0, LabelOrNone, Value 0, Value 0, Value 0, Value 0],
            Synch "SYNCH" [Value 0, Value 0],
            Cancel "CANCEL" [Value],
            GetTim "GETTIM" [Target],
        }
    };
}

// An argument of a kind. A number behind its kind is its default; kernel mode and no label are defaults too.
macro_rules! param {
    (Value $default:literal) => {
        Some(Slot::Number($default))
    };
    (LabelOrNone) => {
        Some(Slot::Label)
    };
    (Mode) => {
        Some(Slot::Mode)
    };
    ($kind:ident) => {
        Some(Slot::Required(Kind::$kind))
    };
}

// Nine places, the first ones taken.
macro_rules! places {
    () => {
        [None, None, None, None, None, None, None, None, None]
    };
    ($a:expr) => {
        [$a, None, None, None, None, None, None, None, None]
    };
    ($a:expr, $b:expr) => {
        [$a, $b, None, None, None, None, None, None, None]
    };
    ($a:expr, $b:expr, $c:expr) => {
        [$a, $b, $c, None, None, None, None, None, None]
    };
    ($a:expr, $b:expr, $c:expr, $d:expr) => {
        [$a, $b, $c, $d, None, None, None, None, None]
    };
    ($a:expr, $b:expr, $c:expr, $d:expr, $e:expr, $f:expr) => {
        [$a, $b, $c, $d, $e, $f, None, None, None]
    };
    ($a:expr, $b:expr, $c:expr, $d:expr, $e:expr, $f:expr, $g:expr, $h:expr, $i:expr) => {
        [$a, $b, $c, $d, $e, $f, $g, $h, $i]
    };
}

macro_rules! table_of {
    (; $($service:ident $name:literal [$($kind:ident $($default:literal)?),*],)*) => {
        [$(Row {
            service: Service::$service,
            params: places!($(param!($kind $($default)?)),*),
        },)*]
    };
}

macro_rules! name_of {
    ($of:ident; $($service:ident $name:literal [$($kind:ident $($default:literal)?),*],)*) => {
        match $of {
            $(Service::$service => $name,)*
        }
    };
}

/// The name of a service, in capitals and without its `$`.
pub fn service_name(service: Service) -> &'static str
    ensures { result.now ≡ service_name service }
{
    services!(name_of service)
}

// The rows of all services.
static ROWS: [Row; 36] = services!(table_of);

/// The table of all services.
pub fn service_table() -> ServiceTable<36>
    ensures rows { result ≡ service_rows }
    ensures laws { HasLaws result }
{
    ServiceTable::of_rows(ROWS)
}

// A call of a row's service, whose arguments these tokens are.
fn read_row(row: &Row, args: &[Token]) -> Result<Call, CallFail>
    ensures { result ≡ reading.read_row (row_of row.now) (reading.toks args.now) }
{
    match read_args(&row.params, args) {
        Ok(args) => Ok(Call {
            service: row.service,
            args,
        }),
        Err(fail) => Err(fail),
    }
}

impl<const N: usize> ServiceTable<N> {
    // The table of these rows.
    #[tactic(auto, using(crate::proofs::Laws::laws_of))]
    fn of_rows(rows: [Row; N]) -> ServiceTable<N>
        requires { IsTrue (is_table (map row_of rows)) }
        ensures rows { result ≡ map row_of rows.entry }
        ensures laws { HasLaws result }
    {
        ServiceTable { rows }
    }

    // A call of the service of this name, whose arguments these tokens are.
    fn read_named(&self, name: &[u8], args: &[Token]) -> Result<Call, CallFail>
        ensures { result ≡ reading.read_named self.now name.now (reading.toks args.now) }
    {
        for row in &self.rows {
            if service_name(row.service).as_bytes() == name {
                return read_row(row, args);
            }
        }
        Err(CallFail::UnknownService)
    }

    // The call that these tokens are.
    fn read_tokens(&self, tokens: &[Token]) -> Result<Call, CallFail>
        ensures { result ≡ reading.read_call self.now (reading.toks tokens.now) }
    {
        let [first, args @ ..] = tokens else {
            return Err(CallFail::UnknownService);
        };
        match &first.tok {
            Tok::Service(name) => self.read_named(name.text(), args),
            _ => Err(CallFail::UnknownService),
        }
    }

    /// Reads a call from its tokens: a service, and its arguments between commas. An argument without tokens takes its
    /// default. Of more than one fault the leftmost is given, and `Extra` comes last. Takes no memory.
    pub fn read_call(&self, tokens: &[Token]) -> Result<Call, CallFail>
        requires { reading.BeginsCall (reading.toks tokens.now) }
        ensures read { result ≡ reading.read_call self.now (reading.toks tokens.now) }
        ensures call { self.now ≡ service_rows → IfOk result (λ call. IsTrue (is_call call)) }
    {
        self.read_tokens(tokens)
    }

    /// Appends a call canonically, or changes nothing: `$` and its service's name, and all its arguments between commas
    /// behind a space. What it writes reads back as the same call.
    pub fn print_call(&self, alloc: Global, call: &Call, out: &mut Bytes) -> Result<(), NoMemory>
        requires { IsTrue (is_call call.now) }
        ensures ok { OnOk result (out.new ≡ out.old ++ call_text call.now) }
        ensures back { OnOk result (self.now ≡ service_rows → ReadsBack self.now call.now) }
        ensures err { OnErr result (out.new ≡ out.old) }
    {
        let text = print::call_text(alloc, call)?;
        out.push_all(text.as_slice())
    }
}
