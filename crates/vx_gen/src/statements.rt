//! The statements of the generated images.

ghost use Rattle.std.specs.Prelude.{◌≡◌, IsTrue};
ghost use Rattle.vx_base.specs.Name.{is_name};
ghost use Rattle.vx_gen.specs.Generated as spec;

use vx_base::{Arg, Args, Call, Func, Mode, Name, Operand, Service, Target};
use vx_image::{Rel, Stmt};

const NO_ARGS: Args = Args {
    a0: Arg::Unused,
    a1: Arg::Unused,
    a2: Arg::Unused,
    a3: Arg::Unused,
    a4: Arg::Unused,
    a5: Arg::Unused,
    a6: Arg::Unused,
    a7: Arg::Unused,
    a8: Arg::Unused,
};

/// The name that a text is.
pub fn name(text: &[u8]) -> Name
    requires { IsTrue (is_name text.now) }
    ensures { result ≡ text.now }
{
    match Name::new(text) {
        Some(name) => name,
        None => unreachable!(),
    }
}

fn number(n: u32) -> Arg
    ensures { result ≡ spec.number n }
{
    Arg::Value(Operand::Num(n))
}

fn variable(letter: u8) -> Arg
    ensures { result ≡ spec.variable letter }
{
    Arg::Target(Target::Var(letter))
}

fn calls(service: Service, args: Args) -> Stmt
    ensures { result ≡ spec.calls service args }
{
    Stmt::Service(Call { service, args })
}

/// `$CREMBX M,BOX,0,80,65535`.
pub fn makes_mailbox() -> Stmt
    ensures { result ≡ spec.makes_mailbox }
{
    calls(
        Service::CreMbx,
        Args {
            a0: variable(b'M'),
            a1: Arg::Name(name(b"BOX")),
            a2: number(0),
            a3: number(80),
            a4: number(65_535),
            a5: Arg::Mode(Mode::Kernel),
            ..NO_ARGS
        },
    )
}

/// `$ASSIGN D,DK`.
pub fn assigns_unit() -> Stmt
    ensures { result ≡ spec.assigns_unit }
{
    calls(
        Service::Assign,
        Args {
            a0: variable(b'D'),
            a1: Arg::Name(name(b"DK")),
            a2: Arg::Mode(Mode::Kernel),
            ..NO_ARGS
        },
    )
}

/// `$QIOW n,channel,func,n,,,0,len,block`, where a variable holds the channel.
pub fn requests(n: u32, channel: u8, func: Func, len: u32, block: Operand) -> Stmt
    ensures { result ≡ spec.requests n channel func len block }
{
    calls(
        Service::QioW,
        Args {
            a0: number(n),
            a1: Arg::Value(Operand::Var(channel)),
            a2: Arg::Func(func),
            a3: number(n),
            a4: Arg::Label(None),
            a5: number(0),
            a6: number(0),
            a7: number(len),
            a8: Arg::Value(block),
        },
    )
}

/// `LET v = v + 1`.
pub fn adds_one(letter: u8) -> Stmt
    ensures { result ≡ spec.adds_one letter }
{
    Stmt::Add(Target::Var(letter), Operand::Var(letter), Operand::Num(1))
}

/// `IF v LT n GOTO NEXT`, where NEXT is the image's first label.
pub fn repeats_below(letter: u8, n: u32) -> Stmt
    ensures { result ≡ spec.repeats_below letter n }
{
    Stmt::If(Operand::Var(letter), Rel::Lt, Operand::Num(n), 0)
}

/// `$EXIT`.
pub fn exits() -> Stmt
    ensures { result ≡ spec.exits }
{
    calls(
        Service::Exit,
        Args {
            a0: number(1),
            ..NO_ARGS
        },
    )
}
