//! The canonical spelling of calls.

ghost use Rattle.std.specs.Prelude.{◌≡◌, ◌++◌, OnOk, IfOk};
ghost use Rattle.vx_base.specs.Services.{args_list, is_unused};
ghost use Rattle.vx_table.specs.Spelling as spec;
ghost use Rattle.vx_table.specs.Back.{IsHeldOperand, IsHeldLabel, IsHeld, AreHeld};

use crate::table::service_name;
use std::alloc::Global;
use vx_base::{Arg, Args, Bytes, Call, Func, Mode, Name, NoMemory, Operand, Target};
use vx_text::print_num;

/// The name of an access mode, in capitals.
pub fn mode_name(mode: Mode) -> &'static [u8]
    ensures { result.now ≡ spec.mode_name mode }
{
    match mode {
        Mode::Kernel => b"KERNEL",
        Mode::Exec => b"EXEC",
        Mode::Super => b"SUPER",
        Mode::User => b"USER",
    }
}

/// The name of $QIO's function, in capitals.
fn func_name(func: Func) -> &'static [u8]
    ensures { result.now ≡ spec.func_name func }
{
    match func {
        Func::Read => b"READ",
        Func::ReadNow => b"READNOW",
        Func::Write => b"WRITE",
        Func::WriteNow => b"WRITENOW",
        Func::Eof => b"EOF",
        Func::EofNow => b"EOFNOW",
        Func::ReadAttn => b"READATTN",
        Func::WrtAttn => b"WRTATTN",
    }
}

/// Appends `SS$_` and the condition's name.
fn print_cond(cond: vx_base::Cond, out: &mut Bytes) -> Result<(), NoMemory>
    ensures { OnOk result (out.new ≡ out.old ++ spec.cond_text cond) }
{
    out.push_all(b"SS$_")?;
    out.push_all(cond.name().as_bytes())
}

/// Appends a value: a number in decimal, a condition, a variable's letter, or `R0`, `PID`, `PRM`.
pub fn print_operand(operand: Operand, out: &mut Bytes) -> Result<(), NoMemory>
    ensures text { OnOk result (out.new ≡ out.old ++ spec.operand_text operand) }
    ensures held { IsHeldOperand operand }
{
    match operand {
        Operand::Num(n) => print_num(out, u64::from(n)),
        Operand::Cond(cond) => print_cond(cond, out),
        Operand::Var(letter) => out.push_all(&[letter]),
        Operand::R0 => out.push_all(b"R0"),
        Operand::Pid => out.push_all(b"PID"),
        Operand::Prm => out.push_all(b"PRM"),
    }
}

/// Appends a variable that a service writes: its letter, or `R0`.
pub fn print_target(target: Target, out: &mut Bytes) -> Result<(), NoMemory>
    ensures { OnOk result (out.new ≡ out.old ++ spec.target_text target) }
{
    match target {
        Target::Var(letter) => out.push_all(&[letter]),
        Target::R0 => out.push_all(b"R0"),
    }
}

/// Appends a label's name, or `-` for none.
fn print_label(label: Option<Name>, out: &mut Bytes) -> Result<(), NoMemory>
    ensures text { OnOk result (out.new ≡ out.old ++ spec.label_text label) }
    ensures held { IsHeldLabel label }
{
    match label {
        Some(name) => out.push_all(name.text()),
        None => out.push_all(b"-"),
    }
}

/// Appends an argument in the spelling of its kind, and nothing for one that is unused.
fn print_arg(arg: &Arg, out: &mut Bytes) -> Result<(), NoMemory>
    ensures text { OnOk result (out.new ≡ out.old ++ spec.arg_text arg.now) }
    ensures held { IsHeld arg.now }
{
    match *arg {
        Arg::Value(operand) => print_operand(operand, out),
        Arg::Target(target) => print_target(target, out),
        Arg::Mode(mode) => out.push_all(mode_name(mode)),
        Arg::Name(name) => out.push_all(name.text()),
        Arg::Label(label) => print_label(label, out),
        Arg::Func(func) => out.push_all(func_name(func)),
        Arg::Unused => Ok(()),
    }
}

/// Whether the argument stands behind the last one of its service.
fn is_unused(arg: &Arg) -> bool
    ensures { result ≡ is_unused arg.now }
{
    matches!(arg, Arg::Unused)
}

/// Appends the arguments up to the first unused one, with a space before the first and a comma before each other.
fn print_args(args: &[Arg], out: &mut Bytes) -> Result<(), NoMemory>
    ensures text { OnOk result (out.new ≡ out.old ++ spec.args_text 32 args.now) }
    ensures held { OnOk result (AreHeld args.now) }
{
    let mut before = b' ';
    for arg in args {
        if is_unused(arg) {
            return Ok(());
        }
        out.push_all(&[before])?;
        print_arg(arg, out)?;
        before = b',';
    }
    Ok(())
}

/// The nine arguments of a call in order.
pub fn args_list(args: &Args) -> [Arg; 9]
    ensures { result ≡ args_list args.now }
{
    [
        args.a0, args.a1, args.a2, args.a3, args.a4, args.a5, args.a6, args.a7, args.a8,
    ]
}

/// Appends the canonical text of a call: `$` and its service's name, and all its arguments behind a space, between commas. If
/// memory runs out, it may have appended the start of it.
pub fn append_call(call: &Call, out: &mut Bytes) -> Result<(), NoMemory>
    ensures text { OnOk result (out.new ≡ out.old ++ spec.call_text call.now) }
    ensures held { OnOk result (AreHeld (args_list call.now.args)) }
{
    out.push_all(b"$")?;
    out.push_all(service_name(call.service).as_bytes())?;
    print_args(&args_list(&call.args), out)
}

/// The canonical text of a call. Takes memory, and refuses nothing else.
pub(crate) fn call_text(alloc: Global, call: &Call) -> Result<Bytes, NoMemory>
    ensures text { IfOk result (λ text. text ≡ spec.call_text call.now) }
    ensures held { OnOk result (AreHeld (args_list call.now.args)) }
{
    let mut text = Bytes::new(alloc);
    append_call(call, &mut text)?;
    Ok(text)
}
