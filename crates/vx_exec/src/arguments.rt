//! The arguments of a call, read as a service wants them.

ghost use Rattle.std.specs.Prelude.{◌≡◌, ◌<◌, ◌≤◌, IfSome, IsTrue, bytes_eq, length, option_map, position};
ghost use Rattle.vx_base.specs.Services.{is_of_kind};
ghost use Rattle.vx_base.specs.declared.service.Kind.TheVariants.{Name as name_kind};
ghost use Rattle.vx_record.specs.Services.{access_mode, decl_place, function, label_place, number, place, routine, routine_or_none, text};
ghost use Rattle.vx_exec.specs.Asked.{asking_of};
ghost use Rattle.vx_exec.specs.Ready.{IsSet};

use vx_base::{Arg, Args, Entry, Func, Mode, Name, Operand, Pid, Routine, Target};
use vx_image::{Image, Label, ProcDecl};
use vx_io::Asking;
use vx_procs::Core;

/// The number that an argument is.
pub(crate) fn number(arg: &Arg) -> u32
    ensures { result ≡ number arg.now }
{
    match arg {
        Arg::Value(Operand::Num(n)) => *n,
        _ => 0,
    }
}

/// The place for an answer that an argument is.
pub(crate) fn place(arg: &Arg) -> Target
    ensures { result ≡ place arg.now }
{
    match arg {
        Arg::Target(target) => *target,
        _ => Target::R0,
    }
}

/// The name that an argument is.
pub(crate) fn name_of(arg: &Arg) -> Name
    requires { IsTrue (is_of_kind name_kind arg.now) }
    ensures { result ≡ text arg.now }
{
    match arg {
        Arg::Name(name) => *name,
        _ => unreachable!(),
    }
}

/// The access mode that an argument is.
pub(crate) fn access_mode(arg: &Arg) -> Mode
    ensures { result ≡ access_mode arg.now }
{
    match arg {
        Arg::Mode(mode) => *mode,
        _ => Mode::Kernel,
    }
}

// The function that an argument is.
fn function(arg: &Arg) -> Func
    ensures { result ≡ function arg.now }
{
    match arg {
        Arg::Func(func) => *func,
        _ => Func::Read,
    }
}

/// The bytes of the name that an argument is; none if it is no name.
pub(crate) fn text(arg: &Arg) -> &[u8]
    ensures { result.now ≡ text arg.now }
{
    match arg {
        Arg::Name(name) => name.text(),
        _ => b"".as_slice(),
    }
}

fn is_named(label: &Label, name: &[u8]) -> bool
    ensures { result ≡ bytes_eq label.now.name name.now }
{
    label.name.text() == name
}

// Where a label of a name stands among labels.
fn position_of(labels: &[Label], name: &[u8]) -> Option<usize>
    ensures place { result ≡ position (λ label. bytes_eq label.name name.now) labels.now }
    ensures within { IfSome result (λ place. place < length labels.now) }
{
    labels.iter().position(|label| is_named(label, name))
}

// The label's index in the image, from 0, or 0 if no label has that name. Goes over the labels.
fn label_place(image: &Image, name: &[u8]) -> u32
    requires { length image.now.labels < 4294967296 }
    ensures { result ≡ label_place image.now name.now }
{
    match position_of(image.labels.as_slice(), name) {
        Some(place) => place as u32,
        None => 0,
    }
}

fn is_declared(decl: &ProcDecl, name: &[u8]) -> bool
    ensures { result ≡ bytes_eq decl.now.name name.now }
{
    decl.name.text() == name
}

// Where a process declaration of a name stands among declarations.
fn position_of_decl(decls: &[ProcDecl], name: &[u8]) -> Option<usize>
    ensures place { result ≡ position (λ decl. bytes_eq decl.name name.now) decls.now }
    ensures within { IfSome result (λ place. place < length decls.now) }
{
    decls.iter().position(|decl| is_declared(decl, name))
}

/// The place of the process declaration of a name, from 0; 0 if there is none. Goes over the declarations.
pub(crate) fn decl_place<R: Routine>(core: &Core<R>, name: &[u8]) -> u32
    requires some { 0 < length core.now.state.system.decls }
    requires few { length core.now.state.system.decls ≤ 1000 }
    ensures place { result ≡ decl_place core.now.state name.now }
    ensures within { result < length core.now.state.system.decls }
{
    match position_of_decl(core.system().decls.as_slice(), name) {
        Some(place) => place as u32,
        None => 0,
    }
}

/// The routine at the label that an argument names, with a parameter.
#[tactic(auto, using(crate::proofs::Served::few_labels))]
pub(crate) fn routine<R: Routine>(core: &Core<R>, p: Pid, arg: &Arg, prm: u32) -> R
    requires set { IsSet core.now p }
    ensures { R.tagged result ≡ routine core.now.state p arg.now prm }
{
    let place = match arg {
        Arg::Label(Some(name)) => label_place(core.image(p), name.text()),
        _ => label_place(core.image(p), b"".as_slice()),
    };
    R::scripted(Entry::Label(place, prm))
}

/// The tag of the routine at the label that an argument names, if it names one.
#[tactic(auto, using(crate::proofs::Served::few_labels))]
pub(crate) fn entry_or_none<R: Routine>(core: &Core<R>, p: Pid, arg: &Arg) -> Option<Entry>
    requires set { IsSet core.now p }
    ensures { result ≡ routine_or_none core.now.state p arg.now 0 }
{
    match arg {
        Arg::Label(Some(name)) => Some(Entry::Label(label_place(core.image(p), name.text()), 0)),
        _ => None,
    }
}

/// The routine at the label that an argument names, if it names one, with a parameter.
pub(crate) fn routine_or_none<R: Routine>(core: &Core<R>, p: Pid, arg: &Arg, prm: u32) -> Option<R>
    requires set { IsSet core.now p }
    ensures { option_map R.tagged result ≡ routine_or_none core.now.state p arg.now prm }
{
    match arg {
        Arg::Label(Some(_)) => Some(routine(core, p, arg, prm)),
        _ => None,
    }
}

/// What the arguments of a request ask, but for its AST.
pub(crate) fn asking(args: &Args) -> Asking
    ensures { result ≡ asking_of args.now }
{
    Asking {
        efn: number(&args.a0),
        chan: number(&args.a1),
        func: function(&args.a2),
        iosb: number(&args.a3),
        buf: number(&args.a6),
        len: number(&args.a7),
        blk: number(&args.a8),
    }
}
