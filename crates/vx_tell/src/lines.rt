//! The lines that a call writes beside what it was asked for.

ghost use Rattle.std.specs.Prelude.{◌≡◌, IfOk};
ghost use Rattle.vx_tell.specs.Lines.{fault_line, form_line, kind_word};

use std::alloc::Global;
use vx_base::{Bytes, NoMemory};
use vx_script::{FaultKind, ScriptFault};
use vx_text::print_num;

fn kind_word(kind: FaultKind) -> &'static [u8]
    ensures { result.now ≡ kind_word kind }
{
    match kind {
        FaultKind::Byte => b"BYTE",
        FaultKind::Quote => b"QUOTE",
        FaultKind::Number => b"NUMBER",
        FaultKind::Name => b"NAME",
        FaultKind::Word => b"WORD",
        FaultKind::Service => b"SERVICE",
        FaultKind::Argument => b"ARGUMENT",
        FaultKind::Range => b"RANGE",
        FaultKind::Twice => b"TWICE",
        FaultKind::Unknown => b"UNKNOWN",
        FaultKind::Extra => b"EXTRA",
        FaultKind::Missing => b"MISSING",
        FaultKind::End => b"END",
        FaultKind::Size => b"SIZE",
    }
}

/// The line of a script's fault.
pub fn fault_line(alloc: Global, fault: ScriptFault) -> Result<Bytes, NoMemory>
    ensures { IfOk result (λ text. text ≡ fault_line fault) }
{
    let mut text = Bytes::new(alloc);
    text.push_all(b"vms: line ")?;
    print_num(&mut text, u64::from(fault.line))?;
    text.push_all(b" ")?;
    text.push_all(kind_word(fault.kind))?;
    text.push_all(b"\n")?;
    Ok(text)
}

/// The line of a transcript's first bad line.
pub fn form_line(alloc: Global, line: u32) -> Result<Bytes, NoMemory>
    ensures { IfOk result (λ text. text ≡ form_line line) }
{
    let mut text = Bytes::new(alloc);
    text.push_all(b"vms: line ")?;
    print_num(&mut text, u64::from(line))?;
    text.push_all(b" FORM\n")?;
    Ok(text)
}
