//! The canonical lines of a unit.

ghost use Rattle.std.specs.Prelude.{OnOk, [], ◌++◌, ◌∷◌, ◌≡◌, map};
ghost use Rattle.vx_script.specs.Script as spec;
ghost use Rattle.vx_script.specs.Script.{ended_lines, spaced};

use crate::print_word::{print_number, print_text, print_word};
use vx_base::{Bytes, Name, NoMemory};
use vx_image::UnitDecl;

fn print_kind(blocks: u32, out: &mut Bytes) -> Result<(), NoMemory>
    ensures { OnOk result (out.new ≡ out.old ++ spaced (spec.kind_words blocks)) }
{
    if blocks == 0 {
        return print_word(b"LINE", out);
    }
    print_word(b"BLOCK", out)?;
    print_number(blocks, out)
}

fn print_head(unit: &UnitDecl, out: &mut Bytes) -> Result<(), NoMemory>
    ensures { OnOk result (out.new ≡ out.old ++ (spec.unit_line unit.now ++ 10 ∷ [])) }
{
    out.push_all(b"UNIT")?;
    print_word(unit.name.text(), out)?;
    print_kind(unit.blocks, out)?;
    out.push_all(b"\n")
}

fn print_input(name: &Name, bytes: &[u8], out: &mut Bytes) -> Result<(), NoMemory>
    ensures { OnOk result (out.new ≡ out.old ++ (spec.input_line name.now bytes.now ++ 10 ∷ [])) }
{
    out.push_all(b"INPUT")?;
    print_word(name.text(), out)?;
    print_text(bytes, out)?;
    out.push_all(b"\n")
}

fn print_inputs(name: &Name, inputs: &[Bytes], out: &mut Bytes) -> Result<(), NoMemory>
    ensures { OnOk result (out.new ≡ out.old ++ ended_lines (map (spec.input_line name.now) inputs.now)) }
{
    for bytes in inputs {
        print_input(name, bytes.as_slice(), out)?;
    }
    Ok(())
}

fn print_fault(name: &Name, n: u32, out: &mut Bytes) -> Result<(), NoMemory>
    ensures { OnOk result (out.new ≡ out.old ++ (spec.fault_line name.now n ++ 10 ∷ [])) }
{
    out.push_all(b"FAULT")?;
    print_word(name.text(), out)?;
    print_number(n, out)?;
    out.push_all(b"\n")
}

fn print_faults(name: &Name, faults: &[u32], out: &mut Bytes) -> Result<(), NoMemory>
    ensures { OnOk result (out.new ≡ out.old ++ ended_lines (map (spec.fault_line name.now) faults.now)) }
{
    for n in faults {
        print_fault(name, *n, out)?;
    }
    Ok(())
}

/// Appends a unit, the lines that it reads and its faults.
pub fn print_unit(unit: &UnitDecl, out: &mut Bytes) -> Result<(), NoMemory>
    ensures { OnOk result (out.new ≡ out.old ++ ended_lines (spec.unit_lines unit.now)) }
{
    print_head(unit, out)?;
    print_inputs(&unit.name, unit.inputs.as_slice(), out)?;
    print_faults(&unit.name, unit.faults.as_slice(), out)
}
