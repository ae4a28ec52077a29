//! Prints what a trailer says of the processes, and of what the units have put out, each line behind a lead.
//!
//! Each function appends its text. If memory runs out, it may have appended the start of it.

ghost use Rattle.std.specs.Prelude.{◌≡◌, ◌<◌, ◌++◌, ◌∷◌, [], OnOk, length};
ghost use Rattle.vx_record.specs.State.{IsProcess, process_at, unit_at};
ghost use Rattle.vx_units.specs.Units.{outputs_of};
ghost use Rattle.vx_lines.specs.Records.{unit_name};
ghost use Rattle.vx_journal.specs.Transcript.{output_lines, process_line, process_lines, unit_lines};
ghost use Rattle.vx_trailer.specs.Outcome.{led_lines, outcome_text};

use vx_base::{Bytes, NoMemory, Pid, Scripted, UnitNo};
use vx_exec::Exec;
use vx_journal::{print_output, print_standing};
use vx_lines::unit_name;

// Appends the PROCESS line of p.
fn print_process(exec: &Exec<Scripted>, p: Pid, out: &mut Bytes) -> Result<(), NoMemory>
    requires { IsProcess exec.now.state p }
    ensures { OnOk result (out.new ≡ out.old
        ++ (process_line exec.now.state.system p.0 (process_at exec.now.state p) ++ 10 ∷ [])) }
{
    let (name, standing, code) = exec.standing(p);
    print_standing(p, name, standing, code, out)
}

// Appends the PROCESS lines.
fn print_processes(exec: &Exec<Scripted>, lead: &[u8], out: &mut Bytes) -> Result<(), NoMemory>
    ensures { OnOk result (out.new ≡ out.old
        ++ led_lines lead.now (process_lines exec.now.state.system 1 exec.now.state.procs)) }
{
    for n in 0..exec.process_count() {
        out.push_all(lead)?;
        print_process(exec, Pid(n + 1), out)?;
    }
    Ok(())
}

// Appends the OUT lines of a unit.
fn print_outputs(
    name: &[u8],
    outputs: &[Bytes],
    lead: &[u8],
    out: &mut Bytes,
) -> Result<(), NoMemory>
    ensures { OnOk result (out.new ≡ out.old ++ led_lines lead.now (output_lines name.now outputs.now)) }
{
    for bytes in outputs {
        out.push_all(lead)?;
        print_output(name, bytes.as_slice(), out)?;
    }
    Ok(())
}

// Appends the OUT lines of unit u.
fn print_unit(
    exec: &Exec<Scripted>,
    u: UnitNo,
    lead: &[u8],
    out: &mut Bytes,
) -> Result<(), NoMemory>
    requires { u.0 < length exec.now.state.units }
    ensures { OnOk result (out.new ≡ out.old
        ++ led_lines lead.now (output_lines
        (unit_name exec.now.state.system.units u)
        (outputs_of (unit_at exec.now.state u).contents))) }
{
    let name = unit_name(exec.system().units.as_slice(), u);
    print_outputs(name, exec.outputs(u), lead, out)
}

// Appends the OUT lines.
fn print_units(exec: &Exec<Scripted>, lead: &[u8], out: &mut Bytes) -> Result<(), NoMemory>
    ensures { OnOk result (out.new ≡ out.old
        ++ led_lines lead.now (unit_lines exec.now.state.system.units 0 exec.now.state.units)) }
{
    for u in 0..exec.unit_count() {
        print_unit(exec, UnitNo(u), lead, out)?;
    }
    Ok(())
}

/// Appends the PROCESS lines and then the OUT lines, each behind a lead.
pub fn print_outcome(exec: &Exec<Scripted>, lead: &[u8], out: &mut Bytes) -> Result<(), NoMemory>
    ensures { OnOk result (out.new ≡ out.old ++ outcome_text lead.now exec.now.state) }
{
    print_processes(exec, lead, out)?;
    print_units(exec, lead, out)
}
