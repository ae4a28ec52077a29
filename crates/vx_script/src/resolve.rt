//! The second pass: what the lines name is looked up, and the system is put together.

ghost use Rattle.std.specs.Prelude.{◌≡◌, ◌++◌, [], OnOk, IfOk, map, unwrap_or};
ghost use Rattle.std.specs.List.{list_any};
ghost use Rattle.vx_script.specs.Resolving as spec;
ghost use Rattle.vx_script.specs.Keys as setting;
ghost use Rattle.vx_script.specs.Places.{image_place, is_line_unit, rising};
ghost use Rattle.vx_script.specs.Results.{ReadsScript};
ghost use Rattle.vx_script.specs.Steps.{unit_names, with_inputs, with_line_if};

use crate::ending::least_line;
use crate::fault::{FaultKind, ScriptFail, ScriptFault};
use crate::keys::{Keys, Uic};
use crate::lines::{DeclLine, FaultLine, InputLine, InputLines};
use crate::parts::Parts;
use crate::privileges::NO_PRIVS;
use crate::units::Units;
use std::alloc::Global;
use std::mem;
use vx_base::{Mode, Name, Need, NoMemory};
use vx_image::{Image, Images, Lines, Numbers, ProcDecl, ProcDecls, System, UnitDecl, UnitDecls};
use vx_names::Register;

// The first $CREPRC of a process declaration that is not there.
fn unknown_creation(parts: &Parts) -> Option<u32>
    ensures { result ≡ spec.unknown_creation parts.now }
{
    parts
        .creations
        .as_slice()
        .iter()
        .find(|creation| parts.decls.place(creation.name).is_none())
        .map(|creation| creation.line)
}

// The first PROCESS line of an image that is not there.
fn unknown_image(parts: &Parts) -> Option<u32>
    ensures { result ≡ spec.unknown_image parts.now }
{
    parts
        .decls
        .as_slice()
        .iter()
        .find(|decl| parts.images.place(decl.image).is_none())
        .map(|decl| decl.line)
}

fn is_line_unit(name: Name, unit: &UnitDecl) -> bool
    ensures { result ≡ is_line_unit name unit.now }
{
    name.text() == unit.name.text() && unit.blocks == 0
}

fn has_line_unit(units: &[UnitDecl], name: Name) -> bool
    ensures { result ≡ list_any (is_line_unit name) units.now }
{
    units.iter().any(|unit| is_line_unit(name, unit))
}

fn names_no_line_unit(units: &[UnitDecl], input: &InputLine) -> bool
    ensures { result ≡ spec.names_no_line_unit units.now input.now }
{
    !has_line_unit(units, input.unit)
}

// The first INPUT line of what is no line unit.
fn unknown_input(parts: &Parts) -> Option<u32>
    ensures { result ≡ spec.unknown_input parts.now }
{
    parts
        .inputs
        .as_slice()
        .iter()
        .find(|input| names_no_line_unit(parts.units.as_slice(), input))
        .map(|input| input.line)
}

// The first FAULT line of a unit that is not there.
fn unknown_fault(parts: &Parts) -> Option<u32>
    ensures { result ≡ spec.unknown_fault parts.now }
{
    parts
        .faults
        .as_slice()
        .iter()
        .find(|fault| parts.units.place(fault.unit).is_none())
        .map(|fault| fault.line)
}

// The first line that names what is not there.
fn first_unknown(parts: &Parts) -> Option<u32>
    ensures { result ≡ spec.first_unknown parts.now }
{
    let units = least_line(unknown_input(parts), unknown_fault(parts));
    let rest = least_line(unknown_image(parts), units);
    least_line(parts.unlabelled, least_line(unknown_creation(parts), rest))
}

// Appends the number of a FAULT line, if it is one of the unit.
fn add_fault(name: Name, fault: &FaultLine, numbers: &mut Vec<u32>) -> Result<(), NoMemory>
    ensures { OnOk result (numbers.new.items ≡ numbers.old.items ++ spec.fault_if name fault.now) }
{
    if name.text() == fault.unit.text() {
        numbers.push(fault.number)?;
    }
    Ok(())
}

fn numbers_of(alloc: Global, name: Name, faults: &[FaultLine]) -> Result<Vec<u32>, NoMemory>
    ensures { IfOk result (λ numbers. numbers.items ≡ spec.numbers_of name faults.now) }
{
    let mut numbers = Vec::new(alloc);
    for fault in faults {
        add_fault(name, fault, &mut numbers)?;
    }
    Ok(numbers)
}

fn rising(mut numbers: Vec<u32>) -> Numbers
    ensures { result ≡ rising numbers.items }
{
    numbers.sort_unstable();
    Numbers::from_vec(numbers)
}

// A unit with its faults, and no input lines yet.
fn unit_without_lines(alloc: Global, parts: &Parts, unit: &UnitDecl) -> Result<UnitDecl, NoMemory>
    ensures { IfOk result (λ u. u ≡ spec.unit_of (with_inputs [] parts.now) unit.now) }
{
    let numbers = numbers_of(alloc, unit.name, parts.faults.as_slice())?;
    Ok(UnitDecl {
        name: unit.name,
        blocks: unit.blocks,
        inputs: Lines::new(alloc),
        faults: rising(numbers),
    })
}

fn units_without_lines(alloc: Global, parts: &Parts) -> Result<Vec<UnitDecl>, NoMemory>
    ensures { IfOk result (λ units. units.items ≡ map (spec.unit_of (with_inputs [] parts.now)) parts.now.units) }
{
    let mut units = Vec::new(alloc);
    for unit in parts.units.as_slice() {
        units.push(unit_without_lines(alloc, parts, unit)?)?;
    }
    Ok(units)
}

// Moves the text of an INPUT line to the end of its unit's lines. The units stand where `places` has their names.
fn add_line(places: &Units, input: InputLine, units: &mut Vec<UnitDecl>) -> Result<(), NoMemory>
    requires { unit_names units.old.items ≡ unit_names places.now }
    ensures { OnOk result (units.new.items ≡ map (with_line_if input) units.old.items) }
{
    match places.place(input.unit) {
        Some(place) => units[place as usize].inputs.push(input.text),
        None => Ok(()),
    }
}

// The units with their faults and with the lines that are theirs among these.
fn units_of(alloc: Global, parts: &Parts, inputs: InputLines) -> Result<UnitDecls, NoMemory>
    ensures { IfOk result (λ units. units ≡ map (spec.unit_of (with_inputs inputs parts.now)) parts.now.units) }
{
    let mut units = units_without_lines(alloc, parts)?;
    for input in inputs.into_vec() {
        add_line(&parts.units, input, &mut units)?;
    }
    Ok(UnitDecls::from_vec(units))
}

fn limits_of(keys: &Keys) -> Need
    ensures { result ≡ setting.limits_of keys.now }
{
    Need {
        ast: keys.ast.unwrap_or(24),
        bio: keys.bio.unwrap_or(18),
        dio: keys.dio.unwrap_or(18),
        byt: keys.byt.unwrap_or(8192),
        tqe: keys.tqe.unwrap_or(10),
    }
}

fn decl_of(images: &Register<Image>, decl: &DeclLine) -> ProcDecl
    ensures { result ≡ spec.decl_of images.now decl.now }
{
    let uic = decl.keys.uic.unwrap_or(Uic {
        group: 1,
        member: 1,
    });
    ProcDecl {
        name: decl.name,
        image: image_number(images, decl.image),
        group: uic.group,
        member: uic.member,
        mode: decl.keys.mode.unwrap_or(Mode::User),
        limits: limits_of(&decl.keys),
        privs: decl.keys.privs.unwrap_or(NO_PRIVS),
        start: decl.keys.start.unwrap_or(true),
    }
}

// Where an image stands; 0 if it is none, which is a fault.
fn image_number(images: &Register<Image>, image: Name) -> u32
    ensures { result ≡ unwrap_or (image_place image images.now) 0 }
{
    images.place(image).unwrap_or(0)
}

fn decls_of(alloc: Global, parts: &Parts) -> Result<ProcDecls, NoMemory>
    ensures { IfOk result (λ decls. decls ≡ map (spec.decl_of parts.now.images) parts.now.decls) }
{
    let mut decls = ProcDecls::new(alloc);
    for decl in parts.decls.as_slice() {
        decls.push(decl_of(&parts.images, decl))?;
    }
    Ok(decls)
}

// The system; the parts keep no INPUT line and no image.
fn system_of(alloc: Global, parts: &mut Parts) -> Result<System, NoMemory>
    ensures { IfOk result (λ s. s ≡ spec.system_of parts.old) }
{
    let inputs = mem::replace(&mut parts.inputs, InputLines::new(alloc));
    let units = units_of(alloc, parts, inputs)?;
    let decls = decls_of(alloc, parts)?;
    let images = mem::replace(&mut parts.images, Register::new(alloc));
    Ok(System {
        units,
        images: Images::from_vec(images.into_vec()),
        decls,
    })
}

/// The system of what was read, or the first line that names what is not there. The parts keep no INPUT line and no image.
pub fn resolve(alloc: Global, parts: &mut Parts) -> Result<System, ScriptFail>
    ensures { ReadsScript result (spec.resolve parts.old) }
{
    match first_unknown(parts) {
        Some(line) => Err(ScriptFail::Fault(ScriptFault {
            line,
            kind: FaultKind::Unknown,
        })),
        None => Ok(system_of(alloc, parts)?),
    }
}
