//! The canonical script of a system.

ghost use Rattle.std.specs.Prelude.{IfOk, OnOk, ◌++◌, ◌≡◌, flat_map, map};
ghost use Rattle.vx_script.specs.Script as spec;
ghost use Rattle.vx_script.specs.Script.{ended_lines};

use crate::print_image::print_image;
use crate::print_process::print_process;
use crate::print_unit::print_unit;
use std::alloc::Global;
use vx_base::{Bytes, NoMemory};
use vx_image::{Image, ProcDecl, System, UnitDecl};

fn print_units(units: &[UnitDecl], out: &mut Bytes) -> Result<(), NoMemory>
    ensures { OnOk result (out.new ≡ out.old ++ ended_lines (flat_map spec.unit_lines units.now)) }
{
    for unit in units {
        print_unit(unit, out)?;
    }
    Ok(())
}

fn print_images(images: &[Image], out: &mut Bytes) -> Result<(), NoMemory>
    ensures { OnOk result (out.new ≡ out.old ++ ended_lines (flat_map spec.image_lines images.now)) }
{
    for image in images {
        print_image(image, out)?;
    }
    Ok(())
}

fn print_processes(
    alloc: Global,
    images: &[Image],
    decls: &[ProcDecl],
    out: &mut Bytes,
) -> Result<(), NoMemory>
    ensures { OnOk result (out.new ≡ out.old ++ ended_lines (map (spec.decl_line images.now) decls.now)) }
{
    for decl in decls {
        print_process(alloc, images, decl, out)?;
    }
    Ok(())
}

/// The canonical script of a system: its units, images and processes in order, one line for each thing that a script says.
pub fn print_script(alloc: Global, system: &System) -> Result<Bytes, NoMemory>
    ensures { IfOk result (λ text. text ≡ spec.script system.now) }
{
    let mut out = Bytes::new(alloc);
    let images = system.images.as_slice();
    print_units(system.units.as_slice(), &mut out)?;
    print_images(images, &mut out)?;
    print_processes(alloc, images, system.decls.as_slice(), &mut out)?;
    Ok(out)
}
