//! The lines that stand in no image. The tokens are those behind the line's word.

ghost use Rattle.std.specs.Prelude.{◌≡◌, IfOk, None};
ghost use Rattle.vx_table.specs.Reading.{toks};
ghost use Rattle.vx_script.specs.Declarations as spec;
ghost use Rattle.vx_script.specs.Fields as field;
ghost use Rattle.vx_script.specs.Places.{unit_place};

use crate::draft::DraftImage;
use crate::fault::FaultKind;
use crate::fields::{behind, behind_mut, end_at, last_text, name_at, number_at};
use crate::keys::{NO_KEYS, keys_at};
use crate::lines::{DeclLine, FaultLine, InputLine};
use crate::units::Units;
use std::alloc::Global;
use vx_base::{Name, Sequence};
use vx_image::{Image, UnitDecl};
use vx_names::{NumberedRegister, Register};
use vx_text::{Tok, Token};

/// What a unit is.
#[derive(Clone, Copy)]
pub enum Device {
    Line,
    Block,
}

const MOST_UNITS: usize = 32;

const MOST_IMAGES: usize = 256;

const MOST_DECLS: usize = 1000;

/// A name that stands nowhere yet.
pub fn unused_name(place: Option<u32>, name: Name) -> Result<Name, FaultKind>
    ensures { result ≡ spec.unused_name place name }
{
    match place {
        None => Ok(name),
        Some(_) => Err(FaultKind::Twice),
    }
}

/// Fewer than so many are there.
pub fn room_for(most: usize, count: usize) -> Result<(), FaultKind>
    ensures { result ≡ field.room_for most count }
{
    if count < most {
        Ok(())
    } else {
        Err(FaultKind::Size)
    }
}

fn device_word(word: &[u8]) -> Option<Device>
    ensures { result ≡ field.device_word word.now }
{
    if word == b"LINE".as_slice() {
        Some(Device::Line)
    } else if word == b"BLOCK".as_slice() {
        Some(Device::Block)
    } else {
        None
    }
}

fn device_in(tok: &Tok) -> Option<Device>
    ensures { result ≡ field.device_in tok.now }
{
    match tok {
        Tok::Word(word) => device_word(word.text()),
        _ => None,
    }
}

fn device_at(tokens: &[Token]) -> Result<Device, FaultKind>
    ensures { result ≡ field.device_at (toks tokens.now) }
{
    let [first, ..] = tokens else {
        return Err(FaultKind::Missing);
    };
    device_in(&first.tok).ok_or(FaultKind::Word)
}

fn block_count(tokens: &[Token]) -> Result<u32, FaultKind>
    ensures { result ≡ field.block_count (toks tokens.now) }
{
    let n = number_at(1, 4096, tokens)?;
    end_at(behind(tokens, 1))?;
    Ok(n)
}

// A line unit has no blocks.
fn blocks_of(device: Device, tokens: &[Token]) -> Result<u32, FaultKind>
    ensures { result ≡ field.blocks_of device (toks tokens.now) }
{
    match device {
        Device::Line => {
            end_at(tokens)?;
            Ok(0)
        }
        Device::Block => block_count(tokens),
    }
}

/// UNIT name LINE, and UNIT name BLOCK n.
#[tactic(auto, unfolding(crate::specs::Declarations::unit_line))]
pub fn unit_line(alloc: Global, units: &Units, tokens: &[Token]) -> Result<UnitDecl, FaultKind>
    ensures line { result ≡ spec.unit_line units.now (toks tokens.now) }
    ensures unused { IfOk result (λ unit. unit_place unit.name units.now ≡ None) }
{
    let name = name_at(tokens)?;
    let name = unused_name(units.place(name), name)?;
    let device = device_at(behind(tokens, 1))?;
    let blocks = blocks_of(device, behind(tokens, 2))?;
    room_for(MOST_UNITS, units.len())?;
    Ok(UnitDecl {
        name,
        blocks,
        inputs: Sequence::new(alloc),
        faults: Sequence::new(alloc),
    })
}

/// INPUT unit "text". The text moves out of its token.
#[tactic(auto, unfolding(crate::specs::Declarations::input_line))]
pub fn input_line(line: u32, tokens: &mut [Token]) -> Result<InputLine, FaultKind>
    ensures { result ≡ spec.input_line line (toks tokens.old) }
{
    let unit = name_at(tokens)?;
    let text = last_text(behind_mut(tokens, 1))?;
    Ok(InputLine { line, unit, text })
}

// A fault number that its unit does not have yet.
fn fresh_fault(unit: Name, n: u32, faults: &NumberedRegister<FaultLine>) -> Result<u32, FaultKind>
    ensures { result ≡ spec.fresh_fault unit n faults.now }
{
    if faults.has(unit, n) {
        Err(FaultKind::Twice)
    } else {
        Ok(n)
    }
}

/// FAULT unit n.
#[tactic(auto, unfolding(crate::specs::Declarations::fault_line))]
pub fn fault_line(
    line: u32,
    faults: &NumberedRegister<FaultLine>,
    tokens: &[Token],
) -> Result<FaultLine, FaultKind>
    ensures { result ≡ spec.fault_line line faults.now (toks tokens.now) }
{
    let unit = name_at(tokens)?;
    let n = number_at(1, 100_000, behind(tokens, 1))?;
    let number = fresh_fault(unit, n, faults)?;
    end_at(behind(tokens, 2))?;
    Ok(FaultLine { line, unit, number })
}

/// IMAGE name.
#[tactic(auto, unfolding(crate::specs::Declarations::image_line))]
pub fn image_line(
    alloc: Global,
    images: &Register<Image>,
    tokens: &[Token],
) -> Result<DraftImage, FaultKind>
    ensures { result ≡ spec.image_line images.now (toks tokens.now) }
{
    let name = name_at(tokens)?;
    let name = unused_name(images.place(name), name)?;
    end_at(behind(tokens, 1))?;
    room_for(MOST_IMAGES, images.len())?;
    Ok(DraftImage::new(alloc, name))
}

/// PROCESS name image key=value ..
#[tactic(auto, unfolding(crate::specs::Declarations::process_line))]
pub fn process_line(
    line: u32,
    decls: &Register<DeclLine>,
    tokens: &[Token],
) -> Result<DeclLine, FaultKind>
    ensures { result ≡ spec.process_line line decls.now (toks tokens.now) }
{
    let name = name_at(tokens)?;
    let name = unused_name(decls.place(name), name)?;
    let image = name_at(behind(tokens, 1))?;
    let keys = keys_at(NO_KEYS, behind(tokens, 2))?;
    room_for(MOST_DECLS, decls.len())?;
    Ok(DeclLine {
        line,
        name,
        image,
        keys,
    })
}
