//! Devices by name.

ghost use Rattle.std.specs.Prelude.{◌≡◌, ◌<◌, IfSome, is_some, length, position};
ghost use Rattle.vx_record.specs.Channels.{device_named, is_unit_of, unit_named};

use crate::procs::Core;
use vx_base::{Device, Routine, UnitNo};
use vx_image::UnitDecl;

fn is_unit_of(name: &[u8], unit: &UnitDecl) -> bool
    ensures { result ≡ is_unit_of name.now unit.now }
{
    unit.name.text() == name
}

// Where a unit of a name stands among units.
fn position_of_unit(units: &[UnitDecl], name: &[u8]) -> Option<usize>
    ensures place { result ≡ position (is_unit_of name.now) units.now }
    ensures within { IfSome result (λ place. place < length units.now) }
{
    units.iter().position(|unit| is_unit_of(name, unit))
}

impl<R: Routine> Core<R> {
    /// The device of a name: a unit of the script, or else a mailbox. None exactly where there is none.
    pub fn device_named(&self, name: &[u8]) -> Option<Device>
        requires { length self.now.state.system.units < 4294967296 }
        ensures { result ≡ device_named self.now.state name.now }
    {
        match position_of_unit(self.system.get().units.as_slice(), name) {
            Some(place) => Some(Device::Unit(UnitNo(place as u32))),
            None => {
                let b = self.boxes.named(name)?;
                Some(Device::Mailbox(b))
            }
        }
    }

    /// Whether a unit of the script has this name.
    pub fn is_unit_name(&self, name: &[u8]) -> bool
        ensures { result ≡ is_some (unit_named self.now.state name.now) }
    {
        position_of_unit(self.system.get().units.as_slice(), name).is_some()
    }
}
