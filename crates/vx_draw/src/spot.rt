//! Where a record stands.

ghost use Rattle.std.specs.Prelude.{◌≡◌};
ghost use Rattle.vx_draw.specs.Shapes as spec;

use crate::shapes::{Point, middle};

/// The number of a record's row, and how far right in it who acted stands.
#[derive(Clone, Copy)]
pub struct Spot {
    pub row: u64,
    pub x: u128,
}

impl Spot {
    /// The middle of the row, at who acted.
    pub fn middle(self) -> Point
        ensures { result ≡ record { x = self.x; y = spec.middle self.row } }
    {
        Point {
            x: self.x,
            y: middle(self.row),
        }
    }
}
