//! One assigned channel.

ghost use Rattle.std.specs.Prelude.{◌≡◌};

use std::marker::Model;
use vx_base::{Device, Mode, Same};

/// An assigned channel, which contracts see as the plain `Channel` of `vx_base`.
#[derive(Clone, Copy)]
pub(crate) struct Row {
    device: Device,
    mode: Mode,
}

impl Model for Row {
    ghost use Rattle.vx_base.specs.Pieces.{Channel};

    ghost Value = { Channel };

    ghost view = { λ r. record { device = r.device; mode = r.mode } };

    ghost inverse = { λ c. record { device = c.device; mode = c.mode } };
}

impl Row {
    pub(crate) fn new(device: Device, mode: Mode) -> Row
        ensures { result ≡ record { device = device; mode = mode } }
    {
        Row { device, mode }
    }

    pub(crate) fn device(&self) -> Device
        ensures { result ≡ self.now.device }
    {
        self.device
    }

    pub(crate) fn mode(&self) -> Mode
        ensures { result ≡ self.now.mode }
    {
        self.mode
    }
}

impl Same for Row {
    fn same(&self, other: &Row) -> bool {
        self.device == other.device && self.mode == other.mode
    }
}
