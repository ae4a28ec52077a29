//! What was read so far.

use crate::draft::DraftImage;
use crate::lines::{Creation, DeclLine, FaultLine, InputLines};
use crate::units::Units;
use vx_base::Sequence;
use vx_image::Image;
use vx_names::{NumberedRegister, Register};

/// What the lines say that were read, without an image that is not ended. The units have neither input lines nor faults yet.
#[derive(Drop)]
pub struct Parts {
    pub units: Units,
    pub inputs: InputLines,
    pub faults: NumberedRegister<FaultLine>,
    pub images: Register<Image>,
    pub decls: Register<DeclLine>,
    pub creations: Sequence<Creation>,
    /// The first line that names a label not in its image, which has ended.
    pub unlabelled: Option<u32>,
}

/// What was read, and the image that is not ended, if any.
#[derive(Drop)]
pub struct Reading {
    pub parts: Parts,
    pub current: Option<DraftImage>,
}
