//! What all rows of a picture share.

use crate::boxes::Boxes;
use crate::places::Places;
use vx_image::ProcDecl;

/// Where columns begin, the mailboxes that have one, and the declarations of processes.
#[derive(Drop)]
pub struct Scene<'a> {
    pub places: Places,
    pub boxes: &'a Boxes,
    pub decls: &'a [ProcDecl],
}
