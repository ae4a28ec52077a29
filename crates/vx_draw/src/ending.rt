//! What follows the records that are the machine's.

use vx_base::Rec;

/// The number of the first record that is not the machine's, if one is not; that record, if there is one of the number; and the
/// trailer.
#[derive(Drop)]
pub struct Ending<'a> {
    pub wrong: Option<u32>,
    pub rec: Option<&'a Rec>,
    pub trailer: &'a [u8],
}
