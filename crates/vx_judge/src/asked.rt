//! What a request asks of a mailbox.

use crate::text::Text;

/// Of the call that opened an id: the name of its device, if its channel has one; whether its function is one that waits for a
/// message; the length that it gives, if a call opened it.
#[derive(Clone, Copy)]
pub struct Asked {
    pub device: Option<Text>,
    pub waits: bool,
    pub len: Option<u32>,
}

/// The same without the device.
#[derive(Clone, Copy)]
pub struct Asking {
    pub waits: bool,
    pub len: Option<u32>,
}
