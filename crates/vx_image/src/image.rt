//! Images.

use crate::stmts::Stmts;
use vx_base::{Name, Sequence};

/// A label of an image, and the place of the statement that it names, from 0: the number of statements if it names the
/// image's end.
#[derive(Clone, Copy, Debug, PartialEq, Eq)]
pub struct Label {
    pub name: Name,
    pub place: u32,
}

/// Labels in the order of the text.
pub type Labels = Sequence<Label>;

/// An image: what the processes made of it run.
#[derive(Drop)]
pub struct Image {
    pub name: Name,
    pub labels: Labels,
    pub stmts: Stmts,
}

/// Images in order.
pub type Images = Sequence<Image>;
