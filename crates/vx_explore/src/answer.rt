//! What an exploration answers.

use crate::found::Found;

/// What all runs of a machine come to.
#[derive(Drop)]
pub enum Answer<E> {
    /// Each ending once, in the order of the first run that ends so.
    Told(Vec<Found<E>>),
    /// Some number of steps leads to more different states than the caller allows.
    Cut,
}
