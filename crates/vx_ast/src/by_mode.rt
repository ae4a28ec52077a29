//! Where the first AST of a mode stands.

ghost use Rattle.std.specs.Prelude.{◌≡◌, ◌<◌, IfSome, position, length};
ghost use Rattle.vx_base.specs.Queues.{is_of_mode, is_ast_reached};

use crate::delivery::Delivery;
use vx_base::{Mode, Routine};

/// Where the first AST of a mode stands.
pub(crate) fn place_of_mode<R: Routine>(items: &[Delivery<R>], mode: Mode) -> Option<usize>
    ensures place { result ≡ position (is_of_mode mode) items.now }
    ensures within { IfSome result (λ i. i < length items.now) }
{
    items.iter().position(|d| d.mode().rank() == mode.rank())
}

/// Where the first AST of a mode or an outer one stands.
pub(crate) fn place_within<R: Routine>(items: &[Delivery<R>], mode: Mode) -> Option<usize>
    ensures place { result ≡ position (is_ast_reached mode) items.now }
    ensures within { IfSome result (λ i. i < length items.now) }
{
    items.iter().position(|d| mode.rank() <= d.mode().rank())
}
