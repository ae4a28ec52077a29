//! Lists in blocks of 32, which are numbered from 0.

ghost use Rattle.std.specs.Prelude.{◌≡◌};
ghost use Rattle.vx_procs.specs.Own.{block_of};

/// How many items a block has.
pub(crate) const BLOCK: usize = 32;

/// A block of a list: cut short, or empty, if the list ends.
pub(crate) fn block<T>(items: &[T], b: usize) -> &[T]
    ensures { result.now ≡ block_of b items.now }
{
    let from = b.saturating_mul(BLOCK).min(items.len());
    let rest = &items[from..];
    &rest[..BLOCK.min(rest.len())]
}
