//! Values that may be missing.

ghost use Rattle.std.specs.Prelude.{◌≡◌, ◌↔◌, IsTrue};

use vx_base::Same;

// Whether both are missing, or there are two and they are the same.
fn same_option<T: Same>(a: &Option<T>, b: &Option<T>) -> bool
    ensures { IsTrue result ↔ (a.now ≡ b.now) }
{
    match (a, b) {
        (Some(a), Some(b)) => a.same(b),
        (None, None) => true,
        _ => false,
    }
}

/// Whether two lists are the same, place by place. Takes no memory.
pub fn same_options<T: Same>(a: &[Option<T>], b: &[Option<T>]) -> bool
    ensures { IsTrue result ↔ (a.now ≡ b.now) }
{
    if a.len() != b.len() {
        return false;
    }
    for (i, value) in a.iter().enumerate() {
        if !same_option(value, &b[i]) {
            return false;
        }
    }
    true
}
