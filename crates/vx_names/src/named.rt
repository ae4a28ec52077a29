//! What has a name.

ghost use Rattle.std.specs.Prelude.{◌≡◌, List, ℕ};

use vx_base::Name;

/// What has a name.
pub trait Named: Drop {
    // Its name.
    ghost name_of: { Self → List ℕ };

    /// Its name.
    fn name(&self) -> Name
        ensures { result ≡ name_of self.now };
}

/// What has a number beside its name.
pub trait Numbered: Named {
    // Its number.
    ghost number_of: { Self → ℕ };

    /// Its number.
    fn number(&self) -> u32
        ensures { result ≡ number_of self.now };
}
