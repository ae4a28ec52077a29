//! How runs end.

ghost use Rattle.std.specs.Prelude.{◌≡◌, Bool, true};

/// How a run ends, in as much detail as the summary tells runs apart. Fewer endings give fewer rows.
pub trait Ending: Drop {
    /// The test that `same` computes.
    ghost is_same: { Self → Self → Bool };

    /// Whether two runs end the same. Takes no memory.
    fn same(&self, other: &Self) -> bool
        ensures { result ≡ is_same self.now other.now };

    /// Each ending passes with itself.
    ghost same_as_itself: { (e : Self) → is_same e e ≡ true };

    /// Only equal endings pass.
    ghost same_is_equal: { (d e : Self) → is_same d e ≡ true → d ≡ e };
}
