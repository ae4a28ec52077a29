//! Numbers folded into one.

ghost use Rattle.std.specs.Prelude.{◌≡◌};
ghost use Rattle.vx_same.specs.Mix.{mix};

/// A digest with one number more.
pub fn mix(digest: u64, n: u64) -> u64
    ensures { result ≡ mix digest n }
{
    digest
        .wrapping_mul(6_364_136_223_846_793_005)
        .wrapping_add(n)
}
