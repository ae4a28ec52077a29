//! The generator that schedules runs: x becomes x times 6364136223846793005 plus 1442695040888963407, modulo 2^64.

ghost use Rattle.std.specs.Prelude.{◌≡◌, ◌<◌};
ghost use Rattle.vx_record.specs.Runs.{next_seed, picked};

/// The generator's number. 0 stays 0, and always picks the first event.
#[derive(Clone, Copy, Debug, PartialEq, Eq)]
pub struct Seed {
    pub x: u64,
}

const FACTOR: u128 = 6_364_136_223_846_793_005;

const SUMMAND: u128 = 1_442_695_040_888_963_407;

const MODULUS: u128 = 18_446_744_073_709_551_616;

impl Seed {
    /// The seed after a pick.
    pub(crate) fn next(self) -> Seed
        ensures { result.x ≡ next_seed self.x }
    {
        if self.x == 0 {
            return self;
        }
        Seed {
            x: ((self.x as u128 * FACTOR + SUMMAND) % MODULUS) as u64,
        }
    }

    /// Which of n events is picked, by the seed as it is after the pick: 2^33 goes into it so often, modulo n.
    pub(crate) fn index(self, n: u32) -> u32
        requires { 0 < n }
        ensures index { result ≡ picked self.x n }
        ensures within { result < n }
    {
        ((self.x / 8_589_934_592) % n as u64) as u32
    }
}
