//! The runs of two counters that know nothing of each other.

ghost use Rattle.std.specs.Prelude.{◌+◌, ◌-◌, ◌==◌, ◌&&◌, not, if◌then◌else◌};
ghost use Rattle.std.proofs.Common.{ap, eq-eqb, eqb-true, refl};

use std::alloc::Global;
use std::test::*;
use vx_base::NoMemory;
use vx_explore::{Answer, Ending, Machine, explore};

/// How many steps each counter has to go. A step counts one of them down.
#[derive(Drop)]
struct Counters {
    left: u32,
    right: u32,
}

/// How many steps the left counter still has to go.
#[derive(Drop)]
struct Rest {
    left: u32,
}

impl Ending for Rest {
    ghost is_same = { λ d e. d.left == e.left };

    fn same(&self, other: &Rest) -> bool {
        self.left == other.left
    }

    ghost same_as_itself = { λ e. eq-eqb e.left e.left refl };

    ghost same_is_equal = { λ d e h. ap (λ n. record { left = n }) (eqb-true d.left e.left h) };
}

impl Machine for Counters {
    type Ending = Rest;

    type Running = Counters;

    ghost state_of = { λ c. c };

    ghost enabled = { λ c. (if c.left == 0 then 0 else 1) + (if c.right == 0 then 0 else 1) };

    ghost after = { λ c i. if (i == 0) && not (c.left == 0)
        then record { left = c.left - 1; right = c.right }
        else record { left = c.left; right = c.right - 1 } };

    ghost ending_of = { λ c. record { left = c.left } };

    ghost digest_of = { λ c. c.left };

    ghost origin = { λ c. record { left = 0; right = 0 } };

    fn count(&self) -> u32 {
        let left: u32 = if self.left == 0 { 0 } else { 1 };
        let right: u32 = if self.right == 0 { 0 } else { 1 };
        left + right
    }

    fn take(&self, pick: u32, counters: &mut Counters) -> Result<(), NoMemory> {
        counters.left = self.left;
        counters.right = self.right;
        if pick == 0 && self.left != 0 {
            counters.left -= 1;
        } else {
            counters.right -= 1;
        }
        Ok(())
    }

    fn put_away(_alloc: Global, counters: &Counters) -> Result<Counters, NoMemory> {
        Ok(Counters {
            left: counters.left,
            right: counters.right,
        })
    }

    fn ending(&self, _counters: &mut Counters) -> Result<Rest, NoMemory> {
        Ok(Rest { left: self.left })
    }

    fn same(&self, counters: &Counters) -> bool {
        self.left == counters.left && self.right == counters.right
    }

    fn digest(counters: &Counters) -> u64 {
        counters.left as u64
    }
}

// How many runs have each ending, for two counters of k steps; no number if the exploration was cut.
fn ways(alloc: Global, k: u32, limit: u32, most: usize) -> Result<Vec<u64>, NoMemory> {
    let mut ways = Vec::new(alloc);
    let first = Counters { left: k, right: k };
    let mut counters = Counters { left: 0, right: 0 };
    if let Answer::Told(rows) = explore(alloc, first, limit, most, &mut counters)? {
        for row in &rows {
            ways.push(row.ways)?;
        }
    }
    Ok(ways)
}

// A run is a choice of the left counter's k steps among 2k. With k = 34 there are more than a u64 counts.
#[test]
fn whole_runs_are_counted(rt: HostRuntime) -> Result<(), Fail> {
    for (k, expected) in [
        (0, 1),
        (1, 2),
        (2, 6),
        (5, 252),
        (33, 7219428434016265740),
        (34, u64::MAX),
    ] {
        let ways = ways(rt.alloc(), k, 2 * k, 100).ok().ok_or("memory")?;
        assert_eq!(rt; ways.as_slice(), [expected].as_slice());
    }
    Ok(())
}

// Four steps lead to five states. More is cut than four states allow.
#[test]
fn four_steps_have_five_endings(rt: HostRuntime) -> Result<(), Fail> {
    let told = ways(rt.alloc(), 9, 4, 5).ok().ok_or("memory")?;
    assert_eq!(rt; told.as_slice(), [1, 4, 6, 4, 1].as_slice());
    let cut = ways(rt.alloc(), 9, 4, 4).ok().ok_or("memory")?;
    assert!(rt; cut.is_empty());
    Ok(())
}
