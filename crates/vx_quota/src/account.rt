//! What is used of five quotas, against their limits.

ghost use Rattle.std.specs.Prelude.{◌≡◌, ◌+◌, IsTrue, nat_le, if◌then◌else◌};
ghost use Rattle.vx_base.specs.Quotas.{no_need, together, without, is_within};
ghost use Rattle.vx_quota.specs.Account.{has_left, charged, released};

use std::marker::Model;
use vx_base::{Duplicate, Need, NoMemory};

/// The quotas of a process. Contracts see what is used and the limits.
#[derive(Drop)]
pub struct Account {
    used: Need,
    limits: Need,
}

impl Model for Account {
    ghost use Rattle.vx_quota.specs.Account.{Quotas};

    ghost Value = { Quotas };

    ghost view = { λ a. record { used = a.used; limits = a.limits } };
}

impl Account {
    /// Nothing used of these limits. Takes no memory.
    pub fn new(limits: Need) -> Account
        ensures { result ≡ record { used = no_need; limits = limits } }
    {
        let used = Need {
            ast: 0,
            bio: 0,
            dio: 0,
            byt: 0,
            tqe: 0,
        };
        Account { used, limits }
    }

    /// Charges an amount in each account and answers true; or changes nothing and answers false, if that much more
    /// is above a limit.
    pub fn charge(&mut self, need: Need) -> bool
        ensures done { result ≡ has_left self.old need }
        ensures after { self.new ≡ charged self.old need }
    {
        match sum_within(self.used, need, self.limits) {
            Some(used) => {
                self.used = used;
                true
            }
            None => false,
        }
    }

    /// Whether an amount more is within the limits, in each account.
    pub fn has_left(&self, need: Need) -> bool
        ensures { result ≡ has_left self.now need }
    {
        sum_within(self.used, need, self.limits).is_some()
    }

    /// Gives back an amount in each account.
    pub fn release(&mut self, need: Need)
        requires { IsTrue (is_within need self.old.used) }
        ensures { self.new ≡ released self.old need }
    {
        self.used = difference(self.used, need);
    }

    /// What is used.
    pub fn used(&self) -> Need
        ensures { result ≡ self.now.used }
    {
        self.used
    }
}

/// Two amounts of one account together, if that is within its limit.
fn amount_within(used: u32, need: u32, limit: u32) -> Option<u32>
    ensures { result ≡ (if nat_le (used + need) limit then Some (used + need) else None) }
{
    let sum = used as u64 + need as u64;
    if sum <= limit as u64 {
        Some(sum as u32)
    } else {
        None
    }
}

/// Two amounts together, in each account, if that is within the limits.
fn sum_within(used: Need, need: Need, limits: Need) -> Option<Need>
    ensures { result ≡ (if is_within (together used need) limits then Some (together used need) else None) }
{
    Some(Need {
        ast: amount_within(used.ast, need.ast, limits.ast)?,
        bio: amount_within(used.bio, need.bio, limits.bio)?,
        dio: amount_within(used.dio, need.dio, limits.dio)?,
        byt: amount_within(used.byt, need.byt, limits.byt)?,
        tqe: amount_within(used.tqe, need.tqe, limits.tqe)?,
    })
}

/// What is left of an amount without another, in each account.
fn difference(used: Need, need: Need) -> Need
    requires { IsTrue (is_within need used) }
    ensures { result ≡ without used need }
{
    Need {
        ast: used.ast - need.ast,
        bio: used.bio - need.bio,
        dio: used.dio - need.dio,
        byt: used.byt - need.byt,
        tqe: used.tqe - need.tqe,
    }
}

impl Duplicate for Account {
    fn duplicate(&self) -> Result<Account, NoMemory> {
        Ok(Account {
            used: self.used,
            limits: self.limits,
        })
    }
}
