//! Flags as the bits of a word.

ghost use Rattle.std.specs.Prelude.{◌≡◌, ◌≢◌, ◌<◌, ℕ, true, false};
ghost use Rattle.vx_base.specs.Flags.{is_set, with_flag, any_set, all_set};

use std::marker::Model;
use vx_base::{Duplicate, NoMemory, Same};

/// Thirty-two event flags, numbered from 0 to 31. Contracts see them as a number, flag n as its bit n.
#[derive(Drop)]
pub struct Flags {
    bits: u32,
}

impl Model for Flags {
    ghost use Rattle.std.specs.Prelude.{ℕ};

    ghost Value = { ℕ };

    ghost view = { λ f. f.bits };
}

impl Flags {
    /// All clear. Takes no memory.
    pub fn new() -> Flags
        ensures { result ≡ 0 }
    {
        Flags { bits: 0 }
    }

    /// Whether flag n is set.
    pub fn test(&self, n: u8) -> bool
        requires { n < 32 }
        ensures { result ≡ is_set self.now n }
    {
        self.bits & (1u32 << n) != 0
    }

    /// Sets flag n, and tells whether it was set ($SETEF).
    pub fn set(&mut self, n: u8) -> bool
        requires { n < 32 }
        ensures was { result ≡ is_set self.old n }
        ensures after { self.new ≡ with_flag self.old n true }
        ensures flag { is_set self.new n ≡ true }
        ensures others { (k : ℕ) → k < 32 → k ≢ n → is_set self.new k ≡ is_set self.old k }
    {
        let was = self.test(n);
        self.bits |= 1u32 << n;
        was
    }

    /// Clears flag n, and tells whether it was set ($CLREF).
    pub fn clear(&mut self, n: u8) -> bool
        requires { n < 32 }
        ensures was { result ≡ is_set self.old n }
        ensures after { self.new ≡ with_flag self.old n false }
        ensures flag { is_set self.new n ≡ false }
        ensures others { (k : ℕ) → k < 32 → k ≢ n → is_set self.new k ≡ is_set self.old k }
    {
        let was = self.test(n);
        self.bits &= !(1u32 << n);
        was
    }

    /// All flags as a number, flag 0 as its lowest bit ($READEF).
    pub fn bits(&self) -> u32
        ensures { result ≡ self.now }
    {
        self.bits
    }

    /// Whether any flag of a mask is set ($WFLOR).
    pub fn any(&self, mask: u32) -> bool
        ensures { result ≡ any_set self.now mask }
    {
        self.bits & mask != 0
    }

    /// Whether all flags of a mask are set ($WFLAND).
    pub fn all(&self, mask: u32) -> bool
        ensures { result ≡ all_set self.now mask }
    {
        self.bits & mask == mask
    }
}

impl Same for Flags {
    fn same(&self, other: &Flags) -> bool {
        self.bits == other.bits
    }
}

impl Duplicate for Flags {
    fn duplicate(&self) -> Result<Flags, NoMemory> {
        Ok(Flags { bits: self.bits })
    }
}
