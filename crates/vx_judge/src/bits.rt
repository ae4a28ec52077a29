//! Flags as bits of a word.

ghost use Rattle.std.specs.Prelude.{◌≡◌, ◌-◌, ◌^◌, ◌<◌, ◌==◌, ℕ, bit_and, bit_or};
ghost use Rattle.vx_base.specs.Flags.{is_set as is_set_of, with_flag as with_flag_of, any_set as any_set_of, all_set as all_set_of};
ghost use Rattle.vx_judge.specs.Words.{AreBits, IsWord};

use crate::word::Word;

/// All flags clear.
pub const CLEAR: Word = Word {
    bits: 0,
    beyond: false,
};

// Sets a flag.
fn set(word: Word, n: u32) -> Word
    ensures { (flags : ℕ) → IsWord word flags → IsWord result (bit_or flags (2 ^ n)) }
{
    if n < 32 {
        Word {
            bits: word.bits | (1u32 << n),
            ..word
        }
    } else {
        Word {
            beyond: true,
            ..word
        }
    }
}

// Clears a flag; above the 32 there is none that could stay.
fn clear(word: Word, n: u32) -> Word
    ensures { (flags : ℕ) → IsWord word flags → IsWord result (bit_and flags (4294967295 - 2 ^ n)) }
{
    if n < 32 {
        Word {
            bits: word.bits & !(1u32 << n),
            beyond: false,
        }
    } else {
        CLEAR
    }
}

/// With a flag set or cleared.
pub fn with_flag(word: Word, n: u32, on: bool) -> Word
    ensures { (flags : ℕ) → IsWord word flags → IsWord result (with_flag_of flags n on) }
{
    if on { set(word, n) } else { clear(word, n) }
}

/// Whether one of the 32 is set.
pub fn is_set(word: Word, n: u32) -> bool
    ensures { (flags : ℕ) → n < 32 → IsWord word flags → result ≡ is_set_of flags n }
{
    n < 32 && any_set(word, 1u32 << n)
}

/// Whether any flag of a mask is set.
pub fn any_set(word: Word, mask: u32) -> bool
    ensures { (flags : ℕ) → IsWord word flags → result ≡ any_set_of flags mask }
{
    word.bits & mask != 0
}

/// Whether all flags of a mask are set.
pub fn all_set(word: Word, mask: u32) -> bool
    ensures { (flags : ℕ) → IsWord word flags → result ≡ all_set_of flags mask }
{
    word.bits & mask == mask
}

// Whether the lowest 32 flags, and no others, make this number.
fn are(bits: u32, m: u32) -> bool
    ensures { (flags : ℕ) → flags < 4294967296 → AreBits bits flags → result ≡ (m == flags) }
{
    m == bits
}

/// Whether the flags are this number.
pub fn is_number(word: Word, m: u32) -> bool
    ensures { (flags : ℕ) → IsWord word flags → result ≡ (m == flags) }
{
    !word.beyond && are(word.bits, m)
}
