//! Decimal numbers.

ghost use Rattle.std.specs.Prelude.{◌≡◌, ◌<◌};
ghost use Rattle.vx_lines.specs.Numbers as spec;

// Nothing, or a zero in front of more.
fn is_misspelled(digits: &[u8]) -> bool
    ensures { result ≡ spec.is_misspelled digits.now }
{
    match digits {
        [] => true,
        [_] => false,
        [first, ..] => *first == b'0',
    }
}

/// The number that digits spell, if it is at most so much. Takes zeros in front, and no digits for 0.
pub fn value_up_to(most: u64, digits: &[u8]) -> Option<u64>
    ensures { result ≡ spec.value_up_to most digits.now }
{
    let mut number: u128 = 0;
    for digit in digits {
        if *digit < b'0' || b'9' < *digit {
            return None;
        }
        number = number * 10 + u128::from(*digit - b'0');
        if number > u128::from(most) {
            return None;
        }
    }
    Some(number as u64)
}

/// The number that a word is in decimal, without a sign or a leading zero, if it is at most so much.
pub fn number_up_to(most: u64, word: &[u8]) -> Option<u64>
    ensures { result ≡ spec.number_up_to most word.now }
{
    if is_misspelled(word) {
        return None;
    }
    value_up_to(most, word)
}
