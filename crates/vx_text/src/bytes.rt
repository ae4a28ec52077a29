//! Classes of bytes, runs of them, and numbers by their digits.

ghost use Rattle.std.specs.Prelude.{◌≡◌, ◌≤◌, ◌<◌, length, map, take, IsTrue};
ghost use Rattle.std.specs.List.{prefix_len};
ghost use Rattle.vx_text.specs.Bytes as classes;

/// A letter in capitals; any other byte as it is.
pub fn to_upper(b: u8) -> u8
    ensures { result ≡ classes.to_upper b }
{
    if 97 <= b && b <= 122 { b - 32 } else { b }
}

/// Whether a byte is a letter, of either case.
pub fn is_letter(b: u8) -> bool
    ensures { result ≡ classes.is_letter b }
{
    65 <= b && b <= 90 || 97 <= b && b <= 122
}

/// Whether a byte is a decimal digit.
pub fn is_digit(b: u8) -> bool
    ensures { result ≡ classes.is_digit b }
{
    48 <= b && b <= 57
}

/// Whether a byte is a hexadecimal digit, of either case.
pub fn is_hex_digit(b: u8) -> bool
    ensures { result ≡ classes.is_hex_digit b }
{
    is_digit(b) || 65 <= to_upper(b) && to_upper(b) <= 70
}

/// Whether a byte is a letter or a decimal digit.
pub fn is_alphanumeric(b: u8) -> bool
    ensures { result ≡ classes.is_alphanumeric b }
{
    is_letter(b) || is_digit(b)
}

/// Whether a byte may stand in a word: a letter, a digit, `_` or `$`.
pub fn is_word_byte(b: u8) -> bool
    ensures { result ≡ classes.is_word_byte b }
{
    is_alphanumeric(b) || b == b'_' || b == b'$'
}

/// Whether a byte may stand in a service's name behind its `$`: a letter, a digit or `_`.
pub fn is_service_byte(b: u8) -> bool
    ensures { result ≡ classes.is_service_byte b }
{
    is_alphanumeric(b) || b == b'_'
}

/// Whether a byte is a sign that is a token of its own: one of `,=+-:`.
pub fn is_sign(b: u8) -> bool
    ensures { result ≡ classes.is_sign b }
{
    b == b',' || b == b'=' || b == b'+' || b == b'-' || b == b':'
}

/// Whether a byte stands for itself in a quoted text.
pub fn is_plain(b: u8) -> bool
    ensures { result ≡ classes.is_plain b }
{
    32 <= b && b <= 126 && b != b'"' && b != b'\\'
}

/// How many bytes of a word stand first.
pub fn word_len(bytes: &[u8]) -> usize
    ensures { result ≡ prefix_len classes.is_word_byte bytes.now }
{
    bytes.iter().take_while(|b| is_word_byte(**b)).count()
}

/// How many bytes of a service's name stand first.
pub fn service_len(bytes: &[u8]) -> usize
    ensures { result ≡ prefix_len classes.is_service_byte bytes.now }
{
    bytes.iter().take_while(|b| is_service_byte(**b)).count()
}

/// How many letters and digits stand first.
pub fn alphanumeric_len(bytes: &[u8]) -> usize
    ensures { result ≡ prefix_len classes.is_alphanumeric bytes.now }
{
    bytes.iter().take_while(|b| is_alphanumeric(**b)).count()
}

/// How many hexadecimal digits stand first.
pub fn hex_len(bytes: &[u8]) -> usize
    ensures { result ≡ prefix_len classes.is_hex_digit bytes.now }
{
    bytes.iter().take_while(|b| is_hex_digit(**b)).count()
}

/// The value of a hexadecimal digit, of either case.
pub fn hex_value(b: u8) -> u8
    requires { IsTrue (classes.is_hex_digit b) }
    ensures value { result ≡ classes.hex_value b }
    ensures small { result < 16 }
{
    if is_digit(b) {
        b - 48
    } else {
        to_upper(b) - 55
    }
}

/// The number that a run of decimal digits spells, if it is one of at most 4294967295.
pub fn decimal_of(run: &[u8]) -> Option<u32>
    ensures { result ≡ classes.decimal_of run.now }
{
    let mut number: u64 = 0;
    for digit in run {
        if !is_digit(*digit) {
            return None;
        }
        number = number * 10 + u64::from(*digit - 48);
        if number > 4_294_967_295 {
            return None;
        }
    }
    Some(number as u32)
}

/// The number that a run of hexadecimal digits spells, if it is one of at most 4294967295.
pub fn hex_of(run: &[u8]) -> Option<u32>
    ensures { result ≡ classes.hex_of run.now }
{
    if run.is_empty() {
        return None;
    }
    let mut number: u64 = 0;
    for digit in run {
        if !is_hex_digit(*digit) {
            return None;
        }
        number = number * 16 + u64::from(hex_value(*digit));
        if number > 4_294_967_295 {
            return None;
        }
    }
    Some(number as u32)
}

/// A text in capitals, in front of zeros.
pub fn capitals(text: &[u8]) -> [u8; 31]
    requires { length text.now ≤ 31 }
    ensures { take (length text.now) result ≡ map classes.to_upper text.now }
{
    let mut capitals = [0; 31];
    for i in 0..text.len() {
        capitals[i] = to_upper(text[i]);
    }
    capitals
}
