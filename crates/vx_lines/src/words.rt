//! The words of a line: each stands behind a space.

ghost use Rattle.std.specs.Prelude.{◌≡◌, ◌≤◌, ◌==◌, not, bytes_eq, length, drop};
ghost use Rattle.std.specs.List.{prefix_len};
ghost use Rattle.vx_lines.specs.Words as spec;

/// Whether a word is this one.
pub fn is_word(word: &[u8], other: &[u8]) -> bool
    ensures { result ≡ bytes_eq word.now other.now }
{
    word == other
}

fn dropped(bytes: &[u8], count: usize) -> &[u8]
    ensures text { result.now ≡ drop count bytes.now }
    ensures within { length result.now ≤ length bytes.now }
{
    if count < bytes.len() {
        &bytes[count..]
    } else {
        &[]
    }
}

/// How many bytes stand before the first of this value.
pub fn len_before(byte: u8, bytes: &[u8]) -> usize
    ensures len { result ≡ prefix_len (λ b. not (b == byte)) bytes.now }
    ensures within { result ≤ length bytes.now }
{
    bytes.iter().take_while(|b| **b != byte).count()
}

/// The word behind the space that stands first.
pub fn first_word(line: &[u8]) -> &[u8]
    ensures { result.now ≡ spec.first_word line.now }
{
    let rest = dropped(line, 1);
    &rest[..len_before(b' ', rest)]
}

/// The line behind its first word.
pub fn behind_word(line: &[u8]) -> &[u8]
    ensures text { result.now ≡ spec.behind_word line.now }
    ensures within { length result.now ≤ length line.now }
{
    let rest = dropped(line, 1);
    &rest[len_before(b' ', rest)..]
}

/// The line behind what stands before its first space.
pub fn from_space(line: &[u8]) -> &[u8]
    ensures text { result.now ≡ drop (spec.word_len line.now) line.now }
    ensures within { length result.now ≤ length line.now }
{
    &line[len_before(b' ', line)..]
}

/// The second word of a line that begins with a space; empty if there is none.
pub fn second_word(line: &[u8]) -> &[u8]
    ensures { result.now ≡ spec.second_word line.now }
{
    first_word(behind_word(line))
}

/// The third word; empty if there is none.
pub fn third_word(line: &[u8]) -> &[u8]
    ensures { result.now ≡ spec.third_word line.now }
{
    second_word(behind_word(line))
}

/// The fourth word; empty if there is none.
pub fn fourth_word(line: &[u8]) -> &[u8]
    ensures { result.now ≡ spec.fourth_word line.now }
{
    third_word(behind_word(line))
}

/// The fifth word; empty if there is none.
pub fn fifth_word(line: &[u8]) -> &[u8]
    ensures { result.now ≡ spec.fifth_word line.now }
{
    fourth_word(behind_word(line))
}

/// The sixth word; empty if there is none.
pub fn sixth_word(line: &[u8]) -> &[u8]
    ensures { result.now ≡ spec.sixth_word line.now }
{
    fifth_word(behind_word(line))
}

fn last_len(line: &[u8]) -> usize
    ensures len { result ≡ spec.last_len line.now }
    ensures within { result ≤ length line.now }
{
    line.iter().rev().take_while(|b| **b != b' ').count()
}

/// The bytes behind the last space.
pub fn last_word(line: &[u8]) -> &[u8]
    ensures { result.now ≡ spec.last_word line.now }
{
    &line[line.len() - last_len(line)..]
}

/// The line before its last space.
pub fn before_last(line: &[u8]) -> &[u8]
    ensures text { result.now ≡ spec.before_last line.now }
    ensures within { length result.now ≤ length line.now }
{
    &line[..(line.len() - last_len(line)).saturating_sub(1)]
}

/// The part of a word before its first colon.
pub fn first_part(word: &[u8]) -> &[u8]
    ensures { result.now ≡ spec.first_part word.now }
{
    &word[..len_before(b':', word)]
}

/// The word from its first colon on.
pub fn from_colon(word: &[u8]) -> &[u8]
    ensures { result.now ≡ spec.from_colon word.now }
{
    &word[len_before(b':', word)..]
}

/// The word behind its first colon.
pub fn behind_part(word: &[u8]) -> &[u8]
    ensures { result.now ≡ spec.behind_part word.now }
{
    dropped(from_colon(word), 1)
}
