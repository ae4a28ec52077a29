//! Words of a canonical line, each behind a space.

ghost use Rattle.std.specs.Prelude.{OnOk, ◌++◌, ◌∷◌, ◌≡◌, decimal};
ghost use Rattle.vx_table.specs.Spelling.{operand_text, target_text};
ghost use Rattle.vx_text.specs.Quote.{quote_text};

use vx_base::{Bytes, NoMemory, Operand, Target};
use vx_table::{print_operand, print_target};
use vx_text::{print_num, print_quote};

/// Appends a word behind a space.
pub fn print_word(word: &[u8], out: &mut Bytes) -> Result<(), NoMemory>
    ensures { OnOk result (out.new ≡ out.old ++ 32 ∷ word.now) }
{
    out.push_all(b" ")?;
    out.push_all(word)
}

/// Appends a number behind a space.
pub fn print_number(n: u32, out: &mut Bytes) -> Result<(), NoMemory>
    ensures { OnOk result (out.new ≡ out.old ++ 32 ∷ decimal n) }
{
    out.push_all(b" ")?;
    print_num(out, u64::from(n))
}

/// Appends a quoted text behind a space.
pub fn print_text(bytes: &[u8], out: &mut Bytes) -> Result<(), NoMemory>
    ensures { OnOk result (out.new ≡ out.old ++ 32 ∷ quote_text bytes.now) }
{
    out.push_all(b" ")?;
    print_quote(out, bytes)
}

/// Appends a value behind a space.
pub fn print_value(value: Operand, out: &mut Bytes) -> Result<(), NoMemory>
    ensures { OnOk result (out.new ≡ out.old ++ 32 ∷ operand_text value) }
{
    out.push_all(b" ")?;
    print_operand(value, out)
}

/// Appends a target behind a space.
pub fn print_place(target: Target, out: &mut Bytes) -> Result<(), NoMemory>
    ensures { OnOk result (out.new ≡ out.old ++ 32 ∷ target_text target) }
{
    out.push_all(b" ")?;
    print_target(target, out)
}
