//! The line of a verdict.

ghost use Rattle.std.specs.Prelude.{◌≡◌, IfOk};
ghost use Rattle.vx_commands.specs.Reported.{verdict_line, verdict_number, verdict_word};

use std::alloc::Global;
use vx_base::{Bytes, NoMemory};
use vx_check::Verdict;
use vx_text::print_num;

/// The word of a verdict, and the number behind it.
fn verdict_parts(verdict: Verdict) -> (&'static [u8], u32)
    ensures word { result.0.now ≡ verdict_word verdict }
    ensures number { result.1 ≡ verdict_number verdict }
{
    match verdict {
        Verdict::Complete(n) => (b"complete", n),
        Verdict::Hung(n) => (b"hung", n),
        Verdict::Limit(n) => (b"limit", n),
        Verdict::Prefix(n) => (b"prefix", n),
        Verdict::Bad(n) => (b"bad", n),
    }
}

/// The line of a verdict.
pub fn verdict_line(alloc: Global, verdict: Verdict) -> Result<Bytes, NoMemory>
    ensures { IfOk result (λ text. text ≡ verdict_line verdict) }
{
    let (word, n) = verdict_parts(verdict);
    let mut text = Bytes::new(alloc);
    text.push_all(b"check ")?;
    text.push_all(word)?;
    text.push_all(b" ")?;
    print_num(&mut text, u64::from(n))?;
    text.push_all(b"\n")?;
    Ok(text)
}
