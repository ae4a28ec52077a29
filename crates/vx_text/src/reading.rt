//! The tokens of a line.

ghost use Rattle.std.specs.Prelude.{◌<◌, length, IfOk};
ghost use Rattle.std.specs.List.{AllByRecursion};
ghost use Rattle.vx_text.specs.Lex.{Gives, lex, IsToken, AreInOrder};

use crate::first::{First, stands_first};
use crate::token::{LexFail, Token};
use std::alloc::Global;

/// The tokens of a line, which stands without its LF, in order and with their places; or the line's leftmost fault.
pub fn tokens(alloc: Global, line: &[u8]) -> Result<Vec<Token>, LexFail>
    requires { length line.now < 4294967295 }
    ensures gives { Gives (λ v. v.items) result (lex line.now) }
    ensures slices { IfOk result (λ v. AllByRecursion (IsToken line.now) v.items) }
    ensures order { IfOk result (λ v. AreInOrder 0 (length line.now) v.items) }
{
    let mut found = Vec::new(alloc);
    let mut at = 0;
    while at < line.len() {
        match stands_first(alloc, &line[at..])? {
            First::End => return Ok(found),
            First::Gap => at += 1,
            First::Found(tok, len) => {
                let token = Token {
                    tok,
                    start: at as u32,
                    end: (at + len) as u32,
                };
                found.push(token)?;
                at += len;
            }
            First::Bad(fail) => return Err(fail),
        }
    }
    Ok(found)
}
