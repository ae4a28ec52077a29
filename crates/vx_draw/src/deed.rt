//! What a record did, in a few words.

ghost use Rattle.std.specs.Prelude.{◌≡◌, ◌++◌, OnOk};
ghost use Rattle.vx_draw.specs.Columns.{deed_text, event_word};

use vx_base::{Bytes, Event, NoMemory, Rec};
use vx_lines::print_answer;

fn event_word(event: Event) -> &'static [u8]
    ensures { result.now ≡ event_word event }
{
    match event {
        Event::Run(_) => b"",
        Event::Ast(_) => b"AST ",
        Event::Rdn(_) => b"RDN ",
        Event::Beg(_) => b"BEG ",
        Event::Don(_) => b"DON ",
        Event::Tick => b"TICK ",
    }
}

/// Appends what a record did: its event, but for who acted, and its answer.
pub fn print_deed(rec: &Rec, out: &mut Bytes) -> Result<(), NoMemory>
    ensures { OnOk result (out.new ≡ out.old ++ deed_text rec.now) }
{
    out.push_all(event_word(rec.event))?;
    print_answer(&rec.answer, out)
}
