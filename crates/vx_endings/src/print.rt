//! Prints how all runs end.
//!
//! Each function appends its text. If memory runs out, it may have appended the start of it.

ghost use Rattle.std.specs.Prelude.{◌≡◌, ◌++◌, ◌∷◌, [], OnOk};
ghost use Rattle.vx_endings.specs.Text as spec;
ghost use Rattle.vx_endings.specs.Text.{answer_text, complete_line, cut_line, endings_text, head_line, more_places, picks_line, places_text, row_text, rows_text};

use crate::ending::RunEnding;
use vx_base::{Bytes, NoMemory};
use vx_explore::{Answer, Found};
use vx_journal::end_word;
use vx_lines::{print_spaced, print_spaced_num};
use vx_text::print_num;

/// Appends places, each behind a comma.
fn print_more_places(places: &[u32], out: &mut Bytes) -> Result<(), NoMemory>
    ensures { OnOk result (out.new ≡ out.old ++ more_places places.now) }
{
    for place in places {
        out.push_all(b",")?;
        print_num(out, u64::from(*place))?;
    }
    Ok(())
}

/// Appends a space and places, with a comma between two; nothing if there are none.
fn print_places(places: &[u32], out: &mut Bytes) -> Result<(), NoMemory>
    ensures { OnOk result (out.new ≡ out.old ++ places_text places.now) }
{
    match places {
        [] => Ok(()),
        [first, rest @ ..] => {
            out.push_all(b" ")?;
            print_num(out, u64::from(*first))?;
            print_more_places(rest, out)
        }
    }
}

/// Appends the line `ENDING`.
fn print_head(n: u64, row: &Found<RunEnding>, out: &mut Bytes) -> Result<(), NoMemory>
    ensures { OnOk result (out.new ≡ out.old ++ (head_line n row.now ++ 10 ∷ [])) }
{
    out.push_all(b"ENDING ")?;
    print_num(out, n)?;
    print_spaced(end_word(row.what.end), out)?;
    out.push_all(b" RUNS ")?;
    print_num(out, row.ways)?;
    out.push_all(b"\n")
}

/// Appends the line `PICKS`.
fn print_picks(picks: &[u32], out: &mut Bytes) -> Result<(), NoMemory>
    ensures { OnOk result (out.new ≡ out.old ++ (picks_line picks.now ++ 10 ∷ [])) }
{
    out.push_all(b" PICKS")?;
    print_places(picks, out)?;
    out.push_all(b"\n")
}

/// Appends the lines of an ending.
fn print_row(n: u64, row: &Found<RunEnding>, out: &mut Bytes) -> Result<(), NoMemory>
    ensures { OnOk result (out.new ≡ out.old ++ row_text n row.now) }
{
    print_head(n, row, out)?;
    print_picks(row.picks.as_slice(), out)?;
    out.push_all(row.what.trailer.as_slice())
}

/// Appends the lines of endings, with numbers from 1.
fn print_rows(rows: &[Found<RunEnding>], out: &mut Bytes) -> Result<(), NoMemory>
    ensures { OnOk result (out.new ≡ out.old ++ rows_text 1 rows.now) }
{
    for (i, row) in rows.iter().enumerate() {
        print_row(i as u64 + 1, row, out)?;
    }
    Ok(())
}

#[tactic(auto, unfolding(crate::specs::Text::complete_words))]
fn complete_words() -> &'static [u8]
    ensures { result.now ≡ spec.complete_words }
{
    b"explore complete limit"
}

/// Appends the line behind the endings.
fn print_complete(limit: u32, count: usize, out: &mut Bytes) -> Result<(), NoMemory>
    ensures { OnOk result (out.new ≡ out.old ++ (complete_line limit count ++ 10 ∷ [])) }
{
    out.push_all(complete_words())?;
    print_spaced_num(limit, out)?;
    out.push_all(b" endings ")?;
    print_num(out, count as u64)?;
    out.push_all(b"\n")
}

/// Appends all endings.
fn print_endings(rows: &[Found<RunEnding>], limit: u32, out: &mut Bytes) -> Result<(), NoMemory>
    ensures { OnOk result (out.new ≡ out.old ++ endings_text limit rows.now) }
{
    print_rows(rows, out)?;
    print_complete(limit, rows.len(), out)
}

#[tactic(auto, unfolding(crate::specs::Text::cut_words))]
fn cut_words() -> &'static [u8]
    ensures { result.now ≡ spec.cut_words }
{
    b"explore cut states"
}

/// Appends the one line of an exploration that was cut.
fn print_cut(states: u32, out: &mut Bytes) -> Result<(), NoMemory>
    ensures { OnOk result (out.new ≡ out.old ++ (cut_line states ++ 10 ∷ [])) }
{
    out.push_all(cut_words())?;
    print_spaced_num(states, out)?;
    out.push_all(b"\n")
}

/// Appends what an exploration answers with this limit and at most so many states.
pub fn print_answer(
    answer: &Answer<RunEnding>,
    limit: u32,
    states: u32,
    out: &mut Bytes,
) -> Result<(), NoMemory>
    ensures { OnOk result (out.new ≡ out.old ++ answer_text limit states answer.now) }
{
    match answer {
        Answer::Told(rows) => print_endings(rows.as_slice(), limit, out),
        Answer::Cut => print_cut(states, out),
    }
}
