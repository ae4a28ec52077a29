//! Judges a transcript that was read whole, and reports of it.

ghost use Rattle.std.specs.Prelude.{◌≡◌, ◌<◌, ◌≤◌, IfOk, length};
ghost use Rattle.vx_check.specs.Verdict.{IsJudged};
ghost use Rattle.vx_draw.specs.Columns.{columns};
ghost use Rattle.vx_draw.specs.Picture.{picture};
ghost use Rattle.vx_commands.specs.Reported.{IsReported, IsReportText, status_of, report_text, wrong_in};
ghost use Rattle.vx_tell.specs.Told.{IsOutputOf, Told};

use crate::verdict::verdict_line;
use std::alloc::Global;
use vx_base::{Bytes, NoMemory};
use vx_check::{Verdict, check_text};
use vx_draw::{print_columns, print_picture};
use vx_host::Sink;
use vx_journal::{Journal, JournalFail, read_journal};
use vx_tell::{Output, Status, fault_line, form_line, tell_output};
use vx_words::Report;

/// The status of a verdict.
fn status_of(verdict: Verdict) -> Status
    ensures { result ≡ status_of verdict }
{
    match verdict {
        Verdict::Complete(_) => Status::Done,
        Verdict::Hung(_) => Status::Hung,
        Verdict::Limit(_) => Status::Limit,
        Verdict::Prefix(_) | Verdict::Bad(_) => Status::Illegal,
    }
}

// The number of the first record that is not the machine's, if the verdict is bad.
fn wrong_in(verdict: Verdict) -> Option<u32>
    ensures { result ≡ wrong_in verdict }
{
    match verdict {
        Verdict::Bad(n) => Some(n),
        Verdict::Complete(_) | Verdict::Hung(_) | Verdict::Limit(_) | Verdict::Prefix(_) => None,
    }
}

// The picture of a transcript.
fn picture(alloc: Global, journal: &Journal, wrong: Option<u32>) -> Result<Bytes, NoMemory>
    ensures { IfOk result (λ text. text ≡ picture journal.now.system journal.now.recs journal.now.trailer wrong) }
{
    let mut text = Bytes::new(alloc);
    let (recs, trailer) = (journal.recs.as_slice(), journal.trailer.as_slice());
    print_picture(alloc, &journal.system, recs, trailer, wrong, &mut text)?;
    Ok(text)
}

// The same as columns of text.
fn columns(alloc: Global, journal: &Journal, wrong: Option<u32>) -> Result<Bytes, NoMemory>
    ensures { IfOk result (λ text. text ≡ columns journal.now.system journal.now.recs journal.now.trailer wrong) }
{
    let mut text = Bytes::new(alloc);
    let (recs, trailer) = (journal.recs.as_slice(), journal.trailer.as_slice());
    print_columns(alloc, &journal.system, recs, trailer, wrong, &mut text)?;
    Ok(text)
}

// The report of a transcript with a verdict.
fn report_text(
    alloc: Global,
    report: Report,
    journal: &Journal,
    verdict: Verdict,
) -> Result<Bytes, NoMemory>
    ensures { IfOk result (λ text. text ≡ report_text report journal.now verdict) }
{
    match report {
        Report::Line => verdict_line(alloc, verdict),
        Report::Picture => picture(alloc, journal, wrong_in(verdict)),
        Report::Columns => columns(alloc, journal, wrong_in(verdict)),
    }
}

// The report of an input that has a verdict. The transcript is read whole now: as it was judged, no record was kept.
fn drawn(alloc: Global, report: Report, input: &[u8], verdict: Verdict) -> Result<Bytes, NoMemory>
    requires short { length input.now < 4294967295 }
    requires verdict { IsJudged input.now verdict }
    ensures { IfOk result (λ text. IsReported input.now report verdict text) }
{
    match read_journal(alloc, input) {
        Ok(journal) => {
            let text = report_text(alloc, report, &journal, verdict)?;
            Ok(text)
        }
        Err(JournalFail::NoMemory) => Err(NoMemory),
        Err(JournalFail::Script(_)) | Err(JournalFail::Form(_)) => unreachable!(),
    }
}

// The report of an input that has a verdict.
fn reported(
    alloc: Global,
    report: Report,
    input: &[u8],
    verdict: Verdict,
) -> Result<Bytes, NoMemory>
    requires short { length input.now < 4294967295 }
    requires verdict { IsJudged input.now verdict }
    ensures { IfOk result (λ text. IsReported input.now report verdict text) }
{
    match report {
        Report::Line => {
            let text = verdict_line(alloc, verdict)?;
            Ok(text)
        }
        Report::Picture | Report::Columns => drawn(alloc, report, input, verdict),
    }
}

/// What an input comes to that was read whole.
fn answer(alloc: Global, report: Report, input: &[u8]) -> Result<Output, NoMemory>
    requires { length input.now < 4294967295 }
    ensures { IfOk result (IsOutputOf (IsReportText report input.now)) }
{
    match check_text(alloc, input) {
        Ok(verdict) => Ok(Output {
            status: status_of(verdict),
            text: reported(alloc, report, input, verdict)?,
        }),
        Err(JournalFail::Script(fault)) => Ok(Output {
            status: Status::Form,
            text: fault_line(alloc, fault)?,
        }),
        Err(JournalFail::Form(line)) => Ok(Output {
            status: Status::Form,
            text: form_line(alloc, line)?,
        }),
        Err(JournalFail::NoMemory) => Err(NoMemory),
    }
}

/// Judges an input that was read whole, and writes a report of it, or why there is none.
pub fn judge<K: Sink>(alloc: Global, report: Report, input: &Bytes, sink: &mut K) -> Status
    requires { length input.now < 4294967295 }
    ensures told { Told (IsReportText report input.now) (K.faults sink.old) (K.faults sink.new)
        (K.held sink.old) (K.held sink.new) result }
    ensures later { K.faults sink.old ≤ K.faults sink.new }
{
    tell_output(sink, answer(alloc, report, input.as_slice()))
}
