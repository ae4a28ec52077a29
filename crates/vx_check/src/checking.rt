//! Judges a transcript.

ghost use Rattle.std.specs.Prelude.{◌≡◌, ◌↔◌, ◌<◌, ◌≤◌, ℕ, IfOk, IsTrue, Ok, None, Some, true, length};
ghost use Rattle.vx_exec.specs.Taken.{TakesRun};
ghost use Rattle.vx_exec.specs.View.{after_step, plan};
ghost use Rattle.vx_image.specs.WellFormed.{IsWellFormed};
ghost use Rattle.vx_record.specs.Runs.{IsStep};
ghost use Rattle.vx_check.specs.Judging.{JudgesRecords, IsWrongFrom, most_for};
ghost use Rattle.vx_check.specs.Verdict as spec;

use crate::verdict::Verdict;
use std::alloc::Global;
use vx_base::{Bytes, End, NoMemory, Rec, Scripted};
use vx_exec::Exec;
use vx_journal::{Journal, Part};
use vx_record::same_rec;
use vx_trailer::print_trailer;

/// The most records of a run.
const MOST: usize = 100_000;

/// The limit of the executive that judges so many records.
fn most_for(count: usize) -> u32
    ensures limit { result ≡ most_for count }
    ensures above { 1 ≤ result }
    ensures within { result ≤ 100000 }
{
    if count == 0 {
        1
    } else if count < MOST {
        count as u32
    } else {
        100_000
    }
}

/// Takes the event of a record, if it is enabled: whether the record is the machine's.
fn takes(exec: &mut Exec<Scripted>, rec: &Rec) -> Result<bool, NoMemory>
    requires { exec.old.taken < exec.old.limit }
    ensures same { IfOk result (λ same. IsTrue same ↔ IsStep exec.old.state rec.now) }
    ensures after { result ≡ Ok true → exec.new ≡ after_step exec.old rec.now.event }
    ensures plan { plan exec.new ≡ plan exec.old }
{
    if !exec.is_enabled(rec.event) {
        return Ok(false);
    }
    let made = exec.step(rec.event)?;
    Ok(same_rec(&made, rec))
}

/// Takes the events of records: the number of the first that is not the machine's, if there is one.
fn first_wrong(exec: &mut Exec<Scripted>, recs: &[Rec]) -> Result<Option<u32>, NoMemory>
    requires begun { exec.old.taken ≡ 0 }
    requires limited { exec.old.limit ≡ most_for (length recs.now) }
    ensures wrong { (n : ℕ) → result ≡ Ok (Some n) → IsWrongFrom exec.old.state recs.now n }
    ensures run { result ≡ Ok None → TakesRun exec.old exec.new recs.now }
    ensures few { result ≡ Ok None → length recs.now ≤ 100000 }
{
    for rec in recs {
        let taken = exec.taken();
        if taken == exec.limit() || !takes(exec, rec)? {
            return Ok(Some(taken + 1));
        }
    }
    Ok(None)
}

fn ended_verdict(end: End, n: u32) -> Verdict
    ensures { result ≡ spec.ended_verdict end n }
{
    match end {
        End::Done => Verdict::Complete(n),
        End::Hung => Verdict::Hung(n),
        End::Limit => Verdict::Limit(n),
    }
}

/// The verdict if all records are the machine's and the executive has taken them, and the run has ended so.
pub fn part_verdict(
    alloc: Global,
    exec: &Exec<Scripted>,
    ended: Option<End>,
    part: Part,
    trailer: &[u8],
) -> Result<Verdict, NoMemory>
    requires { exec.now.taken ≤ 100000 }
    ensures { IfOk result (λ verdict. verdict ≡ spec.part_verdict exec.now.state exec.now.taken part trailer.now ended) }
{
    let n = exec.taken();
    if part == Part::Cut {
        return Ok(Verdict::Prefix(n));
    }
    let Some(end) = ended else {
        return Ok(Verdict::Bad(n + 1));
    };
    let mut text = Bytes::new(alloc);
    print_trailer(exec, end, &mut text)?;
    if text.as_slice() == trailer {
        Ok(ended_verdict(end, n))
    } else {
        Ok(Verdict::Bad(n + 1))
    }
}

/// Judges records and what stands behind them, by an executive before its first event.
fn judge(
    alloc: Global,
    exec: &mut Exec<Scripted>,
    recs: &[Rec],
    part: Part,
    trailer: &[u8],
) -> Result<Verdict, NoMemory>
    requires begun { exec.old.taken ≡ 0 }
    requires limited { exec.old.limit ≡ most_for (length recs.now) }
    ensures { IfOk result (λ verdict. JudgesRecords exec.old.state recs.now part trailer.now verdict) }
{
    if let Some(n) = first_wrong(exec, recs)? {
        return Ok(Verdict::Bad(n));
    }
    part_verdict(alloc, exec, exec.ended(), part, trailer)
}

/// Judges a transcript.
pub fn check(alloc: Global, journal: Journal) -> Result<Verdict, NoMemory>
    requires formed { IsWellFormed journal.system }
    ensures { IfOk result (λ verdict. spec.IsVerdict journal verdict) }
{
    let Journal {
        system,
        recs,
        part,
        trailer,
    } = journal;
    let mut exec = Exec::new(alloc, system, most_for(recs.as_slice().len()))?;
    judge(alloc, &mut exec, recs.as_slice(), part, trailer.as_slice())
}
