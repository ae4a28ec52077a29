//! Judges a text.

ghost use Rattle.std.specs.Prelude.{◌≡◌, ◌+◌, ◌-◌, ◌<◌, ◌≤◌, ℕ, IfOk, None, length};
ghost use Rattle.vx_image.specs.WellFormed.{IsWellFormed};
ghost use Rattle.vx_record.specs.Types.{System as SystemOf};
ghost use Rattle.vx_journal.specs.ReadJournal.{IsFront, TellsIfFailed};
ghost use Rattle.vx_record.specs.Runs.{end_of, first};
ghost use Rattle.vx_check.specs.Following as follow_spec;
ghost use Rattle.vx_check.specs.Judging.{end_for};
ghost use Rattle.vx_check.specs.Verdict as spec;

use crate::checking::part_verdict;
use crate::following::{Followed, follow};
use crate::verdict::Verdict;
use std::alloc::Global;
use vx_base::{End, NoMemory, Scripted};
use vx_exec::Exec;
use vx_image::System;
use vx_journal::{Front, JournalFail, Part, read_front, read_trailer};
use vx_lines::LinesFail;

/// How the run ended. The executive's own limit is 100,000; if it has taken a record and could go on, the run ended at its limit.
fn ended_for(exec: &Exec<Scripted>) -> Option<End>
    requires { exec.now.limit ≡ 100000 }
    ensures { result ≡ end_for exec.now.taken (end_of exec.now.limit exec.now.taken exec.now.state) }
{
    match exec.ended() {
        Some(end) => Some(end),
        None => {
            if exec.taken() == 0 {
                None
            } else {
                Some(End::Limit)
            }
        }
    }
}

/// The verdict by an executive that has taken the records up to the first that is not the machine's, if there is one.
fn verdict_on(
    alloc: Global,
    exec: &Exec<Scripted>,
    wrong: Option<u32>,
    part: Part,
    trailer: &[u8],
) -> Result<Verdict, NoMemory>
    requires limited { exec.now.limit ≡ 100000 }
    requires within { wrong ≡ None → exec.now.taken ≤ 100000 }
    ensures { IfOk result (λ verdict. verdict ≡ follow_spec.verdict_on exec.now wrong part trailer.now) }
{
    match wrong {
        Some(n) => Ok(Verdict::Bad(n)),
        None => part_verdict(alloc, exec, ended_for(exec), part, trailer),
    }
}

/// Judges what stands behind records that were followed, from the header of this text on.
fn judge_behind(
    alloc: Global,
    exec: &Exec<Scripted>,
    followed: Followed,
    text: &[u8],
) -> Result<Verdict, LinesFail>
    requires limited { exec.now.limit ≡ 100000 }
    requires taken { followed.wrong ≡ None → exec.now.taken ≤ 100000 }
    requires few { length exec.now.state.system.units ≤ 32 }
    requires within { followed.len ≤ length text.now }
    requires short { followed.line + (length text.now - followed.len) < 4294967295 }
    ensures { (system : SystemOf) (line : ℕ) → exec.now.state.system ≡ system → follow_spec.FollowsAll (first system) exec.now line text.now followed →
        follow_spec.JudgesBehind system line text.now result }
{
    let trailer = &text[followed.len..];
    let units = exec.system().units.as_slice();
    match read_trailer(alloc, units, followed.line, trailer) {
        Ok(part) => match verdict_on(alloc, exec, followed.wrong, part, trailer) {
            Ok(verdict) => Ok(verdict),
            Err(NoMemory) => Err(LinesFail::NoMemory),
        },
        Err(failure) => Err(failure),
    }
}

/// Judges the records and the trailer that stand behind the header of a transcript, whose first line has this number, by an executive
/// before its first event; or tells the first bad line.
fn judge_by(
    alloc: Global,
    exec: &mut Exec<Scripted>,
    line: u32,
    text: &[u8],
) -> Result<Verdict, LinesFail>
    requires fresh { exec.old ≡ follow_spec.fresh exec.old.state }
    requires few { length exec.old.state.system.units ≤ 32 }
    requires short { line + length text.now < 4294967295 }
    ensures { (system : SystemOf) → exec.old.state ≡ first system → follow_spec.JudgesBehind system line text.now result }
{
    match follow(alloc, exec, line, text) {
        Ok(followed) => judge_behind(alloc, exec, followed, text),
        Err(failure) => Err(failure),
    }
}

/// Judges the same for a system.
fn check_behind(alloc: Global, system: System, line: u32, text: &[u8]) -> Result<Verdict, LinesFail>
    requires formed { IsWellFormed system }
    requires short { line + length text.now < 4294967295 }
    ensures { follow_spec.JudgesBehind system line text.now result }
{
    let mut exec = Exec::new(alloc, system, 100_000)?;
    let verdict = judge_by(alloc, &mut exec, line, text);
    drop(exec);
    verdict
}

/// Judges a text that begins with this front.
fn check_front(alloc: Global, front: Front, text: &[u8]) -> Result<Verdict, JournalFail>
    requires front { IsFront text.now front }
    requires formed { IsWellFormed front.system }
    requires short { length text.now < 4294967295 }
    requires within { front.end.len ≤ length text.now }
    requires lines { front.end.line ≤ front.end.len }
    ensures verdict { IfOk result (λ v. spec.IsJudged text.now v) }
    ensures failure { TellsIfFailed text.now result }
{
    let Front { system, end } = front;
    match check_behind(alloc, system, end.line, &text[end.len..]) {
        Ok(verdict) => Ok(verdict),
        Err(LinesFail::Bad(line)) => Err(JournalFail::Form(line)),
        Err(LinesFail::NoMemory) => Err(JournalFail::NoMemory),
    }
}

/// Judges a transcript, whole or cut, line by line; or tells the first fault of its script, or the first line that may not stand where
/// it does. It keeps the script's system and one record of the text at a time.
pub fn check_text(alloc: Global, text: &[u8]) -> Result<Verdict, JournalFail>
    requires { length text.now < 4294967295 }
    // The verdict is that on the transcript that the text is, and the failure is the text's, unless memory runs out.
    ensures verdict { IfOk result (λ v. spec.IsJudged text.now v) }
    ensures failure { TellsIfFailed text.now result }
{
    match read_front(alloc, text) {
        Ok(front) => check_front(alloc, front, text),
        Err(failure) => Err(failure),
    }
}
