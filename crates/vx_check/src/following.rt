//! Takes the records of a text one after another, line by line, and keeps none of them.

ghost use Rattle.std.specs.Prelude.{◌≡◌, ◌+◌, ◌<◌, ◌≤◌, IfOk, IfSome, Some, [], length};
ghost use Rattle.vx_base.specs.Services.{service_rows};
ghost use Rattle.vx_lines.specs.ReadEffect.{read_effect};
ghost use Rattle.vx_lines.specs.ReadHead.{read_head};
ghost use Rattle.vx_lines.specs.ReadRecords.{head_line, read_line, with_head};
ghost use Rattle.vx_lines.specs.declared.read.Reading.{Reading};
ghost use Rattle.vx_record.specs.State.{State};
ghost use Rattle.vx_check.specs.Following as spec;

use crate::course::{Course, Progress, course_behind, course_with, first_wrong_of};
use std::alloc::Global;
use vx_base::{Effect, NoMemory, Rec, Scripted};
use vx_exec::Exec;
use vx_lines::{LinesFail, begins_with_space, fed_len, is_of_record, read_effect, read_head};
use vx_table::{ServiceTable, service_table};

/// The records that a text begins with: the number of the first that is not the machine's, that of the line behind them, and how many
/// bytes they take.
#[derive(Clone, Copy)]
pub struct Followed {
    pub wrong: Option<u32>,
    pub line: u32,
    pub len: usize,
}

fn with_effect(progress: Progress, effect: Option<Effect>) -> Result<Option<Progress>, NoMemory>
    ensures { IfOk result (λ next. next ≡ spec.with_effect progress effect) }
{
    let Progress { count, course } = progress;
    let Some(effect) = effect else {
        return Ok(None);
    };
    if count == 0 {
        return Ok(None);
    }
    let course = course_with(course, effect)?;
    Ok(Some(Progress { count, course }))
}

fn with_head(
    exec: &mut Exec<Scripted>,
    progress: Progress,
    head: Option<Rec>,
) -> Result<Option<Progress>, NoMemory>
    requires { progress.count < 4294967295 }
    ensures follows { IfSome head (λ h. h.effects ≡ []) → IfOk result (λ next. (s : State) (r : Reading) → spec.IsFollowing s exec.old progress r →
        spec.FollowsLine s exec.new next (with_head r head)) }
    ensures within { IfOk result (λ next. IfSome next (λ p. p.count ≤ progress.count + 1)) }
{
    let Progress { count, course } = progress;
    let Some(head) = head else {
        return Ok(None);
    };
    let number = count + 1;
    let course = course_behind(exec, &course, number, head)?;
    Ok(Some(Progress {
        count: number,
        course,
    }))
}

fn effect_line(alloc: Global, progress: Progress, line: &[u8]) -> Result<Option<Progress>, NoMemory>
    requires { length line.now < 4294967295 }
    ensures { IfOk result (λ next. next ≡ spec.with_effect progress (read_effect line.now)) }
{
    let effect = read_effect(alloc, line)?;
    with_effect(progress, effect)
}

fn head_line(
    alloc: Global,
    table: &ServiceTable<36>,
    exec: &mut Exec<Scripted>,
    progress: Progress,
    line: &[u8],
) -> Result<Option<Progress>, NoMemory>
    requires rows { table.now ≡ service_rows }
    requires few { length exec.old.state.system.units ≤ 32 }
    requires short { length line.now < 4294967295 }
    requires count { progress.count < 4294967295 }
    ensures follows { IfOk result (λ next. (s : State) (r : Reading) → spec.IsFollowing s exec.old progress r →
        spec.FollowsLine s exec.new next (head_line exec.old.state.system.units r line.now)) }
    ensures within { IfOk result (λ next. IfSome next (λ p. p.count ≤ progress.count + 1)) }
{
    let number = u64::from(progress.count) + 1;
    let head = read_head(alloc, table, exec.system().units.as_slice(), number, line)?;
    with_head(exec, progress, head)
}

fn read_line(
    alloc: Global,
    table: &ServiceTable<36>,
    exec: &mut Exec<Scripted>,
    progress: Progress,
    line: &[u8],
) -> Result<Option<Progress>, NoMemory>
    requires rows { table.now ≡ service_rows }
    requires few { length exec.old.state.system.units ≤ 32 }
    requires short { length line.now < 4294967295 }
    requires count { progress.count < 4294967295 }
    ensures follows { IfOk result (λ next. (s : State) (r : Reading) → spec.IsFollowing s exec.old progress r →
        spec.FollowsLine s exec.new next (read_line exec.old.state.system.units r line.now)) }
    ensures within { IfOk result (λ next. IfSome next (λ p. p.count ≤ progress.count + 1)) }
{
    if begins_with_space(line) {
        effect_line(alloc, progress, line)
    } else {
        head_line(alloc, table, exec, progress, line)
    }
}

/// Takes the records that a text begins with, whose first line has this number, by an executive before its first event; or tells the
/// first bad line.
pub fn follow(
    alloc: Global,
    exec: &mut Exec<Scripted>,
    line: u32,
    text: &[u8],
) -> Result<Followed, LinesFail>
    requires fresh { exec.old ≡ spec.fresh exec.old.state }
    requires few { length exec.old.state.system.units ≤ 32 }
    requires short { line + length text.now < 4294967295 }
    ensures follows { spec.IfFollows exec.old.state exec.new line text.now result }
    ensures within { IfOk result (λ f. f.len ≤ length text.now) }
    ensures lines { IfOk result (λ f. f.line ≤ line + f.len) }
{
    let table = service_table();
    let mut progress = Progress {
        count: 0,
        course: Course::Begun,
    };
    let mut line = line;
    let mut at = 0;
    while is_of_record(&text[at..]) {
        let rest = &text[at..];
        let len = fed_len(rest);
        let Some(next) = read_line(alloc, &table, exec, progress, &rest[..len])? else {
            return Err(LinesFail::Bad(line));
        };
        progress = next;
        line += 1;
        at += len;
    }
    Ok(Followed {
        wrong: first_wrong_of(&progress.course, exec.taken()),
        line,
        len: at,
    })
}
