//! What is known of the records of a transcript while its lines are read.

ghost use Rattle.std.specs.Prelude.{◌≡◌, ◌+◌, ℕ, IfOk, None, Ok, Some, [], length};
ghost use Rattle.vx_lines.specs.ReadRecords.{read_so_far};
ghost use Rattle.vx_lines.specs.declared.read.Reading.{Reading};
ghost use Rattle.vx_record.specs.State.{State};
ghost use Rattle.vx_check.specs.Following as spec;

use vx_base::{Effect, NoMemory, Rec, Scripted};
use vx_exec::Exec;
use vx_record::same_rec;

/// What is known of the records that were read.
#[derive(Drop)]
pub enum Course {
    /// There is none.
    Begun,
    /// Those before the last are the machine's. The machine made the first of these of the last one's event. The second is what was
    /// read of the last: all of it, or one effect more than the machine made.
    Open(Rec, Rec),
    /// The record of this number is the first that is not the machine's.
    Wrong(u32),
}

/// How many records were read, and what is known of them.
#[derive(Drop)]
pub struct Progress {
    pub count: u32,
    pub course: Course,
}

/// The number of the first record that is not the machine's, if the executive has taken so many; None if all are.
pub fn first_wrong_of(course: &Course, taken: u32) -> Option<u32>
    ensures right { result ≡ None → spec.IsRight course.now }
    ensures wrong { (n : ℕ) → result ≡ Some n → spec.IsWrong taken course.now n }
{
    match course {
        Course::Begun => None,
        Course::Open(made, kept) => {
            if same_rec(made, kept) {
                None
            } else {
                Some(taken)
            }
        }
        Course::Wrong(n) => Some(*n),
    }
}

/// Takes the event of the head with this number behind records that are the machine's, if it is enabled.
fn opened(exec: &mut Exec<Scripted>, number: u32, head: Rec) -> Result<Course, NoMemory>
    ensures { IfOk result (λ course. spec.Opens exec.old exec.new number head course) }
{
    if exec.limit() <= exec.taken() {
        return Ok(Course::Wrong(number));
    }
    if !exec.is_enabled(head.event) {
        return Ok(Course::Wrong(number));
    }
    let made = exec.step(head.event)?;
    Ok(Course::Open(made, head))
}

/// What is known behind the head with this number.
pub fn course_behind(
    exec: &mut Exec<Scripted>,
    course: &Course,
    number: u32,
    head: Rec,
) -> Result<Course, NoMemory>
    ensures { IfOk result (λ next. (s : State) (r : Reading) → spec.Follows s exec.old course.now r → head.effects ≡ [] →
        number ≡ length (read_so_far r) + 1 → spec.Follows s exec.new next (record { recs = read_so_far r; current = Some head })) }
{
    match first_wrong_of(course, exec.taken()) {
        Some(n) => Ok(Course::Wrong(n)),
        None => opened(exec, number, head),
    }
}

/// A record with one effect more, if it has no more than so many.
fn with_more(rec: Rec, most: usize, effect: Effect) -> Result<Rec, NoMemory>
    ensures { IfOk result (λ more. more ≡ spec.with_more rec most effect) }
{
    let mut rec = rec;
    if most < rec.effects.as_slice().len() {
        return Ok(rec);
    }
    rec.effects.push(effect)?;
    Ok(rec)
}

/// What is known behind an effect.
pub fn course_with(course: Course, effect: Effect) -> Result<Course, NoMemory>
    ensures { IfOk result (λ next. next ≡ spec.course_with course effect) }
{
    match course {
        Course::Begun => Ok(Course::Begun),
        Course::Open(made, kept) => {
            let kept = with_more(kept, made.effects.as_slice().len(), effect)?;
            Ok(Course::Open(made, kept))
        }
        Course::Wrong(n) => Ok(Course::Wrong(n)),
    }
}
