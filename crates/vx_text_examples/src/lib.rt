//! Worked examples, from the script to the transcript and back, computed from the definitions.
#![tactic(auto)]

ghost use Rattle.vx_text_examples.specs.Example.{IsCheckedExample, IsFlagExample, IsRefusedExample};

/// The example's script says its system, its records are the run that seed 0 chooses, and its transcript is theirs: each by
/// computation, from the definitions alone.
pub fn flag_example()
    ensures { IsFlagExample }
{}

/// The same of an example whose flags are at the ends of their ranges, some of them refused, and whose image ends.
pub fn refused_example()
    ensures { IsRefusedExample }
{}

/// The first example's transcript is read as its run, and found complete; cut behind record 2 it is a prefix; a zero in front of a
/// number is told by its line, and a wrong record by its number.
pub fn checked_example()
    ensures { IsCheckedExample }
{}
