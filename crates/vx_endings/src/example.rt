//! Worked examples: how all runs of two processes end that touch nothing in common.

ghost use Rattle.std.specs.Prelude.{◌≡◌, ◌++◌, codes};
ghost use Rattle.vx_endings.specs.Endings.{endings};
ghost use Rattle.vx_endings.specs.Example.{two_processes};
ghost use Rattle.vx_endings.specs.Text.{rows_text};

/// A process has a record for each call and one for its rundown. So one call each makes 4 records, and there are 6 ways to choose the two
/// of P among them; two calls each make 6 records, and there are 20.
pub fn two_processes_example()
    ensures one { rows_text 1 (endings (two_processes 0) 4) ≡
        codes "ENDING 1 DONE RUNS 6\n PICKS 0,0,0,0\n PROCESS 1 P GONE 7\n PROCESS 2 Q GONE 7\n" }
    ensures two { rows_text 1 (endings (two_processes 1) 6) ≡
        codes "ENDING 1 DONE RUNS 20\n PICKS 0,0,0,0,0,0\n PROCESS 1 P GONE 7\n PROCESS 2 Q GONE 7\n" }
    // Two records of the six: both are P's, or one is each one's, or both are Q's.
    ensures cut_off { rows_text 1 (endings (two_processes 1) 2) ≡
        codes "ENDING 1 LIMIT RUNS 1\n PICKS 0,0\n PROCESS 1 P RUNDOWN 0\n PROCESS 2 Q ACTIVE 0\n" ++
        (codes "ENDING 2 LIMIT RUNS 2\n PICKS 0,1\n PROCESS 1 P ACTIVE 0\n PROCESS 2 Q ACTIVE 0\n" ++
        codes "ENDING 3 LIMIT RUNS 1\n PICKS 1,1\n PROCESS 1 P ACTIVE 0\n PROCESS 2 Q RUNDOWN 0\n") }
{}
