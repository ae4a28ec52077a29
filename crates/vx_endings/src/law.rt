//! What the endings say of the machine's runs, on functions that do nothing: the laws are proved where these are.

ghost use Rattle.std.specs.Prelude.{ℕ, ◌≤◌, Contains, List, length, map};
ghost use Rattle.std.specs.List.{AllByRecursion};
ghost use Rattle.vx_record.specs.Types.{Rec as RecOf, System as SystemOf};
ghost use Rattle.vx_endings.specs.Endings.{endings};
ghost use Rattle.vx_endings.specs.EndsSo.{EndsSo, IsWitnessed};
ghost use Rattle.vx_endings.specs.declared.ending.RunEnding.{RunEnding as EndingOf};

/// Each run of a system that has ended, with at most as many records as the limit, has its ending among the rows.
pub fn every_run_has_a_row()
    ensures { (system : SystemOf) (limit : ℕ) (recs : List RecOf) (ending : EndingOf) → EndsSo system limit recs ending
        → Contains (map (λ row. row.what) (endings system limit)) ending }
{}

/// The run that a row's places choose ends as the row says.
#[tactic(auto, using(crate::proofs::Told::every_row_witnessed))]
pub fn every_row_has_a_run()
    ensures { (system : SystemOf) (limit : ℕ) → limit ≤ 100000 → AllByRecursion (IsWitnessed system limit) (endings system limit) }
{}

/// No run that ends as a row says has fewer records than the row has places.
#[tactic(auto, using(crate::proofs::Shortest::no_shorter_run))]
pub fn no_run_is_shorter()
    ensures { (system : SystemOf) (limit : ℕ) → AllByRecursion (λ row.
        (recs : List RecOf) → EndsSo system limit recs row.what → length row.picks ≤ length recs) (endings system limit) }
{}
