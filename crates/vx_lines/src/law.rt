//! Laws of the lines.

ghost use Rattle.vx_lines.specs.Spelled.{ReadsBack};
ghost use Rattle.vx_lines.specs.SpelledHead.{HeadsReadBack};
ghost use Rattle.vx_lines.specs.SpelledRecords.{RecordsReadBack};

/// The line of each effect that has a spelling is read as the effect.
#[tactic(auto, using(crate::proofs::EffectsLaw::effects_back))]
pub fn effects_are_read_back()
    ensures { ReadsBack }
{}

/// The head of each record that has a spelling is read as the record without its effects, among the units that spelled it.
#[tactic(auto, using(crate::proofs::HeadsLaw::heads_back))]
pub fn heads_are_read_back()
    ensures { HeadsReadBack }
{}

/// The lines of records that have a spelling are read as the records, numbered from 1, up to what begins otherwise.
#[tactic(auto, using(crate::proofs::RecordsLaw::records_back))]
pub fn records_are_read_back()
    ensures { RecordsReadBack }
{}
