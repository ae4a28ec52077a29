//! The whole machine, as definitions: what each service and each event does to the plain state, what is enabled, what a run
//! is and how it ends.
//!
//! There is hardly any code here. The definitions stand in `specs/`, in files by theme, from `State.antt` to `Runs.antt`;
//! every contract of the executive cites them, and they cite nothing of how the code keeps its state. `proofs/` has the
//! law that references stand (`specs/Sound.antt`). Whole examples, computed from the definitions, stand in `vx_examples`.
#![tactic(auto)]

mod law;
mod same;
mod served;
mod standing;

pub use law::{
    events_keep_the_system, references_stand_after_each_service, references_stand_after_each_step,
    references_stand_at_first, references_stand_in_every_run,
};
pub use same::same_rec;
pub use served::Served;
pub use standing::Standing;
