//! Examples of the whole machine, computed from its definitions.
//!
//! There is no code here. The definitions of `vx_record` say what each service and each event does; the theorems in `proofs/`
//! say what comes of them on given scripts and given states. What is expected stands there in full, worked out from the rules of
//! the services and not from the definitions, so that a definition which says something else fails to check.
//! `specs/Script.antt` has the words in which scripts and records are written, `specs/Small.antt` the small states.
#![tactic(auto)]
