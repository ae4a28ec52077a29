//! The common event flag clusters: who has which associated, and their flags.
//!
//! A group's clusters are known by name. A process has at most two of them associated, as its clusters 2 and 3. A cluster
//! is made with its first association, and gone with its last, but for a permanent one that is not marked for deletion.
//!
//! What a call does is one change of `vx_base`'s `specs/Clusters.antt`: the effects that it logs, and what it leaves. What
//! all of them keep is in `specs/Sound.antt`.
#![tactic(auto)]

mod association;
mod cluster;
mod clusters;
mod fail;
mod snapshot;
mod table;

pub use cluster::NewCluster;
pub use clusters::Clusters;
pub use fail::AscFail;
pub use snapshot::ClustersSnapshot;
