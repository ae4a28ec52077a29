//! A common cluster is made by who associates it first, and is shared.

use std::test::*;
use vx_base::{Effects, Name, NoMemory, Pid};
use vx_clusters::{Clusters, NewCluster};

// A process of group 9 associates the cluster C for flags 64 to 95.
#[tactic(auto, using(vx_clusters::proofs::Few::associate_few))]
fn associate(
    clusters: &mut Clusters,
    log: &mut Effects,
    p: Pid,
    name: Name,
) -> Result<bool, NoMemory> {
    clusters.reserve()?;
    log.reserve(4)?;
    let ask = NewCluster {
        group: 9,
        name,
        permanent: false,
    };
    Ok(clusters.associate(p, 64, ask, true, log).is_ok())
}

#[test]
fn two_processes_share_a_flag(rt: HostRuntime) -> Result<(), Fail> {
    let name = Name::new(b"C").ok_or("a name")?;
    let mut clusters = Clusters::new(rt.alloc());
    let mut log = Effects::new(rt.alloc());
    for p in [1, 2] {
        let done = associate(&mut clusters, &mut log, Pid(p), name);
        assert_eq!(rt; done, Ok(true));
    }
    let place = clusters.resolve(Pid(1), 64).ok_or("a cluster")?;
    assert!(rt; !clusters.set(place, 31));
    assert_eq!(rt; clusters.resolve(Pid(2), 95), Some(place));
    assert_eq!(rt; clusters.bits(place), 0x8000_0000);
    Ok(())
}
