//! A strategy that picks among replicas by their places.
ghost use Rattle.std.specs.Prelude.{Contains};
ghost use Rattle.cluster_routing.specs.Seen.{address};

use cluster_routing::{
    ClusterTopology, NodeAddress, ReadCandidates, ReadRoutingStrategy, Replicas,
};
use std::cell::Cell;

/// Answers the replica at a place, and counts how often it is asked, and told that the cluster changed.
#[derive(Drop)]
pub struct Nth {
    place: usize,
    pub asked: Cell<u64>,
    pub told: Cell<u64>,
}

impl Nth {
    pub fn new(place: usize) -> Nth {
        Nth {
            place,
            asked: Cell::new(0),
            told: Cell::new(0),
        }
    }
}

impl ReadRoutingStrategy for Nth {
    ghost use Rattle.std.specs.Prelude.{true};

    ghost admits = { λ _ _ _. true };

    fn route_read<'a>(&self, candidates: &ReadCandidates<'a>) -> &'a NodeAddress {
        self.asked.set(self.asked.get().wrapping_add(1));
        match candidates {
            ReadCandidates::AnyNode(any) => replica_at(any.replicas(), self.place),
            ReadCandidates::ReplicasOnly(only) => replica_at(only.replicas(), self.place),
        }
    }

    fn on_topology_changed(&self, _topology: &ClusterTopology) {
        self.told.set(self.told.get().wrapping_add(1));
    }
}

fn replica_at<'a>(replicas: &Replicas<'a>, place: usize) -> &'a NodeAddress
    ensures { Contains replicas.now (address result.now) }
{
    match replicas.get(place) {
        Some(replica) => replica,
        None => replicas.first(),
    }
}
