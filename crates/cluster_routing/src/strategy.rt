//! Strategies that choose the node of a read.

ghost use Rattle.std.specs.Prelude.{◌≡◌};
ghost use Rattle.cluster_routing.specs.Candidates.{candidate_slot};
ghost use Rattle.cluster_routing.specs.Choice.{IsAdmitted, IsAnyBy, IsChosenAmong, IsReplicaBy, strategy_of};
ghost use Rattle.cluster_routing.specs.Seen.{address};
ghost use Rattle.cluster_routing.specs.Lent.{lent};

use crate::address::NodeAddress;
use crate::candidates::{AnyNodeCandidates, ReadCandidates, Replicas, ReplicasOnlyCandidates};
use crate::route::{Route, SlotAddr};
use crate::topology::ClusterTopology;

impl<'a> ReadCandidates<'a> {
    /// The slot that is read.
    pub fn slot(&self) -> u16
        ensures { result ≡ candidate_slot (lent self.now) }
    {
        match self {
            ReadCandidates::AnyNode(any) => any.slot(),
            ReadCandidates::ReplicasOnly(replicas) => replicas.slot(),
        }
    }
}

/// A choice of the node that a read goes to. (Documentation of the crate `redis`.)
pub trait ReadRoutingStrategy {
    ghost use Rattle.std.specs.Prelude.{Bool};
    ghost use Rattle.cluster_routing.specs.Address.{Address};
    ghost use Rattle.cluster_routing.specs.Candidates.{Candidates};

    /// Which addresses the strategy may answer for these candidates.
    ghost admits: { Self → Candidates → Address → Bool };

    /// The node that a read goes to: one of the candidates, that the strategy admits. It may
    /// differ from call to call.
    fn route_read<'a>(&self, candidates: &ReadCandidates<'a>) -> &'a NodeAddress
        ensures { IsAdmitted (admits self.now) (lent candidates.now) (address result.now) };

    /// Tells the strategy the shards of the cluster after they changed. A strategy that keeps
    /// nothing of them may leave this out. Whoever holds the connection calls it: nothing in this
    /// crate does.
    fn on_topology_changed(&self, _topology: &ClusterTopology) {}
}

/// The node that serves a request for a slot with replicas.
pub(crate) fn node_among<'a>(
    route: Route,
    primary: &'a NodeAddress,
    replicas: Replicas<'a>,
    pick: u64,
    strategy: Option<&dyn ReadRoutingStrategy>,
) -> &'a NodeAddress
    ensures { IsChosenAmong (strategy_of admits strategy.entry) route.slot route.slot_addr pick
        (address primary.now) replicas.entry (address result.now) }
{
    let slot = route.slot();
    match route.slot_addr() {
        SlotAddr::Master => primary,
        SlotAddr::ReplicaOptional => {
            any_node(AnyNodeCandidates::new(slot, primary, replicas), strategy)
        }
        SlotAddr::ReplicaRequired => {
            replica(ReplicasOnlyCandidates::new(slot, replicas), pick, strategy)
        }
    }
}

fn any_node<'a>(
    any: AnyNodeCandidates<'a>,
    strategy: Option<&dyn ReadRoutingStrategy>,
) -> &'a NodeAddress
    ensures { IsAnyBy (strategy_of admits strategy.entry) any.entry.slot any.entry.nodes (address result.now) }
{
    match strategy {
        None => any.primary(),
        Some(strategy) => strategy.route_read(&ReadCandidates::AnyNode(any)),
    }
}

fn replica<'a>(
    only: ReplicasOnlyCandidates<'a>,
    pick: u64,
    strategy: Option<&dyn ReadRoutingStrategy>,
) -> &'a NodeAddress
    ensures { IsReplicaBy (strategy_of admits strategy.entry) only.entry.slot pick only.entry.replicas
        (address result.now) }
{
    match strategy {
        None => only.replicas().choose_random(pick),
        Some(strategy) => strategy.route_read(&ReadCandidates::ReplicasOnly(only)),
    }
}
