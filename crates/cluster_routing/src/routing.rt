//! Where a command goes.

ghost use Rattle.std.specs.Prelude.{◌≡◌, option_map, IfOk, Some};
ghost use Rattle.cluster_routing.specs.Command.{is_one_of};
ghost use Rattle.cluster_routing.specs.Directions.{destination_in, shown_direction};
ghost use Rattle.cluster_routing.specs.Info.{shown_info, shown_parts, texts};
ghost use Rattle.cluster_routing.specs.Routing.{destination, role_of, to_some_parts};

use crate::address::NodeAddress;
use crate::direction::Direction;
use crate::policy::{MultiSlotArgPattern, ResponsePolicy};
use crate::routable::Routable;
use crate::route::{Route, SlotAddr};
use crate::split::SplitParts;
use crate::table::is_same_word;
use std::alloc::{AllocError, Global};

/// The nodes that a command goes to. (Documentation of the crate `redis`.)
#[derive(Debug, PartialEq, Drop)]
pub enum RoutingInfo {
    /// To one node.
    SingleNode(SingleNodeRoutingInfo),
    /// To several nodes, whose replies become one by the policy.
    MultiNode((MultipleNodeRoutingInfo, Option<ResponsePolicy>)),
}

/// Which single node. (Documentation of the crate `redis`.)
#[derive(Debug, PartialEq, Drop)]
pub enum SingleNodeRoutingInfo {
    /// Any node.
    Random,
    /// Any primary.
    RandomPrimary,
    /// The node that a route leads to.
    SpecificNode(Route),
    /// The node with this address.
    ByAddress(NodeAddress),
}

/// Which nodes. (Documentation of the crate `redis`.)
#[derive(Debug, PartialEq, Drop)]
pub enum MultipleNodeRoutingInfo {
    /// All nodes, replicas too.
    AllNodes,
    /// All primaries.
    AllMasters,
    /// The nodes of these routes, each with the places of its tuples: 0 is the first argument
    /// behind the word, and places ascend. The routes stand in the order in which their slots
    /// first appear, each slot once.
    MultiSlot((Vec<(Route, Vec<usize>)>, MultiSlotArgPattern)),
}

/// Where a redirect sends a request on. (Redis Cluster specification.)
#[derive(Debug, PartialEq, Drop)]
pub enum Redirect {
    /// `MOVED`: from now on to this node.
    Moved(NodeAddress),
    /// `ASK`: this once to this node, behind `ASKING`.
    Ask(NodeAddress),
}

/// `Some` route is that node, `None` any node.
impl From<Option<Route>> for SingleNodeRoutingInfo {
    ghost use Rattle.std.specs.Prelude.{◌≡◌};
    ghost use Rattle.cluster_routing.specs.Info.{single_of};

    ghost from_gives = { λ route info. info ≡ single_of route };

    fn from(route: Option<Route>) -> SingleNodeRoutingInfo {
        match route {
            Some(route) => SingleNodeRoutingInfo::SpecificNode(route),
            None => SingleNodeRoutingInfo::Random,
        }
    }
}

impl RoutingInfo {
    /// Where a command goes; `None` where it goes to no node by the routing table.
    ///
    /// A word that the table does not list goes to the slot of its first argument, as if that were
    /// a key: the table is this project's own there, and `SWAPDB 0 1` goes to the slot of `0`.
    ///
    /// `read_only` are the names of the commands that may be served by a replica: their route is
    /// `ReplicaOptional`, every other `Master`. Names are compared without the case of ASCII
    /// letters. A split command goes to a single node where all its keys have one slot, and
    /// nowhere where an argument is a gap, its last tuple is broken, or it has none. A missing
    /// argument or a gap where a key, a number or a name is needed leads nowhere.
    ///
    /// # Errors
    /// `AllocError` where memory is refused.
    pub fn for_routable<R: Routable>(
        alloc: Global,
        r: &R,
        read_only: &[Vec<u8>],
    ) -> Result<Option<RoutingInfo>, AllocError>
        ensures { IfOk result
            (λ o. option_map shown_info o ≡ destination (R.args r.now) (texts read_only.now)) }
    {
        let direction = Direction::for_routable(alloc, r, read_only)?;
        Ok(info_of(direction))
    }
}

/// A direction as the crate `redis` tells it: a split command whose keys have one slot goes to a single node, and
/// nowhere has no reason.
fn info_of(direction: Direction) -> Option<RoutingInfo>
    ensures { option_map shown_info result ≡ destination_in (shown_direction direction) }
{
    match direction {
        Direction::Slot(route) => to_node(SingleNodeRoutingInfo::SpecificNode(route)),
        Direction::AnyNode => to_node(SingleNodeRoutingInfo::Random),
        Direction::AllNodes(policy) => to_nodes(MultipleNodeRoutingInfo::AllNodes, policy),
        Direction::AllPrimaries(policy) => to_nodes(MultipleNodeRoutingInfo::AllMasters, policy),
        Direction::Parts(parts) => info_of_parts(parts),
        Direction::Nowhere(_) => None,
    }
}

fn to_node(node: SingleNodeRoutingInfo) -> Option<RoutingInfo>
    ensures { result ≡ Some (RoutingInfo.SingleNode node) }
{
    Some(RoutingInfo::SingleNode(node))
}

fn to_nodes(nodes: MultipleNodeRoutingInfo, policy: ResponsePolicy) -> Option<RoutingInfo>
    ensures { result ≡ Some (RoutingInfo.MultiNode (nodes, Some policy)) }
{
    Some(RoutingInfo::MultiNode((nodes, Some(policy))))
}

/// One part is a single node, and no part is none.
fn info_of_parts(parts: SplitParts) -> Option<RoutingInfo>
    ensures { option_map shown_info result
        ≡ to_some_parts parts.pattern parts.policy (shown_parts parts.routes.items) }
{
    let SplitParts {
        routes,
        pattern,
        policy,
    } = parts;
    match routes.as_slice() {
        [] => None,
        [(route, _)] => to_node(SingleNodeRoutingInfo::SpecificNode(*route)),
        _ => to_nodes(
            MultipleNodeRoutingInfo::MultiSlot((routes, pattern)),
            policy,
        ),
    }
}

/// Which nodes of a shard may serve a command by its name, as the routing table spells it (a container's in two
/// words): any one of them where the name is among `read_only`, else the primary.
pub fn role_of(name: &[u8], read_only: &[Vec<u8>]) -> SlotAddr
    ensures { result ≡ role_of name.now (texts read_only.now) }
{
    if is_among(name, read_only) {
        SlotAddr::ReplicaOptional
    } else {
        SlotAddr::Master
    }
}

fn is_among(name: &[u8], names: &[Vec<u8>]) -> bool
    ensures { result ≡ is_one_of (texts names.now) name.now }
{
    for listed in names {
        if is_same_word(listed, name) {
            return true;
        }
    }
    false
}
