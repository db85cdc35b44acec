//! Where commands go in a Redis Cluster: addresses, slots, the map of slots, and the routing table.
#![tactic(auto)]

mod address;
mod all_nodes;
mod candidates;
mod combine;
pub mod comparisons;
mod copies;
mod direction;
mod keys;
pub mod laws;
mod node_places;
mod policy;
mod range;
mod range_map;
mod routable;
mod route;
mod routing;
mod shards;
mod slot;
mod slot_map;
mod slots_reply;
mod split;
mod strategy;
mod table;
mod topology;
mod tuples;

pub use address::NodeAddress;
pub use candidates::{AnyNodeCandidates, ReadCandidates, Replicas, ReplicasOnlyCandidates};
pub use combine::{
    aggregate, combine_and_sort_array_results, combine_array_results, combine_map_results,
    combine_nodes, combine_parts, is_permutation, logical_aggregate,
};
pub use direction::Direction;
pub use keys::group_keys_by_slot;
pub use node_places::NodePlace;
pub use policy::{AggregateOp, LogicalAggregateOp, MultiSlotArgPattern, ResponsePolicy};
pub use range::{SlotAddrs, SlotAddrsIter, SlotRange};
pub use range_map::{SlotRangeMap, SlotRangeValues, SlotRanges};
pub use routable::Routable;
pub use route::{Route, SlotAddr};
pub use routing::{MultipleNodeRoutingInfo, Redirect, RoutingInfo, SingleNodeRoutingInfo, role_of};
pub use slot::Slot;
pub use slot_map::SlotMap;
pub use slots_reply::{parse_slots, slot_cmd};
pub use split::{SplitParts, command_for_multi_slot_indices};
pub use strategy::ReadRoutingStrategy;
pub use topology::{ClusterTopology, Shard};
