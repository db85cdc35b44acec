//! Laws of equality, order and hash of this crate's types. Each is the contract of a call that makes
//! the one call that it speaks of.

ghost use Rattle.std.specs.Prelude.{◌≡◌, ◌↔◌, fold, true, None};
ghost use Rattle.std.specs.Ordering.{nat_cmp};
ghost use Rattle.cluster_routing.specs.Comparisons.{hashed_role, hashed_route, hashed_slot, role_cmp, route_cmp};
ghost use Rattle.cluster_routing.specs.Info.{shown_info, shown_multiple, shown_single, shown_split};

use crate::policy::{AggregateOp, LogicalAggregateOp, MultiSlotArgPattern, ResponsePolicy};
use crate::route::{Route, SlotAddr};
use crate::routing::{MultipleNodeRoutingInfo, RoutingInfo, SingleNodeRoutingInfo};
use crate::slot::Slot;
use crate::split::SplitParts;
use std::cmp::Ordering;
use std::hash::{Hash, Hasher};

/// Two slots are equal where their numbers are.
pub fn equality_of_slots(a: &Slot, b: &Slot) -> bool
    ensures { result ≡ true ↔ a.now.number ≡ b.now.number }
{
    a == b
}

/// The order of slots is that of their numbers.
pub fn order_of_slots(a: &Slot, b: &Slot) -> Ordering
    ensures { result ≡ nat_cmp a.now.number b.now.number }
{
    a.cmp(b)
}

/// A slot feeds its hasher its number.
pub fn hash_of_a_slot<H: Hasher>(slot: &Slot, state: &mut H)
    ensures { state.new ≡ fold H.write state.old (hashed_slot slot.now) }
{
    slot.hash(state);
}

/// Two roles are equal where they are the same.
pub fn equality_of_roles(a: &SlotAddr, b: &SlotAddr) -> bool
    ensures { result ≡ true ↔ a.now ≡ b.now }
{
    a == b
}

/// The primary stands before any node, and any node before the replicas.
pub fn order_of_roles(a: &SlotAddr, b: &SlotAddr) -> Ordering
    ensures { result ≡ role_cmp a.now b.now }
{
    a.cmp(b)
}

/// A role feeds its hasher its place among the roles.
pub fn hash_of_a_role<H: Hasher>(role: &SlotAddr, state: &mut H)
    ensures { state.new ≡ fold H.write state.old (hashed_role role.now) }
{
    role.hash(state);
}

/// Two routes are equal where slot and role are.
pub fn equality_of_routes(a: &Route, b: &Route) -> bool
    ensures { result ≡ true ↔ a.now ≡ b.now }
{
    a == b
}

/// The order of routes is by the slot, and then by the role.
pub fn order_of_routes(a: &Route, b: &Route) -> Ordering
    ensures { result ≡ route_cmp a.now b.now }
{
    a.cmp(b)
}

/// A route feeds its hasher its slot and its role.
pub fn hash_of_a_route<H: Hasher>(route: &Route, state: &mut H)
    ensures { state.new ≡ fold H.write state.old (hashed_route route.now) }
{
    route.hash(state);
}

/// Two patterns are equal where they are the same.
pub fn equality_of_patterns(a: &MultiSlotArgPattern, b: &MultiSlotArgPattern) -> bool
    ensures { result ≡ true ↔ a.now ≡ b.now }
{
    a == b
}

/// Two policies are equal where they are the same, with the same test or number.
pub fn equality_of_policies(a: &ResponsePolicy, b: &ResponsePolicy) -> bool
    ensures { result ≡ true ↔ a.now ≡ b.now }
{
    a == b
}

/// Two numbers of replies are equal where they are the same.
pub fn equality_of_aggregates(a: &AggregateOp, b: &AggregateOp) -> bool
    ensures { result ≡ true ↔ a.now ≡ b.now }
{
    a == b
}

/// There is one test of replies, so that two are equal.
pub fn equality_of_tests(a: &LogicalAggregateOp, b: &LogicalAggregateOp) -> bool
    ensures { result ≡ true ↔ a.now ≡ b.now }
{
    a == b
}

/// Two single nodes are equal where they lead to the same.
pub fn equality_of_single_nodes(a: &SingleNodeRoutingInfo, b: &SingleNodeRoutingInfo) -> bool
    ensures { result ≡ true ↔ shown_single a.now ≡ shown_single b.now }
{
    a == b
}

/// Two lists of nodes are equal where they lead to the same, parts in the same order.
pub fn equality_of_several_nodes(a: &MultipleNodeRoutingInfo, b: &MultipleNodeRoutingInfo) -> bool
    ensures { result ≡ true ↔ shown_multiple None a.now ≡ shown_multiple None b.now }
{
    a == b
}

/// Two routings are equal where they lead to the same, with the same policy.
pub fn equality_of_routings(a: &RoutingInfo, b: &RoutingInfo) -> bool
    ensures { result ≡ true ↔ shown_info a.now ≡ shown_info b.now }
{
    a == b
}

/// Two splits are equal where their parts are, in the same order, with pattern and policy.
pub fn equality_of_splits(a: &SplitParts, b: &SplitParts) -> bool
    ensures { result ≡ true ↔ shown_split a.now ≡ shown_split b.now }
{
    a == b
}
