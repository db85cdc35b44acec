//! The reply to a split command.

ghost use Rattle.std.specs.Prelude.{◌≡◌, ℕ, List, length, map};
ghost use Rattle.std.specs.List.{list_all};
ghost use Rattle.resp_core.specs.View.{view};
ghost use Rattle.cluster_routing.specs.Combine.{all_okay, combine, combine_at, is_okay, part_replies, slots_by, IsCutInto};
ghost use Rattle.cluster_routing.specs.Info.{positions_in};
ghost use Rattle.cluster_routing.specs.Parts.{width_of};
ghost use Rattle.cluster_routing.specs.Policies.{IsCombined, or_bad_reply, tree_or_refusal};
ghost use Rattle.cluster_routing.specs.Split.{Split};

use super::numbers::aggregate;
use super::places::combine_and_sort_array_results;
use crate::policy::{AggregateOp, MultiSlotArgPattern, ResponsePolicy};
use crate::route::Route;
use resp_core::{Cause, RedisError, Value};
use std::alloc::Global;

/// The reply to a split command from those of its parts, in the order in which `routes` lists these,
/// as `MultipleNodeRoutingInfo::MultiSlot` does; any order of them will do. By the policy the items
/// of arrays come back to the places of their tuples, integers are added, or all parts have to have
/// succeeded. (Documentation of the crate `redis`, `cluster_routing`.) Of replies and places that are
/// of no split command it makes one reply by the policy in the same way.
///
/// # Errors
/// `UnexpectedReturnType` where a reply is not of the shape that the policy wants, items do not fit
/// their places, or no split command has the policy. `Memory` where memory is refused.
pub fn combine_parts(
    alloc: Global,
    values: Vec<Value>,
    routes: &[(Route, Vec<usize>)],
    pattern: MultiSlotArgPattern,
    policy: ResponsePolicy,
) -> Result<Value, RedisError>
    ensures any { IsCombined (combine_at policy (width_of pattern) (positions_in routes.now)
        (map view values.items)) result }
    ensures cut { (args : List (List ℕ)) (s : Split) (order : List ℕ) → IsCutInto args s order
        (record { pattern = pattern; policy = policy }) (positions_in routes.now) (length values.items)
        → IsCombined (combine s (part_replies (slots_by order s) (map view values.items))) result }
{
    match policy {
        ResponsePolicy::CombineArrays => {
            combine_and_sort_array_results(alloc, values, routes, pattern)
        }
        ResponsePolicy::Aggregate(AggregateOp::Sum) => aggregate(values, AggregateOp::Sum),
        ResponsePolicy::AllSucceeded => all_succeeded(&values),
        _ => Err(RedisError::from(Cause::UnexpectedReturnType)),
    }
}

fn all_succeeded(values: &[Value]) -> Result<Value, RedisError>
    ensures { tree_or_refusal result ≡ or_bad_reply (all_okay (map view values.now)) }
{
    if are_okay(values) {
        Ok(Value::Okay)
    } else {
        Err(RedisError::from(Cause::UnexpectedReturnType))
    }
}

fn are_okay(values: &[Value]) -> bool
    ensures { result ≡ list_all (λ v. is_okay (view v)) values.now }
{
    values.iter().all(is_okay)
}

fn is_okay(value: &Value) -> bool
    ensures { result ≡ is_okay (view value.now) }
{
    matches!(value, Value::Okay)
}
