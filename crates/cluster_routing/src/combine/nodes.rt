//! The reply to a command that went to several nodes.

ghost use Rattle.std.specs.Prelude.{◌≡◌, ◌≢◌, List, map, Err, IfOk};
ghost use Rattle.resp_core.specs.Errors.{by_cause};
ghost use Rattle.resp_core.specs.Trees.{Tree};
ghost use Rattle.resp_core.specs.View.{view};
ghost use Rattle.resp_core.specs.declared.errors.redis_error.Cause.TheVariants.{Memory};
ghost use Rattle.cluster_routing.specs.Address.{written, Address};
ghost use Rattle.cluster_routing.specs.Outcomes.{map_or_refusal, outcomes_of, trees_or_refusal, values_or_refusal};
ghost use Rattle.cluster_routing.specs.Policies.{all_replies, all_succeeded, combine_outcomes, combine_replies, first_not_nil, one_succeeded, or_bad_reply, or_first_refusal, or_later_reply, or_not_nil, tree_or_refusal, trees_by};
ghost use Rattle.cluster_routing.specs.Seen.{address};
ghost use Rattle.cluster_routing.specs.declared.policy.ResponsePolicy.TheVariants.{Special};

use super::arrays::combine_array_results;
use super::logical::logical_aggregate;
use super::maps::combine_map_results;
use super::numbers::aggregate;
use crate::address::NodeAddress;
use crate::policy::ResponsePolicy;
use resp_core::{Cause, RedisError, Value};
use std::alloc::{AllocError, Global};

/// The reply to a command that went to several nodes, from those of the nodes in the ascending order
/// of addresses. By the policy it is one of the replies, a number or a test over all, the items or
/// the counts of all, or a map from the text `host:port` of each node to its reply. (Documentation
/// of the crate `redis`, `ResponsePolicy`.)
///
/// # Errors
/// The first refusal of a node where the policy wants all replies, and the last one where it wants
/// one and no node has it. `UnexpectedReturnType` where a reply is not of the shape that the policy
/// wants, or there is none to choose from. `Memory` where memory is refused.
pub fn combine_nodes(
    alloc: Global,
    policy: ResponsePolicy,
    outcomes: Vec<(NodeAddress, Result<Value, RedisError>)>,
) -> Result<Value, RedisError>
    ensures { result ≢ Err (by_cause Memory)
        → tree_or_refusal result ≡ combine_outcomes policy (outcomes_of outcomes.items) }
{
    match policy {
        ResponsePolicy::AllSucceeded => all_succeeded(outcomes),
        ResponsePolicy::OneSucceeded => one_succeeded(outcomes),
        ResponsePolicy::FirstSucceededNonEmptyOrAllEmpty => first_not_nil(outcomes),
        ResponsePolicy::Special => by_address(alloc, outcomes),
        _ => combine_values(alloc, policy, values_in(alloc, outcomes)?),
    }
}

/// The reply by a policy that looks at all replies, and not at the nodes.
fn combine_values(
    alloc: Global,
    policy: ResponsePolicy,
    values: Vec<Value>,
) -> Result<Value, RedisError>
    ensures { policy ≢ Special → (replies : List (Address × Tree)) → map view values.items ≡ trees_by replies
        → result ≢ Err (by_cause Memory)
        → tree_or_refusal result ≡ or_bad_reply (combine_replies policy replies) }
{
    match policy {
        ResponsePolicy::Aggregate(op) => aggregate(values, op),
        ResponsePolicy::AggregateLogical(op) => logical_aggregate(alloc, values, op),
        ResponsePolicy::CombineArrays => combine_array_results(alloc, values),
        ResponsePolicy::CombineMaps => combine_map_results(alloc, values),
        _ => Err(RedisError::from(Cause::UnexpectedReturnType)),
    }
}

/// All replies, or the first refusal.
fn values_in(
    alloc: Global,
    outcomes: Vec<(NodeAddress, Result<Value, RedisError>)>,
) -> Result<Vec<Value>, RedisError>
    ensures { result ≢ Err (by_cause Memory)
        → values_or_refusal result ≡ trees_or_refusal (all_replies (outcomes_of outcomes.items)) }
{
    let mut values = Vec::new(alloc);
    'outcomes: for outcome in outcomes {
        let value = outcome.1?;
        values.push(value)?;
    }
    Ok(values)
}

/// A map from each node's address to its reply, or the first refusal.
fn by_address(
    alloc: Global,
    outcomes: Vec<(NodeAddress, Result<Value, RedisError>)>,
) -> Result<Value, RedisError>
    ensures { result ≢ Err (by_cause Memory)
        → tree_or_refusal result ≡ map_or_refusal (all_replies (outcomes_of outcomes.items)) }
{
    let mut pairs = Vec::new(alloc);
    'outcomes: for outcome in outcomes {
        let value = outcome.1?;
        let node = written(alloc, &outcome.0)?;
        pairs.push((Value::BulkString(node), value))?;
    }
    Ok(Value::Map(pairs))
}

fn written(alloc: Global, node: &NodeAddress) -> Result<Vec<u8>, AllocError>
    ensures { IfOk result (λ text. text.items ≡ written (address node.now)) }
{
    Ok(node.to_string(alloc)?.into_bytes())
}

/// The last reply, or the first refusal.
#[tactic(auto, using(crate::proofs::NodeReplies::all_step, crate::proofs::NodeReplies::all_start))]
fn all_succeeded(
    outcomes: Vec<(NodeAddress, Result<Value, RedisError>)>,
) -> Result<Value, RedisError>
    ensures { tree_or_refusal result ≡ all_succeeded (outcomes_of outcomes.items) }
{
    if outcomes.is_empty() {
        return Err(RedisError::from(Cause::UnexpectedReturnType));
    }
    let mut so_far = Ok(Value::Nil);
    'outcomes: for outcome in outcomes {
        so_far = or_first_refusal(so_far, outcome.1);
    }
    so_far
}

fn or_first_refusal(
    earlier: Result<Value, RedisError>,
    later: Result<Value, RedisError>,
) -> Result<Value, RedisError>
    ensures { tree_or_refusal result ≡ or_first_refusal (tree_or_refusal earlier) (tree_or_refusal later) }
{
    match earlier {
        Ok(_) => later,
        Err(refusal) => Err(refusal),
    }
}

/// The first reply, or the last refusal.
#[tactic(auto, using(crate::proofs::NodeReplies::one_step))]
fn one_succeeded(
    outcomes: Vec<(NodeAddress, Result<Value, RedisError>)>,
) -> Result<Value, RedisError>
    ensures { tree_or_refusal result ≡ one_succeeded (outcomes_of outcomes.items) }
{
    let mut so_far = Err(RedisError::from(Cause::UnexpectedReturnType));
    'outcomes: for outcome in outcomes {
        so_far = or_later_reply(so_far, outcome.1);
    }
    so_far
}

fn or_later_reply(
    earlier: Result<Value, RedisError>,
    later: Result<Value, RedisError>,
) -> Result<Value, RedisError>
    ensures { tree_or_refusal result ≡ or_later_reply (tree_or_refusal earlier) (tree_or_refusal later) }
{
    match earlier {
        Ok(value) => Ok(value),
        Err(_) => later,
    }
}

/// The first reply that is not nil, nil where all are, or the last refusal.
#[tactic(auto, using(crate::proofs::NodeReplies::first_step))]
fn first_not_nil(
    outcomes: Vec<(NodeAddress, Result<Value, RedisError>)>,
) -> Result<Value, RedisError>
    ensures { tree_or_refusal result ≡ first_not_nil (outcomes_of outcomes.items) }
{
    if outcomes.is_empty() {
        return Err(RedisError::from(Cause::UnexpectedReturnType));
    }
    let mut so_far = Ok(Value::Nil);
    'outcomes: for outcome in outcomes {
        so_far = or_not_nil(so_far, outcome.1);
    }
    so_far
}

fn or_not_nil(
    earlier: Result<Value, RedisError>,
    later: Result<Value, RedisError>,
) -> Result<Value, RedisError>
    ensures { tree_or_refusal result ≡ or_not_nil (tree_or_refusal earlier) (tree_or_refusal later) }
{
    match (earlier, later) {
        (Ok(Value::Nil), later) => later,
        (Err(refusal), Ok(Value::Nil)) => Err(refusal),
        (Err(_), later) => later,
        (earlier, _) => earlier,
    }
}
