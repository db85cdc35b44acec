//! One number from the numbers that several nodes answered.

ghost use Rattle.std.specs.Prelude.{◌≡◌, map, option_map};
ghost use Rattle.resp_core.specs.Trees.{int};
ghost use Rattle.resp_core.specs.View.{view};
ghost use Rattle.resp_args.specs.Convert.{traverse};
ghost use Rattle.cluster_routing.specs.Combine.{sum_of, sum_tree};
ghost use Rattle.cluster_routing.specs.Policies.{aggregate_tree, int_in, least, min_tree, or_bad_reply, tree_or_refusal};

use crate::policy::AggregateOp;
use resp_core::{Cause, RedisError, Value};

/// The sum or the least of the replies, which have to be integers. Of no replies the sum is 0. A
/// sum is exact, whatever its parts add up to on the way. (Documentation of the crate `redis`,
/// `cluster_routing`.)
///
/// # Errors
/// `UnexpectedReturnType` where a reply is no integer, a sum does not fit 64 bits, or there is no
/// reply that could be the least.
pub fn aggregate(values: Vec<Value>, op: AggregateOp) -> Result<Value, RedisError>
    ensures { tree_or_refusal result ≡ or_bad_reply (aggregate_tree op (map view values.items)) }
{
    match op {
        AggregateOp::Min => number_reply(least_of(&values)),
        AggregateOp::Sum => number_reply(sum_of(&values)),
    }
}

fn number_reply(number: Option<i64>) -> Result<Value, RedisError>
    ensures { tree_or_refusal result ≡ or_bad_reply (option_map (λ n. int n) number) }
{
    match number {
        Some(n) => Ok(Value::Int(n)),
        None => Err(RedisError::from(Cause::UnexpectedReturnType)),
    }
}

fn least_of(values: &[Value]) -> Option<i64>
    ensures { option_map (λ n. int n) result ≡ min_tree (map view values.now) }
{
    match values {
        [] => None,
        [first, more @ ..] => least(int_in(first)?, more),
    }
}

/// The least of a number and more.
fn least(first: i64, more: &[Value]) -> Option<i64>
    ensures { result ≡ option_map (λ ns. least first ns) (traverse int_in (map view more.now)) }
{
    let mut least = first;
    'values: for value in more {
        least = least.min(int_in(value)?);
    }
    Some(least)
}

fn sum_of(values: &[Value]) -> Option<i64>
    ensures { option_map (λ n. int n) result ≡ sum_tree (map view values.now) }
{
    match total(values) {
        Some(n) => i64::try_from(n).ok(),
        None => None,
    }
}

/// The sum as a wide number, which the values can not exceed: they are fewer than 2^64, and each is
/// one of 64 bits.
fn total(values: &[Value]) -> Option<i128>
    ensures { result ≡ sum_of (map view values.now) }
{
    let mut sum: i128 = 0;
    'values: for value in values {
        sum += i128::from(int_in(value)?);
    }
    Some(sum)
}

pub(super) fn int_in(value: &Value) -> Option<i64>
    ensures { result ≡ int_in (view value.now) }
{
    match value {
        Value::Int(n) => Some(*n),
        _ => None,
    }
}
