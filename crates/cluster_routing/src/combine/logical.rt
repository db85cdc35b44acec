//! A test over arrays of numbers that several nodes answered.

ghost use Rattle.std.specs.Prelude.{◌≡◌, ◌∷◌, map, option_map, option_and_then, not, IfOk};
ghost use Rattle.resp_core.specs.View.{view};
ghost use Rattle.resp_args.specs.Convert.{is_zero, traverse};
ghost use Rattle.cluster_routing.specs.Combine.{array_of};
ghost use Rattle.cluster_routing.specs.Policies.{IsCombined, all_flags, and_tree, both_flags, flag_tree, flags_in, int_in};

use super::numbers::int_in;
use crate::policy::LogicalAggregateOp;
use resp_core::{Cause, RedisError, Value};
use std::alloc::{AllocError, Global};

/// A test over the replies, which have to be arrays of integers of one length: an array with a 1
/// at each place where none of them is zero, and else a 0. Of no replies it is empty.
/// (Documentation of the crate `redis`, `cluster_routing`.)
///
/// # Errors
/// `UnexpectedReturnType` where a reply is of another shape or length. `Memory` where memory is
/// refused.
pub fn logical_aggregate(
    alloc: Global,
    values: Vec<Value>,
    op: LogicalAggregateOp,
) -> Result<Value, RedisError>
    ensures { IsCombined (and_tree (map view values.items)) result }
{
    let LogicalAggregateOp::And = op;
    match numbers_of_all(alloc, &values)? {
        Some(numbers) => Ok(Value::Array(numbers)),
        None => Err(RedisError::from(Cause::UnexpectedReturnType)),
    }
}

fn numbers_of_all(alloc: Global, values: &[Value]) -> Result<Option<Vec<Value>>, AllocError>
    ensures { IfOk result
        (λ o. option_map (λ v. array_of (map view v.items)) o ≡ and_tree (map view values.now)) }
{
    match all_flags(alloc, values)? {
        Some(flags) => Ok(Some(numbers_of(alloc, &flags)?)),
        None => Ok(None),
    }
}

/// Whether no reply has a zero at each place; `None` where one is of another shape or length.
#[tactic(auto, using(crate::proofs::Flags::first_flags))]
fn all_flags(alloc: Global, values: &[Value]) -> Result<Option<Vec<bool>>, AllocError>
    ensures { IfOk result
        (λ o. option_map (λ v. v.items) o
        ≡ option_and_then all_flags (traverse flags_in (map view values.now))) }
{
    match values {
        [] => Ok(Some(Vec::new(alloc))),
        [first, more @ ..] => match flags_in(alloc, first)? {
            Some(flags) => with_flags(alloc, flags, more),
            None => Ok(None),
        },
    }
}

/// The flags of one reply, and those of more.
fn with_flags(
    alloc: Global,
    mut flags: Vec<bool>,
    more: &[Value],
) -> Result<Option<Vec<bool>>, AllocError>
    ensures { IfOk result
        (λ o. option_map (λ v. v.items) o
        ≡ option_and_then (λ lists. all_flags (flags.items ∷ lists)) (traverse flags_in (map view more.now))) }
{
    'more: for value in more {
        match and_flags(alloc, &flags, value)? {
            Some(both) => flags = both,
            None => return Ok(None),
        }
    }
    Ok(Some(flags))
}

fn and_flags(alloc: Global, flags: &[bool], value: &Value) -> Result<Option<Vec<bool>>, AllocError>
    ensures { IfOk result
        (λ o. option_map (λ v. v.items) o
        ≡ option_and_then (both_flags flags.now) (flags_in (view value.now))) }
{
    match flags_in(alloc, value)? {
        Some(others) => both_flags(alloc, flags, &others),
        None => Ok(None),
    }
}

/// Both flags at each place; `None` where one list is longer.
fn both_flags(
    alloc: Global,
    flags: &[bool],
    others: &[bool],
) -> Result<Option<Vec<bool>>, AllocError>
    ensures { IfOk result (λ o. option_map (λ v. v.items) o ≡ both_flags flags.now others.now) }
{
    let mut both = Vec::new(alloc);
    let mut left = others;
    'flags: for flag in flags {
        match left {
            [] => return Ok(None),
            [other, more @ ..] => {
                both.push(*flag && *other)?;
                left = more;
            }
        }
    }
    if left.is_empty() {
        Ok(Some(both))
    } else {
        Ok(None)
    }
}

/// Whether each item of an array of integers is not zero.
fn flags_in(alloc: Global, value: &Value) -> Result<Option<Vec<bool>>, AllocError>
    ensures { IfOk result (λ o. option_map (λ v. v.items) o ≡ flags_in (view value.now)) }
{
    match value {
        Value::Array(items) => flags_of(alloc, items),
        _ => Ok(None),
    }
}

fn flags_of(alloc: Global, items: &[Value]) -> Result<Option<Vec<bool>>, AllocError>
    ensures { IfOk result
        (λ o. option_map (λ v. v.items) o
        ≡ traverse (λ t. option_map (λ n. not (is_zero n)) (int_in t)) (map view items.now)) }
{
    let mut flags = Vec::new(alloc);
    'items: for item in items {
        match int_in(item) {
            Some(n) => flags.push(n != 0)?,
            None => return Ok(None),
        }
    }
    Ok(Some(flags))
}

fn numbers_of(alloc: Global, flags: &[bool]) -> Result<Vec<Value>, AllocError>
    ensures { IfOk result (λ v. map view v.items ≡ map flag_tree flags.now) }
{
    let mut numbers = Vec::new(alloc);
    'flags: for flag in flags {
        numbers.push(Value::Int(i64::from(*flag)))?;
    }
    Ok(numbers)
}
