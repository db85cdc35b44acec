//! The counts of several nodes, added by their keys.

ghost use Rattle.std.specs.Prelude.{◌≡◌, ◌++◌, ◌^◌, if◌then◌else◌, fold, map, option_map, pos, unwrap_or, [], None, Some, IfOk};
ghost use Rattle.std.specs.BTreeMap.{get_by};
ghost use Rattle.std.specs.Cmp.Lexicographic.{slice_cmp};
ghost use Rattle.std.specs.Ordering.{nat_cmp};
ghost use Rattle.resp_core.specs.MapIters.{owned_left};
ghost use Rattle.resp_core.specs.Trees.{map as map_tree};
ghost use Rattle.resp_core.specs.View.{pair_view, pairs_of, view};
ghost use Rattle.resp_args.specs.Convert.{traverse};
ghost use Rattle.cluster_routing.specs.Counted.{shown_count, shown_counts, AreWithin};
ghost use Rattle.cluster_routing.specs.Lists.{concat};
ghost use Rattle.cluster_routing.specs.Policies.{IsCombined, add_count, count_in, count_pair, counts_in, counts_tree, int_in, key_in};

use super::numbers::int_in;
use resp_core::{Cause, OwnedMapIter, RedisError, Value};
use std::alloc::{AllocError, Global};
use std::collections::BTreeMap;

/// The counts of the replies, added by their keys: a map of ascending keys, as bulk strings. Each
/// reply has to be a map from bulk or simple strings to integers, or such pairs as the items of an
/// array. A sum is exact, whatever its parts add up to on the way. (Documentation of the crate
/// `redis`, `cluster_routing`.)
///
/// # Errors
/// `UnexpectedReturnType` where a reply is of another shape, or a sum does not fit 64 bits. `Memory`
/// where memory is refused.
pub fn combine_map_results(alloc: Global, values: Vec<Value>) -> Result<Value, RedisError>
    ensures { IsCombined (counts_tree (map view values.items)) result }
{
    match pairs_of_all(alloc, values)? {
        Some(pairs) => Ok(Value::Map(pairs)),
        None => Err(RedisError::from(Cause::UnexpectedReturnType)),
    }
}

fn pairs_of_all(
    alloc: Global,
    values: Vec<Value>,
) -> Result<Option<Vec<(Value, Value)>>, AllocError>
    ensures { IfOk result
        (λ o. option_map (λ v. map_tree (pairs_of (map pair_view v.items))) o
        ≡ counts_tree (map view values.items)) }
{
    match counts_in_all(alloc, values)? {
        Some(counts) => pairs_of(alloc, sums_of(alloc, counts)?),
        None => Ok(None),
    }
}

/// The counts of all replies, one after another; `None` where a reply has another shape.
fn counts_in_all(
    alloc: Global,
    values: Vec<Value>,
) -> Result<Option<Vec<(Vec<u8>, i64)>>, AllocError>
    ensures { IfOk result
        (λ o. option_map (λ v. shown_counts v.items) o
        ≡ option_map (λ lists. concat lists) (traverse counts_in (map view values.items))) }
{
    let mut counts = Vec::new(alloc);
    'values: for value in values {
        if !push_counts(&mut counts, value)? {
            return Ok(None);
        }
    }
    Ok(Some(counts))
}

/// Puts the counts of a reply behind others; false where it has another shape.
fn push_counts(counts: &mut Vec<(Vec<u8>, i64)>, value: Value) -> Result<bool, AllocError>
    ensures { IfOk result
        (λ fits. (if fits then Some (shown_counts counts.new.items) else None)
        ≡ option_map (λ more. shown_counts counts.old.items ++ more) (counts_in (view value))) }
{
    match value.into_map_iter() {
        Ok(pairs) => push_pairs(counts, pairs),
        Err(_) => Ok(false),
    }
}

fn push_pairs(counts: &mut Vec<(Vec<u8>, i64)>, pairs: OwnedMapIter) -> Result<bool, AllocError>
    ensures { IfOk result
        (λ fits. (if fits then Some (shown_counts counts.new.items) else None)
        ≡ option_map (λ more. shown_counts counts.old.items ++ more) (traverse count_in (owned_left pairs))) }
{
    'pairs: for pair in pairs {
        match count_in(pair) {
            Some(count) => counts.push(count)?,
            None => return Ok(false),
        }
    }
    Ok(true)
}

fn count_in(pair: (Value, Value)) -> Option<(Vec<u8>, i64)>
    ensures { option_map shown_count result ≡ count_in (pair_view pair) }
{
    let (key, n) = (key_in(pair.0), number_in(pair.1));
    Some((key?, n?))
}

fn number_in(value: Value) -> Option<i64>
    ensures { result ≡ int_in (view value) }
{
    int_in(&value)
}

fn key_in(value: Value) -> Option<Vec<u8>>
    ensures { option_map (λ key. key.items) result ≡ key_in (view value) }
{
    match value {
        Value::BulkString(bytes) => Some(bytes),
        Value::SimpleString(text) => Some(text.into_bytes()),
        _ => None,
    }
}

/// The sum of each key's counts.
fn sums_of(
    alloc: Global,
    counts: Vec<(Vec<u8>, i64)>,
) -> Result<BTreeMap<Vec<u8>, i128>, AllocError>
    ensures { IfOk result
        (λ sums. shown_counts sums.entries ≡ fold (λ sums c. add_count c sums) [] (shown_counts counts.items)) }
{
    let mut sums = BTreeMap::new(alloc);
    'counts: for count in counts {
        add_count(&mut sums, count.0, count.1)?;
    }
    Ok(sums)
}

fn add_count(sums: &mut BTreeMap<Vec<u8>, i128>, key: Vec<u8>, n: i64) -> Result<(), AllocError>
    requires { AreWithin (2 ^ 126) (shown_counts sums.old.entries) }
    ensures { IfOk result
        (λ _. shown_counts sums.new.entries ≡ add_count (key.items, n) (shown_counts sums.old.entries)) }
{
    let sum = sum_under(sums, &key) + i128::from(n);
    sums.insert(key, sum)?;
    Ok(())
}

/// The sum under a key, 0 where it has none.
fn sum_under(sums: &BTreeMap<Vec<u8>, i128>, key: &[u8]) -> i128
    ensures { result ≡ unwrap_or (get_by (λ k. slice_cmp nat_cmp key.now k.items) sums.now) (pos 0) }
{
    match sums.get(key) {
        Some(sum) => *sum,
        None => 0,
    }
}

/// The sums as values; `None` where one does not fit 64 bits.
fn pairs_of(
    alloc: Global,
    mut sums: BTreeMap<Vec<u8>, i128>,
) -> Result<Option<Vec<(Value, Value)>>, AllocError>
    ensures { IfOk result
        (λ o. option_map (λ v. map pair_view v.items) o ≡ traverse count_pair (shown_counts sums.entries)) }
{
    let mut pairs = Vec::new(alloc);
    'sums: while let Some((key, sum)) = sums.pop_first() {
        match i64::try_from(sum) {
            Ok(n) => pairs.push((Value::BulkString(key), Value::Int(n)))?,
            Err(_) => return Ok(None),
        }
    }
    Ok(Some(pairs))
}
