//! Replies that become one.

use crate::tests::texts::is_text;
use cluster_routing::{
    AggregateOp, MultiSlotArgPattern, Route, SlotAddr, aggregate, combine_and_sort_array_results,
    is_permutation,
};
use resp_core::{RedisError, Value};
use std::alloc::{AllocError, Global};
use std::test::Fail;

/// The reply, or the number of the refusal.
fn told(alloc: Global, reply: Result<Value, RedisError>) -> Result<String, AllocError> {
    match reply {
        Ok(value) => format!(in alloc; "{value:?}"),
        Err(e) => format!(in alloc; "{}", e.number()),
    }
}

fn integers(alloc: Global, numbers: &[i64]) -> Result<Vec<Value>, AllocError> {
    let mut values = Vec::new(alloc);
    for number in numbers {
        values.push(Value::Int(*number))?;
    }
    Ok(values)
}

fn aggregated(alloc: Global, numbers: &[i64], op: AggregateOp) -> Result<String, AllocError> {
    told(alloc, aggregate(integers(alloc, numbers)?, op))
}

#[test]
fn aggregates_exactly(rt: HostRuntime) {
    let rows: [(&[i64], AggregateOp, &str); 5] = [
        (&[1, 2], AggregateOp::Sum, "Int(3)"),
        (&[i64::MAX, 1], AggregateOp::Sum, "16"),
        (
            &[i64::MAX, 1, -2],
            AggregateOp::Sum,
            "Int(9223372036854775806)",
        ),
        (&[3, -2, 5], AggregateOp::Min, "Int(-2)"),
        (&[], AggregateOp::Min, "16"),
    ];
    for (numbers, op, wanted) in rows {
        is_text(&rt, aggregated(rt.alloc(), numbers, op), wanted);
    }
}

pub(crate) fn parts(
    alloc: Global,
    first: &[usize],
    second: &[usize],
) -> Result<Vec<(Route, Vec<usize>)>, AllocError> {
    let mut parts = Vec::new(alloc);
    for (slot, positions) in [(1, first), (2, second)] {
        let positions = Vec::from_slice(alloc, positions)?;
        parts.push((Route::new(slot, SlotAddr::Master), positions))?;
    }
    Ok(parts)
}

fn placed(alloc: Global, first: &[i64], second: &[i64]) -> Result<Value, RedisError> {
    let order = parts(alloc, &[0, 2], &[1])?;
    let first = Value::Array(integers(alloc, first)?);
    let second = Value::Array(integers(alloc, second)?);
    let values = vec![in alloc; first, second]?;
    combine_and_sort_array_results(alloc, values, &order, MultiSlotArgPattern::KeysOnly)
}

#[test]
fn puts_items_at_their_places(rt: HostRuntime) {
    let rows: [(&[i64], &str); 2] = [(&[8], "Array([Int(7), Int(8), Int(9)])"), (&[8, 8], "16")];
    for (second, wanted) in rows {
        let reply = placed(rt.alloc(), &[7, 9], second);
        is_text(&rt, told(rt.alloc(), reply), wanted);
    }
}

#[test]
fn tells_an_order(rt: HostRuntime) -> Result<(), Fail> {
    let rows: [(&[usize], bool); 3] = [(&[2, 0, 1], true), (&[2, 2, 1], false), (&[0, 1], false)];
    for (order, wanted) in rows {
        assert_eq!(rt; is_permutation(rt.alloc(), order, 3)?, wanted);
    }
    Ok(())
}
