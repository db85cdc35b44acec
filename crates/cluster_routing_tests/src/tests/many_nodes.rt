//! Replies of several nodes that become one.

use cluster_routing::{
    AggregateOp, LogicalAggregateOp, NodeAddress, ResponsePolicy, combine_array_results,
    combine_map_results, combine_nodes, logical_aggregate,
};
use resp_core::{Cause, RedisError, Value, parse_redis_value};
use std::alloc::{AllocError, Global};
use std::process::Abort;
use std::test::Fail;

const SUM: ResponsePolicy = ResponsePolicy::Aggregate(AggregateOp::Sum);

const MIN: ResponsePolicy = ResponsePolicy::Aggregate(AggregateOp::Min);

const AND: ResponsePolicy = ResponsePolicy::AggregateLogical(LogicalAggregateOp::And);

const FIRST: ResponsePolicy = ResponsePolicy::FirstSucceededNonEmptyOrAllEmpty;

const ARRAYS: ResponsePolicy = ResponsePolicy::CombineArrays;

const MAPS: ResponsePolicy = ResponsePolicy::CombineMaps;

const ONE: ResponsePolicy = ResponsePolicy::OneSucceeded;

const ALL: ResponsePolicy = ResponsePolicy::AllSucceeded;

/// A policy, what two nodes answer, and the reply.
type Row = (ResponsePolicy, &'static str, &'static str, &'static str);

const TRUTHS: Row = (
    AND,
    "*2\r\n:1\r\n:0\r\n",
    "*2\r\n:1\r\n:1\r\n",
    "*2\r\n:1\r\n:0\r\n",
);

const LISTS: Row = (
    ARRAYS,
    "*1\r\n+a\r\n",
    "*2\r\n+b\r\n+c\r\n",
    "*3\r\n+a\r\n+b\r\n+c\r\n",
);

const ROWS: &[Row] = &[
    (FIRST, "_\r\n", "$1\r\nk\r\n", "$1\r\nk\r\n"),
    (SUM, ":3\r\n", ":4\r\n", ":7\r\n"),
    (SUM, ":9223372036854775807\r\n", ":1\r\n", ""),
    (SUM, ":3\r\n", "$1\r\n4\r\n", ""),
    (MIN, ":2\r\n", ":1\r\n", ":1\r\n"),
    TRUTHS,
    (AND, "*1\r\n:1\r\n", "*2\r\n:1\r\n:1\r\n", ""),
    LISTS,
    (ARRAYS, "*1\r\n+a\r\n", ":1\r\n", ""),
    (
        MAPS,
        "*4\r\n+x\r\n:1\r\n+y\r\n:2\r\n",
        "*2\r\n+y\r\n:3\r\n",
        "%2\r\n$1\r\nx\r\n:1\r\n$1\r\ny\r\n:5\r\n",
    ),
    (MAPS, "*1\r\n:1\r\n", "*0\r\n", ""),
    (
        MAPS,
        "*2\r\n+x\r\n:9223372036854775807\r\n",
        "*2\r\n+x\r\n:1\r\n",
        "",
    ),
    (
        ResponsePolicy::Special,
        "+a\r\n",
        "+b\r\n",
        "%2\r\n$7\r\nn1:7001\r\n+a\r\n$7\r\nn2:7002\r\n+b\r\n",
    ),
    (ONE, "-NOTBUSY a\r\n", "+OK\r\n", "+OK\r\n"),
    (ONE, "-NOTBUSY a\r\n", "-NOTBUSY b\r\n", "-NOTBUSY b\r\n"),
    (ALL, "+OK\r\n", "+OK\r\n", "+OK\r\n"),
    (ALL, "+OK\r\n", "-READONLY a\r\n", "-READONLY a\r\n"),
];

/// The same of the calls that take the replies alone.
const CALLS: &[Row] = &[
    TRUTHS,
    LISTS,
    (
        MAPS,
        "*4\r\n+x\r\n:1\r\n+y\r\n:2\r\n",
        "%1\r\n+y\r\n:3\r\n",
        "%2\r\n$1\r\nx\r\n:1\r\n$1\r\ny\r\n:5\r\n",
    ),
];

/// What the bytes spell: a value, the refusal by an error, and by no bytes the refusal of a reply of
/// another shape.
fn answered(alloc: Global, text: &str) -> Result<Value, RedisError> {
    match parse_redis_value(alloc, text.as_bytes()).ok() {
        Some(Value::ServerError(error)) => Err(RedisError::from(error)),
        Some(value) => Ok(value),
        None => Err(RedisError::from(Cause::UnexpectedReturnType)),
    }
}

fn node(alloc: Global, host: &str, port: u16) -> Result<NodeAddress, AllocError> {
    Ok(NodeAddress::new(String::from_str(alloc, host)?, port))
}

fn combined(
    alloc: Global,
    policy: ResponsePolicy,
    first: &str,
    second: &str,
) -> Result<Value, RedisError> {
    let mut outcomes = Vec::new(alloc);
    outcomes.push((node(alloc, "n1", 7001)?, answered(alloc, first)))?;
    outcomes.push((node(alloc, "n2", 7002)?, answered(alloc, second)))?;
    combine_nodes(alloc, policy, outcomes)
}

fn text_of(alloc: Global, reply: &Result<Value, RedisError>) -> Result<String, AllocError> {
    format!(in alloc; "{reply:?}")
}

/// The reply, or its refusal, is what these bytes spell.
fn is_answered<R: Abort>(
    rt: &R,
    alloc: Global,
    reply: &Result<Value, RedisError>,
    wanted: &str,
) -> Result<(), Fail> {
    let reply = text_of(alloc, reply)?;
    let wanted = text_of(alloc, &answered(alloc, wanted))?;
    assert_eq!(rt; reply.as_str(), wanted.as_str());
    Ok(())
}

#[test]
fn combines_the_replies_of_nodes(rt: HostRuntime) -> Result<(), Fail> {
    let alloc = rt.alloc();
    for (policy, first, second, wanted) in ROWS {
        is_answered(&rt, alloc, &combined(alloc, *policy, first, second), wanted)?;
    }
    Ok(())
}

fn by_call(
    alloc: Global,
    policy: ResponsePolicy,
    first: &str,
    second: &str,
) -> Result<Value, RedisError> {
    let mut values = Vec::new(alloc);
    values.push(answered(alloc, first)?)?;
    values.push(answered(alloc, second)?)?;
    match policy {
        ResponsePolicy::AggregateLogical(op) => logical_aggregate(alloc, values, op),
        ResponsePolicy::CombineArrays => combine_array_results(alloc, values),
        _ => combine_map_results(alloc, values),
    }
}

#[test]
fn combines_flags_arrays_and_maps(rt: HostRuntime) -> Result<(), Fail> {
    let alloc = rt.alloc();
    for (policy, first, second, wanted) in CALLS {
        is_answered(&rt, alloc, &by_call(alloc, *policy, first, second), wanted)?;
    }
    Ok(())
}
