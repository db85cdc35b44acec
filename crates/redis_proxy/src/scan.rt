//! SCAN over all primaries: a guest's cursor is that of the node, times the count of primaries, and the
//! number of the node.
use crate::own::line;
use crate::way::argument;
use anyhow::Result;
use cluster_client::{Arg, ClusterClient, Cmd, ConnectionLike, NodeAddress, RedisError, Value};
use cluster_servers::Reply;
use resp_core::Protocol;
use std::alloc::{AllocError, Global};

/// The primaries, ascending.
pub(crate) fn primaries<L: ConnectionLike + Drop>(
    alloc: Global,
    client: &ClusterClient<L>,
) -> Result<Vec<NodeAddress>, AllocError> {
    let topology = client.topology(alloc)?;
    let mut nodes = Vec::new(alloc);
    for shard in topology.shards() {
        nodes.push(shard.primary().clone()?)?;
    }
    nodes.sort()?;
    Ok(nodes)
}

fn number(bytes: &[u8]) -> Option<u64> {
    match std::str::from_utf8(bytes) {
        Ok(text) => text.parse::<u64>().ok(),
        Err(_) => None,
    }
}

/// A command with another second argument.
fn with_cursor(alloc: Global, command: &Cmd, cursor: u64) -> Result<Cmd, AllocError> {
    let mut part = Cmd::new(alloc);
    let mut place = 0usize;
    for arg in command.args_iter() {
        match arg {
            Arg::Simple(_) if place == 1 => part.arg(cursor)?,
            Arg::Simple(bytes) => part.arg(bytes)?,
            Arg::Cursor => {}
        }
        place = place.saturating_add(1);
    }
    Ok(part)
}

/// The cursor behind a node's: that of the next node where its own ended.
fn next_cursor(inner: u64, which: u64, count: u64) -> u64 {
    let next = which.saturating_add(1);
    match inner {
        0 if next >= count => 0,
        0 => next,
        _ => inner.saturating_mul(count).saturating_add(which),
    }
}

/// A node's reply with the guest's cursor in it.
fn with_next(alloc: Global, reply: Value, which: u64, count: u64) -> Result<Value, AllocError> {
    let Value::Array(mut items) = reply else {
        return Ok(reply);
    };
    let inner = match items.first() {
        Some(Value::BulkString(cursor)) => number(cursor),
        _ => None,
    };
    if let (Some(inner), Some(first)) = (inner, items.get_mut(0)) {
        let text = next_cursor(inner, which, count).to_string(alloc)?;
        *first = Value::BulkString(Vec::from_slice(alloc, text.as_bytes())?);
    }
    Ok(Value::Array(items))
}

/// The answer to SCAN.
pub(crate) fn scan<L: ConnectionLike + Drop>(
    alloc: Global,
    client: &mut ClusterClient<L>,
    command: &Cmd,
    protocol: Protocol,
) -> Result<Reply> {
    let Some(cursor) = number(argument(command, 1)) else {
        return Ok(line(alloc, b"-ERR invalid cursor")?);
    };
    let nodes = primaries(alloc, client)?;
    let count = nodes.len() as u64;
    let (Some(which), Some(inner)) = (cursor.checked_rem(count), cursor.checked_div(count)) else {
        return Ok(line(alloc, b"-CLUSTERDOWN no node is known")?);
    };
    let Some(node) = nodes.get(which as usize) else {
        return Ok(line(alloc, b"-ERR invalid cursor")?);
    };
    let part = with_cursor(alloc, command, inner)?;
    let told: Result<Value, RedisError> = client.query_at(alloc, node, &part);
    let told = match told {
        Ok(reply) => Ok(with_next(alloc, reply, which, count)?),
        Err(error) => Err(error),
    };
    Ok(Reply::new(alloc, told, protocol))
}
