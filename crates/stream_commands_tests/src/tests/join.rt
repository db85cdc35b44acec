//! Replies to the parts of a read of streams, joined.

use crate::tests::records::is_text;
use crate::tests::writing::text;
use resp_args::from_redis_value;
use resp_core::{ErrorKind, RedisError, parse_redis_value};
use std::alloc::Global;
use stream_commands::{StreamReadReply, join_read_replies};

// No stream has entries.
const NOTHING: &[u8] = b"*-1\r\n";

const ENTRY_OF_B: &[u8] =
    b"*1\r\n*2\r\n$1\r\nb\r\n*1\r\n*2\r\n$3\r\n1-0\r\n*2\r\n$1\r\nf\r\n$1\r\nv\r\n";

pub(crate) const ROW_OF_B: &[u8] = b"*1\r\n*2\r\n$1\r\nb\r\n*0\r\n";

pub(crate) const ROWS_OF_A: &[u8] = b"*2\r\n*2\r\n$1\r\na\r\n*0\r\n*2\r\n$4\r\n{a}x\r\n*0\r\n";

const ROWS_OF_A_TURNED: &[u8] = b"*2\r\n*2\r\n$4\r\n{a}x\r\n*0\r\n*2\r\n$1\r\na\r\n*0\r\n";

const TWICE_B: &[u8] = b"*2\r\n*2\r\n$1\r\nb\r\n*0\r\n*2\r\n$1\r\nb\r\n*0\r\n";

const ROW_OF_C: &[u8] = b"*1\r\n*2\r\n$1\r\nc\r\n*0\r\n";

fn record(alloc: Global, bytes: &[u8]) -> Result<StreamReadReply, RedisError> {
    let value = parse_redis_value(alloc, bytes)?;
    Ok(from_redis_value(alloc, value)?)
}

/// The reply to a read of `a` and `b`, from those of their parts.
pub(crate) fn of_two(
    alloc: Global,
    first: &[u8],
    second: &[u8],
) -> Result<StreamReadReply, RedisError> {
    let keys: [&[u8]; 2] = [b"a", b"b"];
    let mut parts = Vec::new(alloc);
    parts.push(Vec::from_slice(alloc, &[0])?)?;
    parts.push(Vec::from_slice(alloc, &[1])?)?;
    let mut replies = Vec::new(alloc);
    replies.push(record(alloc, first)?)?;
    replies.push(record(alloc, second)?)?;
    Ok(join_read_replies(alloc, &keys, &parts, replies)?)
}

/// The reply to a read of `a`, `b` and `{a}x`, from those of the part of the first and the last and of
/// the part of the other.
pub(crate) fn of_three(
    alloc: Global,
    first: &[u8],
    second: &[u8],
) -> Result<StreamReadReply, RedisError> {
    let keys: [&[u8]; 3] = [b"a", b"b", b"{a}x"];
    let mut parts = Vec::new(alloc);
    parts.push(Vec::from_slice(alloc, &[0, 2])?)?;
    parts.push(Vec::from_slice(alloc, &[1])?)?;
    let mut replies = Vec::new(alloc);
    replies.push(record(alloc, first)?)?;
    replies.push(record(alloc, second)?)?;
    Ok(join_read_replies(alloc, &keys, &parts, replies)?)
}

/// What a join gives as a text, or that it was refused, and whether for want of memory.
fn told(alloc: Global, joined: Result<StreamReadReply, RedisError>) -> Result<String, RedisError> {
    match joined {
        Ok(record) => Ok(format!(in alloc; "{record:?}")?),
        Err(e) if e.kind() == ErrorKind::Memory => Ok(text(alloc, "memory")?),
        Err(_) => Ok(text(alloc, "refused")?),
    }
}

pub(crate) const IN_ORDER: &str =
    "StreamReadReply { keys: [StreamKey { key: \"a\", ids: [] }, StreamKey { key: \"b\", ids: [] }, StreamKey { key: \"{a}x\", ids: [] }] }";

const ENTRY_TEXT: &str =
    "StreamReadReply { keys: [StreamKey { key: \"b\", ids: [StreamId { id: \"1-0\", map: {\"f\": BulkString([118])}, milliseconds_elapsed_from_delivery: None, delivered_count: None }] }] }";

#[test]
fn rows_in_order_of_the_keys(rt: HostRuntime) {
    let alloc = rt.alloc();
    is_text(
        &rt,
        told(alloc, of_two(alloc, NOTHING, ENTRY_OF_B)),
        ENTRY_TEXT,
    );
    for first in [ROWS_OF_A, ROWS_OF_A_TURNED] {
        is_text(&rt, told(alloc, of_three(alloc, first, ROW_OF_B)), IN_ORDER);
    }
}

#[test]
fn rows_of_other_keys_are_refused(rt: HostRuntime) {
    let alloc = rt.alloc();
    for second in [ROW_OF_C, TWICE_B, ROWS_OF_A] {
        is_text(&rt, told(alloc, of_two(alloc, NOTHING, second)), "refused");
    }
    is_text(
        &rt,
        told(alloc, of_two(alloc, ROW_OF_B, NOTHING)),
        "refused",
    );
}

#[test]
fn no_key_has_no_row(rt: HostRuntime) {
    let record = join_read_replies(rt.alloc(), &[], &[], Vec::new(rt.alloc()));
    match record {
        Ok(record) => assert!(rt; record.keys.is_empty()),
        Err(_) => assert!(rt; false, "refused"),
    }
}
