//! Replies of a real server, read as records.
//!
//! Each row has the bytes that Redis 7.0.15 sent to the command above it under RESP2, then those
//! under RESP3 (`HELLO 3`), and the text of the record. For each protocol the server was empty and
//! got, in this order:
//!
//! - `XADD` of `s 1-1 name ada age 36`, `s 1-2 name bob`, `s 2-0 t 21`, `s 3-0 x 1`, `u 5-0 k v` and
//!   three entries of `v`, then `XTRIM v`, and each `XREAD` and `XRANGE`;
//! - `XGROUP CREATE s g 0`, `XGROUP CREATE s late $`, `XINFO CONSUMERS s late` and the first
//!   `XPENDING s g`;
//! - `XREADGROUP GROUP g alice COUNT 2 STREAMS s >`, that of bob, each `XCLAIM`, and 20 milliseconds
//!   later each other `XPENDING` and `XINFO`;
//! - `XDEL s 1-2`, the last `XREADGROUP` of alice, each `XAUTOCLAIM`, `XTRIM s MAXLEN 0`, and the last
//!   `XINFO STREAM s`.
//!
//! What the records hold is what these commands make true, by the documentation of Redis.
use resp_args::{FromRedisValue, from_redis_value};
use resp_core::parse_redis_value;
use std::alloc::Global;
use std::fmt::Debug;
use std::process::Abort;
use std::test::*;
use stream_commands::*;

/// The text of the record that the reply is read as.
fn record_text<T: FromRedisValue + Debug>(alloc: Global, bytes: &[u8]) -> Result<String, Fail> {
    match parse_redis_value(alloc, bytes) {
        Ok(value) => {
            let record: T = from_redis_value(alloc, value)?;
            Ok(format!(in alloc; "{record:?}")?)
        }
        Err(_) => Err("no whole value")?,
    }
}

/// The replies of both protocols are read as the record with the text behind them.
fn reads<T: FromRedisValue + Debug, R: Abort>(
    rt: &R,
    alloc: Global,
    rows: &[(&[u8], &[u8], &str)],
) -> Result<(), Fail> {
    for (resp2, resp3, wanted) in rows {
        assert_eq!(rt; record_text::<T>(alloc, resp2)?.as_str(), *wanted);
        assert_eq!(rt; record_text::<T>(alloc, resp3)?.as_str(), *wanted);
    }
    Ok(())
}

#[test]
fn ids_of_new_entries(rt: HostRuntime) -> Result<(), Fail> {
    let rows: [(&[u8], &[u8], &str); 1] = [
        // `XADD s 1-1 name ada age 36`
        (b"$3\r\n1-1\r\n", b"$3\r\n1-1\r\n", "\"1-1\""),
    ];
    reads::<String, HostRuntime>(&rt, rt.alloc(), &rows)
}

#[test]
fn numbers_of_trimmed_entries(rt: HostRuntime) -> Result<(), Fail> {
    let rows: [(&[u8], &[u8], &str); 1] = [
        // `XTRIM v MAXLEN 1`. v had three entries.
        (b":2\r\n", b":2\r\n", "2"),
    ];
    reads::<usize, HostRuntime>(&rt, rt.alloc(), &rows)
}

#[test]
fn entries_of_streams(rt: HostRuntime) -> Result<(), Fail> {
    let rows: [(&[u8], &[u8], &str); 5] = [
        // `XREAD COUNT 2 STREAMS s 0`
        (
            b"*1\r\n*2\r\n$1\r\ns\r\n*2\r\n*2\r\n$3\r\n1-1\r\n*4\r\n$4\r\nname\r\n$3\r\nada\r\n$3\r\nage\r\n$2\r\n36\r\n*2\r\n$3\r\n1-2\r\n*2\r\n$4\r\nname\r\n$3\r\nbob\r\n",
            b"%1\r\n$1\r\ns\r\n*2\r\n*2\r\n$3\r\n1-1\r\n*4\r\n$4\r\nname\r\n$3\r\nada\r\n$3\r\nage\r\n$2\r\n36\r\n*2\r\n$3\r\n1-2\r\n*2\r\n$4\r\nname\r\n$3\r\nbob\r\n",
            "StreamReadReply { keys: [StreamKey { key: \"s\", ids: [StreamId { id: \"1-1\", map: {\"name\": BulkString([97, 100, 97]), \"age\": BulkString([51, 54])}, milliseconds_elapsed_from_delivery: None, delivered_count: None }, StreamId { id: \"1-2\", map: {\"name\": BulkString([98, 111, 98])}, milliseconds_elapsed_from_delivery: None, delivered_count: None }] }] }",
        ),
        // `XREAD COUNT 1 STREAMS s u 1-1 0`
        (
            b"*2\r\n*2\r\n$1\r\ns\r\n*1\r\n*2\r\n$3\r\n1-2\r\n*2\r\n$4\r\nname\r\n$3\r\nbob\r\n*2\r\n$1\r\nu\r\n*1\r\n*2\r\n$3\r\n5-0\r\n*2\r\n$1\r\nk\r\n$1\r\nv\r\n",
            b"%2\r\n$1\r\ns\r\n*1\r\n*2\r\n$3\r\n1-2\r\n*2\r\n$4\r\nname\r\n$3\r\nbob\r\n$1\r\nu\r\n*1\r\n*2\r\n$3\r\n5-0\r\n*2\r\n$1\r\nk\r\n$1\r\nv\r\n",
            "StreamReadReply { keys: [StreamKey { key: \"s\", ids: [StreamId { id: \"1-2\", map: {\"name\": BulkString([98, 111, 98])}, milliseconds_elapsed_from_delivery: None, delivered_count: None }] }, StreamKey { key: \"u\", ids: [StreamId { id: \"5-0\", map: {\"k\": BulkString([118])}, milliseconds_elapsed_from_delivery: None, delivered_count: None }] }] }",
        ),
        // `XREAD STREAMS u 5-0`. There is nothing behind 5-0: a null.
        (b"*-1\r\n", b"_\r\n", "StreamReadReply { keys: [] }"),
        // `XREADGROUP GROUP g bob COUNT 1 STREAMS s >`. 1-1 and 1-2 had gone to alice.
        (
            b"*1\r\n*2\r\n$1\r\ns\r\n*1\r\n*2\r\n$3\r\n2-0\r\n*2\r\n$1\r\nt\r\n$2\r\n21\r\n",
            b"%1\r\n$1\r\ns\r\n*1\r\n*2\r\n$3\r\n2-0\r\n*2\r\n$1\r\nt\r\n$2\r\n21\r\n",
            "StreamReadReply { keys: [StreamKey { key: \"s\", ids: [StreamId { id: \"2-0\", map: {\"t\": BulkString([50, 49])}, milliseconds_elapsed_from_delivery: None, delivered_count: None }] }] }",
        ),
        // `XREADGROUP GROUP g alice STREAMS s 0`. 1-2 is pending for alice and was deleted: a null
        // stands in the place of its fields.
        (
            b"*1\r\n*2\r\n$1\r\ns\r\n*1\r\n*2\r\n$3\r\n1-2\r\n*-1\r\n",
            b"%1\r\n$1\r\ns\r\n*1\r\n*2\r\n$3\r\n1-2\r\n_\r\n",
            "StreamReadReply { keys: [StreamKey { key: \"s\", ids: [StreamId { id: \"1-2\", map: {}, milliseconds_elapsed_from_delivery: None, delivered_count: None }] }] }",
        ),
    ];
    reads::<StreamReadReply, HostRuntime>(&rt, rt.alloc(), &rows)
}

#[test]
fn ranges(rt: HostRuntime) -> Result<(), Fail> {
    let rows: [(&[u8], &[u8], &str); 2] = [
        // `XRANGE s 1-2 2-0`
        (
            b"*2\r\n*2\r\n$3\r\n1-2\r\n*2\r\n$4\r\nname\r\n$3\r\nbob\r\n*2\r\n$3\r\n2-0\r\n*2\r\n$1\r\nt\r\n$2\r\n21\r\n",
            b"*2\r\n*2\r\n$3\r\n1-2\r\n*2\r\n$4\r\nname\r\n$3\r\nbob\r\n*2\r\n$3\r\n2-0\r\n*2\r\n$1\r\nt\r\n$2\r\n21\r\n",
            "StreamRangeReply { ids: [StreamId { id: \"1-2\", map: {\"name\": BulkString([98, 111, 98])}, milliseconds_elapsed_from_delivery: None, delivered_count: None }, StreamId { id: \"2-0\", map: {\"t\": BulkString([50, 49])}, milliseconds_elapsed_from_delivery: None, delivered_count: None }] }",
        ),
        // `XRANGE s 7 8`
        (b"*0\r\n", b"*0\r\n", "StreamRangeReply { ids: [] }"),
    ];
    reads::<StreamRangeReply, HostRuntime>(&rt, rt.alloc(), &rows)
}

#[test]
fn claims(rt: HostRuntime) -> Result<(), Fail> {
    let rows: [(&[u8], &[u8], &str); 2] = [
        // `XCLAIM s g bob 0 1-1 IDLE 3600000 RETRYCOUNT 7`
        (
            b"*1\r\n*2\r\n$3\r\n1-1\r\n*4\r\n$4\r\nname\r\n$3\r\nada\r\n$3\r\nage\r\n$2\r\n36\r\n",
            b"*1\r\n*2\r\n$3\r\n1-1\r\n*4\r\n$4\r\nname\r\n$3\r\nada\r\n$3\r\nage\r\n$2\r\n36\r\n",
            "StreamClaimReply { ids: [StreamId { id: \"1-1\", map: {\"name\": BulkString([97, 100, 97]), \"age\": BulkString([51, 54])}, milliseconds_elapsed_from_delivery: None, delivered_count: None }] }",
        ),
        // `XCLAIM s g bob 0 9-9`. 9-9 is not pending.
        (b"*0\r\n", b"*0\r\n", "StreamClaimReply { ids: [] }"),
    ];
    reads::<StreamClaimReply, HostRuntime>(&rt, rt.alloc(), &rows)
}

#[test]
fn automatic_claims(rt: HostRuntime) -> Result<(), Fail> {
    let rows: [(&[u8], &[u8], &str); 3] = [
        // `XAUTOCLAIM s g carol 0 0 COUNT 2`. It looked at 1-1 and at 1-2, which was deleted; 2-0
        // is pending behind them.
        (
            b"*3\r\n$3\r\n2-0\r\n*1\r\n*2\r\n$3\r\n1-1\r\n*4\r\n$4\r\nname\r\n$3\r\nada\r\n$3\r\nage\r\n$2\r\n36\r\n*1\r\n$3\r\n1-2\r\n",
            b"*3\r\n$3\r\n2-0\r\n*1\r\n*2\r\n$3\r\n1-1\r\n*4\r\n$4\r\nname\r\n$3\r\nada\r\n$3\r\nage\r\n$2\r\n36\r\n*1\r\n$3\r\n1-2\r\n",
            "StreamAutoClaimReply { next_stream_id: \"2-0\", claimed: [StreamId { id: \"1-1\", map: {\"name\": BulkString([97, 100, 97]), \"age\": BulkString([51, 54])}, milliseconds_elapsed_from_delivery: None, delivered_count: None }], deleted_ids: [\"1-2\"], invalid_entries: false }",
        ),
        // `XAUTOCLAIM s g carol 0 0 JUSTID`
        (
            b"*3\r\n$3\r\n0-0\r\n*2\r\n$3\r\n1-1\r\n$3\r\n2-0\r\n*0\r\n",
            b"*3\r\n$3\r\n0-0\r\n*2\r\n$3\r\n1-1\r\n$3\r\n2-0\r\n*0\r\n",
            "StreamAutoClaimReply { next_stream_id: \"0-0\", claimed: [StreamId { id: \"1-1\", map: {}, milliseconds_elapsed_from_delivery: None, delivered_count: None }, StreamId { id: \"2-0\", map: {}, milliseconds_elapsed_from_delivery: None, delivered_count: None }], deleted_ids: [], invalid_entries: false }",
        ),
        // `XAUTOCLAIM s g carol 7200000 0`. No entry was idle for two hours.
        (
            b"*3\r\n$3\r\n0-0\r\n*0\r\n*0\r\n",
            b"*3\r\n$3\r\n0-0\r\n*0\r\n*0\r\n",
            "StreamAutoClaimReply { next_stream_id: \"0-0\", claimed: [], deleted_ids: [], invalid_entries: false }",
        ),
    ];
    reads::<StreamAutoClaimReply, HostRuntime>(&rt, rt.alloc(), &rows)
}

#[test]
fn pending_entries(rt: HostRuntime) -> Result<(), Fail> {
    let rows: [(&[u8], &[u8], &str); 2] = [
        // `XPENDING s g`. Before alice read.
        (
            b"*4\r\n:0\r\n$-1\r\n$-1\r\n*-1\r\n",
            b"*4\r\n:0\r\n_\r\n_\r\n_\r\n",
            "Empty",
        ),
        // `XPENDING s g`. bob had read 2-0, and claimed 1-1 of alice.
        (
            b"*4\r\n:3\r\n$3\r\n1-1\r\n$3\r\n2-0\r\n*2\r\n*2\r\n$5\r\nalice\r\n$1\r\n1\r\n*2\r\n$3\r\nbob\r\n$1\r\n2\r\n",
            b"*4\r\n:3\r\n$3\r\n1-1\r\n$3\r\n2-0\r\n*2\r\n*2\r\n$5\r\nalice\r\n$1\r\n1\r\n*2\r\n$3\r\nbob\r\n$1\r\n2\r\n",
            "Data(StreamPendingData { count: 3, start_id: \"1-1\", end_id: \"2-0\", consumers: [StreamInfoConsumer { name: \"alice\", pending: 1, idle: 0 }, StreamInfoConsumer { name: \"bob\", pending: 2, idle: 0 }] })",
        ),
    ];
    reads::<StreamPendingReply, HostRuntime>(&rt, rt.alloc(), &rows)
}

#[test]
fn pending_entries_one_by_one(rt: HostRuntime) -> Result<(), Fail> {
    let rows: [(&[u8], &[u8], &str); 1] = [
        // `XPENDING s g - + 10`. The claim had said of 1-1 that it was idle for an hour and
        // delivered seven times.
        (
            b"*3\r\n*4\r\n$3\r\n1-1\r\n$3\r\nbob\r\n:3600021\r\n:7\r\n*4\r\n$3\r\n1-2\r\n$5\r\nalice\r\n:21\r\n:1\r\n*4\r\n$3\r\n2-0\r\n$3\r\nbob\r\n:21\r\n:1\r\n",
            b"*3\r\n*4\r\n$3\r\n1-1\r\n$3\r\nbob\r\n:3600021\r\n:7\r\n*4\r\n$3\r\n1-2\r\n$5\r\nalice\r\n:21\r\n:1\r\n*4\r\n$3\r\n2-0\r\n$3\r\nbob\r\n:21\r\n:1\r\n",
            "StreamPendingCountReply { ids: [StreamPendingId { id: \"1-1\", consumer: \"bob\", last_delivered_ms: 3600021, times_delivered: 7 }, StreamPendingId { id: \"1-2\", consumer: \"alice\", last_delivered_ms: 21, times_delivered: 1 }, StreamPendingId { id: \"2-0\", consumer: \"bob\", last_delivered_ms: 21, times_delivered: 1 }] }",
        ),
    ];
    reads::<StreamPendingCountReply, HostRuntime>(&rt, rt.alloc(), &rows)
}

#[test]
fn streams(rt: HostRuntime) -> Result<(), Fail> {
    let rows: [(&[u8], &[u8], &str); 2] = [
        // `XINFO STREAM s`. `radix_tree_keys` is the number that the server calls
        // radix-tree-nodes.
        (
            b"*20\r\n$6\r\nlength\r\n:4\r\n$15\r\nradix-tree-keys\r\n:1\r\n$16\r\nradix-tree-nodes\r\n:2\r\n$17\r\nlast-generated-id\r\n$3\r\n3-0\r\n$20\r\nmax-deleted-entry-id\r\n$3\r\n0-0\r\n$13\r\nentries-added\r\n:4\r\n$23\r\nrecorded-first-entry-id\r\n$3\r\n1-1\r\n$6\r\ngroups\r\n:2\r\n$11\r\nfirst-entry\r\n*2\r\n$3\r\n1-1\r\n*4\r\n$4\r\nname\r\n$3\r\nada\r\n$3\r\nage\r\n$2\r\n36\r\n$10\r\nlast-entry\r\n*2\r\n$3\r\n3-0\r\n*2\r\n$1\r\nx\r\n$1\r\n1\r\n",
            b"%10\r\n$6\r\nlength\r\n:4\r\n$15\r\nradix-tree-keys\r\n:1\r\n$16\r\nradix-tree-nodes\r\n:2\r\n$17\r\nlast-generated-id\r\n$3\r\n3-0\r\n$20\r\nmax-deleted-entry-id\r\n$3\r\n0-0\r\n$13\r\nentries-added\r\n:4\r\n$23\r\nrecorded-first-entry-id\r\n$3\r\n1-1\r\n$6\r\ngroups\r\n:2\r\n$11\r\nfirst-entry\r\n*2\r\n$3\r\n1-1\r\n*4\r\n$4\r\nname\r\n$3\r\nada\r\n$3\r\nage\r\n$2\r\n36\r\n$10\r\nlast-entry\r\n*2\r\n$3\r\n3-0\r\n*2\r\n$1\r\nx\r\n$1\r\n1\r\n",
            "StreamInfoStreamReply { last_generated_id: \"3-0\", radix_tree_keys: 2, groups: 2, length: 4, first_entry: StreamId { id: \"1-1\", map: {\"name\": BulkString([97, 100, 97]), \"age\": BulkString([51, 54])}, milliseconds_elapsed_from_delivery: None, delivered_count: None }, last_entry: StreamId { id: \"3-0\", map: {\"x\": BulkString([49])}, milliseconds_elapsed_from_delivery: None, delivered_count: None } }",
        ),
        // `XINFO STREAM s`. When all entries were trimmed: nulls stand in the place of the first
        // and of the last.
        (
            b"*20\r\n$6\r\nlength\r\n:0\r\n$15\r\nradix-tree-keys\r\n:0\r\n$16\r\nradix-tree-nodes\r\n:1\r\n$17\r\nlast-generated-id\r\n$3\r\n3-0\r\n$20\r\nmax-deleted-entry-id\r\n$3\r\n1-2\r\n$13\r\nentries-added\r\n:4\r\n$23\r\nrecorded-first-entry-id\r\n$3\r\n0-0\r\n$6\r\ngroups\r\n:2\r\n$11\r\nfirst-entry\r\n$-1\r\n$10\r\nlast-entry\r\n$-1\r\n",
            b"%10\r\n$6\r\nlength\r\n:0\r\n$15\r\nradix-tree-keys\r\n:0\r\n$16\r\nradix-tree-nodes\r\n:1\r\n$17\r\nlast-generated-id\r\n$3\r\n3-0\r\n$20\r\nmax-deleted-entry-id\r\n$3\r\n1-2\r\n$13\r\nentries-added\r\n:4\r\n$23\r\nrecorded-first-entry-id\r\n$3\r\n0-0\r\n$6\r\ngroups\r\n:2\r\n$11\r\nfirst-entry\r\n_\r\n$10\r\nlast-entry\r\n_\r\n",
            "StreamInfoStreamReply { last_generated_id: \"3-0\", radix_tree_keys: 1, groups: 2, length: 0, first_entry: StreamId { id: \"\", map: {}, milliseconds_elapsed_from_delivery: None, delivered_count: None }, last_entry: StreamId { id: \"\", map: {}, milliseconds_elapsed_from_delivery: None, delivered_count: None } }",
        ),
    ];
    reads::<StreamInfoStreamReply, HostRuntime>(&rt, rt.alloc(), &rows)
}

#[test]
fn streams_without_idempotency(rt: HostRuntime) -> Result<(), Fail> {
    let rows: [(&[u8], &[u8], &str); 1] = [
        // `XINFO STREAM s`. This server knows no idempotent ids.
        (
            b"*20\r\n$6\r\nlength\r\n:0\r\n$15\r\nradix-tree-keys\r\n:0\r\n$16\r\nradix-tree-nodes\r\n:1\r\n$17\r\nlast-generated-id\r\n$3\r\n3-0\r\n$20\r\nmax-deleted-entry-id\r\n$3\r\n1-2\r\n$13\r\nentries-added\r\n:4\r\n$23\r\nrecorded-first-entry-id\r\n$3\r\n0-0\r\n$6\r\ngroups\r\n:2\r\n$11\r\nfirst-entry\r\n$-1\r\n$10\r\nlast-entry\r\n$-1\r\n",
            b"%10\r\n$6\r\nlength\r\n:0\r\n$15\r\nradix-tree-keys\r\n:0\r\n$16\r\nradix-tree-nodes\r\n:1\r\n$17\r\nlast-generated-id\r\n$3\r\n3-0\r\n$20\r\nmax-deleted-entry-id\r\n$3\r\n1-2\r\n$13\r\nentries-added\r\n:4\r\n$23\r\nrecorded-first-entry-id\r\n$3\r\n0-0\r\n$6\r\ngroups\r\n:2\r\n$11\r\nfirst-entry\r\n_\r\n$10\r\nlast-entry\r\n_\r\n",
            "StreamInfoStreamReplyWithIdempotency { base: StreamInfoStreamReply { last_generated_id: \"3-0\", radix_tree_keys: 1, groups: 2, length: 0, first_entry: StreamId { id: \"\", map: {}, milliseconds_elapsed_from_delivery: None, delivered_count: None }, last_entry: StreamId { id: \"\", map: {}, milliseconds_elapsed_from_delivery: None, delivered_count: None } }, idmp_duration: 0, idmp_maxsize: 0, pids_tracked: 0, iids_tracked: 0, iids_added: 0, iids_duplicates: 0 }",
        ),
    ];
    reads::<StreamInfoStreamReplyWithIdempotency, HostRuntime>(&rt, rt.alloc(), &rows)
}

#[test]
fn groups(rt: HostRuntime) -> Result<(), Fail> {
    let rows: [(&[u8], &[u8], &str); 1] = [
        // `XINFO GROUPS s`. g has read three of four entries. late began behind the last: how many
        // it read is unknown.
        (
            b"*2\r\n*12\r\n$4\r\nname\r\n$1\r\ng\r\n$9\r\nconsumers\r\n:2\r\n$7\r\npending\r\n:3\r\n$17\r\nlast-delivered-id\r\n$3\r\n2-0\r\n$12\r\nentries-read\r\n:3\r\n$3\r\nlag\r\n:1\r\n*12\r\n$4\r\nname\r\n$4\r\nlate\r\n$9\r\nconsumers\r\n:0\r\n$7\r\npending\r\n:0\r\n$17\r\nlast-delivered-id\r\n$3\r\n3-0\r\n$12\r\nentries-read\r\n$-1\r\n$3\r\nlag\r\n:0\r\n",
            b"*2\r\n%6\r\n$4\r\nname\r\n$1\r\ng\r\n$9\r\nconsumers\r\n:2\r\n$7\r\npending\r\n:3\r\n$17\r\nlast-delivered-id\r\n$3\r\n2-0\r\n$12\r\nentries-read\r\n:3\r\n$3\r\nlag\r\n:1\r\n%6\r\n$4\r\nname\r\n$4\r\nlate\r\n$9\r\nconsumers\r\n:0\r\n$7\r\npending\r\n:0\r\n$17\r\nlast-delivered-id\r\n$3\r\n3-0\r\n$12\r\nentries-read\r\n_\r\n$3\r\nlag\r\n:0\r\n",
            "StreamInfoGroupsReply { groups: [StreamInfoGroup { name: \"g\", consumers: 2, pending: 3, last_delivered_id: \"2-0\", entries_read: Some(3), lag: Some(1) }, StreamInfoGroup { name: \"late\", consumers: 0, pending: 0, last_delivered_id: \"3-0\", entries_read: None, lag: Some(0) }] }",
        ),
    ];
    reads::<StreamInfoGroupsReply, HostRuntime>(&rt, rt.alloc(), &rows)
}

#[test]
fn consumers(rt: HostRuntime) -> Result<(), Fail> {
    let rows: [(&[u8], &[u8], &str); 2] = [
        // `XINFO CONSUMERS s late`
        (
            b"*0\r\n",
            b"*0\r\n",
            "StreamInfoConsumersReply { consumers: [] }",
        ),
        // `XINFO CONSUMERS s g`
        (
            b"*2\r\n*6\r\n$4\r\nname\r\n$5\r\nalice\r\n$7\r\npending\r\n:1\r\n$4\r\nidle\r\n:21\r\n*6\r\n$4\r\nname\r\n$3\r\nbob\r\n$7\r\npending\r\n:2\r\n$4\r\nidle\r\n:21\r\n",
            b"*2\r\n%3\r\n$4\r\nname\r\n$5\r\nalice\r\n$7\r\npending\r\n:1\r\n$4\r\nidle\r\n:21\r\n%3\r\n$4\r\nname\r\n$3\r\nbob\r\n$7\r\npending\r\n:2\r\n$4\r\nidle\r\n:21\r\n",
            "StreamInfoConsumersReply { consumers: [StreamInfoConsumer { name: \"alice\", pending: 1, idle: 21 }, StreamInfoConsumer { name: \"bob\", pending: 2, idle: 21 }] }",
        ),
    ];
    reads::<StreamInfoConsumersReply, HostRuntime>(&rt, rt.alloc(), &rows)
}
