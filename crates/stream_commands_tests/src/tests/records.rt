//! Records by examples, from the bytes of replies.
use crate::tests::writing::text;
use resp_args::{FromRedisValue, from_redis_value, from_redis_value_ref};
use resp_core::{ParsingError, RedisError, parse_redis_value};
use std::alloc::{AllocError, Global};
use std::fmt::Debug;
use std::process::Abort;
use stream_commands::*;

fn shown<T: Debug + Drop>(alloc: Global, value: T) -> Result<String, AllocError> {
    format!(in alloc; "{value:?}")
}

/// The record, or that the reply was refused, and whether for want of memory.
fn told<T: Debug + Drop>(
    alloc: Global,
    outcome: Result<T, ParsingError>,
) -> Result<String, AllocError> {
    match outcome {
        Ok(record) => shown(alloc, record),
        Err(e) => text(alloc, if e.is_memory() { "memory" } else { "refused" }),
    }
}

/// What the owned form gives, and the lent one where that is another.
fn read<T: FromRedisValue + Debug>(alloc: Global, bytes: &[u8]) -> Result<String, RedisError> {
    let value = parse_redis_value(alloc, bytes)?;
    let lent = told(alloc, from_redis_value_ref::<T>(alloc, &value))?;
    let owned = told(alloc, from_redis_value::<T>(alloc, value))?;
    if lent == owned {
        return Ok(owned);
    }
    Ok(format!(in alloc; "{owned} but lent {lent}")?)
}

/// The reply is read as the record with this text.
fn reads<T: FromRedisValue + Debug, R: Abort>(rt: &R, alloc: Global, bytes: &[u8], expected: &str) {
    is_text(rt, read::<T>(alloc, bytes), expected);
}

const CLAIMED: &[u8] =
    b"*1\r\n*2\r\n$1\r\na\r\n*1\r\n*4\r\n$3\r\n1-0\r\n*2\r\n$1\r\nf\r\n$1\r\nv\r\n:5\r\n:1\r\n";

const CLAIMED_TEXT: &str =
    "StreamReadReply { keys: [StreamKey { key: \"a\", ids: [StreamId { id: \"1-0\", map: {\"f\": BulkString([118])}, milliseconds_elapsed_from_delivery: Some(5), delivered_count: Some(1) }] }] }";

// The same with a null in place of the number of deliveries.
const WITH_A_NULL: &[u8] =
    b"*1\r\n*2\r\n$1\r\na\r\n*1\r\n*4\r\n$3\r\n1-0\r\n*2\r\n$1\r\nf\r\n$1\r\nv\r\n:5\r\n$-1\r\n";

const TWO_ENTRIES_TEXT: &str =
    "StreamReadReply { keys: [StreamKey { key: \"a\", ids: [StreamId { id: \"1-0\", map: {\"f\": BulkString([118])}, milliseconds_elapsed_from_delivery: None, delivered_count: None }, StreamId { id: \"5\", map: {}, milliseconds_elapsed_from_delivery: None, delivered_count: None }] }] }";

const RANGE: &[u8] = b"*1\r\n*2\r\n$3\r\n1-0\r\n*2\r\n$1\r\nf\r\n$1\r\nv\r\n";

// One range in three spellings.
const RANGES: &[&[u8]] = &[
    RANGE,
    b"*1\r\n*2\r\n$3\r\n1-0\r\n%1\r\n$1\r\nf\r\n$1\r\nv\r\n",
    b"%1\r\n$3\r\n1-0\r\n%1\r\n$1\r\nf\r\n$1\r\nv\r\n",
];

const RANGE_TEXT: &str =
    "StreamRangeReply { ids: [StreamId { id: \"1-0\", map: {\"f\": BulkString([118])}, milliseconds_elapsed_from_delivery: None, delivered_count: None }] }";

#[test]
fn entries(rt: HostRuntime) {
    let alloc = rt.alloc();
    reads::<StreamReadReply, _>(&rt, alloc, CLAIMED, CLAIMED_TEXT);
    reads::<StreamReadReply, _>(&rt, alloc, WITH_A_NULL, TWO_ENTRIES_TEXT);
    for bytes in RANGES {
        reads::<StreamRangeReply, _>(&rt, alloc, bytes, RANGE_TEXT);
    }
    reads::<StreamRangeReply, _>(&rt, alloc, b":1\r\n", "refused");
    let claim =
        "StreamClaimReply { ids: [StreamId { id: \"1-0\", map: {\"f\": BulkString([118])}, milliseconds_elapsed_from_delivery: None, delivered_count: None }] }";
    reads::<StreamClaimReply, _>(&rt, alloc, RANGE, claim);
    reads::<StreamClaimReply, _>(&rt, alloc, b"*1\r\n$3\r\n1-0\r\n", "refused");
}

// Entries, of which the first two alone are equal: then come fields in another order, one field less,
// another value, another id, and no fields.
const SOME_ENTRIES: &[u8] =
    b"*7\r\n*2\r\n$3\r\n1-0\r\n*4\r\n+f\r\n+v\r\n+g\r\n:1\r\n*2\r\n$3\r\n1-0\r\n%2\r\n$1\r\nf\r\n+v\r\n$1\r\ng\r\n:1\r\n*2\r\n$3\r\n1-0\r\n*4\r\n+g\r\n:1\r\n+f\r\n+v\r\n*2\r\n$3\r\n1-0\r\n*2\r\n+f\r\n+v\r\n*2\r\n$3\r\n1-0\r\n*4\r\n+f\r\n+v\r\n+g\r\n:2\r\n*2\r\n$3\r\n1-1\r\n*4\r\n+f\r\n+v\r\n+g\r\n:1\r\n*2\r\n$3\r\n1-0\r\n*0\r\n";

/// For each entry whether it equals the first.
fn equal_to_the_first(alloc: Global, bytes: &[u8]) -> Result<String, RedisError> {
    let reply = parse_redis_value(alloc, bytes)?;
    let entries = from_redis_value::<StreamRangeReply>(alloc, reply)?;
    let mut told = String::new(alloc);
    let ids = entries.ids.as_slice();
    if let [first, ..] = ids {
        for entry in ids {
            told.push_str(if entry == first { "=" } else { "/" })?;
        }
    }
    Ok(told)
}

#[test]
fn equality_of_entries(rt: HostRuntime) {
    let alloc = rt.alloc();
    is_text(&rt, equal_to_the_first(alloc, SOME_ENTRIES), "==/////");
    let mut timed = StreamId::empty(alloc);
    assert!(rt; timed == StreamId::empty(alloc));
    timed.delivered_count = Some(1);
    assert!(rt; timed != StreamId::empty(alloc));
    timed.delivered_count = None;
    timed.milliseconds_elapsed_from_delivery = Some(0);
    assert!(rt; timed != StreamId::empty(alloc));
}

const CLAIMS: &[(&[u8], &str)] = &[
    (b"*1\r\n$3\r\n0-0\r\n", "refused"),
    (
        b"*3\r\n$3\r\n0-0\r\n*0\r\n*0\r\n",
        "StreamAutoClaimReply { next_stream_id: \"0-0\", claimed: [], deleted_ids: [], invalid_entries: false }",
    ),
    (
        b"*3\r\n$3\r\n5-0\r\n*1\r\n$-1\r\n*0\r\n",
        "StreamAutoClaimReply { next_stream_id: \"5-0\", claimed: [], deleted_ids: [], invalid_entries: true }",
    ),
    (
        b"*2\r\n$3\r\n5-0\r\n*2\r\n$3\r\n1-0\r\n$-1\r\n",
        "StreamAutoClaimReply { next_stream_id: \"5-0\", claimed: [StreamId { id: \"1-0\", map: {}, milliseconds_elapsed_from_delivery: None, delivered_count: None }], deleted_ids: [], invalid_entries: true }",
    ),
    (
        b"*3\r\n$15\r\n1713465536578-0\r\n*2\r\n*2\r\n$15\r\n1713465533411-0\r\n*4\r\n$4\r\nname\r\n$4\r\ntest\r\n$5\r\nother\r\n$9\r\nwhaterver\r\n*2\r\n$15\r\n1713465536069-0\r\n*4\r\n$4\r\nname\r\n$12\r\nanother test\r\n$5\r\nother\r\n$9\r\nsomething\r\n*1\r\n$11\r\n123456789-0\r\n",
        "StreamAutoClaimReply { next_stream_id: \"1713465536578-0\", claimed: [StreamId { id: \"1713465533411-0\", map: {\"name\": BulkString([116, 101, 115, 116]), \"other\": BulkString([119, 104, 97, 116, 101, 114, 118, 101, 114])}, milliseconds_elapsed_from_delivery: None, delivered_count: None }, StreamId { id: \"1713465536069-0\", map: {\"name\": BulkString([97, 110, 111, 116, 104, 101, 114, 32, 116, 101, 115, 116]), \"other\": BulkString([115, 111, 109, 101, 116, 104, 105, 110, 103])}, milliseconds_elapsed_from_delivery: None, delivered_count: None }], deleted_ids: [\"123456789-0\"], invalid_entries: false }",
    ),
    (
        b"*3\r\n$15\r\n1713465536578-0\r\n*2\r\n$15\r\n1713465533411-0\r\n$15\r\n1713465536069-0\r\n*1\r\n$11\r\n123456789-0\r\n",
        "StreamAutoClaimReply { next_stream_id: \"1713465536578-0\", claimed: [StreamId { id: \"1713465533411-0\", map: {}, milliseconds_elapsed_from_delivery: None, delivered_count: None }, StreamId { id: \"1713465536069-0\", map: {}, milliseconds_elapsed_from_delivery: None, delivered_count: None }], deleted_ids: [\"123456789-0\"], invalid_entries: false }",
    ),
    (
        b"*2\r\n$15\r\n1713465536578-0\r\n*2\r\n*2\r\n$15\r\n1713465533411-0\r\n*4\r\n$4\r\nname\r\n$4\r\ntest\r\n$5\r\nother\r\n$9\r\nwhaterver\r\n*2\r\n$15\r\n1713465536069-0\r\n*4\r\n$4\r\nname\r\n$12\r\nanother test\r\n$5\r\nother\r\n$9\r\nsomething\r\n",
        "StreamAutoClaimReply { next_stream_id: \"1713465536578-0\", claimed: [StreamId { id: \"1713465533411-0\", map: {\"name\": BulkString([116, 101, 115, 116]), \"other\": BulkString([119, 104, 97, 116, 101, 114, 118, 101, 114])}, milliseconds_elapsed_from_delivery: None, delivered_count: None }, StreamId { id: \"1713465536069-0\", map: {\"name\": BulkString([97, 110, 111, 116, 104, 101, 114, 32, 116, 101, 115, 116]), \"other\": BulkString([115, 111, 109, 101, 116, 104, 105, 110, 103])}, milliseconds_elapsed_from_delivery: None, delivered_count: None }], deleted_ids: [], invalid_entries: false }",
    ),
];

#[test]
fn automatic_claims(rt: HostRuntime) {
    for (bytes, expected) in CLAIMS {
        reads::<StreamAutoClaimReply, _>(&rt, rt.alloc(), bytes, expected);
    }
}

const TWO_PENDING: &[u8] =
    b"*4\r\n:2\r\n$3\r\n1-0\r\n$3\r\n2-0\r\n*2\r\n*2\r\n$1\r\nc\r\n$1\r\n2\r\n$-1\r\n";

const TWO_PENDING_TEXT: &str =
    "Data(StreamPendingData { count: 2, start_id: \"1-0\", end_id: \"2-0\", consumers: [StreamInfoConsumer { name: \"c\", pending: 2, idle: 0 }] })";

#[test]
fn pending(rt: HostRuntime) {
    let alloc = rt.alloc();
    let none = b"*4\r\n:0\r\n$-1\r\n$-1\r\n*-1\r\n";
    reads::<StreamPendingReply, _>(&rt, alloc, none, "Empty");
    reads::<StreamPendingReply, _>(&rt, alloc, TWO_PENDING, TWO_PENDING_TEXT);
    let one = b"*1\r\n*4\r\n$3\r\n1-0\r\n$1\r\nc\r\n:7\r\n:1\r\n";
    let text =
        "StreamPendingCountReply { ids: [StreamPendingId { id: \"1-0\", consumer: \"c\", last_delivered_ms: 7, times_delivered: 1 }] }";
    reads::<StreamPendingCountReply, _>(&rt, alloc, one, text);
    let negative = b"*1\r\n*4\r\n$3\r\n1-0\r\n$1\r\nc\r\n:-1\r\n:1\r\n";
    reads::<StreamPendingCountReply, _>(&rt, alloc, negative, "refused");
}

const FIRST_ENTRY: &[u8] =
    b"%1\r\n$11\r\nfirst-entry\r\n*2\r\n$3\r\n1-0\r\n*2\r\n$1\r\nf\r\n$1\r\nv\r\n";

const FIRST_ENTRY_TEXT: &str =
    "StreamInfoStreamReply { last_generated_id: \"\", radix_tree_keys: 0, groups: 0, length: 0, first_entry: StreamId { id: \"1-0\", map: {\"f\": BulkString([118])}, milliseconds_elapsed_from_delivery: None, delivered_count: None }, last_entry: StreamId { id: \"\", map: {}, milliseconds_elapsed_from_delivery: None, delivered_count: None } }";

const IDEMPOTENT: &[u8] =
    b"*6\r\n$13\r\nidmp-duration\r\n:100\r\n$12\r\npids-tracked\r\n$1\r\n3\r\n$6\r\nlength\r\n:7\r\n";

const IDEMPOTENT_TEXT: &str =
    "StreamInfoStreamReplyWithIdempotency { base: StreamInfoStreamReply { last_generated_id: \"\", radix_tree_keys: 0, groups: 0, length: 7, first_entry: StreamId { id: \"\", map: {}, milliseconds_elapsed_from_delivery: None, delivered_count: None }, last_entry: StreamId { id: \"\", map: {}, milliseconds_elapsed_from_delivery: None, delivered_count: None } }, idmp_duration: 100, idmp_maxsize: 0, pids_tracked: 3, iids_tracked: 0, iids_added: 0, iids_duplicates: 0 }";

#[test]
fn information(rt: HostRuntime) {
    let alloc = rt.alloc();
    reads::<StreamInfoStreamReply, _>(&rt, alloc, FIRST_ENTRY, FIRST_ENTRY_TEXT);
    reads::<StreamInfoStreamReplyWithIdempotency, _>(&rt, alloc, IDEMPOTENT, IDEMPOTENT_TEXT);
    let consumer = b"*1\r\n%2\r\n$4\r\nname\r\n$1\r\nc\r\n$7\r\npending\r\n:2\r\n";
    let text =
        "StreamInfoConsumersReply { consumers: [StreamInfoConsumer { name: \"c\", pending: 2, idle: 0 }] }";
    reads::<StreamInfoConsumersReply, _>(&rt, alloc, consumer, text);
    let group =
        b"*1\r\n*6\r\n$4\r\nname\r\n$1\r\ng\r\n$12\r\nentries-read\r\n:4\r\n$3\r\nlag\r\n$-1\r\n";
    let text =
        "StreamInfoGroupsReply { groups: [StreamInfoGroup { name: \"g\", consumers: 0, pending: 0, last_delivered_id: \"\", entries_read: Some(4), lag: None }] }";
    reads::<StreamInfoGroupsReply, _>(&rt, alloc, group, text);
    reads::<StreamInfoGroupsReply, _>(&rt, alloc, b"*1\r\n:1\r\n", "refused");
}

#[test]
fn status_codes(rt: HostRuntime) {
    let alloc = rt.alloc();
    let codes = b"*3\r\n:1\r\n:-1\r\n:2\r\n";
    let text = "[Deleted, IdNotFound, NotDeletedUnacknowledgedOrStillReferenced]";
    reads::<Vec<XDelExStatusCode>, _>(&rt, alloc, codes, text);
    let text = "[AcknowledgedAndDeleted, IdNotFound, AcknowledgedNotDeletedStillReferenced]";
    reads::<Vec<XAckDelStatusCode>, _>(&rt, alloc, codes, text);
    reads::<Vec<XDelExStatusCode>, _>(&rt, alloc, b"*1\r\n:3\r\n", "refused");
    assert!(rt; XDelExStatusCode::Deleted != XDelExStatusCode::IdNotFound);
    assert!(rt; XAckDelStatusCode::IdNotFound == XAckDelStatusCode::IdNotFound);
}

/// The text with which a reply is refused, or the record.
fn refusal<T: FromRedisValue + Debug>(alloc: Global, bytes: &[u8]) -> Result<String, RedisError> {
    let reply = parse_redis_value(alloc, bytes)?;
    Ok(match from_redis_value::<T>(alloc, reply) {
        Ok(record) => shown(alloc, record)?,
        Err(e) => e.to_string(alloc)?,
    })
}

pub(crate) fn is_text<R: Abort, E: Drop>(rt: &R, found: Result<String, E>, expected: &str) {
    match found {
        Ok(text) => assert_eq!(rt; text.as_str(), expected),
        Err(_) => assert!(rt; false, "there is no text"),
    }
}

/// The value is shown so.
fn shows<T: Debug + Drop, R: Abort>(rt: &R, alloc: Global, value: T, expected: &str) {
    is_text(rt, shown(alloc, value), expected);
}

#[test]
fn status_numbers_and_texts(rt: HostRuntime) {
    let alloc = rt.alloc();
    let numbers = [
        XDelExStatusCode::IdNotFound as i64,
        XDelExStatusCode::Deleted as i64,
        XDelExStatusCode::NotDeletedUnacknowledgedOrStillReferenced as i64,
        XAckDelStatusCode::IdNotFound as i64,
        XAckDelStatusCode::AcknowledgedAndDeleted as i64,
        XAckDelStatusCode::AcknowledgedNotDeletedStillReferenced as i64,
    ];
    shows(&rt, alloc, numbers, "[-1, 1, 2, -1, 1, 2]");
    let number = refusal::<XDelExStatusCode>(alloc, b":3\r\n");
    is_text(&rt, number, "Invalid XDelExStatusCode status code: 3");
    let number = refusal::<XAckDelStatusCode>(alloc, b":0\r\n");
    is_text(&rt, number, "Invalid XAckDelStatusCode status code: 0");
    let null = refusal::<XDelExStatusCode>(alloc, b"_\r\n");
    is_text(&rt, null, "Response type not XDelExStatusCode compatible");
    let null = refusal::<XAckDelStatusCode>(alloc, b"_\r\n");
    is_text(&rt, null, "Response type not XAckDelStatusCode compatible");
}

const NO_STREAM_TEXT: &str =
    "StreamInfoStreamReply { last_generated_id: \"\", radix_tree_keys: 0, groups: 0, length: 0, first_entry: StreamId { id: \"\", map: {}, milliseconds_elapsed_from_delivery: None, delivered_count: None }, last_entry: StreamId { id: \"\", map: {}, milliseconds_elapsed_from_delivery: None, delivered_count: None } }";

#[test]
fn empty_records(rt: HostRuntime) {
    let alloc = rt.alloc();
    let reply = StreamReadReply::empty(alloc);
    shows(&rt, alloc, reply, "StreamReadReply { keys: [] }");
    let row = "StreamKey { key: \"\", ids: [] }";
    shows(&rt, alloc, StreamKey::empty(alloc), row);
    let reply = StreamRangeReply::empty(alloc);
    shows(&rt, alloc, reply, "StreamRangeReply { ids: [] }");
    let reply = StreamClaimReply::empty(alloc);
    shows(&rt, alloc, reply, "StreamClaimReply { ids: [] }");
    let reply = StreamAutoClaimReply::empty(alloc);
    let text =
        "StreamAutoClaimReply { next_stream_id: \"\", claimed: [], deleted_ids: [], invalid_entries: false }";
    shows(&rt, alloc, reply, text);
    shows(&rt, alloc, StreamPendingReply::empty(), "Empty");
    let text = "StreamPendingData { count: 0, start_id: \"\", end_id: \"\", consumers: [] }";
    shows(&rt, alloc, StreamPendingData::empty(alloc), text);
    let reply = StreamPendingCountReply::empty(alloc);
    shows(&rt, alloc, reply, "StreamPendingCountReply { ids: [] }");
    let text =
        "StreamPendingId { id: \"\", consumer: \"\", last_delivered_ms: 0, times_delivered: 0 }";
    shows(&rt, alloc, StreamPendingId::empty(alloc), text);
}

#[test]
fn empty_information(rt: HostRuntime) {
    let alloc = rt.alloc();
    let reply = StreamInfoConsumersReply::empty(alloc);
    let text = "StreamInfoConsumersReply { consumers: [] }";
    shows(&rt, alloc, reply, text);
    let text = "StreamInfoConsumer { name: \"\", pending: 0, idle: 0 }";
    shows(&rt, alloc, StreamInfoConsumer::empty(alloc), text);
    let reply = StreamInfoGroupsReply::empty(alloc);
    shows(&rt, alloc, reply, "StreamInfoGroupsReply { groups: [] }");
    let text =
        "StreamInfoGroup { name: \"\", consumers: 0, pending: 0, last_delivered_id: \"\", entries_read: None, lag: None }";
    shows(&rt, alloc, StreamInfoGroup::empty(alloc), text);
    let reply = StreamInfoStreamReply::empty(alloc);
    shows(&rt, alloc, reply, NO_STREAM_TEXT);
    let iids_added = StreamInfoStreamReplyWithIdempotency::empty(alloc).iids_added;
    assert_eq!(rt; iids_added, 0);
}

fn copy_text(alloc: Global, bytes: &[u8]) -> Result<String, RedisError> {
    let value = parse_redis_value(alloc, bytes)?;
    let reply: StreamReadReply = from_redis_value(alloc, value)?;
    Ok(shown(alloc, reply.clone()?)?)
}

#[test]
fn copies(rt: HostRuntime) {
    is_text(&rt, copy_text(rt.alloc(), CLAIMED), CLAIMED_TEXT);
}

/// What an entry tells of the field `f`, and how many fields it has.
fn field_text(alloc: Global, entry: &StreamId) -> Result<String, AllocError> {
    let field = entry.get::<String>("f");
    let has_it = entry.contains_key("f");
    shown(alloc, (field, has_it, entry.len(), entry.is_empty()))
}

fn first_field_text(alloc: Global, bytes: &[u8]) -> Result<String, RedisError> {
    let value = parse_redis_value(alloc, bytes)?;
    let range: StreamRangeReply = from_redis_value(alloc, value)?;
    match range.ids.first() {
        Some(entry) => Ok(field_text(alloc, entry)?),
        None => Ok(text(alloc, "no entry")?),
    }
}

#[test]
fn fields(rt: HostRuntime) {
    let found = first_field_text(rt.alloc(), RANGE);
    is_text(&rt, found, "(Ok(Some(\"v\")), true, 1, false)");
}

/// Why a reply is refused, by the owned form, and by the lent one where that is another.
fn cause<T: FromRedisValue + Debug>(alloc: Global, bytes: &[u8]) -> Result<String, RedisError> {
    let value = parse_redis_value(alloc, bytes)?;
    let lent = said(alloc, from_redis_value_ref::<T>(alloc, &value))?;
    let owned = said(alloc, from_redis_value::<T>(alloc, value))?;
    if lent == owned {
        return Ok(owned);
    }
    Ok(format!(in alloc; "{owned} but lent {lent}")?)
}

fn said<T: Debug + Drop>(
    alloc: Global,
    outcome: Result<T, ParsingError>,
) -> Result<String, AllocError> {
    match outcome {
        Ok(record) => shown(alloc, record),
        Err(e) => format!(in alloc; "{e}"),
    }
}

const NO_FOUR: &str = "an array of four was wanted";

// Refused replies: a later entry has no id, in the standard form and in claim form; the second key, and the first, is no
// text; and a later entry of a claim has two parts.
const REFUSED: &[(&[u8], &str)] = &[
    (
        b"*1\r\n*2\r\n$1\r\na\r\n*2\r\n*2\r\n$3\r\n1-0\r\n*0\r\n*2\r\n$-1\r\n*0\r\n",
        NO_FOUR,
    ),
    (
        b"%1\r\n$1\r\na\r\n*2\r\n*2\r\n$3\r\n1-0\r\n*0\r\n*2\r\n_\r\n*0\r\n",
        NO_FOUR,
    ),
    (
        b"*1\r\n*2\r\n$1\r\na\r\n*2\r\n*4\r\n$3\r\n1-0\r\n*0\r\n:5\r\n:1\r\n*4\r\n$-1\r\n*0\r\n:5\r\n:1\r\n",
        "a text was wanted",
    ),
    (
        b"*2\r\n*2\r\n$1\r\na\r\n*1\r\n*2\r\n$3\r\n1-0\r\n*0\r\n*2\r\n$1\r\n\xff\r\n*0\r\n",
        NO_FOUR,
    ),
    (
        b"*1\r\n*2\r\n$1\r\n\xff\r\n*1\r\n*2\r\n$3\r\n1-0\r\n*0\r\n",
        "a text in UTF-8 was wanted",
    ),
    (
        b"*1\r\n*2\r\n$1\r\na\r\n*2\r\n*4\r\n$3\r\n1-0\r\n*0\r\n:5\r\n:1\r\n*2\r\n$3\r\n1-1\r\n*0\r\n",
        NO_FOUR,
    ),
];

#[test]
fn causes_of_refused_reads(rt: HostRuntime) {
    let alloc = rt.alloc();
    for (bytes, wanted) in REFUSED {
        is_text(&rt, cause::<StreamReadReply>(alloc, bytes), wanted);
    }
}

const NO_PAIRS: &str = "a map, or an even number of items, was wanted";

// Refused replies to XRANGE: no list; an entry that is none, has one part, three parts, no id, an id that is no text, no fields, an odd
// number of fields, and a value that is no text; then an entry of a map whose id is no text. Each stands behind an entry that can be read.
const REFUSED_RANGES: &[(&[u8], &str)] = &[
    (b":5\r\n", "a list was wanted"),
    (b"*2\r\n*2\r\n$3\r\n1-0\r\n*0\r\n:5\r\n", NO_PAIRS),
    (
        b"*2\r\n*2\r\n$3\r\n1-0\r\n*0\r\n*1\r\n$3\r\n1-1\r\n",
        NO_PAIRS,
    ),
    (
        b"*2\r\n*2\r\n$3\r\n1-0\r\n*0\r\n*3\r\n$3\r\n1-1\r\n*0\r\n:1\r\n",
        NO_PAIRS,
    ),
    (
        b"*2\r\n*2\r\n$3\r\n1-0\r\n*0\r\n*2\r\n$-1\r\n*0\r\n",
        "a text was wanted",
    ),
    (
        b"*2\r\n*2\r\n$3\r\n1-0\r\n*0\r\n*2\r\n$1\r\n\xff\r\n*0\r\n",
        "a text in UTF-8 was wanted",
    ),
    (
        b"*2\r\n*2\r\n$3\r\n1-0\r\n*0\r\n*2\r\n$3\r\n1-1\r\n:1\r\n",
        NO_PAIRS,
    ),
    (
        b"*2\r\n*2\r\n$3\r\n1-0\r\n*0\r\n*2\r\n$3\r\n1-1\r\n*1\r\n$1\r\nf\r\n",
        NO_PAIRS,
    ),
    (
        b"*2\r\n*2\r\n$3\r\n1-0\r\n*0\r\n*2\r\n$3\r\n1-1\r\n*2\r\n$1\r\n\xff\r\n*0\r\n",
        "a text in UTF-8 was wanted",
    ),
    (
        b"*2\r\n*2\r\n$3\r\n1-0\r\n*0\r\n%1\r\n$1\r\n\xff\r\n*0\r\n",
        "a text in UTF-8 was wanted",
    ),
];

#[test]
fn causes_of_refused_ranges(rt: HostRuntime) {
    let alloc = rt.alloc();
    for (bytes, wanted) in REFUSED_RANGES {
        is_text(&rt, cause::<StreamRangeReply>(alloc, bytes), wanted);
    }
}
