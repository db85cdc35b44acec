//! Replies to XPENDING with a range.
#![tactic(auto, using(crate::proofs::Made::making))]

ghost use Rattle.std.specs.Prelude.{◌≡◌, [], false, pos, List, string_bytes, map as each, None};
ghost use Rattle.resp_core.specs.View.{view};
ghost use Rattle.resp_args.specs.Convert.{Answers, traverse, utf8};
ghost use Rattle.stream_commands.specs.PendingCount.{PendingId, only_bulk as spec_only_bulk, only_number as spec_only_number, pending_row, pending_row_of, pending_count_reply};
ghost use Rattle.stream_commands.specs.InfoViews.{pending_id_view};

use crate::records::one;
use resp_args::{FromRedisValue, Number};
use resp_core::{ParsingError, Value};
use std::alloc::Global;

/// A pending entry.
#[derive(Clone, Drop, Debug)]
pub struct StreamPendingId {
    /// Its id.
    pub id: String,
    /// The consumer that it was delivered to last.
    pub consumer: String,
    /// For how many milliseconds it has been delivered.
    pub last_delivered_ms: usize,
    /// How often it was delivered.
    pub times_delivered: usize,
}

/// Pending entries one by one.
#[derive(Clone, Drop, Debug)]
pub struct StreamPendingCountReply {
    /// The entries in order.
    pub ids: Vec<StreamPendingId>,
}

impl StreamPendingId {
    /// A pending entry of which nothing is known.
    pub fn empty(alloc: Global) -> StreamPendingId
        ensures { pending_id_view result
            ≡ record { id = []; consumer = []; milliseconds = pos 0; deliveries = pos 0 } }
    {
        StreamPendingId {
            id: String::new(alloc),
            consumer: String::new(alloc),
            last_delivered_ms: 0,
            times_delivered: 0,
        }
    }
}

impl StreamPendingCountReply {
    /// A reply of no pending entry.
    pub fn empty(alloc: Global) -> StreamPendingCountReply
        ensures { each pending_id_view result.ids.items ≡ [] }
    {
        StreamPendingCountReply {
            ids: Vec::new(alloc),
        }
    }
}

impl FromRedisValue for StreamPendingCountReply {
    ghost Meaning = { List PendingId };

    ghost meaning = { λ r. each pending_id_view r.ids.items };

    ghost same = { λ _ _. false };

    ghost convert = { pending_count_reply };

    ghost byte_item = { None };

    fn from_redis_value(alloc: Global, value: Value) -> Result<Self, ParsingError> {
        match value {
            Value::Array(rows) => pending_count(alloc, rows),
            _ => Err(ParsingError::fixed("an array was wanted")),
        }
    }

    fn from_byte_vec(alloc: Global, bytes: Vec<u8>) -> Result<Vec<Self>, ParsingError> {
        let value = Self::from_redis_value(alloc, Value::BulkString(bytes))?;
        one(alloc, value)
    }
}

fn pending_count(alloc: Global, rows: Vec<Value>) -> Result<StreamPendingCountReply, ParsingError>
    ensures { Answers (λ r. each pending_id_view r.ids.items)
        (traverse pending_row (each view rows.items)) result }
{
    let ids = pending_ids(alloc, rows)?;
    Ok(StreamPendingCountReply { ids })
}

fn pending_ids(alloc: Global, rows: Vec<Value>) -> Result<Vec<StreamPendingId>, ParsingError>
    ensures { Answers (λ v. each pending_id_view v.items)
        (traverse pending_row (each view rows.items)) result }
{
    let mut ids = Vec::with_capacity(alloc, rows.len())?;
    for row in rows {
        ids.push(pending_id(row)?)?;
    }
    Ok(ids)
}

fn pending_id(row: Value) -> Result<StreamPendingId, ParsingError>
    ensures { Answers pending_id_view (pending_row (view row)) result }
{
    match row {
        Value::Array(items) => pending_id_of(items),
        _ => Err(ParsingError::fixed("an array of four was wanted")),
    }
}

fn pending_id_of(items: Vec<Value>) -> Result<StreamPendingId, ParsingError>
    ensures { Answers pending_id_view (pending_row_of (each view items.items)) result }
{
    match <[Value; 4]>::try_from(items) {
        Ok(all) => {
            let [id, consumer, milliseconds, deliveries] = all;
            Ok(StreamPendingId {
                id: only_bulk(id)?,
                consumer: only_bulk(consumer)?,
                last_delivered_ms: only_number(milliseconds)?,
                times_delivered: only_number(deliveries)?,
            })
        }
        Err(_items) => Err(ParsingError::fixed("an array of four was wanted")),
    }
}

fn only_bulk(value: Value) -> Result<String, ParsingError>
    ensures { Answers string_bytes (spec_only_bulk (view value)) result }
{
    match value {
        Value::BulkString(bytes) => utf8_text(bytes),
        _ => Err(ParsingError::fixed("a bulk was wanted")),
    }
}

fn utf8_text(bytes: Vec<u8>) -> Result<String, ParsingError>
    ensures { Answers string_bytes (utf8 bytes.items) result }
{
    match String::from_utf8(bytes) {
        Ok(text) => Ok(text),
        Err(_) => Err(ParsingError::fixed("a text in UTF-8 was wanted")),
    }
}

fn only_number(value: Value) -> Result<usize, ParsingError>
    ensures { Answers pos (spec_only_number (view value)) result }
{
    match value {
        Value::Int(n) => match usize::from_i64(n) {
            Some(number) => Ok(number),
            None => Err(ParsingError::fixed("a number of no sign was wanted")),
        },
        _ => Err(ParsingError::fixed("a number was wanted")),
    }
}
