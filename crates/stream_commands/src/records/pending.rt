//! Replies to XPENDING with a key and a group.
ghost use Rattle.std.specs.Prelude.{◌≡◌, [], false, pos, string_bytes, map as each, None};
ghost use Rattle.resp_args.specs.Convert.{Answers};
ghost use Rattle.stream_commands.specs.AutoClaim.{keep_present};
ghost use Rattle.stream_commands.specs.Pending.{Pending, none_pending, pending_consumer as spec_pending_consumer, pending_of, pending_reply};
ghost use Rattle.stream_commands.specs.InfoViews.{consumer_view, pairs_view, pending_view, pending_data_view, pending_parts_view};
ghost use Rattle.stream_commands.specs.RecordViews.{MadeOf};

use crate::records::consumers::StreamInfoConsumer;
use crate::records::one;
use resp_args::{FromRedisValue, Number};
use resp_core::{ParsingError, Value};
use std::alloc::Global;

/// How many entries of a group are pending.
#[derive(Clone, Drop, Debug)]
pub enum StreamPendingReply {
    /// None.
    Empty,
    /// Some.
    Data(StreamPendingData),
}

/// The pending entries of a group.
#[derive(Clone, Drop, Debug)]
pub struct StreamPendingData {
    /// How many there are.
    pub count: usize,
    /// The least id.
    pub start_id: String,
    /// The greatest id.
    pub end_id: String,
    /// The consumers, each with the number of its entries; idle times are not said.
    pub consumers: Vec<StreamInfoConsumer>,
}

impl StreamPendingData {
    /// No pending entry, between empty ids.
    pub fn empty(alloc: Global) -> StreamPendingData
        ensures { pending_data_view result ≡ record { count = pos 0; start = []; end = []; consumers = [] } }
    {
        StreamPendingData {
            count: 0,
            start_id: String::new(alloc),
            end_id: String::new(alloc),
            consumers: Vec::new(alloc),
        }
    }
}

impl StreamPendingReply {
    /// A reply of no pending entry. It takes no memory.
    pub fn empty() -> StreamPendingReply
        ensures { pending_view result ≡ none_pending }
    {
        StreamPendingReply::Empty
    }

    ghost use Rattle.stream_commands.specs.InfoViews.{pending_count};

    /// How many entries are pending. It takes no memory.
    pub fn count(&self) -> usize
        ensures { result ≡ pending_count self.now }
    {
        match self {
            StreamPendingReply::Empty => 0,
            StreamPendingReply::Data(data) => data.count,
        }
    }
}

type Parts = (
    usize,
    Option<String>,
    Option<String>,
    Vec<Option<(String, String)>>,
);

impl FromRedisValue for StreamPendingReply {
    ghost Meaning = { Pending };

    ghost meaning = { pending_view };

    ghost same = { λ _ _. false };

    ghost convert = { pending_reply };

    ghost byte_item = { None };

    fn from_redis_value(alloc: Global, value: Value) -> Result<Self, ParsingError> {
        let parts = Parts::from_redis_value(alloc, value)?;
        pending(alloc, parts)
    }

    fn from_redis_value_ref(alloc: Global, value: &Value) -> Result<Self, ParsingError> {
        let parts = Parts::from_redis_value_ref(alloc, value)?;
        pending(alloc, parts)
    }

    fn from_byte_vec(alloc: Global, bytes: Vec<u8>) -> Result<Vec<Self>, ParsingError> {
        let value = Self::from_redis_value(alloc, Value::BulkString(bytes))?;
        one(alloc, value)
    }
}

fn pending(alloc: Global, parts: Parts) -> Result<StreamPendingReply, ParsingError>
    ensures { Answers pending_view (pending_of (pending_parts_view parts)) result }
{
    let (count, start, end, consumers) = parts;
    if count == 0 {
        return Ok(StreamPendingReply::Empty);
    }
    match start {
        None => Err(ParsingError::fixed("a first pending id was wanted")),
        Some(start_id) => match end {
            None => Err(ParsingError::fixed("a last pending id was wanted")),
            Some(end_id) => Ok(StreamPendingReply::Data(StreamPendingData {
                count,
                start_id,
                end_id,
                consumers: pending_consumers(alloc, consumers)?,
            })),
        },
    }
}

fn pending_consumers(
    alloc: Global,
    parts: Vec<Option<(String, String)>>,
) -> Result<Vec<StreamInfoConsumer>, ParsingError>
    ensures { MadeOf (λ v. each consumer_view v.items)
        (each spec_pending_consumer (keep_present (pairs_view parts.items))) result }
{
    let mut consumers = Vec::new(alloc);
    for item in parts {
        match item {
            Some(pair) => {
                let (name, number) = pair;
                consumers.push(pending_consumer(name, number.as_str()))?;
            }
            None => {}
        }
    }
    Ok(consumers)
}

/// A number that is none counts as 0.
fn pending_consumer(name: String, number: &str) -> StreamInfoConsumer
    ensures { consumer_view result ≡ spec_pending_consumer (string_bytes name, number.now) }
{
    let pending = match usize::from_text(number) {
        Some(n) => n,
        None => 0,
    };
    StreamInfoConsumer {
        name,
        pending,
        idle: 0,
    }
}
