//! Replies to XINFO STREAM.
#![tactic(auto, using(crate::proofs::Made::making))]

ghost use Rattle.std.specs.Prelude.{◌≡◌, false, pos, string_bytes, map as each, None};
ghost use Rattle.resp_core.specs.View.{view};
ghost use Rattle.resp_args.specs.Convert.{Answers};
ghost use Rattle.stream_commands.specs.Entries.{Entry};
ghost use Rattle.stream_commands.specs.InfoViews.{stream_info_view, idempotent_info_view};
ghost use Rattle.stream_commands.specs.RecordViews.{entry_view, fields_view};
ghost use Rattle.stream_commands.specs.StreamInfo.{StreamInfo, IdempotentInfo, no_entry as spec_no_entry, no_stream_info, idempotent_info, entry, entry_of, entry_at as spec_entry_at, an_entry, stream_info_of, info_stream_reply, idempotent_info_of, info_stream_idempotent_reply};

use crate::records::entries::StreamId;
use crate::records::one;
use crate::records::under_name::read_under;
use indexmap::IndexMap;
use resp_args::FromRedisValue;
use resp_core::{ParsingError, Value};
use std::alloc::Global;

/// What a server tells of a stream. What it leaves out is empty or 0.
#[derive(Clone, Drop, Debug)]
pub struct StreamInfoStreamReply {
    /// The id that was given last.
    pub last_generated_id: String,
    /// How many nodes the stream's tree has.
    pub radix_tree_keys: usize,
    /// How many groups it has.
    pub groups: usize,
    /// How many entries it has.
    pub length: usize,
    /// Its first entry.
    pub first_entry: StreamId,
    /// Its last entry.
    pub last_entry: StreamId,
}

/// What a server tells of a stream and of its idempotent ids. What it leaves out is empty or 0.
#[derive(Clone, Drop, Debug)]
pub struct StreamInfoStreamReplyWithIdempotency {
    /// What it tells of the stream.
    pub base: StreamInfoStreamReply,
    /// For how many seconds an idempotent id is kept.
    pub idmp_duration: u32,
    /// How many idempotent ids are kept for a producer.
    pub idmp_maxsize: u16,
    /// How many producers are known.
    pub pids_tracked: usize,
    /// How many idempotent ids are known.
    pub iids_tracked: usize,
    /// How many entries were added with an idempotent id.
    pub iids_added: usize,
    /// How many entries were not added, as their idempotent id was known.
    pub iids_duplicates: usize,
}

impl StreamInfoStreamReply {
    /// A reply that says nothing of the stream.
    pub fn empty(alloc: Global) -> StreamInfoStreamReply
        ensures { stream_info_view result ≡ no_stream_info }
    {
        StreamInfoStreamReply {
            last_generated_id: String::new(alloc),
            radix_tree_keys: 0,
            groups: 0,
            length: 0,
            first_entry: StreamId::empty(alloc),
            last_entry: StreamId::empty(alloc),
        }
    }
}

impl StreamInfoStreamReplyWithIdempotency {
    /// A reply that says nothing of the stream and its idempotent ids.
    pub fn empty(alloc: Global) -> StreamInfoStreamReplyWithIdempotency
        ensures { idempotent_info_view result
            ≡ idempotent_info no_stream_info (pos 0) (pos 0) (pos 0) (pos 0) (pos 0) (pos 0) }
    {
        StreamInfoStreamReplyWithIdempotency {
            base: StreamInfoStreamReply::empty(alloc),
            idmp_duration: 0,
            idmp_maxsize: 0,
            pids_tracked: 0,
            iids_tracked: 0,
            iids_added: 0,
            iids_duplicates: 0,
        }
    }
}

// An entry alone: an array of its id and its fields.
#[derive(Drop)]
struct LoneEntry {
    entry: StreamId,
}

impl FromRedisValue for LoneEntry {
    ghost Meaning = { Entry };

    ghost meaning = { λ e. entry_view e.entry };

    ghost same = { λ _ _. false };

    ghost convert = { an_entry };

    ghost byte_item = { None };

    fn from_redis_value(alloc: Global, value: Value) -> Result<Self, ParsingError> {
        match value {
            Value::Array(items) => lone_entry(alloc, items),
            _ => Ok(no_entry(alloc)),
        }
    }

    fn from_byte_vec(alloc: Global, bytes: Vec<u8>) -> Result<Vec<Self>, ParsingError> {
        let value = Self::from_redis_value(alloc, Value::BulkString(bytes))?;
        one(alloc, value)
    }
}

fn no_entry(alloc: Global) -> LoneEntry
    ensures { entry_view result.entry ≡ spec_no_entry }
{
    LoneEntry {
        entry: StreamId::empty(alloc),
    }
}

/// The id and the fields, as far as they are there.
fn lone_entry(alloc: Global, items: Vec<Value>) -> Result<LoneEntry, ParsingError>
    ensures { Answers (λ e. entry_view e.entry) (entry_of (each view items.items)) result }
{
    let mut items = items.into_iter();
    match items.next() {
        None => Ok(no_entry(alloc)),
        Some(id) => match items.next() {
            None => {
                let id = String::from_redis_value(alloc, id)?;
                Ok(without_times(id, IndexMap::new(alloc)))
            }
            Some(fields) => {
                let id = String::from_redis_value(alloc, id)?;
                let map = IndexMap::<String, Value>::from_redis_value(alloc, fields)?;
                Ok(without_times(id, map))
            }
        },
    }
}

fn without_times(id: String, map: IndexMap<String, Value>) -> LoneEntry
    ensures { entry_view result.entry ≡ entry (string_bytes id) (fields_view map) }
{
    LoneEntry {
        entry: StreamId {
            id,
            map,
            milliseconds_elapsed_from_delivery: None,
            delivered_count: None,
        },
    }
}

impl FromRedisValue for StreamInfoStreamReply {
    ghost Meaning = { StreamInfo };

    ghost meaning = { stream_info_view };

    ghost same = { λ _ _. false };

    ghost convert = { info_stream_reply };

    ghost byte_item = { None };

    fn from_redis_value(alloc: Global, value: Value) -> Result<Self, ParsingError> {
        let fields = IndexMap::<String, Value>::from_redis_value(alloc, value)?;
        stream_info(alloc, &fields)
    }

    fn from_redis_value_ref(alloc: Global, value: &Value) -> Result<Self, ParsingError> {
        let fields = IndexMap::<String, Value>::from_redis_value_ref(alloc, value)?;
        stream_info(alloc, &fields)
    }

    fn from_byte_vec(alloc: Global, bytes: Vec<u8>) -> Result<Vec<Self>, ParsingError> {
        let value = Self::from_redis_value(alloc, Value::BulkString(bytes))?;
        one(alloc, value)
    }
}

/// The entry under the name, or none of which anything is known.
fn entry_at(
    alloc: Global,
    fields: &IndexMap<String, Value>,
    name: &str,
) -> Result<LoneEntry, ParsingError>
    ensures { Answers (λ e. entry_view e.entry) (spec_entry_at name.now (fields_view fields.now)) result }
{
    let missing = no_entry(alloc);
    read_under(alloc, fields, name, missing)
}

fn stream_info(
    alloc: Global,
    fields: &IndexMap<String, Value>,
) -> Result<StreamInfoStreamReply, ParsingError>
    ensures { Answers stream_info_view (stream_info_of (fields_view fields.now)) result }
{
    let last_generated_id = read_under(alloc, fields, "last-generated-id", String::new(alloc))?;
    let radix_tree_keys = read_under::<usize>(alloc, fields, "radix-tree-nodes", 0)?;
    let groups = read_under::<usize>(alloc, fields, "groups", 0)?;
    let length = read_under::<usize>(alloc, fields, "length", 0)?;
    let LoneEntry { entry: first_entry } = entry_at(alloc, fields, "first-entry")?;
    let LoneEntry { entry: last_entry } = entry_at(alloc, fields, "last-entry")?;
    Ok(StreamInfoStreamReply {
        last_generated_id,
        radix_tree_keys,
        groups,
        length,
        first_entry,
        last_entry,
    })
}

impl FromRedisValue for StreamInfoStreamReplyWithIdempotency {
    ghost Meaning = { IdempotentInfo };

    ghost meaning = { idempotent_info_view };

    ghost same = { λ _ _. false };

    ghost convert = { info_stream_idempotent_reply };

    ghost byte_item = { None };

    fn from_redis_value(alloc: Global, value: Value) -> Result<Self, ParsingError> {
        let fields = IndexMap::<String, Value>::from_redis_value(alloc, value)?;
        idempotent_info(alloc, &fields)
    }

    fn from_redis_value_ref(alloc: Global, value: &Value) -> Result<Self, ParsingError> {
        let fields = IndexMap::<String, Value>::from_redis_value_ref(alloc, value)?;
        idempotent_info(alloc, &fields)
    }

    fn from_byte_vec(alloc: Global, bytes: Vec<u8>) -> Result<Vec<Self>, ParsingError> {
        let value = Self::from_redis_value(alloc, Value::BulkString(bytes))?;
        one(alloc, value)
    }
}

fn idempotent_info(
    alloc: Global,
    fields: &IndexMap<String, Value>,
) -> Result<StreamInfoStreamReplyWithIdempotency, ParsingError>
    ensures { Answers idempotent_info_view (idempotent_info_of (fields_view fields.now)) result }
{
    let base = stream_info(alloc, fields)?;
    let idmp_duration = read_under::<u32>(alloc, fields, "idmp-duration", 0)?;
    let idmp_maxsize = read_under::<u16>(alloc, fields, "idmp-maxsize", 0)?;
    let pids_tracked = read_under::<usize>(alloc, fields, "pids-tracked", 0)?;
    let iids_tracked = read_under::<usize>(alloc, fields, "iids-tracked", 0)?;
    let iids_added = read_under::<usize>(alloc, fields, "iids-added", 0)?;
    let iids_duplicates = read_under::<usize>(alloc, fields, "iids-duplicates", 0)?;
    Ok(StreamInfoStreamReplyWithIdempotency {
        base,
        idmp_duration,
        idmp_maxsize,
        pids_tracked,
        iids_tracked,
        iids_added,
        iids_duplicates,
    })
}
