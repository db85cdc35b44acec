//! Entries of streams.
ghost use Rattle.std.specs.Prelude.{◌≡◌, ◌++◌, false, List, string_bytes, option_map, map as each, MatchResult, None};
ghost use Rattle.std.specs.List.{flat_map};
ghost use Rattle.resp_core.specs.Errors.{no_memory};
ghost use Rattle.resp_core.specs.Trees.{array};
ghost use Rattle.resp_core.specs.View.{view, trees_of};
ghost use Rattle.resp_args.specs.Convert.{Answers, traverse};
ghost use Rattle.stream_commands.specs.Entries.{Entry, ids_with_fields, without_times, entries, claimed_entries};
ghost use Rattle.stream_commands.specs.RecordViews.{MadeOf, entry_view, entry_of_parts, entries_under_ids, entries_view, fields_view};

use crate::records::fields::{Fields, copy_fields};
use crate::records::one;
use indexmap::IndexMap;
use resp_args::FromRedisValue;
use resp_core::{ParsingError, RedisError, Value};
use std::alloc::{AllocError, Global};

/// An entry of a stream.
#[derive(Drop, Debug)]
pub struct StreamId {
    /// Its id.
    pub id: String,
    /// Its fields in order of arrival.
    pub map: IndexMap<String, Value>,
    /// For how many milliseconds it has been delivered, where the reply tells it.
    pub milliseconds_elapsed_from_delivery: Option<usize>,
    /// How often it was delivered, where the reply tells it.
    pub delivered_count: Option<usize>,
}

impl StreamId {
    ghost use Rattle.std.specs.Prelude.{length, is_some, nat_eq, option_and_then};
    ghost use Rattle.resp_core.specs.Errors.{unread};
    ghost use Rattle.stream_commands.specs.StreamInfo.{no_entry};
    ghost use Rattle.stream_commands.specs.UnderNames.{under};

    /// An entry of which nothing is known.
    pub fn empty(alloc: Global) -> StreamId
        ensures { entry_view result ≡ no_entry }
    {
        StreamId {
            id: String::new(alloc),
            map: IndexMap::new(alloc),
            milliseconds_elapsed_from_delivery: None,
            delivered_count: None,
        }
    }

    /// The value of a field, read as a `T`: none where there is no such field, or where its value
    /// is read as no `T`.
    pub fn get<T: FromRedisValue>(&self, key: &str) -> Result<Option<T>, RedisError>
        ensures { MatchResult result (λ o. option_map T.meaning o
            ≡ option_and_then T.convert (under key.now (fields_view self.now.map)))
            (λ e. e ≡ unread no_memory) }
    {
        match self.map.get(key) {
            None => Ok(None),
            Some(value) => match T::from_redis_value_ref(*self.id.allocator(), value) {
                Ok(read) => Ok(Some(read)),
                Err(e) => {
                    if e.is_memory() {
                        Err(RedisError::from(e))
                    } else {
                        Ok(None)
                    }
                }
            },
        }
    }

    /// Whether there is a field of this name. It takes no memory.
    pub fn contains_key(&self, key: &str) -> bool
        ensures { result ≡ is_some (under key.now (fields_view self.now.map)) }
    {
        self.map.contains_key(key)
    }

    /// How many fields there are. It takes no memory.
    pub fn len(&self) -> usize
        ensures { result ≡ length (fields_view self.now.map) }
    {
        self.map.len()
    }

    /// Whether there is no field. It takes no memory.
    pub fn is_empty(&self) -> bool
        ensures { result ≡ nat_eq (length (fields_view self.now.map)) 0 }
    {
        self.map.len() == 0
    }
}

/// A copy with equal fields in the same order. It is refused for want of memory alone.
impl Clone for StreamId {
    ghost is_clone = { λ entry copy. entry_view copy ≡ entry_view entry };

    fn clone(&self) -> Result<StreamId, AllocError> {
        let id = self.id.clone()?;
        let map = copy_fields(*self.id.allocator(), &self.map)?;
        Ok(StreamId {
            id,
            map,
            milliseconds_elapsed_from_delivery: self.milliseconds_elapsed_from_delivery,
            delivered_count: self.delivered_count,
        })
    }
}

/// A form in which a reply lists entries.
pub(crate) trait EntryForm: Drop {
    /// The entries that it lists.
    ghost lists: { Self → List Entry };

    /// The entries in order. It takes no memory.
    fn into_ids(self) -> Vec<StreamId>
        ensures { entries_view result.items ≡ lists self };
}

/// Entries in standard form: each an id with fields.
#[derive(Drop)]
pub(crate) struct Entries {
    pub(crate) ids: Vec<StreamId>,
}

impl FromRedisValue for Entries {
    ghost Meaning = { List Entry };

    ghost meaning = { λ e. entries_view e.ids.items };

    ghost same = { λ _ _. false };

    ghost convert = { entries };

    ghost byte_item = { None };

    fn from_redis_value(alloc: Global, value: Value) -> Result<Self, ParsingError> {
        match value {
            Value::Array(items) => each_entry(alloc, items),
            value => other_entries(alloc, value),
        }
    }

    fn from_redis_value_ref(alloc: Global, value: &Value) -> Result<Self, ParsingError> {
        let maps = Vec::<IndexMap<String, Fields>>::from_redis_value_ref(alloc, value)?;
        Ok(Entries {
            ids: list_entries(alloc, maps)?,
        })
    }

    fn from_byte_vec(alloc: Global, bytes: Vec<u8>) -> Result<Vec<Self>, ParsingError> {
        let value = Self::from_redis_value(alloc, Value::BulkString(bytes))?;
        one(alloc, value)
    }
}

/// Entries in another form than an array.
fn other_entries(alloc: Global, value: Value) -> Result<Entries, ParsingError>
    ensures { Answers (λ e. entries_view e.ids.items) (entries (view value)) result }
{
    let maps = Vec::<IndexMap<String, Fields>>::from_redis_value(alloc, value)?;
    Ok(Entries {
        ids: list_entries(alloc, maps)?,
    })
}

fn each_entry(alloc: Global, items: Vec<Value>) -> Result<Entries, ParsingError>
    ensures { Answers (λ e. entries_view e.ids.items)
        (option_map (flat_map (each without_times)) (traverse ids_with_fields (each view items.items))) result }
{
    let mut ids = Vec::new(alloc);
    for item in items {
        read_entry(alloc, &mut ids, item)?;
    }
    Ok(Entries { ids })
}

/// An id with its fields is an entry at once, without a map of one pair round it.
fn read_entry(alloc: Global, ids: &mut Vec<StreamId>, item: Value) -> Result<(), ParsingError>
    ensures { Answers (λ _. entries_view ids.new.items)
        (option_map (λ es. entries_view ids.old.items ++ each without_times es) (ids_with_fields (view item))) result }
{
    match item {
        Value::Array(parts) => read_parts(alloc, ids, parts),
        item => read_map(alloc, ids, item),
    }
}

fn read_parts(alloc: Global, ids: &mut Vec<StreamId>, parts: Vec<Value>) -> Result<(), ParsingError>
    ensures { Answers (λ _. entries_view ids.new.items)
        (option_map (λ es. entries_view ids.old.items ++ each without_times es)
        (ids_with_fields (array (trees_of (each view parts.items))))) result }
{
    match <[Value; 2]>::try_from(parts) {
        Ok(both) => {
            let [id, fields] = both;
            let entry = StreamId {
                id: String::from_redis_value(alloc, id)?,
                map: Fields::from_redis_value(alloc, fields)?,
                milliseconds_elapsed_from_delivery: None,
                delivered_count: None,
            };
            ids.push(entry)?;
            Ok(())
        }
        Err(parts) => read_map(alloc, ids, Value::Array(parts)),
    }
}

fn read_map(alloc: Global, ids: &mut Vec<StreamId>, item: Value) -> Result<(), ParsingError>
    ensures { Answers (λ _. entries_view ids.new.items)
        (option_map (λ es. entries_view ids.old.items ++ each without_times es) (ids_with_fields (view item))) result }
{
    add_entries(
        ids,
        IndexMap::<String, Fields>::from_redis_value(alloc, item)?,
    )
}

impl EntryForm for Entries {
    ghost lists = { λ e. entries_view e.ids.items };

    fn into_ids(self) -> Vec<StreamId> {
        let Entries { ids } = self;
        ids
    }
}

fn list_entries(
    alloc: Global,
    maps: Vec<IndexMap<String, Fields>>,
) -> Result<Vec<StreamId>, ParsingError>
    ensures { MadeOf (λ v. entries_view v.items) (flat_map entries_under_ids maps.items) result }
{
    let mut ids = Vec::new(alloc);
    for map in maps {
        add_entries(&mut ids, map)?;
    }
    Ok(ids)
}

fn add_entries(
    ids: &mut Vec<StreamId>,
    entries: IndexMap<String, Fields>,
) -> Result<(), ParsingError>
    ensures { MadeOf (λ _. entries_view ids.new.items)
        (entries_view ids.old.items ++ entries_under_ids entries) result }
{
    for (id, map) in entries {
        ids.push(StreamId {
            id,
            map,
            milliseconds_elapsed_from_delivery: None,
            delivered_count: None,
        })?;
    }
    Ok(())
}

type Claimed = (String, Fields, Option<usize>, Option<usize>);

/// Entries in claim form: each an id, fields, and when and how often it was delivered.
#[derive(Drop)]
pub(crate) struct ClaimedEntries {
    pub(crate) ids: Vec<StreamId>,
}

impl FromRedisValue for ClaimedEntries {
    ghost Meaning = { List Entry };

    ghost meaning = { λ e. entries_view e.ids.items };

    ghost same = { λ _ _. false };

    ghost convert = { claimed_entries };

    ghost byte_item = { None };

    fn from_redis_value(alloc: Global, value: Value) -> Result<Self, ParsingError> {
        let claimed = Vec::<Claimed>::from_redis_value(alloc, value)?;
        Ok(ClaimedEntries {
            ids: list_claimed(alloc, claimed)?,
        })
    }

    fn from_redis_value_ref(alloc: Global, value: &Value) -> Result<Self, ParsingError> {
        let claimed = Vec::<Claimed>::from_redis_value_ref(alloc, value)?;
        Ok(ClaimedEntries {
            ids: list_claimed(alloc, claimed)?,
        })
    }

    fn from_byte_vec(alloc: Global, bytes: Vec<u8>) -> Result<Vec<Self>, ParsingError> {
        let value = Self::from_redis_value(alloc, Value::BulkString(bytes))?;
        one(alloc, value)
    }
}

impl EntryForm for ClaimedEntries {
    ghost lists = { λ e. entries_view e.ids.items };

    fn into_ids(self) -> Vec<StreamId> {
        let ClaimedEntries { ids } = self;
        ids
    }
}

fn list_claimed(alloc: Global, claimed: Vec<Claimed>) -> Result<Vec<StreamId>, ParsingError>
    ensures { MadeOf (λ v. entries_view v.items) (each entry_of_parts claimed.items) result }
{
    let mut ids = Vec::with_capacity(alloc, claimed.len())?;
    for entry in claimed {
        let (id, map, milliseconds, count) = entry;
        ids.push(StreamId {
            id,
            map,
            milliseconds_elapsed_from_delivery: milliseconds,
            delivered_count: count,
        })?;
    }
    Ok(ids)
}
