//! Replies to XAUTOCLAIM.
#![tactic(auto, using(crate::proofs::Made::making))]

ghost use Rattle.std.specs.Prelude.{◌≡◌, [], false, string_bytes, option_map, map as each, None};
ghost use Rattle.resp_core.specs.Trees.{array};
ghost use Rattle.resp_core.specs.View.{view, trees_of};
ghost use Rattle.resp_args.specs.Convert.{Answers};
ghost use Rattle.stream_commands.specs.AutoClaim.{AutoClaim, first_no_null as spec_first_no_null, keep_present, id_alone, entries_listed, claimed_from, claimed, autoclaim_of, autoclaim_reply};
ghost use Rattle.stream_commands.specs.RecordViews.{MadeOf, entries_view, claimed_view, autoclaim_view};
ghost use Rattle.stream_commands.specs.Shapes.{a_text, perhaps, list_of};

use crate::records::entries::{Entries, StreamId};
use crate::records::one;
use indexmap::IndexMap;
use resp_args::FromRedisValue;
use resp_core::{ParsingError, Value};
use std::alloc::Global;

/// What an automatic claim took over.
#[derive(Clone, Drop, Debug)]
pub struct StreamAutoClaimReply {
    /// The id from which the next claim goes on.
    pub next_stream_id: String,
    /// The claimed entries, of which a claim of ids alone tells no fields.
    pub claimed: Vec<StreamId>,
    /// Ids that are pending no more, as their entries are gone.
    pub deleted_ids: Vec<String>,
    /// Whether items of the reply hold no entry: an old server leaves null in the place of an
    /// entry that is gone.
    pub invalid_entries: bool,
}

impl StreamAutoClaimReply {
    /// A reply of an empty id that claims nothing.
    pub fn empty(alloc: Global) -> StreamAutoClaimReply
        ensures { autoclaim_view result
            ≡ record { next = []; claimed = record { entries = []; some_invalid = false }; deleted = [] } }
    {
        StreamAutoClaimReply {
            next_stream_id: String::new(alloc),
            claimed: Vec::new(alloc),
            deleted_ids: Vec::new(alloc),
            invalid_entries: false,
        }
    }
}

impl FromRedisValue for StreamAutoClaimReply {
    ghost Meaning = { AutoClaim };

    ghost meaning = { autoclaim_view };

    ghost same = { λ _ _. false };

    ghost convert = { autoclaim_reply };

    ghost byte_item = { None };

    fn from_redis_value(alloc: Global, value: Value) -> Result<Self, ParsingError> {
        match value {
            Value::Array(items) => autoclaim(alloc, items),
            _ => Err(ParsingError::fixed("an array was wanted")),
        }
    }

    fn from_byte_vec(alloc: Global, bytes: Vec<u8>) -> Result<Vec<Self>, ParsingError> {
        let value = Self::from_redis_value(alloc, Value::BulkString(bytes))?;
        one(alloc, value)
    }
}

/// Two items, or three where the server tells deleted ids.
fn autoclaim(alloc: Global, items: Vec<Value>) -> Result<StreamAutoClaimReply, ParsingError>
    ensures { Answers autoclaim_view (autoclaim_of (each view items.items)) result }
{
    match <[Value; 2]>::try_from(items) {
        Ok(both) => {
            let [next, list] = both;
            let next_stream_id = String::from_redis_value(alloc, next)?;
            let (claimed, invalid_entries) = read_claimed(alloc, list)?;
            Ok(StreamAutoClaimReply {
                next_stream_id,
                claimed,
                deleted_ids: Vec::new(alloc),
                invalid_entries,
            })
        }
        Err(items) => match <[Value; 3]>::try_from(items) {
            Ok(all) => {
                let [next, list, deleted] = all;
                let next_stream_id = String::from_redis_value(alloc, next)?;
                let (claimed, invalid_entries) = read_claimed(alloc, list)?;
                let deleted_ids = Vec::<String>::from_redis_value(alloc, deleted)?;
                Ok(StreamAutoClaimReply {
                    next_stream_id,
                    claimed,
                    deleted_ids,
                    invalid_entries,
                })
            }
            Err(_items) => Err(ParsingError::fixed("an array of two or three was wanted")),
        },
    }
}

/// The entries, and whether some items hold none.
fn read_claimed(alloc: Global, list: Value) -> Result<(Vec<StreamId>, bool), ParsingError>
    ensures { Answers (λ p. claimed_view p.0.items p.1) (claimed (view list)) result }
{
    match list {
        Value::Array(items) => read_items(alloc, items),
        _ => Err(ParsingError::fixed("an array of entries or ids was wanted")),
    }
}

fn read_items(alloc: Global, items: Vec<Value>) -> Result<(Vec<StreamId>, bool), ParsingError>
    ensures { Answers (λ p. claimed_view p.0.items p.1)
        (option_map (claimed_from (each view items.items)) (entries_listed (each view items.items))) result }
{
    let count = items.len();
    let ids = read_ids(alloc, items)?;
    let invalid = ids.len() < count;
    Ok((ids, invalid))
}

fn read_ids(alloc: Global, items: Vec<Value>) -> Result<Vec<StreamId>, ParsingError>
    ensures { Answers (λ v. entries_view v.items) (entries_listed (each view items.items)) result }
{
    match first_no_null(items.as_slice()) {
        None => Ok(Vec::new(alloc)),
        Some(Value::BulkString(_)) => read_id_list(alloc, items),
        Some(Value::Array(_)) => {
            let Entries { ids } = Entries::from_redis_value(alloc, Value::Array(items))?;
            Ok(ids)
        }
        Some(_) => Err(ParsingError::fixed("entries or ids were wanted")),
    }
}

/// The first item that is no null.
fn first_no_null(items: &[Value]) -> Option<&Value>
    ensures { option_map (λ v. view v.now) result ≡ spec_first_no_null (each view items.now) }
{
    for item in items {
        match item {
            Value::Nil => {}
            other => return Some(other),
        }
    }
    None
}

fn read_id_list(alloc: Global, items: Vec<Value>) -> Result<Vec<StreamId>, ParsingError>
    ensures { Answers (λ v. entries_view v.items)
        (option_map (λ ids. each id_alone (keep_present ids))
        (list_of (perhaps a_text) (array (trees_of (each view items.items))))) result }
{
    let optional_ids = Vec::<Option<String>>::from_redis_value(alloc, Value::Array(items))?;
    ids_without_fields(alloc, optional_ids)
}

fn ids_without_fields(
    alloc: Global,
    optional_ids: Vec<Option<String>>,
) -> Result<Vec<StreamId>, ParsingError>
    ensures { MadeOf (λ v. entries_view v.items)
        (each id_alone (keep_present (each (λ o. option_map string_bytes o) optional_ids.items))) result }
{
    let mut ids = Vec::new(alloc);
    for item in optional_ids {
        match item {
            Some(id) => ids.push(StreamId {
                id,
                map: IndexMap::new(alloc),
                milliseconds_elapsed_from_delivery: None,
                delivered_count: None,
            })?,
            None => {}
        }
    }
    Ok(ids)
}
