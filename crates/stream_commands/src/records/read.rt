//! Replies to XREAD and XREADGROUP.
ghost use Rattle.std.specs.Prelude.{◌≡◌, [], ◌++◌, false, List, map as each, None};
ghost use Rattle.std.specs.List.{flat_map};
ghost use Rattle.resp_core.specs.View.{view};
ghost use Rattle.resp_args.specs.Convert.{Answers};
ghost use Rattle.stream_commands.specs.Entries.{entries, claimed_entries};
ghost use Rattle.stream_commands.specs.ReadReply.{Row, row, rows, read_reply};
ghost use Rattle.stream_commands.specs.RecordViews.{MadeOf, row_view, rows_under_keys, rows_view};

use crate::records::entries::{ClaimedEntries, Entries, EntryForm, StreamId};
use crate::records::forms::{has_no_claim_form, has_no_standard_form};
use crate::records::one;
use indexmap::IndexMap;
use resp_args::FromRedisValue;
use resp_core::{ParsingError, Value};
use std::alloc::Global;

/// A stream's key, and entries of the stream.
#[derive(Clone, Drop, Debug)]
pub struct StreamKey {
    /// The key.
    pub key: String,
    /// The entries in order.
    pub ids: Vec<StreamId>,
}

/// The entries that were read of each stream.
#[derive(Clone, Drop, Debug)]
pub struct StreamReadReply {
    /// The streams in order of arrival.
    pub keys: Vec<StreamKey>,
}

impl StreamKey {
    /// An empty key without entries.
    pub fn empty(alloc: Global) -> StreamKey
        ensures { row_view result ≡ row ([], []) }
    {
        StreamKey {
            key: String::new(alloc),
            ids: Vec::new(alloc),
        }
    }
}

impl StreamReadReply {
    /// A reply of no stream.
    pub fn empty(alloc: Global) -> StreamReadReply
        ensures { rows_view result.keys.items ≡ [] }
    {
        StreamReadReply {
            keys: Vec::new(alloc),
        }
    }
}

/// Rows in standard form, and only where that is refused rows in claim form.
impl FromRedisValue for StreamReadReply {
    ghost Meaning = { List Row };

    ghost meaning = { λ r. rows_view r.keys.items };

    ghost same = { λ _ _. false };

    ghost convert = { read_reply };

    ghost byte_item = { None };

    fn from_redis_value(alloc: Global, value: Value) -> Result<Self, ParsingError> {
        // Where the first entry leaves one form alone, the reply is read in it at once, and no text is copied.
        if has_no_claim_form(&value) {
            return Ok(StreamReadReply {
                keys: only_standard_rows(alloc, value)?,
            });
        }
        if has_no_standard_form(&value) {
            return Ok(StreamReadReply {
                keys: own_claimed_rows(alloc, value)?,
            });
        }
        StreamReadReply::from_redis_value_ref(alloc, &value)
    }

    fn from_redis_value_ref(alloc: Global, value: &Value) -> Result<Self, ParsingError> {
        match standard_rows(alloc, value) {
            Ok(keys) => Ok(StreamReadReply { keys }),
            Err(e) => {
                if e.is_memory() {
                    return Err(e);
                }
                Ok(StreamReadReply {
                    keys: claimed_rows(alloc, value)?,
                })
            }
        }
    }

    fn from_byte_vec(alloc: Global, bytes: Vec<u8>) -> Result<Vec<Self>, ParsingError> {
        let value = Self::from_redis_value(alloc, Value::BulkString(bytes))?;
        one(alloc, value)
    }
}

fn standard_rows(alloc: Global, value: &Value) -> Result<Vec<StreamKey>, ParsingError>
    ensures { Answers (λ v. rows_view v.items) (rows entries (view value.now)) result }
{
    let maps = Vec::<IndexMap<String, Entries>>::from_redis_value_ref(alloc, value)?;
    all_rows(alloc, maps)
}

fn claimed_rows(alloc: Global, value: &Value) -> Result<Vec<StreamKey>, ParsingError>
    ensures { Answers (λ v. rows_view v.items) (rows claimed_entries (view value.now)) result }
{
    let maps = Vec::<IndexMap<String, ClaimedEntries>>::from_redis_value_ref(alloc, value)?;
    all_rows(alloc, maps)
}

/// The rows of a reply whose first entry is an array of another length than four, which the claim form refuses. Where
/// the standard form is refused too, the cause that is told is the claim form's, as for a lent reply: it is tried last.
fn only_standard_rows(alloc: Global, value: Value) -> Result<Vec<StreamKey>, ParsingError>
    ensures { Answers (λ v. rows_view v.items) (rows entries (view value)) result }
{
    match own_standard_rows(alloc, value) {
        Ok(keys) => Ok(keys),
        Err(e) => {
            if e.is_memory() {
                return Err(e);
            }
            Err(ParsingError::fixed("an array of four was wanted"))
        }
    }
}

fn own_standard_rows(alloc: Global, value: Value) -> Result<Vec<StreamKey>, ParsingError>
    ensures { Answers (λ v. rows_view v.items) (rows entries (view value)) result }
{
    let maps = Vec::<IndexMap<String, Entries>>::from_redis_value(alloc, value)?;
    all_rows(alloc, maps)
}

fn own_claimed_rows(alloc: Global, value: Value) -> Result<Vec<StreamKey>, ParsingError>
    ensures { Answers (λ v. rows_view v.items) (rows claimed_entries (view value)) result }
{
    let maps = Vec::<IndexMap<String, ClaimedEntries>>::from_redis_value(alloc, value)?;
    all_rows(alloc, maps)
}

/// The rows of all maps in order.
fn all_rows<F: EntryForm>(
    alloc: Global,
    maps: Vec<IndexMap<String, F>>,
) -> Result<Vec<StreamKey>, ParsingError>
    ensures { MadeOf (λ v. rows_view v.items) (flat_map (rows_under_keys F.lists) maps.items) result }
{
    let mut keys = Vec::new(alloc);
    for map in maps {
        add_rows(&mut keys, map)?;
    }
    Ok(keys)
}

fn add_rows<F: EntryForm>(
    keys: &mut Vec<StreamKey>,
    rows: IndexMap<String, F>,
) -> Result<(), ParsingError>
    ensures { MadeOf (λ _. rows_view keys.new.items)
        (rows_view keys.old.items ++ rows_under_keys F.lists rows) result }
{
    for (key, entries) in rows {
        let ids = entries.into_ids();
        keys.push(StreamKey { key, ids })?;
    }
    Ok(())
}
