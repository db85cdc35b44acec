//! Replies as maps.
ghost use Rattle.std.specs.Prelude.{◌≡◌, false, List, option_and_then, map as each, MatchResult, [], None};
ghost use Rattle.indexmap.specs.IndexMap.{insert_all};
ghost use Rattle.resp_core.specs.Errors.{no_memory};
ghost use Rattle.resp_core.specs.MapIters.{owned_left, pairs_left};
ghost use Rattle.resp_core.specs.Parts.{pairs_in};
ghost use Rattle.resp_core.specs.View.{view, pair_view};
ghost use Rattle.resp_args.specs.Convert.{plain, fields, fields_of, part_by_part, traverse, Answers};

use crate::from::names::FieldName;
use crate::from::plain::{into_plain, plain};
use crate::from::{FromRedisValue, one};
use indexmap::IndexMap;
use resp_core::{MapIter, OwnedMapIter, ParsingError, Value};
use std::alloc::Global;

/// For how many pairs a map makes room at its first.
const FIRST_ROOM: usize = 9;

/// The pairs of a map or of an array of even length, in order of their first names; a repeated
/// name has its last value.
impl<K: FieldName, V: FromRedisValue> FromRedisValue for IndexMap<K, V> {
    ghost Meaning = { List (K.Meaning × V.Meaning) };

    ghost meaning = { λ m. each (λ e. (K.meaning e.0, V.meaning e.1)) m.entries };

    ghost same = { λ _ _. false };

    ghost convert = { λ t. fields K.convert V.convert K.same (plain t) };

    ghost byte_item = { None };

    fn from_redis_value(alloc: Global, value: Value) -> Result<IndexMap<K, V>, ParsingError> {
        match into_plain(value) {
            Value::Nil => Ok(IndexMap::new(alloc)),
            value => convert_pairs(alloc, value),
        }
    }

    fn from_redis_value_ref(alloc: Global, value: &Value) -> Result<IndexMap<K, V>, ParsingError> {
        match plain(value) {
            Value::Nil => Ok(IndexMap::new(alloc)),
            value => convert_pairs_ref(alloc, value),
        }
    }

    fn from_byte_vec(alloc: Global, bytes: Vec<u8>) -> Result<Vec<IndexMap<K, V>>, ParsingError> {
        let value = IndexMap::<K, V>::from_redis_value(alloc, Value::BulkString(bytes))?;
        one(alloc, value)
    }
}

fn convert_pairs<K: FieldName, V: FromRedisValue>(
    alloc: Global,
    value: Value,
) -> Result<IndexMap<K, V>, ParsingError>
    ensures { Answers (λ m. each (λ e. (K.meaning e.0, V.meaning e.1)) m.entries)
        (option_and_then (fields_of K.convert V.convert K.same) (pairs_in (view value))) result }
{
    let count = count_pairs(&value);
    match value.into_map_iter() {
        Ok(pairs) => collect(alloc, each_pair(alloc, count, pairs)?),
        Err(_) => Err(ParsingError::fixed("a map, or an even number of items, was wanted")),
    }
}

fn convert_pairs_ref<K: FieldName, V: FromRedisValue>(
    alloc: Global,
    value: &Value,
) -> Result<IndexMap<K, V>, ParsingError>
    ensures { Answers (λ m. each (λ e. (K.meaning e.0, V.meaning e.1)) m.entries)
        (option_and_then (fields_of K.convert V.convert K.same) (pairs_in (view value.now))) result }
{
    match value.as_map_iter() {
        Some(pairs) => collect(alloc, each_pair_ref(alloc, count_pairs(value), pairs)?),
        None => Err(ParsingError::fixed("a map, or an even number of items, was wanted")),
    }
}

/// How many pairs a value has, for the room that they take.
fn count_pairs(value: &Value) -> usize {
    match value {
        Value::Map(pairs) => pairs.len(),
        Value::Array(items) => items.len() / 2,
        _ => 0,
    }
}

/// A repeated name keeps its first place and its last value.
fn collect<K: FieldName, V: FromRedisValue>(
    alloc: Global,
    pairs: Vec<(K, V)>,
) -> Result<IndexMap<K, V>, ParsingError>
    ensures { MatchResult result (λ m. m.entries ≡ insert_all K.eq [] pairs.items) (λ e. e ≡ no_memory) }
{
    let count = pairs.len();
    let mut map = IndexMap::new(alloc);
    if count > FIRST_ROOM {
        // Names may repeat, so what is refused here may still have room.
        let _reserved = map.reserve(count);
    }
    for pair in pairs {
        let (key, value) = pair;
        drop(map.insert(key, value)?);
    }
    // Where most names repeat, the room of all pairs is given back.
    if map.len() < count / 2 {
        map.shrink_to_fit();
    }
    Ok(map)
}

/// All pairs are read before the first is put into a map, where equal hashes cost time.
fn each_pair<K: FromRedisValue, V: FromRedisValue>(
    alloc: Global,
    count: usize,
    pairs: OwnedMapIter,
) -> Result<Vec<(K, V)>, ParsingError>
    ensures { Answers (λ v. each (λ e. (K.meaning e.0, V.meaning e.1)) v.items)
        (traverse (part_by_part K.convert V.convert) (owned_left pairs)) result }
{
    let mut list = Vec::with_capacity(alloc, count)?;
    for pair in pairs {
        list.push(convert_both::<K, V>(alloc, pair)?)?;
    }
    Ok(list)
}

fn convert_both<K: FromRedisValue, V: FromRedisValue>(
    alloc: Global,
    pair: (Value, Value),
) -> Result<(K, V), ParsingError>
    ensures { Answers (λ e. (K.meaning e.0, V.meaning e.1))
        (part_by_part K.convert V.convert (pair_view pair)) result }
{
    let (key, value) = pair;
    Ok((
        K::from_redis_value(alloc, key)?,
        V::from_redis_value(alloc, value)?,
    ))
}

fn each_pair_ref<K: FromRedisValue, V: FromRedisValue>(
    alloc: Global,
    count: usize,
    pairs: MapIter<'_>,
) -> Result<Vec<(K, V)>, ParsingError>
    ensures { Answers (λ v. each (λ e. (K.meaning e.0, V.meaning e.1)) v.items)
        (traverse (part_by_part K.convert V.convert) (pairs_left pairs.entry)) result }
{
    let mut list = Vec::with_capacity(alloc, count)?;
    for pair in pairs {
        list.push(convert_both_ref::<K, V>(alloc, pair)?)?;
    }
    Ok(list)
}

fn convert_both_ref<K: FromRedisValue, V: FromRedisValue>(
    alloc: Global,
    pair: (&Value, &Value),
) -> Result<(K, V), ParsingError>
    ensures { Answers (λ e. (K.meaning e.0, V.meaning e.1))
        (part_by_part K.convert V.convert (view pair.entry.0.now, view pair.entry.1.now)) result }
{
    Ok((
        K::from_redis_value_ref(alloc, pair.0)?,
        V::from_redis_value_ref(alloc, pair.1)?,
    ))
}
