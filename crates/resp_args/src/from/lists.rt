//! Replies as options and lists.
ghost use Rattle.std.specs.Prelude.{◌≡◌, false, Option, List, option_map, map as each, None};
ghost use Rattle.std.specs.Cmp.Lexicographic.{pointwise};
ghost use Rattle.resp_core.specs.View.{view, pair_view};
ghost use Rattle.resp_args.specs.Convert.{plain, optional, sequence, traverse, one_pair, Answers};

use crate::from::plain::{into_plain, plain};
use crate::from::{FromRedisValue, one};
use resp_core::{ParsingError, Value};
use std::alloc::Global;

/// `None` for no value.
#[tactic(auto, using(crate::proofs::Answering::answering))]
impl<T: FromRedisValue> FromRedisValue for Option<T> {
    ghost Meaning = { Option T.Meaning };

    ghost meaning = { λ o. option_map T.meaning o };

    ghost same = { λ _ _. false };

    ghost convert = { λ t. optional T.convert (plain t) };

    ghost byte_item = { None };

    fn from_redis_value(alloc: Global, value: Value) -> Result<Option<T>, ParsingError> {
        match into_plain(value) {
            Value::Nil => Ok(None),
            value => Ok(Some(T::from_redis_value(alloc, value)?)),
        }
    }

    fn from_redis_value_ref(alloc: Global, value: &Value) -> Result<Option<T>, ParsingError> {
        match plain(value) {
            Value::Nil => Ok(None),
            value => Ok(Some(T::from_redis_value_ref(alloc, value)?)),
        }
    }

    fn from_byte_vec(alloc: Global, bytes: Vec<u8>) -> Result<Vec<Option<T>>, ParsingError> {
        let value = Option::<T>::from_redis_value(alloc, Value::BulkString(bytes))?;
        one(alloc, value)
    }
}

/// The items of an array or a set, no items for no value, the pairs of a map each as a map of its own, or a
/// bulk alone.
#[tactic(auto, using(crate::proofs::Answering::answering))]
impl<T: FromRedisValue> FromRedisValue for Vec<T> {
    ghost Meaning = { List T.Meaning };

    ghost meaning = { λ v. each T.meaning v.items };

    ghost same = { pointwise T.same };

    ghost convert = { λ t. sequence T.convert T.byte_item (plain t) };

    ghost byte_item = { None };

    fn from_redis_value(alloc: Global, value: Value) -> Result<Vec<T>, ParsingError> {
        match into_plain(value) {
            Value::Array(items) => each_item(alloc, items),
            Value::Set(items) => each_item(alloc, items),
            Value::Nil => Ok(Vec::new(alloc)),
            Value::Map(pairs) => each_pair(alloc, pairs),
            Value::BulkString(bytes) => T::from_byte_vec(alloc, bytes),
            _ => Err(ParsingError::fixed("a list was wanted")),
        }
    }

    fn from_redis_value_ref(alloc: Global, value: &Value) -> Result<Vec<T>, ParsingError> {
        match plain(value) {
            Value::Array(items) => each_item_ref(alloc, items.as_slice()),
            Value::Set(items) => each_item_ref(alloc, items.as_slice()),
            Value::BulkString(bytes) => T::from_byte_vec(alloc, Vec::from_slice(alloc, bytes)?),
            _ => Vec::from_redis_value(alloc, value.clone()?),
        }
    }

    fn from_byte_vec(alloc: Global, bytes: Vec<u8>) -> Result<Vec<Vec<T>>, ParsingError> {
        let value = Vec::<T>::from_redis_value(alloc, Value::BulkString(bytes))?;
        one(alloc, value)
    }
}

fn each_item<T: FromRedisValue>(alloc: Global, items: Vec<Value>) -> Result<Vec<T>, ParsingError>
    ensures { Answers (λ v. each T.meaning v.items) (traverse T.convert (each view items.items)) result }
{
    let mut list = Vec::with_capacity(alloc, items.len())?;
    for item in items {
        list.push(T::from_redis_value(alloc, item)?)?;
    }
    Ok(list)
}

fn each_item_ref<T: FromRedisValue>(alloc: Global, items: &[Value]) -> Result<Vec<T>, ParsingError>
    ensures { Answers (λ v. each T.meaning v.items) (traverse T.convert (each view items.now)) result }
{
    let mut list = Vec::with_capacity(alloc, items.len())?;
    for item in items {
        list.push(T::from_redis_value_ref(alloc, item)?)?;
    }
    Ok(list)
}

/// A pair as a map of its own.
fn convert_pair<T: FromRedisValue>(alloc: Global, pair: (Value, Value)) -> Result<T, ParsingError>
    ensures { Answers T.meaning (T.convert (one_pair (pair_view pair))) result }
{
    let map = Value::Map(one(alloc, pair)?);
    T::from_redis_value(alloc, map)
}

fn each_pair<T: FromRedisValue>(
    alloc: Global,
    pairs: Vec<(Value, Value)>,
) -> Result<Vec<T>, ParsingError>
    ensures { Answers (λ v. each T.meaning v.items)
        (traverse (λ p. T.convert (one_pair p)) (each pair_view pairs.items)) result }
{
    let mut list = Vec::with_capacity(alloc, pairs.len())?;
    for pair in pairs {
        list.push(convert_pair::<T>(alloc, pair)?)?;
    }
    Ok(list)
}
