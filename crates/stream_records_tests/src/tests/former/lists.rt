//! Replies as options, lists and tuples.
use crate::tests::former::{Former, into_plain, one, plain};
use resp_core::{ParsingError, Value};
use std::alloc::Global;

impl<T: Former> Former for Option<T> {
    fn owned(alloc: Global, value: Value) -> Result<Option<T>, ParsingError> {
        match into_plain(value) {
            Value::Nil => Ok(None),
            value => Ok(Some(T::owned(alloc, value)?)),
        }
    }

    fn lent(alloc: Global, value: &Value) -> Result<Option<T>, ParsingError> {
        match plain(value) {
            Value::Nil => Ok(None),
            value => Ok(Some(T::lent(alloc, value)?)),
        }
    }
}

impl<T: Former> Former for Vec<T> {
    fn owned(alloc: Global, value: Value) -> Result<Vec<T>, ParsingError> {
        match into_plain(value) {
            Value::Array(items) => each_item(alloc, items),
            Value::Set(items) => each_item(alloc, items),
            Value::Nil => Ok(Vec::new(alloc)),
            Value::Map(pairs) => each_pair(alloc, pairs),
            Value::BulkString(bytes) => T::of_bytes(alloc, bytes),
            _ => Err(ParsingError::fixed("a list was wanted")),
        }
    }

    fn lent(alloc: Global, value: &Value) -> Result<Vec<T>, ParsingError> {
        match plain(value) {
            Value::Array(items) => each_item_ref(alloc, items.as_slice()),
            Value::Set(items) => each_item_ref(alloc, items.as_slice()),
            Value::BulkString(bytes) => T::of_bytes(alloc, Vec::from_slice(alloc, bytes)?),
            _ => Vec::owned(alloc, value.clone()?),
        }
    }
}

fn each_item<T: Former>(alloc: Global, items: Vec<Value>) -> Result<Vec<T>, ParsingError> {
    let mut list = Vec::with_capacity(alloc, items.len())?;
    for item in items {
        list.push(T::owned(alloc, item)?)?;
    }
    Ok(list)
}

fn each_item_ref<T: Former>(alloc: Global, items: &[Value]) -> Result<Vec<T>, ParsingError> {
    let mut list = Vec::with_capacity(alloc, items.len())?;
    for item in items {
        list.push(T::lent(alloc, item)?)?;
    }
    Ok(list)
}

/// A pair as a map of its own.
fn convert_pair<T: Former>(alloc: Global, pair: (Value, Value)) -> Result<T, ParsingError> {
    let map = Value::Map(one(alloc, pair)?);
    T::owned(alloc, map)
}

fn each_pair<T: Former>(alloc: Global, pairs: Vec<(Value, Value)>) -> Result<Vec<T>, ParsingError> {
    let mut list = Vec::with_capacity(alloc, pairs.len())?;
    for pair in pairs {
        list.push(convert_pair::<T>(alloc, pair)?)?;
    }
    Ok(list)
}

impl<A: Former, B: Former, C: Former, D: Former> Former for (A, B, C, D) {
    fn owned(alloc: Global, value: Value) -> Result<(A, B, C, D), ParsingError> {
        match value {
            Value::Array(items) => quadruple(alloc, items),
            _ => Err(ParsingError::fixed("four values were wanted")),
        }
    }

    fn of_bytes(_alloc: Global, _bytes: Vec<u8>) -> Result<Vec<(A, B, C, D)>, ParsingError> {
        Err(ParsingError::fixed("a list of quadruples was wanted"))
    }
}

fn quadruple<A: Former, B: Former, C: Former, D: Former>(
    alloc: Global,
    items: Vec<Value>,
) -> Result<(A, B, C, D), ParsingError> {
    match <[Value; 4]>::try_from(items) {
        Ok(all) => {
            let [a, b, c, d] = all;
            Ok((
                A::owned(alloc, a)?,
                B::owned(alloc, b)?,
                C::owned(alloc, c)?,
                D::owned(alloc, d)?,
            ))
        }
        Err(_items) => Err(ParsingError::fixed("an array of four was wanted")),
    }
}
