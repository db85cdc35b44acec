//! Replies as maps: the pairs were read into a list, and then put into the map.
use crate::tests::former::{Former, into_plain, plain};
use indexmap::IndexMap;
use resp_core::{MapIter, OwnedMapIter, ParsingError, Value};
use std::alloc::Global;

impl<V: Former> Former for IndexMap<String, V> {
    fn owned(alloc: Global, value: Value) -> Result<IndexMap<String, V>, ParsingError> {
        match into_plain(value) {
            Value::Nil => Ok(IndexMap::new(alloc)),
            value => convert_pairs(alloc, value),
        }
    }

    fn lent(alloc: Global, value: &Value) -> Result<IndexMap<String, V>, ParsingError> {
        match plain(value) {
            Value::Nil => Ok(IndexMap::new(alloc)),
            value => convert_pairs_ref(alloc, value),
        }
    }
}

fn convert_pairs<V: Former>(
    alloc: Global,
    value: Value,
) -> Result<IndexMap<String, V>, ParsingError> {
    match value.into_map_iter() {
        Ok(pairs) => collect(alloc, each_pair(alloc, pairs)?),
        Err(_) => Err(ParsingError::fixed("a map, or an even number of items, was wanted")),
    }
}

fn convert_pairs_ref<V: Former>(
    alloc: Global,
    value: &Value,
) -> Result<IndexMap<String, V>, ParsingError> {
    match value.as_map_iter() {
        Some(pairs) => collect(alloc, each_pair_ref(alloc, pairs)?),
        None => Err(ParsingError::fixed("a map, or an even number of items, was wanted")),
    }
}

/// A repeated name keeps its first place and its last value.
fn collect<V: Former>(
    alloc: Global,
    pairs: Vec<(String, V)>,
) -> Result<IndexMap<String, V>, ParsingError> {
    let mut map = IndexMap::new(alloc);
    for pair in pairs {
        let (key, value) = pair;
        drop(map.insert(key, value)?);
    }
    Ok(map)
}

fn each_pair<V: Former>(
    alloc: Global,
    pairs: OwnedMapIter,
) -> Result<Vec<(String, V)>, ParsingError> {
    let mut list = Vec::new(alloc);
    for pair in pairs {
        list.push(convert_both::<V>(alloc, pair)?)?;
    }
    Ok(list)
}

fn convert_both<V: Former>(
    alloc: Global,
    pair: (Value, Value),
) -> Result<(String, V), ParsingError> {
    let (key, value) = pair;
    Ok((String::owned(alloc, key)?, V::owned(alloc, value)?))
}

fn each_pair_ref<V: Former>(
    alloc: Global,
    pairs: MapIter<'_>,
) -> Result<Vec<(String, V)>, ParsingError> {
    let mut list = Vec::new(alloc);
    for pair in pairs {
        list.push(convert_both_ref::<V>(alloc, pair)?)?;
    }
    Ok(list)
}

fn convert_both_ref<V: Former>(
    alloc: Global,
    pair: (&Value, &Value),
) -> Result<(String, V), ParsingError> {
    Ok((String::lent(alloc, pair.0)?, V::lent(alloc, pair.1)?))
}
