//! Entries of streams.
use crate::tests::former::Former;
use indexmap::IndexMap;
use resp_core::{ParsingError, Value};
use std::alloc::Global;
use stream_commands::StreamId;

type Fields = IndexMap<String, Value>;

/// A form in which a reply lists entries.
pub(super) trait EntryForm: Drop {
    fn into_ids(self) -> Vec<StreamId>;
}

/// Entries in standard form: each an id with fields.
#[derive(Drop)]
pub(super) struct Entries {
    pub(super) ids: Vec<StreamId>,
}

impl Former for Entries {
    fn owned(alloc: Global, value: Value) -> Result<Entries, ParsingError> {
        let maps = Vec::<IndexMap<String, Fields>>::owned(alloc, value)?;
        Ok(Entries {
            ids: list_entries(alloc, maps)?,
        })
    }

    fn lent(alloc: Global, value: &Value) -> Result<Entries, ParsingError> {
        let maps = Vec::<IndexMap<String, Fields>>::lent(alloc, value)?;
        Ok(Entries {
            ids: list_entries(alloc, maps)?,
        })
    }
}

impl EntryForm for Entries {
    fn into_ids(self) -> Vec<StreamId> {
        let Entries { ids } = self;
        ids
    }
}

fn list_entries(
    alloc: Global,
    maps: Vec<IndexMap<String, Fields>>,
) -> Result<Vec<StreamId>, ParsingError> {
    let mut ids = Vec::new(alloc);
    for map in maps {
        add_entries(&mut ids, map)?;
    }
    Ok(ids)
}

fn add_entries(
    ids: &mut Vec<StreamId>,
    entries: IndexMap<String, Fields>,
) -> Result<(), ParsingError> {
    for (id, map) in entries {
        ids.push(StreamId {
            id,
            map,
            milliseconds_elapsed_from_delivery: None,
            delivered_count: None,
        })?;
    }
    Ok(())
}

type Claimed = (String, Fields, Option<usize>, Option<usize>);

/// Entries in claim form: each an id, fields, and when and how often it was delivered.
#[derive(Drop)]
pub(super) struct ClaimedEntries {
    ids: Vec<StreamId>,
}

impl Former for ClaimedEntries {
    fn owned(alloc: Global, value: Value) -> Result<ClaimedEntries, ParsingError> {
        let claimed = Vec::<Claimed>::owned(alloc, value)?;
        Ok(ClaimedEntries {
            ids: list_claimed(alloc, claimed)?,
        })
    }

    fn lent(alloc: Global, value: &Value) -> Result<ClaimedEntries, ParsingError> {
        let claimed = Vec::<Claimed>::lent(alloc, value)?;
        Ok(ClaimedEntries {
            ids: list_claimed(alloc, claimed)?,
        })
    }
}

impl EntryForm for ClaimedEntries {
    fn into_ids(self) -> Vec<StreamId> {
        let ClaimedEntries { ids } = self;
        ids
    }
}

fn list_claimed(alloc: Global, claimed: Vec<Claimed>) -> Result<Vec<StreamId>, ParsingError> {
    let mut ids = Vec::with_capacity(alloc, claimed.len())?;
    for entry in claimed {
        let (id, map, milliseconds, count) = entry;
        ids.push(StreamId {
            id,
            map,
            milliseconds_elapsed_from_delivery: milliseconds,
            delivered_count: count,
        })?;
    }
    Ok(ids)
}
