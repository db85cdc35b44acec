//! Replies to XREAD, XREADGROUP, XRANGE and XCLAIM.
use crate::tests::former::Former;
use crate::tests::former::entries::{ClaimedEntries, Entries, EntryForm};
use indexmap::IndexMap;
use resp_core::{ParsingError, Value};
use std::alloc::Global;
use stream_commands::{StreamClaimReply, StreamKey, StreamRangeReply, StreamReadReply};

/// Rows in standard form, and only where that is refused rows in claim form.
impl Former for StreamReadReply {
    fn owned(alloc: Global, value: Value) -> Result<StreamReadReply, ParsingError> {
        StreamReadReply::lent(alloc, &value)
    }

    fn lent(alloc: Global, value: &Value) -> Result<StreamReadReply, ParsingError> {
        match standard_rows(alloc, value) {
            Ok(keys) => Ok(StreamReadReply { keys }),
            Err(e) => {
                if e.is_memory() {
                    return Err(e);
                }
                Ok(StreamReadReply {
                    keys: claimed_rows(alloc, value)?,
                })
            }
        }
    }
}

fn standard_rows(alloc: Global, value: &Value) -> Result<Vec<StreamKey>, ParsingError> {
    let maps = Vec::<IndexMap<String, Entries>>::lent(alloc, value)?;
    all_rows(alloc, maps)
}

fn claimed_rows(alloc: Global, value: &Value) -> Result<Vec<StreamKey>, ParsingError> {
    let maps = Vec::<IndexMap<String, ClaimedEntries>>::lent(alloc, value)?;
    all_rows(alloc, maps)
}

/// The rows of all maps in order.
fn all_rows<F: EntryForm>(
    alloc: Global,
    maps: Vec<IndexMap<String, F>>,
) -> Result<Vec<StreamKey>, ParsingError> {
    let mut keys = Vec::new(alloc);
    for map in maps {
        add_rows(&mut keys, map)?;
    }
    Ok(keys)
}

fn add_rows<F: EntryForm>(
    keys: &mut Vec<StreamKey>,
    rows: IndexMap<String, F>,
) -> Result<(), ParsingError> {
    for (key, entries) in rows {
        let ids = entries.into_ids();
        keys.push(StreamKey { key, ids })?;
    }
    Ok(())
}

impl Former for StreamRangeReply {
    fn owned(alloc: Global, value: Value) -> Result<StreamRangeReply, ParsingError> {
        let Entries { ids } = Entries::owned(alloc, value)?;
        Ok(StreamRangeReply { ids })
    }

    fn lent(alloc: Global, value: &Value) -> Result<StreamRangeReply, ParsingError> {
        let Entries { ids } = Entries::lent(alloc, value)?;
        Ok(StreamRangeReply { ids })
    }
}

impl Former for StreamClaimReply {
    fn owned(alloc: Global, value: Value) -> Result<StreamClaimReply, ParsingError> {
        let Entries { ids } = Entries::owned(alloc, value)?;
        Ok(StreamClaimReply { ids })
    }

    fn lent(alloc: Global, value: &Value) -> Result<StreamClaimReply, ParsingError> {
        let Entries { ids } = Entries::lent(alloc, value)?;
        Ok(StreamClaimReply { ids })
    }
}
