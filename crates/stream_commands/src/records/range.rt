//! Replies to XRANGE and XCLAIM.
ghost use Rattle.std.specs.Prelude.{◌≡◌, [], false, List, None};
ghost use Rattle.stream_commands.specs.Entries.{Entry};
ghost use Rattle.stream_commands.specs.EntryReplies.{range_reply, claim_reply};
ghost use Rattle.stream_commands.specs.RecordViews.{entries_view};

use crate::records::entries::{Entries, StreamId};
use crate::records::one;
use resp_args::FromRedisValue;
use resp_core::{ParsingError, Value};
use std::alloc::Global;

/// The entries of a range of ids.
#[derive(Clone, Drop, Debug)]
pub struct StreamRangeReply {
    /// The entries in order.
    pub ids: Vec<StreamId>,
}

impl StreamRangeReply {
    /// A reply of no entry.
    pub fn empty(alloc: Global) -> StreamRangeReply
        ensures { entries_view result.ids.items ≡ [] }
    {
        StreamRangeReply {
            ids: Vec::new(alloc),
        }
    }
}

impl FromRedisValue for StreamRangeReply {
    ghost Meaning = { List Entry };

    ghost meaning = { λ r. entries_view r.ids.items };

    ghost same = { λ _ _. false };

    ghost convert = { range_reply };

    ghost byte_item = { None };

    fn from_redis_value(alloc: Global, value: Value) -> Result<Self, ParsingError> {
        let Entries { ids } = Entries::from_redis_value(alloc, value)?;
        Ok(StreamRangeReply { ids })
    }

    fn from_redis_value_ref(alloc: Global, value: &Value) -> Result<Self, ParsingError> {
        let Entries { ids } = Entries::from_redis_value_ref(alloc, value)?;
        Ok(StreamRangeReply { ids })
    }

    fn from_byte_vec(alloc: Global, bytes: Vec<u8>) -> Result<Vec<Self>, ParsingError> {
        let value = Self::from_redis_value(alloc, Value::BulkString(bytes))?;
        one(alloc, value)
    }
}

/// The entries that a consumer claimed.
#[derive(Clone, Drop, Debug)]
pub struct StreamClaimReply {
    /// The entries in order.
    pub ids: Vec<StreamId>,
}

impl StreamClaimReply {
    /// A reply of no entry.
    pub fn empty(alloc: Global) -> StreamClaimReply
        ensures { entries_view result.ids.items ≡ [] }
    {
        StreamClaimReply {
            ids: Vec::new(alloc),
        }
    }
}

impl FromRedisValue for StreamClaimReply {
    ghost Meaning = { List Entry };

    ghost meaning = { λ r. entries_view r.ids.items };

    ghost same = { λ _ _. false };

    ghost convert = { claim_reply };

    ghost byte_item = { None };

    fn from_redis_value(alloc: Global, value: Value) -> Result<Self, ParsingError> {
        let Entries { ids } = Entries::from_redis_value(alloc, value)?;
        Ok(StreamClaimReply { ids })
    }

    fn from_redis_value_ref(alloc: Global, value: &Value) -> Result<Self, ParsingError> {
        let Entries { ids } = Entries::from_redis_value_ref(alloc, value)?;
        Ok(StreamClaimReply { ids })
    }

    fn from_byte_vec(alloc: Global, bytes: Vec<u8>) -> Result<Vec<Self>, ParsingError> {
        let value = Self::from_redis_value(alloc, Value::BulkString(bytes))?;
        one(alloc, value)
    }
}
