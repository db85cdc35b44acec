//! Replies to XINFO GROUPS.
ghost use Rattle.std.specs.Prelude.{◌≡◌, [], false, pos, None, List, map as each};
ghost use Rattle.stream_commands.specs.Groups.{Group, group, group_of, groups_reply};
ghost use Rattle.stream_commands.specs.InfoViews.{group_view};

use crate::records::fields::Fields;
use crate::records::named::{FromFields, Told, records_of};
use crate::records::one;
use crate::records::under_name::read_under;
use resp_args::FromRedisValue;
use resp_core::{ParsingError, Value};
use std::alloc::Global;

/// A group of consumers.
#[derive(Clone, Drop, Debug)]
pub struct StreamInfoGroup {
    /// Its name.
    pub name: String,
    /// How many consumers it has.
    pub consumers: usize,
    /// How many entries are pending for them.
    pub pending: usize,
    /// The id that was delivered last.
    pub last_delivered_id: String,
    /// How many entries were read, where the server knows it.
    pub entries_read: Option<usize>,
    /// How many entries are still to be delivered, where the server knows it.
    pub lag: Option<usize>,
}

/// The groups of a stream.
#[derive(Clone, Drop, Debug)]
pub struct StreamInfoGroupsReply {
    /// The groups in order.
    pub groups: Vec<StreamInfoGroup>,
}

impl StreamInfoGroup {
    /// A group of which nothing is known.
    pub fn empty(alloc: Global) -> StreamInfoGroup
        ensures { group_view result ≡ group [] (pos 0) (pos 0) [] None None }
    {
        StreamInfoGroup {
            name: String::new(alloc),
            consumers: 0,
            pending: 0,
            last_delivered_id: String::new(alloc),
            entries_read: None,
            lag: None,
        }
    }
}

impl StreamInfoGroupsReply {
    /// A reply of no group.
    pub fn empty(alloc: Global) -> StreamInfoGroupsReply
        ensures { each group_view result.groups.items ≡ [] }
    {
        StreamInfoGroupsReply {
            groups: Vec::new(alloc),
        }
    }
}

/// A group is told by named parts, of which a missing one is empty or 0.
impl FromFields for StreamInfoGroup {
    ghost Stands = { Group };

    ghost stands = { group_view };

    ghost of_fields = { group_of };

    fn from_fields(alloc: Global, fields: &Fields) -> Result<Self, ParsingError> {
        let name = read_under(alloc, fields, "name", String::new(alloc))?;
        let consumers = read_under::<usize>(alloc, fields, "consumers", 0)?;
        let pending = read_under::<usize>(alloc, fields, "pending", 0)?;
        let last_delivered_id = read_under(alloc, fields, "last-delivered-id", String::new(alloc))?;
        let entries_read = read_under::<Option<usize>>(alloc, fields, "entries-read", None)?;
        let lag = read_under::<Option<usize>>(alloc, fields, "lag", None)?;
        Ok(StreamInfoGroup {
            name,
            consumers,
            pending,
            last_delivered_id,
            entries_read,
            lag,
        })
    }
}

impl FromRedisValue for StreamInfoGroupsReply {
    ghost Meaning = { List Group };

    ghost meaning = { λ r. each group_view r.groups.items };

    ghost same = { λ _ _. false };

    ghost convert = { groups_reply };

    ghost byte_item = { None };

    fn from_redis_value(alloc: Global, value: Value) -> Result<Self, ParsingError> {
        let told = Vec::<Told<StreamInfoGroup>>::from_redis_value(alloc, value)?;
        Ok(StreamInfoGroupsReply {
            groups: records_of(alloc, told)?,
        })
    }

    fn from_redis_value_ref(alloc: Global, value: &Value) -> Result<Self, ParsingError> {
        let told = Vec::<Told<StreamInfoGroup>>::from_redis_value_ref(alloc, value)?;
        Ok(StreamInfoGroupsReply {
            groups: records_of(alloc, told)?,
        })
    }

    fn from_byte_vec(alloc: Global, bytes: Vec<u8>) -> Result<Vec<Self>, ParsingError> {
        let value = Self::from_redis_value(alloc, Value::BulkString(bytes))?;
        one(alloc, value)
    }
}
