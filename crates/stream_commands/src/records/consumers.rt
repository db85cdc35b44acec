//! Replies to XINFO CONSUMERS.
ghost use Rattle.std.specs.Prelude.{◌≡◌, [], false, pos, List, map as each, None};
ghost use Rattle.stream_commands.specs.Consumers.{Consumer, consumer, consumer_of, consumers_reply};
ghost use Rattle.stream_commands.specs.InfoViews.{consumer_view};

use crate::records::fields::Fields;
use crate::records::named::{FromFields, Told, records_of};
use crate::records::one;
use crate::records::under_name::read_under;
use resp_args::FromRedisValue;
use resp_core::{ParsingError, Value};
use std::alloc::Global;

/// A consumer of a group.
#[derive(Clone, Drop, Debug)]
pub struct StreamInfoConsumer {
    /// Its name.
    pub name: String,
    /// How many entries are pending for it.
    pub pending: usize,
    /// For how many milliseconds it has asked for nothing.
    pub idle: usize,
}

/// The consumers of a group.
#[derive(Clone, Drop, Debug)]
pub struct StreamInfoConsumersReply {
    /// The consumers in order.
    pub consumers: Vec<StreamInfoConsumer>,
}

impl StreamInfoConsumer {
    /// A consumer of which nothing is known.
    pub fn empty(alloc: Global) -> StreamInfoConsumer
        ensures { consumer_view result ≡ consumer [] (pos 0) (pos 0) }
    {
        StreamInfoConsumer {
            name: String::new(alloc),
            pending: 0,
            idle: 0,
        }
    }
}

impl StreamInfoConsumersReply {
    /// A reply of no consumer.
    pub fn empty(alloc: Global) -> StreamInfoConsumersReply
        ensures { each consumer_view result.consumers.items ≡ [] }
    {
        StreamInfoConsumersReply {
            consumers: Vec::new(alloc),
        }
    }
}

/// A consumer is told by named parts, of which a missing one is empty or 0.
impl FromFields for StreamInfoConsumer {
    ghost Stands = { Consumer };

    ghost stands = { consumer_view };

    ghost of_fields = { consumer_of };

    fn from_fields(alloc: Global, fields: &Fields) -> Result<Self, ParsingError> {
        let name = read_under(alloc, fields, "name", String::new(alloc))?;
        let pending = read_under::<usize>(alloc, fields, "pending", 0)?;
        let idle = read_under::<usize>(alloc, fields, "idle", 0)?;
        Ok(StreamInfoConsumer {
            name,
            pending,
            idle,
        })
    }
}

impl FromRedisValue for StreamInfoConsumersReply {
    ghost Meaning = { List Consumer };

    ghost meaning = { λ r. each consumer_view r.consumers.items };

    ghost same = { λ _ _. false };

    ghost convert = { consumers_reply };

    ghost byte_item = { None };

    fn from_redis_value(alloc: Global, value: Value) -> Result<Self, ParsingError> {
        let told = Vec::<Told<StreamInfoConsumer>>::from_redis_value(alloc, value)?;
        Ok(StreamInfoConsumersReply {
            consumers: records_of(alloc, told)?,
        })
    }

    fn from_redis_value_ref(alloc: Global, value: &Value) -> Result<Self, ParsingError> {
        let told = Vec::<Told<StreamInfoConsumer>>::from_redis_value_ref(alloc, value)?;
        Ok(StreamInfoConsumersReply {
            consumers: records_of(alloc, told)?,
        })
    }

    fn from_byte_vec(alloc: Global, bytes: Vec<u8>) -> Result<Vec<Self>, ParsingError> {
        let value = Self::from_redis_value(alloc, Value::BulkString(bytes))?;
        one(alloc, value)
    }
}
