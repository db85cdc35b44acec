//! Records that are told by named parts, as the items of a list.
ghost use Rattle.std.specs.Prelude.{false, None, Option, map as each, option_and_then};
ghost use Rattle.resp_args.specs.Convert.{Answers};
ghost use Rattle.stream_commands.specs.Entries.{Fields as NamedTrees, some_fields};
ghost use Rattle.stream_commands.specs.RecordViews.{MadeOf, fields_view};

use crate::records::fields::Fields;
use crate::records::one;
use resp_args::FromRedisValue;
use resp_core::{ParsingError, Value};
use std::alloc::Global;

/// A record that is read from named parts.
pub(crate) trait FromFields: Sized + Drop {
    /// What a record stands for.
    ghost Stands: { Type 0 };

    ghost stands: { Self → Stands };

    /// What named parts are read as.
    ghost of_fields: { NamedTrees → Option Stands };

    fn from_fields(alloc: Global, fields: &Fields) -> Result<Self, ParsingError>
        ensures { Answers stands (of_fields (fields_view fields.now)) result };
}

/// A record as a reply tells it.
#[derive(Drop)]
pub(crate) struct Told<T: FromFields> {
    record: T,
}

impl<T: FromFields> FromRedisValue for Told<T> {
    ghost Meaning = { T.Stands };

    ghost meaning = { λ told. T.stands told.record };

    ghost same = { λ _ _. false };

    ghost convert = { λ t. option_and_then T.of_fields (some_fields t) };

    ghost byte_item = { None };

    fn from_redis_value(alloc: Global, value: Value) -> Result<Self, ParsingError> {
        let fields = Fields::from_redis_value(alloc, value)?;
        Ok(Told {
            record: T::from_fields(alloc, &fields)?,
        })
    }

    fn from_redis_value_ref(alloc: Global, value: &Value) -> Result<Self, ParsingError> {
        let fields = Fields::from_redis_value_ref(alloc, value)?;
        Ok(Told {
            record: T::from_fields(alloc, &fields)?,
        })
    }

    fn from_byte_vec(alloc: Global, bytes: Vec<u8>) -> Result<Vec<Self>, ParsingError> {
        let value = Self::from_redis_value(alloc, Value::BulkString(bytes))?;
        one(alloc, value)
    }
}

/// The records in order.
pub(crate) fn records_of<T: FromFields>(
    alloc: Global,
    told: Vec<Told<T>>,
) -> Result<Vec<T>, ParsingError>
    ensures { MadeOf (λ v. each T.stands v.items) (each (λ t. T.stands t.record) told.items) result }
{
    let mut list = Vec::with_capacity(alloc, told.len())?;
    for item in told {
        let Told { record } = item;
        list.push(record)?;
    }
    Ok(list)
}
