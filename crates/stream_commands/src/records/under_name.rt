//! What an information reply tells under a name.
ghost use Rattle.resp_args.specs.Convert.{Answers};
ghost use Rattle.stream_commands.specs.RecordViews.{fields_view};
ghost use Rattle.stream_commands.specs.UnderNames.{read_or, under};

use indexmap::IndexMap;
use resp_args::FromRedisValue;
use resp_core::{ParsingError, Value};
use std::alloc::Global;

/// What is read under the name, or the value that stands for a missing one.
pub(crate) fn read_under<T: FromRedisValue>(
    alloc: Global,
    fields: &IndexMap<String, Value>,
    name: &str,
    missing: T,
) -> Result<T, ParsingError>
    ensures { Answers T.meaning
        (read_or T.convert (T.meaning missing) (under name.now (fields_view fields.now))) result }
{
    match fields.get(name) {
        Some(value) => T::from_redis_value_ref(alloc, value),
        None => Ok(missing),
    }
}
