//! A reply, read as a type.
ghost use Rattle.resp_core.specs.View.{view};
ghost use Rattle.cluster_calls.specs.Links.Converted.{ConvertsTo};
ghost use Rattle.cluster_calls.specs.Links.World.{tree_result};

use resp_args::FromRedisValue;
use resp_core::{RedisError, Value};
use std::alloc::Global;

/// The reply as a `T`, or why there is none.
///
/// # Errors
/// That of the reply; `UnexpectedReturnType` where it is no `T`; `Memory`.
pub(crate) fn value_in<T: FromRedisValue>(
    alloc: Global,
    reply: Result<Value, RedisError>,
) -> Result<T, RedisError>
    ensures { ConvertsTo T.meaning T.convert (tree_result view reply) result }
{
    Ok(T::from_redis_value(alloc, reply?)?)
}
