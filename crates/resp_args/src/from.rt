//! What a reply can be read as.
ghost use Rattle.std.specs.Prelude.{◌≡◌, Bool, Option, List, ℕ, map as each, MatchResult, ◌∷◌, []};
ghost use Rattle.resp_core.specs.Trees.{Tree};
ghost use Rattle.resp_core.specs.View.{view};
ghost use Rattle.resp_core.specs.Errors.{no_memory};
ghost use Rattle.resp_args.specs.Convert.{Answers, bulk_items};

use resp_core::{ParsingError, Value};
use std::alloc::Global;

mod lists;
mod maps;
mod names;
mod numbers;
mod plain;
mod scalars;
mod tuples;

pub use names::FieldName;
pub use numbers::{Count, Number};

/// A type that a reply can be read as.
///
/// A conversion is refused, as an unexpected type, exactly where `convert` gives nothing; besides,
/// it may be refused for want of memory. Source: the documentation of the crate `redis`,
/// `FromRedisValue`.
pub trait FromRedisValue: Sized + Drop {
    /// What a value of this type means.
    ghost Meaning: { Type 0 };

    ghost meaning: { Self → Meaning };

    /// The meaning that a tree is read as.
    ghost convert: { Tree → Option Meaning };

    /// What a byte of a bulk means, where each is an item of its own: for `u8` alone.
    ghost byte_item: { Option (ℕ → Meaning) };

    /// Whether two meanings are one, where a field may be named so.
    ghost same: { Meaning → Meaning → Bool };

    /// Reads a reply.
    fn from_redis_value(alloc: Global, value: Value) -> Result<Self, ParsingError>
        ensures { Answers meaning (convert (view value)) result };

    /// Reads a lent reply: the same trees give equal values.
    fn from_redis_value_ref(alloc: Global, value: &Value) -> Result<Self, ParsingError>
        ensures { Answers meaning (convert (view value.now)) result }
    {
        Self::from_redis_value(alloc, value.clone()?)
    }

    /// Reads the bytes of a bulk where a list is wanted: the bulk alone, but for `u8` each of its bytes.
    fn from_byte_vec(alloc: Global, bytes: Vec<u8>) -> Result<Vec<Self>, ParsingError>
        ensures { Answers (λ v. each meaning v.items) (bulk_items convert byte_item bytes.items) result };
}

/// Reads a reply as a `T`: refused, as an unexpected type, exactly where `T` reads no such tree.
pub fn from_redis_value<T: FromRedisValue>(alloc: Global, value: Value) -> Result<T, ParsingError>
    ensures { Answers T.meaning (T.convert (view value)) result }
{
    T::from_redis_value(alloc, value)
}

/// Reads a lent reply as a `T`, with an equal result.
pub fn from_redis_value_ref<T: FromRedisValue>(
    alloc: Global,
    value: &Value,
) -> Result<T, ParsingError>
    ensures { Answers T.meaning (T.convert (view value.now)) result }
{
    T::from_redis_value_ref(alloc, value)
}

/// A list of one.
fn one<T: Drop>(alloc: Global, value: T) -> Result<Vec<T>, ParsingError>
    ensures { MatchResult result (λ v. v.items ≡ value ∷ []) (λ e. e ≡ no_memory) }
{
    let mut list = Vec::with_capacity(alloc, 1)?;
    list.push(value)?;
    Ok(list)
}
