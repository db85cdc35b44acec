//! The record of a read of streams, from the replies to its parts.
ghost use Rattle.std.specs.Prelude.{◌≡◌, ◌≢◌, true, bytes_eq, length, map as each, option_map, Err};
ghost use Rattle.resp_core.specs.Errors.{by_cause};
ghost use Rattle.resp_core.specs.View.{view};
ghost use Rattle.resp_core.specs.declared.errors.redis_error.Cause.TheVariants.{Memory};
ghost use Rattle.resp_args.specs.Convert.{Answers, traverse};
ghost use Rattle.cluster_routing.specs.Lists.{is_distinct};
ghost use Rattle.cluster_routing.specs.Policies.{or_bad_reply};
ghost use Rattle.stream_commands.specs.Joining.{positions};
ghost use Rattle.stream_commands.specs.ReadReply.{read_reply};
ghost use Rattle.stream_commands.specs.RecordViews.{rows_view};
ghost use Rattle.cluster_calls.specs.Calls.Answer.{Read};
ghost use Rattle.cluster_calls.specs.Calls.Task.{stream_keys};
ghost use Rattle.cluster_calls.specs.Links.Typed.{record_answer};
ghost use Rattle.cluster_steps.specs.Reads.{joined_at, read_places, rows_at, streams_in};

use crate::read_parts::{Stream, keys_of};
use resp_args::from_redis_value;
use resp_core::{ParsingError, RedisError, Value};
use std::alloc::Global;
use stream_commands::{StreamReadReply, join_read_replies};

/// The record of a read of these streams from the replies to its parts, which have the streams at these
/// positions: where all keys have one slot as it was read, else the rows of all parts in order of the keys.
///
/// # Errors
/// `UnexpectedReturnType` where a reply is no such record, and of several parts where a row names no key of
/// its part, or a key is named twice; `Memory`.
pub fn record_of_parts(
    alloc: Global,
    streams: &[Stream],
    places: &[Vec<usize>],
    replies: Vec<Value>,
) -> Result<StreamReadReply, RedisError>
    requires differ { is_distinct bytes_eq (stream_keys (streams_in streams.now)) ≡ true }
    requires places { positions places.now ≡ read_places (streams_in streams.now) }
    requires replies { length replies.items ≡ length places.now }
    ensures { let answer = record_answer (λ reply. Read (rows_view reply.keys.items)) result in
        answer ≢ Err (by_cause Memory)
        → answer
        ≡ or_bad_reply
        (option_map Read
        (rows_at (stream_keys (streams_in streams.now)) (positions places.now) (each view replies.items))) }
{
    let records = records_of(alloc, replies)?;
    Ok(joined(alloc, streams, places, records)?)
}

/// Each reply as a record.
fn records_of(alloc: Global, replies: Vec<Value>) -> Result<Vec<StreamReadReply>, ParsingError>
    ensures { Answers (λ v. each (λ r. rows_view r.keys.items) v.items)
        (traverse read_reply (each view replies.items)) result }
{
    from_redis_value(alloc, Value::Array(replies))
}

fn joined(
    alloc: Global,
    streams: &[Stream],
    places: &[Vec<usize>],
    mut records: Vec<StreamReadReply>,
) -> Result<StreamReadReply, ParsingError>
    requires differ { is_distinct bytes_eq (stream_keys (streams_in streams.now)) ≡ true }
    requires places { positions places.now ≡ read_places (streams_in streams.now) }
    requires records { length records.items ≡ length places.now }
    ensures { Answers (λ r. rows_view r.keys.items)
        (joined_at (stream_keys (streams_in streams.now)) (positions places.now)
        (each (λ r. rows_view r.keys.items) records.items)) result }
{
    if records.len() == 1 {
        return Ok(records.remove(0));
    }
    let keys = keys_of(alloc, streams)?;
    join_read_replies(alloc, &keys, places, records)
}
