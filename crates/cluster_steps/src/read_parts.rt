//! A read of streams in parts, one for each slot of their keys.
ghost use Rattle.std.specs.Prelude.{◌≡◌, map, IfOk};
ghost use Rattle.cluster_routing.specs.Info.{lent, texts};
ghost use Rattle.stream_commands.specs.Joining.{positions};
ghost use Rattle.cluster_calls.specs.Calls.Parts.{read_parts};
ghost use Rattle.cluster_calls.specs.Calls.Task.{stream_keys};
ghost use Rattle.cluster_calls.specs.Links.Typed.{streams_by};
ghost use Rattle.cluster_steps.specs.FirstPlaces.{part_of};
ghost use Rattle.cluster_steps.specs.Reads.{found_at, lent_streams, part_at, read_places, streams_in};

use crate::request::Request;
use crate::route::{Part, Target};
use cluster_routing::{Route, group_keys_by_slot, role_of};
use resp_args::ToSingleRedisArg;
use std::alloc::{AllocError, Global};
use stream_commands::{StreamReadOptions, commands};

/// A stream's key, and the id behind which it is read, as they are sent.
#[derive(Drop)]
pub struct Stream {
    pub key: Vec<u8>,
    pub id: Vec<u8>,
}

/// The parts of a read, and for each of them the positions of its streams among all.
#[derive(Drop)]
pub struct ReadParts {
    pub list: Vec<Part>,
    pub places: Vec<Vec<usize>>,
}

/// These keys and ids as they are sent.
pub(crate) fn streams_of<K: ToSingleRedisArg, I: ToSingleRedisArg>(
    alloc: Global,
    streams: &[(K, I)],
) -> Result<Vec<Stream>, AllocError>
    ensures { IfOk result (λ v. streams_in v.items ≡ streams_by K.arg I.arg streams.now) }
{
    let mut all = Vec::with_capacity(alloc, streams.len())?;
    'streams: for stream in streams {
        all.push(Stream {
            key: bytes_of(alloc, &stream.0)?,
            id: bytes_of(alloc, &stream.1)?,
        })?;
    }
    Ok(all)
}

/// The bytes of one argument.
fn bytes_of<T: ToSingleRedisArg>(alloc: Global, value: &T) -> Result<Vec<u8>, AllocError>
    ensures { IfOk result (λ v. v.items ≡ T.arg value.now) }
{
    let mut args = value.to_redis_args(alloc)?;
    Ok(args.remove(0))
}

/// The parts of a read of streams: for each slot of their keys, as these first appear, the read of its
/// streams in their order.
pub fn read_parts(
    alloc: Global,
    streams: &[Stream],
    options: &StreamReadOptions,
    read_only: &[Vec<u8>],
) -> Result<ReadParts, AllocError>
    ensures parts { IfOk result
        (λ p. map part_of p.list.items
        ≡ read_parts (texts read_only.now) options.now (streams_in streams.now)) }
    ensures places { IfOk result (λ p. positions p.places.items ≡ read_places (streams_in streams.now)) }
{
    let keys = keys_of(alloc, streams)?;
    let groups = group_keys_by_slot(alloc, &keys, role_of(b"XREAD", read_only))?;
    let mut list = Vec::new(alloc);
    let mut places = Vec::new(alloc);
    'groups: for (route, positions) in groups {
        list.push(read_part(alloc, streams, options, route, &positions)?)?;
        places.push(positions)?;
    }
    Ok(ReadParts { list, places })
}

/// The keys of the streams.
pub(crate) fn keys_of(alloc: Global, streams: &[Stream]) -> Result<Vec<&[u8]>, AllocError>
    ensures { IfOk result (λ v. lent v.items ≡ stream_keys (streams_in streams.now)) }
{
    let mut keys = Vec::with_capacity(alloc, streams.len())?;
    'streams: for stream in streams {
        keys.push(stream.key.as_slice())?;
    }
    Ok(keys)
}

/// The read of the streams at these positions.
fn read_part(
    alloc: Global,
    streams: &[Stream],
    options: &StreamReadOptions,
    route: Route,
    positions: &[usize],
) -> Result<Part, AllocError>
    ensures { IfOk result
        (λ p. part_of p ≡ part_at options.now (streams_in streams.now) (route, positions.now)) }
{
    let part = streams_at(alloc, streams, positions)?;
    let command = commands::xread(alloc, &part, options)?;
    Ok(Request {
        to: Target::Slot(route),
        args: command.wire_args()?,
    })
}

/// The keys and ids at those of these positions that there are.
fn streams_at<'s>(
    alloc: Global,
    streams: &'s [Stream],
    positions: &[usize],
) -> Result<Vec<(&'s [u8], &'s [u8])>, AllocError>
    ensures { IfOk result (λ v. lent_streams v.items ≡ found_at positions.now (streams_in streams.now)) }
{
    let mut part = Vec::new(alloc);
    'positions: for position in positions {
        if let Some(stream) = streams.get(*position) {
            part.push((stream.key.as_slice(), stream.id.as_slice()))?;
        }
    }
    Ok(part)
}
