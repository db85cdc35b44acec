//! What a read of streams comes down to, and its checks, which come before all others.
ghost use Rattle.std.specs.Prelude.{◌≡◌, [], ◌∷◌, codes, bytes_eq, nat_eq, IfOk};
ghost use Rattle.std.specs.List.{list_all};
ghost use Rattle.cluster_routing.specs.Command.{is_one_of};
ghost use Rattle.cluster_routing.specs.HashSlot.{hash_slot};
ghost use Rattle.cluster_routing.specs.Info.{lent, texts};
ghost use Rattle.cluster_routing.specs.Lists.{is_distinct};
ghost use Rattle.cluster_calls.specs.Calls.Task as tasks;
ghost use Rattle.cluster_calls.specs.Links.Typed.{streams_by};
ghost use Rattle.cluster_steps.specs.Reads.{IsReading, streams_in};

use crate::read_parts::{Stream, keys_of, streams_of};
use cluster_routing::Slot;
use indexmap::IndexSet;
use resp_args::ToSingleRedisArg;
use resp_core::Cause;
use std::alloc::{AllocError, Global};
use stream_commands::StreamReadOptions;

/// What a read of streams comes down to.
#[derive(Drop)]
pub enum Reading {
    /// It is refused, by the first check that is not met.
    Refused(Cause),
    /// It is one read of each of these streams by itself, and goes out in parts.
    ByKey(Vec<Stream>),
    /// It is one command.
    Whole,
}

/// What a read of these streams comes down to.
///
/// It is one read of each stream by itself where it names no group, does not block, and no key stands twice.
pub fn reading_of<K: ToSingleRedisArg, I: ToSingleRedisArg>(
    alloc: Global,
    streams: &[(K, I)],
    options: &StreamReadOptions,
) -> Result<Reading, AllocError>
    ensures { IfOk result (IsReading options.now (streams_by K.arg I.arg streams.now)) }
{
    if streams.is_empty() {
        return Ok(Reading::Refused(Cause::NoKeys));
    }
    let list = streams_of(alloc, streams)?;
    if is_by_key(alloc, &list, options)? {
        return Ok(Reading::ByKey(list));
    }
    if !are_of_one_slot(alloc, &list)? {
        return Ok(Reading::Refused(Cause::SeveralSlots));
    }
    if has_bad_names(options) {
        return Ok(Reading::Refused(Cause::BadGroupName));
    }
    Ok(Reading::Whole)
}

fn is_by_key(
    alloc: Global,
    streams: &[Stream],
    options: &StreamReadOptions,
) -> Result<bool, AllocError>
    ensures { IfOk result
        (λ b. b ≡ tasks.is_by_key options.now (tasks.stream_keys (streams_in streams.now))) }
{
    if !options.read_only() || options.blocks() {
        return Ok(false);
    }
    let keys = keys_of(alloc, streams)?;
    are_distinct(alloc, &keys)
}

fn are_distinct(alloc: Global, keys: &[&[u8]]) -> Result<bool, AllocError>
    ensures { IfOk result (λ b. b ≡ is_distinct bytes_eq (lent keys.now)) }
{
    let mut seen = IndexSet::with_capacity(alloc, keys.len())?;
    'keys: for key in keys {
        if !seen.insert(*key)? {
            return Ok(false);
        }
    }
    Ok(true)
}

fn are_of_one_slot(alloc: Global, streams: &[Stream]) -> Result<bool, AllocError>
    ensures { IfOk result
        (λ b. b ≡ tasks.are_of_one_slot (tasks.stream_keys (streams_in streams.now))) }
{
    let keys = keys_of(alloc, streams)?;
    Ok(have_one_slot(&keys))
}

/// Whether keys have one slot; no key has no other.
pub(crate) fn have_one_slot(keys: &[&[u8]]) -> bool
    ensures { result ≡ tasks.are_of_one_slot (lent keys.now) }
{
    match keys.first() {
        Some(first) => have_slot(keys, Slot::for_key(first).number()),
        None => true,
    }
}

fn have_slot(keys: &[&[u8]], slot: u16) -> bool
    ensures { result ≡ list_all (λ k. nat_eq slot (hash_slot k.now)) keys.now }
{
    'keys: for key in keys {
        if slot != Slot::for_key(key).number() {
            return false;
        }
    }
    true
}

fn has_bad_names(options: &StreamReadOptions) -> bool
    ensures { result ≡ tasks.has_bad_names options.now.group }
{
    match options.group_names() {
        Some((group, consumer)) => !is_name(group) || !is_name(consumer),
        None => false,
    }
}

/// One argument, which is not the word behind which the keys stand.
fn is_name(name: &[Vec<u8>]) -> bool
    ensures { result ≡ tasks.is_name (texts name.now) }
{
    match name {
        [word] => !is_streams(word.as_slice()),
        _ => false,
    }
}

fn is_streams(word: &[u8]) -> bool
    ensures { result ≡ is_one_of (codes "STREAMS" ∷ []) word.now }
{
    b"STREAMS".eq_ignore_ascii_case(word)
}
