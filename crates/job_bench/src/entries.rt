//! Entries of streams, as a node replies them.
use crate::digest::Digest;
use crate::inputs::{Pool, push_digits, push_head, push_number};
use crate::random::Numbers;
use anyhow::Result;
use cluster_client::StreamId;
use std::alloc::Global;

/// The names of an entry's fields.
pub const FIELDS: [&str; 10] = [
    "task",
    "owner",
    "priority",
    "created_at",
    "payload",
    "attempt",
    "trace_id",
    "region",
    "queue",
    "ttl",
];

/// An id of 15 or 16 bytes.
pub fn id(alloc: Global, numbers: &mut Numbers) -> Result<Vec<u8>> {
    let mut id = Vec::with_capacity(alloc, 32)?;
    id.extend_from_slice(b"1764")?;
    push_digits(&mut id, numbers.any())?;
    id.push(b'-')?;
    push_number(&mut id, numbers.below(100) as u64)?;
    Ok(id)
}

/// Puts an entry behind these bytes, with how long and how often it was delivered where `is_claimed`.
pub fn push_entry(
    alloc: Global,
    out: &mut Vec<u8>,
    numbers: &mut Numbers,
    pool: &Pool,
    is_claimed: bool,
) -> Result<()> {
    push_head(out, b'*', if is_claimed { 4 } else { 2 })?;
    pool.push_bulk(out, &id(alloc, numbers)?)?;
    let count = numbers.between(2, 11);
    push_head(out, b'*', count.saturating_mul(2))?;
    for name in FIELDS.iter().take(count) {
        pool.push_bulk(out, name.as_bytes())?;
        let len = numbers.between(5, 60);
        let len = if numbers.below(8) == 0 {
            len.saturating_add(140)
        } else {
            len
        };
        pool.push_bulk(out, pool.of_len(numbers, len))?;
    }
    if is_claimed {
        push_head(out, b':', numbers.below(100_000))?;
        push_head(out, b':', numbers.below(9))?;
    }
    Ok(())
}

/// Puts so many entries behind these bytes, as an array.
pub fn push_entries(
    alloc: Global,
    out: &mut Vec<u8>,
    numbers: &mut Numbers,
    pool: &Pool,
    count: usize,
    is_claimed: bool,
) -> Result<()> {
    push_head(out, b'*', count)?;
    for _ in 0..count {
        push_entry(alloc, out, numbers, pool, is_claimed)?;
    }
    Ok(())
}

/// All that is known of entries.
pub fn digest_of(alloc: Global, entries: &[StreamId], digest: &mut Digest) -> Result<()> {
    for entry in entries {
        digest.bytes(entry.id.as_bytes());
        for (name, value) in &entry.map {
            digest.bytes(name.as_bytes());
            digest.reply(alloc, value)?;
        }
        digest.number(
            entry
                .milliseconds_elapsed_from_delivery
                .unwrap_or(usize::MAX) as u64,
        );
        digest.number(entry.delivered_count.unwrap_or(usize::MAX) as u64);
    }
    Ok(())
}
