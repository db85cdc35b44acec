//! Keys, values and texts of the protocol.
use crate::random::Numbers;
use anyhow::Result;
use itoa::Buffer;
use std::alloc::Global;

/// How many bytes the values are cut from.
const POOL: u32 = 4096;

/// The longest value that is cut from there.
const LONGEST: u32 = 1000;

/// Bytes that values are cut from, and what stands before a value of each length.
#[derive(Drop)]
pub struct Pool {
    bytes: Vec<u8>,
    heads: Vec<Vec<u8>>,
}

impl Pool {
    pub fn new(alloc: Global, numbers: &mut Numbers) -> Result<Pool> {
        let mut bytes = Vec::new(alloc);
        for _ in 0..POOL {
            let letter = b"abcdefghijklmnopqrstuvwxyzABCDEFGHIJKLMNOPQRSTUVWXYZ0123456789-_";
            bytes.push(letter.get(numbers.below(64)).copied().unwrap_or(b'a'))?;
        }
        let mut heads = Vec::new(alloc);
        for len in 0..=LONGEST {
            let mut head = Vec::new(alloc);
            push_head(&mut head, b'$', len as usize)?;
            heads.push(head)?;
        }
        Ok(Pool { bytes, heads })
    }

    /// Puts a bulk string behind these bytes.
    pub fn push_bulk(&self, out: &mut Vec<u8>, bytes: &[u8]) -> Result<()> {
        let Some(head) = self.heads.get(bytes.len()) else {
            return push_bulk(out, bytes);
        };
        out.extend_from_slice(head)?;
        out.extend_from_slice(bytes)?;
        out.extend_from_slice(b"\r\n")?;
        Ok(())
    }

    /// A value of so many bytes, up to the longest.
    pub fn of_len(&self, numbers: &mut Numbers, len: usize) -> &[u8] {
        let start = numbers.below(POOL.saturating_sub(LONGEST));
        let end = start.saturating_add(len.min(LONGEST as usize));
        self.bytes.get(start..end).unwrap_or(&[])
    }

    /// A value of 16 to 1,000 bytes, most of them short.
    pub fn value(&self, numbers: &mut Numbers) -> &[u8] {
        let len = match numbers.below(16) {
            0..=9 => numbers.between(16, 64),
            10..=14 => numbers.between(64, 256),
            _ => numbers.between(256, 1001),
        };
        self.of_len(numbers, len)
    }
}

pub fn push_number(out: &mut Vec<u8>, number: u64) -> Result<()> {
    let mut buffer = Buffer::new();
    out.extend_from_slice(buffer.format(number).as_bytes())?;
    Ok(())
}

/// A number behind its mark, as a line.
pub fn push_head(out: &mut Vec<u8>, mark: u8, number: usize) -> Result<()> {
    out.push(mark)?;
    push_number(out, number as u64)?;
    out.extend_from_slice(b"\r\n")?;
    Ok(())
}

pub fn push_bulk(out: &mut Vec<u8>, bytes: &[u8]) -> Result<()> {
    push_head(out, b'$', bytes.len())?;
    out.extend_from_slice(bytes)?;
    out.extend_from_slice(b"\r\n")?;
    Ok(())
}

/// Nine digits of a number.
pub fn push_digits(out: &mut Vec<u8>, number: u64) -> Result<()> {
    for power in [
        100_000_000u64,
        10_000_000,
        1_000_000,
        100_000,
        10_000,
        1_000,
        100,
        10,
        1,
    ] {
        out.push((number / power % 10) as u8 + b'0')?;
    }
    Ok(())
}

/// A key of 10 to 60 bytes, of which a quarter has a part in braces.
pub fn key(alloc: Global, numbers: &mut Numbers) -> Result<Vec<u8>> {
    let mut key = Vec::with_capacity(alloc, 64)?;
    let number = numbers.any() % 1_000_000_000;
    match numbers.below(8) {
        0..=2 => {
            key.extend_from_slice(b"user:")?;
            push_digits(&mut key, number)?;
        }
        3 => {
            key.extend_from_slice(b"{user:")?;
            push_digits(&mut key, number)?;
            key.extend_from_slice(b"}:cart")?;
        }
        4 => {
            key.extend_from_slice(b"order:{")?;
            push_digits(&mut key, number)?;
            key.extend_from_slice(b"}:lines:by-price")?;
        }
        5 => {
            key.extend_from_slice(b"session:")?;
            push_digits(&mut key, number)?;
            key.push(b':')?;
            push_digits(&mut key, numbers.any())?;
        }
        6 => {
            key.extend_from_slice(b"product:")?;
            push_digits(&mut key, number)?;
            key.extend_from_slice(b":price:eur")?;
        }
        _ => {
            key.extend_from_slice(b"page:/articles/2026/11/")?;
            push_digits(&mut key, number)?;
            key.extend_from_slice(b"/comments?page=")?;
            push_number(&mut key, number % 37)?;
        }
    }
    Ok(key)
}
