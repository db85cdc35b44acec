//! Frames: the bytes of many guests in one stream.
use std::alloc::{AllocError, Global};

/// The number by which the clock is asked and tells the time. No guest has it.
pub(crate) const CLOCK: u32 = u32::MAX;

/// The number by which the program says that it knows the slot map. No guest has it.
const READY: u32 = u32::MAX - 1;

/// Bytes of a guest, none where it ends.
#[derive(Clone, Copy)]
pub(crate) struct Frame<'a> {
    pub(crate) guest: u32,
    pub(crate) bytes: &'a [u8],
}

/// The frame with which bytes begin, and what stands behind it; `None` where it is not whole.
pub(crate) fn first_frame(bytes: &[u8]) -> Option<(Frame<'_>, &[u8])> {
    let [a, b, c, d, e, f, g, h, behind @ ..] = bytes else {
        return None;
    };
    let guest = u32::from_le_bytes([*a, *b, *c, *d]);
    let len = u32::from_le_bytes([*e, *f, *g, *h]) as usize;
    match (behind.get(..len), behind.get(len..)) {
        (Some(body), Some(rest)) => Some((Frame { guest, bytes: body }, rest)),
        _ => None,
    }
}

/// Appends a frame's head.
fn put_head(out: &mut Vec<u8>, guest: u32, len: u32) -> Result<(), AllocError> {
    out.extend_from_slice(&guest.to_le_bytes())?;
    out.extend_from_slice(&len.to_le_bytes())
}

/// Appends the bytes of a guest in frames.
pub(crate) fn put_frames(out: &mut Vec<u8>, guest: u32, bytes: &[u8]) -> Result<(), AllocError> {
    for piece in bytes.chunks(1 << 30) {
        put_head(out, guest, piece.len() as u32)?;
        out.extend_from_slice(piece)?;
    }
    Ok(())
}

/// Appends the frame that ends a guest.
pub(crate) fn put_end(out: &mut Vec<u8>, guest: u32) -> Result<(), AllocError> {
    put_head(out, guest, 0)
}

/// Appends the frame that says that the slot map is known.
pub(crate) fn put_ready(out: &mut Vec<u8>) -> Result<(), AllocError> {
    put_head(out, READY, 0)
}

/// Appends the frame that asks the clock to tell the time behind so many milliseconds.
pub(crate) fn put_alarm(out: &mut Vec<u8>, delay: u32) -> Result<(), AllocError> {
    put_head(out, CLOCK, 4)?;
    out.extend_from_slice(&delay.to_le_bytes())
}

/// The time that the clock tells, in milliseconds since some moment, of eight bytes with the lowest first.
pub(crate) fn time_of(bytes: &[u8]) -> Option<u64> {
    match bytes {
        [a, b, c, d, e, f, g, h] => Some(u64::from_le_bytes([*a, *b, *c, *d, *e, *f, *g, *h])),
        _ => None,
    }
}

/// The bytes behind those that were taken.
pub(crate) fn kept(alloc: Global, rest: &[u8]) -> Result<Vec<u8>, AllocError> {
    Vec::from_slice(alloc, rest)
}
