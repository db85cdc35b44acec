//! A proxy with a guest, by its bytes.
use proxy_connection::{Connection, Progress};
use proxy_core::{Limits, Proxy, Room};
use proxy_stubs::{Moving, OnKey, Talk};
use std::alloc::{AllocError, Global};

/// Three entries of a guest have room.
pub(crate) const LIMITS: Limits = Limits {
    guests: 2,
    share: Room {
        entries: 3,
        bytes: 100,
    },
};

pub(crate) type Guest = Connection<Talk, OnKey, Vec<u8>>;

pub(crate) type Core = Proxy<OnKey, Vec<u8>>;

/// Takes what the guest asked, as far as there is room.
pub(crate) fn take_in(
    alloc: Global,
    guest: &mut Guest,
    proxy: &mut Core,
) -> Result<Progress, AllocError> {
    for _ in 0..1000 {
        match guest.advance(alloc, proxy)? {
            Progress::Taken => {}
            other => return Ok(other),
        }
    }
    Ok(Progress::Taken)
}

/// Writes all that is there, so many bytes at a time.
pub(crate) fn write_out(
    guest: &mut Guest,
    proxy: &mut Core,
    most: usize,
    out: &mut Vec<u8>,
) -> Result<(), AllocError> {
    for _ in 0..1000 {
        if !guest.fetch(proxy) {
            break;
        }
        let bytes = guest.output();
        let count = bytes.len().min(most);
        out.extend_from_slice(&bytes[..count])?;
        guest.wrote(count);
    }
    Ok(())
}

/// One turn for this guest alone.
pub(crate) fn serve(
    alloc: Global,
    guest: &mut Guest,
    proxy: &mut Core,
    servers: &mut Moving,
    most: usize,
    out: &mut Vec<u8>,
) -> Result<(), AllocError> {
    take_in(alloc, guest, proxy)?;
    proxy.turn(alloc, servers)?;
    write_out(guest, proxy, most, out)
}
