//! What a guest reads, in whichever pieces its bytes come and its replies go.
ghost use Rattle.std.specs.Prelude.{◌<◌};

use crate::tests::guests::{Core, Guest, LIMITS, serve, take_in, write_out};
use proxy_connection::{Connection, Progress, over_is_whole, reads_in_order, turns_are_told};
use proxy_core::Proxy;
use proxy_stubs::{Moving, OnKey, Talk};
use resp_requests::Limits;
use std::alloc::{AllocError, Global};
use std::test::*;

/// More commands than have room, one that is sent on, and a fault with a command behind it.
const SENT: &[u8] =
    b"*2\r\n$3\r\nGET\r\n$1\r\nm\r\nPING\r\nGET a\r\n*2\r\n$3\r\nGET\r\n$1\r\nm\r\nGET b\r\n*x\r\nPING\r\n";

const READ: &[u8] =
    b"+m\r\n+PONG\r\n+a\r\n+m\r\n+b\r\n-ERR Protocol error: invalid multibulk length\r\n";

fn joined(alloc: Global, proxy: &mut Core) -> Guest {
    let number = proxy.join(alloc).unwrap_or(0);
    Connection::new(alloc, number, Talk::new(), Limits::of_redis())
}

/// What the guest reads, and whether it is over then.
fn read(alloc: Global, size: usize, most: usize) -> Result<(Vec<u8>, bool), AllocError>
    requires { 0 < size }
{
    let mut proxy: Core = Proxy::new(alloc, LIMITS);
    let mut guest = joined(alloc, &mut proxy);
    let (mut servers, mut out) = (Moving::new(), Vec::new(alloc));
    for piece in SENT.chunks(size) {
        guest.feed(piece)?;
        serve(alloc, &mut guest, &mut proxy, &mut servers, most, &mut out)?;
    }
    for _ in 0..3 {
        serve(alloc, &mut guest, &mut proxy, &mut servers, most, &mut out)?;
    }
    let is_over = guest.is_over(&proxy);
    Ok((out, is_over))
}

#[test]
fn in_any_pieces_a_guest_reads_the_same(rt: HostRuntime) -> Result<(), Fail> {
    let alloc = rt.alloc();
    for size in 1..SENT.len() {
        let (out, is_over) = read(alloc, size, 1 + size % 7)?;
        assert_eq!(rt; out.as_slice(), READ);
        assert!(rt; is_over);
    }
    Ok(())
}

#[test]
fn each_guest_reads_its_own(rt: HostRuntime) -> Result<(), Fail> {
    let alloc = rt.alloc();
    let mut proxy: Core = Proxy::new(alloc, LIMITS);
    let mut first = joined(alloc, &mut proxy);
    let mut second = joined(alloc, &mut proxy);
    first.feed(b"GET a\r\n")?;
    second.feed(b"GET b\r\nQUIT\r\nPING\r\n")?;
    assert_eq!(rt; take_in(alloc, &mut first, &mut proxy)?, Progress::Short);
    assert_eq!(rt; take_in(alloc, &mut second, &mut proxy)?, Progress::Ended);
    proxy.turn(alloc, &mut Moving::new())?;
    let mut out = Vec::new(alloc);
    write_out(&mut second, &mut proxy, 3, &mut out)?;
    assert_eq!(rt; out.as_slice(), b"+b\r\n+OK\r\n".as_slice());
    assert!(rt; second.is_over(&proxy));
    assert!(rt; !first.is_over(&proxy));
    out.clear();
    write_out(&mut first, &mut proxy, 100, &mut out)?;
    assert_eq!(rt; out.as_slice(), b"+a\r\n".as_slice());
    assert!(rt; !first.is_over(&proxy));
    Ok(())
}

#[test]
fn a_guest_that_does_not_read_has_to_wait(rt: HostRuntime) -> Result<(), Fail> {
    let alloc = rt.alloc();
    let mut proxy: Core = Proxy::new(alloc, LIMITS);
    let mut guest = joined(alloc, &mut proxy);
    guest.feed(b"PING\r\nPING\r\nPING\r\nGET a\r\n")?;
    assert_eq!(rt; take_in(alloc, &mut guest, &mut proxy)?, Progress::Full);
    assert_eq!(rt; proxy.held(guest.guest()), 3);
    let mut out = Vec::new(alloc);
    write_out(&mut guest, &mut proxy, 100, &mut out)?;
    assert_eq!(rt; take_in(alloc, &mut guest, &mut proxy)?, Progress::Short);
    assert_eq!(rt; proxy.held(guest.guest()), 1);
    proxy.leave(alloc, guest.guest());
    guest.feed(b"PING\r\n")?;
    assert_eq!(rt; take_in(alloc, &mut guest, &mut proxy)?, Progress::NoGuest);
    Ok(())
}

#[test]
fn laws_are_there() {
    turns_are_told::<Talk, OnKey, Vec<u8>>();
    reads_in_order::<Talk, OnKey, Vec<u8>>();
    over_is_whole::<Talk, OnKey, Vec<u8>>();
}
