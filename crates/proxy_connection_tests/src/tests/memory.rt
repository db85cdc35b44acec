//! One request for memory is refused, whichever: `tools/refused-tests` plays each test once for each.
use crate::tests::guests::{Core, Guest, LIMITS};
use proxy_connection::Connection;
use proxy_core::Proxy;
use proxy_stubs::{Moving, Talk, take_in};
use refusals_for_tests::again;
use resp_requests::Limits;
use std::io::Print;
use std::process::Abort;
use std::test::*;

fn write_out<R: Print>(
    rt: &R,
    guest: &mut Guest,
    proxy: &mut Core,
    out: &mut Vec<u8>,
) -> Result<(), Fail> {
    for _ in 0..9 {
        if !guest.fetch(proxy) {
            break;
        }
        match out.extend_from_slice(guest.output()) {
            Ok(()) => guest.wrote(99),
            Err(_) => println!(rt; "refused extend_from_slice")?,
        }
    }
    Ok(())
}

/// Does without 1 of its requests: without the list of the overtaken, the queue is looked through.
#[test]
fn a_guest_reads_the_same_whichever_request_is_refused(rt: HostRuntime) -> Result<(), Fail> {
    let alloc = rt.alloc();
    let mut proxy: Core = Proxy::new(alloc, LIMITS);
    let number = again(&rt, "join", || proxy.join(alloc))?;
    let mut guest = Connection::new(alloc, number, Talk::new(), Limits::of_redis());
    let (mut servers, mut out) = (Moving::new(), Vec::new(alloc));
    for piece in [
        b"GET m\r\n*1\r\n$4\r\nPI".as_slice(),
        b"NG\r\nGET a\r\n*x\r\n".as_slice(),
    ] {
        again(&rt, "feed", || guest.feed(piece))?;
        for _ in 0..2 {
            take_in(&rt, || guest.advance(alloc, &mut proxy))?;
            again(&rt, "turn", || proxy.turn(alloc, &mut servers))?;
            write_out(&rt, &mut guest, &mut proxy, &mut out)?;
        }
    }
    assert_eq!(rt;
        out.as_slice(),
        b"+m\r\n+PONG\r\n+a\r\n-ERR Protocol error: invalid multibulk length\r\n".as_slice()
    );
    assert!(rt; guest.is_over(&proxy));
    Ok(())
}
