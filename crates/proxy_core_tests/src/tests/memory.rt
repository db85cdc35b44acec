//! One request for memory is refused, whichever: `tools/refused-tests` plays each test once for each.
use crate::tests::moving::{ERROR, Moving};
use crate::tests::turns::{Guests, LIMITS};
use proxy_core::{Entry, Fate, Proxy};
use proxy_stubs::OnKey;
use refusals_for_tests::again;
use std::io::Print;
use std::process::Abort;
use std::test::*;

fn put<R: Print>(rt: &R, proxy: &mut Guests, guest: usize, key: u8) -> Result<(), Fail> {
    if let Err(refused) = proxy.put(guest, Entry::Waits(OnKey { key })) {
        println!(rt; "refused put")?;
        proxy.put(guest, refused.value).unwrap_or(());
    }
    Ok(())
}

/// Does without 2 of its requests: without the list of the overtaken, or the slots of what was done, the queue is looked through.
#[test]
fn a_guest_takes_the_same_whichever_request_is_refused(rt: HostRuntime) -> Result<(), Fail> {
    let alloc = rt.alloc();
    let mut proxy: Guests = Proxy::new(alloc, LIMITS);
    let mut servers = Moving::once_at_seven(Fate::Redirected, true);
    let guest = again(&rt, "join", || proxy.join(alloc))?;
    for key in [7, 3, 7] {
        put(&rt, &mut proxy, guest, key)?;
    }
    if proxy.turn(alloc, &mut servers).is_err() {
        println!(rt; "refused turn")?;
        servers.calls = 1;
        proxy.turn(alloc, &mut servers)?;
    }
    for wanted in [ERROR, 3, 7] {
        match proxy.take(guest) {
            Some(reply) => assert_eq!(rt; reply.0, wanted),
            None => assert!(rt; false, "{wanted} is not there"),
        }
    }
    Ok(())
}
