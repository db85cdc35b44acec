//! What guests read behind turns of a proxy.
use crate::tests::guests::Guests;
use resp_core::Protocol::{Resp2, Resp3};
use std::test::*;

#[test]
fn each_guest_reads_its_own_in_its_protocol(rt: HostRuntime) -> Result<(), Fail> {
    let alloc = rt.alloc();
    let mut guests = Guests::new(alloc, b"$1\r\nB\r\n$-1\r\n", Some(b"$-1\r\n"))?;
    assert!(rt; guests.get(alloc, 0, "a", Resp2)?);
    assert!(rt; guests.get(alloc, 0, "b", Resp2)?);
    assert!(rt; guests.get(alloc, 1, "b", Resp3)?);
    guests.turn(alloc)?;
    assert!(rt; guests.reads(0, Some(b"$-1\r\n")));
    assert!(rt; guests.reads(0, Some(b"$1\r\nB\r\n")));
    assert!(rt; guests.reads(1, Some(b"_\r\n")));
    assert!(rt; guests.reads(1, None));
    Ok(())
}

#[test]
fn a_redirect_is_followed_in_the_next_turn(rt: HostRuntime) -> Result<(), Fail> {
    let alloc = rt.alloc();
    let asks = b"-ASK 15495 n1:7001\r\n-ASK 15495 n1:7001\r\n";
    let mut guests = Guests::new(alloc, b"+OK\r\n$1\r\nA\r\n", Some(asks))?;
    assert!(rt; guests.get(alloc, 0, "a", Resp2)?);
    guests.turn(alloc)?;
    assert!(rt; guests.reads(0, None));
    guests.turn(alloc)?;
    assert!(rt; guests.reads(0, Some(b"$1\r\nA\r\n")));
    Ok(())
}

#[test]
fn a_lost_command_is_told_as_lost(rt: HostRuntime) -> Result<(), Fail> {
    let alloc = rt.alloc();
    let mut guests = Guests::new(alloc, b"", Some(b""))?;
    assert!(rt; guests.get(alloc, 0, "a", Resp2)?);
    guests.turn(alloc)?;
    let line = b"-ERR the link to the node failed, and the command may have been done\r\n";
    assert!(rt; guests.reads(0, Some(line)));
    Ok(())
}

#[test]
fn without_a_link_a_command_waits_for_the_patient(rt: HostRuntime) -> Result<(), Fail> {
    let alloc = rt.alloc();
    let mut guests = Guests::new(alloc, b"$1\r\nB\r\n", None)?;
    assert!(rt; guests.get(alloc, 0, "a", Resp2)?);
    assert!(rt; guests.get(alloc, 1, "b", Resp2)?);
    guests.turn(alloc)?;
    assert!(rt; guests.reads(0, None));
    assert!(rt; guests.reads(1, Some(b"$1\r\nB\r\n")));
    guests.servers.patient = false;
    guests.turn(alloc)?;
    assert!(rt; guests.reads(0, Some(b"-CLUSTERDOWN no link leads to the node\r\n")));
    Ok(())
}
