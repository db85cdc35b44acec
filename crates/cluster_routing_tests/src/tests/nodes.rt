//! Addresses, slots and routes.

use crate::tests::texts::{is_text, shows};
use cluster_routing::{NodeAddress, Route, Slot, SlotAddr};
use std::alloc::{AllocError, Global};
use std::test::Fail;

/// The address as it is written, or the number of the refusal.
fn address_text(alloc: Global, text: &str) -> Result<String, AllocError> {
    match NodeAddress::try_from(alloc, text) {
        Ok(address) => address.to_string(alloc),
        Err(e) => format!(in alloc; "{}", e.number()),
    }
}

#[test]
fn reads_and_writes_addresses(rt: HostRuntime) {
    let rows = [
        ("[::1]:7001", "::1:7001"),
        ("::1:7001", "::1:7001"),
        ("n1:+07001", "n1:7001"),
        (":0", "1"),
        ("[]:6379", "1"),
        ("n1", "1"),
        ("n1:", "1"),
        ("n1:65536", "1"),
        ("n1:7001x", "1"),
    ];
    for (text, wanted) in rows {
        is_text(&rt, address_text(rt.alloc(), text), wanted);
    }
}

#[test]
fn orders_addresses(rt: HostRuntime) -> Result<(), Fail> {
    let alloc = rt.alloc();
    let mut before = NodeAddress::empty(alloc);
    for text in ["n1:999", "n1:7001", "n1:10000", "n10:1", "n2:0"] {
        let next = NodeAddress::try_from(alloc, text)?;
        assert!(rt; before < next, "{text} comes later");
        before = next;
    }
    let made = NodeAddress::from_parts(String::from_str(alloc, "n2")?, 0);
    assert!(rt; made == before);
    Ok(())
}

#[test]
fn knows_slots(rt: HostRuntime) {
    let known: [(&[u8], u16); 12] = [
        (b"foo", 12182),
        (b"123456789", 12739),
        (b"", 0),
        (b"a", 15495),
        (b"{a}x", 15495),
        (b"{a}{b}", 15495),
        (b"b", 3300),
        (b"c", 7365),
        (b"d", 11298),
        (b"x{a}", 15495),
        (b"{a", 10276),
        (b"{}a", 10875),
    ];
    for (key, slot) in known {
        assert_eq!(rt; Route::with_key(key, SlotAddr::Master).slot(), slot);
    }
    let slots = [Slot::new(16383), Slot::new(16384)];
    let wanted = "[Some(Slot { number: 16383 }), None]";
    shows(&rt, rt.alloc(), &slots, wanted);
    let route = Route::with_slot(Slot::for_key(b"a"), SlotAddr::ReplicaRequired);
    let wanted = "Route { slot: 15495, slot_addr: ReplicaRequired }";
    shows(&rt, rt.alloc(), &route, wanted);
}
