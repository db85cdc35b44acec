//! Keys by slot.

use crate::tests::texts::is_text;
use cluster_routing::{SlotAddr, group_keys_by_slot};
use std::alloc::{AllocError, Global};

fn grouped(alloc: Global, keys: &[&[u8]], addr: SlotAddr) -> Result<String, AllocError> {
    let groups = group_keys_by_slot(alloc, keys, addr)?;
    format!(in alloc; "{groups:?}")
}

#[test]
fn keys_by_slot(rt: HostRuntime) {
    let alloc = rt.alloc();
    let groups =
        "[(Route { slot: 15495, slot_addr: Master }, [0, 2, 4]), (Route { slot: 3300, slot_addr: Master }, [1]), (Route { slot: 0, slot_addr: Master }, [3])]";
    let keys: [&[u8]; 5] = [b"a", b"b", b"{a}x", b"", b"a"];
    is_text(&rt, grouped(alloc, &keys, SlotAddr::Master), groups);
    let one = "[(Route { slot: 7365, slot_addr: ReplicaOptional }, [0])]";
    let keys: [&[u8]; 1] = [b"c"];
    is_text(&rt, grouped(alloc, &keys, SlotAddr::ReplicaOptional), one);
    is_text(&rt, grouped(alloc, &[], SlotAddr::Master), "[]");
}
