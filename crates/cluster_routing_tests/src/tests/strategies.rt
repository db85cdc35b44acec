//! Which routes ask a strategy, and how often.
use crate::tests::texts::is_text;
use crate::tests::topology::sample_map;
use cluster_routing::{Route, SlotAddr, SlotMap};
use resp_core::RedisError;
use std::alloc::{AllocError, Global};
use std::test::Fail;
use strategies_for_tests::Nth;

/// Where a route leads, and how often the strategy was asked.
fn led(alloc: Global, map: &SlotMap, slot: u16, role: SlotAddr) -> Result<String, AllocError> {
    let strategy = Nth::new(1);
    let node = map.slot_addr_for_route(Route::new(slot, role), 0, Some(&strategy));
    match node {
        Some(node) => format!(in alloc; "{node} {}", strategy.asked.get()),
        None => format!(in alloc; "none {}", strategy.asked.get()),
    }
}

/// Slots 0 to 99 have two replicas, 200 to 299 none, and 150 is not served.
#[test]
fn a_strategy_is_asked_once_for_a_read(rt: HostRuntime) -> Result<(), Fail> {
    let map = sample_map(rt.alloc())?;
    let rows = [
        (50, SlotAddr::Master, "n1:7001 0"),
        (50, SlotAddr::ReplicaOptional, "n10:1 1"),
        (50, SlotAddr::ReplicaRequired, "n10:1 1"),
        (250, SlotAddr::Master, "n1:999 0"),
        (250, SlotAddr::ReplicaOptional, "n1:999 0"),
        (250, SlotAddr::ReplicaRequired, "n1:999 0"),
        (150, SlotAddr::ReplicaOptional, "none 0"),
    ];
    for (slot, role, wanted) in rows {
        is_text(&rt, led(rt.alloc(), &map, slot, role), wanted);
    }
    Ok(())
}

/// How often the strategy is asked for four routes at once: two of them are reads of slots that have
/// replicas.
fn asked_for_four(alloc: Global, map: &SlotMap) -> Result<u64, RedisError> {
    let mut routes = Vec::new(alloc);
    for (slot, role) in [
        (50, SlotAddr::Master),
        (50, SlotAddr::ReplicaOptional),
        (250, SlotAddr::ReplicaOptional),
        (450, SlotAddr::ReplicaRequired),
    ] {
        routes.push((Route::new(slot, role), Vec::new(alloc)))?;
    }
    let strategy = Nth::new(1);
    let led = map.addresses_for_multi_slot(alloc, &routes, 0, Some(&strategy))?;
    drop(led);
    Ok(strategy.asked.get())
}

#[test]
fn a_strategy_is_asked_once_for_each_read_of_many(rt: HostRuntime) -> Result<(), Fail> {
    let map = sample_map(rt.alloc())?;
    assert_eq!(rt; asked_for_four(rt.alloc(), &map)?, 2);
    Ok(())
}
