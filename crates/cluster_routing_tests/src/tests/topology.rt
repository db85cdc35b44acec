//! The shards of a map of slots, and the lists of its addresses.

use crate::tests::texts::is_text;
use cluster_routing::{ClusterTopology, NodeAddress, Route, SlotAddr, SlotMap, SlotRange};
use resp_core::RedisError;
use std::alloc::{AllocError, Global};
use std::test::Fail;

fn nodes(alloc: Global, texts: &[&str]) -> Result<Vec<NodeAddress>, RedisError> {
    let mut read = Vec::new(alloc);
    for text in texts {
        read.push(NodeAddress::try_from(alloc, text)?)?;
    }
    Ok(read)
}

const TWO: &[&str] = &["n1:10000", "n10:1"];

const ROWS: &[(u16, u16, &str, &[&str])] = &[
    (0, 99, "n1:7001", TWO),
    (200, 299, "n1:999", &[]),
    (300, 399, "n1:7001", TWO),
    (400, 499, "n1:7001", &["n10:1", "n1:10000"]),
    (500, 599, "n1:7001", &["n1:10000"]),
];

/// A map of five ranges.
pub(crate) fn sample_map(alloc: Global) -> Result<SlotMap, RedisError> {
    let mut slots = Vec::new(alloc);
    for (start, end, primary, replicas) in ROWS {
        let primary = NodeAddress::try_from(alloc, primary)?;
        let replicas = nodes(alloc, replicas)?;
        slots.push(SlotRange::new(*start, *end, primary, replicas))?;
    }
    Ok(SlotMap::from_slots(alloc, slots)?)
}

/// The shards, a line each.
pub(crate) fn topology_text(
    alloc: Global,
    topology: &ClusterTopology,
) -> Result<String, AllocError> {
    let mut all = String::new(alloc);
    for shard in topology.shards() {
        let line = format!(in alloc;
            "{:?} {} {:?}\n",
            shard.slot_ranges(),
            shard.primary(),
            shard.replicas()
        )?;
        all.push_str(line.as_str())?;
    }
    Ok(all)
}

const SHARDS: &str =
    "[(0, 99), (300, 399)] n1:7001 [NodeAddress { host: \"n1\", port: 10000 }, NodeAddress { host: \"n10\", port: 1 }]
[(200, 299)] n1:999 []
[(400, 499)] n1:7001 [NodeAddress { host: \"n10\", port: 1 }, NodeAddress { host: \"n1\", port: 10000 }]
[(500, 599)] n1:7001 [NodeAddress { host: \"n1\", port: 10000 }]
";

/// The end of the first range of the shard that serves the slot.
fn first_end(topology: &ClusterTopology, slot: u16) -> Option<u16> {
    match topology.shard_for_slot(slot)?.slot_ranges() {
        [first, ..] => Some(first.1),
        [] => None,
    }
}

#[test]
fn makes_one_shard_of_equal_nodes(rt: HostRuntime) -> Result<(), Fail> {
    let topology = sample_map(rt.alloc())?.topology(rt.alloc())?;
    is_text(&rt, topology_text(rt.alloc(), &topology), SHARDS);
    for (slot, end) in [
        (99u16, Some(99u16)),
        (100, None),
        (199, None),
        (200, Some(299)),
        (300, Some(99)),
        (400, Some(499)),
        (65535, None),
    ] {
        assert_eq!(rt; first_end(&topology, slot), end);
    }
    Ok(())
}

/// The addresses of all primaries, of all nodes, and those where three routes lead.
fn addresses_text(alloc: Global, map: &SlotMap) -> Result<String, AllocError> {
    let primaries = map.addresses_for_all_primaries(alloc)?;
    let all = map.addresses_for_all_nodes(alloc)?;
    let routes = three_routes(alloc)?;
    let led = map.addresses_for_multi_slot(alloc, &routes, 1, None)?;
    format!(in alloc;
        "{primaries:?}\n{all:?}\n{led:?}\n{:?}\n",
        map.shard_fallback_addrs(50)
    )
}

fn three_routes(alloc: Global) -> Result<Vec<(Route, Vec<usize>)>, AllocError> {
    let mut routes = Vec::new(alloc);
    for (slot, address) in [
        (50, SlotAddr::Master),
        (150, SlotAddr::Master),
        (50, SlotAddr::ReplicaRequired),
    ] {
        routes.push((Route::new(slot, address), Vec::new(alloc)))?;
    }
    Ok(routes)
}

const ADDRESSES: &str =
    "[NodeAddress { host: \"n1\", port: 999 }, NodeAddress { host: \"n1\", port: 7001 }]
[NodeAddress { host: \"n1\", port: 999 }, NodeAddress { host: \"n1\", port: 7001 }, NodeAddress { host: \"n1\", port: 10000 }, NodeAddress { host: \"n10\", port: 1 }]
[Some(NodeAddress { host: \"n1\", port: 7001 }), None, Some(NodeAddress { host: \"n10\", port: 1 })]
[NodeAddress { host: \"n1\", port: 10000 }, NodeAddress { host: \"n10\", port: 1 }]
";

#[test]
fn lists_addresses(rt: HostRuntime) -> Result<(), Fail> {
    let map = sample_map(rt.alloc())?;
    is_text(&rt, addresses_text(rt.alloc(), &map), ADDRESSES);
    Ok(())
}
