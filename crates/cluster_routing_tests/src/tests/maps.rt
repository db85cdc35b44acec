//! The map of slots, and the candidates that a strategy chooses of.

use crate::tests::texts::{is_text, shows};
use cluster_routing::{
    AnyNodeCandidates, NodeAddress, ReadCandidates, Replicas, ReplicasOnlyCandidates, SlotMap,
    SlotRange, SlotRangeMap,
};
use std::alloc::{AllocError, Global};
use std::test::Fail;

fn node(alloc: Global, host: &str, port: u16) -> Result<NodeAddress, AllocError> {
    Ok(NodeAddress::new(String::from_str(alloc, host)?, port))
}

/// The ranges, and the values at slots at their edges.
fn ranges_text(alloc: Global, map: &SlotRangeMap<u8>) -> Result<String, AllocError> {
    let mut ranges = map.iter();
    let seen = (ranges.next(), ranges.next(), ranges.next());
    let at = (map.get(99), map.get(100), map.get(155), map.get(170));
    format!(in alloc; "{seen:?} {at:?} {:?}", map.values().next())
}

#[test]
fn hides_what_lies_behind_an_end(rt: HostRuntime) -> Result<(), Fail> {
    let mut map = SlotRangeMap::new(rt.alloc());
    map.insert(100, 500, 3u8)?;
    let wanted = "(Some((100, 500, 3)), None, None) (None, Some(3), Some(3), Some(3)) Some(3)";
    is_text(&rt, ranges_text(rt.alloc(), &map), wanted);
    map.insert(150, 160, 4)?;
    let wanted =
        "(Some((150, 160, 4)), Some((100, 500, 3)), None) (None, None, Some(4), Some(3)) Some(4)";
    is_text(&rt, ranges_text(rt.alloc(), &map), wanted);
    map.insert(450, 500, 5)?;
    let wanted =
        "(Some((150, 160, 4)), Some((450, 500, 5)), None) (None, None, Some(4), None) Some(4)";
    is_text(&rt, ranges_text(rt.alloc(), &map), wanted);
    map.clear();
    let wanted = "(None, None, None) (None, None, None, None) None";
    is_text(&rt, ranges_text(rt.alloc(), &map), wanted);
    Ok(())
}

#[test]
fn a_range_takes_the_place_of_an_equal_end(rt: HostRuntime) -> Result<(), Fail> {
    let alloc = rt.alloc();
    let mut map = SlotRangeMap::new(alloc);
    for (start, end, value) in [(0, 9, 1u8), (20, 29, 2), (5, 9, 3)] {
        map.insert(start, end, value)?;
    }
    let mut ranges = map.iter();
    let seen = (ranges.next(), ranges.next(), ranges.next());
    let at = (
        map.get(4),
        map.get(5),
        map.get(10),
        map.get(29),
        map.get(30),
    );
    let text = format!(in alloc; "{seen:?} {at:?}");
    let wanted = "(Some((5, 9, 3)), Some((20, 29, 2)), None) (None, Some(3), None, Some(2), None)";
    is_text(&rt, text, wanted);
    Ok(())
}

#[test]
fn a_slot_has_the_range_with_the_least_end(rt: HostRuntime) -> Result<(), Fail> {
    let alloc = rt.alloc();
    let mut map = SlotRangeMap::new(alloc);
    map.insert(100, 200, 1u8)?;
    map.insert(300, 400, 2)?;
    let within = (map.get(100), map.get(200), map.get(350));
    let beside = (map.get(99), map.get(250), map.get(401));
    let text = format!(in alloc; "{within:?} {beside:?}");
    let wanted = "(Some(1), Some(1), Some(2)) (None, None, None)";
    is_text(&rt, text, wanted);
    let mut map = SlotRangeMap::new(alloc);
    map.insert(0, 500, 3u8)?;
    map.insert(150, 160, 4)?;
    let text = format!(in alloc; "{:?}", (map.get(100), map.get(155), map.get(170)));
    is_text(&rt, text, "(None, Some(4), Some(3))");
    Ok(())
}

/// The slot, the number of replicas, and the replica at the second place.
fn candidates_text<'a>(
    alloc: Global,
    candidates: &ReadCandidates<'a>,
) -> Result<String, AllocError> {
    let replicas = match candidates {
        ReadCandidates::AnyNode(any) => any.replicas(),
        ReadCandidates::ReplicasOnly(only) => only.replicas(),
    };
    format!(in alloc;
        "{} {} {:?}",
        candidates.slot(),
        replicas.len(),
        replicas.get(1)
    )
}

#[test]
fn makes_candidates(rt: HostRuntime) -> Result<(), Fail> {
    let alloc = rt.alloc();
    let primary = node(alloc, "n1", 7001)?;
    let nodes = vec![in alloc; node(alloc, "n3", 7003)?, node(alloc, "n4", 7004)?]?;
    let replicas = Replicas::new(&nodes).ok_or("no replicas")?;
    let any = ReadCandidates::AnyNode(AnyNodeCandidates::new(7, &primary, replicas));
    let wanted = "7 2 Some(NodeAddress { host: \"n4\", port: 7004 })";
    is_text(&rt, candidates_text(alloc, &any), wanted);
    let replicas = Replicas::new(&nodes[..1]).ok_or("no replica")?;
    let only = ReadCandidates::ReplicasOnly(ReplicasOnlyCandidates::new(9, replicas));
    is_text(&rt, candidates_text(alloc, &only), "9 1 None");
    Ok(())
}

fn range(alloc: Global, start: u16, host: &str) -> Result<SlotRange, AllocError> {
    let replicas = vec![in alloc; node(alloc, "n3", 7003)?]?;
    Ok(SlotRange::new(start, 16383, node(alloc, host, 7001)?, replicas))
}

fn hosts(alloc: Global, map: &SlotMap) -> Result<String, AllocError> {
    let mut hosts = String::new(alloc);
    for nodes in map.values() {
        for address in nodes {
            hosts.push_str(address.host())?;
        }
    }
    Ok(hosts)
}

#[test]
fn fills_and_clears(rt: HostRuntime) -> Result<(), Fail> {
    let alloc = rt.alloc();
    let mut map = SlotMap::from_slots(alloc, vec![in alloc; range(alloc, 0, "n1")?]?)?;
    is_text(&rt, hosts(alloc, &map), "n1n3");
    map.fill_slots(vec![in alloc; range(alloc, 5, "n9")?]?)?;
    is_text(&rt, hosts(alloc, &map), "n9n3");
    shows(&rt, alloc, &map.shard_fallback_addrs(4), "[]");
    map.clear();
    is_text(&rt, hosts(alloc, &map), "");
    Ok(())
}
