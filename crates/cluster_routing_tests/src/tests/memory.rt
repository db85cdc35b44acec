//! One request for memory is refused, whichever: `tools/refused-tests` plays each test once for each.
//!
//! A test prints a line `refused CALL` where a call is refused, sees what then stands, and goes on;
//! no further call may be refused.

use crate::tests::combine::parts;
use crate::tests::routes::{TO_A, cmd};
use crate::tests::texts::text;
use crate::tests::topology::topology_text;
use cluster_routing::{
    AggregateOp, ClusterTopology, LogicalAggregateOp, MultiSlotArgPattern, NodeAddress,
    ResponsePolicy, Route, RoutingInfo, SlotAddr, SlotMap, SlotRange, SlotRangeMap, aggregate,
    combine_and_sort_array_results, combine_array_results, combine_map_results, combine_nodes,
    combine_parts, group_keys_by_slot, logical_aggregate, parse_slots,
};
use refusals_for_tests::{again, shown};
use resp_args::Cmd;
use resp_core::{ErrorKind, RedisError, Value, parse_redis_value};
use std::alloc::{AllocError, Global};
use std::io::Print;
use std::process::Abort;
use std::test::Fail;

const SLOTS: &[u8] =
    b"*3\r\n*3\r\n:0\r\n:99\r\n*2\r\n$0\r\n\r\n:7001\r\n*4\r\n:100\r\n:300\r\n*2\r\n$2\r\nn2\r\n:7002\r\n*2\r\n$2\r\nn3\r\n:7003\r\n*3\r\n:400\r\n:16383\r\n*2\r\n_\r\n:7004\r\n";

const RANGES: &str =
    "[SlotRange { start: 0, end: 99, nodes: SlotAddrs { primary: NodeAddress { host: \"n1\", port: 7001 }, replicas: [] } }, SlotRange { start: 100, end: 300, nodes: SlotAddrs { primary: NodeAddress { host: \"n2\", port: 7002 }, replicas: [NodeAddress { host: \"n3\", port: 7003 }] } }, SlotRange { start: 400, end: 16383, nodes: SlotAddrs { primary: NodeAddress { host: \"n1\", port: 7004 }, replicas: [] } }]";

/// The primaries of slots, and a replica.
fn nodes_text(alloc: Global, map: &SlotMap) -> Result<String, AllocError> {
    let mut all = String::new(alloc);
    for slot in [99, 100, 350, 16383] {
        let route = Route::new(slot, SlotAddr::Master);
        all.push_str(text(alloc, &map.slot_addr_for_route(route, 0, None))?.as_str())?;
    }
    let replica = Route::new(200, SlotAddr::ReplicaRequired);
    all.push_str(text(alloc, &map.slot_addr_for_route(replica, 0, None))?.as_str())?;
    Ok(all)
}

const NODES: &str =
    "Some(NodeAddress { host: \"n1\", port: 7001 })Some(NodeAddress { host: \"n2\", port: 7002 })NoneSome(NodeAddress { host: \"n1\", port: 7004 })Some(NodeAddress { host: \"n3\", port: 7003 })";

fn leads<R: Abort + Print>(rt: &R, alloc: Global, map: &SlotMap) -> Result<(), Fail> {
    let text = again(rt, "text of nodes", || nodes_text(alloc, map))?;
    assert_eq!(rt; text.as_str(), NODES);
    Ok(())
}

#[test]
fn slots_of_a_reply(rt: HostRuntime) -> Result<(), Fail> {
    let alloc = rt.alloc();
    let reply = again(&rt, "reply", || parse_redis_value(alloc, SLOTS))?;
    let ranges = again(&rt, "parse_slots", || parse_slots(alloc, &reply, "n1"))?;
    assert_eq!(rt; shown(&rt, alloc, &ranges)?.as_str(), RANGES);
    match SlotMap::from_slots(alloc, ranges) {
        Ok(map) => leads(&rt, alloc, &map),
        Err(_) => {
            println!(rt; "refused from_slots")?;
            let ranges = parse_slots(alloc, &reply, "n1")?;
            leads(&rt, alloc, &SlotMap::from_slots(alloc, ranges)?)
        }
    }
}

/// The map has one range of ten slots for each number below the count, and no more.
fn has_ranges<R: Abort>(rt: &R, map: &SlotRangeMap<u16>, count: u16) {
    for n in 0..40u16 {
        let expected = if n < count { Some(n) } else { None };
        assert_eq!(rt; map.get(n * 10).copied(), expected);
        assert_eq!(rt; map.get(n * 10 + 9).copied(), expected);
    }
    assert!(rt; map.get(400).is_none());
}

#[test]
fn forty_ranges(rt: HostRuntime) -> Result<(), Fail> {
    let mut map = SlotRangeMap::new(rt.alloc());
    for n in 0..40u16 {
        if map.insert(n * 10, n * 10 + 9, n).is_err() {
            println!(rt; "refused insert")?;
            has_ranges(&rt, &map, n);
            map.insert(n * 10, n * 10 + 9, n)?;
        }
    }
    has_ranges(&rt, &map, 40);
    Ok(())
}

fn command<R: Print>(rt: &R, alloc: Global, words: &[&str]) -> Result<Cmd, Fail> {
    again(rt, "command", || cmd(alloc, words))
}

/// The command goes there.
fn goes<R: Abort + Print>(rt: &R, alloc: Global, command: &Cmd, wanted: &str) -> Result<(), Fail> {
    let info = again(rt, "for_routable", || {
        RoutingInfo::for_routable(alloc, command, &[])
    })?;
    assert_eq!(rt; shown(rt, alloc, &info)?.as_str(), wanted);
    Ok(())
}

#[test]
fn split_command(rt: HostRuntime) -> Result<(), Fail> {
    let command = command(&rt, rt.alloc(), &["MGET", "a", "b", "a"])?;
    let wanted =
        "Some(MultiNode((MultiSlot(([(Route { slot: 15495, slot_addr: Master }, [0, 2]), (Route { slot: 3300, slot_addr: Master }, [1])], KeysOnly)), Some(CombineArrays))))";
    goes(&rt, rt.alloc(), &command, wanted)
}

#[test]
fn family(rt: HostRuntime) -> Result<(), Fail> {
    let command = command(&rt, rt.alloc(), &["xinfo", "stream", "a"])?;
    goes(&rt, rt.alloc(), &command, TO_A)
}

fn node(alloc: Global, host: &str, port: u16) -> Result<NodeAddress, AllocError> {
    Ok(NodeAddress::new(String::from_str(alloc, host)?, port))
}

/// The slots from 0 to 99 and from 200 to 299 have equal nodes, those between other ones.
fn three_ranges(alloc: Global) -> Result<SlotMap, AllocError> {
    let mut ranges = Vec::new(alloc);
    for (start, end, host) in [(0, 99, "n1"), (100, 199, "n3"), (200, 299, "n1")] {
        let replicas = vec![in alloc; node(alloc, "n2", 7002)?]?;
        ranges.push(SlotRange::new(start, end, node(alloc, host, 7001)?, replicas))?;
    }
    SlotMap::from_slots(alloc, ranges)
}

const SHARDS: &str =
    "[(0, 99), (200, 299)] n1:7001 [NodeAddress { host: \"n2\", port: 7002 }]\n[(100, 199)] n3:7001 [NodeAddress { host: \"n2\", port: 7002 }]\n";

fn has_shards<R: Abort + Print>(
    rt: &R,
    alloc: Global,
    topology: &ClusterTopology,
) -> Result<(), Fail> {
    let text = again(rt, "text of shards", || topology_text(alloc, topology))?;
    assert_eq!(rt; text.as_str(), SHARDS);
    assert!(rt; topology.shard_for_slot(250).is_some());
    assert!(rt; topology.shard_for_slot(300).is_none());
    Ok(())
}

#[test]
fn topology(rt: HostRuntime) -> Result<(), Fail> {
    let alloc = rt.alloc();
    let map = again(&rt, "map", || three_ranges(alloc))?;
    let topology = again(&rt, "topology", || map.topology(alloc))?;
    has_shards(&rt, alloc, &topology)
}

#[test]
fn keys_by_slot(rt: HostRuntime) -> Result<(), Fail> {
    let alloc = rt.alloc();
    let keys: [&[u8]; 3] = [b"a", b"b", b"{a}x"];
    let groups = again(&rt, "group_keys_by_slot", || {
        group_keys_by_slot(alloc, &keys, SlotAddr::Master)
    })?;
    let wanted =
        "[(Route { slot: 15495, slot_addr: Master }, [0, 2]), (Route { slot: 3300, slot_addr: Master }, [1])]";
    assert_eq!(rt; shown(&rt, alloc, &groups)?.as_str(), wanted);
    Ok(())
}

/// The replies in an array that is spelled so.
fn items_of(alloc: Global, bytes: &[u8]) -> Result<Vec<Value>, RedisError> {
    match parse_redis_value(alloc, bytes)? {
        Value::Array(items) => Ok(items),
        _ => Ok(Vec::new(alloc)),
    }
}

fn replies<R: Print>(rt: &R, alloc: Global, bytes: &[u8]) -> Result<Vec<Value>, Fail> {
    again(rt, "replies", || items_of(alloc, bytes))
}

fn lacks_memory<R: Abort>(rt: &R, e: RedisError) {
    assert!(rt; e.kind() == ErrorKind::Memory);
}

fn outcomes(
    alloc: Global,
    values: Vec<Value>,
) -> Result<Vec<(NodeAddress, Result<Value, RedisError>)>, RedisError> {
    let mut outcomes = Vec::new(alloc);
    let mut port = 7001u16;
    for value in values {
        let node = NodeAddress::from_parts(String::from_str(alloc, "n1")?, port);
        outcomes.push((node, Ok(value)))?;
        port = port.wrapping_add(1);
    }
    Ok(outcomes)
}

/// The combining call of this name, and the last for any other name.
fn combined(alloc: Global, name: &str, values: Vec<Value>) -> Result<Value, RedisError> {
    let sum = AggregateOp::Sum;
    let keys = MultiSlotArgPattern::KeysOnly;
    match name {
        "combine_map_results" => combine_map_results(alloc, values),
        "combine_array_results" => combine_array_results(alloc, values),
        "logical_aggregate" => logical_aggregate(alloc, values, LogicalAggregateOp::And),
        "aggregate" => aggregate(values, sum),
        "combine_and_sort_array_results" => {
            combine_and_sort_array_results(alloc, values, &parts(alloc, &[0, 2], &[1])?, keys)
        }
        "combine_parts" => {
            let order = parts(alloc, &[0, 2], &[1])?;
            combine_parts(alloc, values, &order, keys, ResponsePolicy::CombineArrays)
        }
        "combine_nodes" => combine_nodes(alloc, ResponsePolicy::Special, outcomes(alloc, values)?),
        _ => {
            let policy = ResponsePolicy::Aggregate(sum);
            combine_nodes(alloc, policy, outcomes(alloc, values)?)
        }
    }
}

fn combines<R: Abort + Print>(
    rt: &R,
    alloc: Global,
    name: &str,
    bytes: &[u8],
) -> Result<Value, Fail> {
    match combined(alloc, name, replies(rt, alloc, bytes)?) {
        Ok(reply) => Ok(reply),
        Err(e) => {
            println!(rt; "refused {name}")?;
            lacks_memory(rt, e);
            Ok(combined(alloc, name, replies(rt, alloc, bytes)?)?)
        }
    }
}

const COMBINED: [(&str, &[u8], &str); 8] = [
    (
        "combine_map_results",
        b"*2\r\n%2\r\n+b\r\n:1\r\n+a\r\n:2\r\n*4\r\n+c\r\n:3\r\n+a\r\n:4\r\n",
        "Map([(BulkString([97]), Int(6)), (BulkString([98]), Int(1)), (BulkString([99]), Int(3))])",
    ),
    (
        "combine_array_results",
        b"*2\r\n*2\r\n:1\r\n:2\r\n*3\r\n:3\r\n:4\r\n:5\r\n",
        "Array([Int(1), Int(2), Int(3), Int(4), Int(5)])",
    ),
    (
        "logical_aggregate",
        b"*2\r\n*3\r\n:1\r\n:0\r\n:2\r\n*3\r\n:1\r\n:1\r\n:1\r\n",
        "Array([Int(1), Int(0), Int(1)])",
    ),
    ("aggregate", b"*2\r\n:3\r\n:4\r\n", "Int(7)"),
    (
        "combine_and_sort_array_results",
        b"*2\r\n*2\r\n:7\r\n:9\r\n*1\r\n:8\r\n",
        "Array([Int(7), Int(8), Int(9)])",
    ),
    (
        "combine_parts",
        b"*2\r\n*2\r\n:7\r\n:9\r\n*1\r\n:8\r\n",
        "Array([Int(7), Int(8), Int(9)])",
    ),
    (
        "combine_nodes",
        b"*2\r\n:3\r\n_\r\n",
        "Map([(BulkString([110, 49, 58, 55, 48, 48, 49]), Int(3)), (BulkString([110, 49, 58, 55, 48, 48, 50]), Nil)])",
    ),
    ("combine_nodes for a sum", b"*2\r\n:3\r\n:4\r\n", "Int(7)"),
];

#[test]
fn combined_replies(rt: HostRuntime) -> Result<(), Fail> {
    for (name, bytes, wanted) in COMBINED {
        let reply = combines(&rt, rt.alloc(), name, bytes)?;
        assert_eq!(rt; shown(&rt, rt.alloc(), &reply)?.as_str(), wanted);
    }
    Ok(())
}
