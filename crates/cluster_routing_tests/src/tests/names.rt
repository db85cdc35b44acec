//! Every name of the routing table with its route.

use crate::tests::routes::{TO_A, all_go};

const KEY_FIRST: &[&[&str]] = &[
    &["MGET", "a"],
    &["DEL", "a"],
    &["EXISTS", "a"],
    &["UNLINK", "a"],
    &["TOUCH", "a"],
    &["WATCH", "a"],
    &["get", "a"],
    &["SETNX", "a"],
    &["XADD", "a"],
    &["zadd", "a"],
    &["MSET", "a", "b"],
    &["JSON.MGET", "a", "$"],
    &["JSON.MSET", "a", "$", "1"],
    &["XREAD", "x", "Streams", "a"],
    &["XREADGROUP", "x", "Streams", "a"],
];

const COUNTED_KEY: &[&[&str]] = &[
    &["EVAL", "s", "1", "a"],
    &["EVALSHA", "s", "1", "a"],
    &["EVAL_RO", "s", "1", "a"],
    &["EVALSHA_RO", "s", "1", "a"],
    &["FCALL", "s", "1", "a"],
    &["FCALL_RO", "s", "1", "a"],
    &["BLMPOP", "0", "1", "a"],
    &["BZMPOP", "0", "1", "a"],
    &["LMPOP", "1", "a"],
    &["ZMPOP", "1", "a"],
    &["SINTERCARD", "1", "a"],
    &["ZUNION", "1", "a"],
    &["ZINTER", "1", "a"],
    &["ZDIFF", "1", "a"],
    &["ZINTERCARD", "1", "a"],
    &["LMPOP", "+1", "a", "LEFT"],
];

const SCRIPTS_WITHOUT_KEYS: &[&[&str]] = &[
    &["EVAL", "s", "0", "a"],
    &["EVALSHA", "s", "0", "a"],
    &["EVAL_RO", "s", "0", "a"],
    &["EVALSHA_RO", "s", "0", "a"],
    &["FCALL", "s", "0", "a"],
    &["FCALL_RO", "s", "0", "a"],
    &["EVAL", "s", "0"],
];

const NO_COUNTED_KEY: &[&[&str]] = &[
    &["BLMPOP", "0", "0", "a"],
    &["BZMPOP", "0", "0", "a"],
    &["LMPOP", "0", "a"],
    &["ZMPOP", "0", "a"],
    &["SINTERCARD", "0", "a"],
    &["ZUNION", "0", "a"],
    &["ZINTER", "0", "a"],
    &["ZDIFF", "0", "a"],
    &["ZINTERCARD", "0", "a"],
    &["EVAL", "s", "1"],
];

const KEY_AT_TWO: &[&[&str]] = &[
    &["BITOP", "AND", "a"],
    &["XINFO", "STREAM", "a"],
    &["XINFO", "GROUPS", "a"],
    &["XINFO", "CONSUMERS", "a"],
    &["XGROUP", "CREATE", "a"],
    &["XGROUP", "CREATECONSUMER", "a"],
    &["XGROUP", "DELCONSUMER", "a"],
    &["XGROUP", "DESTROY", "a"],
    &["XGROUP", "SETID", "a"],
    &["OBJECT", "ENCODING", "a"],
    &["OBJECT", "FREQ", "a"],
    &["OBJECT", "IDLETIME", "a"],
    &["OBJECT", "REFCOUNT", "a"],
    &["memory", "Usage", "a"],
];

const ANY_NODE: &[&[&str]] = &[
    &["ECHO", "a"],
    &["TIME", "a"],
    &["PUBLISH", "a"],
    &["LASTSAVE", "a"],
];

const NOWHERE: &[&[&str]] = &[
    &["SCAN", "a"],
    &["AUTH", "a"],
    &["HELLO", "a"],
    &["SELECT", "a"],
    &["MULTI", "a"],
    &["EXEC", "a"],
    &["DISCARD", "a"],
    &["SUBSCRIBE", "a"],
    &["PSUBSCRIBE", "a"],
    &["SSUBSCRIBE", "a"],
    &["UNSUBSCRIBE", "a"],
    &["PUNSUBSCRIBE", "a"],
    &["SUNSUBSCRIBE", "a"],
    &["CLUSTER", "a"],
    &["READONLY", "a"],
    &["READWRITE", "a"],
    &["ASKING", "a"],
    &["MONITOR", "a"],
    &["QUIT", "a"],
    &["RESET", "a"],
    &["SHUTDOWN", "a"],
    &["CLIENT", "a"],
    &["MIGRATE", "a"],
];

const FAMILIES: &[&[&str]] = &[
    &["XGROUP"],
    &["XINFO"],
    &["OBJECT"],
    &["MEMORY"],
    &["CONFIG"],
    &["SLOWLOG"],
    &["SCRIPT"],
    &["PUBSUB"],
    &["FUNCTION"],
    &["MODULE"],
    &["COMMAND"],
    &["ACL"],
    &["LATENCY"],
    &["XGROUP", "HELP", "a"],
    &["XINFO", "HELP", "a"],
    &["OBJECT", "HELP", "a"],
    &["MEMORY", "HELP", "a"],
    &["CONFIG", "HELP", "a"],
    &["SLOWLOG", "HELP", "a"],
    &["SCRIPT", "HELP", "a"],
    &["PUBSUB", "HELP", "a"],
    &["FUNCTION", "HELP", "a"],
    &["MODULE", "HELP", "a"],
    &["COMMAND", "HELP", "a"],
    &["ACL", "HELP", "a"],
    &["LATENCY", "HELP", "a"],
];

const BROKEN_TUPLES: &[&[&str]] = &[
    &["MSET", "a"],
    &["JSON.MGET", "a"],
    &["JSON.MSET", "a", "$"],
    &["MGET"],
    &["GET"],
    &[],
];

#[test]
fn names_with_a_key(rt: HostRuntime) {
    let alloc = rt.alloc();
    all_go(&rt, alloc, KEY_FIRST, TO_A);
    all_go(&rt, alloc, COUNTED_KEY, TO_A);
    all_go(&rt, alloc, KEY_AT_TWO, TO_A);
}

#[test]
fn names_of_any_node_and_of_none(rt: HostRuntime) {
    let alloc = rt.alloc();
    all_go(&rt, alloc, SCRIPTS_WITHOUT_KEYS, "Some(SingleNode(Random))");
    all_go(&rt, alloc, ANY_NODE, "Some(SingleNode(Random))");
    all_go(&rt, alloc, NO_COUNTED_KEY, "None");
    all_go(&rt, alloc, NOWHERE, "None");
    all_go(&rt, alloc, FAMILIES, "None");
    all_go(&rt, alloc, BROKEN_TUPLES, "None");
}

// Each command with where it goes.
const SEVERAL_NODES: &[(&[&str], &str)] = &[
    (
        &["FLUSHALL", "a"],
        "Some(MultiNode((AllMasters, Some(AllSucceeded))))",
    ),
    (
        &["FLUSHDB", "a"],
        "Some(MultiNode((AllMasters, Some(AllSucceeded))))",
    ),
    (
        &["PING", "a"],
        "Some(MultiNode((AllMasters, Some(AllSucceeded))))",
    ),
    (
        &["DBSIZE", "a"],
        "Some(MultiNode((AllMasters, Some(Aggregate(Sum)))))",
    ),
    (
        &["KEYS", "a"],
        "Some(MultiNode((AllMasters, Some(CombineArrays))))",
    ),
    (
        &["WAIT", "a"],
        "Some(MultiNode((AllMasters, Some(Aggregate(Min)))))",
    ),
    (
        &["RANDOMKEY", "a"],
        "Some(MultiNode((AllMasters, Some(FirstSucceededNonEmptyOrAllEmpty))))",
    ),
    (
        &["SCRIPT", "EXISTS", "x"],
        "Some(MultiNode((AllMasters, Some(AggregateLogical(And)))))",
    ),
    (
        &["CONFIG", "SET"],
        "Some(MultiNode((AllNodes, Some(AllSucceeded))))",
    ),
    (
        &["config set", "a"],
        "Some(MultiNode((AllNodes, Some(AllSucceeded))))",
    ),
    (
        &["CONFIG", "RESETSTAT"],
        "Some(MultiNode((AllNodes, Some(AllSucceeded))))",
    ),
    (
        &["SLOWLOG", "RESET"],
        "Some(MultiNode((AllNodes, Some(AllSucceeded))))",
    ),
    (
        &["SCRIPT", "FLUSH"],
        "Some(MultiNode((AllNodes, Some(AllSucceeded))))",
    ),
    (
        &["SCRIPT", "LOAD"],
        "Some(MultiNode((AllNodes, Some(AllSucceeded))))",
    ),
    (
        &["SCRIPT", "KILL"],
        "Some(MultiNode((AllNodes, Some(OneSucceeded))))",
    ),
    (
        &["PUBSUB", "NUMSUB"],
        "Some(MultiNode((AllNodes, Some(CombineMaps))))",
    ),
    (&["INFO", "x"], "Some(MultiNode((AllNodes, Some(Special))))"),
];

#[test]
fn names_of_several_nodes(rt: HostRuntime) {
    for (words, wanted) in SEVERAL_NODES {
        all_go(&rt, rt.alloc(), &[*words], wanted);
    }
}
