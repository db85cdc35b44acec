//! The routing table.

ghost use Rattle.std.specs.Prelude.{◌≡◌};
ghost use Rattle.std.specs.Str.{str_eq_ignore_ascii_case};
ghost use Rattle.cluster_routing.specs.Command.{is_one_of};
ghost use Rattle.cluster_routing.specs.Table.{families, other_rule, rule_of};
ghost use Rattle.cluster_routing.specs.Rows.{names_of, shown_rule, IsRuleAmong, NamesServe, RowsServe};

use crate::policy::{AggregateOp, LogicalAggregateOp, MultiSlotArgPattern, ResponsePolicy};

/// Where a command of a name goes; places count the word as 0.
#[derive(Clone, Copy)]
pub(crate) enum Rule {
    /// To the slots of the keys in its tuples.
    Split(MultiSlotArgPattern, ResponsePolicy),
    /// To the key behind the first argument STREAMS.
    KeyAfterStreams,
    /// To the key behind the number at this place; at number 0 to any node.
    CountedKeyOrRandom(u8),
    /// The same; at number 0 nowhere.
    CountedKey(u8),
    /// To the key at this place.
    Key(u8),
    /// To any node.
    Random,
    /// To all primaries.
    AllMasters(ResponsePolicy),
    /// To all nodes.
    AllNodes(ResponsePolicy),
    /// To no node.
    Nowhere,
}

struct Row {
    names: &'static [&'static str],
    rule: Rule,
}

/// The rows of the table. (Redis command documentation.)
///
/// A name that no row lists has its key at place 1, but for the other names of a family, which go
/// nowhere. That is this project's own rule, not the Redis documentation's: some commands that no
/// row lists have no key there. So `SWAPDB 0 1` goes to the slot of the key `0`.
const ROWS: [Row; 23] = [
    Row {
        names: &["MGET"],
        rule: Rule::Split(MultiSlotArgPattern::KeysOnly, ResponsePolicy::CombineArrays),
    },
    Row {
        names: &["DEL", "EXISTS", "UNLINK", "TOUCH"],
        rule: Rule::Split(
            MultiSlotArgPattern::KeysOnly,
            ResponsePolicy::Aggregate(AggregateOp::Sum),
        ),
    },
    Row {
        names: &["WATCH"],
        rule: Rule::Split(MultiSlotArgPattern::KeysOnly, ResponsePolicy::AllSucceeded),
    },
    Row {
        names: &["MSET"],
        rule: Rule::Split(
            MultiSlotArgPattern::KeyValuePairs,
            ResponsePolicy::AllSucceeded,
        ),
    },
    Row {
        names: &["JSON.MGET"],
        rule: Rule::Split(
            MultiSlotArgPattern::KeysAndLastArg,
            ResponsePolicy::CombineArrays,
        ),
    },
    Row {
        names: &["JSON.MSET"],
        rule: Rule::Split(
            MultiSlotArgPattern::KeyWithTwoArgTriples,
            ResponsePolicy::AllSucceeded,
        ),
    },
    Row {
        names: &["XREAD", "XREADGROUP"],
        rule: Rule::KeyAfterStreams,
    },
    Row {
        names: &[
            "EVAL",
            "EVALSHA",
            "EVAL_RO",
            "EVALSHA_RO",
            "FCALL",
            "FCALL_RO",
        ],
        rule: Rule::CountedKeyOrRandom(2),
    },
    Row {
        names: &["BLMPOP", "BZMPOP"],
        rule: Rule::CountedKey(2),
    },
    Row {
        names: &[
            "LMPOP",
            "ZMPOP",
            "SINTERCARD",
            "ZUNION",
            "ZINTER",
            "ZDIFF",
            "ZINTERCARD",
        ],
        rule: Rule::CountedKey(1),
    },
    Row {
        names: &[
            "BITOP",
            "XINFO STREAM",
            "XINFO GROUPS",
            "XINFO CONSUMERS",
            "XGROUP CREATE",
            "XGROUP CREATECONSUMER",
            "XGROUP DELCONSUMER",
            "XGROUP DESTROY",
            "XGROUP SETID",
            "OBJECT ENCODING",
            "OBJECT FREQ",
            "OBJECT IDLETIME",
            "OBJECT REFCOUNT",
            "MEMORY USAGE",
        ],
        rule: Rule::Key(2),
    },
    Row {
        names: &["ECHO", "TIME", "PUBLISH", "LASTSAVE"],
        rule: Rule::Random,
    },
    Row {
        names: &["FLUSHALL", "FLUSHDB", "PING"],
        rule: Rule::AllMasters(ResponsePolicy::AllSucceeded),
    },
    Row {
        names: &["DBSIZE"],
        rule: Rule::AllMasters(ResponsePolicy::Aggregate(AggregateOp::Sum)),
    },
    Row {
        names: &["KEYS"],
        rule: Rule::AllMasters(ResponsePolicy::CombineArrays),
    },
    Row {
        names: &["WAIT"],
        rule: Rule::AllMasters(ResponsePolicy::Aggregate(AggregateOp::Min)),
    },
    Row {
        names: &["SCRIPT EXISTS"],
        rule: Rule::AllMasters(ResponsePolicy::AggregateLogical(LogicalAggregateOp::And)),
    },
    Row {
        names: &["RANDOMKEY"],
        rule: Rule::AllMasters(ResponsePolicy::FirstSucceededNonEmptyOrAllEmpty),
    },
    Row {
        names: &[
            "CONFIG SET",
            "CONFIG RESETSTAT",
            "SLOWLOG RESET",
            "SCRIPT FLUSH",
            "SCRIPT LOAD",
        ],
        rule: Rule::AllNodes(ResponsePolicy::AllSucceeded),
    },
    Row {
        names: &["SCRIPT KILL"],
        rule: Rule::AllNodes(ResponsePolicy::OneSucceeded),
    },
    Row {
        names: &["PUBSUB NUMSUB"],
        rule: Rule::AllNodes(ResponsePolicy::CombineMaps),
    },
    Row {
        names: &["INFO"],
        rule: Rule::AllNodes(ResponsePolicy::Special),
    },
    Row {
        names: &[
            "SCAN",
            "AUTH",
            "HELLO",
            "SELECT",
            "MULTI",
            "EXEC",
            "DISCARD",
            "SUBSCRIBE",
            "PSUBSCRIBE",
            "SSUBSCRIBE",
            "UNSUBSCRIBE",
            "PUNSUBSCRIBE",
            "SUNSUBSCRIBE",
            "CLUSTER",
            "READONLY",
            "READWRITE",
            "ASKING",
            "MONITOR",
            "QUIT",
            "RESET",
            "SHUTDOWN",
            "CLIENT",
            "MIGRATE",
        ],
        rule: Rule::Nowhere,
    },
];

/// Words whose name has the second argument too.
const FAMILIES: [&str; 13] = [
    "XGROUP", "XINFO", "OBJECT", "MEMORY", "CONFIG", "SLOWLOG", "SCRIPT", "PUBSUB", "FUNCTION",
    "MODULE", "COMMAND", "ACL", "LATENCY",
];

/// The rows, of their names those of 3 bytes.
const ROWS_3: [Row; 1] = [Row {
    names: &["DEL"],
    rule: Rule::Split(
        MultiSlotArgPattern::KeysOnly,
        ResponsePolicy::Aggregate(AggregateOp::Sum),
    ),
}];

/// The rows, of their names those of 4 bytes.
const ROWS_4: [Row; 9] = [
    Row {
        names: &["MGET"],
        rule: Rule::Split(MultiSlotArgPattern::KeysOnly, ResponsePolicy::CombineArrays),
    },
    Row {
        names: &["MSET"],
        rule: Rule::Split(
            MultiSlotArgPattern::KeyValuePairs,
            ResponsePolicy::AllSucceeded,
        ),
    },
    Row {
        names: &["EVAL"],
        rule: Rule::CountedKeyOrRandom(2),
    },
    Row {
        names: &["ECHO", "TIME"],
        rule: Rule::Random,
    },
    Row {
        names: &["PING"],
        rule: Rule::AllMasters(ResponsePolicy::AllSucceeded),
    },
    Row {
        names: &["KEYS"],
        rule: Rule::AllMasters(ResponsePolicy::CombineArrays),
    },
    Row {
        names: &["WAIT"],
        rule: Rule::AllMasters(ResponsePolicy::Aggregate(AggregateOp::Min)),
    },
    Row {
        names: &["INFO"],
        rule: Rule::AllNodes(ResponsePolicy::Special),
    },
    Row {
        names: &["SCAN", "AUTH", "EXEC", "QUIT"],
        rule: Rule::Nowhere,
    },
];

/// The rows, of their names those of 5 bytes.
const ROWS_5: [Row; 7] = [
    Row {
        names: &["TOUCH"],
        rule: Rule::Split(
            MultiSlotArgPattern::KeysOnly,
            ResponsePolicy::Aggregate(AggregateOp::Sum),
        ),
    },
    Row {
        names: &["WATCH"],
        rule: Rule::Split(MultiSlotArgPattern::KeysOnly, ResponsePolicy::AllSucceeded),
    },
    Row {
        names: &["XREAD"],
        rule: Rule::KeyAfterStreams,
    },
    Row {
        names: &["FCALL"],
        rule: Rule::CountedKeyOrRandom(2),
    },
    Row {
        names: &["LMPOP", "ZMPOP", "ZDIFF"],
        rule: Rule::CountedKey(1),
    },
    Row {
        names: &["BITOP"],
        rule: Rule::Key(2),
    },
    Row {
        names: &["HELLO", "MULTI", "RESET"],
        rule: Rule::Nowhere,
    },
];

/// The rows, of their names those of 6 bytes.
const ROWS_6: [Row; 5] = [
    Row {
        names: &["EXISTS", "UNLINK"],
        rule: Rule::Split(
            MultiSlotArgPattern::KeysOnly,
            ResponsePolicy::Aggregate(AggregateOp::Sum),
        ),
    },
    Row {
        names: &["BLMPOP", "BZMPOP"],
        rule: Rule::CountedKey(2),
    },
    Row {
        names: &["ZUNION", "ZINTER"],
        rule: Rule::CountedKey(1),
    },
    Row {
        names: &["DBSIZE"],
        rule: Rule::AllMasters(ResponsePolicy::Aggregate(AggregateOp::Sum)),
    },
    Row {
        names: &["SELECT", "ASKING", "CLIENT"],
        rule: Rule::Nowhere,
    },
];

/// The rows, of their names those of 7 bytes.
const ROWS_7: [Row; 4] = [
    Row {
        names: &["EVALSHA", "EVAL_RO"],
        rule: Rule::CountedKeyOrRandom(2),
    },
    Row {
        names: &["PUBLISH"],
        rule: Rule::Random,
    },
    Row {
        names: &["FLUSHDB"],
        rule: Rule::AllMasters(ResponsePolicy::AllSucceeded),
    },
    Row {
        names: &["DISCARD", "CLUSTER", "MONITOR", "MIGRATE"],
        rule: Rule::Nowhere,
    },
];

/// The rows, of their names those of 8 bytes.
const ROWS_8: [Row; 4] = [
    Row {
        names: &["FCALL_RO"],
        rule: Rule::CountedKeyOrRandom(2),
    },
    Row {
        names: &["LASTSAVE"],
        rule: Rule::Random,
    },
    Row {
        names: &["FLUSHALL"],
        rule: Rule::AllMasters(ResponsePolicy::AllSucceeded),
    },
    Row {
        names: &["READONLY", "SHUTDOWN"],
        rule: Rule::Nowhere,
    },
];

/// The rows, of their names those of 9 bytes.
const ROWS_9: [Row; 4] = [
    Row {
        names: &["JSON.MGET"],
        rule: Rule::Split(
            MultiSlotArgPattern::KeysAndLastArg,
            ResponsePolicy::CombineArrays,
        ),
    },
    Row {
        names: &["JSON.MSET"],
        rule: Rule::Split(
            MultiSlotArgPattern::KeyWithTwoArgTriples,
            ResponsePolicy::AllSucceeded,
        ),
    },
    Row {
        names: &["RANDOMKEY"],
        rule: Rule::AllMasters(ResponsePolicy::FirstSucceededNonEmptyOrAllEmpty),
    },
    Row {
        names: &["SUBSCRIBE", "READWRITE"],
        rule: Rule::Nowhere,
    },
];

/// The rows, of their names those of 10 bytes.
const ROWS_10: [Row; 5] = [
    Row {
        names: &["XREADGROUP"],
        rule: Rule::KeyAfterStreams,
    },
    Row {
        names: &["EVALSHA_RO"],
        rule: Rule::CountedKeyOrRandom(2),
    },
    Row {
        names: &["SINTERCARD", "ZINTERCARD"],
        rule: Rule::CountedKey(1),
    },
    Row {
        names: &["CONFIG SET"],
        rule: Rule::AllNodes(ResponsePolicy::AllSucceeded),
    },
    Row {
        names: &["PSUBSCRIBE", "SSUBSCRIBE"],
        rule: Rule::Nowhere,
    },
];

/// The rows, of their names those of 11 bytes.
const ROWS_11: [Row; 4] = [
    Row {
        names: &["OBJECT FREQ"],
        rule: Rule::Key(2),
    },
    Row {
        names: &["SCRIPT LOAD"],
        rule: Rule::AllNodes(ResponsePolicy::AllSucceeded),
    },
    Row {
        names: &["SCRIPT KILL"],
        rule: Rule::AllNodes(ResponsePolicy::OneSucceeded),
    },
    Row {
        names: &["UNSUBSCRIBE"],
        rule: Rule::Nowhere,
    },
];

/// The rows, of their names those of 12 bytes.
const ROWS_12: [Row; 3] = [
    Row {
        names: &[
            "XINFO STREAM",
            "XINFO GROUPS",
            "XGROUP SETID",
            "MEMORY USAGE",
        ],
        rule: Rule::Key(2),
    },
    Row {
        names: &["SCRIPT FLUSH"],
        rule: Rule::AllNodes(ResponsePolicy::AllSucceeded),
    },
    Row {
        names: &["PUNSUBSCRIBE", "SUNSUBSCRIBE"],
        rule: Rule::Nowhere,
    },
];

/// The rows, of their names those of 13 bytes.
const ROWS_13: [Row; 4] = [
    Row {
        names: &["XGROUP CREATE"],
        rule: Rule::Key(2),
    },
    Row {
        names: &["SCRIPT EXISTS"],
        rule: Rule::AllMasters(ResponsePolicy::AggregateLogical(LogicalAggregateOp::And)),
    },
    Row {
        names: &["SLOWLOG RESET"],
        rule: Rule::AllNodes(ResponsePolicy::AllSucceeded),
    },
    Row {
        names: &["PUBSUB NUMSUB"],
        rule: Rule::AllNodes(ResponsePolicy::CombineMaps),
    },
];

/// The rows, of their names those of 14 bytes.
const ROWS_14: [Row; 1] = [Row {
    names: &["XGROUP DESTROY"],
    rule: Rule::Key(2),
}];

/// The rows, of their names those of 15 bytes.
const ROWS_15: [Row; 1] = [Row {
    names: &[
        "XINFO CONSUMERS",
        "OBJECT ENCODING",
        "OBJECT IDLETIME",
        "OBJECT REFCOUNT",
    ],
    rule: Rule::Key(2),
}];

/// The rows, of their names those of 16 bytes.
const ROWS_16: [Row; 1] = [Row {
    names: &["CONFIG RESETSTAT"],
    rule: Rule::AllNodes(ResponsePolicy::AllSucceeded),
}];

/// The rows, of their names those of 18 bytes.
const ROWS_18: [Row; 1] = [Row {
    names: &["XGROUP DELCONSUMER"],
    rule: Rule::Key(2),
}];

/// The rows, of their names those of 21 bytes.
const ROWS_21: [Row; 1] = [Row {
    names: &["XGROUP CREATECONSUMER"],
    rule: Rule::Key(2),
}];

/// Rows in which a name of this length has the rule that it has in the table.
///
/// A length without a list of its own takes the whole table.
fn rows_of_length(length: usize) -> &'static [Row]
    ensures { RowsServe length result.now }
{
    match length {
        3 => &ROWS_3,
        4 => &ROWS_4,
        5 => &ROWS_5,
        6 => &ROWS_6,
        7 => &ROWS_7,
        8 => &ROWS_8,
        9 => &ROWS_9,
        10 => &ROWS_10,
        11 => &ROWS_11,
        12 => &ROWS_12,
        13 => &ROWS_13,
        14 => &ROWS_14,
        15 => &ROWS_15,
        16 => &ROWS_16,
        18 => &ROWS_18,
        21 => &ROWS_21,
        _ => &ROWS,
    }
}

/// Of the families those of 3 bytes.
const FAMILIES_3: [&str; 1] = ["ACL"];

/// Of the families those of 5 bytes.
const FAMILIES_5: [&str; 1] = ["XINFO"];

/// Of the families those of 6 bytes.
const FAMILIES_6: [&str; 7] = [
    "XGROUP", "OBJECT", "MEMORY", "CONFIG", "SCRIPT", "PUBSUB", "MODULE",
];

/// Of the families those of 7 bytes.
const FAMILIES_7: [&str; 3] = ["SLOWLOG", "COMMAND", "LATENCY"];

/// Of the families those of 8 bytes.
const FAMILIES_8: [&str; 1] = ["FUNCTION"];

/// Words among which a word of this length is just where it is a family.
fn families_of_length(length: usize) -> &'static [&'static str]
    ensures { NamesServe length families (names_of result.now) }
{
    match length {
        3 => &FAMILIES_3,
        5 => &FAMILIES_5,
        6 => &FAMILIES_6,
        7 => &FAMILIES_7,
        8 => &FAMILIES_8,
        _ => &FAMILIES,
    }
}

/// Whether the name of a command with this word has the second argument too.
pub(crate) fn is_family(word: &[u8]) -> bool
    ensures { result ≡ is_one_of families word.now }
{
    is_listed(families_of_length(word.len()), word)
}

/// Whether a name is listed, whatever its case.
fn is_listed(names: &[&str], name: &[u8]) -> bool
    ensures { result ≡ is_one_of (names_of names.now) name.now }
{
    for listed in names {
        if is_same_word(listed.as_bytes(), name) {
            return true;
        }
    }
    false
}

/// Whether two words differ in the case of ASCII letters at most.
pub(crate) fn is_same_word(word: &[u8], text: &[u8]) -> bool
    ensures { result ≡ str_eq_ignore_ascii_case word.now text.now }
{
    word.eq_ignore_ascii_case(text)
}

/// The rule of the first row that lists a name.
fn rule_among(rows: &[Row], name: &[u8], other: Rule) -> Rule
    ensures { IsRuleAmong rows.now name.now other result }
{
    for row in rows {
        if is_listed(row.names, name) {
            return row.rule;
        }
    }
    other
}

/// The rule for a name, whatever its case.
pub(crate) fn rule_for(name: &[u8], family: bool) -> Rule
    ensures { shown_rule result ≡ rule_of name.now family }
{
    rule_among(rows_of_length(name.len()), name, other_rule(family))
}

/// The rule for a name that is not listed.
fn other_rule(family: bool) -> Rule
    ensures { shown_rule result ≡ other_rule family }
{
    if family { Rule::Nowhere } else { Rule::Key(1) }
}
