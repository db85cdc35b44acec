//! The rows of failing.rt: calls behind a refresh at n1:7001, in phases of one node each, and what has to
//! be told where a read or write of a phase is refused. The node's link is closed then, and what is told
//! is: the answers of the refresh and of the call, whether a refresh is needed, the numbers of picks and
//! of pushes at both nodes, the log; and later the answers of `GET a`, `GET b` and of a refresh at each
//! node, a refusal as its number, below zero in place of a number.

use clients_for_tests::{ALL_AT_N1, HALVES};

/// What is sent to a node and comes from it; nothing is sent where the reply has another phase before.
#[derive(Drop)]
pub(crate) struct Phase {
    pub is_n1: bool,
    pub sends: &'static [u8],
    pub gives: &'static [u8],
    pub told: &'static str,
    pub later: &'static str,
}

/// A row, with what is left at each node behind its call.
#[derive(Drop)]
pub(crate) struct Row {
    pub call: usize,
    pub budget: u16,
    pub phases: &'static [Phase],
    pub left_at_n1: &'static [u8],
    pub left_at_n2: &'static [u8],
    pub told: &'static str,
    pub later: &'static str,
    pub later_without_n1: &'static str,
    pub later_without_n2: &'static str,
}

const SLOTS: &[u8] = b"*2\r\n$7\r\nCLUSTER\r\n$5\r\nSLOTS\r\n";

/// Without a map no node is known.
const REFRESH_OF_HALVES: Phase = Phase {
    is_n1: true,
    sends: SLOTS,
    gives: HALVES,
    told: "14, -7, false 0 0 0",
    later: "-7, -7, 8, 0",
};

const REFRESH_OF_ALL: Phase = Phase {
    is_n1: true,
    sends: SLOTS,
    gives: ALL_AT_N1,
    told: "14, -7, false 0 0 0",
    later: "-7, -7, 8, 0",
};

/// The replies of both nodes to a command that all are asked.
pub(crate) const COUNTED: [Phase; 3] = [
    REFRESH_OF_HALVES,
    Phase {
        is_n1: true,
        sends: b"*1\r\n$6\r\nDBSIZE\r\n",
        gives: b":3\r\n",
        told: "",
        later: "",
    },
    Phase {
        is_n1: false,
        sends: b"*1\r\n$6\r\nDBSIZE\r\n",
        gives: b":4\r\n",
        told: "",
        later: "",
    },
];

/// `GET a` as a transaction, which is moved: nothing of it was done, and it is sent again, whole.
pub(crate) const TRANSACTION: [Phase; 3] = [
    REFRESH_OF_ALL,
    Phase {
        is_n1: true,
        sends: b"*1\r\n$5\r\nMULTI\r\n*2\r\n$3\r\nGET\r\n$1\r\na\r\n*1\r\n$4\r\nEXEC\r\n",
        gives: b"+OK\r\n-MOVED 15495 n2:7002\r\n-EXECABORT Transaction discarded because of previous errors.\r\n",
        told: "",
        later: "",
    },
    Phase {
        is_n1: false,
        sends: b"*1\r\n$5\r\nMULTI\r\n*2\r\n$3\r\nGET\r\n$1\r\na\r\n*1\r\n$4\r\nEXEC\r\n",
        gives: b"+OK\r\n+QUEUED\r\n*1\r\n:4\r\n",
        told: "",
        later: "",
    },
];

/// An addition, a push before its reply.
const ADDITION: [Phase; 3] = [
    REFRESH_OF_HALVES,
    Phase {
        is_n1: false,
        sends: b"*9\r\n$4\r\nXADD\r\n$1\r\na\r\n$10\r\nNOMKSTREAM\r\n$6\r\nMAXLEN\r\n$1\r\n~\r\n$2\r\n10\r\n$1\r\n*\r\n$1\r\nf\r\n$1\r\nv\r\n",
        gives: b">2\r\n$10\r\ninvalidate\r\n*0\r\n",
        told: "0, -14, false 0 0 0, n2 XADD a NOMKSTREAM MAXLEN ~ 10 * f v",
        later: "-8, 6, 0, 8",
    },
    Phase {
        is_n1: false,
        sends: b"",
        gives: b"$3\r\n5-0\r\n",
        told: "0, -14, false 0 0 1, n2 XADD a NOMKSTREAM MAXLEN ~ 10 * f v",
        later: "-8, 6, 0, 8",
    },
];

const READ: &[u8] =
    b"*7\r\n$10\r\nXREADGROUP\r\n$5\r\nGROUP\r\n$1\r\ng\r\n$1\r\nc\r\n$7\r\nSTREAMS\r\n$1\r\na\r\n$1\r\n>\r\n";

/// A read by a group: an entry that was delivered.
const READ_OF_ONE: [Phase; 2] = [
    REFRESH_OF_HALVES,
    Phase {
        is_n1: false,
        sends: READ,
        gives: b"*1\r\n*2\r\n$1\r\na\r\n*1\r\n*4\r\n$3\r\n1-0\r\n*2\r\n$1\r\nf\r\n$1\r\nv\r\n:5\r\n:1\r\n",
        told: "0, -14, false 0 0 0, n2 XREADGROUP GROUP g c STREAMS a >",
        later: "-8, 6, 0, 8",
    },
];

/// The same with a nil for how often it was delivered: two entries.
const READ_OF_TWO: [Phase; 2] = [
    REFRESH_OF_HALVES,
    Phase {
        is_n1: false,
        sends: READ,
        gives: b"*1\r\n*2\r\n$1\r\na\r\n*1\r\n*4\r\n$3\r\n1-0\r\n*2\r\n$1\r\nf\r\n$1\r\nv\r\n:5\r\n$-1\r\n",
        told: "0, -14, false 0 0 0, n2 XREADGROUP GROUP g c STREAMS a >",
        later: "-8, 6, 0, 8",
    },
];

const DELETE_A: &[u8] = b"*2\r\n$3\r\nDEL\r\n$1\r\na\r\n";

const GET_A: &[u8] = b"*2\r\n$3\r\nGET\r\n$1\r\na\r\n";

/// `DEL a b`, of which the first part is moved.
const MOVED: [Phase; 4] = [
    REFRESH_OF_ALL,
    Phase {
        is_n1: true,
        sends: DELETE_A,
        gives: b"-MOVED 15495 n2:7002\r\n",
        told: "0, -14, false 0 0 0, n1 DEL a",
        later: "-8, -8, 8, 0",
    },
    Phase {
        is_n1: false,
        sends: DELETE_A,
        gives: b":1\r\n",
        told: "0, -14, true 0 0 0, n1 DEL a, n2 DEL a",
        later: "1, 6, 0, 8",
    },
    Phase {
        is_n1: true,
        sends: b"*2\r\n$3\r\nDEL\r\n$1\r\nb\r\n",
        gives: b":1\r\n",
        told: "0, -14, true 0 0 0, n1 DEL a, n2 DEL a, n1 DEL b",
        later: "-8, -8, 8, 0",
    },
];

/// `GET a`, which n2:7002 is to be asked for.
const ASKED: [Phase; 3] = [
    REFRESH_OF_ALL,
    Phase {
        is_n1: true,
        sends: GET_A,
        gives: b"-ASK 15495 n2:7002\r\n",
        told: "0, -14, false 0 0 0, n1 GET a",
        later: "-8, -8, 8, 0",
    },
    Phase {
        is_n1: false,
        sends: b"*1\r\n$6\r\nASKING\r\n*2\r\n$3\r\nGET\r\n$1\r\na\r\n",
        gives: b"+OK\r\n$1\r\n1\r\n",
        told: "0, -14, false 0 0 0, n1 GET a, n2 GET a",
        later: "6, 7, 0, 8",
    },
];

/// A pipeline of `SET a 1`, `GET b` ignored and `GET a`; its last command is moved, an error is ignored.
const PIPELINE: [Phase; 3] = [
    REFRESH_OF_HALVES,
    Phase {
        is_n1: false,
        sends: b"*3\r\n$3\r\nSET\r\n$1\r\na\r\n$1\r\n1\r\n*2\r\n$3\r\nGET\r\n$1\r\na\r\n",
        gives: b"+OK\r\n-MOVED 15495 n1:7001\r\n",
        told: "0, -14, false 0 0 0, n2 SET a 1, n2 GET a",
        later: "-8, -13, 0, 8",
    },
    Phase {
        is_n1: true,
        sends: b"*2\r\n$3\r\nGET\r\n$1\r\nb\r\n",
        gives: b"-ERR x\r\n",
        told: "0, -14, true 0 0 0, n2 SET a 1, n2 GET a, n1 GET b",
        later: "5, -8, 8, 0",
    },
];

/// `GET a`, which is moved and has no budget, and a refresh behind it; a refused one leaves the map and
/// what is needed.
const SECOND_REFRESH: [Phase; 3] = [
    Phase {
        is_n1: true,
        sends: SLOTS,
        gives: ALL_AT_N1,
        told: "14, -7 8, false 0 0 0",
        later: "-7, -7, 8, 0",
    },
    Phase {
        is_n1: true,
        sends: GET_A,
        gives: b"-MOVED 15495 n2:7002\r\n",
        told: "0, -14 8, false 0 0 0",
        later: "-8, -8, 8, 0",
    },
    Phase {
        is_n1: true,
        sends: SLOTS,
        gives: b"+OK\r\n",
        told: "0, -13 14, true 0 0 0, n1 CLUSTER SLOTS",
        later: "-8, -8, 8, 0",
    },
];

/// A row over both halves, behind which each node has a number and a map left.
fn over_halves(call: usize, phases: &'static [Phase], told: &'static str) -> Row {
    Row {
        call,
        budget: 1,
        phases,
        left_at_n1: b":6\r\n*0\r\n",
        left_at_n2: b":5\r\n*0\r\n",
        told,
        later: "5, 6, 0, 0",
        later_without_n1: "5, -14, 8, 0",
        later_without_n2: "-14, 6, 0, 8",
    }
}

/// A row with all slots at n1:7001, behind which it has two numbers and a map left.
fn over_all(call: usize, phases: &'static [Phase], told: &'static str) -> Row {
    Row {
        call,
        budget: 1,
        phases,
        left_at_n1: b":6\r\n:7\r\n*0\r\n",
        left_at_n2: b"*0\r\n",
        told,
        later: "6, 7, 0, 0",
        later_without_n1: "-14, -8, 8, 0",
        later_without_n2: "6, 7, 0, 14",
    }
}

const ONE_ENTRY: &str =
    "0, StreamReadReply { keys: [StreamKey { key: \"a\", ids: [StreamId { id: \"1-0\", map: {\"f\": BulkString([118])}, milliseconds_elapsed_from_delivery: Some(5), delivered_count: Some(1) }] }] }, false 0 0 0, n2 XREADGROUP GROUP g c STREAMS a >";

const TWO_ENTRIES: &str =
    "0, StreamReadReply { keys: [StreamKey { key: \"a\", ids: [StreamId { id: \"1-0\", map: {\"f\": BulkString([118])}, milliseconds_elapsed_from_delivery: None, delivered_count: None }, StreamId { id: \"5\", map: {}, milliseconds_elapsed_from_delivery: None, delivered_count: None }] }] }, false 0 0 0, n2 XREADGROUP GROUP g c STREAMS a >";

pub(crate) fn row_at(which: usize) -> Row {
    match which {
        0 => over_halves(
            0,
            &ADDITION,
            "0, Some(\"5-0\"), false 0 0 1, n2 XADD a NOMKSTREAM MAXLEN ~ 10 * f v",
        ),
        1 => over_halves(1, &READ_OF_ONE, ONE_ENTRY),
        2 => over_halves(1, &READ_OF_TWO, TWO_ENTRIES),
        3 => over_all(2, &MOVED, "0, 2, true 0 0 0, n1 DEL a, n2 DEL a, n1 DEL b"),
        4 => over_all(3, &ASKED, "0, 1, false 0 0 0, n1 GET a, n2 GET a"),
        5 => over_halves(
            4,
            &PIPELINE,
            "0, -13, true 0 0 0, n2 SET a 1, n2 GET a, n1 GET b",
        ),
        _ => behind_a_move(),
    }
}

/// The accepted map has no shard.
fn behind_a_move() -> Row {
    Row {
        call: 5,
        budget: 0,
        phases: &SECOND_REFRESH,
        left_at_n1: b"*0\r\n",
        left_at_n2: b"*0\r\n",
        told: "0, -13 0, false 0 0 0, n1 CLUSTER SLOTS",
        later: "-7, -7, 0, 0",
        later_without_n1: "-7, -7, 14, 0",
        later_without_n2: "-7, -7, 0, 14",
    }
}
