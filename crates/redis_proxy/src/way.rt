//! Which way a command goes.
use crate::block::waits;
use crate::guarded::{is_guarded, way_of_debug};
use cluster_client::{Cmd, Direction, Routable};

/// How a command is answered.
#[derive(Clone, Copy, Debug, PartialEq, Eq)]
pub(crate) enum Way {
    /// As the routing table says, which was not asked yet.
    ByTable,
    /// By the nodes of its keys' slots, with what waits of other guests.
    Keyed,
    /// By all nodes or all primaries, behind all that the guest asked before.
    Several,
    /// By the first primary.
    FirstNode,
    /// By one primary after another, until one has something; another one begins each time.
    InTurn,
    /// By all primaries, of which the last one is told.
    Primaries,
    /// By one primary after another, as its cursor says.
    Scan,
    /// By the primary of the key that is its third word.
    ThirdWord,
    /// By the nodes of its keys' slot, once there is something to take.
    Wait,
    /// By the end of another guest's wait.
    Unblock,
    /// As the routing table says, once a node knows its word.
    NewWord,
    /// By the proxy.
    Own(Own),
    /// It is not served.
    Refused,
}

/// What the proxy answers itself.
#[derive(Clone, Copy, Debug, PartialEq, Eq)]
pub(crate) enum Own {
    Ping,
    Echo,
    Select,
    Hello,
    Client,
    Quit,
    Reset,
    Multi,
    Exec,
    Discard,
    /// A word of HTTP, which ends the guest.
    Http,
}

const OF_3: [(&str, Way); 1] = [("ACL", Way::Refused)];

const OF_4: [(&str, Way); 12] = [
    ("POST", Way::Own(Own::Http)),
    ("PING", Way::Own(Own::Ping)),
    ("ECHO", Way::Own(Own::Echo)),
    ("QUIT", Way::Own(Own::Quit)),
    ("EXEC", Way::Own(Own::Exec)),
    ("SCAN", Way::Scan),
    ("INFO", Way::FirstNode),
    ("TIME", Way::FirstNode),
    ("WAIT", Way::Refused),
    ("MOVE", Way::Refused),
    ("AUTH", Way::Refused),
    ("SYNC", Way::Refused),
];

const OF_5: [(&str, Way); 6] = [
    ("HOST:", Way::Own(Own::Http)),
    ("HELLO", Way::Own(Own::Hello)),
    ("RESET", Way::Own(Own::Reset)),
    ("MULTI", Way::Own(Own::Multi)),
    ("WATCH", Way::Refused),
    ("PSYNC", Way::Refused),
];

const OF_6: [(&str, Way); 4] = [
    ("SELECT", Way::Own(Own::Select)),
    ("CLIENT", Way::Own(Own::Client)),
    ("ASKING", Way::Refused),
    ("SWAPDB", Way::Refused),
];

const OF_7: [(&str, Way); 8] = [
    ("DISCARD", Way::Own(Own::Discard)),
    ("COMMAND", Way::FirstNode),
    ("UNWATCH", Way::Refused),
    ("MONITOR", Way::Refused),
    ("WAITAOF", Way::Refused),
    ("MIGRATE", Way::Refused),
    ("CLUSTER", Way::Refused),
    ("SLAVEOF", Way::Refused),
];

const OF_8: [(&str, Way); 4] = [
    ("SHUTDOWN", Way::Refused),
    ("READONLY", Way::Refused),
    ("REPLCONF", Way::Refused),
    ("FAILOVER", Way::Refused),
];

const OF_9: [(&str, Way); 4] = [
    ("RANDOMKEY", Way::InTurn),
    ("SUBSCRIBE", Way::Refused),
    ("READWRITE", Way::Refused),
    ("REPLICAOF", Way::Refused),
];

const OF_10: [(&str, Way); 2] = [("PSUBSCRIBE", Way::Refused), ("SSUBSCRIBE", Way::Refused)];

const OF_11: [(&str, Way); 1] = [("UNSUBSCRIBE", Way::Refused)];

const OF_12: [(&str, Way); 2] = [
    ("PUNSUBSCRIBE", Way::Refused),
    ("SUNSUBSCRIBE", Way::Refused),
];

const OF_14: [(&str, Way); 1] = [("RESTORE-ASKING", Way::Refused)];

/// The words that the routing table does not decide, by their lengths.
const WORDS: [&[(&str, Way)]; 15] = [
    &[],
    &[],
    &[],
    &OF_3,
    &OF_4,
    &OF_5,
    &OF_6,
    &OF_7,
    &OF_8,
    &OF_9,
    &OF_10,
    &OF_11,
    &OF_12,
    &[],
    &OF_14,
];

/// How a command is answered.
pub(crate) fn way_of(command: &Cmd) -> Way {
    let Some(word) = command.arg_idx(0) else {
        return Way::Refused;
    };
    if word.eq_ignore_ascii_case(b"CLIENT") && is_word(command, 1, b"UNBLOCK") {
        return Way::Unblock;
    }
    if let Some(words) = WORDS.get(word.len()) {
        for (name, way) in *words {
            if name.as_bytes().eq_ignore_ascii_case(word) {
                return *way;
            }
        }
    }
    if is_guarded(command) {
        return Way::Refused;
    }
    if waits(command) {
        return Way::Wait;
    }
    if word.eq_ignore_ascii_case(b"DEBUG") {
        return way_of_debug(command);
    }
    if word.eq_ignore_ascii_case(b"FUNCTION") {
        return way_of_function(command);
    }
    Way::ByTable
}

/// How a command is answered that is named nowhere here: as the routing table says.
pub(crate) fn way_by_table(direction: &Direction) -> Way {
    match direction {
        Direction::Slot(_) | Direction::Parts(_) => Way::Keyed,
        Direction::AllNodes(_) | Direction::AllPrimaries(_) => Way::Several,
        Direction::AnyNode | Direction::Nowhere(_) => Way::FirstNode,
    }
}

/// What changes the libraries of functions goes to all primaries, which have the same ones; what asks for them,
/// to one.
fn way_of_function(command: &Cmd) -> Way {
    if is_among(
        &["LOAD", "DELETE", "FLUSH", "RESTORE"],
        argument(command, 1),
    ) {
        Way::Primaries
    } else {
        Way::FirstNode
    }
}

impl Way {
    /// Whether the command goes to a node as its guest wrote it, so that a node is to know its word.
    pub(crate) fn needs_word(self) -> bool {
        !matches!(
            self,
            Way::Wait | Way::Unblock | Way::NewWord | Way::Own(_) | Way::Refused
        )
    }
}

/// Whether a word is one of these, whatever the case of its letters.
pub(crate) fn is_among(names: &[&str], word: &[u8]) -> bool {
    for name in names {
        if name.as_bytes().eq_ignore_ascii_case(word) {
            return true;
        }
    }
    false
}

/// How many arguments a command has, with its word.
pub(crate) fn argument_count(command: &Cmd) -> usize {
    let mut count = 0usize;
    for _ in command.args_iter() {
        count = count.saturating_add(1);
    }
    count
}

/// The argument at a place; nothing where there is none.
pub(crate) fn argument(command: &Cmd, place: usize) -> &[u8] {
    match command.arg_idx(place) {
        Some(bytes) => bytes,
        None => &[],
    }
}

/// Whether the argument at a place is this word, whatever the case of its letters.
pub(crate) fn is_word(command: &Cmd, place: usize, word: &[u8]) -> bool {
    match command.arg_idx(place) {
        Some(argument) => argument.eq_ignore_ascii_case(word),
        None => false,
    }
}
