//! What is not served of words that are: commands that change what a link or a node is to all who use it.
use crate::way::{Way, argument, argument_count, is_among, is_word};
use cluster_client::{Cmd, Routable};

/// Settings of a node that decide who may connect, how long a link stays, or what the node is in the cluster.
const SETTINGS: [&str; 18] = [
    "acl-pubsub-default",
    "bind",
    "bind-source-addr",
    "client-output-buffer-limit",
    "client-query-buffer-limit",
    "masterauth",
    "masteruser",
    "maxclients",
    "maxmemory-clients",
    "port",
    "proto-max-bulk-len",
    "protected-mode",
    "requirepass",
    "tcp-backlog",
    "tcp-keepalive",
    "timeout",
    "unixsocket",
    "unixsocketperm",
];

/// What other such settings begin with.
const FAMILIES: [&str; 7] = [
    "cluster-",
    "min-replicas-",
    "min-slaves-",
    "repl-",
    "replica-",
    "slave-",
    "tls-",
];

fn begins_with(name: &[u8], start: &[u8]) -> bool {
    match name.get(..start.len()) {
        Some(begin) => begin.eq_ignore_ascii_case(start),
        None => false,
    }
}

fn is_guarded_setting(name: &[u8]) -> bool {
    for start in &FAMILIES {
        if begins_with(name, start.as_bytes()) {
            return true;
        }
    }
    is_among(&SETTINGS, name)
}

/// Whether one of the settings that CONFIG SET names is guarded; names and values stand behind one another.
fn sets_guarded(command: &Cmd) -> bool {
    for place in 2..argument_count(command) {
        if place % 2 == 0 && is_guarded_setting(argument(command, place)) {
            return true;
        }
    }
    false
}

/// Whether a command changes what a link or a node is to its other users.
pub(crate) fn is_guarded(command: &Cmd) -> bool {
    let Some(word) = command.arg_idx(0) else {
        return false;
    };
    let name = argument(command, 1);
    match word.len() {
        6 if word.eq_ignore_ascii_case(b"SCRIPT") => is_among(&["DEBUG"], name),
        6 if word.eq_ignore_ascii_case(b"MODULE") => is_among(&["LOAD", "LOADEX", "UNLOAD"], name),
        6 if word.eq_ignore_ascii_case(b"CONFIG") => {
            is_among(&["SET"], name) && sets_guarded(command)
        }
        _ => false,
    }
}

/// DEBUG of a key goes to the key's node, and what asks for all keys, or changes how they are kept, to all primaries.
/// Any other may stop a node or change what it is, and is not served; nor is the one that sends a push.
pub(crate) fn way_of_debug(command: &Cmd) -> Way {
    let of_key = [
        "OBJECT",
        "LISTPACK",
        "ZIPLIST",
        "QUICKLIST",
        "HTSTATS-KEY",
        "DIGEST-VALUE",
    ];
    let of_all = [
        "DIGEST",
        "HELP",
        "HTSTATS",
        "LOADAOF",
        "PROTOCOL",
        "QUICKLIST-PACKED-THRESHOLD",
        "RELOAD",
        "SET-ACTIVE-EXPIRE",
    ];
    let name = argument(command, 1);
    if is_among(&of_key, name) {
        Way::ThirdWord
    } else if is_among(&of_all, name) && !is_word(command, 2, b"PUSH") {
        Way::Primaries
    } else {
        Way::Refused
    }
}
