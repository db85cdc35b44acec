//! The words that the nodes know. Only these go to a node: another one may be no command at all, as `POST`, behind
//! which a node closes the link.
use crate::scan::primaries;
use crate::way::{argument, is_among};
use cluster_client::{
    Cause, ClusterClient, Cmd, ConnectionLike, RedisError, Routable, Value, command,
};
use std::alloc::{AllocError, Global};
use std::cell::RefCell;
use std::rc::Rc;

/// What tells of a word that it concerns the node or the link, and not the keys.
const ASIDE: [&str; 5] = ["admin", "blocking", "pubsub", "no_multi", "asking"];

/// Words of that kind that are served nevertheless, each in its way (`way_of`).
const SERVED: [&str; 23] = [
    "BGREWRITEAOF",
    "BGSAVE",
    "BLMOVE",
    "BLMPOP",
    "BLPOP",
    "BRPOP",
    "BRPOPLPUSH",
    "BZMPOP",
    "BZPOPMAX",
    "BZPOPMIN",
    "CONFIG",
    "DEBUG",
    "LATENCY",
    "MODULE",
    "PFDEBUG",
    "PFSELFTEST",
    "PUBLISH",
    "PUBSUB",
    "SAVE",
    "SLOWLOG",
    "SPUBLISH",
    "XREAD",
    "XREADGROUP",
];

/// Words, by their lengths.
#[derive(Drop)]
pub(crate) struct Words {
    by_length: Vec<Vec<Vec<u8>>>,
}

/// The words of a proxy, which all of its guests see.
pub(crate) type SharedWords = Rc<RefCell<Words>, Global>;

/// The text of a value that is one.
fn text_of(value: &Value) -> Option<&[u8]> {
    match value {
        Value::BulkString(bytes) => Some(bytes),
        Value::SimpleString(text) => Some(text.as_bytes()),
        _ => None,
    }
}

/// Whether one of these flags says that a command concerns the node or the link.
fn is_aside(flags: &Value) -> bool {
    let (Value::Array(flags) | Value::Set(flags)) = flags else {
        return false;
    };
    for flag in flags {
        match text_of(flag) {
            Some(text) if is_among(&ASIDE, text) => return true,
            _ => {}
        }
    }
    false
}

impl Words {
    pub(crate) fn new(alloc: Global) -> Words {
        Words {
            by_length: Vec::new(alloc),
        }
    }

    pub(crate) fn is_empty(&self) -> bool {
        self.by_length.is_empty()
    }

    /// Whether the word is one of them, whatever the case of its letters.
    pub(crate) fn knows(&self, word: &[u8]) -> bool {
        let Some(words) = self.by_length.get(word.len()) else {
            return false;
        };
        for known in words {
            if known.eq_ignore_ascii_case(word) {
                return true;
            }
        }
        false
    }

    fn add(&mut self, alloc: Global, word: &[u8]) -> Result<(), AllocError> {
        if self.knows(word) {
            return Ok(());
        }
        for _ in self.by_length.len()..word.len().saturating_add(1) {
            self.by_length.push(Vec::new(alloc))?;
        }
        let word = Vec::from_slice(alloc, word)?;
        if let Some(words) = self.by_length.get_mut(word.len()) {
            words.push(word)?;
        }
        Ok(())
    }

    /// Takes a word of which COMMAND tells name, count of arguments and flags; none of which it tells nothing.
    fn take(&mut self, alloc: Global, told: &Value) -> Result<(), AllocError> {
        let Value::Array(told) = told else {
            return Ok(());
        };
        let [name, _count, flags, ..] = told.as_slice() else {
            return Ok(());
        };
        match text_of(name) {
            Some(name) if !is_aside(flags) || is_among(&SERVED, name) => self.add(alloc, name),
            _ => Ok(()),
        }
    }

    /// Takes the words of which COMMAND told.
    pub(crate) fn take_all(&mut self, alloc: Global, told: &Value) -> Result<(), AllocError> {
        let Value::Array(told) = told else {
            return Ok(());
        };
        for one in told {
            self.take(alloc, one)?;
        }
        Ok(())
    }
}

/// Whether the word of a command is known.
pub(crate) fn is_known(words: &SharedWords, command: &Cmd) -> bool {
    let Some(word) = command.arg_idx(0) else {
        return false;
    };
    match words.try_borrow() {
        Ok(words) => words.knows(word),
        Err(_) => false,
    }
}

/// Whether nothing was learnt yet.
pub(crate) fn are_none(words: &SharedWords) -> bool {
    match words.try_borrow() {
        Ok(words) => words.is_empty(),
        Err(_) => false,
    }
}

/// What the first primary tells that answers.
fn ask<L: ConnectionLike + Drop>(
    alloc: Global,
    client: &mut ClusterClient<L>,
    command: &Cmd,
) -> Result<Value, RedisError> {
    let mut told = Err(RedisError::from(Cause::NoNode));
    for node in &primaries(alloc, client)? {
        told = client.query_at(alloc, node, command);
        if told.is_ok() {
            break;
        }
    }
    told
}

/// Asks a primary for all words.
pub(crate) fn learn_all<L: ConnectionLike + Drop>(
    alloc: Global,
    client: &mut ClusterClient<L>,
    words: &SharedWords,
) -> Result<(), RedisError> {
    let told = ask(alloc, client, &command::cmd(alloc, "COMMAND")?)?;
    if let Ok(mut words) = words.try_borrow_mut() {
        words.take_all(alloc, &told)?;
    }
    Ok(())
}

/// Asks a primary for the word of a command; whether that is known then.
pub(crate) fn learn_word<L: ConnectionLike + Drop>(
    alloc: Global,
    client: &mut ClusterClient<L>,
    words: &SharedWords,
    unknown: &Cmd,
) -> Result<bool, RedisError> {
    let mut info = command::cmd(alloc, "COMMAND")?;
    info.arg("INFO")?;
    info.arg(argument(unknown, 0))?;
    let told = ask(alloc, client, &info)?;
    if let Ok(mut words) = words.try_borrow_mut() {
        words.take_all(alloc, &told)?;
    }
    Ok(is_known(words, unknown))
}
