//! Commands that are asked by themselves.
use crate::ask::{Ask, How};
use crate::info::{is_saving, with_waiting};
use crate::own::{line, refuse, unknown};
use crate::scan::{primaries, scan};
use crate::way::{Way, argument, is_word, way_by_table, way_of};
use crate::words::{SharedWords, learn_word};
use anyhow::Result;
use cluster_client::command::cmd;
use cluster_client::{Cause, ClusterClient, Cmd, ConnectionLike, NodeAddress, RedisError, Value};
use cluster_routing::Slot;
use cluster_servers::Reply;
use proxy_core::{Fate, Outcome};
use resp_core::WriteError;
use std::alloc::Global;

/// What is known of the proxy where a command is asked by itself.
#[derive(Clone, Copy)]
pub(crate) struct Around<'a> {
    /// How many guests wait.
    pub(crate) waiting: usize,
    /// How many commands were asked by themselves before.
    pub(crate) number: usize,
    /// The words that the nodes know.
    pub(crate) words: &'a SharedWords,
}

/// Asks a node, and where it names another one by MOVED, that one.
fn ask_at<L: ConnectionLike + Drop>(
    alloc: Global,
    client: &mut ClusterClient<L>,
    node: &NodeAddress,
    command: &Cmd,
) -> Result<Value, RedisError> {
    let told: Result<Value, RedisError> = client.query_at(alloc, node, command);
    let moved = match &told {
        Err(error) => match (error.code(), error.redirect_node()) {
            (Some("MOVED"), Some((node, _))) => NodeAddress::try_from(alloc, node)?,
            _ => return told,
        },
        Ok(_) => return told,
    };
    client.query_at(alloc, &moved, command)
}

/// Asks the first primary to which a link leads.
pub(crate) fn ask_first<L: ConnectionLike + Drop>(
    alloc: Global,
    client: &mut ClusterClient<L>,
    command: &Cmd,
) -> Result<Value, RedisError> {
    let mut told = Err(RedisError::from(Cause::NoNode));
    for node in &primaries(alloc, client)? {
        told = ask_at(alloc, client, node, command);
        match &told {
            Err(error) if error.cause() == Some(Cause::NoLink) => {}
            _ => break,
        }
    }
    told
}

/// Asks for INFO: the first primary that is saving, so that who waits for an end waits for that of all, or else the
/// first.
fn ask_info<L: ConnectionLike + Drop>(
    alloc: Global,
    client: &mut ClusterClient<L>,
    command: &Cmd,
) -> Result<Value, RedisError> {
    let mut told = Err(RedisError::from(Cause::NoNode));
    for (number, node) in primaries(alloc, client)?.iter().enumerate() {
        let next: Result<Value, RedisError> = ask_at(alloc, client, node, command);
        let saves = match &next {
            Ok(value) => is_saving(value),
            Err(_) => false,
        };
        if saves {
            return next;
        }
        if number == 0 || told.is_err() {
            told = next;
        }
    }
    told
}

/// Whether a command would end a primary: one that loads its file of commands where it has none.
fn ends_primary<L: ConnectionLike + Drop>(
    alloc: Global,
    client: &mut ClusterClient<L>,
    command: &Cmd,
) -> Result<bool, RedisError> {
    if !is_word(command, 1, b"LOADAOF") {
        return Ok(false);
    }
    let mut config = cmd(alloc, "CONFIG")?;
    config.arg("GET")?;
    config.arg("appendonly")?;
    for node in &primaries(alloc, client)? {
        let told: Vec<String> = client.query_at(alloc, node, &config)?;
        match told.get(1) {
            Some(text) if text.as_str() == "yes" => {}
            _ => return Ok(true),
        }
    }
    Ok(false)
}

/// Asks all primaries, one after the other: the answer is the first error, or what the last one told.
fn ask_primaries<L: ConnectionLike + Drop>(
    alloc: Global,
    client: &mut ClusterClient<L>,
    command: &Cmd,
) -> Result<Value, RedisError> {
    let mut told = Err(RedisError::from(Cause::NoNode));
    for node in &primaries(alloc, client)? {
        told = Ok(client.query_at(alloc, node, command)?);
    }
    told
}

/// Asks one primary after another, from that of a number on, until one answers something else than nil.
fn ask_in_turn<L: ConnectionLike + Drop>(
    alloc: Global,
    client: &mut ClusterClient<L>,
    number: usize,
    command: &Cmd,
) -> Result<Value, RedisError> {
    let nodes = primaries(alloc, client)?;
    let first = match number.checked_rem(nodes.len()) {
        Some(first) => first,
        None => return Err(RedisError::from(Cause::NoNode)),
    };
    for node in nodes.iter().skip(first).chain(nodes.iter().take(first)) {
        match client.query_at(alloc, node, command)? {
            Value::Nil => {}
            told => return Ok(told),
        }
    }
    Ok(Value::Nil)
}

/// Asks the primary of a key.
fn ask_of_key<L: ConnectionLike + Drop>(
    alloc: Global,
    client: &mut ClusterClient<L>,
    key: &[u8],
    command: &Cmd,
) -> Result<Value, RedisError> {
    let topology = client.topology(alloc)?;
    match topology.shard_for_slot(Slot::for_key(key).number()) {
        Some(shard) => ask_at(alloc, client, shard.primary(), command),
        None => Err(RedisError::from(Cause::NoNode)),
    }
}

/// Asks a command that is asked by itself, in its way.
fn answer_by<L: ConnectionLike + Drop>(
    alloc: Global,
    client: &mut ClusterClient<L>,
    ask: &Ask,
    way: Way,
    around: Around<'_>,
) -> Result<Reply> {
    let command = ask.command.command();
    let told: Result<Value, RedisError> = match way {
        Way::Keyed => client.query_directed(alloc, &ask.command.directed(), 0, None),
        Way::Several => client.fan_out_directed(alloc, &ask.command.directed()),
        Way::InTurn => ask_in_turn(alloc, client, around.number, command),
        Way::Primaries => match ends_primary(alloc, client, command) {
            Ok(true) => return Ok(refuse(alloc, command)?),
            Ok(false) => ask_primaries(alloc, client, command),
            Err(error) => Err(error),
        },
        Way::FirstNode if is_word(command, 0, b"INFO") => {
            match ask_info(alloc, client, command) {
                Ok(told) => Ok(with_waiting(alloc, told, around.waiting)?),
                Err(error) => Err(error),
            }
        }
        Way::FirstNode => ask_first(alloc, client, command),
        Way::ThirdWord => ask_of_key(alloc, client, argument(command, 2), command),
        Way::Scan => return scan(alloc, client, command, ask.protocol),
        _ => return Ok(refuse(alloc, command)?),
    };
    Ok(Reply::new(alloc, told, ask.protocol))
}

/// Asks a command whose word is new, once a node says that it knows the word.
fn answer_new<L: ConnectionLike + Drop>(
    alloc: Global,
    client: &mut ClusterClient<L>,
    ask: &Ask,
    around: Around<'_>,
) -> Result<Reply> {
    let command = ask.command.command();
    match learn_word(alloc, client, around.words, command) {
        Ok(true) => {}
        Ok(false) => return Ok(line(alloc, &unknown(alloc, command)?)?),
        Err(error) => return Ok(Reply::new(alloc, Err(error), ask.protocol)),
    }
    let way = match way_of(command) {
        Way::ByTable => way_by_table(ask.command.direction()),
        way => way,
    };
    answer_by(alloc, client, ask, way, around)
}

fn answer<L: ConnectionLike + Drop>(
    alloc: Global,
    client: &mut ClusterClient<L>,
    ask: &Ask,
    around: Around<'_>,
) -> Result<Reply> {
    match &ask.how {
        How::Exec(queued) => {
            let told: Result<Value, RedisError> = queued.ask(alloc, client);
            Ok(Reply::new(alloc, told, ask.protocol))
        }
        How::Alone(Way::NewWord) => answer_new(alloc, client, ask, around),
        How::Alone(way) => answer_by(alloc, client, ask, *way, around),
        How::Together | How::Wait(..) => Ok(refuse(alloc, ask.command.command())?),
    }
}

/// Asks a command by itself; want of memory may have come behind its sending.
pub(crate) fn ask_alone<L: ConnectionLike + Drop>(
    alloc: Global,
    client: &mut ClusterClient<L>,
    ask: &Ask,
    around: Around<'_>,
) -> Outcome<Reply> {
    match answer(alloc, client, ask, around) {
        Ok(reply) => Outcome {
            fate: Fate::Answered,
            reply,
        },
        Err(_) => Outcome {
            fate: Fate::Lost,
            reply: Reply::Unwritten(WriteError::Memory),
        },
    }
}
