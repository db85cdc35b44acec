//! What the proxy answers itself, as a server would.
ghost use Rattle.std.specs.Prelude.{◌≡◌, OnErr};

use crate::queued::Queued;
use crate::talk::Talk;
use crate::way::{Own, argument, argument_count, is_word};
use cluster_client::{Cmd, Routable, Value};
use cluster_servers::Reply;
use resp_core::Protocol;
use std::alloc::{AllocError, Global};

/// A line, as it is sent.
pub(crate) fn line(alloc: Global, text: &[u8]) -> Result<Reply, AllocError> {
    let mut bytes = Vec::from_slice(alloc, text)?;
    bytes.extend_from_slice(b"\r\n")?;
    Ok(Reply::Written(bytes))
}

fn bulk(alloc: Global, bytes: &[u8]) -> Result<Value, AllocError> {
    Ok(Value::BulkString(Vec::from_slice(alloc, bytes)?))
}

/// A number, as it is sent.
pub(crate) fn number_line(alloc: Global, number: i64) -> Result<Reply, AllocError> {
    let mut text = Vec::from_slice(alloc, b":")?;
    text.extend_from_slice(number.to_string(alloc)?.as_bytes())?;
    line(alloc, &text)
}

/// A value in a protocol.
fn value(alloc: Global, protocol: Protocol, value: Value) -> Reply {
    Reply::new(alloc, Ok(value), protocol)
}

/// What the proxy answers to a guest that is in no transaction. Where memory is refused nothing of the guest
/// changes.
pub(crate) fn answer(
    alloc: Global,
    talk: &mut Talk,
    own: Own,
    command: &Cmd,
) -> Result<Reply, AllocError>
    ensures err { OnErr result (talk.new ≡ talk.old) }
{
    match own {
        Own::Ping => ping(alloc, talk.protocol, command),
        Own::Echo => echo(alloc, talk.protocol, command),
        Own::Select => select(alloc, command),
        Own::Hello => hello(alloc, talk, command),
        Own::Client => client(alloc, talk, command),
        Own::Quit => {
            let reply = line(alloc, b"+OK")?;
            talk.has_ended = true;
            Ok(reply)
        }
        Own::Reset => {
            let reply = line(alloc, b"+RESET")?;
            talk.reset(alloc);
            Ok(reply)
        }
        Own::Multi => {
            let reply = line(alloc, b"+OK")?;
            talk.queued = Some(Queued::new(alloc));
            Ok(reply)
        }
        Own::Http => {
            let reply = line(alloc, b"-ERR proxy: POST and Host: are words of HTTP")?;
            talk.has_ended = true;
            Ok(reply)
        }
        Own::Exec => line(alloc, b"-ERR EXEC without MULTI"),
        Own::Discard => line(alloc, b"-ERR DISCARD without MULTI"),
    }
}

fn select(alloc: Global, command: &Cmd) -> Result<Reply, AllocError> {
    if argument(command, 1) == b"0".as_slice() {
        line(alloc, b"+OK")
    } else {
        line(alloc, b"-ERR SELECT is not allowed in cluster mode")
    }
}

fn ping(alloc: Global, protocol: Protocol, command: &Cmd) -> Result<Reply, AllocError> {
    match (command.arg_idx(1), command.arg_idx(2)) {
        (None, _) => line(alloc, b"+PONG"),
        (Some(text), None) => Ok(value(alloc, protocol, bulk(alloc, text)?)),
        _ => line(alloc, b"-ERR wrong number of arguments for 'ping' command"),
    }
}

fn echo(alloc: Global, protocol: Protocol, command: &Cmd) -> Result<Reply, AllocError> {
    match (command.arg_idx(1), command.arg_idx(2)) {
        (Some(text), None) => Ok(value(alloc, protocol, bulk(alloc, text)?)),
        _ => line(alloc, b"-ERR wrong number of arguments for 'echo' command"),
    }
}

/// The protocol that HELLO asks for, if it is one.
fn protocol_of(talk: &Talk, command: &Cmd) -> Option<Protocol> {
    match argument(command, 1) {
        [] => Some(talk.protocol),
        [b'2'] => Some(Protocol::Resp2),
        [b'3'] => Some(Protocol::Resp3),
        _ => None,
    }
}

fn hello(alloc: Global, talk: &mut Talk, command: &Cmd) -> Result<Reply, AllocError>
    ensures err { OnErr result (talk.new ≡ talk.old) }
{
    let Some(protocol) = protocol_of(talk, command) else {
        return line(alloc, b"-NOPROTO unsupported protocol version");
    };
    if is_word(command, 2, b"AUTH") {
        return line(alloc, b"-ERR proxy: it takes no password");
    }
    let number = match protocol {
        Protocol::Resp2 => 2,
        Protocol::Resp3 => 3,
    };
    let told = told_of_server(alloc, number, talk.id)?;
    if is_word(command, 2, b"SETNAME") {
        talk.name = Vec::from_slice(alloc, argument(command, 3))?;
    }
    talk.protocol = protocol;
    Ok(value(alloc, protocol, Value::Map(told)))
}

fn told_of_server(
    alloc: Global,
    protocol: i64,
    id: i64,
) -> Result<Vec<(Value, Value)>, AllocError> {
    let mut told = Vec::new(alloc);
    for (key, text) in [("server", "redis"), ("version", "7.0.15")] {
        told.push((bulk(alloc, key.as_bytes())?, bulk(alloc, text.as_bytes())?))?;
    }
    told.push((bulk(alloc, b"proto")?, Value::Int(protocol)))?;
    told.push((bulk(alloc, b"id")?, Value::Int(id)))?;
    for (key, text) in [("mode", "standalone"), ("role", "master")] {
        told.push((bulk(alloc, key.as_bytes())?, bulk(alloc, text.as_bytes())?))?;
    }
    told.push((bulk(alloc, b"modules")?, Value::Array(Vec::new(alloc))))?;
    Ok(told)
}

fn name_of(alloc: Global, talk: &Talk) -> Result<Value, AllocError> {
    if talk.name.is_empty() {
        Ok(Value::Nil)
    } else {
        bulk(alloc, &talk.name)
    }
}

fn client(alloc: Global, talk: &mut Talk, command: &Cmd) -> Result<Reply, AllocError>
    ensures err { OnErr result (talk.new ≡ talk.old) }
{
    if is_word(command, 1, b"SETNAME") {
        let reply = line(alloc, b"+OK")?;
        talk.name = Vec::from_slice(alloc, argument(command, 2))?;
        return Ok(reply);
    }
    if is_word(command, 1, b"GETNAME") {
        return Ok(value(alloc, talk.protocol, name_of(alloc, talk)?));
    }
    if is_word(command, 1, b"ID") {
        return number_line(alloc, talk.id);
    }
    if is_word(command, 1, b"SETINFO")
        || is_word(command, 1, b"NO-EVICT")
        || is_word(command, 1, b"NO-TOUCH")
    {
        return line(alloc, b"+OK");
    }
    line(alloc, b"-ERR proxy: this CLIENT command is not served")
}

/// What is answered to a command that is not served.
pub(crate) fn refuse(alloc: Global, command: &Cmd) -> Result<Reply, AllocError> {
    let mut bytes = Vec::from_slice(alloc, b"-ERR proxy: not served: ")?;
    for byte in argument(command, 0) {
        let shown = if byte.is_ascii_graphic() { *byte } else { b'?' };
        bytes.push(shown)?;
    }
    bytes.extend_from_slice(b"\r\n")?;
    Ok(Reply::Written(bytes))
}

/// How much of a word, and of all arguments, is shown where a word is not known.
const SHOWN: usize = 128;

/// Appends bytes as far as there is room for so many, without the end of a line.
fn put_shown(to: &mut Vec<u8>, bytes: &[u8], most: usize) -> Result<(), AllocError> {
    for byte in bytes.iter().take(most) {
        let is_end = *byte == b'\r' || *byte == b'\n' || *byte == 0;
        to.push(if is_end { b' ' } else { *byte })?;
    }
    Ok(())
}

/// What a server answers to a word that it does not know.
pub(crate) fn unknown(alloc: Global, command: &Cmd) -> Result<Vec<u8>, AllocError> {
    let mut told = Vec::from_slice(alloc, b"-ERR unknown command '")?;
    put_shown(&mut told, argument(command, 0), SHOWN)?;
    told.extend_from_slice(b"', with args beginning with: ")?;
    let mut args = Vec::new(alloc);
    for place in 1..argument_count(command) {
        if args.len() >= SHOWN {
            break;
        }
        args.push(b'\'')?;
        let room = SHOWN.saturating_sub(args.len()).saturating_add(1);
        put_shown(&mut args, argument(command, place), room)?;
        args.extend_from_slice(b"' ")?;
    }
    told.extend_from_slice(&args)?;
    Ok(told)
}
