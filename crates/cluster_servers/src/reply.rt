//! What a guest reads of its command.
ghost use Rattle.std.specs.Prelude.{◌≡◌};
ghost use Rattle.resp_core.specs.View.{view};
ghost use Rattle.resp_core.specs.Errors.{server_errors};
ghost use Rattle.resp_core.specs.Refused.{errors_at};
ghost use Rattle.cluster_calls.specs.Links.World.{tree_result};
ghost use Rattle.cluster_servers.specs.Replies.{IsErrorIn, IsLine, IsWritten, guest_bytes, line_by, reply_bytes};

use proxy_connection::Written;
use proxy_core::Bytes;
use resp_core::{Cause, Protocol, RedisError, ServerError, Value, WriteError};
use std::alloc::{AllocError, Global};

/// What a guest reads of one command.
#[derive(Drop)]
pub enum Reply {
    /// A reply's bytes, or an error's.
    Written(Vec<u8>),
    /// It can not be written: memory was refused for its bytes, or it nests deeper than `MOST_LEVELS`.
    Unwritten(WriteError),
}

impl Bytes for Reply {
    ghost bytes = { reply_bytes };

    fn bytes(&self) -> usize {
        match self {
            Reply::Written(bytes) => bytes.len(),
            Reply::Unwritten(_) => 0,
        }
    }
}

impl Written for Reply {
    ghost written = { guest_bytes };

    fn written(&self) -> &[u8] {
        match self {
            Reply::Written(bytes) => bytes,
            Reply::Unwritten(_) => b"-ERR proxy: the reply can not be written\r\n",
        }
    }
}

impl Reply {
    ghost use Rattle.cluster_servers.specs.Replies.{IsReplyTo};

    /// What a guest reads of a command of which this was told: the reply in its protocol, the error that a
    /// server answered, or a line that says why there is none.
    pub fn new(alloc: Global, told: Result<Value, RedisError>, protocol: Protocol) -> Reply
        ensures { IsReplyTo protocol (tree_result view told) result }
    {
        match told {
            Ok(value) => write_value(alloc, &value, protocol),
            Err(error) => match error.cause() {
                Some(cause) => write_line(alloc, line_by(cause)),
                None => write_server_error(alloc, error, protocol),
            },
        }
    }
}

fn write_value(alloc: Global, value: &Value, protocol: Protocol) -> Reply
    ensures { IsWritten protocol (view value.now) result }
{
    let mut bytes = Vec::new(alloc);
    match value.write(&mut bytes, protocol) {
        Ok(()) => Reply::Written(bytes),
        Err(why) => Reply::Unwritten(why),
    }
}

/// Writes the first error of servers.
fn write_server_error(alloc: Global, error: RedisError, protocol: Protocol) -> Reply
    ensures { IsErrorIn protocol (server_errors error) result }
{
    match error.into_server_errors(alloc) {
        Ok(errors) => write_first(alloc, errors, protocol),
        Err(AllocError) => Reply::Unwritten(WriteError::Memory),
    }
}

fn write_first(alloc: Global, errors: Vec<(usize, ServerError)>, protocol: Protocol) -> Reply
    ensures { IsErrorIn protocol (errors_at errors.items) result }
{
    match errors.into_iter().next() {
        Some((_, error)) => write_value(alloc, &Value::ServerError(error), protocol),
        None => write_line(alloc, line_by(Cause::NoRoute)),
    }
}

fn write_line(alloc: Global, line: &[u8]) -> Reply
    ensures { IsLine line.now result }
{
    match Vec::from_slice(alloc, line) {
        Ok(bytes) => Reply::Written(bytes),
        Err(AllocError) => Reply::Unwritten(WriteError::Memory),
    }
}

/// The line that tells a guest why its command has no reply.
fn line_by(cause: Cause) -> &'static [u8]
    ensures { result.now ≡ line_by cause }
{
    match cause {
        Cause::NoNode => b"-CLUSTERDOWN no node serves the slot\r\n",
        Cause::NoLink => b"-CLUSTERDOWN no link leads to the node\r\n",
        Cause::NotAsked => b"-TRYAGAIN not sent, since the link of another node failed\r\n",
        Cause::Io | Cause::Parse => {
            b"-ERR the link to the node failed, and the command may have been done\r\n"
        }
        Cause::Memory => b"-ERR memory was refused, and the command may have been done\r\n",
        Cause::UnexpectedReturnType => {
            b"-ERR the parts of the command were answered differently, and it may be done in part\r\n"
        }
        _ => b"-ERR the command can not be sent to one node, nor in parts\r\n",
    }
}
