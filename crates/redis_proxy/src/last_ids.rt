//! Reads of what comes behind now: `$` among the IDs of an XREAD that waits.
use crate::way::{argument, argument_count};
use cluster_client::{ClusterClient, Cmd, ConnectionLike, RedisError, Routable, command};
use std::alloc::Global;

/// The ID of a stream's last entry, as `XINFO STREAM` tells it; `0-0` where a node says that there is no stream.
fn last_id<L: ConnectionLike + Drop>(
    alloc: Global,
    client: &mut ClusterClient<L>,
    key: &[u8],
) -> Result<String, RedisError> {
    match client.xinfo_stream(alloc, key, None) {
        Ok(told) => Ok(told.last_generated_id),
        Err(error) if error.cause().is_none() => Ok(String::from_str(alloc, "0-0")?),
        Err(error) => Err(error),
    }
}

/// Puts the last IDs of its streams in place of `$` into a command that reads streams.
pub(crate) fn with_last_ids<L: ConnectionLike + Drop>(
    alloc: Global,
    client: &mut ClusterClient<L>,
    command: &mut Cmd,
) -> Result<(), RedisError> {
    let Some(streams) = command.position(b"STREAMS") else {
        return Ok(());
    };
    let count = argument_count(command);
    let first = streams.saturating_add(1);
    let keys = count.saturating_sub(first) / 2;
    let ids = first.saturating_add(keys);
    let mut read = Cmd::new(alloc);
    for place in 0..count {
        let bytes = argument(command, place);
        if place >= ids && bytes == b"$".as_slice() {
            let key = argument(command, place.saturating_sub(keys));
            read.arg(last_id(alloc, client, key)?.as_str())?;
        } else {
            read.arg(bytes)?;
        }
    }
    *command = read;
    Ok(())
}
