//! The connections of all guests, by their numbers.
ghost use Rattle.std.specs.Prelude.{◌≡◌, ◌≤◌, Some, None, length, OnOk, OnErr, IfOk};
ghost use Rattle.proxy_connection.specs.Ways.{ways};
ghost use Rattle.proxy_frontend.specs.Places.{KeepsNext, Places, WritesNext};

use proxy_connection::{Connection, Translator, Written};
use proxy_core::{Command, Proxy};
use std::alloc::AllocError;

/// Puts the connection of a guest in its place. Where memory is refused nothing changes.
pub(crate) fn place_at<T: Drop, C: Drop, V: Drop>(
    connections: &mut Vec<Option<Connection<T, C, V>>>,
    guest: usize,
    connection: Connection<T, C, V>,
) -> Result<(), AllocError>
    ensures ok { OnOk result (guest ≤ length connections.old.items
        → Places connections.old.items connections.new.items guest (Some connection)) }
    ensures err { OnErr result (connections.new.items ≡ connections.old.items) }
    ensures due { OnErr result (length connections.old.items ≤ guest) }
{
    if guest < connections.len() {
        connections[guest] = Some(connection);
        return Ok(());
    }
    connections.push(Some(connection))?;
    Ok(())
}

/// Takes the connection of a guest away.
pub(crate) fn remove_at<T: Drop, C: Drop, V: Drop>(
    connections: &mut Vec<Option<Connection<T, C, V>>>,
    guest: usize,
)
    ensures { Places connections.old.items connections.new.items guest None }
{
    if guest < connections.len() {
        connections[guest] = None;
    }
}

/// Puts behind `out` what is to be written next of a connection.
pub(crate) fn write_next<T: Translator<C, V>, C: Command, V: Written>(
    connection: &mut Connection<T, C, V>,
    proxy: &mut Proxy<C, V>,
    out: &mut Vec<u8>,
) -> Result<bool, AllocError>
    ensures ok { IfOk result (λ any. WritesNext (ways C.overlaps V.written T.Translator)
        connection.old connection.new proxy.old.queues proxy.new.queues
        out.old.items out.new.items any) }
    ensures err { OnErr result (KeepsNext (ways C.overlaps V.written T.Translator)
        connection.old connection.new proxy.old.queues proxy.new.queues) }
    ensures out { OnErr result (out.new.items ≡ out.old.items) }
    ensures guest { connection.new.guest ≡ connection.old.guest }
    ensures openings { proxy.new.openings ≡ proxy.old.openings }
    ensures limits { proxy.new.limits ≡ proxy.old.limits }
{
    if !connection.fetch(proxy) {
        return Ok(false);
    }
    out.extend_from_slice(connection.output())?;
    connection.wrote(connection.output().len());
    Ok(true)
}
