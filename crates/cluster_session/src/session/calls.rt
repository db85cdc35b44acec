//! What a session uses of the client, each call in one place.
ghost use Rattle.std.specs.Prelude.{◌≡◌, [], None, true, map, IfErr, IfOk};
ghost use Rattle.cluster_routing.specs.Address.{address_read};
ghost use Rattle.cluster_routing.specs.Info.{texts};
ghost use Rattle.cluster_routing.specs.Seen.{address};
ghost use Rattle.cluster_calls.specs.Links.Play.{Plays};
ghost use Rattle.cluster_calls.specs.Links.World.{addresses_of, has_repeats, new_world, nodes};
ghost use Rattle.cluster_client.specs.Shown.{call_in, shown};
ghost use Rattle.cluster_client.specs.Whole.{whole};
ghost use Rattle.cluster_session.specs.LinesRead.{Reads};
ghost use Rattle.cluster_session.specs.PrintedRun.{sent_bytes};
ghost use Rattle.cluster_session.specs.ScriptRead.{setup_in};
ghost use Rattle.cluster_session.specs.Session.{link_at_start};

use crate::session::levels::Levels;
use crate::session::lines::LineError;
use crate::session::script::Node;
use cluster_client::{
    ByteLink, Call, ClusterClient, ConnectionLike, MemoryReader, MemoryWriter, NodeAddress, Played,
    play,
};
use resp_core::RedisError;
use std::alloc::{AllocError, Global};

/// A link over bytes in memory.
pub(super) type Link = ByteLink<MemoryReader, MemoryWriter>;

/// A client whose links are bytes in memory.
pub(super) type Client = ClusterClient<Link>;

/// The address that a word spells.
pub(super) fn address(alloc: Global, word: &str) -> Result<NodeAddress, LineError>
    ensures { Reads address (address_read word.now) result }
{
    match NodeAddress::try_from(alloc, word) {
        Ok(address) => Ok(address),
        Err(error) => {
            if error.is_memory() {
                Err(LineError::Memory)
            } else {
                Err(LineError::Bad)
            }
        }
    }
}

/// A link to a node as it is set up.
pub(super) fn link(alloc: Global, levels: Levels, node: Node) -> Link
    ensures { ⟦<Link as ConnectionLike>⟧.seen result ≡ link_at_start levels.limit (setup_in node) }
{
    let reader = MemoryReader::new(node.bytes, node.piece, node.failing_read);
    let writer = MemoryWriter::new(alloc, node.failing_write);
    match ByteLink::with_level_limit(alloc, reader, writer, levels.limit) {
        Ok(link) => link,
        Err(_) => unreachable!(),
    }
}

/// A client over these links that follows at most `budget` redirects for a request.
pub(super) fn client(
    alloc: Global,
    links: Vec<(NodeAddress, Link)>,
    read_only: Vec<Vec<u8>>,
    budget: u16,
) -> Result<Client, RedisError>
    ensures repeated { IfErr result (λ _. has_repeats
        (addresses_of (nodes ⟦<Link as ConnectionLike>⟧.seen links.items)) ≡ true) }
    ensures made { IfOk result (λ client. whole ⟦<Link as ConnectionLike>⟧.seen client
        ≡ new_world (nodes ⟦<Link as ConnectionLike>⟧.seen links.items)
        (record { budget = budget; read_only = texts read_only.items })) }
{
    ClusterClient::new(alloc, links, read_only, budget)
}

/// The calls, one after another, each with what it answered and asked for.
pub(super) fn play_all(
    alloc: Global,
    client: &mut Client,
    calls: &[Call],
) -> Result<Vec<Played>, AllocError>
    ensures { IfOk result (λ played. Plays None (whole ⟦<Link as ConnectionLike>⟧.seen client.old)
        (whole ⟦<Link as ConnectionLike>⟧.seen client.new) (map call_in calls.now) []
        (map shown played.items) true) }
{
    let mut played = Vec::new(alloc);
    play(alloc, client, calls, None, &mut played)?;
    Ok(played)
}

/// Every node and its link, in the order in which the client got them.
pub(super) fn links(client: &Client) -> &[(NodeAddress, Link)]
    ensures { nodes ⟦<Link as ConnectionLike>⟧.seen result.now
        ≡ (whole ⟦<Link as ConnectionLike>⟧.seen client.now).nodes }
{
    client.links()
}

/// The bytes that went out over the link.
pub(super) fn sent(link: &Link) -> &[u8]
    ensures { result.now ≡ sent_bytes (⟦<Link as ConnectionLike>⟧.seen link.now) }
{
    link.writer().written()
}
