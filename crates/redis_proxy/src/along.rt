//! A transaction in which commands without keys go along with the others, or stand alone. A client's own transaction
//! has none of these, so its links are taken for this one, and handed back with a map that is learnt anew.
use crate::scan::primaries;
use crate::side::BUDGET;
use cluster_client::{Cause, ClusterClient, Cmd, ConnectionLike, NodeAddress, RedisError, Value};
use cluster_steps::asked::Asked;
use cluster_steps::attempt::{exchange_attempt, make_attempt_ready};
use cluster_steps::attempt_turn::attempt_turn;
use cluster_steps::hop::Hop;
use cluster_steps::known_links::KnownLinks;
use cluster_steps::node_links::NodeLinks;
use cluster_steps::turn::Turn;
use std::alloc::{AllocError, Global};
use std::mem;

/// The first primary to which a link leads.
fn first_of<L: ConnectionLike + Drop>(
    alloc: Global,
    client: &ClusterClient<L>,
) -> Result<Option<NodeAddress>, AllocError> {
    for node in primaries(alloc, client)? {
        if client.link_state(&node) == Some(true) {
            return Ok(Some(node));
        }
    }
    Ok(None)
}

/// The primary of a slot, or where none is given the first one.
fn primary_of<L: ConnectionLike + Drop>(
    alloc: Global,
    client: &ClusterClient<L>,
    slot: Option<u16>,
) -> Result<Option<NodeAddress>, AllocError> {
    let Some(slot) = slot else {
        return first_of(alloc, client);
    };
    match client.topology(alloc)?.shard_for_slot(slot) {
        Some(shard) => Ok(Some(shard.primary().clone()?)),
        None => Ok(None),
    }
}

/// One attempt: MULTI, the commands and EXEC in one write to a node, and what becomes of them by the replies, with so
/// many redirects left.
fn attempt<K: NodeLinks>(
    alloc: Global,
    links: &mut K,
    node: NodeAddress,
    asking: bool,
    redirects: u16,
    commands: &[Cmd],
) -> Result<Turn, RedisError> {
    let Some(link) = links.open_place(&node) else {
        return Err(RedisError::from(Cause::NoLink));
    };
    let hop = Hop { node, link, asking };
    let mut log: Vec<Asked> = Vec::new(alloc);
    let attempt = make_attempt_ready(alloc, &mut log, hop, commands)?;
    let replies = exchange_attempt(alloc, links, &mut log, attempt)?;
    attempt_turn(alloc, links, redirects, replies)
}

/// Asks a node, and the nodes that replies name in its place, as long as nothing was done.
fn ask_over<K: NodeLinks>(
    alloc: Global,
    links: &mut K,
    first: NodeAddress,
    commands: &[Cmd],
) -> Result<Value, RedisError> {
    let (mut node, mut asking) = (first, false);
    for redirects in (0..=BUDGET).rev() {
        match attempt(alloc, links, node, asking, redirects, commands)? {
            Turn::Answered(value) => return Ok(value),
            Turn::On(hop) => {
                node = hop.node;
                asking = hop.asking;
            }
        }
    }
    Err(RedisError::from(Cause::NoNode))
}

/// Learns the map from the first node that tells it.
fn learn_map<L: ConnectionLike + Drop>(
    alloc: Global,
    client: &mut ClusterClient<L>,
) -> Result<(), AllocError> {
    let mut nodes = Vec::with_capacity(alloc, client.links().len())?;
    for (node, _) in client.links() {
        nodes.push(node.clone()?)?;
    }
    for node in &nodes {
        if client.refresh(alloc, node).is_ok() {
            break;
        }
    }
    Ok(())
}

/// Asks commands as one transaction of the primary of a slot, or where none of them has keys of the first primary.
pub(crate) fn ask_along<L: ConnectionLike + Drop>(
    alloc: Global,
    client: &mut ClusterClient<L>,
    commands: &[Cmd],
    slot: Option<u16>,
) -> Result<Value, RedisError> {
    let Some(node) = primary_of(alloc, client, slot)? else {
        return Err(RedisError::from(Cause::NoNode));
    };
    let empty = ClusterClient::new(alloc, Vec::new(alloc), Vec::new(alloc), BUDGET)?;
    let links = mem::replace(client, empty).into_links();
    let Some(mut links) = KnownLinks::new(alloc, links) else {
        return Err(RedisError::from(Cause::RepeatedAddress));
    };
    let told = ask_over(alloc, &mut links, node, commands);
    *client = ClusterClient::new(alloc, links.into_nodes(), Vec::new(alloc), BUDGET)?;
    // Where no node tells the map, the next command finds no node, and has the map asked for.
    let _learnt = learn_map(alloc, client);
    told
}
