//! The nodes of the bench, and what they reply: each has as many slots as any other, to one or so.
use anyhow::Result;
use cluster_client::NodeAddress;
use cluster_routing::Slot;
use std::alloc::Global;

const SLOTS: usize = 16_384;

/// What stands at each key.
const VALUE: &[u8] = b"$16\r\n0123456789abcdef\r\n";

pub fn address_of(alloc: Global, node: usize) -> Result<NodeAddress> {
    let host = format!(in alloc; "10.0.{}.{}", node / 256, node % 256)?;
    Ok(NodeAddress::new(host, 6379))
}

/// The node of a slot.
fn node_of(slot: usize, nodes: usize) -> usize {
    slot.saturating_mul(nodes) / SLOTS
}

/// A row of the reply to `CLUSTER SLOTS`: a node's range of slots.
fn range_row(alloc: Global, start: usize, end: usize, node: usize) -> Result<String> {
    let host = format!(in alloc; "10.0.{}.{}", node / 256, node % 256)?;
    let row = format!(in alloc;
        "*3\r\n:{start}\r\n:{end}\r\n*3\r\n${}\r\n{host}\r\n:6379\r\n$2\r\nid\r\n",
        host.len()
    )?;
    Ok(row)
}

/// The reply to `CLUSTER SLOTS`: each node serves one range.
pub fn slots_reply(alloc: Global, nodes: usize) -> Result<Vec<u8>> {
    let mut reply = format!(in alloc; "*{nodes}\r\n")?;
    let mut start = 0usize;
    for slot in 0..SLOTS {
        let node = node_of(slot, nodes);
        let next = slot.saturating_add(1);
        if node_of(next, nodes) != node {
            reply.push_str(range_row(alloc, start, slot, node)?.as_str())?;
            start = next;
        }
    }
    Ok(reply.into_bytes())
}

/// The slots of keys as they first appear, each with how many of the keys it has.
fn counts_by_slot(alloc: Global, keys: &[String]) -> Result<Vec<(usize, usize)>> {
    let mut counts: Vec<(usize, usize)> = Vec::new(alloc);
    let mut places: Vec<Option<usize>> = Vec::new(alloc);
    for _ in 0..SLOTS {
        places.push(None)?;
    }
    for key in keys {
        let slot = Slot::for_key(key.as_bytes()).number() as usize;
        match places.get(slot) {
            Some(Some(place)) => {
                if let Some(of) = counts.get_mut(*place) {
                    of.1 = of.1.saturating_add(1);
                }
            }
            _ => {
                if let Some(place) = places.get_mut(slot) {
                    *place = Some(counts.len());
                }
                counts.push((slot, 1))?;
            }
        }
    }
    Ok(counts)
}

/// No bytes from any node.
fn silence(alloc: Global, nodes: usize) -> Result<Vec<Vec<u8>>> {
    let mut replies = Vec::new(alloc);
    for _ in 0..nodes {
        replies.push(Vec::new(alloc))?;
    }
    Ok(replies)
}

/// What each node replies to the commands of keys: to a GET of each, or to the parts of an MGET of all.
pub fn replies_to_keys(
    alloc: Global,
    in_parts: bool,
    keys: &[String],
    nodes: usize,
) -> Result<Vec<Vec<u8>>> {
    let mut replies = silence(alloc, nodes)?;
    for (slot, count) in counts_by_slot(alloc, keys)? {
        if let Some(of) = replies.get_mut(node_of(slot, nodes)) {
            if in_parts {
                of.extend_from_slice(format!(in alloc; "*{count}\r\n")?.as_bytes())?;
            }
            for _ in 0..count {
                of.extend_from_slice(VALUE)?;
            }
        }
    }
    Ok(replies)
}
