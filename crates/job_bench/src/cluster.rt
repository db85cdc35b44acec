//! Clusters whose nodes' replies stand in memory.
use crate::digest::Digest;
use crate::inputs::{push_bulk, push_head};
use crate::random::Numbers;
use anyhow::Result;
use cluster_client::{ByteLink, ClusterClient, MemoryReader, MemoryWriter, NodeAddress};
use cluster_routing::Slot;
use std::alloc::Global;

pub const SLOTS: usize = 16_384;

/// How many bytes a reader hands out at once.
pub const PIECE: usize = 16_384;

pub type Link = ByteLink<MemoryReader, MemoryWriter>;

/// How the slots lie: so many ranges of about one size, and each node has one of as many in turn.
#[derive(Clone, Copy)]
pub struct Layout {
    pub nodes: usize,
    pub ranges: usize,
}

impl Layout {
    fn range_of(self, slot: usize) -> usize {
        slot.saturating_mul(self.ranges) / SLOTS
    }

    /// The node of a slot.
    pub fn node_of(self, slot: usize) -> usize {
        let nodes = if self.nodes == 0 { 1 } else { self.nodes };
        self.range_of(slot) % nodes
    }

    pub fn node_of_key(self, key: &[u8]) -> usize {
        self.node_of(slot_of(key))
    }
}

pub fn slot_of(key: &[u8]) -> usize {
    Slot::for_key(key).number() as usize
}

pub fn host(alloc: Global, net: u8, node: usize) -> Result<String> {
    Ok(format!(in alloc; "10.{net}.{}.{}", node / 256, node % 256)?)
}

pub fn address_of(alloc: Global, node: usize) -> Result<NodeAddress> {
    Ok(NodeAddress::new(host(alloc, 0, node)?, 6379))
}

/// A range of slots and its node.
#[derive(Clone, Copy)]
struct Row {
    start: usize,
    end: usize,
    node: usize,
}

fn rows_of(alloc: Global, layout: Layout) -> Result<Vec<Row>> {
    let mut rows = Vec::new(alloc);
    let mut start = 0usize;
    for slot in 0..SLOTS {
        let next = slot.saturating_add(1);
        if layout.range_of(next) != layout.range_of(slot) {
            let node = layout.node_of(slot);
            rows.push(Row {
                start,
                end: slot,
                node,
            })?;
            start = next;
        }
    }
    Ok(rows)
}

/// The address of each node, or of its replica in another net, as a row tells it.
fn address_rows(alloc: Global, net: u8, nodes: usize) -> Result<Vec<Vec<u8>>> {
    let mut rows = Vec::with_capacity(alloc, nodes)?;
    for node in 0..nodes {
        let mut row = Vec::from_slice(alloc, b"*3\r\n")?;
        push_bulk(&mut row, host(alloc, net, node)?.as_bytes())?;
        row.extend_from_slice(b":6379\r\n")?;
        push_bulk(&mut row, b"07c37dfeb235213a872192d90877d0cd55635b91")?;
        rows.push(row)?;
    }
    Ok(rows)
}

/// The reply to `CLUSTER SLOTS`, its rows in some order, each with so many replicas.
pub fn slots_reply(
    alloc: Global,
    numbers: &mut Numbers,
    layout: Layout,
    replicas: u8,
) -> Result<Vec<u8>> {
    let mut rows = rows_of(alloc, layout)?;
    for place in 0..rows.len() {
        let other = numbers.below(SLOTS as u32) % rows.len().max(1);
        if place < rows.len() && other < rows.len() {
            rows.swap(place, other);
        }
    }
    let mut nets = Vec::new(alloc);
    for net in 0..=replicas {
        nets.push(address_rows(alloc, net, layout.nodes)?)?;
    }
    let mut out = Vec::new(alloc);
    push_head(&mut out, b'*', rows.len())?;
    for row in &rows {
        push_head(&mut out, b'*', usize::from(replicas).saturating_add(3))?;
        push_head(&mut out, b':', row.start)?;
        push_head(&mut out, b':', row.end)?;
        for net in &nets {
            if let Some(address) = net.get(row.node) {
                out.extend_from_slice(address)?;
            }
        }
    }
    Ok(out)
}

/// No bytes from any node.
pub fn silence(alloc: Global, nodes: usize) -> Result<Vec<Vec<u8>>> {
    let mut replies = Vec::with_capacity(alloc, nodes)?;
    for _ in 0..nodes {
        replies.push(Vec::new(alloc))?;
    }
    Ok(replies)
}

/// The bytes that come from a node.
pub fn of_node(replies: &mut [Vec<u8>], node: usize, bytes: &[u8]) -> Result<()> {
    if let Some(of) = replies.get_mut(node) {
        of.extend_from_slice(bytes)?;
    }
    Ok(())
}

fn link(alloc: Global, bytes: Vec<u8>, piece: usize) -> Link {
    let reader = MemoryReader::new(bytes, piece, 0);
    ByteLink::new(alloc, reader, MemoryWriter::new(alloc, 0))
}

/// A client that has links to all nodes and knows their slots.
pub fn client(
    alloc: Global,
    numbers: &mut Numbers,
    layout: Layout,
    replicas: u8,
) -> Result<ClusterClient<Link>> {
    let slots = slots_reply(alloc, numbers, layout, replicas)?;
    let mut links = Vec::new(alloc);
    links.push((address_of(alloc, 0)?, link(alloc, slots, PIECE)))?;
    for node in 1..layout.nodes {
        links.push((
            address_of(alloc, node)?,
            link(alloc, Vec::new(alloc), PIECE),
        ))?;
    }
    let mut read_only = Vec::new(alloc);
    read_only.push(Vec::from_slice(alloc, b"GET")?)?;
    let mut client = ClusterClient::new(alloc, links, read_only, 5)?;
    client.refresh(alloc, &address_of(alloc, 0)?)?;
    Ok(client)
}

/// Puts a link to each node from which these bytes come, and takes what was sent over the old ones.
pub fn relink(
    alloc: Global,
    client: &mut ClusterClient<Link>,
    replies: Vec<Vec<u8>>,
    piece: usize,
    digest: &mut Digest,
) -> Result<()> {
    let mut node = 0usize;
    for bytes in replies {
        let old = client.set_link(address_of(alloc, node)?, link(alloc, bytes, piece))?;
        if let Some(old) = old {
            digest.bytes(old.writer().written());
        }
        node = node.saturating_add(1);
    }
    Ok(())
}

/// What was sent over all links since the last look.
pub fn sent(alloc: Global, client: ClusterClient<Link>, digest: &mut Digest) -> Result<()> {
    let _ = alloc;
    for (_, link) in client.into_links() {
        digest.bytes(link.writer().written());
    }
    Ok(())
}
