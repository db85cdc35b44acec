//! Clients over bytes in memory, and what they tell.
use cluster_client::*;
use std::alloc::{AllocError, Global};

pub type Link = ByteLink<MemoryReader, MemoryWriter>;

pub type Links = Vec<(NodeAddress, Link)>;

pub type Client = ClusterClient<Link>;

/// The first half of the slots at n1:7001, and the other one, where `a` is, at n2:7002.
pub const HALVES: &[u8] =
    b"*2\r\n*3\r\n:0\r\n:8191\r\n*2\r\n$2\r\nn1\r\n:7001\r\n*3\r\n:8192\r\n:16383\r\n*2\r\n$2\r\nn2\r\n:7002\r\n";

/// All slots at n1:7001.
pub const ALL_AT_N1: &[u8] = b"*1\r\n*3\r\n:0\r\n:16383\r\n*2\r\n$2\r\nn1\r\n:7001\r\n";

pub fn node(alloc: Global, text: &str) -> Result<NodeAddress, RedisError> {
    NodeAddress::try_from(alloc, text)
}

/// A link from which these bytes come in pieces of 7.
pub fn link(alloc: Global, bytes: &[u8]) -> Result<Link, AllocError> {
    let reader = MemoryReader::new(Vec::from_slice(alloc, bytes)?, 7, 0);
    Ok(ByteLink::new(alloc, reader, MemoryWriter::new(alloc, 0)))
}

pub fn add_link(
    alloc: Global,
    links: &mut Links,
    address: &str,
    bytes: &[u8],
) -> Result<(), RedisError> {
    let node = node(alloc, address)?;
    let link = link(alloc, bytes)?;
    links.push((node, link))?;
    Ok(())
}

/// A client of n1:7001 and n2:7002 to which these bytes come.
pub fn client_of_two(
    alloc: Global,
    n1: &[u8],
    n2: &[u8],
    budget: u16,
) -> Result<Client, RedisError> {
    let mut links = Vec::new(alloc);
    add_link(alloc, &mut links, "n1:7001", n1)?;
    add_link(alloc, &mut links, "n2:7002", n2)?;
    ClusterClient::new(alloc, links, Vec::new(alloc), budget)
}

/// The client, once it has learned the slot map of n1:7001.
pub fn refreshed(alloc: Global, mut client: Client) -> Result<Client, RedisError> {
    client.refresh(alloc, &node(alloc, "n1:7001")?)?;
    Ok(client)
}

/// A client of n1:7001 and n2:7002, with a budget of 1, which has learned the slot map of n1:7001.
pub fn refreshed_of_two(alloc: Global, n1: &[u8], n2: &[u8]) -> Result<Client, RedisError> {
    refreshed(alloc, client_of_two(alloc, n1, n2, 1)?)
}

/// A client with a link to n1:7001 alone, and room for no other, which knows of both nodes.
pub fn client_of_halves(alloc: Global) -> Result<Client, RedisError> {
    let mut links = Vec::with_capacity(alloc, 1)?;
    add_link(alloc, &mut links, "n1:7001", HALVES)?;
    let client = ClusterClient::new(alloc, links, Vec::new(alloc), 1)?;
    refreshed(alloc, client)
}

/// Whether the slot map of n1:7001 is learned.
pub fn is_refreshed(alloc: Global, client: &mut Client) -> Result<bool, RedisError> {
    let n1 = node(alloc, "n1:7001")?;
    Ok(client.refresh(alloc, &n1).is_ok())
}

/// The kind of a refusal, none where there was none.
pub fn kind_of(outcome: Result<i64, RedisError>) -> Option<ErrorKind> {
    match outcome {
        Ok(_) => None,
        Err(e) => Some(e.kind()),
    }
}

/// Whether the last call's only request, or the second of two, went to the node.
pub fn is_last_asked(alloc: Global, client: &Client, address: &str) -> Result<bool, RedisError> {
    let node = node(alloc, address)?;
    Ok(match client.asked() {
        [only] => only.node == node,
        [_, last] => last.node == node,
        _ => false,
    })
}

/// Whether just these bytes went out to the node.
pub fn has_sent(
    alloc: Global,
    client: &Client,
    address: &str,
    bytes: &[u8],
) -> Result<bool, RedisError> {
    let node = node(alloc, address)?;
    Ok(match client.link(&node) {
        Some(link) => link.writer().written() == bytes,
        None => false,
    })
}
