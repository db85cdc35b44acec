//! A client with replicas.
use crate::clients::{Client, Links, add_link, refreshed};
use cluster_client::*;
use std::alloc::{AllocError, Global};

/// All slots at n1:7001 with the replicas n3:7003 and n4:7004, then a number.
pub const WITH_REPLICAS: &[u8] =
    b"*1\r\n*5\r\n:0\r\n:16383\r\n*2\r\n$2\r\nn1\r\n:7001\r\n*2\r\n$2\r\nn3\r\n:7003\r\n*2\r\n$2\r\nn4\r\n:7004\r\n:1\r\n";

fn links(alloc: Global, n1: &[u8], n3: &[u8], n4: &[u8]) -> Result<Links, RedisError> {
    let mut links = Vec::new(alloc);
    add_link(alloc, &mut links, "n1:7001", n1)?;
    add_link(alloc, &mut links, "n3:7003", n3)?;
    add_link(alloc, &mut links, "n4:7004", n4)?;
    Ok(links)
}

fn read_only_names(alloc: Global) -> Result<Vec<Vec<u8>>, AllocError> {
    let mut names = Vec::new(alloc);
    names.push(Vec::from_slice(alloc, b"get")?)?;
    names.push(Vec::from_slice(alloc, b"mget")?)?;
    Ok(names)
}

/// A client of n1:7001, n3:7003 and n4:7004, for which `GET` and `MGET` only read.
pub fn client_of_replicas(
    alloc: Global,
    n1: &[u8],
    n3: &[u8],
    n4: &[u8],
) -> Result<Client, RedisError> {
    let links = links(alloc, n1, n3, n4)?;
    let names = read_only_names(alloc)?;
    ClusterClient::new(alloc, links, names, 1)
}

/// The same, which has learned the slot map of n1:7001.
pub fn refreshed_of_replicas(
    alloc: Global,
    n1: &[u8],
    n3: &[u8],
    n4: &[u8],
) -> Result<Client, RedisError> {
    refreshed(alloc, client_of_replicas(alloc, n1, n3, n4)?)
}
