//! A proxy before a cluster of two nodes, whose bytes stand in memory.
use cluster_client::*;
use cluster_servers::{ClusterServers, GuestCommand, Reply};
use proxy_core::{Entry, Limits, Proxy, Room};
use resp_core::Protocol;
use std::alloc::{AllocError, Global};

const LIMITS: Limits = Limits {
    guests: 2,
    share: Room {
        entries: 10,
        bytes: 1000,
    },
};

/// The first half of the slots, where `b` is, at n1:7001, and the other one, where `a` is, at n2:7002.
const HALVES: &[u8] =
    b"*2\r\n*3\r\n:0\r\n:8191\r\n*2\r\n$2\r\nn1\r\n:7001\r\n*3\r\n:8192\r\n:16383\r\n*2\r\n$2\r\nn2\r\n:7002\r\n";

pub(crate) type Link = ByteLink<MemoryReader, MemoryWriter>;

/// The proxy with two guests, and the cluster.
#[derive(Drop)]
pub(crate) struct Guests {
    proxy: Proxy<GuestCommand, Reply>,
    pub(crate) servers: ClusterServers<Link>,
}

/// A link from which these bytes come, behind the slot map where it is to be there.
fn link(alloc: Global, has_map: bool, bytes: &[u8]) -> Result<Link, AllocError> {
    let mut all = Vec::new(alloc);
    if has_map {
        all.extend_from_slice(HALVES)?;
    }
    all.extend_from_slice(bytes)?;
    let reader = MemoryReader::new(all, 7, 0);
    Ok(ByteLink::new(alloc, reader, MemoryWriter::new(alloc, 0)))
}

/// A client that knows both nodes, with a link to n2:7002 only where bytes come from there.
pub(crate) fn client(
    alloc: Global,
    first: &[u8],
    second: Option<&[u8]>,
) -> Result<ClusterClient<Link>, RedisError> {
    let n1 = NodeAddress::try_from(alloc, "n1:7001")?;
    let mut links = Vec::new(alloc);
    links.push((n1.clone()?, link(alloc, true, first)?))?;
    if let Some(bytes) = second {
        let n2 = NodeAddress::try_from(alloc, "n2:7002")?;
        links.push((n2, link(alloc, false, bytes)?))?;
    }
    let mut client = ClusterClient::new(alloc, links, Vec::new(alloc), 3)?;
    client.refresh(alloc, &n1)?;
    Ok(client)
}

impl Guests {
    /// Two guests before a cluster whose nodes send these bytes.
    pub(crate) fn new(
        alloc: Global,
        first: &[u8],
        second: Option<&[u8]>,
    ) -> Result<Guests, RedisError> {
        let client = client(alloc, first, second)?;
        let mut proxy = Proxy::new(alloc, LIMITS);
        let _first = proxy.join(alloc);
        let _second = proxy.join(alloc);
        Ok(Guests {
            proxy,
            servers: ClusterServers::new(client),
        })
    }

    /// Takes the GET of a key from a guest.
    pub(crate) fn get(
        &mut self,
        alloc: Global,
        guest: usize,
        key: &str,
        protocol: Protocol,
    ) -> Result<bool, AllocError> {
        let mut cmd = command::cmd(alloc, "GET")?;
        cmd.arg(key)?;
        let command = GuestCommand::new(alloc, cmd, protocol)?;
        Ok(self.proxy.put(guest, Entry::Waits(command)).is_ok())
    }

    pub(crate) fn turn(&mut self, alloc: Global) -> Result<(), AllocError> {
        self.proxy.turn(alloc, &mut self.servers)
    }

    /// Whether these are the bytes that a guest reads next; none where it has to wait.
    pub(crate) fn reads(&mut self, guest: usize, bytes: Option<&[u8]>) -> bool {
        match (self.proxy.take(guest), bytes) {
            (Some(Reply::Written(reply)), Some(bytes)) => reply.as_slice() == bytes,
            (None, None) => true,
            _ => false,
        }
    }
}
