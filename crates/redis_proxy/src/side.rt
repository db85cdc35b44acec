//! The cluster as guests of one protocol see it.
use cluster_client::{ClusterClient, Cmd, ConnectionLike, RedisError, command};
use cluster_servers::ClusterServers;
use node_files::{Learning, Peer};
use proxy_core::{Limits, Room};
use resp_core::Protocol;
use std::alloc::{AllocError, Global};

/// How many redirects a request follows.
pub(crate) const BUDGET: u16 = 5;

/// How many guests there may be.
pub(crate) const MOST_GUESTS: usize = 10_000;

/// What each of them may have in the proxy.
pub(crate) const LIMITS: Limits = Limits {
    guests: MOST_GUESTS,
    share: Room {
        entries: 10_000,
        bytes: 1 << 30,
    },
};

/// A client whose links speak one protocol.
#[derive(Drop)]
pub(crate) struct Side<L> {
    pub(crate) servers: ClusterServers<L>,
    /// What each new link's node has to answer.
    pub(crate) greeting: Cmd,
    /// Whether a guest has spoken the protocol.
    pub(crate) is_used: bool,
    /// When it asked for the slot map.
    pub(crate) learning: Learning,
    /// Whether a node told the slot map.
    pub(crate) has_map: bool,
}

fn greeting_of(alloc: Global, protocol: Protocol) -> Result<Cmd, AllocError> {
    match protocol {
        Protocol::Resp2 => command::cmd(alloc, "PING"),
        Protocol::Resp3 => {
            let mut hello = command::cmd(alloc, "HELLO")?;
            hello.arg("3")?;
            Ok(hello)
        }
    }
}

impl<L: ConnectionLike + Drop> Side<L> {
    /// A side without links.
    pub(crate) fn new(alloc: Global, protocol: Protocol) -> Result<Side<L>, RedisError> {
        let client = ClusterClient::new(alloc, Vec::new(alloc), Vec::new(alloc), BUDGET)?;
        Ok(Side {
            servers: ClusterServers::new(client),
            greeting: greeting_of(alloc, protocol)?,
            is_used: false,
            learning: Learning::new(),
            has_map: false,
        })
    }

    /// Asks one node after another for the slot map, until one answers. That one is asked first from then
    /// on.
    pub(crate) fn refresh(&mut self, alloc: Global, peers: &mut Vec<Peer>) {
        let mut answered = None;
        for (place, peer) in peers.iter().enumerate() {
            if self.servers.client.refresh(alloc, &peer.node).is_ok() {
                answered = Some(place);
                break;
            }
        }
        match answered {
            Some(place) if place < peers.len() => {
                self.has_map = true;
                peers.swap(0, place);
            }
            _ => self.learning.doubt(),
        }
    }
}
