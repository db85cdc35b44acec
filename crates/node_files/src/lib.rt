//! The nodes of a folder, and links to them over its files, for the programs that stand before a running cluster.
//!
//! The file `nodes` of the folder lists the nodes, `host:port` a line. For each node the folder has pairs of
//! FIFOs, `host:port.0.to` and `host:port.0.from`, then `.1.`, and so on: another program joins each pair to a
//! socket of the node.
#![tactic(auto)]

mod learning;

use anyhow::{Context, Result};
use cluster_client::{
    ByteLink, ClusterClient, Cmd, ConnectionLike, FromRead, FromWrite, NodeAddress, Value,
};
pub use learning::{Learning, is_doubtful};
use std::alloc::Global;
use std::fs;
use std::fs::OpenOptions;
use std::rt::{Clock, Files};
use std::time::{Duration, Instant};

/// A link over a pair of files.
pub type Link<F> = ByteLink<FromRead<F>, FromWrite<F>>;

/// For so many milliseconds at least a node is passed over that did not answer a greeting.
const LEAST_REST: u64 = 250;

/// So many links to a node may be opened within a second of one another; before the next one it is passed over.
const MOST_HASTY: u8 = 3;

/// A node, and the number of the pair of files that is opened next.
#[derive(Drop)]
pub struct Peer {
    pub node: NodeAddress,
    round: u64,
    /// Since when it is passed over, and for how long.
    rest: Option<(Instant, Duration)>,
    /// When its last link was opened, and how many before that, each within a second of the next.
    opened_at: Option<Instant>,
    hasty: u8,
}

impl Peer {
    /// Takes note that a link to the node is open, of which it is not known whether the node answers.
    fn note_opening(&mut self, now: Instant) {
        let is_hasty = match self.opened_at {
            Some(before) => now.duration_since(before) < Duration::from_secs(1),
            None => false,
        };
        self.hasty = if is_hasty {
            self.hasty.saturating_add(1)
        } else {
            0
        };
        self.opened_at = Some(now);
        self.rest = if self.hasty < MOST_HASTY {
            None
        } else {
            Some((now, Duration::from_millis(LEAST_REST)))
        };
    }

    fn rests(&self, now: Instant) -> bool {
        match self.rest {
            Some((since, length)) => now.duration_since(since) < length,
            None => false,
        }
    }
}

/// The nodes that a folder lists.
pub fn listed<R: Files + AllocGlobal>(rt: &R, folder: &str) -> Result<Vec<Peer>> {
    let alloc = rt.alloc();
    let path = format!(in alloc; "{folder}/nodes")?;
    let text = fs::read_to_string(rt, path.as_str()).context("reading the list of nodes")?;
    let mut peers = Vec::new(alloc);
    for line in text.as_str().lines() {
        let node = NodeAddress::try_from(alloc, line)?;
        peers.push(Peer {
            node,
            round: 0,
            rest: None,
            opened_at: None,
            hasty: 0,
        })?;
    }
    Ok(peers)
}

/// A link over a node's next pair of files. The one that is written is opened first.
fn open_link<R: Files + AllocGlobal>(
    rt: &R,
    folder: &str,
    peer: &mut Peer,
) -> Result<Link<R::File>> {
    let alloc = rt.alloc();
    let Peer { node, round, .. } = peer;
    let to = format!(in alloc; "{folder}/{node}.{round}.to")?;
    let from = format!(in alloc; "{folder}/{node}.{round}.from")?;
    let writer = OpenOptions::new().write(true).open(rt, to.as_str())?;
    peer.round = peer.round.saturating_add(1);
    let reader = OpenOptions::new().read(true).open(rt, from.as_str())?;
    let link = ByteLink::new(alloc, FromRead::new(reader), FromWrite::new(writer));
    Ok(link)
}

/// Whether a node answers a command over a link by something else than an error.
fn is_answered<L: ConnectionLike>(alloc: Global, link: &mut L, greeting: &Cmd) -> bool {
    match &link.req_command(alloc, greeting) {
        Ok(Value::ServerError(_)) | Err(_) => false,
        Ok(_) => true,
    }
}

/// A link over a node's next pair of files, whose node answers the greeting where there is one. A node that does
/// not is passed over for as long as it was waited for.
fn greeted_link<R: Files + Clock + AllocGlobal>(
    rt: &R,
    folder: &str,
    peer: &mut Peer,
    greeting: Option<&Cmd>,
) -> Result<Option<Link<R::File>>> {
    let Ok(mut link) = open_link(rt, folder, peer) else {
        return Ok(None);
    };
    let Some(greeting) = greeting else {
        peer.note_opening(Instant::now(rt)?);
        return Ok(Some(link));
    };
    let begun = Instant::now(rt)?;
    if is_answered(rt.alloc(), &mut link, greeting) {
        peer.rest = None;
        return Ok(Some(link));
    }
    let now = Instant::now(rt)?;
    let waited = now.duration_since(begun);
    peer.rest = Some((now, Duration::from_millis(LEAST_REST).max(waited)));
    Ok(None)
}

/// Opens the next pair of files of each node without an open link, and tells whether there was one. With a
/// greeting a link is taken only where its node answers that; a node that does not is passed over for a while. So is
/// one whose links fail at once, a few times a second.
pub fn relink<R: Files + Clock + AllocGlobal>(
    rt: &R,
    folder: &str,
    peers: &mut [Peer],
    client: &mut ClusterClient<Link<R::File>>,
    greeting: Option<&Cmd>,
) -> Result<bool> {
    let now = Instant::now(rt)?;
    let mut has_opened = false;
    for peer in peers.iter_mut() {
        if client.link_state(&peer.node) == Some(true) || peer.rests(now) {
            continue;
        }
        if let Some(link) = greeted_link(rt, folder, peer, greeting)? {
            client.set_link(peer.node.clone()?, link)?;
            has_opened = true;
        }
    }
    Ok(has_opened)
}
