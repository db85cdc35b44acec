//! Links handed in, and handed back.
ghost use Rattle.std.specs.Prelude.{◌≡◌, IfOk, IfErr, option_map};
ghost use Rattle.cluster_routing.specs.Seen.{address, addresses};
ghost use Rattle.cluster_calls.specs.Links.World.{is_linked, link_at, nodes, open_links};
ghost use Rattle.cluster_client.specs.Relinks.{unlinked_nodes, with_link};
ghost use Rattle.cluster_client.specs.Whole.{whole};

use crate::client::ClusterClient;
use cluster_routing::NodeAddress;
use cluster_steps::known_links::KnownLinks;
use cluster_steps::node_links::NodeLinks;
use resp_link::ConnectionLike;
use std::alloc::{AllocError, Global};

impl<L: ConnectionLike + Drop> ClusterClient<L> {
    /// Every node and its link, handed back, in the order of `links`. The slot map and the log are
    /// dropped.
    pub fn into_links(self) -> Vec<(NodeAddress, L)>
        ensures { nodes L.seen result.items ≡ (whole L.seen self).nodes }
    {
        self.links.into_nodes()
    }

    /// Puts a link to a node in the place of the old one, which is handed back, open or not. Where
    /// there is none, node and link come behind the others. The other links, the slot map,
    /// `needs_refresh` and the last call's log stay.
    ///
    /// Nothing is sent. A new link begins with no byte of the old one: a request whose reply the old
    /// one lacked is not made again.
    ///
    /// # Errors
    /// `AllocError` where memory is refused: the client stays as it was, and the link is dropped.
    pub fn set_link(&mut self, node: NodeAddress, link: L) -> Result<Option<L>, AllocError>
        ensures put { IfOk result
            (λ _. whole L.seen self.new ≡ with_link (whole L.seen self.old) (address node) (L.seen link)) }
        ensures old { IfOk result
            (λ old. option_map L.seen old ≡ link_at (whole L.seen self.old).nodes (address node)) }
        ensures stays { IfErr result (λ _. whole L.seen self.new ≡ whole L.seen self.old) }
    {
        match self.links.place_of(&node) {
            Some(index) => Ok(Some(self.links.replace(index, link))),
            None => {
                self.links.push(node, link)?;
                Ok(None)
            }
        }
    }

    /// The nodes of the slot map to which no open link leads, primaries and replicas, each once, in
    /// ascending order: by host, then by port.
    ///
    /// # Errors
    /// `AllocError` where memory is refused.
    pub fn unlinked(&self, alloc: Global) -> Result<Vec<NodeAddress>, AllocError>
        ensures { IfOk result (λ v. addresses v.items ≡ unlinked_nodes (whole L.seen self.now)) }
    {
        let all = self.slots.map().addresses_for_all_nodes(alloc)?;
        let mut unlinked = Vec::new(alloc);
        'nodes: for node in all {
            if !has_open(&self.links, node) {
                unlinked.push(node.clone()?)?;
            }
        }
        Ok(unlinked)
    }
}

/// Whether an open link leads to a node.
fn has_open<L: ConnectionLike>(links: &KnownLinks<L>, node: &NodeAddress) -> bool
    ensures { result ≡ is_linked (open_links (nodes L.seen links.now.nodes.items)) (address node.now) }
{
    links.open_place(node).is_some()
}
