//! Links whose table, where there is one, has the address of each of them.
ghost use Rattle.std.specs.Prelude.{◌≡◌, ◌<◌, ◌++◌, ◌∷◌, [], None, Some, is_some, not, option_map, slice_get, vec_len, IfSome, OnErr, OnOk};
ghost use Rattle.cluster_routing.specs.Seen.{address};
ghost use Rattle.cluster_calls.specs.Links.World.{Node, nodes, place_at, has_repeats, addresses_of, CallsLink};
ghost use Rattle.resp_link.specs.TwoCalls.{Receives, Sends};

use crate::at_once::{received_over, sent_over};
use crate::links::{Links, Told, called, called_one, first_of, replaced};
use crate::node_links::{NodeLinks, Wanted};
use cluster_routing::NodeAddress;
use resp_core::{RedisError, Value};
use resp_link::{ConnectionLike, PipelinedLink};
use std::alloc::{AllocError, Global};
use std::marker::Model;

/// The links of a client, one for each node. A node that their table lacks is not looked for.
///
/// A contract sees them as the links.
#[derive(Drop)]
pub struct KnownLinks<L> {
    links: Links<L>,
}

impl<L> Model for KnownLinks<L> {
    ghost use Rattle.std.specs.Prelude.{◌≡◌, true};
    ghost use Rattle.cluster_steps.specs.declared.links.Links.{Links};
    ghost use Rattle.cluster_steps.specs.LinkTable.{knows_links};

    ghost Value = { Links L };

    ghost use Rattle.std.specs.Coded.{codes};
    ghost use Rattle.indexmap.specs.Layout.{hash_set_code};

    ghost coded = { Prim.hlevel (codes, hash_set_code) };

    ghost view = { λ k. k.links };

    ghost invariant = { λ k. knows_links k.links.places k.links.nodes.items ≡ true };
}

impl<L: ConnectionLike + Drop> KnownLinks<L> {
    /// These links, unless an address is given twice. Where memory is refused it takes the square of the
    /// time.
    pub fn new(alloc: Global, links: Vec<(NodeAddress, L)>) -> Option<KnownLinks<L>>
        ensures repeated { is_some result ≡ not (has_repeats (addresses_of (nodes L.seen links.items))) }
        ensures kept { IfSome result (λ made. made.nodes ≡ links) }
    {
        Some(KnownLinks {
            links: Links::new_known(alloc, links)?,
        })
    }

    /// Puts a node that is new, and its link, behind the others.
    ///
    /// # Errors
    /// `AllocError` where memory is refused for the links; what is refused for the table only makes it slow.
    pub fn push(&mut self, node: NodeAddress, link: L) -> Result<(), AllocError>
        requires { place_at (nodes L.seen self.old.nodes.items) (address node) ≡ None }
        ensures put { OnOk result (self.new.nodes.items ≡ self.old.nodes.items ++ ((node, link) ∷ [])) }
        ensures stays { OnErr result (self.new.nodes.items ≡ self.old.nodes.items) }
    {
        self.links.push_known(node, link)
    }

    /// Every node and its link.
    pub fn into_nodes(self) -> Vec<(NodeAddress, L)>
        ensures { result ≡ self.nodes }
    {
        self.links.nodes
    }
}

impl<L: ConnectionLike> KnownLinks<L> {
    /// How many links there are.
    pub fn len(&self) -> usize
        ensures { result ≡ vec_len self.now.nodes }
    {
        self.links.nodes.len()
    }

    /// Every node and its link.
    pub fn as_slice(&self) -> &[(NodeAddress, L)]
        ensures { result.now ≡ self.now.nodes.items }
    {
        self.links.nodes.as_slice()
    }

    /// The link at this place.
    pub fn link(&self, index: usize) -> &L
        requires { index < vec_len self.now.nodes }
        ensures { option_map (λ (node : Node). node.link) (slice_get (nodes L.seen self.now.nodes.items) index)
            ≡ Some (L.seen result.now) }
    {
        &self.links.nodes[index].1
    }

    /// Puts a link in the place of the one that stands there, which is handed back.
    pub fn replace(&mut self, index: usize, link: L) -> L
        requires { index < vec_len self.old.nodes }
        ensures { CallsLink (nodes L.seen self.old.nodes.items) (nodes L.seen self.new.nodes.items) index
            (λ before after. (before ≡ L.seen result) × (after ≡ L.seen link)) }
    {
        replaced(&mut self.links.nodes, index, link)
    }

    /// Makes the table of many nodes that have none. Where memory is refused, they go without.
    pub fn renew_table(&mut self)
        ensures { self.new.nodes ≡ self.old.nodes }
    {
        self.links.renew_known();
    }
}

impl<L: PipelinedLink> KnownLinks<L> {
    /// Sends the bytes over the link at this place, which owes their replies then.
    pub fn send(&mut self, link: usize, bytes: &[u8]) -> Result<(), RedisError>
        requires { link < vec_len self.old.nodes }
        ensures call { CallsLink (nodes L.seen self.old.nodes.items) (nodes L.seen self.new.nodes.items) link
            (λ before after. Sends before after bytes.now result) }
        ensures len { vec_len self.new.nodes ≡ vec_len self.old.nodes }
    {
        sent_over(&mut self.links.nodes, link, bytes)
    }

    /// Takes so many replies that the link at this place owes.
    pub fn receive(
        &mut self,
        alloc: Global,
        link: usize,
        count: usize,
    ) -> Result<Vec<Value>, RedisError>
        requires { link < vec_len self.old.nodes }
        ensures call { CallsLink (nodes L.seen self.old.nodes.items) (nodes L.seen self.new.nodes.items) link
            (λ before after. Receives before after count result) }
        ensures len { vec_len self.new.nodes ≡ vec_len self.old.nodes }
    {
        received_over(alloc, &mut self.links.nodes, link, count)
    }
}

impl<L: ConnectionLike> NodeLinks for KnownLinks<L> {
    ghost use Rattle.cluster_calls.specs.Links.World.{nodes as seen_nodes};

    ghost nodes = { λ links. seen_nodes L.seen links.nodes.items };

    fn place_of(&self, node: &NodeAddress) -> Option<usize> {
        match self.links.told(node) {
            Told::At(link) => Some(link),
            // The table has the address of each link: none leads to a node that it lacks.
            Told::Absent => None,
            Told::Nothing => first_of(&self.links.nodes, node),
        }
    }

    fn is_open_at(&self, index: usize) -> bool {
        self.links.nodes[index].1.is_open()
    }

    fn call(
        &mut self,
        alloc: Global,
        link: usize,
        bytes: &[u8],
        wanted: Wanted,
    ) -> Result<Vec<Value>, RedisError> {
        called(alloc, &mut self.links.nodes, link, bytes, wanted)
    }

    fn call_one(&mut self, alloc: Global, link: usize, bytes: &[u8]) -> Result<Value, RedisError> {
        called_one(alloc, &mut self.links.nodes, link, bytes)
    }
}
