//! The links, found by the addresses of their nodes.
ghost use Rattle.std.specs.List.{list_any};
ghost use Rattle.std.proofs.Props.{props};
ghost use Rattle.std.specs.Prelude.{◌≡◌, ◌<◌, ◌++◌, ◌∷◌, [], None, Some, is_some, length, map, not, position, vec_len, IfOk, IfSome, OnErr, OnOk, false, true};
ghost use Rattle.resp_core.specs.View.{view};
ghost use Rattle.cluster_routing.specs.Address.{same_address};
ghost use Rattle.cluster_routing.specs.Seen.{address, addresses};
ghost use Rattle.cluster_calls.specs.Links.World.{nodes, place_at, has_repeats, addresses_of, CallsLink, Called, one_reply, tree_result, tree_results};
ghost use Rattle.cluster_steps.specs.LinkTable.{knows_all, knows_links, told_place};
ghost use Rattle.cluster_steps.specs.declared.links.Told.TheVariants.{Absent};
ghost use Rattle.indexmap.specs.IndexSet.{insert_key};

use crate::node_links::{NodeLinks, Wanted};
use cluster_routing::NodeAddress;
use indexmap::IndexSet;
use resp_core::{RedisError, Value};
use resp_link::ConnectionLike;
use std::alloc::{AllocError, Global};
use std::mem;

/// So few links are looked through as quickly as a table is asked.
const FEW: usize = 8;

/// The links of a client, one for each node.
#[derive(Drop)]
pub struct Links<L> {
    pub nodes: Vec<(NodeAddress, L)>,

    // The addresses in the order of the nodes, where these are many. A hint: who asks it looks there.
    places: Option<IndexSet<NodeAddress>>,
    ghost distinct: { has_repeats (map (λ link. address link.0) nodes.items) ≡ false } by { Prim.hlevel props },
}

/// What the table tells of a node.
#[derive(Drop)]
pub(crate) enum Told {
    /// Nothing: there is no table, or the node does not stand where it tells.
    Nothing,
    /// The table lacks the node.
    Absent,
    /// The node stands at this place.
    At(usize),
}

impl<L: ConnectionLike + Drop> Links<L> {
    /// These links, unless an address is given twice. Where memory is refused it takes the square of the
    /// time.
    pub fn new(alloc: Global, links: Vec<(NodeAddress, L)>) -> Option<Links<L>>
        ensures repeated { is_some result ≡ not (has_repeats (addresses_of (nodes L.seen links.items))) }
        ensures kept { IfSome result (λ made. made.nodes ≡ links) }
    {
        Links::new_known(alloc, links)
    }

    /// The same; the table has the address of each link.
    pub(crate) fn new_known(alloc: Global, links: Vec<(NodeAddress, L)>) -> Option<Links<L>>
        ensures repeated { is_some result ≡ not (has_repeats (addresses_of (nodes L.seen links.items))) }
        ensures kept { IfSome result (λ made. made.nodes ≡ links) }
        ensures known { IfSome result (λ made. knows_links made.places made.nodes.items ≡ true) }
    {
        if links.len() <= FEW {
            return without_table(links);
        }
        match table_of(alloc, &links) {
            Ok(Some(table)) => Some(Links {
                nodes: links,
                places: Some(table),
            }),
            Ok(None) => None,
            Err(_) => without_table(links),
        }
    }

    /// Puts a node that is new, and its link, behind the others.
    ///
    /// # Errors
    /// `AllocError` where memory is refused for the links; what is refused for the table only makes it slow.
    pub fn push(&mut self, node: NodeAddress, link: L) -> Result<(), AllocError>
        requires { place_at (nodes L.seen self.old.nodes.items) (address node) ≡ None }
        ensures put { OnOk result (self.new.nodes.items ≡ self.old.nodes.items ++ ((node, link) ∷ [])) }
        ensures stays { OnErr result (self.new.nodes.items ≡ self.old.nodes.items) }
    {
        self.push_known(node, link)
    }

    /// The same; where the table has the address of each link, it does so again.
    pub(crate) fn push_known(&mut self, node: NodeAddress, link: L) -> Result<(), AllocError>
        requires { place_at (nodes L.seen self.old.nodes.items) (address node) ≡ None }
        ensures put { OnOk result (self.new.nodes.items ≡ self.old.nodes.items ++ ((node, link) ∷ [])) }
        ensures stays { OnErr result (self.new.nodes.items ≡ self.old.nodes.items) }
        ensures known { knows_links self.old.places self.old.nodes.items ≡ true
            → knows_links self.new.places self.new.nodes.items ≡ true }
    {
        self.nodes.reserve(1)?;
        self.learn(&node);
        self.nodes.push_reserved((node, link));
        self.renew_known();
        Ok(())
    }
}

impl<L: ConnectionLike> Links<L> {
    /// Puts a link in the place of the one that stands there, which is handed back.
    pub fn replace(&mut self, index: usize, link: L) -> L
        requires { index < vec_len self.old.nodes }
        ensures { CallsLink (nodes L.seen self.old.nodes.items) (nodes L.seen self.new.nodes.items) index
            (λ before after. (before ≡ L.seen result) × (after ≡ L.seen link)) }
    {
        replaced(&mut self.nodes, index, link)
    }

    /// The table learns of a node that is to come behind the others. Where memory is refused, it is dropped.
    fn learn(&mut self, node: &NodeAddress)
        ensures stays { self.new.nodes ≡ self.old.nodes }
        ensures known { knows_links self.old.places self.old.nodes.items ≡ true
            → knows_all self.new.places
            (addresses_of (nodes L.seen self.old.nodes.items) ++ (address node.now ∷ [])) ≡ true }
    {
        if let Some(table) = self.places.take() {
            self.places = with_node(table, node).ok();
        }
    }

    /// Makes the table of many nodes that have none. Where memory is refused, they go without.
    pub fn renew_table(&mut self)
        ensures { self.new.nodes ≡ self.old.nodes }
    {
        self.renew_known();
    }

    /// The same; where the table has the address of each link, it does so again.
    pub(crate) fn renew_known(&mut self)
        ensures stays { self.new.nodes ≡ self.old.nodes }
        ensures known { knows_links self.old.places self.old.nodes.items ≡ true
            → knows_links self.new.places self.new.nodes.items ≡ true }
    {
        if self.places.is_none() && self.nodes.len() > FEW {
            self.places = table_of(*self.nodes.allocator(), &self.nodes).unwrap_or(None);
        }
    }

    /// The place of a node.
    pub fn place_of(&self, node: &NodeAddress) -> Option<usize>
        ensures place { result ≡ place_at (nodes L.seen self.now.nodes.items) (address node.now) }
        ensures within { IfSome result (λ link. link < vec_len self.now.nodes) }
    {
        match self.told(node) {
            Told::At(link) => Some(link),
            _ => first_of(&self.nodes, node),
        }
    }

    /// What the table tells of a node: its place, where it does stand there. A node that it lacks has no place,
    /// where it has the address of each link.
    pub(crate) fn told(&self, node: &NodeAddress) -> Told
        ensures absent { result ≡ Absent → knows_links self.now.places self.now.nodes.items ≡ true
            → place_at (nodes L.seen self.now.nodes.items) (address node.now) ≡ None }
        ensures place { IfSome (told_place result)
            (λ link. place_at (nodes L.seen self.now.nodes.items) (address node.now) ≡ Some link) }
        ensures within { IfSome (told_place result) (λ link. link < vec_len self.now.nodes) }
    {
        let Some(table) = &self.places else {
            return Told::Nothing;
        };
        let Some(index) = table.get_index_of(node) else {
            return Told::Absent;
        };
        match self.nodes.get(index) {
            Some(link) if link.0 == *node => Told::At(index),
            _ => Told::Nothing,
        }
    }
}

impl<L: ConnectionLike> NodeLinks for Links<L> {
    ghost use Rattle.cluster_calls.specs.Links.World.{nodes as seen_nodes};

    ghost nodes = { λ links. seen_nodes L.seen links.nodes.items };

    fn place_of(&self, node: &NodeAddress) -> Option<usize> {
        Links::place_of(self, node)
    }

    fn is_open_at(&self, index: usize) -> bool {
        self.nodes[index].1.is_open()
    }

    fn call(
        &mut self,
        alloc: Global,
        link: usize,
        bytes: &[u8],
        wanted: Wanted,
    ) -> Result<Vec<Value>, RedisError> {
        called(alloc, &mut self.nodes, link, bytes, wanted)
    }

    fn call_one(&mut self, alloc: Global, link: usize, bytes: &[u8]) -> Result<Value, RedisError> {
        called_one(alloc, &mut self.nodes, link, bytes)
    }
}

/// Puts a link in the place of the one that stands there, which is handed back.
pub(crate) fn replaced<L: ConnectionLike>(
    links: &mut [(NodeAddress, L)],
    index: usize,
    link: L,
) -> L
    requires { index < length links.old }
    ensures { CallsLink (nodes L.seen links.old) (nodes L.seen links.new) index
        (λ before after. (before ≡ L.seen result) × (after ≡ L.seen link)) }
{
    mem::replace(&mut links[index].1, link)
}

/// One link call of the node at this place.
pub(crate) fn called<L: ConnectionLike>(
    alloc: Global,
    links: &mut [(NodeAddress, L)],
    index: usize,
    bytes: &[u8],
    wanted: Wanted,
) -> Result<Vec<Value>, RedisError>
    requires { index < length links.old }
    ensures { CallsLink (nodes L.seen links.old) (nodes L.seen links.new) index
        (λ before after. Called before after bytes.now wanted.offset wanted.count
        (tree_results view result)) }
{
    let link = &mut links[index].1;
    link.req_packed_commands(alloc, bytes, wanted.offset, wanted.count)
}

/// One link call of the node at this place for one reply.
pub(crate) fn called_one<L: ConnectionLike>(
    alloc: Global,
    links: &mut [(NodeAddress, L)],
    index: usize,
    bytes: &[u8],
) -> Result<Value, RedisError>
    requires { index < length links.old }
    ensures { CallsLink (nodes L.seen links.old) (nodes L.seen links.new) index
        (λ before after. Called before after bytes.now 0 1 (one_reply (tree_result view result))) }
{
    let link = &mut links[index].1;
    link.req_packed_command(alloc, bytes)
}

/// The first place at which the address stands.
pub(crate) fn first_of<L: ConnectionLike>(
    links: &[(NodeAddress, L)],
    node: &NodeAddress,
) -> Option<usize>
    ensures first { result ≡ position (λ link. same_address (address link.0) (address node.now)) links.now }
    ensures within { IfSome result (λ index. index < length links.now) }
{
    links.iter().position(|link| link.0 == *node)
}

fn is_among<L: ConnectionLike>(links: &[(NodeAddress, L)], node: &NodeAddress) -> bool
    ensures { result ≡ list_any (λ known. same_address known (address node.now))
        (addresses_of (nodes L.seen links.now)) }
{
    first_of(links, node).is_some()
}

/// Whether an address is given twice, by comparing each with all behind it. It takes no memory.
fn repeats_behind<L: ConnectionLike>(links: &[(NodeAddress, L)]) -> bool
    ensures { result ≡ has_repeats (addresses_of (nodes L.seen links.now)) }
{
    'links: for (index, link) in links.iter().enumerate() {
        if is_among(&links[index + 1..], &link.0) {
            return true;
        }
    }
    false
}

/// Links without a table, unless an address is given twice.
fn without_table<L: ConnectionLike + Drop>(links: Vec<(NodeAddress, L)>) -> Option<Links<L>>
    ensures repeated { is_some result ≡ not (has_repeats (addresses_of (nodes L.seen links.items))) }
    ensures kept { IfSome result (λ made. made.nodes ≡ links) }
    ensures known { IfSome result (λ made. knows_links made.places made.nodes.items ≡ true) }
{
    if repeats_behind(&links) {
        return None;
    }
    Some(Links {
        nodes: links,
        places: None,
    })
}

/// The addresses of the links in their order, unless one is given twice.
fn table_of<L: ConnectionLike>(
    alloc: Global,
    links: &[(NodeAddress, L)],
) -> Result<Option<IndexSet<NodeAddress>>, AllocError>
    ensures repeated { IfOk result
        (λ table. is_some table ≡ not (has_repeats (addresses_of (nodes L.seen links.now)))) }
    ensures keys { IfOk result
        (λ table. IfSome table (λ seen. addresses seen.keys ≡ addresses_of (nodes L.seen links.now))) }
{
    let mut seen = IndexSet::with_capacity(alloc, links.len())?;
    'links: for link in links {
        if !seen.insert(link.0.clone()?)? {
            return Ok(None);
        }
    }
    Ok(Some(seen))
}

/// The table with one more address, behind the others where it is new.
fn with_node(
    table: IndexSet<NodeAddress>,
    node: &NodeAddress,
) -> Result<IndexSet<NodeAddress>, AllocError>
    ensures { IfOk result
        (λ more. addresses more.keys ≡ insert_key same_address (addresses table.keys) (address node.now)) }
{
    let mut table = table;
    table.insert(node.clone()?)?;
    Ok(table)
}
