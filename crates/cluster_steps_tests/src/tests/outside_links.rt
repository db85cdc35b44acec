//! Links that are written to from outside. They owe that no two have one address, and nothing to the table of
//! their addresses, which is a hint: a node is found where it stands.
ghost use Rattle.std.specs.Prelude.{◌≡◌, ◌<◌, ◌++◌, ◌∷◌, [], false, map, slice_set, vec_len, IfOk, OnOk};
ghost use Rattle.cluster_routing.specs.Seen.{address};
ghost use Rattle.cluster_calls.specs.Links.World.{nodes, place_at, has_repeats};

use cluster_routing::NodeAddress;
use cluster_steps::links::Links;
use resp_link::{ByteLink, ConnectionLike, MemoryReader, MemoryWriter};
use std::alloc::{AllocError, Global};
use std::test::Fail;

/// Puts a node and its link behind the others.
fn add<L: ConnectionLike + Drop>(
    links: &mut Links<L>,
    node: NodeAddress,
    link: L,
) -> Result<(), AllocError>
    requires { has_repeats (map (λ l. address l.0) (links.old.nodes.items ++ (node, link) ∷ [])) ≡ false }
    ensures { OnOk result (links.new.nodes.items ≡ links.old.nodes.items ++ ((node, link) ∷ [])) }
{
    links.nodes.push((node, link))?;
    Ok(())
}

/// Gives the node at a place another address.
fn rename<L: ConnectionLike>(links: &mut Links<L>, index: usize, node: NodeAddress)
    requires within { index < vec_len links.old.nodes }
    requires distinct { (link : L) → has_repeats (map (λ l. address l.0)
        (slice_set links.old.nodes.items index (node, link))) ≡ false }
    ensures { (link : L) × (links.new.nodes.items ≡ slice_set links.old.nodes.items index (node, link)) }
{
    links.nodes[index].0 = node;
}

/// The place of a node, once another stands behind the others.
fn place_behind<L: ConnectionLike + Drop>(
    links: &mut Links<L>,
    node: NodeAddress,
    link: L,
    wanted: &NodeAddress,
) -> Result<Option<usize>, AllocError>
    requires { has_repeats (map (λ l. address l.0) (links.old.nodes.items ++ (node, link) ∷ [])) ≡ false }
    ensures { IfOk result (λ place. place
        ≡ place_at (nodes L.seen (links.old.nodes.items ++ (node, link) ∷ [])) (address wanted.now)) }
{
    add(links, node, link)?;
    Ok(links.place_of(wanted))
}

/// The place of a node, once the one at a place has another address.
fn place_renamed<L: ConnectionLike>(
    links: &mut Links<L>,
    index: usize,
    node: NodeAddress,
    wanted: &NodeAddress,
) -> Option<usize>
    requires within { index < vec_len links.old.nodes }
    requires distinct { (link : L) → has_repeats (map (λ l. address l.0)
        (slice_set links.old.nodes.items index (node, link))) ≡ false }
    ensures { result ≡ place_at (nodes L.seen links.new.nodes.items) (address wanted.now) }
{
    rename(links, index, node);
    links.place_of(wanted)
}

/// Takes all links away, and puts this one in.
fn put_alone<L: ConnectionLike + Drop>(
    links: &mut Links<L>,
    node: NodeAddress,
    link: L,
) -> Result<(), AllocError>
    ensures { OnOk result (links.new.nodes.items ≡ (node, link) ∷ []) }
{
    links.nodes.clear();
    add(links, node, link)
}

type Link = ByteLink<MemoryReader, MemoryWriter>;

fn link(alloc: Global) -> Link {
    let reader = MemoryReader::new(Vec::new(alloc), 7, 0);
    ByteLink::new(alloc, reader, MemoryWriter::new(alloc, 0))
}

fn node(alloc: Global, port: u16) -> NodeAddress {
    NodeAddress::new(String::new(alloc), port)
}

/// Links to nine nodes, so many that a table is kept.
fn nine_links(alloc: Global) -> Result<Option<Links<Link>>, AllocError> {
    let mut nodes = Vec::new(alloc);
    for port in 0..9 {
        nodes.push((node(alloc, port), link(alloc)))?;
    }
    Ok(Links::new(alloc, nodes))
}

#[test]
fn nodes_are_found_where_they_stand(rt: HostRuntime) -> Result<(), Fail> {
    let alloc = rt.alloc();
    let links = nine_links(alloc)?;
    assert!(rt; links.is_some());
    let Some(mut links) = links else {
        return Ok(());
    };
    assert_eq!(rt; links.place_of(&node(alloc, 5)), Some(5));
    put_alone(&mut links, node(alloc, 5), link(alloc))?;
    assert_eq!(rt; links.place_of(&node(alloc, 5)), Some(0));
    assert_eq!(rt; links.place_of(&node(alloc, 3)), None);
    rename(&mut links, 0, node(alloc, 12));
    assert_eq!(rt; links.place_of(&node(alloc, 5)), None);
    assert_eq!(rt; links.place_of(&node(alloc, 12)), Some(0));
    Ok(())
}
