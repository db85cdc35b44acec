//! Where the nodes of a map of slots stand in it.

ghost use Rattle.std.specs.Prelude.{◌≡◌, ℕ, Option, Some, false, flat_map, map, option_map, slice_get, unwrap_or, IfOk};
ghost use Rattle.cluster_routing.specs.Address.{Address, same_address};
ghost use Rattle.cluster_routing.specs.AllNodes.{ascending, node_list, node_sets, put_address, put_addresses};
ghost use Rattle.cluster_routing.specs.NodePlaces.{AreAt, node_at};
ghost use Rattle.cluster_routing.specs.Seen.{address};

use crate::address::NodeAddress;
use crate::range::SlotAddrs;
use std::alloc::{AllocError, Global};

/// Of so many ranges all nodes are sorted.
const FEW: usize = 16;

/// Where a node stands in a map of slots.
#[derive(Clone, Copy, Debug, PartialEq, Eq)]
pub struct NodePlace {
    /// The number of a range, by ascending ends.
    pub range: usize,
    /// The number of the node there: the primary has 0, the replicas those behind it.
    pub node: usize,
}

/// A node, and where it stands.
#[derive(Clone, Copy)]
pub(crate) struct PlacedNode<'a> {
    pub(crate) node: &'a NodeAddress,
    pub(crate) place: NodePlace,
}

/// The nodes of these ranges, each with its place, and few of them more than once.
pub(crate) fn placed_nodes(
    alloc: Global,
    ranges: &[(u16, (u16, SlotAddrs))],
) -> Result<Vec<PlacedNode<'_>>, AllocError>
    ensures addresses { IfOk result
        (λ v. ascending (map (λ p. address p.node.now) v.items)
        ≡ ascending (flat_map node_list (node_sets ranges.now))) }
    ensures places { IfOk result (λ v. AreAt (node_at ranges.now) v.items) }
{
    let mut placed = Vec::with_capacity(alloc, ranges.len())?;
    let spots = if ranges.len() <= FEW { 0 } else { ranges.len() };
    let mut latest = Vec::from_elem(alloc, usize::MAX, spots)?;
    'entries: for (range, entry) in ranges.iter().enumerate() {
        push_nodes(&mut placed, &mut latest, &entry.1.1, range)?;
    }
    Ok(placed)
}

/// Puts the nodes of a range behind the others.
fn push_nodes<'a>(
    placed: &mut Vec<PlacedNode<'a>>,
    latest: &mut [usize],
    nodes: &'a SlotAddrs,
    range: usize,
) -> Result<(), AllocError>
    ensures addresses { IfOk result
        (λ _. ascending (map (λ p. address p.node.now) placed.new.items)
        ≡ put_addresses (ascending (map (λ p. address p.node.now) placed.old.items)) (node_list nodes.now)) }
    ensures places { IfOk result (λ _. (at : NodePlace → Option Address)
        → ((n : ℕ) → at (record { range = range; node = n }) ≡ slice_get (node_list nodes.now) n)
        → AreAt at placed.old.items → AreAt at placed.new.items) }
{
    let place = NodePlace { range, node: 0 };
    let node = nodes.primary();
    push_node(placed, latest, PlacedNode { node, place })?;
    'replicas: for (number, node) in nodes.replicas().iter().enumerate() {
        let place = NodePlace {
            range,
            node: number + 1,
        };
        push_node(placed, latest, PlacedNode { node, place })?;
    }
    Ok(())
}

/// Puts a node behind the others, unless the latest one of its spot has its address: a node with many
/// ranges comes again and again, and one that is left out here has not to be sorted. `latest` has
/// the index of that node.
fn push_node<'a>(
    placed: &mut Vec<PlacedNode<'a>>,
    latest: &mut [usize],
    node: PlacedNode<'a>,
) -> Result<(), AllocError>
    ensures addresses { IfOk result
        (λ _. ascending (map (λ p. address p.node.now) placed.new.items)
        ≡ put_address (address node.entry.node.now) (ascending (map (λ p. address p.node.now) placed.old.items))) }
    ensures places { IfOk result
        (λ _. (at : NodePlace → Option Address) → at node.entry.place ≡ Some (address node.entry.node.now)
        → AreAt at placed.old.items → AreAt at placed.new.items) }
{
    let spot = spot_among(latest.len(), node.node);
    if let Some(index) = latest.get_mut(spot) {
        match placed.get(*index) {
            Some(other) if other.node == node.node => return Ok(()),
            _ => *index = placed.len(),
        }
    }
    placed.push(node)?;
    Ok(())
}

/// A number below a count, where that is not 0, by the end of the host and the port: equal addresses
/// have the same, and few others.
fn spot_among(count: usize, node: &NodeAddress) -> usize {
    let end = match node.host().as_bytes().last_chunk::<8>() {
        Some(end) => u64::from_be_bytes(*end),
        None => 0,
    };
    let sum = (end.wrapping_mul(0x9e37_79b9_7f4a_7c15) >> 32) as usize ^ node.port() as usize;
    sum.checked_rem(count).unwrap_or(0)
}

/// These nodes in the order of their addresses, each address once.
pub(crate) fn once_ascending(nodes: Vec<PlacedNode<'_>>) -> Result<Vec<PlacedNode<'_>>, AllocError>
    ensures addresses { IfOk result
        (λ v. map (λ p. address p.node.now) v.items
        ≡ ascending (map (λ p. address p.node.now) nodes.entry.items)) }
    ensures places { IfOk result
        (λ v. (at : NodePlace → Option Address) → AreAt at nodes.entry.items → AreAt at v.items) }
{
    let mut sorted = nodes;
    sorted.sort_unstable_by_key(|placed| placed.node);
    let mut once = Vec::with_capacity(*sorted.allocator(), sorted.len())?;
    let mut last = None;
    'nodes: for placed in &sorted {
        if !is_last(last, placed.node) {
            once.push(*placed)?;
            last = Some(placed.node);
        }
    }
    Ok(once)
}

/// Whether an address is the last one, where there is one.
fn is_last(last: Option<&NodeAddress>, node: &NodeAddress) -> bool
    ensures { result
        ≡ unwrap_or (option_map (λ l. same_address (address l.now) (address node.now)) last.entry) false }
{
    match last {
        Some(last) => last == node,
        None => false,
    }
}
