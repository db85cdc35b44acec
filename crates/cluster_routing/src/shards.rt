//! The shards that a map of slots makes.

ghost use Rattle.std.specs.Prelude.{◌≡◌, ℕ, map, option_map, IfOk};
ghost use Rattle.std.specs.Cmp.Lexicographic.{pointwise};
ghost use Rattle.cluster_routing.specs.Address.{same_address};
ghost use Rattle.cluster_routing.specs.AllNodes.{node_sets};
ghost use Rattle.cluster_routing.specs.Lists.{among, firsts};
ghost use Rattle.cluster_routing.specs.Ranges.{IsAscending};
ghost use Rattle.cluster_routing.specs.Seen.{addresses};
ghost use Rattle.cluster_routing.specs.SlotMap.{nodes_at};
ghost use Rattle.cluster_routing.specs.Topology.{same_nodes, shard_at, shard_with, shards_of, spans_of};

use crate::address::{NodeAddress, copies_of};
use crate::range::SlotAddrs;
use crate::range_map::SlotRangeMap;
use crate::slot_map::SlotMap;
use crate::topology::{ClusterTopology, Shard};
use std::alloc::{AllocError, Global};

impl SlotMap {
    /// The shards of the map: its sets of nodes in order of first appearance, by ascending ends
    /// of the ranges, each with its ranges. Ranges belong to one shard where their primaries are
    /// equal, and their replicas in order. So each slot has the shard of the nodes that the map
    /// has for it.
    ///
    /// # Errors
    /// `AllocError` where memory is refused.
    pub fn topology(&self, alloc: Global) -> Result<ClusterTopology, AllocError>
        ensures shards { IfOk result (λ t. t ≡ shards_of self.now) }
        ensures serves { IfOk result
            (λ t. (slot : ℕ) → option_map (λ s. s.nodes) (shard_at slot t) ≡ nodes_at slot self.now) }
    {
        let sets = distinct_nodes(alloc, self.slot_ranges())?;
        ClusterTopology::from_shards(alloc, shards_with(alloc, self.slot_ranges(), &sets)?)
    }
}

/// Each set of nodes, in order of first appearance. The ends of the ranges ascend.
fn distinct_nodes(
    alloc: Global,
    ranges: &SlotRangeMap<SlotAddrs>,
) -> Result<Vec<&SlotAddrs>, AllocError>
    ensures sets { IfOk result (λ v. map (λ n. n.now) v.items ≡ firsts same_nodes (node_sets ranges.now)) }
    ensures ascending { IsAscending ranges.now }
{
    let mut seen = Vec::new(alloc);
    'ranges: for nodes in ranges.values() {
        if !is_among(nodes, &seen) {
            seen.push(nodes)?;
        }
    }
    Ok(seen)
}

fn is_among(nodes: &SlotAddrs, seen: &[&SlotAddrs]) -> bool
    ensures { result ≡ among same_nodes nodes.now (map (λ n. n.now) seen.now) }
{
    'seen: for other in seen {
        if same_nodes(nodes, other) {
            return true;
        }
    }
    false
}

fn same_nodes(a: &SlotAddrs, b: &SlotAddrs) -> bool
    ensures { result ≡ same_nodes a.now b.now }
{
    a.primary() == b.primary() && same_addresses(a.replicas(), b.replicas())
}

fn same_addresses(a: &[NodeAddress], b: &[NodeAddress]) -> bool
    ensures { result ≡ pointwise same_address (addresses a.now) (addresses b.now) }
{
    a == b
}

/// The shard of each set of nodes.
fn shards_with(
    alloc: Global,
    ranges: &SlotRangeMap<SlotAddrs>,
    sets: &[&SlotAddrs],
) -> Result<Vec<Shard>, AllocError>
    ensures { IfOk result (λ v. v.items ≡ map (shard_with ranges.now) (map (λ n. n.now) sets.now)) }
{
    let mut shards = Vec::new(alloc);
    'sets: for nodes in sets {
        shards.push(shard_with(alloc, ranges, nodes)?)?;
    }
    Ok(shards)
}

fn shard_with(
    alloc: Global,
    ranges: &SlotRangeMap<SlotAddrs>,
    nodes: &SlotAddrs,
) -> Result<Shard, AllocError>
    ensures { IfOk result (λ s. s ≡ shard_with ranges.now nodes.now) }
{
    let slot_ranges = spans_of(alloc, ranges, nodes)?;
    let primary = nodes.primary().clone()?;
    let replicas = copies_of(alloc, nodes.replicas())?;
    Ok(Shard::new(slot_ranges, primary, replicas))
}

/// The ranges that these nodes serve.
fn spans_of(
    alloc: Global,
    ranges: &SlotRangeMap<SlotAddrs>,
    nodes: &SlotAddrs,
) -> Result<Vec<(u16, u16)>, AllocError>
    ensures { IfOk result (λ v. v.items ≡ spans_of nodes.now ranges.now) }
{
    let mut spans = Vec::new(alloc);
    'ranges: for (start, end, other) in ranges.iter() {
        if same_nodes(nodes, other) {
            spans.push((start, end))?;
        }
    }
    Ok(spans)
}
