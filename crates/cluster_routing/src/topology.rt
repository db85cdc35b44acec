//! The shards of a cluster: which nodes serve which ranges of slots.

ghost use Rattle.std.specs.Prelude.{◌≡◌, [], IfOk, option_copied};
ghost use Rattle.std.specs.Slice.Iter.{iter_rest};
ghost use Rattle.cluster_routing.specs.Seen.{address, addresses, primary_with};
ghost use Rattle.cluster_routing.specs.Topology.{put_places, put_ranges, shard_at};

use crate::address::NodeAddress;
use crate::range::SlotAddrs;
use crate::range_map::SlotRangeMap;
use std::alloc::{AllocError, Global};
use std::marker::Model;
use std::slice::Iter;

/// A primary and its replicas, and the ranges of slots that they serve. (Documentation of the
/// crate `redis`.)
#[derive(Debug, Drop)]
pub struct Shard {
    slot_ranges: Vec<(u16, u16)>,
    nodes: SlotAddrs,
}

impl Model for Shard {
    ghost use Rattle.cluster_routing.specs.Topology.{ShardOf};

    ghost Value = { ShardOf };

    ghost view = { λ s. record { ranges = s.slot_ranges.items; nodes = s.nodes } };
}

impl Shard {
    /// These nodes with these ranges, each by its start and its end. It takes no memory.
    pub fn new(
        slot_ranges: Vec<(u16, u16)>,
        primary: NodeAddress,
        replicas: Vec<NodeAddress>,
    ) -> Shard
        ensures { result
            ≡ record { ranges = slot_ranges.items; nodes = primary_with primary replicas.items } }
    {
        Shard {
            slot_ranges,
            nodes: SlotAddrs::new(primary, replicas),
        }
    }

    /// The ranges of slots, each by its start and its end.
    pub fn slot_ranges(&self) -> &[(u16, u16)]
        ensures { result.now ≡ self.now.ranges }
    {
        &self.slot_ranges
    }

    /// The primary.
    pub fn primary(&self) -> &NodeAddress
        ensures { address result.now ≡ self.now.nodes.primary }
    {
        self.nodes.primary()
    }

    /// The replicas, in the order of their listing.
    pub fn replicas(&self) -> &[NodeAddress]
        ensures { addresses result.now ≡ self.now.nodes.replicas }
    {
        self.nodes.replicas()
    }

    /// An equal shard.
    ///
    /// # Errors
    /// `AllocError` where memory is refused.
    pub fn clone(&self) -> Result<Shard, AllocError>
        ensures { IfOk result (λ copy. copy ≡ self.now) }
    {
        Ok(Shard {
            slot_ranges: Vec::from_slice(*self.slot_ranges.allocator(), self.slot_ranges())?,
            nodes: self.nodes.clone()?,
        })
    }
}

/// The shards of a cluster at one moment. (Documentation of the crate `redis`.)
///
/// A contract sees it as the list of the shards.
#[derive(Drop)]
pub struct ClusterTopology {
    shards: Vec<Shard>,
    by_slot: SlotRangeMap<usize>,
}

impl Model for ClusterTopology {
    ghost use Rattle.std.specs.Prelude.{◌≡◌, [], List};
    ghost use Rattle.cluster_routing.specs.Topology.{ShardOf, put_places};

    ghost Value = { List ShardOf };

    ghost view = { λ t. t.shards.items };

    ghost invariant = { λ t. t.by_slot ≡ put_places 0 [] t.shards.items };
}

impl ClusterTopology {
    /// The topology of these shards, in their order. Where several ranges have one end, the last
    /// of them counts.
    ///
    /// # Errors
    /// `AllocError` where memory is refused.
    pub fn from_shards(alloc: Global, shards: Vec<Shard>) -> Result<ClusterTopology, AllocError>
        ensures { IfOk result (λ t. t ≡ shards.items) }
    {
        let by_slot = places_of(alloc, &shards)?;
        Ok(ClusterTopology { shards, by_slot })
    }

    /// The shard that serves a slot: that of the range with the least end not below the slot, if
    /// that range does not begin above the slot. It takes no memory.
    pub fn shard_for_slot(&self, slot: u16) -> Option<&Shard>
        ensures { option_copied result ≡ shard_at slot self.now }
    {
        match self.by_slot.get(slot) {
            None => None,
            Some(place) => self.shards.get(*place),
        }
    }

    /// The shards in order.
    pub fn shards(&self) -> Iter<'_, Shard>
        ensures { iter_rest result ≡ self.now }
    {
        self.shards.iter()
    }

    /// The topology of equal shards, in the same order.
    ///
    /// # Errors
    /// `AllocError` where memory is refused.
    pub fn clone(&self) -> Result<ClusterTopology, AllocError>
        ensures { IfOk result (λ copy. copy ≡ self.now) }
    {
        let alloc = *self.shards.allocator();
        ClusterTopology::from_shards(alloc, shard_copies(alloc, &self.shards)?)
    }
}

/// Equal shards in the same order.
fn shard_copies(alloc: Global, shards: &[Shard]) -> Result<Vec<Shard>, AllocError>
    ensures { IfOk result (λ v. v.items ≡ shards.now) }
{
    let mut copies = Vec::new(alloc);
    'shards: for shard in shards {
        copies.push(shard.clone()?)?;
    }
    Ok(copies)
}

/// The place of each range's shard.
fn places_of(alloc: Global, shards: &[Shard]) -> Result<SlotRangeMap<usize>, AllocError>
    ensures { IfOk result (λ m. m ≡ put_places 0 [] shards.now) }
{
    let mut by_slot = SlotRangeMap::new(alloc);
    'shards: for (place, shard) in shards.iter().enumerate() {
        put_ranges(&mut by_slot, shard.slot_ranges(), place)?;
    }
    Ok(by_slot)
}

fn put_ranges(
    map: &mut SlotRangeMap<usize>,
    ranges: &[(u16, u16)],
    place: usize,
) -> Result<(), AllocError>
    ensures { IfOk result (λ _. map.new ≡ put_ranges map.old ranges.now place) }
{
    'ranges: for (start, end) in ranges {
        map.insert(*start, *end, place)?;
    }
    Ok(())
}
