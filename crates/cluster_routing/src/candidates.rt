//! The nodes that a strategy for reads chooses among.

ghost use Rattle.std.specs.Prelude.{◌≡◌, ◌<◌, ◌%◌, [], length, slice_get, None, Some, option_map};
ghost use Rattle.std.specs.Slice.Iter.{iter_rest};
ghost use Rattle.cluster_routing.specs.Seen.{address, addresses};
ghost use Rattle.cluster_routing.specs.Candidates.{some_replicas};

use crate::address::NodeAddress;
use std::marker::Model;
use std::slice::Iter;

/// One replica or more.
#[derive(Drop)]
pub struct Replicas<'a> {
    slice: &'a [NodeAddress],
}

impl<'a> Model for Replicas<'a> {
    ghost use Rattle.std.specs.Prelude.{List, length, ◌<◌};
    ghost use Rattle.cluster_routing.specs.Address.{Address};
    ghost use Rattle.cluster_routing.specs.Seen.{addresses};

    ghost Value = { List Address };

    ghost view = { λ r. addresses r.slice.now };

    ghost invariant = { λ r. 0 < length r.slice.now };
}

impl<'a> Replicas<'a> {
    /// These replicas; `None` where there is none.
    pub fn new(slice: &'a [NodeAddress]) -> Option<Replicas<'a>>
        ensures { result ≡ some_replicas (addresses slice.now) }
    {
        if slice.is_empty() {
            None
        } else {
            Some(Replicas { slice })
        }
    }

    /// How many there are: 1 or more.
    pub fn len(&self) -> usize
        ensures count { result ≡ length self.now }
        ensures some { 0 < result }
    {
        self.slice.len()
    }

    /// The first one.
    pub fn first(&self) -> &'a NodeAddress
        ensures { slice_get self.now 0 ≡ Some (address result.now) }
    {
        &self.slice[0]
    }

    /// The one at a place, counted from 0; `None` behind the last.
    pub fn get(&self, idx: usize) -> Option<&'a NodeAddress>
        ensures { option_map (λ a. address a.now) result ≡ slice_get self.now idx }
    {
        self.slice.get(idx)
    }

    /// The one that a number picks: the number modulo the count is its place.
    pub fn choose_random(&self, pick: u64) -> &'a NodeAddress
        ensures { slice_get self.now (pick % length self.now) ≡ Some (address result.now) }
    {
        let slice = self.slice;
        &slice[(pick % slice.len() as u64) as usize]
    }

    /// All of them in order.
    pub fn iter(&self) -> Iter<'a, NodeAddress>
        ensures { addresses (iter_rest result) ≡ self.now }
    {
        self.slice.iter()
    }
}

/// A slot's primary and replicas, of which any may serve a read.
#[derive(Drop)]
pub struct AnyNodeCandidates<'a> {
    slot: u16,
    primary: &'a NodeAddress,
    replicas: Replicas<'a>,
}

impl<'a> Model for AnyNodeCandidates<'a> {
    ghost use Rattle.cluster_routing.specs.Candidates.{AnyNodeOf};
    ghost use Rattle.cluster_routing.specs.Seen.{address};

    ghost Value = { AnyNodeOf };

    ghost view = { λ c. record
        { slot = c.slot; nodes = record { primary = address c.primary.now; replicas = c.replicas } } };
}

impl<'a> AnyNodeCandidates<'a> {
    /// The candidates of the slot of this number with these nodes.
    pub fn new(slot: u16, primary: &'a NodeAddress, replicas: Replicas<'a>) -> AnyNodeCandidates<'a>
        ensures { result ≡ record
            { slot = slot; nodes = record { primary = address primary.now; replicas = replicas.entry } } }
    {
        AnyNodeCandidates {
            slot,
            primary,
            replicas,
        }
    }

    /// The slot that is read.
    pub fn slot(&self) -> u16
        ensures { result ≡ self.now.slot }
    {
        self.slot
    }

    /// Its primary.
    pub fn primary(&self) -> &'a NodeAddress
        ensures { address result.now ≡ self.now.nodes.primary }
    {
        self.primary
    }

    /// Its replicas.
    pub fn replicas(&self) -> &Replicas<'a>
        ensures { result.now ≡ self.now.nodes.replicas }
    {
        &self.replicas
    }
}

/// A slot's replicas, of which one is to serve a read.
#[derive(Drop)]
pub struct ReplicasOnlyCandidates<'a> {
    slot: u16,
    replicas: Replicas<'a>,
}

impl<'a> Model for ReplicasOnlyCandidates<'a> {
    ghost use Rattle.cluster_routing.specs.Candidates.{ReplicasOf};

    ghost Value = { ReplicasOf };

    ghost view = { λ c. record { slot = c.slot; replicas = c.replicas } };
}

impl<'a> ReplicasOnlyCandidates<'a> {
    /// The candidates of the slot of this number with these replicas.
    pub fn new(slot: u16, replicas: Replicas<'a>) -> ReplicasOnlyCandidates<'a>
        ensures { result ≡ record { slot = slot; replicas = replicas.entry } }
    {
        ReplicasOnlyCandidates { slot, replicas }
    }

    /// The slot that is read.
    pub fn slot(&self) -> u16
        ensures { result ≡ self.now.slot }
    {
        self.slot
    }

    /// Its replicas.
    pub fn replicas(&self) -> &Replicas<'a>
        ensures { result.now ≡ self.now.replicas }
    {
        &self.replicas
    }
}

/// The nodes of which a strategy chooses one. (Documentation of the crate `redis`.)
#[derive(Drop)]
pub enum ReadCandidates<'a> {
    /// Any node of the slot.
    AnyNode(AnyNodeCandidates<'a>),
    /// The replicas of the slot alone.
    ReplicasOnly(ReplicasOnlyCandidates<'a>),
}
