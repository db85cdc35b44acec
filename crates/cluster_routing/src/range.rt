//! Ranges of slots, and the nodes that serve them.

ghost use Rattle.std.specs.Prelude.{◌≡◌, ◌∷◌, option_map, slice_get, IfOk};
ghost use Rattle.cluster_routing.specs.AllNodes.{node_list};
ghost use Rattle.cluster_routing.specs.Choice.{IsChosen, strategy_of};
ghost use Rattle.cluster_routing.specs.Seen.{address, addresses};

use crate::address::{NodeAddress, copies_of};
use crate::candidates::Replicas;
use crate::route::Route;
use crate::strategy::{ReadRoutingStrategy, node_among};
use std::alloc::AllocError;
use std::marker::Model;
use std::slice::Iter;

/// The nodes that serve a range of slots: a primary, and its replicas in the order of their
/// listing. It may be walked as an iterator, the primary first.
#[derive(Debug, Drop)]
pub struct SlotAddrs {
    pub(crate) primary: NodeAddress,
    pub(crate) replicas: Vec<NodeAddress>,
}

impl Model for SlotAddrs {
    ghost use Rattle.cluster_routing.specs.SlotMap.{Nodes};
    ghost use Rattle.cluster_routing.specs.Seen.{address, addresses};

    ghost Value = { Nodes };

    ghost view = { λ s. record { primary = address s.primary; replicas = addresses s.replicas.items } };
}

impl SlotAddrs {
    /// These nodes. It takes no memory.
    pub fn new(primary: NodeAddress, replicas: Vec<NodeAddress>) -> SlotAddrs
        ensures { result ≡ record { primary = address primary; replicas = addresses replicas.items } }
    {
        SlotAddrs { primary, replicas }
    }

    /// The nodes of a range. It takes no memory.
    pub fn from_slot(slot: SlotRange) -> SlotAddrs
        ensures { result ≡ slot.nodes }
    {
        let SlotRange {
            start: _,
            end: _,
            nodes,
        } = slot;
        nodes
    }

    /// The primary.
    pub fn primary(&self) -> &NodeAddress
        ensures { address result.now ≡ self.now.primary }
    {
        &self.primary
    }

    /// The replicas, in the order of their listing.
    pub fn replicas(&self) -> &[NodeAddress]
        ensures { addresses result.now ≡ self.now.replicas }
    {
        &self.replicas
    }

    /// The node with a number: the primary has 0, the replicas those behind it.
    pub(crate) fn at(&self, number: usize) -> Option<&NodeAddress>
        ensures { option_map (λ a. address a.now) result ≡ slice_get (node_list self.now) number }
    {
        match number.checked_sub(1) {
            None => Some(&self.primary),
            Some(number) => self.replicas.get(number),
        }
    }

    /// The same nodes.
    ///
    /// # Errors
    /// `AllocError` where memory is refused.
    pub(crate) fn clone(&self) -> Result<SlotAddrs, AllocError>
        ensures { IfOk result (λ copy. copy ≡ self.now) }
    {
        let primary = self.primary.clone()?;
        let replicas = copies_of(*self.replicas.allocator(), &self.replicas)?;
        Ok(SlotAddrs::new(primary, replicas))
    }

    /// The node that serves a request with this route.
    ///
    /// `Master`, and every route where there are no replicas: the primary. `ReplicaOptional`: the
    /// strategy's answer, without a strategy the primary. `ReplicaRequired`: the strategy's
    /// answer, without a strategy the replica that `pick` numbers, modulo their count. The
    /// strategy is asked once at most. (Documentation of the crate `redis`.)
    pub fn slot_addr(
        &self,
        route: Route,
        pick: u64,
        strategy: Option<&dyn ReadRoutingStrategy>,
    ) -> &NodeAddress
        ensures { IsChosen (strategy_of admits strategy.entry) route.slot route.slot_addr pick
            self.now (address result.now) }
    {
        match Replicas::new(&self.replicas) {
            None => &self.primary,
            Some(replicas) => node_among(route, &self.primary, replicas, pick, strategy),
        }
    }
}

/// Slots from `start` to `end`, and the nodes that serve them.
#[derive(Debug, Drop)]
pub struct SlotRange {
    pub(crate) start: u16,
    pub(crate) end: u16,
    pub(crate) nodes: SlotAddrs,
}

impl Model for SlotRange {
    ghost use Rattle.cluster_routing.specs.SlotMap.{Range};

    ghost Value = { Range };

    ghost view = { λ r. record { start = r.start; last = r.end; nodes = r.nodes } };
}

impl SlotRange {
    /// The slots from `s` to `e` with the primary `m` and the replicas `r`. It takes no memory.
    pub fn new(s: u16, e: u16, m: NodeAddress, r: Vec<NodeAddress>) -> SlotRange
        ensures { result ≡ record
            { start = s; last = e; nodes = record { primary = address m; replicas = addresses r.items } } }
    {
        SlotRange {
            start: s,
            end: e,
            nodes: SlotAddrs::new(m, r),
        }
    }

    /// The first slot.
    pub fn start(&self) -> u16
        ensures { result ≡ self.now.start }
    {
        self.start
    }

    /// The last slot.
    pub fn end(&self) -> u16
        ensures { result ≡ self.now.last }
    {
        self.end
    }

    /// The nodes that serve the slots.
    pub fn addrs(&self) -> &SlotAddrs
        ensures { result.now ≡ self.now.nodes }
    {
        &self.nodes
    }
}

/// The nodes of a range of slots, the primary first.
#[derive(Drop)]
pub struct SlotAddrsIter<'a> {
    primary: Option<&'a NodeAddress>,
    replicas: Iter<'a, NodeAddress>,
}

impl<'a> Model for SlotAddrsIter<'a> {
    ghost use Rattle.std.specs.Prelude.{List};
    ghost use Rattle.std.specs.Slice.Iter.{iter_rest};
    ghost use Rattle.cluster_routing.specs.Address.{Address};
    ghost use Rattle.cluster_routing.specs.Seen.{addresses, first_and_rest};

    ghost Value = { List Address };

    ghost view = { λ i. first_and_rest i.primary (iter_rest i.replicas) };
}

impl<'a> Iterator for SlotAddrsIter<'a> {
    type Item = &'a NodeAddress;

    ghost use Rattle.std.specs.Iterator.{item_count, YieldsFirstBy};
    ghost use Rattle.cluster_routing.specs.Seen.{address};

    ghost next_gives = { YieldsFirstBy (λ a. address a.now) (λ s. s) };

    ghost remaining = { item_count (λ s. s) };

    fn next(&mut self) -> Option<&'a NodeAddress> {
        match self.primary.take() {
            Some(primary) => Some(primary),
            None => self.replicas.next(),
        }
    }
}

impl<'a> IntoIterator for &'a SlotAddrs {
    type Item = &'a NodeAddress;

    type IntoIter = SlotAddrsIter<'a>;

    ghost into_iter_gives = { λ s i. i ≡ s.now.primary ∷ s.now.replicas };

    fn into_iter(self) -> SlotAddrsIter<'a> {
        SlotAddrsIter {
            primary: Some(&self.primary),
            replicas: self.replicas.iter(),
        }
    }
}
