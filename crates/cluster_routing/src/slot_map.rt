//! The map of slots to nodes.

ghost use Rattle.std.specs.Prelude.{◌≡◌, [], map, IfOk, MatchResult, option_map};
ghost use Rattle.cluster_routing.specs.Choice.{EachLeadsTo, LeadsTo, strategy_of};
ghost use Rattle.cluster_routing.specs.Seen.{address, addresses};
ghost use Rattle.cluster_routing.specs.Ranges.{put};
ghost use Rattle.cluster_routing.specs.SlotMap.{entry_of, put_all, replicas_at, PutsSome};

use crate::address::NodeAddress;
use crate::range::{SlotAddrs, SlotRange};
use crate::range_map::{SlotRangeMap, SlotRangeValues};
use crate::route::Route;
use crate::strategy::ReadRoutingStrategy;
use std::alloc::{AllocError, Global};
use std::marker::Model;

/// Which nodes serve which slots.
///
/// A contract sees it as its entries `(end, (start, nodes))` by ascending distinct ends.
#[derive(Drop)]
pub struct SlotMap {
    slots: SlotRangeMap<SlotAddrs>,
}

impl Model for SlotMap {
    ghost use Rattle.cluster_routing.specs.SlotMap.{SlotEntries};

    ghost Value = { SlotEntries };

    ghost view = { λ m. m.slots };
}

impl SlotMap {
    /// A map without ranges. It takes no memory.
    pub fn new(alloc: Global) -> SlotMap
        ensures { result ≡ [] }
    {
        SlotMap {
            slots: SlotRangeMap::new(alloc),
        }
    }

    /// The map of these ranges. A later range takes the place of an earlier one with an equal
    /// end.
    ///
    /// # Errors
    /// `AllocError` where memory is refused.
    pub fn from_slots(alloc: Global, slots: Vec<SlotRange>) -> Result<SlotMap, AllocError>
        ensures { IfOk result (λ m. m ≡ put_all [] slots.items) }
    {
        let mut map = SlotMap::new(alloc);
        map.fill_slots(by_ends(slots)?)?;
        Ok(map)
    }

    /// Puts in these ranges, one after another; each takes the place of the one with an equal
    /// end.
    ///
    /// # Errors
    /// `AllocError` where memory is refused; then some first of the ranges are put in.
    pub fn fill_slots(&mut self, slots: Vec<SlotRange>) -> Result<(), AllocError>
        ensures { MatchResult result (λ _. self.new ≡ put_all self.old slots.items)
            (λ _. PutsSome self.old slots.items self.new) }
    {
        put_each(&mut self.slots, slots)
    }

    /// The node that a route leads to, of the nodes that serve its slot, chosen as
    /// `SlotAddrs::slot_addr` does; `None` where no range serves the slot.
    pub fn slot_addr_for_route(
        &self,
        route: Route,
        pick: u64,
        strategy: Option<&dyn ReadRoutingStrategy>,
    ) -> Option<&NodeAddress>
        ensures { LeadsTo (strategy_of admits strategy.entry) pick self.now route
            (option_map (λ a. address a.now) result) }
    {
        match self.slots.get(route.slot()) {
            None => None,
            Some(nodes) => Some(nodes.slot_addr(route, pick, strategy)),
        }
    }

    /// For each route, in order, the node that it leads to, as `slot_addr_for_route` answers it.
    /// The places that stand beside the routes are not read.
    ///
    /// # Errors
    /// `AllocError` where memory is refused.
    pub fn addresses_for_multi_slot(
        &self,
        alloc: Global,
        routes: &[(Route, Vec<usize>)],
        pick: u64,
        strategy: Option<&dyn ReadRoutingStrategy>,
    ) -> Result<Vec<Option<&NodeAddress>>, AllocError>
        ensures { IfOk result (λ v. EachLeadsTo (strategy_of admits strategy.entry) pick self.now
            (map (λ r. r.0) routes.now) (map (λ o. option_map (λ a. address a.now) o) v.items)) }
    {
        let mut answers = Vec::new(alloc);
        'routes: for route in routes {
            answers.push(self.slot_addr_for_route(route.0, pick, strategy))?;
        }
        Ok(answers)
    }

    /// The replicas of the range that serves a slot, in the order of their listing; none where no
    /// range serves it. It takes no memory.
    pub fn shard_fallback_addrs(&self, slot: u16) -> &[NodeAddress]
        ensures { addresses result.now ≡ replicas_at slot self.now }
    {
        match self.slots.get(slot) {
            None => &[],
            Some(nodes) => &nodes.replicas,
        }
    }

    /// Forgets all ranges.
    pub fn clear(&mut self)
        ensures { self.new ≡ [] }
    {
        self.slots.clear();
    }

    pub(crate) fn slot_ranges(&self) -> &SlotRangeMap<SlotAddrs>
        ensures { result.now ≡ self.now }
    {
        &self.slots
    }

    /// The nodes of the ranges, by ascending ends of the ranges.
    pub fn values(&self) -> SlotRangeValues<'_, SlotAddrs>
        ensures { result ≡ map (λ e. e.1.1) self.now }
    {
        self.slots.values()
    }
}

/// The ranges by ascending ends, those with an equal end in their order, so that each goes behind the
/// ones before it.
fn by_ends(mut slots: Vec<SlotRange>) -> Result<Vec<SlotRange>, AllocError>
    ensures { IfOk result (λ sorted. put_all [] sorted.items ≡ put_all [] slots.items) }
{
    slots.sort_by_key(|range| range.end)?;
    Ok(slots)
}

fn put_each(map: &mut SlotRangeMap<SlotAddrs>, slots: Vec<SlotRange>) -> Result<(), AllocError>
    ensures { MatchResult result (λ _. map.new ≡ put_all map.old slots.items)
        (λ _. PutsSome map.old slots.items map.new) }
{
    'ranges: for range in slots {
        put_one(map, range)?;
    }
    Ok(())
}

fn put_one(map: &mut SlotRangeMap<SlotAddrs>, range: SlotRange) -> Result<(), AllocError>
    ensures { MatchResult result (λ _. map.new ≡ put map.old (entry_of range)) (λ _. map.new ≡ map.old) }
{
    let SlotRange { start, end, nodes } = range;
    map.insert(start, end, nodes)
}
