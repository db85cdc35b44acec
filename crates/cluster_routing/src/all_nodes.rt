//! The addresses of a map of slots, each once, in their order.

ghost use Rattle.std.specs.Prelude.{◌≡◌, map, option_map, IfOk};
ghost use Rattle.cluster_routing.specs.AllNodes.{all_nodes, all_primaries};
ghost use Rattle.cluster_routing.specs.NodePlaces.{AreOfAll, node_at};
ghost use Rattle.cluster_routing.specs.Seen.{address};

use crate::address::NodeAddress;
use crate::node_places::{NodePlace, PlacedNode, once_ascending, placed_nodes};
use crate::slot_map::SlotMap;
use std::alloc::{AllocError, Global};

impl SlotMap {
    /// The primaries of the ranges, each address once, in the order of addresses.
    ///
    /// # Errors
    /// `AllocError` where memory is refused.
    pub fn addresses_for_all_primaries(
        &self,
        alloc: Global,
    ) -> Result<Vec<&NodeAddress>, AllocError>
        ensures { IfOk result (λ v. map (λ a. address a.now) v.items ≡ all_primaries self.now) }
    {
        let mut primaries = Vec::with_capacity(alloc, self.slot_ranges().len())?;
        'entries: for (range, entry) in self.slot_ranges().entries().iter().enumerate() {
            primaries.push(PlacedNode {
                node: entry.1.1.primary(),
                place: NodePlace { range, node: 0 },
            })?;
        }
        addresses_of(once_ascending(primaries)?)
    }

    /// The primaries and the replicas of the ranges, each address once, in the order of
    /// addresses.
    ///
    /// # Errors
    /// `AllocError` where memory is refused.
    pub fn addresses_for_all_nodes(&self, alloc: Global) -> Result<Vec<&NodeAddress>, AllocError>
        ensures { IfOk result (λ v. map (λ a. address a.now) v.items ≡ all_nodes self.now) }
    {
        addresses_of(once_ascending(placed_nodes(alloc, self.slot_ranges().entries())?)?)
    }

    /// For each address of the ranges' nodes a place at which it stands, in the order of
    /// addresses.
    ///
    /// # Errors
    /// `AllocError` where memory is refused.
    pub fn places_of_all_nodes(&self, alloc: Global) -> Result<Vec<NodePlace>, AllocError>
        ensures { IfOk result (λ v. AreOfAll self.now v.items) }
    {
        let placed = once_ascending(placed_nodes(alloc, self.slot_ranges().entries())?)?;
        let mut places = Vec::with_capacity(alloc, placed.len())?;
        'nodes: for node in &placed {
            places.push(node.place)?;
        }
        Ok(places)
    }

    /// The node that stands at a place, if one does.
    pub fn node_at(&self, place: NodePlace) -> Option<&NodeAddress>
        ensures { option_map (λ a. address a.now) result ≡ node_at self.now place }
    {
        let (_, (_, nodes)) = self.slot_ranges().entries().get(place.range)?;
        nodes.at(place.node)
    }
}

/// The nodes without their places.
fn addresses_of(placed: Vec<PlacedNode<'_>>) -> Result<Vec<&NodeAddress>, AllocError>
    ensures { IfOk result
        (λ v. map (λ a. address a.now) v.items ≡ map (λ p. address p.node.now) placed.entry.items) }
{
    let mut nodes = Vec::with_capacity(*placed.allocator(), placed.len())?;
    'nodes: for node in &placed {
        nodes.push(node.node)?;
    }
    Ok(nodes)
}
