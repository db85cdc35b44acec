//! Choices of a node by its number among all nodes of a slot map.
ghost use Rattle.std.specs.Prelude.{◌≡◌, ◌≢◌, Err, option_map};
ghost use Rattle.resp_core.specs.Errors.{by_cause};
ghost use Rattle.resp_core.specs.declared.errors.redis_error.Cause.TheVariants.{Memory};
ghost use Rattle.cluster_routing.specs.AllNodes.{all_nodes};
ghost use Rattle.cluster_routing.specs.NodePlaces.{AreOfAll};
ghost use Rattle.cluster_routing.specs.Seen.{address};
ghost use Rattle.cluster_calls.specs.Calls.Plan.{by_number};
ghost use Rattle.cluster_steps.specs.FirstPlaces.{node_by, node_by_place};

use cluster_routing::{NodeAddress, NodePlace, SlotMap};
use resp_core::{Cause, RedisError};
use std::alloc::Global;
use std::marker::Model;

/// A slot map, and the list of all of its nodes from the first choice by a number on.
///
/// A contract sees it as the slot map.
#[derive(Drop)]
pub struct NumberedMap {
    map: SlotMap,

    // Where each of all nodes stands, in the order of addresses. A choice without them sorts the nodes of the map.
    all: Option<Vec<NodePlace>>,
}

impl Model for NumberedMap {
    ghost use Rattle.std.specs.Prelude.{IfSome};
    ghost use Rattle.cluster_routing.specs.NodePlaces.{AreOfAll};
    ghost use Rattle.cluster_routing.specs.SlotMap.{SlotEntries};

    ghost Value = { SlotEntries };

    ghost view = { λ m. m.map };

    ghost invariant = { λ m. IfSome m.all (λ all. AreOfAll m.map all.items) };
}

/// The item with a number among these, modulo their count.
fn item_among<T>(all: &[T], number: u64) -> Option<&T>
    ensures { option_map (λ item. item.now) result ≡ by_number number all.now }
{
    if all.is_empty() {
        return None;
    }
    Some(&all[(number % all.len() as u64) as usize])
}

/// The node with a number among all nodes, ascending.
fn node_by_number<'a>(
    alloc: Global,
    slots: &'a SlotMap,
    number: u64,
) -> Result<&'a NodeAddress, RedisError>
    ensures { result ≢ Err (by_cause Memory)
        → node_by (λ node. address node.now) result ≡ node_by_place (by_number number (all_nodes slots.now)) }
{
    let all = slots.addresses_for_all_nodes(alloc)?;
    match item_among(&all, number) {
        None => Err(RedisError::from(Cause::NoNode)),
        Some(node) => Ok(*node),
    }
}

impl NumberedMap {
    /// A slot map whose nodes are not listed. It takes no memory.
    pub fn new(map: SlotMap) -> NumberedMap
        ensures { result ≡ map }
    {
        NumberedMap { map, all: None }
    }

    /// The slot map.
    pub fn map(&self) -> &SlotMap
        ensures { result.now ≡ self.now }
    {
        &self.map
    }

    /// Puts another slot map in the place of this one. Its nodes are not listed.
    pub fn renew(&mut self, map: SlotMap)
        ensures { self.new ≡ map }
    {
        self.map = map;
        self.all = None;
    }

    /// Lists all nodes, unless they are listed. Where memory is refused for the list, the map goes without.
    pub(crate) fn list_nodes(&mut self, alloc: Global)
        ensures { self.new ≡ self.old }
    {
        if self.all.is_none() {
            self.all = self.map.places_of_all_nodes(alloc).ok();
        }
    }

    /// The node with a number among all nodes, ascending, modulo their count.
    ///
    /// # Errors
    /// `NoNode` where the slot map has no node; `Memory`, never where the nodes are listed.
    pub(crate) fn node_by_number(
        &self,
        alloc: Global,
        number: u64,
    ) -> Result<&NodeAddress, RedisError>
        ensures { result ≢ Err (by_cause Memory)
            → node_by (λ node. address node.now) result ≡ node_by_place (by_number number (all_nodes self.now)) }
    {
        match &self.all {
            Some(all) => match self.listed_node(all, number) {
                None => Err(RedisError::from(Cause::NoNode)),
                Some(node) => Ok(node),
            },
            None => node_by_number(alloc, &self.map, number),
        }
    }

    /// The node at the place with a number among these, modulo their count.
    fn listed_node(&self, all: &[NodePlace], number: u64) -> Option<&NodeAddress>
        requires { AreOfAll self.now all.now }
        ensures { option_map (λ node. address node.now) result ≡ by_number number (all_nodes self.now) }
    {
        self.map.node_at(*item_among(all, number)?)
    }
}
