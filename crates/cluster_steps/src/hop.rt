//! Where a part goes first: the node that serves its slot, that a strategy picks or that a number
//! chooses, and the place of its link.
ghost use Rattle.std.specs.Prelude.{◌≡◌, ◌≢◌, ◌<◌, is_some, length, IfOk, Err, option_map, false};
ghost use Rattle.resp_core.specs.Errors.{by_cause};
ghost use Rattle.resp_core.specs.declared.errors.redis_error.Cause.TheVariants.{Memory};
ghost use Rattle.cluster_routing.specs.Choice.{strategy_of};
ghost use Rattle.cluster_routing.specs.Seen.{address};
ghost use Rattle.cluster_calls.specs.Links.World.{open_links};
ghost use Rattle.cluster_calls.specs.Links.Places.{IsOpenAt};
ghost use Rattle.cluster_steps.specs.FirstPlaces.{IsPickOf, if_linked, node_by, node_in, node_of_hop, node_with_link, target_of};
ghost use Rattle.cluster_steps.specs.Picker.{FindsBy};
ghost use Rattle.cluster_calls.specs.Calls.Parts.{at_slot};
ghost use Rattle.cluster_calls.specs.Calls.Plan.{is_read, target_candidates};

use crate::node_links::NodeLinks;
use crate::numbered_map::NumberedMap;
use crate::picker::Picker;
use crate::route::Target;
use cluster_routing::{NodeAddress, ReadRoutingStrategy, Route, SlotAddr, SlotMap};
use resp_core::{Cause, RedisError};
use std::alloc::Global;

/// A node, the place of its link, and whether ASKING goes before the request.
#[derive(Drop)]
pub struct Hop {
    pub node: NodeAddress,
    pub link: usize,
    pub asking: bool,
}

fn is_read(role: SlotAddr) -> bool
    ensures { result ≡ is_read role }
{
    role != SlotAddr::Master
}

/// Whether a strategy is asked for a route: for a read of a slot that has replicas.
fn is_asked(slots: &SlotMap, route: Route) -> bool
    ensures { result ≡ is_some (target_candidates slots.now (at_slot route)) }
{
    is_read(route.slot_addr()) && !slots.shard_fallback_addrs(route.slot()).is_empty()
}

/// What a strategy answers for a route, where there is one and it is asked.
fn pick<'a>(
    slots: &'a SlotMap,
    route: Route,
    strategy: Option<&dyn ReadRoutingStrategy>,
) -> Option<&'a NodeAddress>
    ensures { IsPickOf (strategy_of admits strategy.entry)
        (target_candidates slots.now (at_slot route)) (option_map (λ a. address a.now) result) }
{
    if strategy.is_none() || !is_asked(slots, route) {
        return None;
    }
    let read = Route::new(route.slot(), SlotAddr::ReplicaOptional);
    slots.slot_addr_for_route(read, 0, strategy)
}

/// The node that serves a route: the one that the strategy picks, which is written down behind those
/// that were picked before, else the primary.
fn node_at_slot<'a>(
    slots: &'a SlotMap,
    route: Route,
    picker: &mut Picker<&dyn ReadRoutingStrategy>,
) -> Result<&'a NodeAddress, RedisError>
    ensures found { result ≢ Err (by_cause Memory)
        → FindsBy admits picker.old picker.new slots.now (at_slot route)
        (λ first. node_by (λ node. address node.now) result ≡ node_in first) }
    ensures kept { picker.new.strategy ≡ picker.old.strategy }
{
    if let Some(node) = pick(slots, route, picker.strategy) {
        picker.picked.push(node.clone()?)?;
        return Ok(node);
    }
    let write = Route::new(route.slot(), SlotAddr::Master);
    match slots.slot_addr_for_route(write, 0, None) {
        None => Err(RedisError::from(Cause::NoNode)),
        Some(node) => Ok(node),
    }
}

/// The node that a part goes to first, and the place of its open link. The map lists its nodes where
/// one of them is chosen by a number.
///
/// # Errors
/// `NoNode` where no node serves it; `NoLink` where no usable link leads to the node; `Memory`.
pub fn first_hop<K: NodeLinks>(
    alloc: Global,
    links: &K,
    slots: &mut NumberedMap,
    target: &Target,
    picker: &mut Picker<&dyn ReadRoutingStrategy>,
) -> Result<Hop, RedisError>
    ensures stays { slots.new ≡ slots.old }
    ensures found { result ≢ Err (by_cause Memory)
        → FindsBy admits picker.old picker.new slots.old (target_of target.now)
        (λ first. node_of_hop result ≡ node_with_link (open_links (K.nodes links.now)) first) }
    ensures kept { picker.new.strategy ≡ picker.old.strategy }
    ensures place { IfOk result
        (λ p. IsOpenAt (K.nodes links.now) (address p.node) p.link) }
    ensures direct { IfOk result (λ p. p.asking ≡ false) }
    ensures within { IfOk result (λ p. p.link < length (K.nodes links.now)) }
{
    match target {
        Target::Slot(route) => hop_of(links, node_at_slot(slots.map(), *route, picker)?),
        Target::Number(number) => {
            slots.list_nodes(alloc);
            hop_of(links, slots.node_by_number(alloc, *number)?)
        }
    }
}

/// A node, and the place of its open link.
///
/// # Errors
/// `NoLink` where no usable link leads to the node; `Memory`.
pub fn hop_of<K: NodeLinks>(links: &K, node: &NodeAddress) -> Result<Hop, RedisError>
    ensures found { result ≢ Err (by_cause Memory)
        → node_of_hop result ≡ if_linked (open_links (K.nodes links.now)) (address node.now) }
    ensures place { IfOk result
        (λ p. IsOpenAt (K.nodes links.now) (address p.node) p.link) }
    ensures direct { IfOk result (λ p. p.asking ≡ false) }
    ensures within { IfOk result (λ p. p.link < length (K.nodes links.now)) }
{
    let Some(link) = links.open_place(node) else {
        return Err(RedisError::from(Cause::NoLink));
    };
    Ok(Hop {
        node: node.clone()?,
        link,
        asking: false,
    })
}
