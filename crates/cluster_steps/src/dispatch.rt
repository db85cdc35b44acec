//! Where all parts of a call go first, found before the first byte is sent.
ghost use Rattle.std.specs.Prelude.{◌≡◌, ◌≢◌, [], map, IfOk, Err};
ghost use Rattle.std.specs.List.{AllByRecursion};
ghost use Rattle.resp_core.specs.Errors.{by_cause};
ghost use Rattle.resp_core.specs.declared.errors.redis_error.Cause.TheVariants.{Memory};
ghost use Rattle.cluster_calls.specs.Links.World.{Settings};
ghost use Rattle.cluster_steps.specs.Dispatches.{AreDispatched, IsPlaced, client_with, dispatches_of};
ghost use Rattle.cluster_steps.specs.FirstPlaces.{part_of};
ghost use Rattle.cluster_steps.specs.Picker.{picked_by, strategy_in};

use crate::hop::{Hop, first_hop};
use crate::node_links::NodeLinks;
use crate::numbered_map::NumberedMap;
use crate::picker::Picker;
use crate::ready::Ready;
use crate::request::Request;
use crate::route::Part;
use cluster_routing::{ReadRoutingStrategy, SplitParts};
use resp_core::RedisError;
use std::alloc::Global;

/// A part's arguments, and the hop that they go by first.
pub type Dispatch = Request<Hop>;

/// What is there of a command before its first byte: where each of its parts goes first, and how the
/// replies to the parts of a split command become one.
#[derive(Drop)]
pub struct Prepared {
    pub dispatches: Vec<Dispatch>,
    pub split: Option<SplitParts>,
}

/// What there is of a command before its first byte: the request that it is as a whole, or what is prepared of its
/// parts.
#[derive(Drop)]
pub enum Outset {
    Whole(Ready),
    InParts(Prepared),
}

/// The parts with the hops that they go by first, in the order given. `picker` then has what the
/// strategy answered.
///
/// # Errors
/// `NoNode` and `NoLink` of the first part that no node serves, or to whose node no usable link
/// leads; the strategy is asked for no later part. `Memory`.
pub fn dispatches<K: NodeLinks>(
    alloc: Global,
    links: &K,
    slots: &mut NumberedMap,
    parts: Vec<Part>,
    picker: &mut Picker<&dyn ReadRoutingStrategy>,
) -> Result<Vec<Dispatch>, RedisError>
    requires { picked_by picker.old ≡ [] }
    ensures stays { slots.new ≡ slots.old }
    ensures dispatched { result ≢ Err (by_cause Memory) → (settings : Settings) → AreDispatched
        (strategy_in admits picker.old) (client_with settings slots.old (K.nodes links.now))
        (map part_of parts.items) (picked_by picker.new) (dispatches_of result) }
    ensures placed { IfOk result
        (λ v. AllByRecursion (IsPlaced (K.nodes links.now)) v.items) }
{
    let mut all = Vec::with_capacity(alloc, parts.len())?;
    'parts: for part in parts {
        let hop = first_hop(alloc, links, slots, &part.to, picker)?;
        all.push(Request {
            to: hop,
            args: part.args,
        })?;
    }
    Ok(all)
}
