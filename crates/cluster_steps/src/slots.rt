//! The request for the slot map, and the map that its reply lists.
ghost use Rattle.std.specs.Prelude.{◌≡◌, ◌≢◌, [], IfOk, Err, false};
ghost use Rattle.resp_core.specs.Errors.{by_cause};
ghost use Rattle.resp_core.specs.View.{view};
ghost use Rattle.resp_core.specs.declared.errors.redis_error.Cause.TheVariants.{Memory};
ghost use Rattle.cluster_routing.specs.Seen.{address};
ghost use Rattle.cluster_routing.specs.SlotMap.{put_all};
ghost use Rattle.cluster_routing.specs.SlotsReply.{ranges};
ghost use Rattle.cluster_calls.specs.Links.Accepted.{IsAccepted};
ghost use Rattle.cluster_calls.specs.Links.Request.{slots_command};
ghost use Rattle.cluster_steps.specs.Groups.{request_in};

use crate::dispatch::Dispatch;
use crate::hop::Hop;
use crate::request::Request;
use cluster_routing::{NodeAddress, SlotMap, parse_slots, slot_cmd};
use resp_core::{RedisError, Value};
use std::alloc::{AllocError, Global};

/// The request for the slot map, by `CLUSTER SLOTS`, to a node whose link stands at this place.
pub fn slots_dispatch(
    alloc: Global,
    node: &NodeAddress,
    link: usize,
) -> Result<Dispatch, AllocError>
    ensures request { IfOk result
        (λ d. request_in d ≡ record { node = address node.now; args = slots_command; asking = false }) }
    ensures place { IfOk result (λ d. d.to.link ≡ link) }
{
    let to = Hop {
        node: node.clone()?,
        link,
        asking: false,
    };
    Ok(Request {
        to,
        args: slot_cmd(alloc)?.wire_args()?,
    })
}

/// The slot map that a reply of this node lists, or the error in it.
pub fn slot_map_in(alloc: Global, reply: Value, node: &NodeAddress) -> Result<SlotMap, RedisError>
    ensures { result ≢ Err (by_cause Memory) → IsAccepted (view reply) (address node.now).host result }
{
    let reply = reply.extract_error()?;
    Ok(slot_map_of(alloc, &reply, node)?)
}

/// The slot map that a reply without an error lists.
fn slot_map_of(alloc: Global, reply: &Value, node: &NodeAddress) -> Result<SlotMap, AllocError>
    ensures { IfOk result (λ map. map ≡ put_all [] (ranges (view reply.now) (address node.now).host)) }
{
    let ranges = parse_slots(alloc, reply, node.host())?;
    SlotMap::from_slots(alloc, ranges)
}
