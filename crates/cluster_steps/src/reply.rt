//! What a reply is, and the reply to a command from those of its parts.
ghost use Rattle.std.specs.Prelude.{◌≡◌, ◌||◌, ℕ, List, Option, length, map, option_map, slice_get, Ok};
ghost use Rattle.resp_args.specs.Command.{Command};
ghost use Rattle.resp_args.specs.Packed.{sent};
ghost use Rattle.cluster_routing.specs.Address.{Address};
ghost use Rattle.cluster_routing.specs.Info.{shown_split};
ghost use Rattle.cluster_routing.specs.Policies.{or_bad_reply};
ghost use Rattle.cluster_routing.specs.Split.{parts_by_place};
ghost use Rattle.cluster_calls.specs.Calls.Plan.{Client, Dispatch, plan};
ghost use Rattle.cluster_calls.specs.Links.Orders.{command_call, routes_in_order};
ghost use Rattle.cluster_calls.specs.Links.PartRuns.{IsMadeOfParts};
ghost use Rattle.cluster_calls.specs.Links.World.{tree_result};
ghost use Rattle.resp_core.specs.View.{view};
ghost use Rattle.cluster_calls.specs.Links.Reply.{sort_of};
ghost use Rattle.cluster_calls.specs.Links.Log.{is_moved_sort};

use cluster_routing::{SplitParts, combine_parts};
use resp_core::{Cause, RedisError, ServerErrorKind, Value};
use std::alloc::Global;

/// Whether a refresh is needed after this reply: where it was needed before, or the reply is itself MOVED.
pub fn needs_refresh(flag: bool, reply: &Value) -> bool
    ensures { result ≡ (flag || is_moved_sort (sort_of (view reply.now))) }
{
    match reply {
        Value::ServerError(e) => flag || matches!(e.kind(), Some(ServerErrorKind::Moved)),
        _ => flag,
    }
}

/// The reply to a command from those of its parts, in the order of sending. `split` says how a split
/// command is cut, with its routes in that order.
///
/// # Errors
/// `UnexpectedReturnType` where no reply can be made of them; `Memory`.
pub fn reply_of_parts(
    alloc: Global,
    split: Option<SplitParts>,
    replies: Vec<Value>,
) -> Result<Value, RedisError>
    ensures { (client : Client) (picks : List Address) (command : Command) (order : Option (List ℕ))
        (number : ℕ) (ds : List Dispatch) → plan client picks (command_call command order number) ≡ Ok ds
        → option_map shown_split split
        ≡ option_map (routes_in_order order) (parts_by_place command.args client.settings.read_only)
        → length replies.items ≡ length ds
        → IsMadeOfParts (sent command) ds (Ok (map view replies.items)) (tree_result view result) }
{
    match split {
        None => first_reply(replies),
        Some(split) => combine_parts(alloc, replies, &split.routes, split.pattern, split.policy),
    }
}

fn first_reply(mut replies: Vec<Value>) -> Result<Value, RedisError>
    ensures { tree_result view result ≡ or_bad_reply (slice_get (map view replies.items) 0) }
{
    if replies.is_empty() {
        return Err(RedisError::from(Cause::UnexpectedReturnType));
    }
    Ok(replies.remove(0))
}
