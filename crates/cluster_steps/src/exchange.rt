//! An exchange: requests are written to the log and sent over one link in one write, and their
//! replies are taken.
ghost use Rattle.std.specs.Prelude.{◌≡◌, ◌<◌, ◌≤◌, ◌+◌, ◌∷◌, [], length, vec_capacity, vec_len};
ghost use Rattle.resp_core.specs.View.{view};
ghost use Rattle.cluster_calls.specs.Links.Request.{skipped};
ghost use Rattle.cluster_calls.specs.Links.World.{one_reply, tree_result, tree_results};
ghost use Rattle.cluster_calls.specs.Links.Exchanges.{Exchanges};
ghost use Rattle.cluster_steps.specs.Groups.{request_in};

use crate::asked::Asked;
use crate::hop::Hop;
use crate::node_links::{NodeLinks, Wanted};
use crate::ready::{NodeRequests, Ready};
use crate::request::Request;
use resp_core::{RedisError, Value};
use std::alloc::Global;

/// Writes a group's requests to the log, which has room for them, and makes their link call: one write
/// for all of them, and then their replies.
///
/// Where it is refused the link has done what its own contract says.
pub fn exchange<K: NodeLinks>(
    alloc: Global,
    links: &mut K,
    log: &mut Vec<Asked>,
    group: NodeRequests,
) -> Result<Vec<Value>, RedisError>
    requires within { group.link < length (K.nodes links.old) }
    requires room { vec_len log.old + vec_len group.requests ≤ vec_capacity log.old }
    ensures len { length (K.nodes links.new) ≡ length (K.nodes links.old) }
    ensures log_len { vec_len log.new ≡ vec_len log.old + vec_len group.requests }
    ensures log_capacity { vec_capacity log.old ≤ vec_capacity log.new }
    ensures exchange { Exchanges (K.nodes links.old) (K.nodes links.new) group.link
        log.old.items log.new.items group.requests.items 0 (vec_len group.requests)
        (tree_results view result) }
{
    let NodeRequests {
        link,
        mut requests,
        bytes,
    } = group;
    let count = requests.len();
    log.append(&mut requests).unwrap();
    links.call(alloc, link, &bytes, Wanted { offset: 0, count })
}

/// The exchange of one request, for which the log has room: its reply is the one behind that to ASKING.
pub fn exchange_one<K: NodeLinks>(
    alloc: Global,
    links: &mut K,
    log: &mut Vec<Asked>,
    ready: Ready,
) -> Result<Value, RedisError>
    requires within { ready.dispatch.to.link < length (K.nodes links.old) }
    requires room { vec_len log.old < vec_capacity log.old }
    ensures len { length (K.nodes links.new) ≡ length (K.nodes links.old) }
    ensures log_len { vec_len log.new ≡ vec_len log.old + 1 }
    ensures log_capacity { vec_capacity log.old ≤ vec_capacity log.new }
    ensures exchange { Exchanges (K.nodes links.old) (K.nodes links.new) ready.dispatch.to.link
        log.old.items log.new.items (request_in ready.dispatch ∷ [])
        (skipped ready.dispatch.to.asking) 1 (one_reply (tree_result view result)) }
{
    let Ready { dispatch, bytes } = ready;
    let Request { to, args } = dispatch;
    let Hop { node, link, asking } = to;
    log.push(Asked { node, args, asking }).unwrap();
    if !asking {
        return links.call_one(alloc, link, &bytes);
    }
    let wanted = Wanted {
        offset: 1,
        count: 1,
    };
    let mut replies = links.call(alloc, link, &bytes, wanted)?;
    Ok(replies.remove(0))
}
