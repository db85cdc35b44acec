//! Requests go out to several nodes before the replies of any of them are taken.
ghost use Rattle.std.specs.Prelude.{ℕ, ◌≡◌, ◌<◌, ◌≤◌, ◌+◌, ◌++◌, List, length, vec_capacity, vec_len};
ghost use Rattle.resp_link.specs.Call.{Seen};
ghost use Rattle.resp_link.specs.TwoCalls.{Receives, Sends};
ghost use Rattle.cluster_calls.specs.Links.World.{CallsLink, nodes};
ghost use Rattle.cluster_steps.specs.AtOnce.{ComesIn, GoesOut, IsReceived, IsSent};
ghost use Rattle.cluster_steps.specs.Each.{replies_or_cause};
ghost use Rattle.cluster_steps.specs.Groups.{group_of};

use crate::asked::Asked;
use crate::each::link_cause;
use crate::known_links::KnownLinks;
use crate::ready::NodeRequests;
use cluster_routing::NodeAddress;
use resp_core::{Cause, RedisError, Value};
use resp_link::PipelinedLink;
use std::alloc::Global;

/// What went out over the link at one place: so many requests, or why they did not go out.
#[derive(Clone, Copy)]
pub struct Sent {
    pub link: usize,
    pub count: usize,
    pub refusal: Option<Cause>,
}

/// Sends the bytes over the link at this place.
pub(crate) fn sent_over<L: PipelinedLink>(
    links: &mut [(NodeAddress, L)],
    index: usize,
    bytes: &[u8],
) -> Result<(), RedisError>
    requires { index < length links.old }
    ensures { CallsLink (nodes L.seen links.old) (nodes L.seen links.new) index
        (λ before after. Sends before after bytes.now result) }
{
    let link = &mut links[index].1;
    link.send_packed_commands(bytes)
}

/// Takes so many replies that the link at this place owes.
pub(crate) fn received_over<L: PipelinedLink>(
    alloc: Global,
    links: &mut [(NodeAddress, L)],
    index: usize,
    count: usize,
) -> Result<Vec<Value>, RedisError>
    requires { index < length links.old }
    ensures { CallsLink (nodes L.seen links.old) (nodes L.seen links.new) index
        (λ before after. Receives before after count result) }
{
    let link = &mut links[index].1;
    link.recv_responses(alloc, count)
}

/// Why a sending was refused, if it was.
fn refusal_of(sent: Result<(), RedisError>) -> Option<Cause>
    ensures { (old new : Seen) (bytes : List ℕ) → Sends old new bytes sent → GoesOut old new bytes result }
{
    match sent {
        Ok(()) => None,
        Err(error) => Some(link_cause(&error)),
    }
}

/// The replies that were taken, or why they were not.
fn replies_or_cause(taken: Result<Vec<Value>, RedisError>) -> Result<Vec<Value>, Cause>
    ensures { (old new : Seen) (count : ℕ) → Receives old new count taken
        → ComesIn old new count (replies_or_cause result) }
{
    match taken {
        Ok(replies) => Ok(replies),
        Err(error) => Err(link_cause(&error)),
    }
}

/// Writes a group's requests to the log, which has room for them, and sends them. No reply is taken yet, and no memory.
pub fn send_group<L: PipelinedLink + Drop>(
    links: &mut KnownLinks<L>,
    log: &mut Vec<Asked>,
    group: NodeRequests,
) -> Sent
    requires within { group.link < vec_len links.old.nodes }
    requires room { vec_len log.old + vec_len group.requests ≤ vec_capacity log.old }
    ensures sent { IsSent (nodes L.seen links.old.nodes.items) (nodes L.seen links.new.nodes.items)
        (group_of group) result }
    ensures len { vec_len links.new.nodes ≡ vec_len links.old.nodes }
    ensures log { log.new.items ≡ log.old.items ++ group.requests.items }
    ensures log_capacity { vec_capacity log.old ≤ vec_capacity log.new }
{
    let NodeRequests {
        link,
        mut requests,
        bytes,
    } = group;
    let count = requests.len();
    log.append(&mut requests).unwrap();
    let refusal = refusal_of(links.send(link, &bytes));
    Sent {
        link,
        count,
        refusal,
    }
}

/// Takes the replies to what went out. Only the link call takes memory.
pub fn receive_group<L: PipelinedLink + Drop>(
    alloc: Global,
    links: &mut KnownLinks<L>,
    sent: Sent,
) -> Result<Vec<Value>, Cause>
    requires within { sent.link < vec_len links.old.nodes }
    ensures received { IsReceived (nodes L.seen links.old.nodes.items) (nodes L.seen links.new.nodes.items)
        sent (replies_or_cause result) }
    ensures len { vec_len links.new.nodes ≡ vec_len links.old.nodes }
{
    if let Some(cause) = sent.refusal {
        return Err(cause);
    }
    replies_or_cause(links.receive(alloc, sent.link, sent.count))
}
