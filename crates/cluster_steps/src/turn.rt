//! What becomes of a reply: it is the answer, it refuses its part, or its request goes on.
ghost use Rattle.std.specs.Prelude.{◌≡◌, ◌≢◌, IfOk, IfErr, Err, Some, true, false, option_map};
ghost use Rattle.resp_core.specs.Errors.{by_cause, server_kind};
ghost use Rattle.resp_core.specs.View.{view, error_text};
ghost use Rattle.resp_core.specs.declared.errors.redis_error.Cause.TheVariants.{Memory};
ghost use Rattle.cluster_routing.specs.Address.{address_read};
ghost use Rattle.cluster_routing.specs.Seen.{address};
ghost use Rattle.cluster_calls.specs.Links.Log.{is_data};
ghost use Rattle.cluster_calls.specs.Links.Reply.{error_sort, redirect_target, sort_of};
ghost use Rattle.cluster_calls.specs.Links.World.{open_links};
ghost use Rattle.cluster_steps.specs.Turns.{next_by, goes_on, LeadsOn, TurnsBy, turns_on, TurnsOn};
ghost use Rattle.cluster_calls.specs.Calls.Redirects.{hop_by_link, next_of, sort_next};

use crate::hop::Hop;
use crate::node_links::NodeLinks;
use cluster_routing::NodeAddress;
use resp_core::{Cause, RedisError, ServerError, ServerErrorKind, Value};
use std::alloc::Global;

/// Where a reply sends its request on.
#[derive(Drop)]
pub enum Onward {
    /// Nowhere: the reply is no redirect, or one that is not followed.
    Stay,
    /// To a node without an open link.
    Lost,
    Go(Hop),
}

/// What becomes of a reply.
#[derive(Drop)]
pub enum Turn {
    /// It is the answer.
    Answered(Value),
    /// Its request goes on.
    On(Hop),
}

/// The address that a text spells, none where it spells none.
fn address_of(alloc: Global, text: &str) -> Result<Option<NodeAddress>, RedisError>
    ensures some { IfOk result (λ o. option_map address o ≡ address_read text.now) }
    ensures only { IfErr result (λ e. e ≡ by_cause Memory) }
{
    match NodeAddress::try_from(alloc, text) {
        Ok(node) => Ok(Some(node)),
        Err(e) => { if e.is_memory() { Err(e) } else { Ok(None) } }
    }
}

/// The node that a MOVED or ASK error names, none where its text is not so.
fn redirect_target(alloc: Global, error: &ServerError) -> Result<Option<NodeAddress>, RedisError>
    ensures some { IfOk result (λ o. option_map address o ≡ redirect_target (error_text error.now)) }
    ensures only { IfErr result (λ e. e ≡ by_cause Memory) }
{
    match error.redirect() {
        None => Ok(None),
        Some((text, _)) => address_of(alloc, text),
    }
}

fn to_link<K: NodeLinks>(links: &K, node: NodeAddress, asking: bool) -> Onward
    ensures next { next_by result
        ≡ hop_by_link (open_links (K.nodes links.now)) asking (Some (address node)) }
    ensures on { LeadsOn (K.nodes links.now) result }
{
    match links.open_place(&node) {
        None => Onward::Lost,
        Some(link) => Onward::Go(Hop { node, link, asking }),
    }
}

fn to_target<K: NodeLinks>(
    alloc: Global,
    links: &K,
    error: &ServerError,
    asking: bool,
) -> Result<Onward, RedisError>
    ensures next { IfOk result
        (λ o. next_by o ≡ hop_by_link (open_links (K.nodes links.now)) asking
        (redirect_target (error_text error.now))) }
    ensures on { IfOk result (λ o. LeadsOn (K.nodes links.now) o) }
    ensures only { IfErr result (λ e. e ≡ by_cause Memory) }
{
    match redirect_target(alloc, error)? {
        None => Ok(Onward::Stay),
        Some(node) => Ok(to_link(links, node, asking)),
    }
}

/// Where an error sends the request on.
fn behind_error<K: NodeLinks>(
    alloc: Global,
    links: &K,
    error: &ServerError,
) -> Result<Onward, RedisError>
    ensures next { IfOk result
        (λ o. next_by o ≡ sort_next (open_links (K.nodes links.now))
        (error_sort (error_text error.now) (server_kind (error_text error.now).code))) }
    ensures on { IfOk result (λ o. LeadsOn (K.nodes links.now) o) }
    ensures only { IfErr result (λ e. e ≡ by_cause Memory) }
{
    match error.kind() {
        Some(ServerErrorKind::Moved) => to_target(alloc, links, error, false),
        Some(ServerErrorKind::Ask) => to_target(alloc, links, error, true),
        _ => Ok(Onward::Stay),
    }
}

/// Where a reply sends the request on, with so many redirects left.
pub(crate) fn next_place<K: NodeLinks>(
    alloc: Global,
    links: &K,
    redirects: u16,
    reply: &Value,
) -> Result<Onward, RedisError>
    ensures next { IfOk result
        (λ o. next_by o ≡ next_of (open_links (K.nodes links.now)) redirects
        (Some (view reply.now))) }
    ensures on { IfOk result (λ o. LeadsOn (K.nodes links.now) o) }
    ensures some { IfOk result (λ o. goes_on o ≡ true → redirects ≢ 0) }
    ensures only { IfErr result (λ e. e ≡ by_cause Memory) }
    // Memory is taken for the error that the reply is.
    ensures error { IfErr result (λ e. is_data (sort_of (view reply.now)) ≡ false) }
{
    if redirects == 0 {
        return Ok(Onward::Stay);
    }
    match reply {
        Value::ServerError(error) => behind_error(alloc, links, error),
        _ => Ok(Onward::Stay),
    }
}

/// The answer that a reply is, the refusal that it tells, or where it sends its request on.
pub fn turn_by<K: NodeLinks>(
    alloc: Global,
    links: &K,
    redirects: u16,
    reply: Value,
) -> Result<Turn, RedisError>
    ensures turns { result ≢ Err (by_cause Memory)
        → TurnsBy (next_of (open_links (K.nodes links.now)) redirects (Some (view reply)))
        (view reply) result }
    ensures on { IfOk result (λ turn. TurnsOn (K.nodes links.now) turn) }
    ensures some { IfOk result (λ turn. turns_on turn ≡ true → redirects ≢ 0) }
    // Also where memory is refused: the reply is or holds an error.
    ensures error { IfErr result (λ e. is_data (sort_of (view reply)) ≡ false) }
{
    match next_place(alloc, links, redirects, &reply)? {
        Onward::Stay => Ok(Turn::Answered(reply.extract_error()?)),
        Onward::Lost => Err(RedisError::from(Cause::NoLink)),
        Onward::Go(hop) => Ok(Turn::On(hop)),
    }
}
