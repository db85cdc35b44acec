//! What becomes of an attempt at a transaction by its replies: they make the answer, refuse it, or send the
//! whole of it on.
ghost use Rattle.std.specs.Prelude.{◌≡◌, ◌≢◌, ◌&&◌, ◌||◌, ◌∷◌, Err, IfOk, IfErr, Some, true, false, map, is_none, is_some};
ghost use Rattle.resp_core.specs.Errors.{by_cause};
ghost use Rattle.resp_core.specs.View.{view};
ghost use Rattle.resp_core.specs.declared.errors.redis_error.Cause.TheVariants.{Memory};
ghost use Rattle.cluster_routing.specs.Policies.{or_bad_reply};
ghost use Rattle.cluster_calls.specs.Calls.Redirects.{Stays};
ghost use Rattle.cluster_calls.specs.Calls.Transactions.{answers, attempt_answer, error_or_bad, exec_answers, exec_reply, fate, first_own_error, first_redirect, is_array, is_nil, is_okay, is_redirect, is_refused, multi_reply, next_attempt, own_error, redirect_in};
ghost use Rattle.cluster_calls.specs.Links.World.{open_links, tree_result};
ghost use Rattle.cluster_steps.specs.Attempts.{AttemptTurnsBy, heard, is_not_done, seen};
ghost use Rattle.cluster_steps.specs.Turns.{LeadsOn, TurnsOn, goes_on, next_by, turns_on};

use crate::node_links::NodeLinks;
use crate::turn::{Onward, Turn, next_place};
use resp_core::{Cause, RedisError, ServerErrorKind, Value};
use std::alloc::Global;

fn is_okay(reply: &Value) -> bool
    ensures { result ≡ is_okay (Some (view reply.now)) }
{
    matches!(reply, Value::Okay)
}

fn is_array(reply: &Value) -> bool
    ensures { result ≡ is_array (Some (view reply.now)) }
{
    matches!(reply, Value::Array(_))
}

fn is_nil(reply: &Value) -> bool
    ensures { result ≡ is_nil (Some (view reply.now)) }
{
    matches!(reply, Value::Nil)
}

/// Whether a reply is itself an error.
fn is_error(reply: &Value) -> bool
    ensures { result ≡ is_some (own_error (Some (view reply.now))) }
{
    matches!(reply, Value::ServerError(_))
}

/// Whether a reply is itself MOVED or ASK.
fn is_redirect(reply: &Value) -> bool
    ensures { result ≡ is_redirect (Some (view reply.now)) }
{
    match reply {
        Value::ServerError(e) => matches!(
            e.kind(),
            Some(ServerErrorKind::Moved | ServerErrorKind::Ask)
        ),
        _ => false,
    }
}

/// Whether MULTI began a transaction.
fn has_begun(replies: &[Value]) -> bool
    ensures { result ≡ is_okay (multi_reply (heard (map view replies.now))) }
{
    match replies.first() {
        Some(multi) => is_okay(multi),
        None => false,
    }
}

/// Whether a reply is nil or itself an error.
fn is_refusal(reply: &Value) -> bool
    ensures { result ≡ is_refused (Some (view reply.now)) }
{
    is_nil(reply) || is_error(reply)
}

/// Whether EXEC's own reply is nil or an error.
fn is_refused(replies: &[Value]) -> bool
    ensures { result ≡ is_refused (exec_reply (heard (map view replies.now))) }
{
    match replies.last() {
        Some(exec) => is_refusal(exec),
        None => false,
    }
}

/// Whether the transaction was not done.
fn is_not_done(replies: &[Value]) -> bool
    ensures { result ≡ is_not_done (fate (heard (map view replies.now))) }
{
    let begun = has_begun(replies);
    let refused = is_refused(replies);
    begun && refused
}

/// The first reply that is itself MOVED or ASK.
fn first_redirect(replies: &[Value]) -> Option<&Value>
    ensures { seen result ≡ first_redirect (heard (map view replies.now)) }
{
    'replies: for reply in replies {
        if is_redirect(reply) {
            return Some(reply);
        }
    }
    None
}

/// This reply where it is a redirect, else the first of the others that is one.
fn redirect_or<'a>(exec: &'a Value, replies: &'a [Value]) -> Option<&'a Value>
    ensures { seen result ≡ first_redirect (Some (view exec.now) ∷ heard (map view replies.now)) }
{
    if is_redirect(exec) {
        Some(exec)
    } else {
        first_redirect(replies)
    }
}

/// The redirect among the replies: EXEC's own, else the first.
fn redirect_in(replies: &[Value]) -> Option<&Value>
    ensures { seen result ≡ redirect_in (heard (map view replies.now)) }
{
    match replies.last() {
        Some(exec) => redirect_or(exec, replies),
        None => first_redirect(replies),
    }
}

/// Where the replies send the transaction on, with so many redirects left.
fn next_attempt<K: NodeLinks>(
    alloc: Global,
    links: &K,
    redirects: u16,
    replies: &[Value],
) -> Result<Onward, RedisError>
    ensures next { IfOk result
        (λ o. next_by o ≡ next_attempt (open_links (K.nodes links.now)) redirects
        (heard (map view replies.now))) }
    ensures on { IfOk result (λ o. LeadsOn (K.nodes links.now) o) }
    ensures some { IfOk result (λ o. goes_on o ≡ true → redirects ≢ 0) }
    ensures only { IfErr result (λ e. e ≡ by_cause Memory) }
    ensures unanswered { IfErr result (λ e. exec_answers (heard (map view replies.now)) ≡ false) }
{
    if is_not_done(replies) {
        match redirect_in(replies) {
            None => Ok(Onward::Stay),
            Some(reply) => next_place(alloc, links, redirects, reply),
        }
    } else {
        Ok(Onward::Stay)
    }
}

/// Whether no reply is itself an error.
fn are_clean(replies: &[Value]) -> bool
    ensures { result ≡ is_none (first_own_error (heard (map view replies.now))) }
{
    'replies: for reply in replies {
        if is_error(reply) {
            return false;
        }
    }
    true
}

/// Whether EXEC's reply is the answer: an array, or nil where nothing was wrong before it.
fn answers(exec: &Value, begun: bool, clean: bool) -> bool
    ensures { result ≡ (is_array (Some (view exec.now))
        || (begun && (is_nil (Some (view exec.now)) && clean))) }
{
    let array = is_array(exec);
    let nil = is_nil(exec);
    array || (begun && (nil && clean))
}

/// Whether EXEC's reply is the answer.
fn is_answered(replies: &[Value]) -> bool
    ensures { result ≡ exec_answers (heard (map view replies.now)) }
{
    let begun = has_begun(replies);
    let clean = are_clean(replies);
    match replies.last() {
        Some(exec) => answers(exec, begun, clean),
        None => false,
    }
}

/// The refusal by the first reply that is itself an error; where there is none, that the reply to EXEC has
/// no shape that it may have.
fn first_error(replies: Vec<Value>) -> RedisError
    ensures { result ≡ error_or_bad (first_own_error (heard (map view replies.items))) }
{
    'replies: for reply in replies {
        if let Value::ServerError(error) = reply {
            return RedisError::from(error);
        }
    }
    RedisError::from(Cause::UnexpectedReturnType)
}

/// The last reply, that to EXEC.
fn last_reply(mut replies: Vec<Value>) -> Result<Value, RedisError>
    ensures { tree_result view result ≡ or_bad_reply (exec_reply (heard (map view replies.items))) }
{
    match replies.pop() {
        Some(exec) => Ok(exec),
        None => Err(RedisError::from(Cause::UnexpectedReturnType)),
    }
}

/// What the replies make where they send the transaction nowhere.
fn answer(replies: Vec<Value>) -> Result<Value, RedisError>
    ensures { tree_result view result ≡ attempt_answer (heard (map view replies.items)) }
{
    if is_answered(&replies) {
        last_reply(replies)
    } else {
        Err(first_error(replies))
    }
}

/// The answer, where the replies send the transaction nowhere.
fn answered(replies: Vec<Value>) -> Result<Turn, RedisError>
    ensures turns { AttemptTurnsBy Stays (heard (map view replies.items)) result }
    ensures only { IfOk result (λ turn. turns_on turn ≡ false) }
{
    Ok(Turn::Answered(answer(replies)?))
}

/// The answer that the replies make, why the transaction is refused, or where they send it on, with so many
/// redirects left.
pub fn attempt_turn<K: NodeLinks>(
    alloc: Global,
    links: &K,
    redirects: u16,
    replies: Vec<Value>,
) -> Result<Turn, RedisError>
    ensures turns { result ≢ Err (by_cause Memory)
        → AttemptTurnsBy (next_attempt (open_links (K.nodes links.now)) redirects
        (heard (map view replies.items))) (heard (map view replies.items)) result }
    ensures on { IfOk result (λ turn. TurnsOn (K.nodes links.now) turn) }
    ensures some { IfOk result (λ turn. turns_on turn ≡ true → redirects ≢ 0) }
    // Memory is taken for a redirect alone.
    ensures unanswered { result ≡ Err (by_cause Memory)
        → exec_answers (heard (map view replies.items)) ≡ false }
{
    match next_attempt(alloc, links, redirects, &replies)? {
        Onward::Stay => answered(replies),
        Onward::Lost => Err(RedisError::from(Cause::NoLink)),
        Onward::Go(hop) => Ok(Turn::On(hop)),
    }
}
