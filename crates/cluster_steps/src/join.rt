//! The outcome of a split command from those of its parts, and of each position of a pipeline from what was
//! told of all parts.
ghost use Rattle.std.specs.Prelude.{◌≡◌, ◌≤◌, ◌+◌, ◌++◌, drop, length, map, option_map, take, vec_capacity, vec_len, [], Err, IfNone, IfOk, IfSome};
ghost use Rattle.std.specs.List.{list_all, AllByRecursion};
ghost use Rattle.resp_core.specs.Errors.{by_cause};
ghost use Rattle.resp_core.specs.View.{view};
ghost use Rattle.cluster_routing.specs.Info.{shown_split};
ghost use Rattle.cluster_calls.specs.Calls.Each.{fate_of, link_refusal, reply_in};
ghost use Rattle.cluster_calls.specs.Calls.EachInParts.{are_of_one_fate, same_fate};
ghost use Rattle.cluster_calls.specs.Calls.Refusals.{refusal_in};
ghost use Rattle.cluster_calls.specs.Calls.Task.{first_refusal};
ghost use Rattle.cluster_calls.specs.Links.World.{tree_result};
ghost use Rattle.cluster_steps.specs.Joins.{AreOutcomesBy, HasRoom, IsJoinedBy, IsOutcomeBy, IsTold, fate_in, shown_join, width_by, width_of_all};

use cluster_routing::{SplitParts, combine_parts};
use resp_core::{Cause, ErrorKind, RedisError, ServerErrorKind, Value};
use std::alloc::{AllocError, Global};
use std::collections::VecDeque;

/// What became of a part, or of a position of a pipeline, by its outcome.
#[derive(Clone, Copy)]
pub enum Fate {
    /// It was done, or refused by a server that serves it: its reply is data, or an error that is no redirect.
    Answered,
    /// A node sent it on, and did nothing of it.
    Redirected,
    /// No reply is there: it may have been done.
    Lost,
}

/// How the outcomes of a split command's parts become one, with room for them.
#[derive(Drop)]
pub struct Join {
    split: SplitParts,
    outcomes: Vec<Result<Value, RedisError>>,
    replies: Vec<Value>,
}

fn refused_fate(error: &RedisError) -> Fate
    requires { IsTold (Err error.now) }
    ensures { fate_in result ≡ fate_of (Err error.now) }
{
    match error.cause() {
        Some(_) => Fate::Lost,
        None => match error.kind() {
            ErrorKind::Server(ServerErrorKind::Moved | ServerErrorKind::Ask) => Fate::Redirected,
            _ => Fate::Answered,
        },
    }
}

/// The fate that an outcome tells.
pub fn fate_of(outcome: &Result<Value, RedisError>) -> Fate
    requires { IsTold (tree_result view outcome.now) }
    ensures { fate_in result ≡ fate_of (tree_result view outcome.now) }
{
    match outcome {
        Ok(_) => Fate::Answered,
        Err(error) => refused_fate(error),
    }
}

fn is_same(a: Fate, b: Fate) -> bool
    ensures { result ≡ same_fate (fate_in a) (fate_in b) }
{
    matches!(
        (a, b),
        (Fate::Answered, Fate::Answered)
            | (Fate::Redirected, Fate::Redirected)
            | (Fate::Lost, Fate::Lost)
    )
}

fn have_fate(outcomes: &[Result<Value, RedisError>], fate: Fate) -> bool
    requires { AllByRecursion IsTold (map (tree_result view) outcomes.now) }
    ensures { result
        ≡ list_all (λ o. same_fate (fate_of o) (fate_in fate)) (map (tree_result view) outcomes.now) }
{
    'outcomes: for outcome in outcomes {
        if !is_same(fate_of(outcome), fate) {
            return false;
        }
    }
    true
}

fn are_of_one_fate(outcomes: &[Result<Value, RedisError>]) -> bool
    requires { AllByRecursion IsTold (map (tree_result view) outcomes.now) }
    ensures { result ≡ are_of_one_fate (map (tree_result view) outcomes.now) }
{
    match outcomes {
        [] => true,
        [first, others @ ..] => have_fate(others, fate_of(first)),
    }
}

/// Why the link call of a part was refused.
fn lost_cause(outcome: &Result<Value, RedisError>) -> Option<Cause>
    requires { IsTold (tree_result view outcome.now) }
    ensures { option_map by_cause result ≡ link_refusal (tree_result view outcome.now) }
{
    match outcome {
        Ok(_) => None,
        Err(error) => error.cause(),
    }
}

/// Why the first link call was refused that was.
fn first_lost(outcomes: &[Result<Value, RedisError>]) -> Option<Cause>
    requires { AllByRecursion IsTold (map (tree_result view) outcomes.now) }
    ensures { option_map by_cause result
        ≡ first_refusal (map link_refusal (map (tree_result view) outcomes.now)) }
{
    'outcomes: for outcome in outcomes {
        let cause = lost_cause(outcome);
        if cause.is_some() {
            return cause;
        }
    }
    None
}

/// Puts the replies into a list, which has room for them, up to the first refusal, which it hands back.
fn take_replies(
    outcomes: Vec<Result<Value, RedisError>>,
    replies: &mut Vec<Value>,
) -> Option<RedisError>
    requires { vec_len replies.old + vec_len outcomes ≤ vec_capacity replies.old }
    ensures refused { result ≡ first_refusal (map refusal_in (map (tree_result view) outcomes.items)) }
    ensures replies { IfNone result (map view replies.new.items
        ≡ map view replies.old.items ++ map reply_in (map (tree_result view) outcomes.items)) }
{
    'outcomes: for outcome in outcomes {
        match outcome {
            Ok(reply) => replies.push(reply).unwrap(),
            Err(error) => return Some(error),
        }
    }
    None
}

/// The outcome of a split command from those of its parts, in the order of its routes.
fn outcome_of_parts(
    alloc: Global,
    split: SplitParts,
    outcomes: Vec<Result<Value, RedisError>>,
    mut replies: Vec<Value>,
) -> Result<Value, RedisError>
    requires told { AllByRecursion IsTold (map (tree_result view) outcomes.items) }
    requires none { replies.items ≡ [] }
    requires room { vec_len outcomes ≤ vec_capacity replies }
    ensures { IsJoinedBy (shown_split split) (map (tree_result view) outcomes.items)
        (tree_result view result) }
{
    if !are_of_one_fate(&outcomes) {
        let cause = first_lost(&outcomes).unwrap_or(Cause::UnexpectedReturnType);
        return Err(RedisError::from(cause));
    }
    match take_replies(outcomes, &mut replies) {
        Some(error) => Err(error),
        None => combine_parts(alloc, replies, &split.routes, split.pattern, split.policy),
    }
}

/// Moves so many outcomes from the front of a queue behind others, which have room for them.
fn move_front(
    queue: &mut VecDeque<Result<Value, RedisError>>,
    count: usize,
    outcomes: &mut Vec<Result<Value, RedisError>>,
)
    requires room { vec_len outcomes.old + count ≤ vec_capacity outcomes.old }
    requires there { count ≤ length queue.old.items }
    ensures outcomes { outcomes.new.items ≡ outcomes.old.items ++ take count queue.old.items }
    ensures queue { queue.new.items ≡ drop count queue.old.items }
{
    'moved: for moved in 0..count {
        outcomes.push(queue.pop_front().unwrap()).unwrap();
    }
}

impl Join {
    /// The join of a split command of such parts, with its room.
    pub fn new(alloc: Global, split: SplitParts) -> Result<Join, AllocError>
        ensures split { IfOk result (λ j. shown_join j ≡ shown_split split) }
        ensures room { IfOk result HasRoom }
    {
        let count = split.routes.len();
        Ok(Join {
            split,
            outcomes: Vec::with_capacity(alloc, count)?,
            replies: Vec::with_capacity(alloc, count)?,
        })
    }

    /// The outcome of the command, from those of its parts, which stand at the front of a queue.
    fn outcome(
        self,
        alloc: Global,
        queue: &mut VecDeque<Result<Value, RedisError>>,
    ) -> Result<Value, RedisError>
        requires room { HasRoom self }
        requires there { length (shown_join self).routes ≤ length queue.old.items }
        requires told { AllByRecursion IsTold (map (tree_result view) queue.old.items) }
        ensures outcome { IsJoinedBy (shown_join self)
            (map (tree_result view) (take (length (shown_join self).routes) queue.old.items))
            (tree_result view result) }
        ensures queue { queue.new.items ≡ drop (length (shown_join self).routes) queue.old.items }
    {
        let Join {
            split,
            mut outcomes,
            replies,
        } = self;
        move_front(queue, split.routes.len(), &mut outcomes);
        outcome_of_parts(alloc, split, outcomes, replies)
    }
}

/// The outcome of a position: that of its one part, or from those of its parts.
fn position_outcome(
    alloc: Global,
    join: Option<Join>,
    queue: &mut VecDeque<Result<Value, RedisError>>,
) -> Result<Value, RedisError>
    requires room { IfSome join HasRoom }
    requires there { width_by (option_map shown_join join) ≤ length queue.old.items }
    requires told { AllByRecursion IsTold (map (tree_result view) queue.old.items) }
    ensures outcome { IsOutcomeBy (option_map shown_join join)
        (map (tree_result view) (take (width_by (option_map shown_join join)) queue.old.items))
        (tree_result view result) }
    ensures queue { queue.new.items ≡ drop (width_by (option_map shown_join join)) queue.old.items }
{
    match join {
        None => queue.pop_front().unwrap(),
        Some(join) => join.outcome(alloc, queue),
    }
}

/// Puts the outcome of each position behind others, which have room for them, from what was told of all
/// parts.
pub fn join_each(
    alloc: Global,
    joins: Vec<Option<Join>>,
    told: Vec<Result<Value, RedisError>>,
    outcomes: &mut Vec<Result<Value, RedisError>>,
)
    requires ready { AllByRecursion (λ j. IfSome j HasRoom) joins.items }
    requires told { AllByRecursion IsTold (map (tree_result view) told.items) }
    requires whole { width_of_all (map (option_map shown_join) joins.items) ≡ length told.items }
    requires none { outcomes.old.items ≡ [] }
    requires room { vec_len joins ≤ vec_capacity outcomes.old }
    ensures { AreOutcomesBy (map (option_map shown_join) joins.items) (map (tree_result view) told.items)
        (map (tree_result view) outcomes.new.items) }
{
    let mut queue = VecDeque::from(told);
    'joins: for join in joins {
        outcomes
            .push(position_outcome(alloc, join, &mut queue))
            .unwrap();
    }
}
