//! What each position of a pipeline is told: its reply, or why its link call was refused. Nothing of it takes memory.
ghost use Rattle.std.specs.Prelude.{ℕ, ◌≡◌, ◌<◌, ◌≤◌, ◌+◌, ◌++◌, length, map, unwrap_or, vec_capacity, vec_len};
ghost use Rattle.std.specs.List.{AllByRecursion};
ghost use Rattle.std.specs.VecDeque.{deque_items};
ghost use Rattle.resp_core.specs.Errors.{cause_of};
ghost use Rattle.resp_core.specs.View.{view};
ghost use Rattle.resp_core.specs.declared.errors.redis_error.Cause.TheVariants.{Io};
ghost use Rattle.cluster_calls.specs.Links.World.{tree_result};
ghost use Rattle.cluster_steps.specs.Each.{came_from, left_or_cause, next_outcome, told_each, without_next, without_next_from};

use resp_core::{Cause, RedisError, Value};
use std::collections::VecDeque;

/// Why a link call was refused.
pub fn link_cause(error: &RedisError) -> Cause
    ensures { result ≡ unwrap_or (cause_of error.now) Io }
{
    error.cause().unwrap_or(Cause::Io)
}

/// The next reply of a node as an outcome: where it is itself an error, that. Or why there is none.
fn next_outcome(answer: &mut Result<VecDeque<Value>, Cause>) -> Result<Value, RedisError>
    ensures outcome { tree_result view result ≡ next_outcome (left_or_cause deque_items answer.old) }
    ensures rest { left_or_cause deque_items answer.new ≡ without_next (left_or_cause deque_items answer.old) }
{
    match answer {
        Ok(replies) => match replies.pop_front() {
            Some(Value::ServerError(error)) => Err(RedisError::from(error)),
            Some(reply) => Ok(reply),
            None => Err(RedisError::from(Cause::Io)),
        },
        Err(cause) => Err(RedisError::from(*cause)),
    }
}

/// The same of the node of this number.
fn next_outcome_of(
    answers: &mut Vec<Result<VecDeque<Value>, Cause>>,
    number: usize,
) -> Result<Value, RedisError>
    requires { number < vec_len answers.old }
    ensures len { vec_len answers.new ≡ vec_len answers.old }
    ensures outcome { tree_result view result
        ≡ next_outcome (came_from (map (left_or_cause deque_items) answers.old.items) number) }
    ensures rest { (k : ℕ) → came_from (map (left_or_cause deque_items) answers.new.items) k
        ≡ without_next_from number (came_from (map (left_or_cause deque_items) answers.old.items)) k }
{
    next_outcome(&mut answers[number])
}

/// Puts behind these outcomes, which have room for them, one for each of these numbers: the next reply of its
/// node, or why there is none.
pub fn tell_each(
    mut answers: Vec<Result<VecDeque<Value>, Cause>>,
    numbers: &[usize],
    outcomes: &mut Vec<Result<Value, RedisError>>,
)
    requires numbers { AllByRecursion (λ number. number < vec_len answers) numbers.now }
    requires room { vec_len outcomes.old + length numbers.now ≤ vec_capacity outcomes.old }
    ensures { map (tree_result view) outcomes.new.items
        ≡ map (tree_result view) outcomes.old.items
        ++ told_each numbers.now (came_from (map (left_or_cause deque_items) answers.items)) }
{
    'numbers: for number in numbers {
        outcomes
            .push(next_outcome_of(&mut answers, *number))
            .unwrap();
    }
}
