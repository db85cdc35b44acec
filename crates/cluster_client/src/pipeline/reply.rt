//! The one reply to a pipeline, from those to its commands in order.
ghost use Rattle.std.specs.Prelude.{◌≡◌, ◌≢◌, ◌||◌, Err, map, IfOk};
ghost use Rattle.std.specs.List.{list_any};
ghost use Rattle.resp_core.specs.Errors.{by_cause};
ghost use Rattle.resp_core.specs.Parts.{first_error};
ghost use Rattle.resp_core.specs.Refused.{errors_at};
ghost use Rattle.resp_core.specs.View.{view};
ghost use Rattle.resp_core.specs.declared.errors.redis_error.Cause.TheVariants.{Memory};
ghost use Rattle.cluster_calls.specs.Calls.Replies.{not_ignored};
ghost use Rattle.cluster_steps.specs.GroupRuns.{is_moved_tree, moved_by};
ghost use Rattle.cluster_calls.specs.Links.PipeReplies.{errors_in, pipeline_result};
ghost use Rattle.cluster_calls.specs.Links.World.{tree_result, tree_results};

use crate::pipeline::PipelineCommand;
use cluster_steps::reply::needs_refresh;
use resp_core::{RedisError, ServerError, Value};
use std::alloc::{AllocError, Global};

/// Whether a refresh is needed after these replies.
pub(crate) fn refresh_needed(flag: bool, replies: &[Value]) -> bool
    ensures { result ≡ (flag || list_any is_moved_tree (map view replies.now)) }
{
    let mut needed = flag;
    'replies: for reply in replies {
        needed = needs_refresh(needed, reply);
    }
    needed
}

/// Whether a refresh is needed after these replies of a node, if it gave them.
pub(crate) fn refresh_needed_by(flag: bool, replies: &Result<Vec<Value>, RedisError>) -> bool
    ensures { result ≡ (flag || moved_by (tree_results view replies.now)) }
{
    match replies {
        Ok(replies) => refresh_needed(flag, replies),
        Err(_) => flag,
    }
}

/// The first error in each reply that holds one, with the reply's position.
fn errors_in(alloc: Global, replies: &[Value]) -> Result<Vec<(usize, ServerError)>, AllocError>
    ensures { IfOk result (λ errors. errors_at errors.items ≡ errors_in 0 (map view replies.now)) }
{
    let mut errors = Vec::new(alloc);
    'replies: for (position, reply) in replies.iter().enumerate() {
        if let Some(error) = reply.first_error() {
            errors.push((position, error.clone()?))?;
        }
    }
    Ok(errors)
}

/// The replies to the commands that are not ignored.
fn not_ignored(
    alloc: Global,
    commands: &[PipelineCommand],
    replies: Vec<Value>,
) -> Result<Vec<Value>, AllocError>
    ensures { IfOk result (λ v. map view v.items ≡ not_ignored commands.now (map view replies.items)) }
{
    let mut kept = Vec::new(alloc);
    let mut left = commands;
    'replies: for reply in replies {
        let [command, others @ ..] = left else {
            return Ok(kept);
        };
        if !command.ignored {
            kept.push(reply)?;
        }
        left = others;
    }
    Ok(kept)
}

/// The array of the replies that are not ignored.
///
/// # Errors
/// All errors that the replies hold, also those that are ignored; `Memory`.
pub(crate) fn reply_of_pipeline(
    alloc: Global,
    commands: &[PipelineCommand],
    replies: Vec<Value>,
) -> Result<Value, RedisError>
    ensures { result ≢ Err (by_cause Memory)
        → tree_result view result ≡ pipeline_result commands.now (map view replies.items) }
{
    let mut errors = errors_in(alloc, &replies)?;
    if !errors.is_empty() {
        let first = errors.remove(0);
        return Err(RedisError::by_servers(first, errors));
    }
    Ok(Value::Array(not_ignored(alloc, commands, replies)?))
}
