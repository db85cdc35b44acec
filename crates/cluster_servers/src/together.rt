//! A batch as one pipeline.
ghost use Rattle.std.specs.Prelude.{◌≡◌, ◌≤◌, ◌+◌, [], length, map, vec_capacity, vec_len, IfOk};
ghost use Rattle.std.specs.List.{list_any, AllByRecursion};
ghost use Rattle.resp_core.specs.View.{view};
ghost use Rattle.cluster_calls.specs.Links.World.{tree_result};
ghost use Rattle.cluster_steps.specs.Joins as joins;
ghost use Rattle.cluster_client.specs.InParts.{IsDirected, entry_of};
ghost use Rattle.proxy_core.specs.Batch.{batch_of};
ghost use Rattle.cluster_servers.specs.Asked.{is_redirect, some_redirected};
ghost use Rattle.cluster_servers.specs.Fates.{fate_by};
ghost use Rattle.cluster_servers.specs.Together.{AreTold, entries_of};

use crate::command::GuestCommand;
use crate::reply::Reply;
use cluster_client::Directed;
use cluster_steps::join;
use proxy_core::{Fate, Outcome, Waiting};
use resp_core::{RedisError, Value};
use std::alloc::{AllocError, Global};
use std::collections::VecDeque;

/// The commands of a batch, lent with their directions.
pub(crate) fn directed_of<'a>(
    alloc: Global,
    batch: &[Waiting<'a, GuestCommand>],
) -> Result<Vec<Directed<'a>>, AllocError>
    ensures entries { IfOk result (λ all. map entry_of all.items ≡ entries_of (batch_of batch.now)) }
    ensures directed { IfOk result (λ all. AllByRecursion IsDirected all.items) }
{
    let mut all = Vec::with_capacity(alloc, batch.len())?;
    'batch: for asked in batch {
        all.push(asked.command.directed())?;
    }
    Ok(all)
}

/// The fate of a position, as the proxy is told.
fn fate_by(fate: join::Fate) -> Fate
    ensures { result ≡ fate_by (joins.fate_in fate) }
{
    match fate {
        join::Fate::Answered => Fate::Answered,
        join::Fate::Redirected => Fate::Redirected,
        join::Fate::Lost => Fate::Lost,
    }
}

/// Puts the outcome of each position of a pipeline behind these, of which there are none yet. There is room
/// for all.
pub(crate) fn tell_all(
    alloc: Global,
    batch: &[Waiting<'_, GuestCommand>],
    told: Vec<Result<Value, RedisError>>,
    outcomes: &mut Vec<Outcome<Reply>>,
)
    requires each { AllByRecursion joins.IsTold (map (tree_result view) told.items) }
    requires len { vec_len told ≡ length batch.now }
    requires room { length batch.now ≤ vec_capacity outcomes.old }
    requires none { outcomes.old.items ≡ [] }
    ensures { AreTold (batch_of batch.now) (map (tree_result view) told.items) outcomes.new.items }
{
    let mut queue = VecDeque::from_vec(told);
    'batch: for asked in batch {
        let Some(told) = queue.pop_front() else {
            break;
        };
        let fate = fate_by(join::fate_of(&told));
        let reply = Reply::new(alloc, told, asked.command.protocol);
        outcomes.push(Outcome { fate, reply }).unwrap();
    }
}

/// Whether a node sent one of the commands on.
pub(crate) fn some_redirected(outcomes: &[Outcome<Reply>]) -> bool
    ensures { result ≡ some_redirected outcomes.now }
{
    'outcomes: for outcome in outcomes {
        if matches!(outcome.fate, Fate::Redirected) {
            return true;
        }
    }
    false
}
