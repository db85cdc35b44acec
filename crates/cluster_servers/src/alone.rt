//! Commands that are asked by themselves.
ghost use Rattle.std.specs.Prelude.{◌≡◌, ◌≤◌, [], length, vec_capacity, Err};
ghost use Rattle.resp_core.specs.View.{view};
ghost use Rattle.resp_core.specs.Errors.{cause_of};
ghost use Rattle.cluster_calls.specs.Links.World.{tree_result};
ghost use Rattle.cluster_client.specs.Whole.{whole};
ghost use Rattle.proxy_core.specs.Batch.{batch_of};
ghost use Rattle.cluster_servers.specs.Alone.{AreAskedAlone, IsAskedAlone};
ghost use Rattle.cluster_servers.specs.Fates.{fate_alone, refused_fate, sent_fate, unsent_fate};

use crate::command::GuestCommand;
use crate::reply::Reply;
use cluster_client::ClusterClient;
use cluster_steps::asked::Asked;
use proxy_core::{Fate, Outcome, Waiting};
use resp_core::{Cause, RedisError, Value};
use resp_link::ConnectionLike;
use std::alloc::Global;

fn unsent_fate(patient: bool, cause: Option<Cause>) -> Fate
    ensures { result ≡ unsent_fate patient cause }
{
    match cause {
        Some(Cause::NoNode | Cause::NoLink | Cause::Memory) => {
            if patient {
                Fate::NotAsked
            } else {
                Fate::Answered
            }
        }
        _ => Fate::Answered,
    }
}

fn sent_fate(cause: Option<Cause>) -> Fate
    ensures { result ≡ sent_fate cause }
{
    match cause {
        None => Fate::Answered,
        Some(_) => Fate::Lost,
    }
}

/// The fate of a command that was asked by itself, by what the call made of it.
fn fate_alone(patient: bool, log: &[Asked], told: &Result<Value, RedisError>) -> Fate
    ensures { result ≡ fate_alone patient log.now (tree_result view told.now) }
{
    match told {
        Ok(_) => Fate::Answered,
        Err(error) => {
            if log.is_empty() {
                unsent_fate(patient, error.cause())
            } else {
                sent_fate(error.cause())
            }
        }
    }
}

/// Asks one command by a query, which follows its redirects.
fn ask_alone<L: ConnectionLike + Drop>(
    alloc: Global,
    client: &mut ClusterClient<L>,
    patient: bool,
    command: &GuestCommand,
) -> Outcome<Reply>
    ensures { IsAskedAlone patient (whole L.seen client.old) (whole L.seen client.new) command.now result }
{
    let told = client.query_directed::<Value>(alloc, &command.directed(), 0, None);
    let fate = fate_alone(patient, client.asked(), &told);
    Outcome {
        fate,
        reply: Reply::new(alloc, told, command.protocol),
    }
}

/// Asks the commands of a batch one after another, and puts the outcome of each behind these, of which
/// there are none yet. There is room for all.
pub(crate) fn ask_each<L: ConnectionLike + Drop>(
    alloc: Global,
    client: &mut ClusterClient<L>,
    patient: bool,
    batch: &[Waiting<'_, GuestCommand>],
    outcomes: &mut Vec<Outcome<Reply>>,
)
    requires room { length batch.now ≤ vec_capacity outcomes.old }
    requires none { outcomes.old.items ≡ [] }
    ensures { AreAskedAlone patient (whole L.seen client.old) (whole L.seen client.new)
        (batch_of batch.now) outcomes.new.items }
{
    'batch: for asked in batch {
        let outcome = ask_alone(alloc, client, patient, asked.command);
        outcomes.push(outcome).unwrap();
    }
}
