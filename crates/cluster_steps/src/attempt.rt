//! An attempt at a transaction, MULTI, the commands and EXEC: it is made ready, with room in the log, and
//! exchanged.
ghost use Rattle.std.specs.Prelude.{◌≡◌, ◌<◌, ◌≤◌, ◌+◌, ◌∷◌, [], length, vec_capacity, vec_len, IfOk};
ghost use Rattle.resp_core.specs.View.{view};
ghost use Rattle.cluster_routing.specs.Info.{texts};
ghost use Rattle.cluster_routing.specs.Seen.{address};
ghost use Rattle.cluster_calls.specs.Calls.OneSlot.{args_of};
ghost use Rattle.cluster_calls.specs.Calls.Transactions.{attempt};
ghost use Rattle.cluster_calls.specs.Links.Exchanges.{Exchanges};
ghost use Rattle.cluster_calls.specs.Links.Request.{bytes_of, skipped};
ghost use Rattle.cluster_calls.specs.Links.World.{tree_results};
ghost use Rattle.cluster_steps.specs.Turns.{hop_to};

use crate::asked::Asked;
use crate::hop::Hop;
use crate::node_links::{NodeLinks, Wanted};
use crate::ready::bytes_of;
use cluster_routing::NodeAddress;
use resp_args::Cmd;
use resp_core::{RedisError, Value};
use std::alloc::{AllocError, Global};

/// The requests of an attempt, the hop that they go by, and their bytes.
#[derive(Drop)]
pub struct Attempt {
    pub hop: Hop,
    pub requests: Vec<Asked>,
    pub bytes: Vec<u8>,
    ghost packed: { bytes.items ≡ bytes_of requests.items },
}

/// The arguments of a command that is one word.
fn one_word(alloc: Global, word: &[u8]) -> Result<Vec<Vec<u8>>, AllocError>
    ensures { IfOk result (λ v. texts v.items ≡ word.now ∷ []) }
{
    let mut args = Vec::new(alloc);
    args.push(Vec::from_slice(alloc, word)?)?;
    Ok(args)
}

/// A request to a node.
fn request_to(node: &NodeAddress, args: Vec<Vec<u8>>, asking: bool) -> Result<Asked, AllocError>
    ensures { IfOk result
        (λ q. q ≡ record { node = address node.now; args = texts args.items; asking = asking }) }
{
    Ok(Asked {
        node: node.clone()?,
        args,
        asking,
    })
}

/// The requests of an attempt: MULTI, behind ASKING where that is wanted, the commands, and EXEC.
fn requests_of(alloc: Global, hop: &Hop, commands: &[Cmd]) -> Result<Vec<Asked>, AllocError>
    ensures { IfOk result (λ v. v.items ≡ attempt (hop_to hop.now) (args_of commands.now)) }
{
    let node = &hop.node;
    let mut requests = Vec::new(alloc);
    requests.push(request_to(node, one_word(alloc, b"MULTI")?, hop.asking)?)?;
    'commands: for command in commands {
        requests.push(request_to(node, command.wire_args()?, false)?)?;
    }
    requests.push(request_to(node, one_word(alloc, b"EXEC")?, false)?)?;
    Ok(requests)
}

/// An attempt by a hop, packed, with room in the log for its requests.
///
/// # Errors
/// `AllocError` where memory is refused; the log has the same requests as before.
pub fn make_attempt_ready(
    alloc: Global,
    log: &mut Vec<Asked>,
    hop: Hop,
    commands: &[Cmd],
) -> Result<Attempt, AllocError>
    ensures log { log.new.items ≡ log.old.items }
    ensures room { IfOk result (λ a. vec_len log.new + vec_len a.requests ≤ vec_capacity log.new) }
    ensures hop { IfOk result (λ a. a.hop ≡ hop) }
    ensures requests { IfOk result
        (λ a. a.requests.items ≡ attempt (hop_to hop) (args_of commands.now)) }
{
    let requests = requests_of(alloc, &hop, commands)?;
    let bytes = bytes_of(alloc, &requests)?;
    log.reserve(requests.len())?;
    Ok(Attempt {
        hop,
        requests,
        bytes,
    })
}

/// The exchange of an attempt at a transaction, for which the log has room: one write for all of its
/// requests, and their replies without that to ASKING.
pub fn exchange_attempt<K: NodeLinks>(
    alloc: Global,
    links: &mut K,
    log: &mut Vec<Asked>,
    attempt: Attempt,
) -> Result<Vec<Value>, RedisError>
    requires within { attempt.hop.link < length (K.nodes links.old) }
    requires room { vec_len log.old + vec_len attempt.requests ≤ vec_capacity log.old }
    ensures len { length (K.nodes links.new) ≡ length (K.nodes links.old) }
    ensures exchange { Exchanges (K.nodes links.old) (K.nodes links.new) attempt.hop.link
        log.old.items log.new.items attempt.requests.items (skipped attempt.hop.asking)
        (vec_len attempt.requests) (tree_results view result) }
{
    let Attempt {
        hop,
        mut requests,
        bytes,
    } = attempt;
    let offset = if hop.asking { 1 } else { 0 };
    let count = requests.len();
    log.append(&mut requests).unwrap();
    links.call(alloc, hop.link, &bytes, Wanted { offset, count })
}
