//! A session is played: its calls in order, and what each prints.
ghost use Rattle.std.specs.Prelude.{◌≡◌, ◌++◌, IfErr, IfOk, OnOk, false, map, string_bytes};
ghost use Rattle.std.specs.List.{flat_map};
ghost use Rattle.resp_core.specs.Errors.{by_cause};
ghost use Rattle.resp_core.specs.declared.errors.redis_error.Cause.TheVariants.{Memory};
ghost use Rattle.cluster_calls.specs.Links.World.{addresses_of, has_repeats, nodes};
ghost use Rattle.cluster_client.specs.Shown.{shown};
ghost use Rattle.cluster_session.specs.Output.{GoesWith, fault_line};
ghost use Rattle.cluster_session.specs.PrintedRun.{PrintsRun, call_lines, node_line};
ghost use Rattle.cluster_session.specs.Script.{session_in_text};
ghost use Rattle.cluster_session.specs.ScriptRead.{node_in, session_in};
ghost use Rattle.cluster_session.specs.Session.{node_at_start};

use crate::session::calls::Link;
use crate::session::levels::Levels;
use crate::session::script::{Node, Script, ScriptError};
use crate::session::{calls, print};
use cluster_client::{ConnectionLike, NodeAddress, Played};
use resp_core::{Cause, RedisError};
use std::alloc::{AllocError, Global};
use std::collections::BTreeMap;

// The budget of redirects of a session without a line for it.
const BUDGET: u16 = 1;

/// What a session prints, and the status with which the program ends.
#[derive(Debug, Drop)]
pub(super) struct Printed {
    pub status: u8,
    pub output: String,
}

/// Plays the session of the text; one with a bad line calls nothing.
pub(super) fn play(alloc: Global, text: &[u8]) -> Result<Printed, RedisError>
    ensures prints { IfOk result
        (λ printed. GoesWith (session_in_text text.now) printed.status (string_bytes printed.output)) }
    ensures only { IfErr result (λ e. e ≡ by_cause Memory) }
{
    match Script::read(alloc, text) {
        Ok(script) => play_script(alloc, script),
        Err(ScriptError::BadLine(number)) => Ok(fault(alloc, number)?),
        Err(ScriptError::Memory) => Err(RedisError::from(Cause::Memory)),
    }
}

fn fault(alloc: Global, number: u64) -> Result<Printed, AllocError>
    ensures status { IfOk result (λ printed. printed.status ≡ 2) }
    ensures output { IfOk result (λ printed. string_bytes printed.output ≡ fault_line number) }
{
    let mut output = String::new(alloc);
    print::fault(&mut output, number)?;
    Ok(Printed { status: 2, output })
}

fn play_script(alloc: Global, script: Script) -> Result<Printed, RedisError>
    ensures status { IfOk result (λ printed. printed.status ≡ 0) }
    ensures output { IfOk result (λ printed. PrintsRun (session_in script) (string_bytes printed.output)) }
    ensures only { IfErr result (λ e. e ≡ by_cause Memory) }
{
    let Script {
        nodes,
        read_only,
        budget,
        levels,
        calls,
        ..
    } = script;
    let links = links(alloc, Levels::or_usual(levels), nodes)?;
    let mut client = calls::client(alloc, links, read_only, budget.unwrap_or(BUDGET))?;
    let mut output = String::new(alloc);
    print_played(&mut output, &calls::play_all(alloc, &mut client, &calls)?)?;
    print_sent(&mut output, calls::links(&client))?;
    Ok(Printed { status: 0, output })
}

/// A link for each node, in the ascending order of the addresses.
fn links(
    alloc: Global,
    levels: Levels,
    set_up: BTreeMap<NodeAddress, Node>,
) -> Result<Vec<(NodeAddress, Link)>, AllocError>
    ensures links { IfOk result (λ links. nodes ⟦<Link as ConnectionLike>⟧.seen links.items
        ≡ map (node_at_start levels.limit) (map node_in set_up.entries)) }
    ensures distinct { IfOk result (λ links. has_repeats
        (addresses_of (nodes ⟦<Link as ConnectionLike>⟧.seen links.items)) ≡ false) }
{
    let mut links = Vec::with_capacity(alloc, set_up.len())?;
    for (address, node) in set_up {
        links.push((address, calls::link(alloc, levels, node)))?;
    }
    Ok(links)
}

fn print_played(output: &mut String, played: &[Played]) -> Result<(), AllocError>
    ensures { OnOk result
        (string_bytes output.new ≡ string_bytes output.old ++ flat_map call_lines (map shown played.now)) }
{
    for call in played {
        print_call(output, call)?;
    }
    Ok(())
}

fn print_call(output: &mut String, call: &Played) -> Result<(), AllocError>
    ensures { OnOk result (string_bytes output.new ≡ string_bytes output.old ++ call_lines (shown call.now)) }
{
    print::answered(output, &call.answer)?;
    print::requests(output, &call.asked)
}

fn print_sent(output: &mut String, links: &[(NodeAddress, Link)]) -> Result<(), AllocError>
    ensures { OnOk result
        (string_bytes output.new ≡ string_bytes output.old
        ++ flat_map node_line (nodes ⟦<Link as ConnectionLike>⟧.seen links.now)) }
{
    for (address, link) in links {
        print::sent(output, address, calls::sent(link))?;
    }
    Ok(())
}
