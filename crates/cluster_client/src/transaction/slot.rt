//! The one slot of a transaction's commands.
ghost use Rattle.std.specs.Prelude.{◌≡◌, ◌≢◌, ◌&&◌, ◌||◌, [], Err, None, IfOk, IfErr, IfSome};
ghost use Rattle.std.specs.Str.{str_eq_ignore_ascii_case};
ghost use Rattle.resp_core.specs.Errors.{by_cause};
ghost use Rattle.resp_core.specs.declared.errors.redis_error.Cause.TheVariants.{Memory};
ghost use Rattle.cluster_routing.specs.Command.{is_one_of};
ghost use Rattle.cluster_routing.specs.Directions.{direction as direction_of, shown_direction};
ghost use Rattle.cluster_routing.specs.Routing.{name_of};
ghost use Rattle.cluster_routing.specs.Rows.{names_of};
ghost use Rattle.cluster_calls.specs.Calls.OneSlot.{agrees, common_slot, is_before, is_outside, names_block, outside_names, own_slot, read_names, whole_slot};
ghost use Rattle.cluster_client.specs.InParts.{AreDirected};

use crate::pipeline::parts::whole_route;
use cluster_routing::{Direction, Routable};
use resp_args::Cmd;
use resp_core::RedisError;
use std::alloc::{AllocError, Global};

/// The names of commands that begin, end or guard a transaction, or wait for what others write.
const OUTSIDE: [&str; 12] = [
    "MULTI",
    "EXEC",
    "DISCARD",
    "WATCH",
    "BLPOP",
    "BRPOP",
    "BLMOVE",
    "BLMPOP",
    "BRPOPLPUSH",
    "BZPOPMIN",
    "BZPOPMAX",
    "BZMPOP",
];

const READS: [&str; 2] = ["XREAD", "XREADGROUP"];

fn is_same_word(word: &[u8], text: &[u8]) -> bool
    ensures { result ≡ str_eq_ignore_ascii_case word.now text.now }
{
    word.eq_ignore_ascii_case(text)
}

/// Whether a name is one of these, whatever the case of its letters.
fn is_among(names: &[&str], name: &[u8]) -> bool
    ensures { result ≡ is_one_of (names_of names.now) name.now }
{
    'names: for known in names {
        if is_same_word(known.as_bytes(), name) {
            return true;
        }
    }
    false
}

fn is_outside_name(name: &[u8]) -> bool
    ensures { result ≡ is_one_of outside_names name.now }
{
    is_among(&OUTSIDE, name)
}

fn is_read_name(name: &[u8]) -> bool
    ensures { result ≡ is_one_of read_names name.now }
{
    is_among(&READS, name)
}

fn is_before(one: Option<usize>, other: Option<usize>) -> bool
    ensures { result ≡ is_before one other }
{
    match (one, other) {
        (Some(one), Some(other)) => one < other,
        _ => false,
    }
}

/// Whether BLOCK stands before STREAMS.
fn names_block(command: &Cmd) -> bool
    ensures { result ≡ names_block command.now.args }
{
    is_before(command.position(b"BLOCK"), command.position(b"STREAMS"))
}

/// Whether a name has no place in a transaction, where it blocks or not.
fn names_outside(name: &[u8], blocks: bool) -> bool
    ensures { result ≡ (is_one_of outside_names name.now || (is_one_of read_names name.now && blocks)) }
{
    let outside = is_outside_name(name);
    let read = is_read_name(name);
    outside || (read && blocks)
}

/// Whether a command has no place in a transaction, by its name.
fn is_outside(alloc: Global, command: &Cmd) -> Result<bool, AllocError>
    ensures { IfOk result (λ b. b ≡ is_outside (name_of command.now.args) command.now.args) }
{
    let blocks = names_block(command);
    match command.command(alloc)? {
        Some(name) => Ok(names_outside(&name, blocks)),
        None => Ok(false),
    }
}

/// The slot to which a command goes whole. Its direction may be known.
fn whole_slot(
    alloc: Global,
    command: &Cmd,
    known: Option<&Direction>,
) -> Result<Option<u16>, RedisError>
    requires { IfSome known (λ d. shown_direction d.now ≡ direction_of command.now.args []) }
    ensures slot { IfOk result (λ o. o ≡ whole_slot command.now) }
    ensures only { IfErr result (λ e. e ≡ by_cause Memory) }
{
    match whole_route(alloc, command, known)? {
        Some(route) => Ok(Some(route.slot())),
        None => Ok(None),
    }
}

/// The slot of a command that may stand in a transaction. Its direction may be known.
fn own_slot(
    alloc: Global,
    command: &Cmd,
    known: Option<&Direction>,
) -> Result<Option<u16>, RedisError>
    requires { IfSome known (λ d. shown_direction d.now ≡ direction_of command.now.args []) }
    ensures slot { IfOk result (λ o. o ≡ own_slot command.now) }
    ensures only { IfErr result (λ e. e ≡ by_cause Memory) }
{
    if is_outside(alloc, command)? {
        return Ok(None);
    }
    whole_slot(alloc, command, known)
}

fn agrees(known: Option<u16>, slot: u16) -> bool
    ensures { result ≡ agrees known slot }
{
    match known {
        Some(known) => known == slot,
        None => true,
    }
}

/// The one slot of all commands, whose directions may be known; none where there are no commands.
///
/// # Errors
/// The position of the first command that waits for no response, does not go whole to one slot, goes to
/// another than the first, or has no place in a transaction; `Memory`.
pub(crate) fn common_slot(
    alloc: Global,
    commands: &[Cmd],
    directions: Option<&[Direction]>,
) -> Result<Option<u16>, RedisError>
    requires { IfSome directions (λ all. AreDirected commands.now all.now) }
    ensures { result ≢ Err (by_cause Memory) → result ≡ common_slot 0 None commands.now }
{
    let mut common = None;
    'commands: for (position, command) in commands.iter().enumerate() {
        let known = match directions {
            Some(all) => all.get(position),
            None => None,
        };
        let Some(slot) = own_slot(alloc, command, known)? else {
            return Err(RedisError::at_position(position));
        };
        if !agrees(common, slot) {
            return Err(RedisError::at_position(position));
        }
        common = Some(slot);
    }
    Ok(common)
}
