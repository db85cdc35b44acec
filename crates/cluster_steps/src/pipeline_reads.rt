//! Reads of streams among the commands of a pipeline.
ghost use Rattle.std.specs.Prelude.{◌≡◌, ◌<◌, Some, length, option_map, IfOk};
ghost use Rattle.cluster_routing.specs.Info.{lent, lent_texts};
ghost use Rattle.cluster_routing.specs.Routing.{name_of};
ghost use Rattle.cluster_calls.specs.Calls.Parts.{first_half, have_several_slots, is_read_name, keys_behind, reads_several_slots};
ghost use Rattle.cluster_steps.specs.Reads.{each_or_none};

use crate::read_checks::have_one_slot;
use cluster_routing::Routable;
use resp_args::Cmd;
use std::alloc::{AllocError, Global};

/// Whether a command is an `XREAD` whose keys have several slots.
///
/// Its keys are the first half of what stands behind its first `STREAMS`, where that is an even number of
/// arguments and none is a gap.
pub fn reads_several_slots(alloc: Global, command: &Cmd) -> Result<bool, AllocError>
    ensures { IfOk result (λ b. b ≡ reads_several_slots command.now.args) }
{
    if !is_read(command) {
        return Ok(false);
    }
    match command.position(b"STREAMS") {
        Some(place) => have_several_slots(alloc, command, place),
        None => Ok(false),
    }
}

/// Whether a command is an `XREAD`: its word tells, since no word of a family is that.
fn is_read(command: &Cmd) -> bool
    ensures { result ≡ is_read_name (name_of command.now.args) }
{
    match command.arg_idx(0) {
        Some(word) => b"XREAD".eq_ignore_ascii_case(word),
        None => false,
    }
}

/// Whether the keys behind the word at a place have several slots.
fn have_several_slots(alloc: Global, command: &Cmd, place: usize) -> Result<bool, AllocError>
    requires { place < length command.now.args }
    ensures { IfOk result (λ b. b ≡ have_several_slots (keys_behind command.now.args (Some place))) }
{
    let args = command.each_argument(alloc)?;
    let Some(behind) = each_or_none(alloc, &args[place + 1..])? else {
        return Ok(false);
    };
    Ok(!have_one_slot(first_half(&behind)))
}

/// All of these arguments, if none is a gap.
fn each_or_none<'a>(
    alloc: Global,
    args: &[Option<&'a [u8]>],
) -> Result<Option<Vec<&'a [u8]>>, AllocError>
    ensures { IfOk result (λ o. option_map (λ v. lent v.items) o ≡ each_or_none (lent_texts args.now)) }
{
    let mut all = Vec::with_capacity(alloc, args.len())?;
    'texts: for arg in args {
        match arg {
            Some(bytes) => all.push(*bytes)?,
            None => return Ok(None),
        }
    }
    Ok(Some(all))
}

/// The first half of an even number of arguments; of an odd number none.
fn first_half<'a, 'b>(args: &'b [&'a [u8]]) -> &'b [&'a [u8]]
    ensures { lent result.now ≡ first_half (lent args.now) }
{
    if args.len() % 2 == 0 {
        &args[..args.len() / 2]
    } else {
        &[]
    }
}
