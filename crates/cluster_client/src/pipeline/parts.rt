//! The parts of a pipeline: each command whole, to the primary of its one slot.
ghost use Rattle.std.specs.Prelude.{ℕ, List, [], ◌≡◌, ◌≢◌, Err, Ok, option_map, IfOk, IfErr, IfSome};
ghost use Rattle.resp_core.specs.Errors.{by_cause};
ghost use Rattle.resp_core.specs.declared.errors.redis_error.Cause.TheVariants.{Memory};
ghost use Rattle.resp_args.specs.Packed.{sent};
ghost use Rattle.cluster_routing.specs.Directions.{direction as direction_of, shown_direction};
ghost use Rattle.cluster_calls.specs.Calls.Parts.{if_one_slot, parts_of, pipeline_parts, reads_several_slots, whole_part};
ghost use Rattle.cluster_steps.specs.CodeParts.{targets_in};
ghost use Rattle.cluster_steps.specs.WholeParts.{parts_found, whole_at, whole_by};

use crate::client::directed::direction_by;
use crate::pipeline::PipelineCommand;
use cluster_routing::{Direction, Route, SlotAddr};
use cluster_steps::pipeline_reads::reads_several_slots;
use cluster_steps::route::{Part, Target, Targets, targets_of, whole_part};
use resp_args::Cmd;
use resp_core::RedisError;
use std::alloc::Global;

/// The route to the primary of the one slot that all parts of a command go to; none where they go to
/// several, or where any node may serve the command.
pub(crate) fn primary_route(targets: &Targets) -> Option<Route>
    ensures { (args : List (List ℕ))
        → option_map (whole_by args) result ≡ whole_at args (targets_in targets.now) }
{
    let route = match targets {
        Targets::Whole(Target::Slot(route)) => *route,
        Targets::Whole(Target::Number(_)) => return None,
        Targets::Split(split) => match split.routes.as_slice() {
            [route] => route.0,
            _ => return None,
        },
    };
    Some(Route::new(route.slot(), SlotAddr::Master))
}

/// The route to the primary of the one slot that a command goes to whole; none for one that does not, or reads
/// streams of several. No argument is copied. Its direction may be known.
pub(crate) fn whole_route(
    alloc: Global,
    command: &Cmd,
    known: Option<&Direction>,
) -> Result<Option<Route>, RedisError>
    requires { IfSome known (λ d. shown_direction d.now ≡ direction_of command.now.args []) }
    ensures route { IfOk result (λ o. option_map (whole_by (sent command.now)) o
        ≡ if_one_slot (reads_several_slots command.now.args)
        (whole_part (sent command.now) (parts_of [] command.now 0))) }
    ensures only { IfErr result (λ e. e ≡ by_cause Memory) }
{
    if reads_several_slots(alloc, command)? {
        return Ok(None);
    }
    let direction = direction_by(alloc, command, known)?;
    match targets_of(command, direction, 0) {
        Ok(targets) => Ok(primary_route(&targets)),
        Err(_) => Ok(None),
    }
}

/// The parts of a pipeline's commands, in order.
///
/// # Errors
/// The position of the first command that waits for no response, does not go whole to one slot, or reads
/// streams of several slots by `XREAD`; `Memory`.
pub(crate) fn pipeline_parts(
    alloc: Global,
    commands: &[PipelineCommand],
) -> Result<Vec<Part>, RedisError>
    ensures { result ≢ Err (by_cause Memory) → parts_found result ≡ pipeline_parts 0 commands.now }
{
    let mut parts = Vec::new(alloc);
    'commands: for (position, command) in commands.iter().enumerate() {
        let Some(route) = whole_route(alloc, &command.command, None)? else {
            return Err(RedisError::at_position(position));
        };
        let part = whole_part(&command.command, Target::Slot(route))?;
        parts.push(part)?;
    }
    Ok(parts)
}
