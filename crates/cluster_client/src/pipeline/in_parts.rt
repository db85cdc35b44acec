//! A pipeline whose split commands may have several slots: each of these stands as its parts.
ghost use Rattle.std.specs.List.{AllByRecursion};
ghost use Rattle.std.specs.Prelude.{◌≡◌, ◌≢◌, ◌∷◌, ◌++◌, suc, Bool, [], None, Some, false, map, replicate, option_map, IfErr, IfSome, OnOk};
ghost use Rattle.resp_core.specs.Errors.{at_position, by_cause};
ghost use Rattle.resp_core.specs.declared.errors.redis_error.Cause.TheVariants.{Memory};
ghost use Rattle.resp_args.specs.Packed.{sent};
ghost use Rattle.cluster_routing.specs.Directions.{direction as direction_of, shown_direction};
ghost use Rattle.cluster_routing.specs.Info.{shown_split};
ghost use Rattle.cluster_routing.specs.Split.{IsOwnSplitting};
ghost use Rattle.cluster_calls.specs.Calls.InParts.{split_at};
ghost use Rattle.cluster_calls.specs.Calls.Parts.{if_one_slot, parts_of, reads_several_slots, whole_part};
ghost use Rattle.cluster_steps.specs.CodeParts.{split_in, targets_in};
ghost use Rattle.cluster_steps.specs.Joins.{HasRoom, shown_join};
ghost use Rattle.cluster_steps.specs.WholeParts.{whole_by};
ghost use Rattle.cluster_client.specs.InParts.{AreCut, AreReady, IsAdded, IsDirected, IsUnplaced, entry, entry_of, if_several_targets, joins_after, places_of, shown_joins};

use crate::pipeline::parts::primary_route;
use crate::pipeline::{Directed, PipelineCommand};
use cluster_routing::{Direction, Route, SplitParts};
use cluster_steps::join::Join;
use cluster_steps::pipeline_reads::reads_several_slots;
use cluster_steps::route::{Part, Target, Targets, push_split, targets_of, whole_part};
use resp_args::Cmd;
use resp_core::RedisError;
use std::alloc::{AllocError, Global};

/// The parts that go out for a pipeline's commands, and for each of these how the outcomes of its parts become
/// one: none for a command that goes whole, and for none of them where no command is split.
#[derive(Drop)]
pub(crate) struct InParts {
    pub parts: Vec<Part>,
    pub joins: Vec<Option<Join>>,
}

/// How a command is split that goes to several slots; none for any other.
fn several_slots(targets: Targets) -> Option<SplitParts>
    ensures { option_map shown_split result
        ≡ if_several_targets (targets_in targets) (option_map shown_split (split_in targets)) }
{
    match targets {
        Targets::Whole(_) => None,
        Targets::Split(split) => {
            if split.routes.len() < 2 {
                None
            } else {
                Some(split)
            }
        }
    }
}

/// Puts so many commands that go whole behind what there is.
fn push_wholes(joins: &mut Vec<Option<Join>>, count: usize) -> Result<(), AllocError>
    ensures joins { OnOk result
        (shown_joins joins.new.items ≡ shown_joins joins.old.items ++ replicate count None) }
    ensures ready { OnOk result (AreReady joins.old.items → AreReady joins.new.items) }
{
    'wholes: for _ in 0..count {
        joins.push(None)?;
    }
    Ok(())
}

impl InParts {
    /// Puts the join of the command at this position behind those of the commands before it; none where it goes
    /// whole. Until a command is split there is nothing to be put.
    fn push_join(&mut self, position: usize, join: Option<Join>) -> Result<(), AllocError>
        ensures joins { OnOk result
            (joins_after (suc position) self.new
            ≡ joins_after position self.old ++ option_map shown_join join ∷ []) }
        ensures ready { OnOk result
            (IfSome join HasRoom → AreReady self.old.joins.items → AreReady self.new.joins.items) }
        ensures parts { self.new.parts ≡ self.old.parts }
    {
        if self.joins.is_empty() {
            if join.is_none() {
                return Ok(());
            }
            push_wholes(&mut self.joins, position)?;
        }
        self.joins.push(join)?;
        Ok(())
    }

    /// Puts a split command's parts behind what there is.
    fn add_parts(
        &mut self,
        alloc: Global,
        position: usize,
        command: &Cmd,
        split: SplitParts,
    ) -> Result<(), AllocError>
        requires own { IsOwnSplitting command.now.args (shown_split split).splitting }
        requires split { Some (shown_split split) ≡ places_of (split_at (entry command.now false)) }
        ensures { OnOk result
            ((ignored : Bool) → IsAdded position (entry command.now ignored) self.old self.new) }
    {
        push_split(alloc, &mut self.parts, command, &split)?;
        self.push_join(position, Some(Join::new(alloc, split)?))?;
        Ok(())
    }

    /// Puts a command that goes whole by this route behind what there is.
    fn add_whole(&mut self, position: usize, command: &Cmd, route: Route) -> Result<(), AllocError>
        requires { Some (whole_by (sent command.now) route)
            ≡ if_one_slot (reads_several_slots command.now.args)
            (whole_part (sent command.now) (parts_of [] command.now 0)) }
        ensures { OnOk result
            ((ignored : Bool) → IsAdded position (entry command.now ignored) self.old self.new) }
    {
        self.parts.push(whole_part(command, Target::Slot(route))?)?;
        self.push_join(position, None)?;
        Ok(())
    }

    /// Puts the command at this position behind what there is, by the direction in which it goes.
    fn add(
        &mut self,
        alloc: Global,
        position: usize,
        command: &Cmd,
        direction: Direction,
    ) -> Result<(), RedisError>
        requires { shown_direction direction ≡ direction_of command.now.args [] }
        ensures added { OnOk result
            ((ignored : Bool) → IsAdded position (entry command.now ignored) self.old self.new) }
        ensures refused { IfErr result (λ e. e ≢ by_cause Memory → IsUnplaced position command.now e) }
    {
        let targets = match targets_of(command, direction, 0) {
            Ok(targets) => targets,
            Err(_) => return Err(RedisError::at_position(position)),
        };
        if !reads_several_slots(alloc, command)? {
            if let Some(route) = primary_route(&targets) {
                self.add_whole(position, command, route)?;
                return Ok(());
            }
        }
        let Some(split) = several_slots(targets) else {
            return Err(RedisError::at_position(position));
        };
        self.add_parts(alloc, position, command, split)?;
        Ok(())
    }
}

/// The parts that go out for a pipeline's commands. Where each goes is looked up once.
///
/// # Errors
/// The position of the first command that waits for no response, goes neither whole to one slot nor in parts
/// to several, or reads streams of several by `XREAD`; `Memory`.
pub(crate) fn commands_in_parts(
    alloc: Global,
    commands: &[PipelineCommand],
) -> Result<InParts, RedisError>
    ensures { AreCut commands.now result }
{
    let mut all = InParts {
        parts: Vec::new(alloc),
        joins: Vec::new(alloc),
    };
    'commands: for (position, command) in commands.iter().enumerate() {
        let command = &command.command;
        let direction = Direction::for_routable(alloc, command, &[])?;
        all.add(alloc, position, command, direction)?;
    }
    Ok(all)
}

/// The same of commands whose directions are known. Nothing is looked up.
pub(crate) fn directed_in_parts(
    alloc: Global,
    commands: &[Directed<'_>],
) -> Result<InParts, RedisError>
    requires { AllByRecursion IsDirected commands.now }
    ensures { AreCut (map entry_of commands.now) result }
{
    let mut all = InParts {
        parts: Vec::new(alloc),
        joins: Vec::new(alloc),
    };
    'commands: for (position, directed) in commands.iter().enumerate() {
        let direction = directed.direction.clone()?;
        all.add(alloc, position, directed.command, direction)?;
    }
    Ok(all)
}
