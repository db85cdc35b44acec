//! Where a command goes, and its parts as they stand on the wire.
ghost use Rattle.std.specs.Prelude.{◌≡◌, ◌++◌, Err, is_some, map, option_map, false, ℕ, List, IfOk};
ghost use Rattle.resp_args.specs.Packed.{sent};
ghost use Rattle.cluster_routing.specs.Directions.{direction as direction_of, parts_in, shown_direction};
ghost use Rattle.cluster_routing.specs.Info.{shown_parts, shown_routed, shown_split};
ghost use Rattle.cluster_routing.specs.Split.{IsOwnSplitting, has_split_word, parts_by_place};
ghost use Rattle.cluster_calls.specs.Calls.Parts.{part_to, parts_of};
ghost use Rattle.cluster_steps.specs.CodeParts.{part_targets, routed_at, routed_part, split_in, targets_by, targets_in_direction};
ghost use Rattle.cluster_steps.specs.FirstPlaces.{part_of, target_of};

use crate::request::Request;
use cluster_routing::{Direction, Route, SplitParts};
use resp_args::Cmd;
use resp_core::{Cause, RedisError};
use std::alloc::{AllocError, Global};

/// Where a part is to go first.
#[derive(Drop)]
pub enum Target {
    /// To a node of a slot.
    Slot(Route),
    /// To the node with this number among all nodes, modulo their count.
    Number(u64),
}

/// A command, or a part of one, as it stands on the wire, and where it is to go first.
pub type Part = Request<Target>;

/// Where the parts of a command are to go.
#[derive(Drop)]
pub enum Targets {
    /// A command that is not split, whole.
    Whole(Target),
    /// The parts of one whose word is split by its keys, each to a node of its slot.
    Split(SplitParts),
}

/// Where the parts of a command are to go that goes this way. No argument is copied.
///
/// # Errors
/// `NoResponse` for a command that waits for none; for one whose word is split by its keys,
/// `CursorInSplit` where an argument is a gap, and `BrokenTuples` where its last tuple is broken or
/// it has none; `NoRoute` for one that goes nowhere or to several nodes by the routing table.
pub fn targets_of(cmd: &Cmd, direction: Direction, number: u64) -> Result<Targets, RedisError>
    ensures targets { (read_only : List (List ℕ)) → shown_direction direction ≡ direction_of cmd.now.args read_only
        → targets_by result ≡ part_targets (parts_of read_only cmd.now number) }
    ensures split { (read_only : List (List ℕ)) → shown_direction direction ≡ direction_of cmd.now.args read_only
        → IfOk result (λ t. option_map shown_split (split_in t) ≡ parts_by_place cmd.now.args read_only) }
    ensures word { (read_only : List (List ℕ)) → shown_direction direction ≡ direction_of cmd.now.args read_only
        → IfOk result (λ t. is_some (split_in t) ≡ has_split_word cmd.now.args) }
    ensures response { IfOk result (λ _. cmd.now.no_response ≡ false) }
{
    if cmd.is_no_response() {
        return Err(RedisError::from(Cause::NoResponse));
    }
    targets_by(direction, number)
}

/// The same of a command that waits for a response.
fn targets_by(direction: Direction, number: u64) -> Result<Targets, RedisError>
    ensures targets { targets_by result ≡ targets_in_direction number (shown_direction direction) }
    ensures split { IfOk result
        (λ t. option_map shown_split (split_in t) ≡ parts_in (shown_direction direction)) }
{
    match direction {
        Direction::Slot(route) => Ok(Targets::Whole(Target::Slot(route))),
        Direction::AnyNode => Ok(Targets::Whole(Target::Number(number))),
        Direction::Parts(split) => Ok(Targets::Split(split)),
        Direction::Nowhere(cause) => Err(RedisError::from(cause)),
        Direction::AllNodes(_) | Direction::AllPrimaries(_) => {
            Err(RedisError::from(Cause::NoRoute))
        }
    }
}

/// The one part of a command that goes whole.
///
/// # Errors
/// `AllocError` where memory is refused.
pub fn whole_part(cmd: &Cmd, target: Target) -> Result<Part, AllocError>
    ensures { IfOk result (λ p. part_of p ≡ part_to (sent cmd.now) (target_of target)) }
{
    Ok(Request {
        to: target,
        args: cmd.wire_args()?,
    })
}

/// Puts the parts of a command that is split this way behind what there is.
///
/// # Errors
/// `AllocError` where memory is refused; some of the parts may then stand there.
pub fn push_split(
    alloc: Global,
    parts: &mut Vec<Part>,
    cmd: &Cmd,
    split: &SplitParts,
) -> Result<(), AllocError>
    requires { IsOwnSplitting cmd.now.args (shown_split split.now).splitting }
    ensures { IfOk result
        (λ _. map part_of parts.new.items ≡ map part_of parts.old.items
        ++ map routed_part (map (routed_at cmd.now.args) (shown_parts split.now.routes.items))) }
{
    let routed = split.own_routed_args(alloc, cmd)?;
    push_parts(parts, routed)
}

/// Puts a part for each route, with its arguments, behind what there is.
fn push_parts(parts: &mut Vec<Part>, routed: Vec<(Route, Vec<Vec<u8>>)>) -> Result<(), AllocError>
    ensures { IfOk result
        (λ _. map part_of parts.new.items
        ≡ map part_of parts.old.items ++ map routed_part (shown_routed routed.items)) }
{
    'routes: for (route, args) in routed {
        parts.push(Request {
            to: Target::Slot(route),
            args,
        })?;
    }
    Ok(())
}
