//! Copies of where a command goes.

ghost use Rattle.std.specs.Prelude.{◌≡◌, map, IfOk, Option};
ghost use Rattle.cluster_routing.specs.Directions.{shown_direction};
ghost use Rattle.cluster_routing.specs.Info.{shown_info, shown_multiple, shown_part, shown_redirect, shown_single, shown_split};
ghost use Rattle.cluster_routing.specs.declared.policy.ResponsePolicy.{ResponsePolicy};

use crate::direction::Direction;
use crate::route::Route;
use crate::routing::{MultipleNodeRoutingInfo, Redirect, RoutingInfo, SingleNodeRoutingInfo};
use crate::split::SplitParts;
use std::alloc::{AllocError, Global};

impl Direction {
    /// An equal value.
    ///
    /// # Errors
    /// `AllocError` where memory is refused, of which only one in parts takes any.
    pub fn clone(&self) -> Result<Direction, AllocError>
        ensures { IfOk result (λ copy. shown_direction copy ≡ shown_direction self.now) }
    {
        match self {
            Direction::Slot(route) => Ok(Direction::Slot(*route)),
            Direction::AnyNode => Ok(Direction::AnyNode),
            Direction::AllNodes(policy) => Ok(Direction::AllNodes(*policy)),
            Direction::AllPrimaries(policy) => Ok(Direction::AllPrimaries(*policy)),
            Direction::Parts(parts) => Ok(Direction::Parts(parts.clone()?)),
            Direction::Nowhere(cause) => Ok(Direction::Nowhere(*cause)),
        }
    }
}

impl SplitParts {
    /// An equal value.
    ///
    /// # Errors
    /// `AllocError` where memory is refused.
    pub fn clone(&self) -> Result<SplitParts, AllocError>
        ensures { IfOk result (λ copy. shown_split copy ≡ shown_split self.now) }
    {
        Ok(SplitParts {
            routes: part_copies(*self.routes.allocator(), &self.routes)?,
            pattern: self.pattern,
            policy: self.policy,
        })
    }
}

impl RoutingInfo {
    /// An equal value.
    ///
    /// # Errors
    /// `AllocError` where memory is refused.
    pub fn clone(&self) -> Result<RoutingInfo, AllocError>
        ensures { IfOk result (λ copy. shown_info copy ≡ shown_info self.now) }
    {
        match self {
            RoutingInfo::SingleNode(node) => Ok(RoutingInfo::SingleNode(node.clone()?)),
            RoutingInfo::MultiNode((nodes, policy)) => {
                Ok(RoutingInfo::MultiNode((nodes.clone()?, *policy)))
            }
        }
    }
}

impl SingleNodeRoutingInfo {
    /// An equal value.
    ///
    /// # Errors
    /// `AllocError` where memory is refused.
    pub fn clone(&self) -> Result<SingleNodeRoutingInfo, AllocError>
        ensures { IfOk result (λ copy. shown_single copy ≡ shown_single self.now) }
    {
        match self {
            SingleNodeRoutingInfo::Random => Ok(SingleNodeRoutingInfo::Random),
            SingleNodeRoutingInfo::RandomPrimary => Ok(SingleNodeRoutingInfo::RandomPrimary),
            SingleNodeRoutingInfo::SpecificNode(route) => {
                Ok(SingleNodeRoutingInfo::SpecificNode(*route))
            }
            SingleNodeRoutingInfo::ByAddress(node) => {
                Ok(SingleNodeRoutingInfo::ByAddress(node.clone()?))
            }
        }
    }
}

impl MultipleNodeRoutingInfo {
    /// An equal value.
    ///
    /// # Errors
    /// `AllocError` where memory is refused.
    pub fn clone(&self) -> Result<MultipleNodeRoutingInfo, AllocError>
        ensures { IfOk result
            (λ copy. (policy : Option ResponsePolicy)
            → shown_multiple policy copy ≡ shown_multiple policy self.now) }
    {
        match self {
            MultipleNodeRoutingInfo::AllNodes => Ok(MultipleNodeRoutingInfo::AllNodes),
            MultipleNodeRoutingInfo::AllMasters => Ok(MultipleNodeRoutingInfo::AllMasters),
            MultipleNodeRoutingInfo::MultiSlot((parts, pattern)) => {
                let parts = part_copies(*parts.allocator(), parts)?;
                Ok(MultipleNodeRoutingInfo::MultiSlot((parts, *pattern)))
            }
        }
    }
}

/// The same routes, each with the same places.
fn part_copies(
    alloc: Global,
    parts: &[(Route, Vec<usize>)],
) -> Result<Vec<(Route, Vec<usize>)>, AllocError>
    ensures { IfOk result (λ v. map shown_part v.items ≡ map shown_part parts.now) }
{
    let mut copies = Vec::new(alloc);
    'parts: for part in parts {
        copies.push(part_copy(alloc, part)?)?;
    }
    Ok(copies)
}

fn part_copy(alloc: Global, part: &(Route, Vec<usize>)) -> Result<(Route, Vec<usize>), AllocError>
    ensures { IfOk result (λ copy. shown_part copy ≡ shown_part part.now) }
{
    Ok((part.0, Vec::from_slice(alloc, &part.1)?))
}

impl Redirect {
    /// An equal value.
    ///
    /// # Errors
    /// `AllocError` where memory is refused.
    pub fn clone(&self) -> Result<Redirect, AllocError>
        ensures { IfOk result (λ copy. shown_redirect copy ≡ shown_redirect self.now) }
    {
        match self {
            Redirect::Moved(node) => Ok(Redirect::Moved(node.clone()?)),
            Redirect::Ask(node) => Ok(Redirect::Ask(node.clone()?)),
        }
    }
}
