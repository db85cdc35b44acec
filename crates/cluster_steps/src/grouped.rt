//! The requests of a pipeline, grouped by the nodes that they go to.
ghost use Rattle.std.specs.Prelude.{ℕ, ◌≡◌, ◌<◌, Some, map, nat_eq, slice_get, IfOk, OnOk};
ghost use Rattle.std.specs.List.{AllByRecursion};
ghost use Rattle.cluster_routing.specs.Lists.{firsts};
ghost use Rattle.cluster_steps.specs.Groups.{AreNumbered, gathered_of, group_at, group_of, place_in, places_in_use, with_place};
ghost use Rattle.cluster_steps.specs.Numbers.{HasPlace, found};

use crate::asked::Asked;
use crate::dispatch::Dispatch;
use crate::hop::Hop;
use crate::numbers::Numbers;
use crate::ready::{NodeRequests, bytes_of};
use crate::request::Request;
use std::alloc::{AllocError, Global};

/// The requests to one place, before they are packed.
#[derive(Drop)]
struct Gathered {
    link: usize,
    requests: Vec<Asked>,
}

/// The requests of a pipeline by the places that they go to.
#[derive(Drop)]
pub struct NumberedGroups {
    /// One group for each place in use, packed, in the order in which the places are first used.
    pub groups: Vec<NodeRequests>,
    /// For each request, in order, the number of its group.
    pub numbers: Vec<usize>,
}

/// The number of the group of a place, which is made where nothing goes there yet.
fn number_of(
    alloc: Global,
    table: &mut Numbers,
    groups: &mut Vec<Gathered>,
    link: usize,
) -> Result<usize, AllocError>
    requires place { HasPlace table.old link }
    requires numbered { AreNumbered (found table.old) (map gathered_of groups.old.items) }
    ensures number { IfOk result (λ number.
        slice_get (places_in_use (map gathered_of groups.new.items)) number ≡ Some link) }
    ensures groups { OnOk result
        (map gathered_of groups.new.items ≡ with_place (map gathered_of groups.old.items) link) }
    ensures numbered { OnOk result (AreNumbered (found table.new) (map gathered_of groups.new.items)) }
    ensures places { OnOk result ((k : ℕ) → HasPlace table.old k → HasPlace table.new k) }
{
    match table.get(link) {
        Some(number) => Ok(number),
        None => {
            let number = groups.len();
            table.insert(link, number)?;
            groups.push(Gathered {
                link,
                requests: Vec::new(alloc),
            })?;
            Ok(number)
        }
    }
}

/// The groups with the bytes of each.
fn packed(alloc: Global, all: Vec<Gathered>) -> Result<Vec<NodeRequests>, AllocError>
    ensures { IfOk result (λ v. map group_of v.items ≡ map gathered_of all.items) }
{
    let mut groups = Vec::with_capacity(alloc, all.len())?;
    'gathered: for gathered in all {
        let Gathered { link, requests } = gathered;
        let bytes = bytes_of(alloc, &requests)?;
        groups.push(NodeRequests {
            link,
            requests,
            bytes,
        })?;
    }
    Ok(groups)
}

/// The requests to each place in use, packed, in the order in which the places are first used, and of each
/// request the number of its group; `count` is how many places there are.
pub fn grouped(
    alloc: Global,
    count: usize,
    dispatches: Vec<Dispatch>,
) -> Result<NumberedGroups, AllocError>
    requires { AllByRecursion (λ d. place_in d < count) dispatches.items }
    ensures groups { IfOk result
        (λ g. map group_of g.groups.items
        ≡ map (group_at dispatches.items) (firsts nat_eq (map place_in dispatches.items))) }
    ensures numbers { IfOk result
        (λ g. map (slice_get (firsts nat_eq (map place_in dispatches.items))) g.numbers.items
        ≡ map (λ d. Some (place_in d)) dispatches.items) }
{
    let mut table = Numbers::new(alloc, count, dispatches.len())?;
    let mut gathered = Vec::new(alloc);
    let mut numbers = Vec::with_capacity(alloc, dispatches.len())?;
    'dispatches: for dispatch in dispatches {
        let Request { to, args } = dispatch;
        let Hop { node, link, asking } = to;
        let number = number_of(alloc, &mut table, &mut gathered, link)?;
        gathered[number]
            .requests
            .push(Asked { node, args, asking })?;
        numbers.push(number)?;
    }
    Ok(NumberedGroups {
        groups: packed(alloc, gathered)?,
        numbers,
    })
}
