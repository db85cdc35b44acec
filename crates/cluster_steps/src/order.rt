//! Items in an order of their numbers, and the parts of a command in the order of sending.
ghost use Rattle.std.specs.Prelude.{◌≡◌, Some, filter_map, length, map, nat_eq, nat_lt, option_map, slice_get, true, IfOk, IfSome};
ghost use Rattle.std.specs.List.{list_all};
ghost use Rattle.cluster_routing.specs.Info.{shown_split};
ghost use Rattle.cluster_routing.specs.Lists.{is_distinct, is_permutation};
ghost use Rattle.cluster_calls.specs.Calls.Parts.{fits_order};
ghost use Rattle.cluster_calls.specs.Calls.Plan.{in_order};
ghost use Rattle.cluster_calls.specs.Links.Orders.{routes_in_order};
ghost use Rattle.cluster_calls.specs.Links.Taken.{there_at};

use crate::dispatch::Prepared;
use cluster_routing::{SplitParts, is_permutation};
use std::alloc::{AllocError, Global};

/// Whether the order has each number below `count` once, and no other. Where none is given, things
/// stay as they are.
///
/// # Errors
/// `AllocError` where memory is refused.
pub fn fits_order(alloc: Global, order: Option<&[usize]>, count: usize) -> Result<bool, AllocError>
    ensures { IfOk result (λ fits. fits ≡ fits_order (option_map (λ o. o.now) order.entry) count) }
{
    match order {
        None => Ok(true),
        Some(order) => is_permutation(alloc, order, count),
    }
}

/// What was prepared for a command, with its parts in the order given.
///
/// # Errors
/// `AllocError` where memory is refused.
pub fn prepared_in_order(
    alloc: Global,
    prepared: Prepared,
    order: Option<&[usize]>,
) -> Result<Prepared, AllocError>
    requires dispatches { fits_order (option_map (λ o. o.now) order) (length prepared.dispatches.items)
        ≡ true }
    requires routes { IfSome prepared.split
        (λ s. fits_order (option_map (λ o. o.now) order) (length s.routes.items) ≡ true) }
    ensures dispatches { IfOk result
        (λ p. p.dispatches.items ≡ in_order (option_map (λ o. o.now) order.entry) prepared.dispatches.items) }
    ensures split { IfOk result (λ p. option_map shown_split p.split
        ≡ option_map (routes_in_order (option_map (λ o. o.now) order.entry))
        (option_map shown_split prepared.split)) }
{
    let Some(order) = order else {
        return Ok(prepared);
    };
    let Prepared { dispatches, split } = prepared;
    Ok(Prepared {
        dispatches: in_order(alloc, dispatches, order)?,
        split: split_in_order(alloc, split, order)?,
    })
}

fn split_in_order(
    alloc: Global,
    split: Option<SplitParts>,
    order: &[usize],
) -> Result<Option<SplitParts>, AllocError>
    requires { IfSome split (λ s. is_permutation (length s.routes.items) order.now ≡ true) }
    ensures { IfOk result
        (λ o. option_map shown_split o
        ≡ option_map (routes_in_order (Some order.now)) (option_map shown_split split)) }
{
    let Some(split) = split else {
        return Ok(None);
    };
    let SplitParts {
        routes,
        pattern,
        policy,
    } = split;
    let routes = in_order(alloc, routes, order)?;
    Ok(Some(SplitParts {
        routes,
        pattern,
        policy,
    }))
}

/// The items in the order of these numbers, each of which stands once.
///
/// # Errors
/// `AllocError` where memory is refused.
fn in_order<T: Drop>(alloc: Global, items: Vec<T>, order: &[usize]) -> Result<Vec<T>, AllocError>
    requires { is_permutation (length items.items) order.now ≡ true }
    ensures { IfOk result (λ v. v.items ≡ filter_map (slice_get items.items) order.now) }
{
    taken(alloc, takeable(alloc, items)?, order)
}

/// The items, as they may be taken one at a time.
pub fn takeable<T: Drop>(alloc: Global, items: Vec<T>) -> Result<Vec<Option<T>>, AllocError>
    ensures { IfOk result (λ v. v.items ≡ map (λ item. Some item) items.items) }
{
    let mut all = Vec::with_capacity(alloc, items.len())?;
    'items: for item in items {
        all.push(Some(item))?;
    }
    Ok(all)
}

/// The items with these numbers, taken in their order.
pub fn taken<T: Drop>(
    alloc: Global,
    items: Vec<Option<T>>,
    order: &[usize],
) -> Result<Vec<T>, AllocError>
    requires within { list_all (λ i. nat_lt i (length items.items)) order.now ≡ true }
    requires distinct { is_distinct nat_eq order.now ≡ true }
    ensures { IfOk result (λ v. v.items ≡ filter_map (there_at items.items) order.now) }
{
    let mut left = items;
    let mut all = Vec::with_capacity(alloc, order.len())?;
    'numbers: for number in order {
        if let Some(item) = left[*number].take() {
            all.push(item)?;
        }
    }
    Ok(all)
}
