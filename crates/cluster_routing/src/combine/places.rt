//! The items of several arrays, each at the place of its tuple.

ghost use Rattle.std.specs.Prelude.{◌≡◌, ◌<◌, ◌++◌, ℕ, true, nat_lt, length, map, filter_map, flat_map, option_map, None, Some, IfOk, slice_set};
ghost use Rattle.std.specs.List.{list_all};
ghost use Rattle.resp_core.specs.View.{view};
ghost use Rattle.cluster_routing.specs.Combine.{are_lists_of, array_of, by_place, is_list_of, item_at, items_by_place, items_or_none, tuple_places};
ghost use Rattle.cluster_routing.specs.Lists.{concat, numbers_below};
ghost use Rattle.cluster_routing.specs.Parts.{width_of};
ghost use Rattle.cluster_routing.specs.Policies.{IsCombined};

use super::permutation::is_permutation;
use crate::policy::MultiSlotArgPattern;
use crate::route::Route;
use crate::tuples::width_of;
use resp_core::{Cause, RedisError, Value};
use std::alloc::{AllocError, Global};

/// The items of the replies to the parts of a split command, each at the place of its tuple.
/// `order` lists for each reply the positions of its arguments, as
/// `MultipleNodeRoutingInfo::MultiSlot` does; where a tuple has several arguments each so-manieth
/// position stands for a tuple. (Documentation of the crate `redis`, `cluster_routing`.)
///
/// # Errors
/// `UnexpectedReturnType` where there are not as many replies as lists, a reply is no array with an
/// item for each tuple of its list, or the tuples of all lists are not those below their count,
/// each once. `Memory` where memory is refused.
pub fn combine_and_sort_array_results(
    alloc: Global,
    values: Vec<Value>,
    order: &[(Route, Vec<usize>)],
    pattern: MultiSlotArgPattern,
) -> Result<Value, RedisError>
    ensures { IsCombined (items_by_place (map (λ p. tuple_places (width_of pattern) p.1.items) order.now)
        (map view values.items)) result }
{
    match items_by_place(alloc, values, order, width_of(pattern))? {
        Some(items) => Ok(Value::Array(items)),
        None => Err(RedisError::from(Cause::UnexpectedReturnType)),
    }
}

fn items_by_place(
    alloc: Global,
    values: Vec<Value>,
    order: &[(Route, Vec<usize>)],
    width: usize,
) -> Result<Option<Vec<Value>>, AllocError>
    requires { 0 < width }
    ensures { IfOk result
        (λ o. option_map (λ v. array_of (map view v.items)) o
        ≡ items_by_place (map (λ p. tuple_places width p.1.items) order.now) (map view values.items)) }
{
    let lists = lists_of(alloc, order, width)?;
    if !are_lists_of(&lists, &values) {
        return Ok(None);
    }
    let places = places_in(alloc, &lists)?;
    if !is_permutation(alloc, &places, places.len())? {
        return Ok(None);
    }
    let items = items_in(alloc, values)?;
    Ok(Some(by_place(alloc, &places, items)?))
}

/// For each list of positions the places of its tuples.
fn lists_of(
    alloc: Global,
    order: &[(Route, Vec<usize>)],
    width: usize,
) -> Result<Vec<Vec<usize>>, AllocError>
    requires { 0 < width }
    ensures { IfOk result
        (λ v. map (λ l. l.items) v.items ≡ map (λ p. tuple_places width p.1.items) order.now) }
{
    let mut lists = Vec::with_capacity(alloc, order.len())?;
    'order: for part in order {
        lists.push(tuple_places(alloc, &part.1, width)?)?;
    }
    Ok(lists)
}

fn tuple_places(alloc: Global, positions: &[usize], width: usize) -> Result<Vec<usize>, AllocError>
    requires { 0 < width }
    ensures { IfOk result (λ v. v.items ≡ tuple_places width positions.now) }
{
    let mut places = Vec::with_capacity(alloc, positions.len() / width)?;
    let mut skip = 0;
    'positions: for position in positions {
        if skip == 0 {
            places.push(*position / width)?;
            skip = width - 1;
        } else {
            skip -= 1;
        }
    }
    Ok(places)
}

/// Whether each value is an array with an item for each of its places.
fn are_lists_of(lists: &[Vec<usize>], values: &[Value]) -> bool
    ensures { result ≡ are_lists_of (map (λ l. l.items) lists.now) (map view values.now) }
{
    let mut rest = lists;
    'values: for value in values {
        match rest {
            [] => return false,
            [list, more @ ..] => {
                if !is_list_of(list.len(), value) {
                    return false;
                }
                rest = more;
            }
        }
    }
    rest.is_empty()
}

fn is_list_of(len: usize, value: &Value) -> bool
    ensures { result ≡ is_list_of len (view value.now) }
{
    match value {
        Value::Array(items) => items.len() == len,
        _ => false,
    }
}

/// The places of all lists, one after another.
fn places_in(alloc: Global, lists: &[Vec<usize>]) -> Result<Vec<usize>, AllocError>
    ensures { IfOk result (λ v. v.items ≡ concat (map (λ l. l.items) lists.now)) }
{
    let mut places = Vec::new(alloc);
    'lists: for list in lists {
        push_all(&mut places, list)?;
    }
    Ok(places)
}

fn push_all(places: &mut Vec<usize>, more: &[usize]) -> Result<(), AllocError>
    ensures { IfOk result (λ _. places.new.items ≡ places.old.items ++ more.now) }
{
    'more: for place in more {
        places.push(*place)?;
    }
    Ok(())
}

/// The items of all arrays, one after another.
pub(super) fn items_in(alloc: Global, values: Vec<Value>) -> Result<Vec<Value>, AllocError>
    ensures { IfOk result (λ v. map view v.items ≡ flat_map items_or_none (map view values.items)) }
{
    let mut items = Vec::new(alloc);
    'values: for value in values {
        push_items(&mut items, value)?;
    }
    Ok(items)
}

fn push_items(items: &mut Vec<Value>, value: Value) -> Result<(), AllocError>
    ensures { IfOk result
        (λ _. map view items.new.items ≡ map view items.old.items ++ items_or_none (view value)) }
{
    match value {
        Value::Array(mut more) => items.append(&mut more),
        _ => Ok(()),
    }
}

/// The items in the order of their places.
fn by_place(alloc: Global, places: &[usize], items: Vec<Value>) -> Result<Vec<Value>, AllocError>
    requires same { length items.items ≡ length places.now }
    requires below { list_all (λ p. nat_lt p (length places.now)) places.now ≡ true }
    ensures { IfOk result (λ v. map view v.items ≡ by_place places.now (map view items.items)) }
{
    let table = empty_table(alloc, places.len())?;
    items_of_table(alloc, fill(table, places, items))
}

fn empty_table(alloc: Global, len: usize) -> Result<Vec<Option<Value>>, AllocError>
    ensures { IfOk result (λ v. map (option_map view) v.items ≡ map (λ _. None) (numbers_below len)) }
{
    let mut table = Vec::with_capacity(alloc, len)?;
    'places: for place in 0..len {
        table.push(None)?;
    }
    Ok(table)
}

/// The table with each item at its place, from the last one back.
fn fill(
    mut table: Vec<Option<Value>>,
    places: &[usize],
    mut items: Vec<Value>,
) -> Vec<Option<Value>>
    requires same { length items.items ≡ length places.now }
    requires below { list_all (λ p. nat_lt p (length places.now)) places.now ≡ true }
    requires empty { map (option_map view) table.items ≡ map (λ _. None) (numbers_below (length places.now)) }
    ensures { map (option_map view) result.items
        ≡ map (item_at places.now (map view items.items)) (numbers_below (length places.now)) }
{
    'items: while let Some(item) = items.pop() {
        put(&mut table, places[items.len()], item);
    }
    table
}

fn put(table: &mut Vec<Option<Value>>, place: usize, item: Value)
    requires { place < length table.old.items }
    ensures { table.new.items ≡ slice_set table.old.items place (Some item) }
{
    table[place] = Some(item);
}

fn items_of_table(alloc: Global, table: Vec<Option<Value>>) -> Result<Vec<Value>, AllocError>
    ensures { IfOk result (λ v. map view v.items ≡ filter_map (option_map view) table.items) }
{
    let mut items = Vec::with_capacity(alloc, table.len())?;
    'table: for slot in table {
        if let Some(item) = slot {
            items.push(item)?;
        }
    }
    Ok(items)
}
