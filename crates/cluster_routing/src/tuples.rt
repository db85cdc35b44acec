//! The tuples of a split command, and the routes of their slots.

ghost use Rattle.std.specs.List.{position, position_or_len};
ghost use Rattle.std.specs.Prelude.{◌≡◌, ◌<◌, ◌≤◌, ◌+◌, ◌*◌, ◌^◌, ◌++◌, drop, length, map, nat_eq, take, option_map, IfOk};
ghost use Rattle.cluster_routing.specs.Info.{lent, shown_part, shown_parts};
ghost use Rattle.cluster_routing.specs.Parts.{argument_slots, groups, in_tuples, len_in_tuples, tuple_count, tuple_slot, tuples_from, tuples_of, width_of};
ghost use Rattle.cluster_routing.specs.Routing.{part_slots, part_to, put_place};
ghost use Rattle.cluster_routing.specs.Split.{cut, tuple_routes};

use crate::policy::MultiSlotArgPattern;
use crate::route::{Route, SlotAddr};
use crate::slot::Slot;
use indexmap::IndexSet;
use std::alloc::{AllocError, Global};

/// The route of each slot of a split command whose arguments, with the word, are these bytes, with the
/// places of its tuples; none where the last tuple is broken.
pub(crate) fn routes_of(
    alloc: Global,
    args: &[&[u8]],
    role: SlotAddr,
    pattern: MultiSlotArgPattern,
) -> Result<Option<Vec<(Route, Vec<usize>)>>, AllocError>
    ensures { IfOk result
        (λ o. option_map (λ v. shown_parts v.items) o
        ≡ option_map (tuple_routes role) (cut pattern (drop 1 (lent args.now)))) }
{
    match args {
        [_, behind @ ..] => routes_behind(alloc, behind, role, pattern),
        [] => routes_behind(alloc, args, role, pattern),
    }
}

/// The same of the arguments behind the word.
fn routes_behind(
    alloc: Global,
    args: &[&[u8]],
    role: SlotAddr,
    pattern: MultiSlotArgPattern,
) -> Result<Option<Vec<(Route, Vec<usize>)>>, AllocError>
    ensures { IfOk result
        (λ o. option_map (λ v. shown_parts v.items) o
        ≡ option_map (tuple_routes role) (cut pattern (lent args.now))) }
{
    routes_of_tuples(alloc, in_tuples(pattern, args), role, pattern)
}

/// The arguments that stand in tuples.
fn in_tuples<'a, 'b>(pattern: MultiSlotArgPattern, args: &'a [&'b [u8]]) -> &'a [&'b [u8]]
    ensures { lent result.now ≡ in_tuples pattern (lent args.now) }
{
    &args[..len_in_tuples(pattern, args.len())]
}

pub(crate) fn len_in_tuples(pattern: MultiSlotArgPattern, len: usize) -> usize
    ensures count { result ≡ len_in_tuples pattern len }
    ensures fits { result ≤ len }
{
    match pattern {
        MultiSlotArgPattern::KeysAndLastArg => len.saturating_sub(1),
        _ => len,
    }
}

/// The same of the arguments that stand in tuples.
fn routes_of_tuples(
    alloc: Global,
    args: &[&[u8]],
    role: SlotAddr,
    pattern: MultiSlotArgPattern,
) -> Result<Option<Vec<(Route, Vec<usize>)>>, AllocError>
    ensures { IfOk result
        (λ o. option_map (λ v. shown_parts v.items) o
        ≡ option_map (tuple_routes role) (tuples_of (width_of pattern) (lent args.now))) }
{
    let width = width_of(pattern);
    match tuple_count(width, args.len()) {
        None => Ok(None),
        Some(count) => {
            let slots = slots_of(alloc, args, width, count)?;
            Ok(Some(parts_of(alloc, &slots, role)?))
        }
    }
}

/// How many tuples so many arguments are; none where the last one is broken.
fn tuple_count(width: usize, len: usize) -> Option<usize>
    requires { 0 < width }
    ensures { result ≡ tuple_count width len }
{
    if len % width == 0 {
        Some(len / width)
    } else {
        None
    }
}

/// How many arguments a tuple has.
pub(crate) fn width_of(pattern: MultiSlotArgPattern) -> usize
    ensures width { result ≡ width_of pattern }
    ensures some { 0 < result }
{
    match pattern {
        MultiSlotArgPattern::KeysOnly | MultiSlotArgPattern::KeysAndLastArg => 1,
        MultiSlotArgPattern::KeyValuePairs => 2,
        MultiSlotArgPattern::KeyWithTwoArgTriples => 3,
    }
}

/// For each argument the slot of its tuple.
fn slots_of(
    alloc: Global,
    args: &[&[u8]],
    width: usize,
    count: usize,
) -> Result<Vec<u16>, AllocError>
    requires { count * width ≤ length args.now }
    ensures { IfOk result (λ v. v.items ≡ argument_slots (tuples_from count width (lent args.now))) }
{
    let mut slots = Vec::with_capacity(alloc, args.len())?;
    let mut start = 0;
    for passed in 0..count {
        let tuple = tuple_at(args, start, width);
        push_times(&mut slots, slot_of(tuple), tuple)?;
        start += width;
    }
    Ok(slots)
}

fn tuple_at<'a, 'b>(args: &'a [&'b [u8]], start: usize, width: usize) -> &'a [&'b [u8]]
    requires { start + width ≤ length args.now }
    ensures tuple { lent result.now ≡ take width (drop start (lent args.now)) }
    ensures fits { start + width < 2 ^ 64 }
{
    &args[start..start + width]
}

/// Adds a slot for each argument of its tuple.
fn push_times(slots: &mut Vec<u16>, slot: u16, tuple: &[&[u8]]) -> Result<(), AllocError>
    ensures { IfOk result (λ _. slots.new.items ≡ slots.old.items ++ map (λ _. slot) tuple.now) }
{
    for arg in tuple {
        slots.push(slot)?;
    }
    Ok(())
}

fn slot_of(tuple: &[&[u8]]) -> u16
    ensures { result ≡ tuple_slot (lent tuple.now) }
{
    match tuple {
        [key, ..] => Slot::for_key(key).number,
        [] => Slot::for_key(b"").number,
    }
}

/// So many arguments find their parts by a look through these as quickly as by a table.
const FEW: usize = 32;

/// The parts of a command whose arguments have these slots.
pub(crate) fn parts_of(
    alloc: Global,
    slots: &[u16],
    role: SlotAddr,
) -> Result<Vec<(Route, Vec<usize>)>, AllocError>
    ensures { IfOk result (λ v. map shown_part v.items ≡ map (part_to role) (groups slots.now)) }
{
    if slots.len() <= FEW {
        parts_of_few(alloc, slots, role)
    } else {
        parts_of_many(alloc, slots, role)
    }
}

/// The same of few arguments.
fn parts_of_few(
    alloc: Global,
    slots: &[u16],
    role: SlotAddr,
) -> Result<Vec<(Route, Vec<usize>)>, AllocError>
    ensures { IfOk result (λ v. map shown_part v.items ≡ map (part_to role) (groups slots.now)) }
{
    let mut parts = Vec::new(alloc);
    'slots: for (place, slot) in slots.iter().enumerate() {
        put_among(&mut parts, Route::new(*slot, role), place)?;
    }
    Ok(parts)
}

/// Puts a place into the part of its route's slot, which is looked for among all.
fn put_among(
    parts: &mut Vec<(Route, Vec<usize>)>,
    route: Route,
    place: usize,
) -> Result<(), AllocError>
    ensures { IfOk result
        (λ _. map shown_part parts.new.items ≡ put_place route place (map shown_part parts.old.items)) }
{
    let part = part_at(parts, route.slot());
    put_into(parts, part, route, place)
}

/// The index of the first part of this slot.
fn first_part(parts: &[(Route, Vec<usize>)], slot: u16) -> Option<usize>
    ensures { result ≡ position (λ part. nat_eq slot part.0.slot) parts.now }
{
    parts.iter().position(|part| slot == part.0.slot())
}

/// The same, or how many parts there are where none is of this slot.
fn part_at(parts: &[(Route, Vec<usize>)], slot: u16) -> usize
    ensures { result ≡ position_or_len (nat_eq slot) (part_slots (map shown_part parts.now)) }
{
    match first_part(parts, slot) {
        Some(part) => part,
        None => parts.len(),
    }
}

/// Puts a place into the part of its route's slot, which stands at this index, or is new.
fn put_into(
    parts: &mut Vec<(Route, Vec<usize>)>,
    part: usize,
    route: Route,
    place: usize,
) -> Result<(), AllocError>
    requires { part ≡ position_or_len (nat_eq route.slot) (part_slots (map shown_part parts.old.items)) }
    ensures { IfOk result
        (λ _. map shown_part parts.new.items ≡ put_place route place (map shown_part parts.old.items)) }
{
    if part == parts.len() {
        parts.push((route, Vec::new(*parts.allocator())))?;
    }
    parts[part].1.push(place)?;
    Ok(())
}

/// The same of many arguments.
fn parts_of_many(
    alloc: Global,
    slots: &[u16],
    role: SlotAddr,
) -> Result<Vec<(Route, Vec<usize>)>, AllocError>
    ensures { IfOk result (λ v. map shown_part v.items ≡ map (part_to role) (groups slots.now)) }
{
    let mut seen = IndexSet::new(alloc);
    let mut all = Vec::new(alloc);
    'slots: for (place, slot) in slots.iter().enumerate() {
        put_place(&mut seen, &mut all, Route::new(*slot, role), place)?;
    }
    Ok(all)
}

/// Puts a place into the part of its route's slot, which `seen` has at the index of that part.
fn put_place(
    seen: &mut IndexSet<u16>,
    parts: &mut Vec<(Route, Vec<usize>)>,
    route: Route,
    place: usize,
) -> Result<(), AllocError>
    requires { seen.old.keys ≡ part_slots (map shown_part parts.old.items) }
    ensures seen { IfOk result (λ _. seen.new.keys ≡ part_slots (map shown_part parts.new.items)) }
    ensures parts { IfOk result
        (λ _. map shown_part parts.new.items ≡ put_place route place (map shown_part parts.old.items)) }
{
    let (part, _) = seen.insert_full(route.slot())?;
    put_into(parts, part, route, place)?;
    Ok(())
}
