//! Where a command goes, by one look into the routing table.
ghost use Rattle.std.specs.Prelude.{◌≡◌, ◌+◌, ◌<◌, ◌^◌, codes, map, option_and_then, slice_get, IfOk, None, Option, Some};
ghost use Rattle.resp_core.specs.Numbers.{number_below};
ghost use Rattle.cluster_routing.specs.Command.{Args, all_bytes, bytes_of, place_of};
ghost use Rattle.cluster_routing.specs.Directions.{direction, direction_by, direction_of_name, shown_direction, split_direction, whole_direction};
ghost use Rattle.cluster_routing.specs.Info.{lent, shown_splitting, texts};
ghost use Rattle.cluster_routing.specs.Routing.{Destination, name_of_word, to_counted_key, to_key, to_key_behind};
ghost use Rattle.cluster_routing.specs.Rows.{shown_rule};
ghost use Rattle.cluster_routing.specs.Split.{parts_by_role};
ghost use Rattle.cluster_routing.specs.Table.{is_family};

use crate::policy::{MultiSlotArgPattern, ResponsePolicy};
use crate::routable::{Routable, spelled_name};
use crate::route::{Route, SlotAddr};
use crate::routing::role_of;
use crate::split::{SplitParts, parts_of_bytes};
use crate::table::{Rule, is_family, rule_for};
use resp_core::Cause;
use std::alloc::{AllocError, Global};

/// Where a command goes.
#[derive(Debug, Drop)]
pub enum Direction {
    /// Whole, to a node of one slot.
    Slot(Route),
    /// Whole, to any node.
    AnyNode,
    /// Whole, to all nodes, whose replies become one by the policy.
    AllNodes(ResponsePolicy),
    /// Whole, to all primaries, whose replies become one by the policy.
    AllPrimaries(ResponsePolicy),
    /// In parts, each to a node of its slot, also where all keys have one slot.
    Parts(SplitParts),
    /// Nowhere: `CursorInSplit` where an argument of a split command is a gap, `BrokenTuples` where its last tuple
    /// is broken or it has none, `NoRoute` of any other command.
    Nowhere(Cause),
}

impl Direction {
    /// Where a command goes, by one look into the routing table, with the parts of one whose word is split by its
    /// keys.
    ///
    /// A word that the table does not list goes to the slot of its first argument, as if that were a key: the
    /// table is this project's own there, and `SWAPDB 0 1` goes to the slot of `0`. A missing argument or a gap
    /// where a key, a number or a name is needed leads nowhere.
    ///
    /// `read_only` are the names of the commands that may be served by a replica: their routes are
    /// `ReplicaOptional`, all others `Master`. Names are compared without the case of ASCII letters.
    /// (Documentation of the crate `redis`, `cluster_routing`.)
    ///
    /// # Errors
    /// `AllocError` where memory is refused. Only a split command, and one of two words, as `CONFIG SET`, take
    /// memory.
    pub fn for_routable<R: Routable>(
        alloc: Global,
        r: &R,
        read_only: &[Vec<u8>],
    ) -> Result<Direction, AllocError>
        ensures { IfOk result
            (λ d. shown_direction d ≡ direction (R.args r.now) (texts read_only.now)) }
    {
        match r.arg_idx(0) {
            None => Ok(Direction::Nowhere(Cause::NoRoute)),
            Some(word) => direction_by_word(alloc, r, word, read_only),
        }
    }
}

fn direction_by_word<R: Routable>(
    alloc: Global,
    r: &R,
    word: &[u8],
    read_only: &[Vec<u8>],
) -> Result<Direction, AllocError>
    ensures { IfOk result (λ d. shown_direction d ≡ direction_of_name
        (name_of_word word.now (R.args r.now)) (is_family word.now) (R.args r.now) (texts read_only.now)) }
{
    if !is_family(word) {
        return direction_by_name(alloc, r, word, false, read_only);
    }
    let name = spelled_name(alloc, word, r.arg_idx(1))?;
    direction_by_name(alloc, r, &name, true, read_only)
}

fn direction_by_name<R: Routable>(
    alloc: Global,
    r: &R,
    name: &[u8],
    family: bool,
    read_only: &[Vec<u8>],
) -> Result<Direction, AllocError>
    ensures { IfOk result (λ d. shown_direction d
        ≡ direction_of_name name.now family (R.args r.now) (texts read_only.now)) }
{
    direction_by_rule(alloc, r, role_of(name, read_only), rule_for(name, family))
}

fn direction_by_rule<R: Routable>(
    alloc: Global,
    r: &R,
    role: SlotAddr,
    rule: Rule,
) -> Result<Direction, AllocError>
    ensures { IfOk result
        (λ d. shown_direction d ≡ direction_by role (R.args r.now) (shown_rule rule)) }
{
    match rule {
        Rule::Split(pattern, policy) => in_parts(alloc, r, role, pattern, policy),
        Rule::KeyAfterStreams => Ok(key_behind_streams(r, role)),
        Rule::CountedKeyOrRandom(place) => Ok(counted_key(r, role, place, Direction::AnyNode)),
        Rule::CountedKey(place) => Ok(counted_key(r, role, place, nowhere())),
        Rule::Key(place) => Ok(key_at(r, role, place as usize)),
        Rule::Random => Ok(Direction::AnyNode),
        Rule::AllMasters(policy) => Ok(Direction::AllPrimaries(policy)),
        Rule::AllNodes(policy) => Ok(Direction::AllNodes(policy)),
        Rule::Nowhere => Ok(nowhere()),
    }
}

fn nowhere() -> Direction
    ensures { shown_direction result ≡ whole_direction None }
{
    Direction::Nowhere(Cause::NoRoute)
}

/// The direction of a command whose key stands at a place.
fn key_at<R: Routable>(r: &R, role: SlotAddr, place: usize) -> Direction
    ensures { shown_direction result ≡ whole_direction (to_key role (slice_get (R.args r.now) place)) }
{
    match r.arg_idx(place) {
        None => nowhere(),
        Some(key) => Direction::Slot(Route::with_key(key, role)),
    }
}

/// That of a command whose key stands behind a count of keys; of none, elsewhere.
fn counted_key<R: Routable>(r: &R, role: SlotAddr, place: u8, elsewhere: Direction) -> Direction
    ensures { (d : Option Destination) → shown_direction elsewhere ≡ whole_direction d
        → shown_direction result ≡ whole_direction (to_counted_key role d
        (slice_get (R.args r.now) place) (slice_get (R.args r.now) (place + 1))) }
{
    match number_at(r, place as usize) {
        None => nowhere(),
        Some(0) => elsewhere,
        Some(_) => key_at(r, role, place as usize + 1),
    }
}

fn number_at<R: Routable>(r: &R, place: usize) -> Option<u64>
    ensures { result ≡ option_and_then (number_below (2 ^ 64)) (bytes_of (slice_get (R.args r.now) place)) }
{
    match r.arg_idx(place) {
        None => None,
        Some(bytes) => number(bytes),
    }
}

fn number(bytes: &[u8]) -> Option<u64>
    ensures { result ≡ number_below (2 ^ 64) bytes.now }
{
    match str::from_utf8(bytes) {
        Ok(text) => text.parse::<u64>().ok(),
        Err(_) => None,
    }
}

fn key_behind_streams<R: Routable>(r: &R, role: SlotAddr) -> Direction
    ensures { shown_direction result
        ≡ whole_direction (to_key_behind role (R.args r.now) (place_of (codes "STREAMS") (R.args r.now))) }
{
    match r.position(b"STREAMS") {
        None => nowhere(),
        Some(place) => key_behind(r, role, place),
    }
}

fn key_behind<R: Routable>(r: &R, role: SlotAddr, place: usize) -> Direction
    requires { place + 1 < 2 ^ 64 }
    ensures { shown_direction result ≡ whole_direction (to_key_behind role (R.args r.now) (Some place)) }
{
    key_at(r, role, place + 1)
}

/// The direction of a command that is split by its keys.
fn in_parts<R: Routable>(
    alloc: Global,
    r: &R,
    role: SlotAddr,
    pattern: MultiSlotArgPattern,
    policy: ResponsePolicy,
) -> Result<Direction, AllocError>
    ensures { IfOk result
        (λ d. shown_direction d ≡ split_direction (all_bytes (R.args r.now))
        (option_and_then (parts_by_role role (shown_splitting (pattern, policy))) (all_bytes (R.args r.now)))) }
{
    match r.arguments(alloc)? {
        None => Ok(Direction::Nowhere(Cause::CursorInSplit)),
        Some(args) => in_parts_of(alloc, &args, role, pattern, policy),
    }
}

/// The same of these arguments, with the word.
fn in_parts_of(
    alloc: Global,
    args: &[&[u8]],
    role: SlotAddr,
    pattern: MultiSlotArgPattern,
    policy: ResponsePolicy,
) -> Result<Direction, AllocError>
    ensures { IfOk result
        (λ d. shown_direction d ≡ split_direction (Some (lent args.now))
        (parts_by_role role (shown_splitting (pattern, policy)) (lent args.now))) }
{
    match parts_of_bytes(alloc, args, role, pattern, policy)? {
        None => Ok(Direction::Nowhere(Cause::BrokenTuples)),
        Some(parts) => Ok(Direction::Parts(parts)),
    }
}
