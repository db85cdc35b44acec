//! Laws of addresses, slots, range maps and routes. Each is the contract of a call that does
//! nothing, or that makes the one call that it speaks of.

ghost use Rattle.std.specs.Prelude.{◌≡◌, fold, option_map, true, IfOk};
ghost use Rattle.cluster_routing.specs.Address.{address_cmp, hashed_address, same_address};
ghost use Rattle.cluster_routing.specs.CombineLaws.{AggregatesInAnyOrder, CountsInAnyOrder, OneSlotIsTheWhole, SplitWordsAreNames, SubsAreAtTheirPlaces};
ghost use Rattle.cluster_routing.specs.Info.{same_redirection, shown_info, shown_redirect, texts};
ghost use Rattle.cluster_routing.specs.Routing.{destination};
ghost use Rattle.cluster_routing.specs.Laws.{CaseOfTheWord, EachAddressOnce, EachNameHasItsRow, EqualTags, OneRange, OrderAgrees, PartsShareThePlaces, RoundTrip, RoutesAsOnTheWire, TopologyServes};
ghost use Rattle.cluster_routing.specs.Seen.{address};

use crate::address::NodeAddress;
use crate::routable::Routable;
use crate::routing::{Redirect, RoutingInfo};
use std::alloc::{AllocError, Global};
use std::cmp::Ordering;
use std::hash::{Hash, Hasher};

/// An address comes back from its text exactly where its host is not empty, does not begin with
/// `[` and does not end with `]`.
pub fn addresses_come_back()
    ensures { RoundTrip }
{}

/// The order of addresses is by the bytes of the host, and then by the port as a number.
pub fn order_of_addresses(a: &NodeAddress, b: &NodeAddress) -> Ordering
    ensures { result ≡ address_cmp (address a.now) (address b.now) }
{
    a.cmp(b)
}

/// Two addresses are equal where host and port are.
pub fn equality_of_addresses(a: &NodeAddress, b: &NodeAddress) -> bool
    ensures { result ≡ same_address (address a.now) (address b.now) }
{
    a == b
}

/// Two redirects are equal where both are `MOVED`, or both `ASK`, with equal addresses.
pub fn equality_of_redirects(a: &Redirect, b: &Redirect) -> bool
    ensures { result ≡ same_redirection (shown_redirect a.now) (shown_redirect b.now) }
{
    a == b
}

/// The order of addresses tells two of them equal exactly where they are.
pub fn order_and_equality_agree()
    ensures { OrderAgrees }
{}

/// Each address feeds its hasher the host and the port, and nothing else. So equal addresses are
/// hashed alike: two hashers that were equal are equal afterwards.
pub fn hashes_of_addresses<H: Hasher>(
    a: &NodeAddress,
    b: &NodeAddress,
    first: &mut H,
    second: &mut H,
)
    ensures first { first.new ≡ fold H.write first.old (hashed_address (address a.now)) }
    ensures second { second.new ≡ fold H.write second.old (hashed_address (address b.now)) }
    ensures alike { same_address (address a.now) (address b.now) ≡ true → first.old ≡ second.old
        → first.new ≡ second.new }
{
    a.hash(first);
    b.hash(second);
}

/// Keys with an equal tag that is not empty have an equal slot.
pub fn equal_tags_have_equal_slots()
    ensures { EqualTags }
{}

/// The case of the ASCII letters of a command's word changes no route.
pub fn case_changes_no_route()
    ensures { CaseOfTheWord }
{}

/// A command with a gap that goes anywhere goes there too with the cursor in the gap, as its
/// arguments stand on the wire.
pub fn gaps_change_no_route()
    ensures { RoutesAsOnTheWire }
{}

/// The routes of two commands, of any types, are equal where their arguments are.
///
/// # Errors
/// `AllocError` where memory is refused.
pub fn equal_arguments_have_equal_routes<A: Routable, B: Routable>(
    alloc: Global,
    a: &A,
    b: &B,
    read_only: &[Vec<u8>],
) -> Result<(Option<RoutingInfo>, Option<RoutingInfo>), AllocError>
    ensures first { IfOk result
        (λ both. option_map shown_info both.0 ≡ destination (A.args a.now) (texts read_only.now)) }
    ensures second { IfOk result
        (λ both. option_map shown_info both.1 ≡ destination (B.args b.now) (texts read_only.now)) }
    ensures equal { A.args a.now ≡ B.args b.now
        → IfOk result (λ both. option_map shown_info both.0 ≡ option_map shown_info both.1) }
{
    let first = RoutingInfo::for_routable(alloc, a, read_only)?;
    let second = RoutingInfo::for_routable(alloc, b, read_only)?;
    Ok((first, second))
}

/// Where ranges are apart and none is reversed, the value of a slot is that of the one range that
/// holds it.
pub fn the_one_range_serves<V>()
    ensures { OneRange V }
{}

/// Each name of the routing table is routed by its own row, and by no other.
pub fn each_name_has_its_row()
    ensures { EachNameHasItsRow }
{}

/// The lists of a map's addresses ascend strictly, so that they repeat nothing, and have exactly the
/// addresses that they are made of.
pub fn each_address_stands_once()
    ensures { EachAddressOnce }
{}

/// The topology of a map has a shard for a slot exactly where a master route has an address, and
/// the shard has that primary, and the replicas of the slot.
pub fn the_topology_serves_as_the_map_does()
    ensures { TopologyServes }
{}

/// The parts of a split command share its places: each place stands in the part of its own slot and in
/// no other, the places of a part ascend, and each slot has its part, and no more than one.
pub fn parts_share_the_places()
    ensures { PartsShareThePlaces }
{}

/// The arguments at the places of a split command's part, between its word and the argument that all
/// parts share, are the command of that part.
pub fn the_places_of_a_part_make_its_command()
    ensures { SubsAreAtTheirPlaces }
{}

/// The part of a split command whose keys all have one slot is the whole command.
pub fn the_part_of_one_slot_is_the_whole()
    ensures { OneSlotIsTheWhole }
{}

/// The name of a split command is its word alone, so that its role is that of its word.
pub fn split_words_are_names()
    ensures { SplitWordsAreNames }
{}

/// The counts of the same replies make the same map, whatever order the replies come in.
pub fn counts_are_added_in_any_order()
    ensures { CountsInAnyOrder }
{}

/// The sum, or the least, of the same replies is the same, or is refused, whatever order the replies
/// come in.
pub fn aggregates_are_made_in_any_order()
    ensures { AggregatesInAnyOrder }
{}
