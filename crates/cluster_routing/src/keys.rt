//! Keys by the slots that they belong to.

ghost use Rattle.std.specs.Prelude.{◌≡◌, map, IfOk};
ghost use Rattle.cluster_routing.specs.HashSlot.{hash_slot};
ghost use Rattle.cluster_routing.specs.Info.{lent, shown_parts};
ghost use Rattle.cluster_routing.specs.Split.{key_routes};

use crate::route::{Route, SlotAddr};
use crate::slot::Slot;
use crate::tuples::parts_of;
use std::alloc::{AllocError, Global};

/// For each slot of the keys a route to it, asking for `addr`, with the positions of its keys.
///
/// Positions count from 0 and ascend; slots stand in the order in which they first appear. Repeated
/// keys keep their positions, and no key gives no route.
///
/// # Errors
/// Want of memory.
pub fn group_keys_by_slot(
    alloc: Global,
    keys: &[&[u8]],
    addr: SlotAddr,
) -> Result<Vec<(Route, Vec<usize>)>, AllocError>
    ensures { IfOk result (λ v. shown_parts v.items ≡ key_routes addr (lent keys.now)) }
{
    let slots = slots_of_keys(alloc, keys)?;
    parts_of(alloc, &slots, addr)
}

fn slots_of_keys(alloc: Global, keys: &[&[u8]]) -> Result<Vec<u16>, AllocError>
    ensures { IfOk result (λ v. v.items ≡ map hash_slot (lent keys.now)) }
{
    let mut slots = Vec::with_capacity(alloc, keys.len())?;
    'keys: for key in keys {
        slots.push(Slot::for_key(key).number)?;
    }
    Ok(slots)
}
