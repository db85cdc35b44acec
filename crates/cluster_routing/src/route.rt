//! Routes: a slot, and which of its nodes may serve it.

ghost use Rattle.std.specs.Prelude.{◌≡◌};
ghost use Rattle.cluster_routing.specs.HashSlot.{hash_slot};

use crate::slot::Slot;

/// Which nodes of a slot may serve a request. (Documentation of the crate `redis`.)
#[derive(Clone, Copy, Debug, PartialEq, Eq, PartialOrd, Ord, Hash)]
pub enum SlotAddr {
    /// The primary.
    Master,
    /// Any node: what a strategy answers, without a strategy the primary.
    ReplicaOptional,
    /// A replica, where there is one.
    ReplicaRequired,
}

/// The slot that a request goes to, and which of its nodes may serve it.
#[derive(Clone, Copy, Debug, PartialEq, Eq, PartialOrd, Ord, Hash)]
pub struct Route {
    slot: u16,
    slot_addr: SlotAddr,
}

impl Route {
    /// The route to the slot of this number, which may be any.
    pub fn new(slot: u16, slot_addr: SlotAddr) -> Route
        ensures { result ≡ record { slot = slot; slot_addr = slot_addr } }
    {
        Route { slot, slot_addr }
    }

    /// The route to a slot.
    pub fn with_slot(slot: Slot, slot_addr: SlotAddr) -> Route
        ensures { result ≡ record { slot = slot.number; slot_addr = slot_addr } }
    {
        Route::new(slot.number, slot_addr)
    }

    /// The route to the slot of a key.
    pub fn with_key(key: &[u8], slot_addr: SlotAddr) -> Route
        ensures { result ≡ record { slot = hash_slot key.now; slot_addr = slot_addr } }
    {
        Route::with_slot(Slot::for_key(key), slot_addr)
    }

    /// The number of the slot.
    pub fn slot(&self) -> u16
        ensures { result ≡ self.now.slot }
    {
        self.slot
    }

    /// Which of its nodes may serve the request.
    pub fn slot_addr(&self) -> SlotAddr
        ensures { result ≡ self.now.slot_addr }
    {
        self.slot_addr
    }
}
