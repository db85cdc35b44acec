//! What a guest asks, and what a proxy counts of it.
ghost use Rattle.std.specs.Prelude.{◌≡◌, ◌<◌, ◌^◌, ℕ, Bool, List, length, slice_get, vec_len};
ghost use Rattle.proxy_core.specs.Slots.{overlap};

/// What a proxy holds: a command, or a reply.
pub trait Bytes: Drop {
    ghost bytes: { Self → ℕ };

    /// How many bytes of its guest's share it takes.
    fn bytes(&self) -> usize
        ensures { result ≡ bytes self.now };
}

impl Bytes for Vec<u8> {
    ghost bytes = { λ text. vec_len text };

    fn bytes(&self) -> usize {
        self.len()
    }
}

/// A command of a guest.
pub trait Command: Bytes {
    ghost overlaps: { Self → Self → Bool };

    // the slots of its keys, as far as they are known
    ghost slots: { Self → List ℕ };

    /// Whether the order of this command and a later one can be seen: they share a key, or, where the
    /// keys of one of them are not known, a slot.
    fn overlaps(&self, later: &Self) -> bool
        ensures { result ≡ overlaps self.now later.now };

    /// The slot at this index among those of its keys, as far as they are known; none behind the last. Any
    /// numbers do: two commands overlap where they share one, or one of them has none.
    fn slot(&self, index: usize) -> Option<u64>
        ensures slot { result ≡ slice_get (slots self.now) index }
        ensures few { length (slots self.now) < 2 ^ 64 };

    // two commands overlap where they share a slot, or one of them has none
    ghost overlaps_by_slots: { (a b : Self) → overlaps a b ≡ overlap (slots a) (slots b) };
}
