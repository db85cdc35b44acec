//! Values by ranges of slots.

ghost use Rattle.std.specs.Prelude.{◌≡◌, [], map, MatchResult, option_copied, slice_get};
ghost use Rattle.std.specs.Slice.Iter.{iter_rest};
ghost use Rattle.cluster_routing.specs.RangePlaces.{ends_at, place_from};
ghost use Rattle.cluster_routing.specs.Ranges.{first_from, put, value_at, IsAscending};

use std::alloc::{AllocError, Global};
use std::marker::Model;
use std::slice::Iter;

/// Values by ranges of slots: a list by ascending distinct ends.
///
/// A contract sees it as the list of `(end, (start, value))`. A start may be above its end; such
/// an entry answers for no slot, and hides the entries behind it from the slots up to its end.
#[derive(Drop)]
pub struct SlotRangeMap<V> {
    entries: Vec<(u16, (u16, V))>,
}

impl<V> Model for SlotRangeMap<V> {
    ghost use Rattle.std.specs.Prelude.{List, ℕ};
    ghost use Rattle.cluster_routing.specs.Ranges.{IsAscending};

    ghost Value = { List (ℕ × (ℕ × V)) };

    ghost view = { λ m. m.entries.items };

    ghost invariant = { λ m. IsAscending m.entries.items };
}

impl<V: Drop> SlotRangeMap<V> {
    /// No ranges. It takes no memory.
    pub fn new(alloc: Global) -> SlotRangeMap<V>
        ensures { result ≡ [] }
    {
        SlotRangeMap {
            entries: Vec::new(alloc),
        }
    }

    /// Takes up the slots from `start` to `end`, in place of the range with an equal end.
    ///
    /// # Errors
    /// `AllocError` where memory is refused; then the map is as it was, and the value is gone.
    pub fn insert(&mut self, start: u16, end: u16, value: V) -> Result<(), AllocError>
        ensures { MatchResult result (λ _. self.new ≡ put self.old (end, (start, value)))
            (λ _. self.new ≡ self.old) }
    {
        let place = self.place_from(end);
        if self.ends_at(place, end) {
            self.entries[place] = (end, (start, value));
            Ok(())
        } else {
            Ok(self.entries.insert(place, (end, (start, value)))?)
        }
    }

    /// Forgets all ranges.
    pub fn clear(&mut self)
        ensures { self.new ≡ [] }
    {
        self.entries.clear();
    }
}

impl<V> SlotRangeMap<V> {
    /// The value of a slot: that of the range with the least end not below the slot, if that
    /// range does not begin above the slot. It takes no memory.
    pub fn get(&self, slot: u16) -> Option<&V>
        ensures { option_copied result ≡ value_at slot self.now }
    {
        let (_, (start, value)) = self.entry_from(slot)?;
        if *start <= slot { Some(value) } else { None }
    }

    /// The ranges as `(start, end, value)`, by ascending ends.
    pub fn iter(&self) -> SlotRanges<'_, V>
        ensures ranges { result ≡ self.now }
        ensures ascending { IsAscending self.now }
    {
        SlotRanges {
            left: self.entries.iter(),
        }
    }

    /// The values, by ascending ends of their ranges.
    pub fn values(&self) -> SlotRangeValues<'_, V>
        ensures values { result ≡ map (λ e. e.1.1) self.now }
        ensures ascending { IsAscending self.now }
    {
        SlotRangeValues {
            left: self.entries.iter(),
        }
    }

    /// How many ranges there are.
    pub(crate) fn len(&self) -> usize {
        self.entries.len()
    }

    /// The ranges by ascending ends, each as its end, its start and its value.
    pub(crate) fn entries(&self) -> &[(u16, (u16, V))]
        ensures { result.now ≡ self.now }
    {
        &self.entries
    }

    fn entry_from(&self, slot: u16) -> Option<&(u16, (u16, V))>
        ensures { option_copied result ≡ first_from slot self.now }
    {
        self.entries.get(self.place_from(slot))
    }

    fn ends_at(&self, place: usize, slot: u16) -> bool
        ensures { result ≡ ends_at slot (slice_get self.now place) }
    {
        match self.entries.get(place) {
            None => false,
            Some(entry) => entry.0 == slot,
        }
    }

    /// The place of the first entry whose end is not below the slot, behind the last where there is
    /// none. It is found by one look where all ends are below the slot, and else by halving.
    fn place_from(&self, slot: u16) -> usize
        ensures { result ≡ place_from slot self.now }
    {
        match self.entries.last() {
            None => 0,
            Some(last) if last.0 < slot => self.entries.len(),
            Some(_) => self.entries.partition_point(|entry| entry.0 < slot),
        }
    }
}

/// Ranges as `(start, end, value)`, by ascending ends.
#[derive(Drop)]
pub struct SlotRanges<'a, V> {
    left: Iter<'a, (u16, (u16, V))>,
}

impl<'a, V> Model for SlotRanges<'a, V> {
    ghost use Rattle.std.specs.Prelude.{List, ℕ};
    ghost use Rattle.std.specs.Slice.Iter.{iter_rest};

    ghost Value = { List (ℕ × (ℕ × V)) };

    ghost view = { λ e. iter_rest e.left };
}

impl<'a, V> Iterator for SlotRanges<'a, V> {
    type Item = (u16, u16, &'a V);

    ghost use Rattle.std.specs.Iterator.{item_count, YieldsFirstBy};

    ghost next_gives = { YieldsFirstBy (λ x. (x.1, (x.0, x.2.now))) (λ s. s) };

    ghost remaining = { item_count (λ s. s) };

    fn next(&mut self) -> Option<(u16, u16, &'a V)> {
        let (end, (start, value)) = self.left.next()?;
        Some((*start, *end, value))
    }
}

/// The values of ranges, by ascending ends.
#[derive(Drop)]
pub struct SlotRangeValues<'a, V> {
    left: Iter<'a, (u16, (u16, V))>,
}

impl<'a, V> Model for SlotRangeValues<'a, V> {
    ghost use Rattle.std.specs.Prelude.{List, map};
    ghost use Rattle.std.specs.Slice.Iter.{iter_rest};

    ghost Value = { List V };

    ghost view = { λ e. map (λ x. x.1.1) (iter_rest e.left) };
}

impl<'a, V> Iterator for SlotRangeValues<'a, V> {
    type Item = &'a V;

    ghost use Rattle.std.specs.Iterator.{item_count, YieldsFirstRef};

    ghost next_gives = { YieldsFirstRef (λ s. s) };

    ghost remaining = { item_count (λ s. s) };

    fn next(&mut self) -> Option<&'a V> {
        let (_, (_, value)) = self.left.next()?;
        Some(value)
    }
}
