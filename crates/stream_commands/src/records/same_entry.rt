//! When two entries are equal.
ghost use Rattle.stream_commands.specs.SameEntries.{same_entry, same_entry_laws};

use crate::records::entries::StreamId;

/// Equal ids, equal times, and equal fields in the same order.
impl PartialEq for StreamId {
    ghost eq = { same_entry };

    ghost laws = { same_entry_laws };

    fn eq(&self, other: &StreamId) -> bool {
        self.id == other.id
            && self.map.as_slice() == other.map.as_slice()
            && self.milliseconds_elapsed_from_delivery == other.milliseconds_elapsed_from_delivery
            && self.delivered_count == other.delivered_count
    }
}
