//! Laws of equality of this crate's types. Each is the contract of a call that makes the one call that
//! it speaks of.
ghost use Rattle.std.specs.Prelude.{◌≡◌, ◌↔◌, true};
ghost use Rattle.stream_commands.specs.RecordViews.{entry_view};
ghost use Rattle.stream_commands.specs.SameEntries.{same_entry};

use crate::config::ConfigRangeError;
use crate::nack::StreamNackMode;
use crate::records::{StreamId, XAckDelStatusCode, XDelExStatusCode};
use crate::trim::StreamMaxlen;

/// Two entries are equal where ids, times and fields are, these in the same order.
pub fn equality_of_entries(a: &StreamId, b: &StreamId) -> bool
    ensures { result ≡ same_entry a.now b.now }
{
    a == b
}

/// Two entries are equal exactly where they show the same entry: ids, times and fields, and of each
/// field the tree of its value.
pub fn equality_of_shown_entries(a: &StreamId, b: &StreamId) -> bool
    ensures { result ≡ true ↔ entry_view a.now ≡ entry_view b.now }
{
    a == b
}

/// Two codes of XDELEX are equal where they are the same.
pub fn equality_of_deletions(a: &XDelExStatusCode, b: &XDelExStatusCode) -> bool
    ensures { result ≡ true ↔ a.now ≡ b.now }
{
    a == b
}

/// Two codes of XACKDEL are equal where they are the same.
pub fn equality_of_acknowledgements(a: &XAckDelStatusCode, b: &XAckDelStatusCode) -> bool
    ensures { result ≡ true ↔ a.now ≡ b.now }
{
    a == b
}

/// Two clauses `MAXLEN` are equal where symbol and number are.
pub fn equality_of_lengths(a: &StreamMaxlen, b: &StreamMaxlen) -> bool
    ensures { result ≡ true ↔ a.now ≡ b.now }
{
    a == b
}

/// Two modes of XNACK are equal where they are the same.
pub fn equality_of_modes(a: &StreamNackMode, b: &StreamNackMode) -> bool
    ensures { result ≡ true ↔ a.now ≡ b.now }
{
    a == b
}

/// Two refusals of a number are equal where setting and number are.
pub fn equality_of_range_errors(a: &ConfigRangeError, b: &ConfigRangeError) -> bool
    ensures { result ≡ true ↔ a.now ≡ b.now }
{
    a == b
}
