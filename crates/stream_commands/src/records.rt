//! What replies of stream commands are read as.
//!
//! Each record is read from a reply by the implementation of `FromRedisValue`, which refuses a
//! reply of another shape as an unexpected type.
ghost use Rattle.std.specs.Prelude.{◌≡◌, ◌∷◌, [], MatchResult};
ghost use Rattle.resp_core.specs.Errors.{no_memory};

mod autoclaim;
mod consumers;
mod entries;
mod fields;
mod forms;
mod groups;
mod named;
mod pending;
mod pending_count;
mod range;
mod read;
mod same_entry;
mod status;
mod stream_info;
mod under_name;

pub use autoclaim::StreamAutoClaimReply;
pub use consumers::{StreamInfoConsumer, StreamInfoConsumersReply};
pub use entries::StreamId;
pub use groups::{StreamInfoGroup, StreamInfoGroupsReply};
pub use pending::{StreamPendingData, StreamPendingReply};
pub use pending_count::{StreamPendingCountReply, StreamPendingId};
pub use range::{StreamClaimReply, StreamRangeReply};
pub use read::{StreamKey, StreamReadReply};
use resp_core::ParsingError;
pub use status::{XAckDelStatusCode, XDelExStatusCode};
use std::alloc::Global;
pub use stream_info::{StreamInfoStreamReply, StreamInfoStreamReplyWithIdempotency};

/// A list of one.
fn one<T: Drop>(alloc: Global, value: T) -> Result<Vec<T>, ParsingError>
    ensures { MatchResult result (λ v. v.items ≡ value ∷ []) (λ e. e ≡ no_memory) }
{
    let mut list = Vec::with_capacity(alloc, 1)?;
    list.push(value)?;
    Ok(list)
}
