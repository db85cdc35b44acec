//! What stands between a guest's bytes and its queue.
use proxy_core::Entry;
use resp_requests::Fault;

/// What was read of a guest's bytes and did not come into its queue yet.
#[derive(Drop)]
pub(crate) enum Pending<C, V> {
    Nothing,
    /// The words of a command.
    Words(Vec<Vec<u8>>),
    /// Why the bytes are no request.
    Fault(Fault),
    /// What the words mean, or the answer to a fault.
    Entry(Entry<C, V>),
}
