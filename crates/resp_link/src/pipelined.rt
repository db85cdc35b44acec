//! Links whose requests go out by one call, and whose replies are taken by a later one.
ghost use Rattle.resp_link.specs.TwoCalls.{Receives, Sends};

use crate::connection::ConnectionLike;
use resp_core::{RedisError, Value};
use std::alloc::Global;

/// A link whose requests go out by one call, and whose replies are taken by a later one. So requests go out over
/// several links before the first reply of any is waited for.
///
/// Between the two calls the link owes replies. It is not open then: each call of `ConnectionLike`, and another
/// sending, is refused by `Cause::NoLink` and touches nothing. It stays so until the replies are taken; a link
/// whose replies nobody takes is usable for nothing else. Both calls together are one call of
/// `req_packed_commands` that drops no reply (`two_calls_are_one`).
///
/// The names are those of the crate `redis`, of its links to the nodes of a cluster.
pub trait PipelinedLink: ConnectionLike {
    /// Sends the bytes. The link owes their replies then.
    ///
    /// # Errors
    /// `Cause::NoLink` where the link is closed or owes replies: nothing is touched. `Cause::Io` where a write or a
    /// flush was refused, or a write took no byte: a front of the bytes was sent, and the link is closed and owes
    /// nothing.
    fn send_packed_commands(&mut self, bytes: &[u8]) -> Result<(), RedisError>
        ensures { Sends (Self.seen self.old) (Self.seen self.new) bytes.now result };

    /// Takes the `count` replies that are owed, and opens the link again. Pushes among them are set aside. Where
    /// fewer are taken than were asked for, the others are the first of the next call.
    ///
    /// # Errors
    /// `Cause::NoLink` where the link owes nothing, open or closed: nothing is touched. Any other refusal is that of
    /// a call of `ConnectionLike` whose bytes were sent, and closes the link, which owes nothing then: `Cause::Io`
    /// where a read was refused, the bytes ended early, or 2^32 reads gave too little; `Cause::Parse` where the
    /// bytes behind the replies that were taken are faulty; `Cause::Memory` where memory was refused.
    fn recv_responses(&mut self, alloc: Global, count: usize) -> Result<Vec<Value>, RedisError>
        ensures { Receives (Self.seen self.old) (Self.seen self.new) count result };
}
