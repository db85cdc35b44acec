//! Commands to one node that the caller names.
ghost use Rattle.std.specs.Prelude.{◌≡◌, ◌≢◌, [], Err, None};
ghost use Rattle.resp_core.specs.Errors.{by_cause};
ghost use Rattle.resp_core.specs.View.{view};
ghost use Rattle.resp_core.specs.declared.errors.redis_error.Cause.TheVariants.{Memory};
ghost use Rattle.cluster_routing.specs.Seen.{address};
ghost use Rattle.cluster_calls.specs.Calls.Call.{At};
ghost use Rattle.cluster_calls.specs.Links.Converted.{ReplyMade, ValueMade};
ghost use Rattle.cluster_calls.specs.Links.Happened.{Happened, LacksLate};
ghost use Rattle.cluster_calls.specs.Links.World.{tree_result};
ghost use Rattle.cluster_client.specs.Whole.{whole};

use super::{ClusterClient, begin};
use crate::fan_out::{dispatch_to, needs_refresh_by, outcome_in};
use crate::value::value_in;
use cluster_routing::NodeAddress;
use cluster_steps::exchange::exchange_one;
use cluster_steps::ready::make_ready;
use resp_args::{Cmd, FromRedisValue};
use resp_core::{Cause, RedisError, Value};
use resp_link::ConnectionLike;
use std::alloc::Global;

impl<L: ConnectionLike + Drop> ClusterClient<L> {
    /// Sends a command to one node, as it is, and answers the reply as a `T`.
    ///
    /// It is for commands that concern one node, as `SCAN`, `INFO`, `CONFIG` and `CLIENT`. No slot is
    /// looked for: the routing table and the slot map are not asked, a word that is split by its keys
    /// goes out whole, and a cursor is filled in. No redirect is followed: MOVED and ASK are the
    /// server's error, as any other, and after MOVED `needs_refresh` is true. Nothing is sent behind
    /// `ASKING`.
    ///
    /// It costs one round trip.
    ///
    /// # Errors
    /// In the order of the checks: `NoResponse` for a command that waits for none; `NoLink` where no
    /// usable link leads to the node. Until then nothing is sent. Then `Io` and `Parse` where the link
    /// failed, which is closed then; the server's error where the reply is or holds one, a redirect
    /// among them; `UnexpectedReturnType` where the reply is no `T`, which leaves the link in step;
    /// `Memory`. Room in the log and the packed command are there before the first byte: behind it memory
    /// can lack in the link call, and for the answer.
    pub fn query_at<T: FromRedisValue>(
        &mut self,
        alloc: Global,
        node: &NodeAddress,
        cmd: &Cmd,
    ) -> Result<T, RedisError>
        // What happened, also where memory is refused.
        ensures happened { Happened None (whole L.seen self.old) (whole L.seen self.new)
            (At (address node.now) cmd.now) }
        ensures answered { ValueMade None (whole L.seen self.old) (whole L.seen self.new)
            (At (address node.now) cmd.now) T.meaning T.convert result }
        ensures room { result ≡ Err (by_cause Memory) → (whole L.seen self.new).log ≢ []
            → LacksLate None (whole L.seen self.old) (whole L.seen self.new)
            (At (address node.now) cmd.now) }
        ensures picks { (whole L.seen self.new).picked ≡ [] }
    {
        let reply = self.reply_at(alloc, node, cmd);
        value_in(alloc, reply)
    }

    /// The reply to a command that goes to one node.
    pub(crate) fn reply_at(
        &mut self,
        alloc: Global,
        node: &NodeAddress,
        cmd: &Cmd,
    ) -> Result<Value, RedisError>
        ensures made { ReplyMade None (whole L.seen self.old) (whole L.seen self.new)
            (At (address node.now) cmd.now) (tree_result view result) }
        ensures picks { (whole L.seen self.new).picked ≡ [] }
    {
        begin(alloc, &mut self.asked, &mut self.picked);
        if cmd.is_no_response() {
            return Err(RedisError::from(Cause::NoResponse));
        }
        let dispatch = dispatch_to(&self.links, node, cmd)?;
        let request = make_ready(alloc, &mut self.asked, dispatch, 1)?;
        let reply = exchange_one(alloc, &mut self.links, &mut self.asked, request);
        self.needs_refresh = needs_refresh_by(self.needs_refresh, &reply);
        outcome_in(reply)?
    }
}
