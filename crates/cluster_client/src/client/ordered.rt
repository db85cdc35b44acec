//! Commands whose parts are sent in an order that the caller gives.
ghost use Rattle.std.specs.Prelude.{◌≡◌, ◌≢◌, [], Err};
ghost use Rattle.resp_core.specs.Errors.{by_cause};
ghost use Rattle.resp_core.specs.declared.errors.redis_error.Cause.TheVariants.{Memory};
ghost use Rattle.cluster_routing.specs.Choice.{strategy_of};
ghost use Rattle.cluster_calls.specs.Calls.Call.{Ordered};
ghost use Rattle.cluster_calls.specs.Links.Converted.{ValueMade};
ghost use Rattle.cluster_calls.specs.Links.Happened.{Happened, LacksLate};
ghost use Rattle.cluster_client.specs.Whole.{whole};

use super::ClusterClient;
use crate::command_call::CommandCall;
use cluster_routing::ReadRoutingStrategy;
use resp_args::{Cmd, FromRedisValue};
use resp_core::RedisError;
use resp_link::ConnectionLike;
use std::alloc::Global;

impl<L: ConnectionLike + Drop> ClusterClient<L> {
    /// Sends a command as `query` does, its parts in the order given, and answers the reply as a `T`.
    ///
    /// The parts of a split command are numbered from 0 in the order in which the slots of its keys
    /// first appear; any other command is one part, number 0. `order` has each of these numbers once.
    /// Nodes are looked for and the strategy is asked in the order of the numbers, as by `query`, before
    /// the first byte. Then the parts are sent in the order given, and the first that is refused ends
    /// the call: those before it in that order were done, and no other.
    ///
    /// The reply is that of `query`: items come back to the places of their keys, whatever the order.
    ///
    /// # Errors
    /// Those of `query`, in the order of its checks, and `BadOrder` where a number of `order` is too
    /// large, missing or there twice: behind `NoResponse`, `CursorInSplit`, `BrokenTuples` and `NoRoute`,
    /// before `NoNode` and `NoLink`. Nothing is sent then.
    pub fn query_ordered<T: FromRedisValue>(
        &mut self,
        alloc: Global,
        cmd: &Cmd,
        order: &[usize],
        number: u64,
        strategy: Option<&dyn ReadRoutingStrategy>,
    ) -> Result<T, RedisError>
        // What happened, also where memory is refused.
        ensures happened { Happened (strategy_of admits strategy.entry) (whole L.seen self.old)
            (whole L.seen self.new) (Ordered cmd.now order.now number) }
        ensures answered { ValueMade (strategy_of admits strategy.entry) (whole L.seen self.old)
            (whole L.seen self.new) (Ordered cmd.now order.now number) T.meaning T.convert result }
        ensures room { result ≡ Err (by_cause Memory) → (whole L.seen self.new).log ≢ []
            → LacksLate (strategy_of admits strategy.entry) (whole L.seen self.old)
            (whole L.seen self.new) (Ordered cmd.now order.now number) }
        ensures unpicked { result ≡ Err (by_cause Memory) → (whole L.seen self.new).log ≡ []
            → (whole L.seen self.new).picked ≡ [] }
    {
        let call = CommandCall {
            command: cmd,
            direction: None,
            order: Some(order),
            number,
        };
        self.value_of(alloc, &call, strategy)
    }
}
