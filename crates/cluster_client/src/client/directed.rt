//! Commands whose direction is known.
ghost use Rattle.std.specs.Prelude.{◌≡◌, ◌≢◌, [], Err, None, IfOk, IfSome};
ghost use Rattle.resp_core.specs.Errors.{by_cause};
ghost use Rattle.resp_core.specs.declared.errors.redis_error.Cause.TheVariants.{Memory};
ghost use Rattle.cluster_routing.specs.Choice.{strategy_of};
ghost use Rattle.cluster_routing.specs.Directions.{direction as direction_of, shown_direction};
ghost use Rattle.cluster_calls.specs.Calls.Call.{Query, Transaction};
ghost use Rattle.cluster_calls.specs.Links.Converted.{ValueMade};
ghost use Rattle.cluster_calls.specs.Links.Happened.{Happened, LacksLate};
ghost use Rattle.cluster_client.specs.InParts.{AreDirected, IsDirected};
ghost use Rattle.cluster_client.specs.Whole.{whole};

use super::ClusterClient;
use crate::command_call::CommandCall;
use crate::pipeline::Directed;
use crate::value::value_in;
use cluster_routing::{Direction, ReadRoutingStrategy};
use resp_args::{Cmd, FromRedisValue};
use resp_core::RedisError;
use resp_link::ConnectionLike;
use std::alloc::{AllocError, Global};

/// Where a command goes by no names that only read: as is known, or by a look into the routing table.
pub(crate) fn direction_by(
    alloc: Global,
    command: &Cmd,
    known: Option<&Direction>,
) -> Result<Direction, AllocError>
    requires { IfSome known (λ d. shown_direction d.now ≡ direction_of command.now.args []) }
    ensures { IfOk result (λ d. shown_direction d ≡ direction_of command.now.args []) }
{
    match known {
        Some(direction) => direction.clone(),
        None => Direction::for_routable(alloc, command, &[]),
    }
}

impl<L: ConnectionLike + Drop> ClusterClient<L> {
    /// What `query` does and answers, of a command that is lent with its direction. It is not looked up in the
    /// routing table, unless `new` was given names of commands that may be answered by replicas.
    ///
    /// # Errors
    /// Those of `query`.
    pub fn query_directed<T: FromRedisValue>(
        &mut self,
        alloc: Global,
        directed: &Directed<'_>,
        number: u64,
        strategy: Option<&dyn ReadRoutingStrategy>,
    ) -> Result<T, RedisError>
        requires { IsDirected directed.now }
        // What happened, also where memory is refused.
        ensures happened { Happened (strategy_of admits strategy.entry) (whole L.seen self.old)
            (whole L.seen self.new) (Query directed.now.command.now number) }
        ensures answered { ValueMade (strategy_of admits strategy.entry) (whole L.seen self.old)
            (whole L.seen self.new) (Query directed.now.command.now number) T.meaning T.convert result }
        ensures room { result ≡ Err (by_cause Memory) → (whole L.seen self.new).log ≢ []
            → LacksLate (strategy_of admits strategy.entry) (whole L.seen self.old)
            (whole L.seen self.new) (Query directed.now.command.now number) }
        ensures unpicked { result ≡ Err (by_cause Memory) → (whole L.seen self.new).log ≡ []
            → (whole L.seen self.new).picked ≡ [] }
    {
        let call = CommandCall {
            command: directed.command,
            direction: Some(directed.direction),
            order: None,
            number,
        };
        self.value_of(alloc, &call, strategy)
    }

    /// What `transaction` does and answers, of commands whose directions are known: one for each, in their
    /// order. None is looked up in the routing table.
    ///
    /// # Errors
    /// Those of `transaction`.
    pub fn transaction_directed<T: FromRedisValue>(
        &mut self,
        alloc: Global,
        commands: &[Cmd],
        directions: &[Direction],
    ) -> Result<T, RedisError>
        requires { AreDirected commands.now directions.now }
        // What happened, also where memory is refused.
        ensures happened { Happened None (whole L.seen self.old) (whole L.seen self.new)
            (Transaction commands.now) }
        ensures answered { ValueMade None (whole L.seen self.old) (whole L.seen self.new)
            (Transaction commands.now) T.meaning T.convert result }
        ensures room { result ≡ Err (by_cause Memory) → (whole L.seen self.new).log ≢ []
            → LacksLate None (whole L.seen self.old) (whole L.seen self.new)
            (Transaction commands.now) }
        ensures picks { (whole L.seen self.new).picked ≡ [] }
    {
        let reply = self.reply_to_transaction(alloc, commands, Some(directions));
        value_in(alloc, reply)
    }
}
