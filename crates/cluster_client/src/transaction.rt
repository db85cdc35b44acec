//! Transactions are sent: MULTI, the commands and EXEC in one write, and all of it again behind a redirect.
mod slot;

ghost use Rattle.std.specs.Prelude.{◌≡◌, ◌≢◌, ◌<◌, ◌≤◌, ◌+◌, [], Err, None, vec_capacity, vec_len, IfOk, IfSome};
ghost use Rattle.resp_core.specs.Errors.{by_cause};
ghost use Rattle.resp_core.specs.Trees.{array, no_trees};
ghost use Rattle.resp_core.specs.View.{view};
ghost use Rattle.resp_core.specs.declared.errors.redis_error.Cause.TheVariants.{Memory};
ghost use Rattle.cluster_calls.specs.Calls.Call.{Transaction};
ghost use Rattle.cluster_calls.specs.Calls.OneSlot.{args_of};
ghost use Rattle.cluster_calls.specs.Links.AttemptRuns.{AttemptsMade};
ghost use Rattle.cluster_calls.specs.Calls.Plan.{plan};
ghost use Rattle.cluster_calls.specs.Links.Converted.{ReplyMade, ValueMade};
ghost use Rattle.cluster_calls.specs.Links.Happened.{Happened, LacksLate, client_of};
ghost use Rattle.cluster_calls.specs.Links.Request.{skipped};
ghost use Rattle.cluster_calls.specs.Links.Run.{with_log};
ghost use Rattle.cluster_calls.specs.Links.World.{nodes, tree_result, tree_results};
ghost use Rattle.cluster_steps.specs.Attempts.{AttemptExchanged, IsFirstAttempt, IsPlacedAttempt, attempt_plan};
ghost use Rattle.cluster_steps.specs.Turns.{hop_to};
ghost use Rattle.cluster_client.specs.InParts.{AreDirected};
ghost use Rattle.cluster_client.specs.Whole.{whole};

use crate::client::{ClusterClient, begin};
use crate::pipeline::reply::refresh_needed_by;
use crate::transaction::slot::common_slot;
use crate::value::value_in;
use cluster_routing::{Direction, Route, SlotAddr};
use cluster_steps::attempt::{Attempt, exchange_attempt, make_attempt_ready};
use cluster_steps::attempt_turn::attempt_turn;
use cluster_steps::hop::first_hop;
use cluster_steps::picker::Picker;
use cluster_steps::route::Target;
use cluster_steps::turn::Turn;
use resp_args::{Cmd, FromRedisValue};
use resp_core::{RedisError, Value};
use resp_link::ConnectionLike;
use std::alloc::Global;

/// The answer where there are no commands.
fn no_replies(alloc: Global) -> Value
    ensures { view result ≡ array no_trees }
{
    Value::Array(Vec::new(alloc))
}

impl<L: ConnectionLike + Drop> ClusterClient<L> {
    /// What is done for a transaction before its first byte: its first attempt, and room for it in the log;
    /// none where there are no commands.
    fn first_attempt(
        &mut self,
        alloc: Global,
        commands: &[Cmd],
        directions: Option<&[Direction]>,
    ) -> Result<Option<Attempt>, RedisError>
        requires { IfSome directions (λ all. AreDirected commands.now all.now) }
        ensures stays { whole L.seen self.new ≡ with_log (whole L.seen self.old) [] [] }
        ensures planned { result ≢ Err (by_cause Memory)
            → plan (client_of (whole L.seen self.old)) [] (Transaction commands.now)
            ≡ attempt_plan commands.now result }
        ensures attempt { IfOk result
            (λ o. IsFirstAttempt (nodes L.seen self.new.links.nodes.items) commands.now o) }
        ensures room { IfOk result
            (λ o. IfSome o (λ a. vec_len self.new.asked + vec_len a.requests ≤ vec_capacity self.new.asked)) }
    {
        begin(alloc, &mut self.asked, &mut self.picked);
        let Some(slot) = common_slot(alloc, commands, directions)? else {
            return Ok(None);
        };
        let target = Target::Slot(Route::new(slot, SlotAddr::Master));
        let mut picker = Picker {
            strategy: None,
            picked: Vec::new(alloc),
        };
        let hop = first_hop(alloc, &self.links, &mut self.slots, &target, &mut picker)?;
        let attempt = make_attempt_ready(alloc, &mut self.asked, hop, commands)?;
        Ok(Some(attempt))
    }

    /// The replies to one attempt, for which the log has room.
    fn exchange_attempt(
        &mut self,
        alloc: Global,
        attempt: Attempt,
    ) -> Result<Vec<Value>, RedisError>
        requires within { attempt.hop.link < vec_len self.old.links.nodes }
        requires room { vec_len self.old.asked + vec_len attempt.requests ≤ vec_capacity self.old.asked }
        ensures len { vec_len self.new.links.nodes ≡ vec_len self.old.links.nodes }
        ensures exchanged { AttemptExchanged (whole L.seen self.old) (whole L.seen self.new)
            attempt.hop.link attempt.requests.items (skipped attempt.hop.asking)
            (tree_results view result) }
    {
        let replies = exchange_attempt(alloc, &mut self.links, &mut self.asked, attempt);
        self.needs_refresh = refresh_needed_by(self.needs_refresh, &replies);
        replies
    }

    /// The reply to a transaction, from this attempt on. The log has room for it.
    fn follow_attempts(
        &mut self,
        alloc: Global,
        commands: &[Cmd],
        first: Attempt,
    ) -> Result<Value, RedisError>
        requires placed { IsPlacedAttempt (nodes L.seen self.old.links.nodes.items) commands.now first }
        requires room { vec_len self.old.asked + vec_len first.requests ≤ vec_capacity self.old.asked }
        ensures { AttemptsMade (whole L.seen self.old) (whole L.seen self.new) (hop_to first.hop)
            (args_of commands.now) (tree_result view result) }
    {
        let mut attempt = first;
        let mut redirects = self.budget;
        'attempts: loop {
            let replies = self.exchange_attempt(alloc, attempt)?;
            match attempt_turn(alloc, &self.links, redirects, replies)? {
                Turn::Answered(value) => return Ok(value),
                Turn::On(hop) => {
                    redirects -= 1;
                    attempt = make_attempt_ready(alloc, &mut self.asked, hop, commands)?;
                }
            }
        }
    }

    /// The one reply to a transaction of commands whose directions may be known.
    pub(crate) fn reply_to_transaction(
        &mut self,
        alloc: Global,
        commands: &[Cmd],
        directions: Option<&[Direction]>,
    ) -> Result<Value, RedisError>
        requires { IfSome directions (λ all. AreDirected commands.now all.now) }
        ensures made { ReplyMade None (whole L.seen self.old) (whole L.seen self.new)
            (Transaction commands.now) (tree_result view result) }
        ensures picks { (whole L.seen self.new).picked ≡ [] }
    {
        match self.first_attempt(alloc, commands, directions)? {
            Some(attempt) => self.follow_attempts(alloc, commands, attempt),
            None => Ok(no_replies(alloc)),
        }
    }

    /// Sends the commands as one transaction, `MULTI`, the commands and `EXEC` in one write, to the primary
    /// of their slot, and answers what `EXEC` replied as a `T`: the array of the commands' replies. An error
    /// inside it is of a single command; the others were done all the same.
    ///
    /// All commands go whole to one slot, as in a pipeline, and their link is found before the first byte.
    ///
    /// The transaction is sent again, whole, only where nothing of it was done, which is where `MULTI` was
    /// answered OK and `EXEC` by an error or nil: where one of the replies is itself MOVED or ASK, to the
    /// node that it names, within the budget. Of several that of `EXEC` counts, else the first. Behind ASK
    /// it goes out with one `ASKING` before `MULTI`, in the same write. The map stays (`needs_refresh`).
    ///
    /// It costs one round trip, and one more for each redirect that is followed. Without commands nothing is
    /// sent, and the array is empty. It watches no keys: what is read for a transaction may have changed
    /// when it is done.
    ///
    /// # Errors
    /// In the order of the checks: the position (`RedisError::position`) of the first command that waits for
    /// no response, does not go whole to one slot, goes to another slot than the first, or has no place in a
    /// transaction, by its name: `MULTI`, `EXEC`, `DISCARD`, `WATCH`, `BLPOP`, `BRPOP`, `BLMOVE`, `BLMPOP`,
    /// `BRPOPLPUSH`, `BZPOPMIN`, `BZPOPMAX`, `BZMPOP`, and `XREAD` and `XREADGROUP` with a `BLOCK` before
    /// `STREAMS`; then `NoNode` where no node serves the slot and `NoLink` where no usable link leads to it.
    /// Until then nothing is sent.
    ///
    /// Behind the first byte: `NoLink` where none leads to the node that a redirect names, and nothing was
    /// done; the first reply that is itself an error, a redirect out of budget or without a readable node
    /// among them: that to `MULTI`, then those to the commands, then that to `EXEC`. Nothing was done then
    /// where `MULTI` was answered OK and `EXEC` by an error or nil; else, as where `MULTI` was refused, the
    /// commands may have been done, each by itself. `Io` and `Parse` where the link failed, which is closed
    /// then: the transaction may have been done. `UnexpectedReturnType` where no reply is itself an error,
    /// and that to `EXEC` is neither an array nor, behind an OK to `MULTI`, nil: it may have been done; or
    /// where what `EXEC` replied is no `T`: if that is an array, it was done. `Memory`: what the first
    /// attempt takes is there before the first byte; behind it memory can lack in a link call, for an
    /// attempt that a redirect sends on, and for the answer, so the transaction may have been done.
    ///
    /// Source: the Redis documentation, "Transactions"; the Redis Cluster specification, "MOVED redirection"
    /// and "ASK redirection".
    pub fn transaction<T: FromRedisValue>(
        &mut self,
        alloc: Global,
        commands: &[Cmd],
    ) -> Result<T, RedisError>
        // What happened, also where memory is refused.
        ensures happened { Happened None (whole L.seen self.old) (whole L.seen self.new)
            (Transaction commands.now) }
        ensures answered { ValueMade None (whole L.seen self.old) (whole L.seen self.new)
            (Transaction commands.now) T.meaning T.convert result }
        ensures room { result ≡ Err (by_cause Memory) → (whole L.seen self.new).log ≢ []
            → LacksLate None (whole L.seen self.old) (whole L.seen self.new)
            (Transaction commands.now) }
        ensures picks { (whole L.seen self.new).picked ≡ [] }
    {
        let reply = self.reply_to_transaction(alloc, commands, None);
        value_in(alloc, reply)
    }
}
