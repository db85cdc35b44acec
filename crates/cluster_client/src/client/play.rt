//! Runs of calls, one after another, each with what it answered and the requests that it made.
ghost use Rattle.std.specs.Prelude.{◌≡◌, Option, is_ok, map};
ghost use Rattle.cluster_routing.specs.Choice.{Strategy, strategy_of};
ghost use Rattle.cluster_routing.specs.Seen.{address};
ghost use Rattle.cluster_calls.specs.Calls.Call.{At, Each, FanOut, Pipeline, Query, Refresh, Transaction};
ghost use Rattle.cluster_calls.specs.Links.Happened.{CallMade};
ghost use Rattle.cluster_calls.specs.Links.Play.{Plays, PlaysOne};
ghost use Rattle.cluster_client.specs.Shown.{answer_result, call_in, shown};
ghost use Rattle.cluster_client.specs.Whole.{whole};

use super::ClusterClient;
use crate::command_call::CommandCall;
use crate::pipeline::ClusterPipeline;
use crate::streams::Claimant;
use cluster_routing::{NodeAddress, ReadRoutingStrategy};
use cluster_steps::asked::Asked;
use resp_args::Cmd;
use resp_core::{RedisError, Value};
use resp_link::PipelinedLink;
use std::alloc::{AllocError, Global};
use stream_commands::{
    StreamAddOptions, StreamAutoClaimOptions, StreamAutoClaimReply, StreamClaimOptions,
    StreamClaimReply, StreamDeletionPolicy, StreamInfoConsumersReply, StreamInfoGroupsReply,
    StreamInfoStreamReply, StreamPendingReply, StreamRangeReply, StreamReadOptions,
    StreamReadReply, StreamTrimOptions, XDelExStatusCode,
};

/// A call of a client, as `play` makes it. Keys, ids, names, fields and values are bytes.
#[derive(Drop)]
pub enum Call {
    /// `ClusterClient::refresh`.
    Refresh(NodeAddress),
    /// `ClusterClient::query`; it answers the reply.
    Query {
        cmd: Cmd,
        number: u64,
    },
    /// `ClusterClient::query_ordered`; it answers the reply.
    Ordered {
        cmd: Cmd,
        order: Vec<usize>,
        number: u64,
    },
    /// `ClusterPipeline::query`; it answers the array of the replies that are not ignored.
    Pipeline(ClusterPipeline),
    /// `ClusterPipeline::query_each`; it answers each position's outcome.
    Each(ClusterPipeline),
    /// `ClusterClient::fan_out`; it answers the one reply that the nodes' replies make.
    FanOut(Cmd),
    /// `ClusterClient::query_at`; it answers the reply.
    At {
        node: NodeAddress,
        cmd: Cmd,
    },
    /// `ClusterClient::transaction`; it answers what EXEC replied, the array of the commands' replies.
    Transaction(Vec<Cmd>),
    /// `ClusterClient::xadd`.
    Xadd {
        key: Vec<u8>,
        options: StreamAddOptions,
        id: Vec<u8>,
        fields: Vec<(Vec<u8>, Vec<u8>)>,
    },
    /// `ClusterClient::xtrim`.
    Xtrim {
        key: Vec<u8>,
        options: StreamTrimOptions,
    },
    /// `ClusterClient::xread`; each stream is a key and an id.
    Xread {
        streams: Vec<(Vec<u8>, Vec<u8>)>,
        options: StreamReadOptions,
    },
    /// `ClusterClient::xrange`.
    Xrange {
        key: Vec<u8>,
        start: Vec<u8>,
        end: Vec<u8>,
    },
    /// `ClusterClient::xclaim`.
    Xclaim {
        claimant: Claimant<Vec<u8>, Vec<u8>, Vec<u8>>,
        ids: Vec<Vec<u8>>,
        options: StreamClaimOptions,
    },
    /// `ClusterClient::xautoclaim`.
    Xautoclaim {
        claimant: Claimant<Vec<u8>, Vec<u8>, Vec<u8>>,
        start: Vec<u8>,
        options: StreamAutoClaimOptions,
    },
    /// `ClusterClient::xpending`.
    Xpending {
        key: Vec<u8>,
        group: Vec<u8>,
    },
    /// `ClusterClient::xinfo_stream`.
    XinfoStream {
        key: Vec<u8>,
    },
    /// `ClusterClient::xinfo_groups`.
    XinfoGroups {
        key: Vec<u8>,
    },
    /// `ClusterClient::xinfo_consumers`.
    XinfoConsumers {
        key: Vec<u8>,
        group: Vec<u8>,
    },
    /// `ClusterClient::xdel_ex`.
    XdelEx {
        key: Vec<u8>,
        ids: Vec<Vec<u8>>,
        policy: StreamDeletionPolicy,
    },
}

/// What a call answers: each as the call of the same name does.
#[derive(Drop)]
pub enum Answer {
    /// The slot map was put in place.
    Refreshed,
    /// The reply, or the one reply that was made of several.
    Value(Value),
    /// The id of the entry that was added; none where there is no stream and none was to be made.
    Added(Option<String>),
    /// How many entries were trimmed.
    Trimmed(usize),
    Read(StreamReadReply),
    Range(StreamRangeReply),
    Claim(StreamClaimReply),
    AutoClaim(StreamAutoClaimReply),
    Pending(StreamPendingReply),
    Stream(StreamInfoStreamReply),
    Groups(StreamInfoGroupsReply),
    Consumers(StreamInfoConsumersReply),
    /// What became of each entry, in the order of the ids.
    Deleted(Vec<XDelExStatusCode>),
    /// Of each command of a pipeline its value, or why there is none, in the order of the commands.
    Each(Vec<Result<Value, RedisError>>),
}

/// A call of a run when it has ended: what it answered, and its requests in order of sending.
#[derive(Drop)]
pub struct Played {
    /// The answer, or why the call was refused.
    pub answer: Result<Answer, RedisError>,
    /// The call's requests, as `ClusterClient::asked` tells them.
    pub asked: Vec<Asked>,
}

impl<L: PipelinedLink + Drop> ClusterClient<L> {
    /// Makes one call, and moves its requests out of the client.
    fn play_one(
        &mut self,
        alloc: Global,
        call: &Call,
        strategy: Option<&dyn ReadRoutingStrategy>,
    ) -> Played
        ensures { PlaysOne (strategy_of admits strategy.entry) (whole L.seen self.old)
            (whole L.seen self.new) (call_in call.now) (shown result) }
    {
        let answer = self.answer_to(alloc, call, strategy);
        let asked = std::mem::replace(&mut self.asked, Vec::new(alloc));
        Played { answer, asked }
    }

    /// What a call answers.
    fn answer_to(
        &mut self,
        alloc: Global,
        call: &Call,
        strategy: Option<&dyn ReadRoutingStrategy>,
    ) -> Result<Answer, RedisError>
        ensures { CallMade (strategy_of admits strategy.entry) (whole L.seen self.old)
            (whole L.seen self.new) (call_in call.now) (answer_result result) }
    {
        match call {
            Call::Refresh(node) => self.answer_to_refresh(alloc, node),
            Call::Query { cmd, number } => self.answer_to_query(alloc, cmd, *number, strategy),
            Call::Ordered { cmd, order, number } => {
                let call = CommandCall {
                    command: cmd,
                    direction: None,
                    order: Some(order),
                    number: *number,
                };
                Ok(Answer::Value(self.reply_to(alloc, &call, strategy)?))
            }
            Call::Pipeline(pipeline) => self.answer_to_pipeline(alloc, pipeline),
            Call::Each(pipeline) => self.answer_to_each(alloc, pipeline),
            Call::FanOut(cmd) => self.answer_to_fan_out(alloc, cmd),
            Call::At { node, cmd } => self.answer_to_at(alloc, node, cmd),
            Call::Transaction(commands) => self.answer_to_transaction(alloc, commands),
            Call::Xadd {
                key,
                options,
                id,
                fields,
            } => Ok(Answer::Added(self.xadd(alloc, key, options, id, fields, strategy)?)),
            Call::Xtrim { key, options } => {
                Ok(Answer::Trimmed(self.xtrim(alloc, key, options, strategy)?))
            }
            Call::Xread { streams, options } => {
                Ok(Answer::Read(self.xread(alloc, streams, options, strategy)?))
            }
            Call::Xrange { key, start, end } => {
                Ok(Answer::Range(self.xrange(alloc, key, start, end, strategy)?))
            }
            Call::Xclaim {
                claimant,
                ids,
                options,
            } => Ok(Answer::Claim(self.xclaim(
                alloc,
                &claimant.key,
                &claimant.group,
                &claimant.consumer,
                claimant.min_idle,
                ids,
                options,
                strategy,
            )?)),
            Call::Xautoclaim {
                claimant,
                start,
                options,
            } => Ok(Answer::AutoClaim(self.xautoclaim(
                alloc,
                &claimant.key,
                &claimant.group,
                &claimant.consumer,
                claimant.min_idle,
                start,
                options,
                strategy,
            )?)),
            Call::Xpending { key, group } => {
                Ok(Answer::Pending(self.xpending(alloc, key, group, strategy)?))
            }
            Call::XinfoStream { key } => Ok(Answer::Stream(self.xinfo_stream(
                alloc, key, strategy,
            )?)),
            Call::XinfoGroups { key } => Ok(Answer::Groups(self.xinfo_groups(
                alloc, key, strategy,
            )?)),
            Call::XinfoConsumers { key, group } => {
                Ok(Answer::Consumers(self.xinfo_consumers(alloc, key, group, strategy)?))
            }
            Call::XdelEx { key, ids, policy } => {
                Ok(Answer::Deleted(self.xdel_ex(alloc, key, ids, same(policy), strategy)?))
            }
        }
    }

    fn answer_to_refresh(&mut self, alloc: Global, node: &NodeAddress) -> Result<Answer, RedisError>
        ensures { (strategy : Option Strategy)
            → CallMade strategy (whole L.seen self.old) (whole L.seen self.new) (Refresh (address node.now))
            (answer_result result) }
    {
        self.refresh(alloc, node)?;
        Ok(Answer::Refreshed)
    }

    fn answer_to_query(
        &mut self,
        alloc: Global,
        cmd: &Cmd,
        number: u64,
        strategy: Option<&dyn ReadRoutingStrategy>,
    ) -> Result<Answer, RedisError>
        ensures { CallMade (strategy_of admits strategy.entry) (whole L.seen self.old)
            (whole L.seen self.new) (Query cmd.now number) (answer_result result) }
    {
        let call = CommandCall {
            command: cmd,
            direction: None,
            order: None,
            number,
        };
        let reply = self.reply_to(alloc, &call, strategy)?;
        Ok(Answer::Value(reply))
    }

    fn answer_to_pipeline(
        &mut self,
        alloc: Global,
        pipeline: &ClusterPipeline,
    ) -> Result<Answer, RedisError>
        ensures { (strategy : Option Strategy)
            → CallMade strategy (whole L.seen self.old) (whole L.seen self.new) (Pipeline pipeline.now)
            (answer_result result) }
    {
        let reply = self.reply_to_pipeline(alloc, pipeline.commands())?;
        Ok(Answer::Value(reply))
    }

    fn answer_to_each(
        &mut self,
        alloc: Global,
        pipeline: &ClusterPipeline,
    ) -> Result<Answer, RedisError>
        ensures { (strategy : Option Strategy)
            → CallMade strategy (whole L.seen self.old) (whole L.seen self.new) (Each pipeline.now)
            (answer_result result) }
    {
        let outcomes = pipeline.query_each(alloc, self)?;
        Ok(Answer::Each(outcomes))
    }

    fn answer_to_fan_out(&mut self, alloc: Global, cmd: &Cmd) -> Result<Answer, RedisError>
        ensures { (strategy : Option Strategy)
            → CallMade strategy (whole L.seen self.old) (whole L.seen self.new) (FanOut cmd.now)
            (answer_result result) }
    {
        let reply = self.fan_out(alloc, cmd)?;
        Ok(Answer::Value(reply))
    }

    fn answer_to_at(
        &mut self,
        alloc: Global,
        node: &NodeAddress,
        cmd: &Cmd,
    ) -> Result<Answer, RedisError>
        ensures { (strategy : Option Strategy)
            → CallMade strategy (whole L.seen self.old) (whole L.seen self.new)
            (At (address node.now) cmd.now) (answer_result result) }
    {
        let reply = self.reply_at(alloc, node, cmd)?;
        Ok(Answer::Value(reply))
    }

    fn answer_to_transaction(
        &mut self,
        alloc: Global,
        commands: &[Cmd],
    ) -> Result<Answer, RedisError>
        ensures { (strategy : Option Strategy)
            → CallMade strategy (whole L.seen self.old) (whole L.seen self.new) (Transaction commands.now)
            (answer_result result) }
    {
        let reply = self.reply_to_transaction(alloc, commands, None)?;
        Ok(Answer::Value(reply))
    }
}

/// The policy once more; it takes no memory.
fn same(policy: &StreamDeletionPolicy) -> StreamDeletionPolicy
    ensures { result ≡ policy.now }
{
    match policy {
        StreamDeletionPolicy::KeepRef => StreamDeletionPolicy::KeepRef,
        StreamDeletionPolicy::DelRef => StreamDeletionPolicy::DelRef,
        StreamDeletionPolicy::Acked => StreamDeletionPolicy::Acked,
    }
}

/// Makes the calls one after another, and puts behind `played` what each answered and asked for.
///
/// A refused call does not end the run: its refusal is its answer, want of memory too. What the
/// calls do together is what they would do one by one: each begins where the one before left the
/// client.
///
/// # Errors
/// `AllocError` where memory is refused for what a call is to show; this is found before the call,
/// which is not made then, and `played` holds those that were.
pub fn play<L: PipelinedLink + Drop>(
    alloc: Global,
    client: &mut ClusterClient<L>,
    calls: &[Call],
    strategy: Option<&dyn ReadRoutingStrategy>,
    played: &mut Vec<Played>,
) -> Result<(), AllocError>
    ensures { Plays (strategy_of admits strategy.entry) (whole L.seen client.old)
        (whole L.seen client.new) (map call_in calls.now)
        (map shown played.old.items) (map shown played.new.items) (is_ok result) }
{
    'calls: for call in calls {
        played.reserve(1)?;
        let one = client.play_one(alloc, call, strategy);
        played.push(one).unwrap();
    }
    Ok(())
}
