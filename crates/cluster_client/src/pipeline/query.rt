//! Pipelines are sent: to each node its commands in one write.
ghost use Rattle.std.specs.Prelude.{◌≡◌, ◌≢◌, ◌<◌, ◌≤◌, ◌+◌, List, [], Err, Option, map, vec_capacity, vec_len, IfOk};
ghost use Rattle.std.specs.List.{AllByRecursion};
ghost use Rattle.resp_core.specs.Errors.{by_cause};
ghost use Rattle.resp_core.specs.View.{view};
ghost use Rattle.resp_core.specs.declared.errors.redis_error.Cause.TheVariants.{Memory};
ghost use Rattle.cluster_routing.specs.Choice.{Strategy};
ghost use Rattle.cluster_calls.specs.Calls.Call.{Entry, Pipeline};
ghost use Rattle.cluster_calls.specs.Links.Converted.{ValueMade, value_answer};
ghost use Rattle.cluster_steps.specs.Dispatches.{IsPlaced, IsPlanned, dispatches_of};
ghost use Rattle.cluster_calls.specs.Links.Happened.{CallMade, Happened, LacksLate, client_of};
ghost use Rattle.cluster_steps.specs.GroupRuns.{GroupExchanged, GroupsMade, IsGroupPlaced, answers_of};
ghost use Rattle.cluster_steps.specs.Groups.{group_of, request_count};
ghost use Rattle.cluster_calls.specs.Links.Run.{with_log};
ghost use Rattle.cluster_client.specs.InParts.{ArePartsOf};
ghost use Rattle.cluster_client.specs.Whole.{whole};
ghost use Rattle.cluster_calls.specs.Links.World.{nodes, tree_result, tree_results};

use crate::client::{ClusterClient, begin};
use crate::pipeline::parts::pipeline_parts;
use crate::pipeline::reply::{refresh_needed_by, reply_of_pipeline};
use crate::pipeline::{ClusterPipeline, PipelineCommand};
use crate::value::value_in;
use cluster_steps::dispatch::{Dispatch, dispatches};
use cluster_steps::drawn::{Answered, drawn};
use cluster_steps::exchange::exchange;
use cluster_steps::grouped::{NumberedGroups, grouped};
use cluster_steps::picker::Picker;
use cluster_steps::ready::NodeRequests;
use cluster_steps::route::Part;
use resp_args::FromRedisValue;
use resp_core::{RedisError, Value};
use resp_link::ConnectionLike;
use std::alloc::Global;
use std::collections::VecDeque;

impl<L: ConnectionLike + Drop> ClusterClient<L> {
    /// Where each part of a pipeline goes, and room for all of them in the log.
    pub(crate) fn dispatches_of_parts(
        &mut self,
        alloc: Global,
        parts: Vec<Part>,
    ) -> Result<Vec<Dispatch>, RedisError>
        ensures stays { whole L.seen self.new ≡ with_log (whole L.seen self.old) [] [] }
        ensures planned { result ≢ Err (by_cause Memory) → (strategy : Option Strategy)
            (entries : List Entry) → ArePartsOf parts.items entries → IsPlanned strategy
            (client_of (whole L.seen self.old)) (Pipeline entries) [] (dispatches_of result) }
        ensures placed { IfOk result
            (λ v. AllByRecursion (IsPlaced (nodes L.seen self.new.links.nodes.items)) v.items) }
        ensures room { IfOk result (λ v. vec_len self.new.asked + vec_len v ≤ vec_capacity self.new.asked) }
    {
        begin(alloc, &mut self.asked, &mut self.picked);
        let mut picker = Picker {
            strategy: None,
            picked: Vec::new(alloc),
        };
        let all = dispatches(alloc, &self.links, &mut self.slots, parts, &mut picker)?;
        self.asked.reserve(all.len())?;
        Ok(all)
    }

    /// The replies to requests that go out over one link in one write. The log has room for them.
    fn exchange_group(
        &mut self,
        alloc: Global,
        group: NodeRequests,
    ) -> Result<Vec<Value>, RedisError>
        requires within { group.link < vec_len self.old.links.nodes }
        requires room { vec_len self.old.asked + vec_len group.requests ≤ vec_capacity self.old.asked }
        ensures len { vec_len self.new.links.nodes ≡ vec_len self.old.links.nodes }
        ensures exchanged { GroupExchanged (whole L.seen self.old)
            (whole L.seen self.new) group.link group.requests.items (tree_results view result) }
        ensures log_len { vec_len self.new.asked ≡ vec_len self.old.asked + vec_len group.requests }
        ensures log_capacity { vec_capacity self.old.asked ≤ vec_capacity self.new.asked }
    {
        let replies = exchange(alloc, &mut self.links, &mut self.asked, group);
        self.needs_refresh = refresh_needed_by(self.needs_refresh, &replies);
        replies
    }

    /// The replies of one node after another, up to the first whose link fails.
    fn exchange_all(
        &mut self,
        alloc: Global,
        groups: Vec<NodeRequests>,
    ) -> Result<Vec<Answered<Value>>, RedisError>
        requires placed { AllByRecursion
            (λ g. IsGroupPlaced (nodes L.seen self.old.links.nodes.items) (group_of g)) groups.items }
        requires room { vec_len self.old.asked
            + request_count (map group_of groups.items) ≤ vec_capacity self.old.asked }
        ensures { GroupsMade (whole L.seen self.old) (whole L.seen self.new) (map group_of groups.items)
            (answers_of view result) }
    {
        let mut answered = Vec::with_capacity(alloc, groups.len())?;
        'groups: for group in groups {
            let link = group.link;
            let replies = self.exchange_group(alloc, group)?;
            let items = VecDeque::from(replies);
            answered.push(Answered { link, items }).unwrap();
        }
        Ok(answered)
    }

    /// The one reply to a pipeline.
    pub(crate) fn reply_to_pipeline(
        &mut self,
        alloc: Global,
        commands: &[PipelineCommand],
    ) -> Result<Value, RedisError>
        ensures { (strategy : Option Strategy)
            → CallMade strategy (whole L.seen self.old) (whole L.seen self.new) (Pipeline commands.now)
            (value_answer (tree_result view result)) }
    {
        begin(alloc, &mut self.asked, &mut self.picked);
        let parts = pipeline_parts(alloc, commands)?;
        let dispatches = self.dispatches_of_parts(alloc, parts)?;
        let NumberedGroups { groups, numbers } = grouped(alloc, self.links.len(), dispatches)?;
        let answered = self.exchange_all(alloc, groups)?;
        let replies = drawn(alloc, &numbers, answered)?;
        reply_of_pipeline(alloc, commands, replies)
    }
}

impl ClusterPipeline {
    /// Sends the commands to the nodes that serve them, and answers the array of their replies as a `T`,
    /// without the replies that are ignored.
    ///
    /// Each command goes whole to the primary of its slot. Before the first byte all commands are
    /// routed, and then their links are found. The nodes are served in the order in which the commands
    /// first use them: each gets all of its commands in one write, in the order of the pipeline, and
    /// then its replies are taken. No redirect is followed, and nothing is sent twice. Without commands
    /// nothing is sent, and the array is empty.
    ///
    /// It costs one round trip for each node that is used, one node after another: the commands of the
    /// next one go out when the replies of this one are there. All replies are held until the last.
    ///
    /// # Errors
    /// In the order of the checks: for the first command that waits for no response, does not go whole
    /// to one slot, or is an `XREAD` whose keys have several slots, its position
    /// (`RedisError::position`); then command by command `NoNode` where no node serves its slot and
    /// `NoLink` where no usable link leads to the node. Until then nothing is sent. The keys of an
    /// `XREAD` are the first half of what stands behind its first `STREAMS`, where that is an even
    /// number of arguments, none of them a gap; of any other the node says what is wrong. `Io` and
    /// `Parse` where a link failed, which is closed then; no later node is served. Where replies hold
    /// errors, also ignored ones, all of these, each the first of its reply, with the positions of their
    /// commands (`RedisError::into_server_errors`). `UnexpectedReturnType` where the array is no `T`;
    /// `Memory`, behind the first byte only in a link call, which serves no further node, or for the
    /// answer.
    ///
    /// Source: the documentation of the crate `redis`, `ClusterPipeline`.
    pub fn query<L: ConnectionLike + Drop, T: FromRedisValue>(
        &self,
        alloc: Global,
        client: &mut ClusterClient<L>,
    ) -> Result<T, RedisError>
        // What happened, also where memory is refused. No strategy is asked: it holds for each.
        ensures happened { (strategy : Option Strategy)
            → Happened strategy (whole L.seen client.old) (whole L.seen client.new) (Pipeline self.now) }
        ensures answered { (strategy : Option Strategy)
            → ValueMade strategy (whole L.seen client.old) (whole L.seen client.new)
            (Pipeline self.now) T.meaning T.convert result }
        ensures room { result ≡ Err (by_cause Memory) → (whole L.seen client.new).log ≢ []
            → (strategy : Option Strategy)
            → LacksLate strategy (whole L.seen client.old) (whole L.seen client.new) (Pipeline self.now) }
        ensures unpicked { result ≡ Err (by_cause Memory) → (whole L.seen client.new).log ≡ []
            → (whole L.seen client.new).picked ≡ [] }
    {
        let reply = client.reply_to_pipeline(alloc, self.commands());
        value_in(alloc, reply)
    }
}
