//! A pipeline that tells of each of its positions.
ghost use Rattle.std.specs.Prelude.{◌≡◌, ◌<◌, ◌≤◌, ◌+◌, List, [], Option, map, nat_eq, vec_capacity, vec_len};
ghost use Rattle.std.specs.List.{AllByRecursion};
ghost use Rattle.std.specs.VecDeque.{deque_items};
ghost use Rattle.cluster_routing.specs.Choice.{Strategy};
ghost use Rattle.cluster_routing.specs.Lists.{IsDistinct};
ghost use Rattle.cluster_calls.specs.Calls.Call.{Entry, Pipeline};
ghost use Rattle.cluster_calls.specs.Calls.Plan.{plan};
ghost use Rattle.cluster_calls.specs.Links.EachMade.{EachMade, WholesMade};
ghost use Rattle.cluster_calls.specs.Links.Happened.{client_of};
ghost use Rattle.cluster_calls.specs.Links.Run.{with_log};
ghost use Rattle.cluster_calls.specs.Links.World.{World, nodes};
ghost use Rattle.cluster_steps.specs.AtOnce.{AllSent};
ghost use Rattle.cluster_steps.specs.Each.{left_or_cause};
ghost use Rattle.cluster_steps.specs.GroupRuns.{IsGroupPlaced};
ghost use Rattle.cluster_steps.specs.Groups.{NodeRequests as RequestGroup, group_of, request_count};
ghost use Rattle.cluster_client.specs.InParts.{AreCut, AreInParts, ArePartsOf, IsDirected, entry_of};
ghost use Rattle.cluster_client.specs.Outcomes.{EachExchanged, ReceivedFrom, outcomes_of};
ghost use Rattle.cluster_client.specs.Whole.{whole};

use crate::client::{ClusterClient, begin};
use crate::pipeline::in_parts::{InParts, commands_in_parts, directed_in_parts};
use crate::pipeline::reply::refresh_needed;
use crate::pipeline::{ClusterPipeline, Directed, PipelineCommand};
use cluster_steps::at_once::{Sent, receive_group, send_group};
use cluster_steps::each::tell_each;
use cluster_steps::grouped::{NumberedGroups, grouped};
use cluster_steps::join::join_each;
use cluster_steps::ready::NodeRequests;
use cluster_steps::route::Part;
use resp_core::{Cause, RedisError, Value};
use resp_link::PipelinedLink;
use std::alloc::Global;
use std::collections::VecDeque;

impl<L: PipelinedLink + Drop> ClusterClient<L> {
    /// Sends each node its requests, one node after another. No reply is taken yet, and no memory.
    fn send_each(&mut self, groups: Vec<NodeRequests>, sent: &mut Vec<Sent>)
        requires placed { AllByRecursion
            (λ g. IsGroupPlaced (nodes L.seen self.old.links.nodes.items) (group_of g)) groups.items }
        requires apart { IsDistinct nat_eq (map (λ g. g.link) (map group_of groups.items)) }
        requires log_room { vec_len self.old.asked
            + request_count (map group_of groups.items) ≤ vec_capacity self.old.asked }
        requires none { vec_len sent.old ≡ 0 }
        requires room { vec_len groups ≤ vec_capacity sent.old }
        ensures sent { AllSent (whole L.seen self.old) (whole L.seen self.new) (map group_of groups.items)
            sent.new.items }
        ensures count { vec_len sent.new ≡ vec_len groups }
        ensures within { AllByRecursion (λ s. s.link < vec_len self.new.links.nodes) sent.new.items }
    {
        'groups: for group in groups {
            sent.push(send_group(&mut self.links, &mut self.asked, group))
                .unwrap();
        }
    }

    /// The replies of one node, as they are told one after another. Only the link call takes memory.
    fn receive_one(&mut self, alloc: Global, sent: Sent) -> Result<VecDeque<Value>, Cause>
        requires within { sent.link < vec_len self.old.links.nodes }
        ensures received { ReceivedFrom (whole L.seen self.old) (whole L.seen self.new) sent
            (left_or_cause deque_items result) }
        ensures len { vec_len self.new.links.nodes ≡ vec_len self.old.links.nodes }
    {
        let replies = receive_group(alloc, &mut self.links, sent)?;
        self.needs_refresh = refresh_needed(self.needs_refresh, &replies);
        Ok(VecDeque::from(replies))
    }

    /// Takes the replies of one node after another, in the order in which they were sent their requests. What
    /// becomes of one changes nothing for the others.
    fn receive_each(
        &mut self,
        alloc: Global,
        sent: Vec<Sent>,
        answers: &mut Vec<Result<VecDeque<Value>, Cause>>,
    )
        requires within { AllByRecursion (λ s. s.link < vec_len self.old.links.nodes) sent.items }
        requires none { vec_len answers.old ≡ 0 }
        requires room { vec_len sent ≤ vec_capacity answers.old }
        ensures exchanged { (start : World) (groups : List RequestGroup)
            → AllSent start (whole L.seen self.old) groups sent.items → EachExchanged start
            (whole L.seen self.new) groups (map (left_or_cause deque_items) answers.new.items) }
        ensures len { vec_len answers.new ≡ vec_len sent }
    {
        'groups: for group in sent {
            answers.push(self.receive_one(alloc, group)).unwrap();
        }
    }

    /// The outcome of each part of a pipeline's commands, which all go whole.
    fn outcomes_of_parts(
        &mut self,
        alloc: Global,
        parts: Vec<Part>,
    ) -> Result<Vec<Result<Value, RedisError>>, RedisError>
        ensures { (strategy : Option Strategy) (entries : List Entry) → ArePartsOf parts.items entries
            → WholesMade strategy (whole L.seen self.old) (whole L.seen self.new) entries
            (plan (client_of (whole L.seen self.old)) [] (Pipeline entries))
            (λ each outcomes. outcomes ≡ each) (outcomes_of result) }
    {
        let dispatches = self.dispatches_of_parts(alloc, parts)?;
        let count = self.links.len();
        let NumberedGroups { groups, numbers } = grouped(alloc, count, dispatches)?;
        let mut sent = Vec::with_capacity(alloc, groups.len())?;
        let mut answers = Vec::with_capacity(alloc, groups.len())?;
        let mut outcomes = Vec::with_capacity(alloc, numbers.len())?;
        self.send_each(groups, &mut sent);
        self.receive_each(alloc, sent, &mut answers);
        tell_each(answers, &numbers, &mut outcomes);
        Ok(outcomes)
    }

    /// The outcome of each of a pipeline's positions, of which these are the parts. Nothing is in the log yet.
    fn outcomes_in_parts(
        &mut self,
        alloc: Global,
        all: InParts,
    ) -> Result<Vec<Result<Value, RedisError>>, RedisError>
        requires emptied { whole L.seen self.old ≡ with_log (whole L.seen self.old) [] [] }
        requires parts { (entries : List Entry) × AreInParts entries all }
        ensures { (strategy : Option Strategy) (entries : List Entry) → AreInParts entries all
            → EachMade strategy (whole L.seen self.old) (whole L.seen self.new) entries (outcomes_of result) }
    {
        let InParts { parts, joins } = all;
        let mut outcomes = Vec::with_capacity(alloc, joins.len())?;
        let told = self.outcomes_of_parts(alloc, parts)?;
        if joins.is_empty() {
            return Ok(told);
        }
        join_each(alloc, joins, told, &mut outcomes);
        Ok(outcomes)
    }

    /// The same of a pipeline that was cut into its parts, or the refusal of its first command that has none.
    fn outcomes_if_cut(
        &mut self,
        alloc: Global,
        all: Result<InParts, RedisError>,
    ) -> Result<Vec<Result<Value, RedisError>>, RedisError>
        requires { (entries : List Entry) × AreCut entries all }
        ensures { (strategy : Option Strategy) (entries : List Entry) → AreCut entries all
            → EachMade strategy (whole L.seen self.old) (whole L.seen self.new) entries (outcomes_of result) }
    {
        begin(alloc, &mut self.asked, &mut self.picked);
        self.outcomes_in_parts(alloc, all?)
    }

    /// The outcome of each of a pipeline's positions, of which some may be split commands of several slots.
    fn outcomes_of_pipeline(
        &mut self,
        alloc: Global,
        commands: &[PipelineCommand],
    ) -> Result<Vec<Result<Value, RedisError>>, RedisError>
        ensures { (strategy : Option Strategy)
            → EachMade strategy (whole L.seen self.old) (whole L.seen self.new) commands.now
            (outcomes_of result) }
    {
        let all = commands_in_parts(alloc, commands);
        self.outcomes_if_cut(alloc, all)
    }

    /// What `ClusterPipeline::query_each` does and tells, of commands that are lent with their directions: none
    /// is copied as a whole, and none is looked up.
    ///
    /// # Errors
    /// Those of `query_each`.
    pub fn query_each_directed(
        &mut self,
        alloc: Global,
        commands: &[Directed<'_>],
    ) -> Result<Vec<Result<Value, RedisError>>, RedisError>
        requires { AllByRecursion IsDirected commands.now }
        // No strategy is asked: it holds for each.
        ensures { (strategy : Option Strategy)
            → EachMade strategy (whole L.seen self.old) (whole L.seen self.new) (map entry_of commands.now)
            (outcomes_of result) }
    {
        let all = directed_in_parts(alloc, commands);
        self.outcomes_if_cut(alloc, all)
    }
}

impl ClusterPipeline {
    /// Sends the commands as `query` does, and tells of each of them by itself: its value, or why there is
    /// none. The outcomes stand in the order of the commands, one for each, ignored or not.
    ///
    /// A split command (MGET, MSET, DEL and their like) may have keys of several slots here: it goes out as
    /// its parts, each to the primary of its slot, in the writes of the others, and its value is made of
    /// theirs.
    ///
    /// A value may hold an error deeper inside (`Value::first_error`), and is handed out whole. What is
    /// known of a command without a value stands in its `RedisError`:
    ///
    /// - a server's error (number 13, `code`): its node answered it. By MOVED or ASK the node sent it on,
    ///   and it was not done: no redirect is followed, and `needs_refresh` tells of a MOVED;
    /// - `Io`, `Parse` or `Memory` (14, 15, 17): the link call of its node was refused, and the link is
    ///   closed. The command stands in the log, and may have been done or not. It is so of all commands to
    ///   that node, also of those whose replies had come. What becomes of one node changes nothing for the
    ///   others.
    ///
    /// Of a split command of several slots this holds of all of its parts: it is what became of each of them,
    /// or the first error where all were answered. So a server's error that is no redirect says that a part was
    /// refused, and others may have been done; of a command that went out whole it says that its node refused
    /// it. Which of the two it was its requests show (`asked`): one for each part, or
    /// `SplitParts::for_routable`, which tells the parts of a command before it is sent. Where parts came to
    /// different ends it may be done in part: then its refusal is that of a part's link, or
    /// `UnexpectedReturnType` (16) where no link was refused that it used, which is also told where its parts'
    /// replies make no value. `Memory` may be told of such a command also where that value had no room.
    ///
    /// Each node that is used gets all of its commands in one write, in order of first use, before the first
    /// reply is taken; then the replies are taken in that order. So it waits once, for the node that takes
    /// longest, and an MGET of many slots waits once too, as a pipeline of one command. Where no link fails, the
    /// log, the slot map, `needs_refresh` and the links are those of `query`. All outcomes are
    /// held until the last; room for them is taken before the first byte, and behind it a link call alone
    /// takes memory, and the one value of several parts.
    ///
    /// # Errors
    /// Only where nothing was sent: for the first command that waits for no response, goes neither whole to
    /// one slot nor in parts to several, or is an `XREAD` whose keys have several slots, its position
    /// (`RedisError::position`);
    /// then command by command `NoNode` where no node serves its slot and `NoLink` where no usable link
    /// leads to the node; `Memory`. The client is as it was then, with an empty log.
    pub fn query_each<L: PipelinedLink + Drop>(
        &self,
        alloc: Global,
        client: &mut ClusterClient<L>,
    ) -> Result<Vec<Result<Value, RedisError>>, RedisError>
        // No strategy is asked: it holds for each.
        ensures { (strategy : Option Strategy)
            → EachMade strategy (whole L.seen client.old) (whole L.seen client.new) self.now
            (outcomes_of result) }
    {
        client.outcomes_of_pipeline(alloc, self.commands())
    }
}
