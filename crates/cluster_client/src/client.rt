//! The client: it refreshes its slot map, and sends commands to the nodes that serve them.
ghost use Rattle.std.specs.List.{AllByRecursion};
ghost use Rattle.std.specs.Prelude.{ℕ, ◌≡◌, ◌≢◌, ◌↔◌, ◌<◌, ◌≤◌, ◌+◌, Err, None, Some, [], true, false, vec_capacity, vec_len, map, IfOk, IfErr, OnOk, not, option_map};
ghost use Rattle.resp_core.specs.Errors.{by_cause};
ghost use Rattle.resp_core.specs.View.{push_view, view};
ghost use Rattle.resp_core.specs.declared.errors.redis_error.Cause.TheVariants.{Memory, RepeatedAddress};
ghost use Rattle.resp_link.specs.Call.{Seen};
ghost use Rattle.cluster_routing.specs.Choice.{strategy_of};
ghost use Rattle.cluster_routing.specs.Directions.{direction as direction_of, shown_direction};
ghost use Rattle.cluster_routing.specs.Info.{shown_split, texts};
ghost use Rattle.cluster_routing.specs.Seen.{address, addresses};
ghost use Rattle.cluster_routing.specs.Split.{has_split_word, parts_by_place};
ghost use Rattle.cluster_routing.specs.Topology.{shards_of};
ghost use Rattle.cluster_calls.specs.Calls.Answer.{Value};
ghost use Rattle.cluster_calls.specs.Calls.Call.{Query, Refresh};
ghost use Rattle.cluster_calls.specs.Links.Chains.{ChainMade};
ghost use Rattle.cluster_calls.specs.Links.Converted.{ReplyMade, ValueMade, refresh_answer};
ghost use Rattle.cluster_calls.specs.Links.Happened.{CallMade, Happened, LacksLate, client_of};
ghost use Rattle.cluster_steps.specs.Dispatches.{IsPlaced, IsPlanned, dispatch_of, dispatches_in, is_whole, prepared_by, set_out_by, split_in};
ghost use Rattle.cluster_calls.specs.Links.Orders.{routes_in_order};
ghost use Rattle.cluster_calls.specs.Links.PartRuns.{PartsMade};
ghost use Rattle.cluster_calls.specs.Links.Places.{IsOpenAt};
ghost use Rattle.cluster_steps.specs.Turns.{hop_to};
ghost use Rattle.cluster_client.specs.CommandCalls.{call_by, call_of, given_order};
ghost use Rattle.cluster_client.specs.Whole.{whole};
ghost use Rattle.cluster_calls.specs.Links.Run.{with_log};
ghost use Rattle.cluster_calls.specs.Links.World.{addresses_of, has_repeats, link_at, new_world, nodes, tree_result, tree_results};

mod at;
pub(crate) mod directed;
mod ordered;
pub(crate) mod play;
mod reading;
mod relink;

use crate::command_call::CommandCall;
use crate::value::value_in;
use cluster_routing::{
    ClusterTopology, Direction, NodeAddress, ReadRoutingStrategy, SlotMap, SplitParts,
};
use cluster_steps::asked::{Asked, sent_again};
use cluster_steps::dispatch::{Dispatch, Outset, Prepared, dispatches};
use cluster_steps::exchange::exchange_one;
use cluster_steps::hop::first_hop;
use cluster_steps::known_links::KnownLinks;
use cluster_steps::node_links::NodeLinks;
use cluster_steps::numbered_map::NumberedMap;
use cluster_steps::order::{fits_order, prepared_in_order};
use cluster_steps::picker::Picker;
use cluster_steps::ready::{Ready, make_all_ready, make_ready};
use cluster_steps::reply::{needs_refresh, reply_of_parts};
use cluster_steps::request::Request;
use cluster_steps::route::{Targets, push_split, targets_of};
use cluster_steps::slots::{slot_map_in, slots_dispatch};
use cluster_steps::turn::{Turn, turn_by};
use resp_args::{Cmd, FromRedisValue};
use resp_core::{Cause, PushInfo, RedisError, Value};
use resp_link::ConnectionLike;
use std::alloc::{AllocError, Global};

/// Empties the log and the picks, as each call does first. It takes no memory.
pub(crate) fn begin(alloc: Global, asked: &mut Vec<Asked>, picked: &mut Vec<NodeAddress>)
    ensures asked { asked.new.items ≡ [] }
    ensures picked { picked.new.items ≡ [] }
{
    *asked = Vec::new(alloc);
    *picked = Vec::new(alloc);
}

/// A client of a Redis Cluster over links that its maker hands in, one for each node.
///
/// It opens no link and closes none; a link that failed is not used again. Calls are made one at a
/// time, and each tells what it sent by `asked`.
#[derive(Drop)]
pub struct ClusterClient<L> {
    pub(crate) links: KnownLinks<L>,
    pub(crate) read_only: Vec<Vec<u8>>,
    pub(crate) budget: u16,
    pub(crate) slots: NumberedMap,
    pub(crate) needs_refresh: bool,
    pub(crate) asked: Vec<Asked>,
    pub(crate) picked: Vec<NodeAddress>,
}

impl<L: ConnectionLike + Drop> ClusterClient<L> {
    /// A client without a slot map, over these links.
    ///
    /// `read_only` are the names of commands that may be answered by replicas, `budget` is how many
    /// redirects one request follows.
    ///
    /// # Errors
    /// `RepeatedAddress` where an address is given twice; the links are dropped.
    pub fn new(
        alloc: Global,
        links: Vec<(NodeAddress, L)>,
        read_only: Vec<Vec<u8>>,
        budget: u16,
    ) -> Result<ClusterClient<L>, RedisError>
        ensures made { IfOk result (λ client. whole L.seen client
            ≡ new_world (nodes L.seen links.items)
            (record { budget = budget; read_only = texts read_only.items })) }
        ensures repeated { (result ≡ Err (by_cause RepeatedAddress))
            ↔ (has_repeats (addresses_of (nodes L.seen links.items)) ≡ true) }
        ensures only { IfErr result (λ e. e ≡ by_cause RepeatedAddress) }
    {
        let Some(links) = KnownLinks::new(alloc, links) else {
            return Err(RedisError::from(Cause::RepeatedAddress));
        };
        Ok(ClusterClient {
            links,
            read_only,
            budget,
            slots: NumberedMap::new(SlotMap::new(alloc)),
            needs_refresh: false,
            asked: Vec::new(alloc),
            picked: Vec::new(alloc),
        })
    }

    /// Asks one node for the slot map, by `CLUSTER SLOTS`, and puts it in place of the old one.
    ///
    /// # Errors
    /// `NoLink` where no usable link leads to the node; the server's error where the reply is or
    /// holds one; `Io` and `Parse` where the link failed, which is closed then; `Memory`. Each
    /// leaves the slot map and `needs_refresh` as they were. No redirect is followed.
    pub fn refresh(&mut self, alloc: Global, node: &NodeAddress) -> Result<(), RedisError>
        ensures made { CallMade None (whole L.seen self.old) (whole L.seen self.new)
            (Refresh (address node.now)) (refresh_answer result) }
        ensures picks { (whole L.seen self.new).picked ≡ [] }
    {
        begin(alloc, &mut self.asked, &mut self.picked);
        let Some(link) = self.links.open_place(node) else {
            return Err(RedisError::from(Cause::NoLink));
        };
        let dispatch = slots_dispatch(alloc, node, link)?;
        let request = make_ready(alloc, &mut self.asked, dispatch, 1)?;
        let reply = exchange_one(alloc, &mut self.links, &mut self.asked, request)?;
        let slots = slot_map_in(alloc, reply, node)?;
        self.slots.renew(slots);
        self.needs_refresh = false;
        self.links.renew_table();
        Ok(())
    }

    /// Sends a command to the nodes that serve it, and answers the reply as a `T`.
    ///
    /// The routing table (`RoutingInfo::for_routable`) tells the key. A command goes to the primary of
    /// its key's slot; one of the names that `new` was given as read-only goes to the node that
    /// `strategy` picks, where there is a strategy and the slot has replicas. A command that any node
    /// may serve goes to node number `number` of all nodes, ascending, modulo their count.
    ///
    /// A command whose word is split by its keys (`MGET`, `MSET`, `DEL` and the like) goes out in
    /// parts, one for each slot of its keys, in the order in which these first appear. The replies
    /// become one: items come back to the places of their keys, numbers are added, and where each
    /// part is to answer OK the reply is OK. One whose keys have one slot is such a part as well.
    ///
    /// All parts are routed and their links are found before the first byte; the strategy is asked
    /// then, for each read part of a slot with replicas, and `picked` tells what it answered. The
    /// parts are sent one after another, and the first that is refused ends the call: those before it
    /// were done.
    ///
    /// A reply that is itself MOVED or ASK is followed, within the budget, to the node that it
    /// names; behind ASK the request goes out with `ASKING` before it, in one write. The budget is
    /// that of each part.
    ///
    /// It costs one round trip for each part, and one more for each redirect that is followed. The map
    /// stays: after a MOVED each later part for that shard pays its own redirect, until a refresh
    /// (`needs_refresh`). A pipeline of the parts costs one round trip for each node.
    ///
    /// # Errors
    /// In the order of the checks: `NoResponse` for a command that waits for none; for a word that is
    /// split `CursorInSplit` where an argument is a gap, and `BrokenTuples` where its last tuple is
    /// broken or it has none; `NoRoute` for any other that goes nowhere or to several nodes by the
    /// table; then part by part `NoNode` where no node serves it and `NoLink` where no usable link
    /// leads to the node. Until then nothing is sent. Then `NoLink` where none leads to the node that
    /// a redirect names; the server's error where a part's last reply is or holds one, a redirect out
    /// of budget or without a readable node among them; `Io` and `Parse` where a link failed, which is
    /// closed then; `UnexpectedReturnType` where the replies have not the shape that becomes one, or
    /// that is no `T`, which leaves the links in step; `Memory`. What the parts take is there before the
    /// first byte: behind it memory can lack in a link call, for a request that a redirect sends on, and
    /// for the answer.
    pub fn query<T: FromRedisValue>(
        &mut self,
        alloc: Global,
        cmd: &Cmd,
        number: u64,
        strategy: Option<&dyn ReadRoutingStrategy>,
    ) -> Result<T, RedisError>
        // What happened, also where memory is refused.
        ensures happened { Happened (strategy_of admits strategy.entry) (whole L.seen self.old)
            (whole L.seen self.new) (Query cmd.now number) }
        ensures answered { ValueMade (strategy_of admits strategy.entry) (whole L.seen self.old)
            (whole L.seen self.new) (Query cmd.now number) T.meaning T.convert result }
        // Behind the first byte memory lacks in the last link call, for a request that a redirect sends
        // on, or when nothing more was to be sent.
        ensures room { result ≡ Err (by_cause Memory) → (whole L.seen self.new).log ≢ []
            → LacksLate (strategy_of admits strategy.entry) (whole L.seen self.old)
            (whole L.seen self.new) (Query cmd.now number) }
        ensures unpicked { result ≡ Err (by_cause Memory) → (whole L.seen self.new).log ≡ []
            → (whole L.seen self.new).picked ≡ [] }
    {
        let call = CommandCall {
            command: cmd,
            direction: None,
            order: None,
            number,
        };
        self.value_of(alloc, &call, strategy)
    }

    /// The one reply to a command, as a `T`.
    fn value_of<T: FromRedisValue>(
        &mut self,
        alloc: Global,
        call: &CommandCall<'_, '_>,
        strategy: Option<&dyn ReadRoutingStrategy>,
    ) -> Result<T, RedisError>
        ensures happened { Happened (strategy_of admits strategy.entry) (whole L.seen self.old)
            (whole L.seen self.new) (call_of call.now) }
        ensures answered { ValueMade (strategy_of admits strategy.entry) (whole L.seen self.old)
            (whole L.seen self.new) (call_of call.now) T.meaning T.convert result }
        ensures room { result ≡ Err (by_cause Memory) → (whole L.seen self.new).log ≢ []
            → LacksLate (strategy_of admits strategy.entry) (whole L.seen self.old)
            (whole L.seen self.new) (call_of call.now) }
        ensures unpicked { result ≡ Err (by_cause Memory) → (whole L.seen self.new).log ≡ []
            → (whole L.seen self.new).picked ≡ [] }
    {
        let reply = self.reply_to(alloc, call, strategy);
        value_in(alloc, reply)
    }

    /// The one reply to a command, made of those of its parts.
    pub(crate) fn reply_to(
        &mut self,
        alloc: Global,
        call: &CommandCall<'_, '_>,
        strategy: Option<&dyn ReadRoutingStrategy>,
    ) -> Result<Value, RedisError>
        ensures { ReplyMade (strategy_of admits strategy.entry) (whole L.seen self.old)
            (whole L.seen self.new) (call_of call.now) (tree_result view result) }
    {
        let reply = match self.prepare(alloc, call, strategy) {
            Ok(Outset::Whole(request)) => self.follow(alloc, request, 1),
            Ok(Outset::InParts(Prepared { dispatches, split })) => {
                match self.follow_all(alloc, dispatches) {
                    Ok(replies) => reply_of_parts(alloc, split, replies),
                    Err(e) => Err(e),
                }
            }
            Err(e) => Err(e),
        };
        self.unpick(&reply);
        reply
    }

    /// Forgets the picks where memory was refused before a request was written down.
    fn unpick<T>(&mut self, reply: &Result<T, RedisError>)
        ensures stays { whole L.seen self.new
            ≡ with_log (whole L.seen self.old) (whole L.seen self.old).log (addresses self.new.picked.items) }
        ensures forgotten { reply.now ≡ Err (by_cause Memory) → (whole L.seen self.old).log ≡ []
            → addresses self.new.picked.items ≡ [] }
        ensures kept { (reply.now ≡ Err (by_cause Memory) → (whole L.seen self.old).log ≢ [])
            → addresses self.new.picked.items ≡ addresses self.old.picked.items }
    {
        if let Err(e) = reply {
            if self.asked.is_empty() && e.is_memory() {
                self.picked = Vec::new(*self.picked.allocator());
            }
        }
    }

    /// The direction of a command: that which is known, where no names only read.
    fn direction_of(
        &self,
        alloc: Global,
        call: &CommandCall<'_, '_>,
    ) -> Result<Direction, AllocError>
        ensures { IfOk result (λ d. shown_direction d
            ≡ direction_of call.now.command.now.args (texts self.now.read_only.items)) }
    {
        match call.direction {
            Some(direction) if self.read_only.is_empty() => direction.clone(),
            _ => Direction::for_routable(alloc, call.command, &self.read_only),
        }
    }

    /// What is done for a command before its first byte: where it goes first, or its parts, where each of
    /// them goes first, and the order in which they are sent.
    fn prepare(
        &mut self,
        alloc: Global,
        call: &CommandCall<'_, '_>,
        strategy: Option<&dyn ReadRoutingStrategy>,
    ) -> Result<Outset, RedisError>
        ensures stays { whole L.seen self.new
            ≡ with_log (whole L.seen self.old) [] (addresses self.new.picked.items) }
        ensures planned { result ≢ Err (by_cause Memory)
            → IsPlanned (strategy_of admits strategy.entry) (client_of (whole L.seen self.old))
            (call_of call.now) (addresses self.new.picked.items) (set_out_by result) }
        ensures placed { IfOk result
            (λ o. AllByRecursion (IsPlaced (nodes L.seen self.new.links.nodes.items)) (dispatches_in o)) }
        ensures room { IfOk result
            (λ o. is_whole o ≡ true → vec_len self.new.asked + 1 ≤ vec_capacity self.new.asked) }
        ensures split { IfOk result (λ o. option_map shown_split (split_in o)
            ≡ option_map (routes_in_order (given_order call.now))
            (parts_by_place call.now.command.now.args (texts self.new.read_only.items))) }
        ensures whole { IfOk result
            (λ o. is_whole o ≡ not (has_split_word call.now.command.now.args)) }
    {
        begin(alloc, &mut self.asked, &mut self.picked);
        let direction = self.direction_of(alloc, call)?;
        let targets = targets_of(call.command, direction, call.number)?;
        match targets {
            Targets::Split(split) => {
                let prepared = self.prepare_parts(alloc, call, split, strategy)?;
                Ok(Outset::InParts(prepared))
            }
            Targets::Whole(target) => {
                if !fits_order(alloc, call.order, 1)? {
                    return Err(RedisError::from(Cause::BadOrder));
                }
                let mut picker = Picker {
                    strategy,
                    picked: Vec::new(alloc),
                };
                let hop = first_hop(alloc, &self.links, &mut self.slots, &target, &mut picker);
                self.picked = picker.picked;
                let dispatch = Request {
                    to: hop?,
                    args: call.command.wire_args()?,
                };
                let request = make_ready(alloc, &mut self.asked, dispatch, 1)?;
                Ok(Outset::Whole(request))
            }
        }
    }

    /// The same of a command that is split this way.
    fn prepare_parts(
        &mut self,
        alloc: Global,
        call: &CommandCall<'_, '_>,
        split: SplitParts,
        strategy: Option<&dyn ReadRoutingStrategy>,
    ) -> Result<Prepared, RedisError>
        requires response { call.now.command.now.no_response ≡ false }
        requires split { Some (shown_split split)
            ≡ parts_by_place call.now.command.now.args (texts self.old.read_only.items) }
        ensures stays { whole L.seen self.new
            ≡ with_log (whole L.seen self.old) [] (addresses self.new.picked.items) }
        ensures planned { result ≢ Err (by_cause Memory) → (number : ℕ)
            → IsPlanned (strategy_of admits strategy.entry) (client_of (whole L.seen self.old))
            (call_by call.now number) (addresses self.new.picked.items) (prepared_by result) }
        ensures placed { IfOk result
            (λ p. AllByRecursion (IsPlaced (nodes L.seen self.new.links.nodes.items)) p.dispatches.items) }
        ensures split { IfOk result (λ p. option_map shown_split p.split
            ≡ option_map (routes_in_order (given_order call.now))
            (parts_by_place call.now.command.now.args (texts self.new.read_only.items))) }
    {
        begin(alloc, &mut self.asked, &mut self.picked);
        let mut list = Vec::with_capacity(alloc, split.routes.len())?;
        push_split(alloc, &mut list, call.command, &split)?;
        if !fits_order(alloc, call.order, list.len())? {
            return Err(RedisError::from(Cause::BadOrder));
        }
        let mut picker = Picker {
            strategy,
            picked: Vec::new(alloc),
        };
        let placed = dispatches(alloc, &self.links, &mut self.slots, list, &mut picker);
        self.picked = picker.picked;
        let dispatches = placed?;
        let prepared = Prepared {
            dispatches,
            split: Some(split),
        };
        Ok(prepared_in_order(alloc, prepared, call.order)?)
    }

    /// The replies to parts that are sent one after another, each behind its redirects, up to the first
    /// that is refused.
    fn follow_all(&mut self, alloc: Global, parts: Vec<Dispatch>) -> Result<Vec<Value>, RedisError>
        requires { AllByRecursion (IsPlaced (nodes L.seen self.old.links.nodes.items)) parts.items }
        ensures { PartsMade (whole L.seen self.old) (whole L.seen self.new) (map dispatch_of parts.items)
            (tree_results view result) }
    {
        let requests = make_all_ready(alloc, &mut self.asked, parts)?;
        let mut unanswered = requests.len();
        let mut replies = Vec::with_capacity(alloc, unanswered)?;
        'parts: for request in requests {
            let reply = self.follow(alloc, request, unanswered)?;
            unanswered -= 1;
            replies.push(reply).unwrap();
        }
        Ok(replies)
    }

    /// The reply to one part that goes to its place first, behind its redirects. The log has room for so
    /// many parts, this one among them, and when it is answered for the others.
    fn follow(&mut self, alloc: Global, first: Ready, parts: usize) -> Result<Value, RedisError>
        requires place { IsOpenAt (nodes L.seen self.old.links.nodes.items)
            (address first.dispatch.to.node) first.dispatch.to.link }
        requires within { first.dispatch.to.link < vec_len self.old.links.nodes }
        requires some { 0 < parts }
        requires room { vec_len self.old.asked + parts ≤ vec_capacity self.old.asked }
        ensures made { ChainMade (whole L.seen self.old) (whole L.seen self.new) (hop_to first.dispatch.to)
            (texts first.dispatch.args.items) (tree_result view result) }
        ensures room { OnOk result (vec_len self.new.asked + parts ≤ vec_capacity self.new.asked + 1) }
    {
        let mut request = first;
        let mut redirects = self.budget;
        'requests: loop {
            let reply = exchange_one(alloc, &mut self.links, &mut self.asked, request)?;
            self.needs_refresh = needs_refresh(self.needs_refresh, &reply);
            match turn_by(alloc, &self.links, redirects, reply)? {
                Turn::Answered(value) => return Ok(value),
                Turn::On(next) => {
                    redirects -= 1;
                    let again = sent_again(alloc, &self.asked, next)?;
                    request = make_ready(alloc, &mut self.asked, again, parts)?;
                }
            }
        }
    }

    /// The shards of the slot map; none before a refresh was accepted.
    ///
    /// # Errors
    /// `AllocError` where memory is refused.
    pub fn topology(&self, alloc: Global) -> Result<ClusterTopology, AllocError>
        ensures { IfOk result (λ t. t ≡ shards_of (whole L.seen self.now).entries) }
    {
        self.slots.map().topology(alloc)
    }

    /// Whether a request was answered by MOVED since the last accepted refresh; that a refresh itself was
    /// does not count.
    pub fn needs_refresh(&self) -> bool
        ensures { result ≡ (whole L.seen self.now).needs_refresh }
    {
        self.needs_refresh
    }

    /// The last call's requests, in order of sending.
    pub fn asked(&self) -> &[Asked]
        ensures { result.now ≡ (whole L.seen self.now).log }
    {
        self.asked.as_slice()
    }

    /// What the strategy answered in the last call, for one part after another, up to and with one to
    /// whose node no usable link leads; none where there was no strategy or it was not asked, and none
    /// where memory was refused before a request was written down.
    pub fn picked(&self) -> &[NodeAddress]
        ensures { addresses result.now ≡ (whole L.seen self.now).picked }
    {
        self.picked.as_slice()
    }

    /// Every node and its link, in the order in which they were handed in.
    pub fn links(&self) -> &[(NodeAddress, L)]
        ensures { nodes L.seen result.now ≡ (whole L.seen self.now).nodes }
    {
        self.links.as_slice()
    }

    /// The link to a node.
    pub fn link(&self, node: &NodeAddress) -> Option<&L>
        ensures { option_map (λ link. L.seen link.now) result
            ≡ link_at (whole L.seen self.now).nodes (address node.now) }
    {
        match self.links.place_of(node) {
            Some(index) => Some(self.links.link(index)),
            None => None,
        }
    }

    /// The pushes that were set aside at a node's link; `None` where there is no such link.
    pub fn pushes(&self, node: &NodeAddress) -> Option<&[PushInfo]>
        ensures { option_map (λ pushes. map push_view pushes.now) result
            ≡ option_map (λ (link : Seen). link.pushes)
            (link_at (whole L.seen self.now).nodes (address node.now)) }
    {
        match self.link(node) {
            Some(link) => Some(link.pushes()),
            None => None,
        }
    }

    /// Whether a node's link is usable; `None` where there is no such link.
    pub fn link_state(&self, node: &NodeAddress) -> Option<bool>
        ensures { result ≡ option_map (λ (link : Seen). link.usable)
            (link_at (whole L.seen self.now).nodes (address node.now)) }
    {
        match self.link(node) {
            Some(link) => Some(link.is_open()),
            None => None,
        }
    }
}
