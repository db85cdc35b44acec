//! A command to several nodes: each of them is asked once, ascending, and their replies become one.
ghost use Rattle.std.specs.List.{AllByRecursion};
ghost use Rattle.std.specs.Prelude.{◌≡◌, ◌≢◌, ◌<◌, ◌≤◌, ◌+◌, ◌||◌, Err, IfErr, IfOk, IfSome, Option, [], ◌∷◌, false, map, option_map, vec_capacity, vec_len};
ghost use Rattle.resp_core.specs.Errors.{by_cause};
ghost use Rattle.resp_core.specs.View.{view};
ghost use Rattle.resp_core.specs.declared.errors.redis_error.Cause.TheVariants.{Memory};
ghost use Rattle.resp_args.specs.Packed.{sent};
ghost use Rattle.cluster_routing.specs.Address.{same_address};
ghost use Rattle.cluster_routing.specs.Choice.{Strategy};
ghost use Rattle.cluster_routing.specs.Directions.{destination_in, direction as direction_of, shown_direction};
ghost use Rattle.cluster_routing.specs.Info.{texts};
ghost use Rattle.cluster_routing.specs.Lists.{IsDistinct};
ghost use Rattle.cluster_routing.specs.Outcomes.{outcomes_of};
ghost use Rattle.cluster_routing.specs.Policies.{tree_or_refusal};
ghost use Rattle.cluster_routing.specs.Routing.{destination};
ghost use Rattle.cluster_routing.specs.Seen.{address};
ghost use Rattle.cluster_calls.specs.Calls.Answer.{tree_in};
ghost use Rattle.cluster_calls.specs.Calls.Call.{FanOut};
ghost use Rattle.cluster_calls.specs.Calls.Parts.{at_node};
ghost use Rattle.cluster_calls.specs.Calls.Plan.{Client, first_of};
ghost use Rattle.cluster_calls.specs.Calls.Replies.{policy_in, reply_by_outcomes};
ghost use Rattle.cluster_calls.specs.Links.Converted.{value_answer};
ghost use Rattle.cluster_steps.specs.Dispatches.{AreDispatched, IsPlaced, IsPlanned, dispatch_of, dispatches_of};
ghost use Rattle.cluster_steps.specs.FirstPlaces.{node_by, node_with_link};
ghost use Rattle.cluster_calls.specs.Links.Happened.{CallMade};
ghost use Rattle.cluster_calls.specs.Links.Log.{is_data_reply, is_moved_reply};
ghost use Rattle.cluster_client.specs.InParts.{IsDirected};
ghost use Rattle.cluster_client.specs.NodeRuns.{NodesAsked, all_outcomes, listed_by, nodes_named, one_outcome, outcome_in, outcome_of_reply, parts_to_nodes};
ghost use Rattle.cluster_client.specs.Whole.{whole};
ghost use Rattle.cluster_calls.specs.Links.World.{nodes, open_links, tree_result};

use crate::client::directed::direction_by;
use crate::client::{ClusterClient, begin};
use crate::pipeline::Directed;
use cluster_routing::{Direction, NodeAddress, ResponsePolicy, SlotMap, combine_nodes};
use cluster_steps::dispatch::Dispatch;
use cluster_steps::exchange::exchange_one;
use cluster_steps::hop::hop_of;
use cluster_steps::known_links::KnownLinks;
use cluster_steps::ready::{Ready, make_all_ready};
use cluster_steps::reply::needs_refresh;
use cluster_steps::request::Request;
use resp_args::Cmd;
use resp_core::{Cause, RedisError, Value};
use resp_link::ConnectionLike;
use std::alloc::{AllocError, Global};

/// The nodes that a command names, ascending; `None` where it does not go to several nodes.
fn nodes_named<'a>(
    alloc: Global,
    slots: &'a SlotMap,
    direction: &Direction,
) -> Result<Option<Vec<&'a NodeAddress>>, AllocError>
    ensures { IfOk result
        (λ o. option_map (λ v. map (λ a. address a.now) v.items) o
        ≡ nodes_named slots.now (destination_in (shown_direction direction.now))) }
{
    match direction {
        Direction::AllNodes(_) => Ok(Some(slots.addresses_for_all_nodes(alloc)?)),
        Direction::AllPrimaries(_) => Ok(Some(slots.addresses_for_all_primaries(alloc)?)),
        _ => Ok(None),
    }
}

/// How the replies to a command that goes to several nodes become one.
fn policy_in(direction: &Direction) -> Option<ResponsePolicy>
    ensures { result ≡ policy_in (destination_in (shown_direction direction.now)) }
{
    match direction {
        Direction::AllNodes(policy) | Direction::AllPrimaries(policy) => Some(*policy),
        _ => None,
    }
}

/// The command as it goes to one node, over its open link.
///
/// # Errors
/// `NoLink` where no usable link leads to the node; `Memory`.
pub(crate) fn dispatch_to<L: ConnectionLike>(
    links: &KnownLinks<L>,
    node: &NodeAddress,
    cmd: &Cmd,
) -> Result<Dispatch, RedisError>
    ensures node { result ≢ Err (by_cause Memory) → node_by (λ d. address d.to.node) result
        ≡ node_with_link (open_links (nodes L.seen links.now.nodes.items))
        (first_of [] [] (at_node (address node.now))) }
    ensures args { IfOk result (λ d. texts d.args.items ≡ sent cmd.now) }
    ensures placed { IfOk result (λ d. IsPlaced (nodes L.seen links.now.nodes.items) d) }
{
    Ok(Request {
        to: hop_of(links, node)?,
        args: cmd.wire_args()?,
    })
}

/// The command as it goes to each of these nodes.
///
/// # Errors
/// `NoLink` where no usable link leads to one of them; `Memory`.
fn dispatches_to<L: ConnectionLike>(
    alloc: Global,
    links: &KnownLinks<L>,
    addresses: Vec<&NodeAddress>,
    cmd: &Cmd,
) -> Result<Vec<Dispatch>, RedisError>
    ensures dispatched { result ≢ Err (by_cause Memory) → (strategy : Option Strategy) (client : Client)
        → client.links ≡ open_links (nodes L.seen links.now.nodes.items)
        → AreDispatched strategy client
        (parts_to_nodes (sent cmd.now) (map (λ a. address a.now) addresses.entry.items)) []
        (dispatches_of result) }
    ensures placed { IfOk result
        (λ v. AllByRecursion (IsPlaced (nodes L.seen links.now.nodes.items)) v.items) }
{
    let mut all = Vec::new(alloc);
    'nodes: for node in addresses {
        let dispatch = dispatch_to(links, node, cmd)?;
        all.push(dispatch)?;
    }
    Ok(all)
}

/// What is there of a command to several nodes before its first byte: where it goes, and how the
/// replies become one.
#[derive(Drop)]
struct NodeDispatches {
    list: Vec<Dispatch>,
    policy: Option<ResponsePolicy>,
}

/// A command as it goes to several nodes, ascending.
///
/// # Errors
/// `NoResponse` for a command that waits for none; `NoRoute` for one that does not go to several
/// nodes; `NoNode` where the slot map has no node; `NoLink` where no usable link leads to one of
/// them; `Memory`.
fn node_dispatches<L: ConnectionLike>(
    alloc: Global,
    links: &KnownLinks<L>,
    slots: &SlotMap,
    cmd: &Cmd,
    direction: &Direction,
) -> Result<NodeDispatches, RedisError>
    requires { shown_direction direction.now ≡ direction_of cmd.now.args [] }
    ensures planned { result ≢ Err (by_cause Memory) → (strategy : Option Strategy) (client : Client)
        → client.links ≡ open_links (nodes L.seen links.now.nodes.items)
        → client.entries ≡ slots.now → IsPlanned strategy client (FanOut cmd.now) [] (listed_by result) }
    ensures placed { IfOk result
        (λ n. AllByRecursion (IsPlaced (nodes L.seen links.now.nodes.items)) n.list.items) }
    ensures policy { IfOk result (λ n. n.policy ≡ policy_in (destination cmd.now.args [])) }
{
    if cmd.is_no_response() {
        return Err(RedisError::from(Cause::NoResponse));
    }
    let Some(addresses) = nodes_named(alloc, slots, direction)? else {
        return Err(RedisError::from(Cause::NoRoute));
    };
    if addresses.is_empty() {
        return Err(RedisError::from(Cause::NoNode));
    }
    let list = dispatches_to(alloc, links, addresses, cmd)?;
    Ok(NodeDispatches {
        list,
        policy: policy_in(direction),
    })
}

/// A request to a node, and the node's address once more, which its outcome is to have.
#[derive(Drop)]
struct Question {
    node: NodeAddress,
    request: Ready,
    ghost same: { address node ≡ address request.dispatch.to.node },
}

/// The requests with the addresses of their nodes.
fn questions(alloc: Global, requests: Vec<Ready>) -> Result<Vec<Question>, AllocError>
    ensures len { IfOk result (λ v. vec_len v ≡ vec_len requests) }
    ensures same { IfOk result
        (λ v. map (λ q. q.request.dispatch) v.items ≡ map (λ r. r.dispatch) requests.items) }
{
    let mut all = Vec::new(alloc);
    'requests: for request in requests {
        let node = request.dispatch.to.node.clone()?;
        all.push(Question { node, request })?;
    }
    Ok(all)
}

/// Whether a refresh is needed after this reply of a node, if it gave one.
pub(crate) fn needs_refresh_by(flag: bool, reply: &Result<Value, RedisError>) -> bool
    ensures { result ≡ (flag || is_moved_reply (tree_in (tree_result view reply.now))) }
{
    match reply {
        Ok(value) => needs_refresh(flag, value),
        Err(_) => flag,
    }
}

/// A node's reply or outcome, but for want of memory, which is none.
fn unless_memory(
    outcome: Result<Value, RedisError>,
) -> Result<Result<Value, RedisError>, RedisError>
    ensures same { IfOk result (λ o. o ≡ outcome) }
    ensures memory { IfOk result (λ o. IfErr o (λ e. e ≢ by_cause Memory)) }
    ensures only { IfErr result (λ e. e ≡ by_cause Memory) }
    ensures lacked { IfErr result (λ e. outcome ≡ Err (by_cause Memory)) }
{
    match outcome {
        Ok(value) => Ok(Ok(value)),
        Err(e) => { if e.is_memory() { Err(e) } else { Ok(Err(e)) } }
    }
}

/// A node's outcome by its reply, or by why it gave none: a reply that is or holds an error is a
/// refusal.
pub(crate) fn outcome_in(
    reply: Result<Value, RedisError>,
) -> Result<Result<Value, RedisError>, RedisError>
    ensures outcome { IfOk result (λ o. tree_or_refusal o ≡ outcome_in (tree_result view reply)) }
    ensures only { IfErr result (λ e. e ≡ by_cause Memory) }
    // Memory is taken for the error that the reply holds.
    ensures error { IfErr result
        (λ e. is_data_reply (tree_in (tree_result view reply)) ≡ false) }
{
    match reply {
        Ok(value) => unless_memory(value.extract_error()),
        Err(e) => Ok(Err(e)),
    }
}

/// The outcomes of nodes by their replies.
fn outcomes(
    alloc: Global,
    replies: Vec<(NodeAddress, Result<Value, RedisError>)>,
) -> Result<Vec<(NodeAddress, Result<Value, RedisError>)>, RedisError>
    ensures outcomes { IfOk result (λ v. outcomes_of v.items ≡ map outcome_of_reply replies.items) }
    ensures only { IfErr result (λ e. e ≡ by_cause Memory) }
{
    let mut all = Vec::new(alloc);
    'replies: for replied in replies {
        let (node, reply) = replied;
        let outcome = outcome_in(reply)?;
        all.push((node, outcome))?;
    }
    Ok(all)
}

/// One reply from the outcomes of all nodes.
///
/// # Errors
/// `UnexpectedReturnType` where there is no policy, or none can be made of them; a node's refusal
/// where the policy answers it; `Memory`.
fn reply_of_nodes(
    alloc: Global,
    policy: Option<ResponsePolicy>,
    outcomes: Vec<(NodeAddress, Result<Value, RedisError>)>,
) -> Result<Value, RedisError>
    ensures { result ≢ Err (by_cause Memory)
        → tree_or_refusal result ≡ reply_by_outcomes policy (outcomes_of outcomes.items) }
{
    match policy {
        None => Err(RedisError::from(Cause::UnexpectedReturnType)),
        Some(policy) => combine_nodes(alloc, policy, outcomes),
    }
}

impl<L: ConnectionLike + Drop> ClusterClient<L> {
    /// Sends a command to all nodes or to all primaries of the slot map, as the routing table says
    /// (`RoutingInfo::for_routable`), and makes one reply of theirs by the command's policy
    /// (`ResponsePolicy`).
    ///
    /// All links are found before the first byte. Each node is asked once, in the ascending order of
    /// the addresses, and no redirect is followed. A reply that is or holds an error counts as that
    /// node's refusal, and so does a link that fails, which is closed then; the other nodes are still
    /// asked. A reply that is itself MOVED raises `needs_refresh`.
    ///
    /// # Errors
    /// In the order of the checks: `NoResponse` for a command that waits for none; `NoRoute` for one
    /// that goes nowhere or to one node by the table; `NoNode` where the slot map has no node;
    /// `NoLink` where no usable link leads to one of the nodes. Until then nothing is sent. Then, by
    /// the policy, a node's refusal: the server's error, `Io` or `Parse`; `UnexpectedReturnType` where
    /// there is no policy or the replies have not the shape that becomes one. `Memory`, behind the first
    /// byte only in a link call, which asks no further node, or for the answer.
    pub fn fan_out(&mut self, alloc: Global, cmd: &Cmd) -> Result<Value, RedisError>
        ensures { (strategy : Option Strategy)
            → CallMade strategy (whole L.seen self.old) (whole L.seen self.new) (FanOut cmd.now)
            (value_answer (tree_result view result)) }
    {
        self.fan_out_by(alloc, cmd, None)
    }

    /// What `fan_out` does and answers, of a command that is lent with its direction: it is not looked up.
    ///
    /// # Errors
    /// Those of `fan_out`.
    pub fn fan_out_directed(
        &mut self,
        alloc: Global,
        directed: &Directed<'_>,
    ) -> Result<Value, RedisError>
        requires { IsDirected directed.now }
        ensures { (strategy : Option Strategy)
            → CallMade strategy (whole L.seen self.old) (whole L.seen self.new) (FanOut directed.now.command.now)
            (value_answer (tree_result view result)) }
    {
        self.fan_out_by(alloc, directed.command, Some(directed.direction))
    }

    /// The same of a command whose direction may be known.
    fn fan_out_by(
        &mut self,
        alloc: Global,
        cmd: &Cmd,
        known: Option<&Direction>,
    ) -> Result<Value, RedisError>
        requires { IfSome known (λ d. shown_direction d.now ≡ direction_of cmd.now.args []) }
        ensures { (strategy : Option Strategy)
            → CallMade strategy (whole L.seen self.old) (whole L.seen self.new) (FanOut cmd.now)
            (value_answer (tree_result view result)) }
    {
        begin(alloc, &mut self.asked, &mut self.picked);
        let direction = direction_by(alloc, cmd, known)?;
        let NodeDispatches { list, policy } = node_dispatches(
            alloc,
            &self.links,
            self.slots.map(),
            cmd,
            &direction,
        )?;
        let replies = self.ask_each(alloc, list)?;
        let outcomes = outcomes(alloc, replies)?;
        reply_of_nodes(alloc, policy, outcomes)
    }

    /// The replies of nodes that are asked one after another, or why they gave none.
    fn ask_each(
        &mut self,
        alloc: Global,
        dispatches: Vec<Dispatch>,
    ) -> Result<Vec<(NodeAddress, Result<Value, RedisError>)>, RedisError>
        requires placed { AllByRecursion
            (IsPlaced (nodes L.seen self.old.links.nodes.items)) dispatches.items }
        requires apart { IsDistinct same_address (map (λ d. address d.to.node) dispatches.items) }
        ensures { NodesAsked (whole L.seen self.old) (whole L.seen self.new)
            (map dispatch_of dispatches.items) (all_outcomes result) }
    {
        let requests = make_all_ready(alloc, &mut self.asked, dispatches)?;
        let questions = questions(alloc, requests)?;
        let mut replies = Vec::with_capacity(alloc, questions.len())?;
        'nodes: for question in questions {
            let reply = self.ask(alloc, question)?;
            replies.push(reply).unwrap();
        }
        Ok(replies)
    }

    /// A node, and its reply to one request, for which the log has room, or why it gave none.
    fn ask(
        &mut self,
        alloc: Global,
        question: Question,
    ) -> Result<(NodeAddress, Result<Value, RedisError>), RedisError>
        requires placed { IsPlaced (nodes L.seen self.old.links.nodes.items) question.request.dispatch }
        requires room { vec_len self.old.asked < vec_capacity self.old.asked }
        ensures asked { NodesAsked (whole L.seen self.old) (whole L.seen self.new)
            (dispatch_of question.request.dispatch ∷ []) (one_outcome result) }
        ensures log_len { vec_len self.new.asked ≡ vec_len self.old.asked + 1 }
        ensures log_capacity { vec_capacity self.old.asked ≤ vec_capacity self.new.asked }
    {
        let Question { node, request } = question;
        let reply = exchange_one(alloc, &mut self.links, &mut self.asked, request);
        self.needs_refresh = needs_refresh_by(self.needs_refresh, &reply);
        let reply = unless_memory(reply)?;
        Ok((node, reply))
    }
}
