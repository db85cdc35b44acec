//! Laws of every call of a cluster client, over plain data.
ghost use Rattle.cluster_routing.specs.CombineLaws.{OrderOfParts, OrderOfReplies, PartsAreRouted, SubsRouteToTheirSlot};
ghost use Rattle.cluster_calls.specs.Links.Leaves.{UnaskedNodesStay};
ghost use Rattle.cluster_calls.specs.OneServer.AmongOthers.{AnswersAmongOthers, UnsplitRunsStay};
ghost use Rattle.cluster_calls.specs.OneServer.Bounds.{CallsAreBounded, PlaysAreBounded};
ghost use Rattle.cluster_calls.specs.OneServer.ClosedLinks.{ClosedLinksChangeNothing};
ghost use Rattle.cluster_calls.specs.OneServer.Fates.{EachIsACall, EachPositionHasItsFate, OutcomesMakeTheAnswer, PartsGoWhole, WholesStayWhole};
ghost use Rattle.cluster_calls.specs.OneServer.Headline.{AnswersAndKeyspace, Refusals};
ghost use Rattle.cluster_calls.specs.OneServer.Laws.{HistoriesAreBySlot, EachPartIsAnsweredOnce, GapsNameNoKey, JoinIsTheWhole, NodesKeepHistories, NodesOnceAscending, OneServerIsDetermined, OnlyRedirectsRepeat, PartsKeepHistories, RequestsAreBounded, RunsAgree};
ghost use Rattle.cluster_calls.specs.OneServer.OneCall.{OneCallAmongOthers, OneCallAsOnOneServer, RepliesDetermineLogs};
ghost use Rattle.cluster_calls.specs.OneServer.Played.{PlayedAsOnOneServer};
ghost use Rattle.cluster_calls.specs.OneServer.PlayedAmongOthers.{PlayedAmongOthers};
ghost use Rattle.cluster_calls.specs.OneServer.PromisedPlays.{PromisedPlays};
ghost use Rattle.cluster_calls.specs.OneServer.RefusedPlays.{PlaysAreRefused};
ghost use Rattle.cluster_calls.specs.OneServer.Resending.{NoneIsSentAgain, PartsHaveTheirOwnSlots, PipelinesSendOnce, OneNodeIsAskedOnce, RefreshesSendOnce};
ghost use Rattle.cluster_calls.specs.OneServer.RespelledPlays.{RespelledPlays};
ghost use Rattle.cluster_calls.specs.OneServer.Respelling.{RespelledRuns};
ghost use Rattle.cluster_calls.specs.OneServer.SentLists.{NoOtherLists};
ghost use Rattle.cluster_calls.specs.OneServer.Stretches.{RunsHaveStretches};
ghost use Rattle.cluster_calls.specs.OneServer.TransactionLaws.{AttemptsAreBounded, OnlyNotDoneIsSentAgain};
ghost use Rattle.cluster_calls.specs.WholeCalls.EachPlay.{EachIsPlayedWhole};
ghost use Rattle.cluster_calls.specs.WholeCalls.MixedPlay.{FourArePlayedWhole};
ghost use Rattle.cluster_calls.specs.WholeCalls.SharedPlay.{SharedIsPlayedWhole};

/// A call leaves the links of all nodes that its log does not name, also where memory is refused.
pub fn unasked_nodes_stay()
    ensures { UnaskedNodesStay }
{}

/// A call does with a node whose link is closed what it does without it.
pub fn closed_links_change_nothing()
    ensures { ClosedLinksChangeNothing }
{}

/// A list of steps is a history exactly if it is one at each slot.
pub fn histories_are_by_slot()
    ensures { HistoriesAreBySlot }
{}

/// Parts may be sent in any order.
pub fn parts_keep_histories()
    ensures { PartsKeepHistories }
{}

/// A pipeline may be sent node by node.
pub fn nodes_keep_histories()
    ensures { NodesKeepHistories }
{}

/// Any list of keyed, split, stream and pipeline calls and refreshes, played over honest nodes, gets
/// the answers and leaves the keyspace of one server that is given the commands one after another.
pub fn answers_and_keyspace()
    ensures { AnswersAndKeyspace }
{}

/// The same where others use the keys in between: on each slot their steps and the run's stay as they
/// are.
pub fn answers_among_others()
    ensures { AnswersAmongOthers }
{}

/// Where no command is split, no read of streams has several slots and no call is a pipeline, all steps stay
/// in their order, others' too.
pub fn unsplit_runs_stay()
    ensures { UnsplitRunsStay }
{}

/// What `refresh` and `query` ensure makes each of their calls, made over honest nodes, as good as
/// its command on one server, whatever others do before it, meanwhile, and behind it.
pub fn one_call_among_others()
    ensures { OneCallAmongOthers }
{}

/// What `refresh` and `query` ensure makes each of their calls, played over honest nodes, as good as
/// its command on one server.
pub fn one_call_as_on_one_server()
    ensures { OneCallAsOnOneServer }
{}

/// What `play` ensures makes its calls, played over honest nodes, as good as their commands on one
/// server that is given them unsplit, one after another: the answers are that server's, and so is the
/// keyspace.
pub fn played_as_on_one_server()
    ensures { PlayedAsOnOneServer }
{}

/// The same where others use the keys in between.
pub fn played_among_others()
    ensures { PlayedAmongOthers }
{}

/// Legal logs of a call for equal replies are equal.
pub fn replies_determine_logs()
    ensures { RepliesDetermineLogs }
{}

/// Each call is refused exactly where and as a written function says.
pub fn refusals()
    ensures { Refusals }
{}

/// What `play` ensures makes each of its calls refused exactly where and as its kind says.
pub fn plays_are_refused()
    ensures { PlaysAreRefused }
{}

/// With a meaning that leaves no choice, one server has one outcome.
pub fn one_server_is_determined()
    ensures { OneServerIsDetermined }
{}

/// Two runs of the same calls, all answered, get the same answers and leave the same keyspace.
pub fn runs_agree()
    ensures { RunsAgree }
{}

/// A request is sent again only after a redirect that was read for it.
pub fn only_redirects_repeat()
    ensures { OnlyRedirectsRepeat }
{}

/// The parts of a command have slots of their own.
pub fn parts_have_their_own_slots()
    ensures { PartsHaveTheirOwnSlots }
{}

/// Behind a request of a command that was not redirected none has its arguments again.
pub fn none_is_sent_again()
    ensures { NoneIsSentAgain }
{}

/// A pipeline sends its commands node by node, each at most once, and all of them where no link
/// failed.
pub fn pipelines_send_once()
    ensures { PipelinesSendOnce }
{}

/// A refresh sends one request, and never again.
pub fn refreshes_send_once()
    ensures { RefreshesSendOnce }
{}

/// A command to one node makes one request to it, and none where no open link leads there.
pub fn one_node_is_asked_once()
    ensures { OneNodeIsAskedOnce }
{}

/// A run is a run before any of its calls, and from there on.
pub fn runs_have_stretches()
    ensures { RunsHaveStretches }
{}

/// Whoever reads commands of what a node got over a run reads those of its requests; behind a write that failed those
/// of the link calls before it.
pub fn no_other_lists()
    ensures { NoOtherLists }
{}

/// A command with a gap goes to the slot that it names when it is sent.
pub fn gaps_name_no_key()
    ensures { GapsNameNoKey }
{}

/// A call makes at most so many requests.
pub fn requests_are_bounded()
    ensures { RequestsAreBounded }
{}

/// What a call ensures bounds its requests, also where memory is refused.
pub fn calls_are_bounded()
    ensures { CallsAreBounded }
{}

/// What `play` ensures bounds the requests of each of its calls.
pub fn plays_are_bounded()
    ensures { PlaysAreBounded }
{}

/// A command to several nodes goes to each of them once, ascending.
pub fn nodes_once_ascending()
    ensures { NodesOnceAscending }
{}

/// Of an answered command each part has one request whose reply is no redirect.
pub fn each_part_is_answered_once()
    ensures { EachPartIsAnsweredOnce }
{}

/// A run with a redirect, a split command of which a part is refused, a pipeline over two nodes and a
/// lost request is played over an honest cluster, and is as on one server.
pub fn four_are_played_whole()
    ensures { FourArePlayedWhole }
{}

/// A run in which a pipeline tells of each position, of which one is answered, one is redirected, one is
/// lost and one is half done, is played over an honest cluster, and is as on one server.
pub fn each_is_played_whole()
    ensures { EachIsPlayedWhole }
{}

/// A run on keys that another client uses too, of which a command is split and the other looks between its
/// parts, and sets a key before a later call, is played over an honest cluster, and is as on one server.
pub fn shared_is_played_whole()
    ensures { SharedIsPlayedWhole }
{}

/// Replies to reads of streams that are spelled in another shape change nothing of a run.
pub fn respelled_runs()
    ensures { RespelledRuns }
{}

/// Two plays over links whose values say the same show the same and send the same bytes.
pub fn respelled_plays()
    ensures { RespelledPlays }
{}

/// Sums, least numbers and maps of counts do not depend on the order of the replies.
pub fn order_of_replies()
    ensures { OrderOfReplies }
{}

/// The reply to a split command does not depend on the order of its parts' replies.
pub fn order_of_parts()
    ensures { OrderOfParts }
{}

/// A split command's parts are those of its destination.
pub fn parts_are_routed()
    ensures { PartsAreRouted }
{}

/// The command of a part routes to the part's slot, with the role of the whole command.
pub fn subs_route_to_their_slot()
    ensures { SubsRouteToTheirSlot }
{}

/// The rows of a read in parts, joined, are those of the read of all its streams.
pub fn join_is_the_whole()
    ensures { JoinIsTheWhole }
{}

/// Two plays of the same calls from one client over devices that promise to refuse none show the same,
/// and send each node the same bytes.
pub fn promised_plays()
    ensures { PromisedPlays }
{}

/// What a pipeline that tells of each position ensures lets its caller know of each whether it was answered,
/// was not done, or may have been done, also where memory is refused.
pub fn each_position_has_its_fate()
    ensures { EachPositionHasItsFate }
{}

/// What a pipeline that tells of each position ensures makes it a call of which all laws of calls hold.
pub fn each_is_a_call()
    ensures { EachIsACall }
{}

/// Where each command of a pipeline goes to slots, what stands in it for a split one goes out whole.
pub fn parts_go_whole()
    ensures { PartsGoWhole }
{}

/// Where no command of a pipeline is split, its positions' outcomes are those of its requests.
pub fn wholes_stay_whole()
    ensures { WholesStayWhole }
{}

/// Where no link call failed, the one answer to a pipeline is a function of the outcomes of its positions.
pub fn outcomes_make_the_answer()
    ensures { OutcomesMakeTheAnswer }
{}

/// A transaction is sent again only where nothing was done by the attempt before, so it is done at most
/// once.
pub fn only_not_done_is_sent_again()
    ensures { OnlyNotDoneIsSentAgain }
{}

/// A transaction is sent once, and again at most once for each redirect within the budget.
pub fn attempts_are_bounded()
    ensures { AttemptsAreBounded }
{}
