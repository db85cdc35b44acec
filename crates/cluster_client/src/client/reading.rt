//! Reads of streams in parts, one for each slot of their keys.
ghost use Rattle.std.specs.List.{AllByRecursion};
ghost use Rattle.std.specs.Prelude.{◌≡◌, ◌≢◌, [], None, true, Err, IfOk};
ghost use Rattle.resp_core.specs.Errors.{by_cause};
ghost use Rattle.resp_core.specs.declared.errors.redis_error.Cause.TheVariants.{Memory};
ghost use Rattle.cluster_routing.specs.Choice.{strategy_of};
ghost use Rattle.cluster_routing.specs.Seen.{addresses};
ghost use Rattle.stream_commands.specs.Joining.{positions};
ghost use Rattle.stream_commands.specs.RecordViews.{rows_view};
ghost use Rattle.cluster_calls.specs.Calls.Answer.{Read};
ghost use Rattle.cluster_calls.specs.Calls.Call.{OnStreams, Xread};
ghost use Rattle.cluster_calls.specs.Calls.Task.{is_by_key, read_refusal, stream_keys};
ghost use Rattle.cluster_calls.specs.Links.Happened.{CallMade, client_of};
ghost use Rattle.cluster_calls.specs.Links.Run.{with_log};
ghost use Rattle.cluster_calls.specs.Links.Typed.{record_answer};
ghost use Rattle.cluster_calls.specs.Links.World.{nodes};
ghost use Rattle.cluster_steps.specs.Dispatches.{IsPlaced, IsPlanned};
ghost use Rattle.cluster_steps.specs.Reads.{read_places, streams_in};
ghost use Rattle.cluster_client.specs.PreparedReads.{dispatches_in};
ghost use Rattle.cluster_client.specs.Whole.{whole};

use super::{ClusterClient, begin};
use cluster_routing::ReadRoutingStrategy;
use cluster_steps::dispatch::{Dispatch, dispatches};
use cluster_steps::picker::Picker;
use cluster_steps::read_parts::{ReadParts, Stream, read_parts};
use cluster_steps::read_reply::record_of_parts;
use resp_core::RedisError;
use resp_link::ConnectionLike;
use std::alloc::Global;
use stream_commands::{StreamReadOptions, StreamReadReply};

/// What is there of a read before its first byte: where each of its parts goes first, and for each of
/// them the positions of its streams among all.
#[derive(Drop)]
struct PreparedRead {
    dispatches: Vec<Dispatch>,
    places: Vec<Vec<usize>>,
}

impl<L: ConnectionLike + Drop> ClusterClient<L> {
    /// The record of a read of streams, made of the replies to its parts, which are sent as they first
    /// appear.
    pub(crate) fn read_by_key(
        &mut self,
        alloc: Global,
        streams: &[Stream],
        options: &StreamReadOptions,
        strategy: Option<&dyn ReadRoutingStrategy>,
    ) -> Result<StreamReadReply, RedisError>
        requires by_key { is_by_key options.now (stream_keys (streams_in streams.now)) ≡ true }
        requires met { read_refusal (stream_keys (streams_in streams.now)) options.now ≡ None }
        ensures { CallMade (strategy_of admits strategy.entry) (whole L.seen self.old)
            (whole L.seen self.new) (OnStreams (Xread (streams_in streams.now) options.now))
            (record_answer (λ reply. Read (rows_view reply.keys.items)) result) }
    {
        let reply = match self.prepare_read(alloc, streams, options, strategy) {
            Ok(PreparedRead { dispatches, places }) => match self.follow_all(alloc, dispatches) {
                Ok(replies) => record_of_parts(alloc, streams, &places, replies),
                Err(e) => Err(e),
            },
            Err(e) => Err(e),
        };
        self.unpick(&reply);
        reply
    }

    /// What is done for a read before its first byte.
    fn prepare_read(
        &mut self,
        alloc: Global,
        streams: &[Stream],
        options: &StreamReadOptions,
        strategy: Option<&dyn ReadRoutingStrategy>,
    ) -> Result<PreparedRead, RedisError>
        requires by_key { is_by_key options.now (stream_keys (streams_in streams.now)) ≡ true }
        requires met { read_refusal (stream_keys (streams_in streams.now)) options.now ≡ None }
        ensures stays { whole L.seen self.new
            ≡ with_log (whole L.seen self.old) [] (addresses self.new.picked.items) }
        ensures planned { result ≢ Err (by_cause Memory)
            → IsPlanned (strategy_of admits strategy.entry) (client_of (whole L.seen self.old))
            (OnStreams (Xread (streams_in streams.now) options.now)) (addresses self.new.picked.items)
            (dispatches_in result) }
        ensures placed { IfOk result
            (λ p. AllByRecursion (IsPlaced (nodes L.seen self.new.links.nodes.items)) p.dispatches.items) }
        ensures places { IfOk result (λ p. positions p.places.items ≡ read_places (streams_in streams.now)) }
    {
        begin(alloc, &mut self.asked, &mut self.picked);
        let ReadParts { list, places } = read_parts(alloc, streams, options, &self.read_only)?;
        let mut picker = Picker {
            strategy,
            picked: Vec::new(alloc),
        };
        let placed = dispatches(alloc, &self.links, &mut self.slots, list, &mut picker);
        self.picked = picker.picked;
        let dispatches = placed?;
        Ok(PreparedRead { dispatches, places })
    }
}
