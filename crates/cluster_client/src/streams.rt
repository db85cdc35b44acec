//! Calls on streams: each is sent as one command, and its reply is read as a record. An `xread` of several
//! slots alone is sent in parts, of whose replies one record is made.
//!
//! Keys, ids, names, fields and values are one argument each. A call goes where `query` sends its
//! command, and tells by `asked` and `picked` what it did.
//!
//! # Errors
//! Those of `query`, and `UnexpectedReturnType` where the reply is no record of the call. What a call
//! checks itself comes before all of these: nothing is sent then, and no strategy is asked.
//!
//! Source: the documentation of the crate `redis`, stream commands; the Redis documentation of each
//! command.
ghost use Rattle.std.specs.Prelude.{◌≡◌, [], map, option_map, string_bytes, pos};
ghost use Rattle.cluster_routing.specs.Choice.{strategy_of};
ghost use Rattle.stream_commands.specs.InfoViews.{consumer_view, group_view, pending_view, stream_info_view};
ghost use Rattle.stream_commands.specs.RecordViews.{autoclaim_view, entries_view, rows_view};
ghost use Rattle.cluster_calls.specs.Calls.Answer.{Answer, Added, Trimmed, Read, Range, Claim, AutoClaim, Pending, Stream, Groups, Consumers, Deleted};
ghost use Rattle.cluster_calls.specs.Calls.Call.{StreamCall, Xadd, Xtrim, Xread, Xrange, Xclaim, Xautoclaim, Xpending, XinfoStream, XinfoGroups, XinfoConsumers, XdelEx};
ghost use Rattle.cluster_calls.specs.Links.Run.{with_log};
ghost use Rattle.cluster_calls.specs.Links.Typed.{IsReadBy, StreamCallMade, deletion_of, streams_by};
ghost use Rattle.cluster_client.specs.Streams.{GoesOutAs, fields_by};
ghost use Rattle.cluster_client.specs.Whole.{whole};

use crate::client::{ClusterClient, begin};
use crate::command_call::CommandCall;
use cluster_routing::ReadRoutingStrategy;
use cluster_steps::read_checks::{Reading, reading_of};
use resp_args::{Cmd, FromRedisValue, ToSingleRedisArg, from_redis_value};
use resp_core::{Cause, RedisError};
use resp_link::ConnectionLike;
use std::alloc::{AllocError, Global};
use stream_commands::{
    StreamAddOptions, StreamAutoClaimOptions, StreamAutoClaimReply, StreamClaimOptions,
    StreamClaimReply, StreamDeletionPolicy, StreamInfoConsumersReply, StreamInfoGroupsReply,
    StreamInfoStreamReply, StreamPendingReply, StreamRangeReply, StreamReadOptions,
    StreamReadReply, StreamTrimOptions, XDelExStatusCode, commands,
};

/// Who claims pending entries in a list of calls: a consumer of a group, of the stream `key`, those that
/// were idle for `min_idle` milliseconds.
#[derive(Drop)]
pub struct Claimant<K, G, C> {
    pub key: K,
    pub group: G,
    pub consumer: C,
    pub min_idle: usize,
}

impl<L: ConnectionLike + Drop> ClusterClient<L> {
    /// Adds an entry of these fields, by `XADD`, and answers its id, or `None` where no stream is there
    /// and none is to be made.
    pub fn xadd<
        K: ToSingleRedisArg + Drop,
        I: ToSingleRedisArg + Drop,
        F: ToSingleRedisArg,
        V: ToSingleRedisArg,
    >(
        &mut self,
        alloc: Global,
        key: K,
        options: &StreamAddOptions,
        id: I,
        fields: &[(F, V)],
        strategy: Option<&dyn ReadRoutingStrategy>,
    ) -> Result<Option<String>, RedisError>
        ensures { StreamCallMade (strategy_of admits strategy.entry) (whole L.seen self.old)
            (whole L.seen self.new) (Xadd (K.arg key) options.now (I.arg id)
            (fields_by F.arg V.arg fields.now)) (λ id. Added (option_map string_bytes id)) result }
    {
        let cmd = commands::xadd(alloc, &key, options, &id, fields);
        self.reply_as(alloc, cmd, strategy)
    }

    /// Trims a stream, by `XTRIM`, and answers how many entries are gone.
    pub fn xtrim<K: ToSingleRedisArg + Drop>(
        &mut self,
        alloc: Global,
        key: K,
        options: &StreamTrimOptions,
        strategy: Option<&dyn ReadRoutingStrategy>,
    ) -> Result<usize, RedisError>
        ensures { StreamCallMade (strategy_of admits strategy.entry) (whole L.seen self.old)
            (whole L.seen self.new) (Xtrim (K.arg key) options.now) (λ n. Trimmed (pos n)) result }
    {
        let cmd = commands::xtrim(alloc, &key, options);
        self.reply_as(alloc, cmd, strategy)
    }

    /// Reads the entries behind an id of each stream, by `XREAD`, or by `XREADGROUP` where the options
    /// name a group.
    ///
    /// Streams of several slots are read in parts, one for each slot of their keys, where the options
    /// name no group and no block and no key stands twice. All parts find their nodes before the first
    /// byte. They are sent one after another, in the order in which their slots first appear, each
    /// behind its redirects; the first that is refused ends the call, and those before it were read. The
    /// rows then stand in the order of the call's keys. Where all keys have one slot they stand as the
    /// server sent them.
    ///
    /// It costs one round trip for each part, and one more for each redirect that is followed.
    ///
    /// # Errors
    /// Before all others, in this order: `NoKeys` where there is no stream; `SeveralSlots` where the keys
    /// have several slots, and the options name a group or a block or a key stands twice;
    /// `BadGroupName` where the name of the group or of the consumer is not one argument, or is
    /// `STREAMS` in any case. `UnexpectedReturnType` also where, of several parts, a row names no key of
    /// its part, or a key is named twice: it is told when all parts were answered.
    pub fn xread<K: ToSingleRedisArg, I: ToSingleRedisArg>(
        &mut self,
        alloc: Global,
        streams: &[(K, I)],
        options: &StreamReadOptions,
        strategy: Option<&dyn ReadRoutingStrategy>,
    ) -> Result<StreamReadReply, RedisError>
        ensures { StreamCallMade (strategy_of admits strategy.entry) (whole L.seen self.old)
            (whole L.seen self.new) (Xread (streams_by K.arg I.arg streams.now) options.now)
            (λ reply. Read (rows_view reply.keys.items)) result }
    {
        match reading_of(alloc, streams, options) {
            Ok(Reading::ByKey(streams)) => self.read_by_key(alloc, &streams, options, strategy),
            Ok(Reading::Whole) => {
                let cmd = commands::xread(alloc, streams, options);
                self.reply_as(alloc, cmd, strategy)
            }
            Ok(Reading::Refused(cause)) => Err(self.refuse(alloc, RedisError::from(cause))),
            Err(e) => Err(self.refuse(alloc, RedisError::from(e))),
        }
    }

    /// Reads the entries from one id to another, both among them, by `XRANGE`.
    pub fn xrange<
        K: ToSingleRedisArg + Drop,
        S: ToSingleRedisArg + Drop,
        E: ToSingleRedisArg + Drop,
    >(
        &mut self,
        alloc: Global,
        key: K,
        start: S,
        end: E,
        strategy: Option<&dyn ReadRoutingStrategy>,
    ) -> Result<StreamRangeReply, RedisError>
        ensures { StreamCallMade (strategy_of admits strategy.entry) (whole L.seen self.old)
            (whole L.seen self.new) (Xrange (K.arg key) (S.arg start) (E.arg end))
            (λ reply. Range (entries_view reply.ids.items)) result }
    {
        let cmd = commands::xrange(alloc, &key, &start, &end);
        self.reply_as(alloc, cmd, strategy)
    }

    /// Takes over pending entries that were idle for `min_idle` milliseconds, by `XCLAIM`.
    ///
    /// # Errors
    /// Before all others `ClaimsIdsAlone` where the options ask for the ids alone, of which the reply is
    /// no list of entries.
    pub fn xclaim<
        K: ToSingleRedisArg + Drop,
        G: ToSingleRedisArg + Drop,
        C: ToSingleRedisArg + Drop,
        I: ToSingleRedisArg,
    >(
        &mut self,
        alloc: Global,
        key: K,
        group: G,
        consumer: C,
        min_idle: usize,
        ids: &[I],
        options: &StreamClaimOptions,
        strategy: Option<&dyn ReadRoutingStrategy>,
    ) -> Result<StreamClaimReply, RedisError>
        ensures { StreamCallMade (strategy_of admits strategy.entry) (whole L.seen self.old)
            (whole L.seen self.new) (Xclaim (record
            { key = K.arg key; group = G.arg group; consumer = C.arg consumer; min_idle = min_idle })
            (map I.arg ids.now) options.now) (λ reply. Claim (entries_view reply.ids.items)) result }
    {
        if options.justid() {
            return Err(self.refuse(alloc, RedisError::from(Cause::ClaimsIdsAlone)));
        }
        let cmd = commands::xclaim(alloc, &key, &group, &consumer, min_idle, ids, options);
        self.reply_as(alloc, cmd, strategy)
    }

    /// Takes over pending entries from an id on that were idle for `min_idle` milliseconds, by
    /// `XAUTOCLAIM`.
    pub fn xautoclaim<
        K: ToSingleRedisArg + Drop,
        G: ToSingleRedisArg + Drop,
        C: ToSingleRedisArg + Drop,
        S: ToSingleRedisArg + Drop,
    >(
        &mut self,
        alloc: Global,
        key: K,
        group: G,
        consumer: C,
        min_idle: usize,
        start: S,
        options: &StreamAutoClaimOptions,
        strategy: Option<&dyn ReadRoutingStrategy>,
    ) -> Result<StreamAutoClaimReply, RedisError>
        ensures { StreamCallMade (strategy_of admits strategy.entry) (whole L.seen self.old)
            (whole L.seen self.new) (Xautoclaim (record
            { key = K.arg key; group = G.arg group; consumer = C.arg consumer; min_idle = min_idle })
            (S.arg start) options.now) (λ reply. AutoClaim (autoclaim_view reply)) result }
    {
        let cmd = commands::xautoclaim(alloc, &key, &group, &consumer, min_idle, &start, options);
        self.reply_as(alloc, cmd, strategy)
    }

    /// Asks how many entries of a group are pending, and for whom, by `XPENDING`.
    pub fn xpending<K: ToSingleRedisArg + Drop, G: ToSingleRedisArg + Drop>(
        &mut self,
        alloc: Global,
        key: K,
        group: G,
        strategy: Option<&dyn ReadRoutingStrategy>,
    ) -> Result<StreamPendingReply, RedisError>
        ensures { StreamCallMade (strategy_of admits strategy.entry) (whole L.seen self.old)
            (whole L.seen self.new) (Xpending (K.arg key) (G.arg group))
            (λ reply. Pending (pending_view reply)) result }
    {
        let cmd = commands::xpending(alloc, &key, &group);
        self.reply_as(alloc, cmd, strategy)
    }

    /// Asks about a stream, by `XINFO STREAM`.
    pub fn xinfo_stream<K: ToSingleRedisArg + Drop>(
        &mut self,
        alloc: Global,
        key: K,
        strategy: Option<&dyn ReadRoutingStrategy>,
    ) -> Result<StreamInfoStreamReply, RedisError>
        ensures { StreamCallMade (strategy_of admits strategy.entry) (whole L.seen self.old)
            (whole L.seen self.new) (XinfoStream (K.arg key))
            (λ reply. Stream (stream_info_view reply)) result }
    {
        let cmd = commands::xinfo_stream(alloc, &key);
        self.reply_as(alloc, cmd, strategy)
    }

    /// Asks about the groups of a stream, by `XINFO GROUPS`.
    pub fn xinfo_groups<K: ToSingleRedisArg + Drop>(
        &mut self,
        alloc: Global,
        key: K,
        strategy: Option<&dyn ReadRoutingStrategy>,
    ) -> Result<StreamInfoGroupsReply, RedisError>
        ensures { StreamCallMade (strategy_of admits strategy.entry) (whole L.seen self.old)
            (whole L.seen self.new) (XinfoGroups (K.arg key))
            (λ reply. Groups (map group_view reply.groups.items)) result }
    {
        let cmd = commands::xinfo_groups(alloc, &key);
        self.reply_as(alloc, cmd, strategy)
    }

    /// Asks about the consumers of a group, by `XINFO CONSUMERS`.
    pub fn xinfo_consumers<K: ToSingleRedisArg + Drop, G: ToSingleRedisArg + Drop>(
        &mut self,
        alloc: Global,
        key: K,
        group: G,
        strategy: Option<&dyn ReadRoutingStrategy>,
    ) -> Result<StreamInfoConsumersReply, RedisError>
        ensures { StreamCallMade (strategy_of admits strategy.entry) (whole L.seen self.old)
            (whole L.seen self.new) (XinfoConsumers (K.arg key) (G.arg group))
            (λ reply. Consumers (map consumer_view reply.consumers.items)) result }
    {
        let cmd = commands::xinfo_consumers(alloc, &key, &group);
        self.reply_as(alloc, cmd, strategy)
    }

    /// Deletes entries, by `XDELEX`, and answers what became of each.
    pub fn xdel_ex<K: ToSingleRedisArg + Drop, I: ToSingleRedisArg>(
        &mut self,
        alloc: Global,
        key: K,
        ids: &[I],
        policy: StreamDeletionPolicy,
        strategy: Option<&dyn ReadRoutingStrategy>,
    ) -> Result<Vec<XDelExStatusCode>, RedisError>
        ensures { StreamCallMade (strategy_of admits strategy.entry) (whole L.seen self.old)
            (whole L.seen self.new) (XdelEx (K.arg key) (map I.arg ids.now) policy)
            (λ codes. Deleted (map deletion_of codes.items)) result }
    {
        let cmd = commands::xdel_ex(alloc, &key, ids, &policy);
        self.reply_as(alloc, cmd, strategy)
    }

    /// The reply to a command, read as a `T`.
    fn reply_as<T: FromRedisValue>(
        &mut self,
        alloc: Global,
        cmd: Result<Cmd, AllocError>,
        strategy: Option<&dyn ReadRoutingStrategy>,
    ) -> Result<T, RedisError>
        ensures { (call : StreamCall) (shown : T.Meaning → Answer) → GoesOutAs call cmd
            → IsReadBy call T.convert shown → StreamCallMade (strategy_of admits strategy.entry)
            (whole L.seen self.old) (whole L.seen self.new) call (λ v. shown (T.meaning v)) result }
    {
        match cmd {
            Ok(cmd) => {
                let call = CommandCall {
                    command: &cmd,
                    direction: None,
                    order: None,
                    number: 0,
                };
                let reply = self.reply_to(alloc, &call, strategy)?;
                Ok(from_redis_value(alloc, reply)?)
            }
            Err(e) => Err(self.refuse(alloc, RedisError::from(e))),
        }
    }

    /// A call that is refused before any node is looked for; it asked and picked nothing.
    fn refuse(&mut self, alloc: Global, refusal: RedisError) -> RedisError
        ensures same { result ≡ refusal }
        ensures stays { whole L.seen self.new ≡ with_log (whole L.seen self.old) [] [] }
    {
        begin(alloc, &mut self.asked, &mut self.picked);
        refusal
    }
}
