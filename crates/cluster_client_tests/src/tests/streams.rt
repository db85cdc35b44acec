//! Calls on streams: each sends its command, and answers its record.
use clients_for_tests::*;
use cluster_client::*;
use std::alloc::Global;
use std::test::Fail;

/// All slots at n1:7001, then a reply to each call of `answer` in turn.
const REPLIES: &[u8] =
    b"*1\r\n*3\r\n:0\r\n:16383\r\n*2\r\n$2\r\nn1\r\n:7001\r\n$3\r\n5-0\r\n:2\r\n*1\r\n*2\r\n$1\r\na\r\n*1\r\n*4\r\n$3\r\n1-0\r\n*2\r\n$1\r\nf\r\n$1\r\nv\r\n:5\r\n:1\r\n*1\r\n*2\r\n$3\r\n1-0\r\n*2\r\n$1\r\nf\r\n$1\r\nv\r\n*1\r\n*2\r\n$3\r\n1-0\r\n*2\r\n$1\r\nf\r\n$1\r\nv\r\n*3\r\n$3\r\n0-0\r\n*1\r\n*2\r\n$3\r\n1-0\r\n*2\r\n$1\r\nf\r\n$1\r\nv\r\n*0\r\n*4\r\n:1\r\n$3\r\n1-0\r\n$3\r\n1-0\r\n*1\r\n*2\r\n$1\r\nc\r\n$1\r\n1\r\n*4\r\n$6\r\nlength\r\n:1\r\n$6\r\ngroups\r\n:2\r\n*1\r\n*4\r\n$4\r\nname\r\n$1\r\ng\r\n$7\r\npending\r\n:1\r\n*1\r\n*6\r\n$4\r\nname\r\n$1\r\nc\r\n$7\r\npending\r\n:1\r\n$4\r\nidle\r\n:5\r\n*2\r\n:1\r\n:-1\r\n";

/// What the calls answer.
const ANSWERS: [&str; 11] = [
    "Some(\"5-0\")",
    "2",
    "StreamReadReply { keys: [StreamKey { key: \"a\", ids: [StreamId { id: \"1-0\", map: {\"f\": BulkString([118])}, milliseconds_elapsed_from_delivery: Some(5), delivered_count: Some(1) }] }] }",
    "StreamRangeReply { ids: [StreamId { id: \"1-0\", map: {\"f\": BulkString([118])}, milliseconds_elapsed_from_delivery: None, delivered_count: None }] }",
    "StreamClaimReply { ids: [StreamId { id: \"1-0\", map: {\"f\": BulkString([118])}, milliseconds_elapsed_from_delivery: None, delivered_count: None }] }",
    "StreamAutoClaimReply { next_stream_id: \"0-0\", claimed: [StreamId { id: \"1-0\", map: {\"f\": BulkString([118])}, milliseconds_elapsed_from_delivery: None, delivered_count: None }], deleted_ids: [], invalid_entries: false }",
    "Data(StreamPendingData { count: 1, start_id: \"1-0\", end_id: \"1-0\", consumers: [StreamInfoConsumer { name: \"c\", pending: 1, idle: 0 }] })",
    "StreamInfoStreamReply { last_generated_id: \"\", radix_tree_keys: 0, groups: 2, length: 1, first_entry: StreamId { id: \"\", map: {}, milliseconds_elapsed_from_delivery: None, delivered_count: None }, last_entry: StreamId { id: \"\", map: {}, milliseconds_elapsed_from_delivery: None, delivered_count: None } }",
    "StreamInfoGroupsReply { groups: [StreamInfoGroup { name: \"g\", consumers: 0, pending: 1, last_delivered_id: \"\", entries_read: None, lag: None }] }",
    "StreamInfoConsumersReply { consumers: [StreamInfoConsumer { name: \"c\", pending: 1, idle: 5 }] }",
    "[Deleted, IdNotFound]",
];

/// What the calls send, each as its arguments with a space between two.
const SENT: [&str; 11] = [
    "XADD a NOMKSTREAM MAXLEN ~ 10 * f v",
    "XTRIM a MAXLEN = 2",
    "XREADGROUP GROUP g c STREAMS a >",
    "XRANGE a - +",
    "XCLAIM a g c 60000 1-0",
    "XAUTOCLAIM a g c 60000 0-0",
    "XPENDING a g",
    "XINFO STREAM a",
    "XINFO GROUPS a",
    "XINFO CONSUMERS a g",
    "XDELEX a KEEPREF IDS 2 1-0 2-0",
];

fn xtrim(alloc: Global, client: &mut Client) -> Result<String, RedisError> {
    let options = StreamTrimOptions::maxlen(StreamTrimmingMode::Exact, 2);
    shown(alloc, client.xtrim(alloc, "a", &options, None))
}

fn xclaim(alloc: Global, client: &mut Client) -> Result<String, RedisError> {
    let options = StreamClaimOptions::empty();
    let outcome = client.xclaim(alloc, "a", "g", "c", 60000, &["1-0"], &options, None);
    shown(alloc, outcome)
}

fn xautoclaim(alloc: Global, client: &mut Client) -> Result<String, RedisError> {
    let options = StreamAutoClaimOptions::default();
    let outcome = client.xautoclaim(alloc, "a", "g", "c", 60000, "0-0", &options, None);
    shown(alloc, outcome)
}

fn xdel_ex(alloc: Global, client: &mut Client) -> Result<String, RedisError> {
    let policy = StreamDeletionPolicy::KeepRef;
    shown(
        alloc,
        client.xdel_ex(alloc, "a", &["1-0", "2-0"], policy, None),
    )
}

fn answer(alloc: Global, client: &mut Client, which: usize) -> Result<String, RedisError> {
    match which {
        0 => xadd(alloc, client),
        1 => xtrim(alloc, client),
        2 => xread(alloc, client),
        3 => shown(alloc, client.xrange(alloc, "a", "-", "+", None)),
        4 => xclaim(alloc, client),
        5 => xautoclaim(alloc, client),
        6 => shown(alloc, client.xpending(alloc, "a", "g", None)),
        7 => shown(alloc, client.xinfo_stream(alloc, "a", None)),
        8 => shown(alloc, client.xinfo_groups(alloc, "a", None)),
        9 => shown(alloc, client.xinfo_consumers(alloc, "a", "g", None)),
        _ => xdel_ex(alloc, client),
    }
}

/// The arguments of the last call's only request.
fn asked(alloc: Global, client: &Client) -> Result<Vec<u8>, RedisError> {
    let mut text: Vec<u8> = Vec::new(alloc);
    if let [only] = client.asked() {
        for arg in only.args.iter() {
            if !text.is_empty() {
                text.push(b' ')?;
            }
            text.extend_from_slice(arg.as_slice())?;
        }
    }
    Ok(text)
}

fn client(alloc: Global) -> Result<Client, RedisError> {
    let mut links = Vec::new(alloc);
    add_link(alloc, &mut links, "n1:7001", REPLIES)?;
    refreshed(alloc, ClusterClient::new(alloc, links, Vec::new(alloc), 1)?)
}

#[test]
fn each_call_sends_its_command_and_answers_its_record(rt: HostRuntime) -> Result<(), Fail> {
    let alloc = rt.alloc();
    let mut client = client(alloc)?;
    for which in 0..11 {
        let text = answer(alloc, &mut client, which)?;
        assert_eq!(rt; text.as_str(), ANSWERS[which]);
        let sent = asked(alloc, &client)?;
        assert_eq!(rt; sent.as_slice(), SENT[which].as_bytes());
    }
    Ok(())
}

/// The causes of the refusals, of which each call has one.
const CAUSES: [Cause; 5] = [
    Cause::NoKeys,
    Cause::BadGroupName,
    Cause::SeveralSlots,
    Cause::SeveralSlots,
    Cause::ClaimsIdsAlone,
];

/// The cause of the refusal of a call that is to be refused: a read of no stream, one by a group whose
/// name is the word `STREAMS`, one by a group and one that blocks over several slots, and a claim of ids
/// alone.
fn refusal(alloc: Global, client: &mut Client, which: usize) -> Option<Cause> {
    let outcome = match which {
        0 => read_of_nothing(alloc, client),
        1 => read_by_streams(alloc, client),
        2 => read_by_group_over_slots(alloc, client),
        3 => read_that_blocks_over_slots(alloc, client),
        _ => claim_of_ids(alloc, client),
    };
    match outcome {
        Ok(_) => None,
        Err(e) => e.cause(),
    }
}

fn read_of_nothing(alloc: Global, client: &mut Client) -> Result<String, RedisError> {
    let none: &[(&str, &str)] = &[];
    shown(
        alloc,
        client.xread(alloc, none, &StreamReadOptions::empty(), None),
    )
}

fn read_by_streams(alloc: Global, client: &mut Client) -> Result<String, RedisError> {
    let options = StreamReadOptions::empty().group(alloc, "streams", "c")?;
    shown(alloc, client.xread(alloc, &[("a", ">")], &options, None))
}

fn read_by_group_over_slots(alloc: Global, client: &mut Client) -> Result<String, RedisError> {
    let options = StreamReadOptions::empty().group(alloc, "g", "c")?;
    let streams = [("a", ">"), ("b", ">")];
    shown(alloc, client.xread(alloc, &streams, &options, None))
}

fn read_that_blocks_over_slots(alloc: Global, client: &mut Client) -> Result<String, RedisError> {
    let options = StreamReadOptions::empty().block(0);
    let streams = [("a", "0"), ("b", "0")];
    shown(alloc, client.xread(alloc, &streams, &options, None))
}

fn claim_of_ids(alloc: Global, client: &mut Client) -> Result<String, RedisError> {
    let options = StreamClaimOptions::empty().with_justid();
    let outcome = client.xclaim(alloc, "a", "g", "c", 60000, &["1-0"], &options, None);
    shown(alloc, outcome)
}

#[test]
fn calls_that_are_refused_send_nothing(rt: HostRuntime) -> Result<(), Fail> {
    let alloc = rt.alloc();
    let mut client = client(alloc)?;
    for which in 0..5 {
        assert_eq!(rt; refusal(alloc, &mut client, which), Some(CAUSES[which]));
        assert!(rt; client.asked().is_empty());
    }
    Ok(())
}
