//! One request for memory is refused, whichever: `tools/refused-tests` plays each test once for each.
//!
//! A client of many nodes keeps a table of their addresses, and does without where that lacks memory.
//!
//! A test prints a line `refused CALL` where a call is refused, sees what the client then tells of itself
//! and what later calls answer, and ends; no further call may be refused.
use crate::tests::failing::{bytes_from, number_in, push_asked, pushes_at, refreshed, told_later};
use crate::tests::rows::{COUNTED, Row, TRANSACTION, row_at};
use clients_for_tests::*;
use cluster_client::*;
use refusals_for_tests::again;
use std::alloc::{AllocError, Global};
use std::io::Print;
use std::process::Abort;
use std::test::Fail;

/// What a test's calls are made of, so that they ask for no memory but their own.
#[derive(Drop)]
struct Words {
    n1: NodeAddress,
    dbsize: Cmd,
    get: Cmd,
    group: StreamReadOptions,
}

fn make_words(alloc: Global) -> Result<Words, RedisError> {
    Ok(Words {
        n1: node(alloc, "n1:7001")?,
        dbsize: command::cmd(alloc, "DBSIZE")?,
        get: get_a(alloc)?,
        group: StreamReadOptions::empty().group(alloc, "g", "c")?,
    })
}

/// States of a client, each with what later calls answer.
type States = &'static [(&'static str, &'static str)];

/// A call behind a refresh: its name, the state that is wanted, and those of which one stands where it was refused.
#[derive(Drop)]
struct Told {
    call: &'static str,
    wanted: &'static str,
    refused: States,
}

/// Where the refresh was refused.
const NOT_REFRESHED: States = &[
    ("-17, -7, false 0 0 0 0 0", "-7, -7, 0, 0"),
    ("-17, -7, false 0 0 0 28! 0", "-7, -7, 8, 0"),
    ("-17, -7, false 0 0 0 28 0", "-7, -7, 0, 0"),
    ("-14, -7, false 0 0 0 0! 0", "-7, -7, 8, 0"),
];

/// The same of a client with replicas.
const REPLICAS_NOT_REFRESHED: States = &[
    ("-17, -7, false 0 0 0 0 0 0", "-7, -7, 0"),
    ("-17, -7, false 0 0 0 28! 0 0", "-7, -7, 8"),
    ("-17, -7, false 0 0 0 28 0 0", "-7, -7, 0"),
    ("-14, -7, false 0 0 0 0! 0 0", "-7, -7, 8"),
];

/// A client that was refreshed, and the answer to that.
#[derive(Drop)]
struct Begun {
    client: Client,
    has_replicas: bool,
    words: Words,
    first: i64,
}

fn begin<R: Print>(
    rt: &R,
    alloc: Global,
    mut client: Client,
    has_replicas: bool,
) -> Result<Begun, Fail> {
    let words = again(rt, "words", || make_words(alloc))?;
    let first = refresh(alloc, &mut client, &words);
    Ok(Begun {
        client,
        has_replicas,
        words,
        first,
    })
}

fn begin_row<R: Print>(rt: &R, alloc: Global, row: &Row) -> Result<Begun, Fail> {
    let client = again(rt, "client", || client_of(alloc, row))?;
    begin(rt, alloc, client, false)
}

/// A client over links from which a row's bytes come.
fn client_of(alloc: Global, row: &Row) -> Result<Client, RedisError> {
    let n1 = bytes_from(alloc, row, true)?;
    let n2 = bytes_from(alloc, row, false)?;
    client_of_two(alloc, &n1, &n2, row.budget)
}

/// The number of a refusal below zero; 1 where there is an answer, and it is the one that is wanted.
fn is_text(outcome: Result<String, RedisError>, wanted: &str) -> i64 {
    match outcome {
        Ok(text) => i64::from(text.as_str() == wanted),
        Err(e) => 0 - i64::from(e.number()),
    }
}

fn refresh(alloc: Global, client: &mut Client, words: &Words) -> i64 {
    match client.refresh(alloc, &words.n1) {
        Ok(_) => 0,
        Err(e) => 0 - i64::from(e.number()),
    }
}

/// What the client tells of itself behind two calls: whether a refresh is needed, the numbers of picks and
/// of pushes at n1:7001 and n2:7002, how many bytes went out over each link, with `!` behind that of a
/// closed one, and the log.
fn state(alloc: Global, begun: &Begun, second: i64) -> Result<String, RedisError> {
    let (client, first) = (&begun.client, begun.first);
    let flag = client.needs_refresh();
    let picks = client.picked().len();
    let n1 = pushes_at(alloc, client, "n1:7001")?;
    let n2 = pushes_at(alloc, client, "n2:7002")?;
    let mut text = format!(in alloc; "{first}, {second}, {flag} {picks} {n1} {n2}")?;
    for (_, link) in client.links() {
        let sent = link.writer().written().len();
        let closed = if link.is_open() { "" } else { "!" };
        text.push_str(format!(in alloc; " {sent}{closed}")?.as_str())?;
    }
    for asked in client.asked() {
        push_asked(&mut text, asked)?;
    }
    Ok(text)
}

/// Tells which call was refused, where one was.
fn tells_refused<R: Print>(rt: &R, first: i64, second: i64, call: &str) -> Result<bool, Fail> {
    if first < 0 {
        println!(rt; "refused refresh")?;
    } else if second < 0 {
        println!(rt; "refused {call}")?;
    }
    Ok(first < 0 || second < 0)
}

/// Whether the state and the later answers are one of these pairs; else the first of them is wanted.
fn is_among<R: Abort>(rt: &R, texts: States, state: &str, later: &str) {
    let mut is_there = false;
    for text in texts {
        is_there = is_there || text.0 == state && text.1 == later;
    }
    if !is_there {
        match texts.first() {
            Some(first) => {
                assert_eq!(rt; state, first.0);
                assert_eq!(rt; later, first.1);
            }
            None => assert!(rt; false, "no state is wanted"),
        }
    }
}

/// The states of which one stands where the refresh or the call was refused.
fn refused_states(begun: &Begun, told: &Told) -> States {
    if begun.first >= 0 {
        told.refused
    } else if begun.has_replicas {
        REPLICAS_NOT_REFRESHED
    } else {
        NOT_REFRESHED
    }
}

fn later(alloc: Global, begun: &mut Begun) -> Result<String, RedisError> {
    if begun.has_replicas {
        later_reads(alloc, &mut begun.client)
    } else {
        told_later(alloc, &mut begun.client)
    }
}

/// Sees what stands behind two calls: all that was wanted, or, where one of them was refused, one of
/// these states with its later answers.
fn sees<R: Abort + Print>(
    rt: &R,
    alloc: Global,
    begun: &mut Begun,
    second: i64,
    told: &Told,
) -> Result<(), Fail> {
    let is_refused = tells_refused(rt, begun.first, second, told.call)?;
    let state = again(rt, "format", || state(alloc, begun, second))?;
    if is_refused {
        let later = later(alloc, begun)?;
        is_among(
            rt,
            refused_states(begun, told),
            state.as_str(),
            later.as_str(),
        );
    } else {
        assert_eq!(rt; state.as_str(), told.wanted);
    }
    Ok(())
}

/// An addition, a push before its reply: refused before the request was written down, by a writer without
/// room, with the link closed, and behind the reply.
const ADDITION: Told = Told {
    call: "xadd",
    wanted: "0, 1, false 0 0 1 28 86, n2 XADD a NOMKSTREAM MAXLEN ~ 10 * f v",
    refused: &[
        ("0, -17, false 0 0 0 28 0", "-16, 6, 0, 0"),
        (
            "0, -14, false 0 0 0 28 0!, n2 XADD a NOMKSTREAM MAXLEN ~ 10 * f v",
            "-8, 6, 0, 8",
        ),
        (
            "0, -17, false 0 0 0 28 86!, n2 XADD a NOMKSTREAM MAXLEN ~ 10 * f v",
            "-8, 6, 0, 8",
        ),
        (
            "0, -17, false 0 0 1 28 86!, n2 XADD a NOMKSTREAM MAXLEN ~ 10 * f v",
            "-8, 6, 0, 8",
        ),
        (
            "0, -17, false 0 0 1 28 86, n2 XADD a NOMKSTREAM MAXLEN ~ 10 * f v",
            "5, 6, 0, 0",
        ),
    ],
};

#[test]
fn addition(rt: HostRuntime) -> Result<(), Fail> {
    let alloc = rt.alloc();
    let mut begun = begin_row(&rt, alloc, &row_at(0))?;
    let second = is_text(xadd(alloc, &mut begun.client), "Some(\"5-0\")");
    sees(&rt, alloc, &mut begun, second, &ADDITION)
}

/// The same of a read by a group.
const READ: Told = Told {
    call: "xread",
    wanted: "0, 1, false 0 0 0 28 73, n2 XREADGROUP GROUP g c STREAMS a >",
    refused: &[
        ("0, -17, false 0 0 0 28 0", "-16, 6, 0, 0"),
        (
            "0, -14, false 0 0 0 28 0!, n2 XREADGROUP GROUP g c STREAMS a >",
            "-8, 6, 0, 8",
        ),
        (
            "0, -17, false 0 0 0 28 73!, n2 XREADGROUP GROUP g c STREAMS a >",
            "-8, 6, 0, 8",
        ),
        (
            "0, -17, false 0 0 0 28 73, n2 XREADGROUP GROUP g c STREAMS a >",
            "5, 6, 0, 0",
        ),
    ],
};

const ONE_ENTRY: &str =
    "StreamReadReply { keys: [StreamKey { key: \"a\", ids: [StreamId { id: \"1-0\", map: {\"f\": BulkString([118])}, milliseconds_elapsed_from_delivery: Some(5), delivered_count: Some(1) }] }] }";

const TWO_ENTRIES: &str =
    "StreamReadReply { keys: [StreamKey { key: \"a\", ids: [StreamId { id: \"1-0\", map: {\"f\": BulkString([118])}, milliseconds_elapsed_from_delivery: None, delivered_count: None }, StreamId { id: \"5\", map: {}, milliseconds_elapsed_from_delivery: None, delivered_count: None }] }] }";

fn reads<R: Abort + Print>(rt: &R, alloc: Global, row: &Row, text: &str) -> Result<(), Fail> {
    let mut begun = begin_row(rt, alloc, row)?;
    let group = &begun.words.group;
    let read = begun.client.xread(alloc, &[("a", ">")], group, None);
    let second = is_text(shown(alloc, read), text);
    sees(rt, alloc, &mut begun, second, &READ)
}

#[test]
fn read_of_one_entry(rt: HostRuntime) -> Result<(), Fail> {
    reads(&rt, rt.alloc(), &row_at(1), ONE_ENTRY)
}

#[test]
fn read_of_two_entries(rt: HostRuntime) -> Result<(), Fail> {
    reads(&rt, rt.alloc(), &row_at(2), TWO_ENTRIES)
}

/// A command to both nodes. A writer without room does not stop it, and want of memory does; with one
/// reply taken the next node is asked, since what that takes was there before the first byte.
const FAN_OUT: Told = Told {
    call: "fan_out",
    wanted: "0, 7, false 0 0 0 44 16, n1 DBSIZE, n2 DBSIZE",
    refused: &[
        ("0, -17, false 0 0 0 28 0", "4, 3, 0, 0"),
        (
            "0, -14, false 0 0 0 28! 16, n1 DBSIZE, n2 DBSIZE",
            "5, -8, 8, 0",
        ),
        ("0, -17, false 0 0 0 44! 0, n1 DBSIZE", "4, -8, 8, 0"),
        (
            "0, -14, false 0 0 0 44 0!, n1 DBSIZE, n2 DBSIZE",
            "-8, 6, 0, 8",
        ),
        (
            "0, -17, false 0 0 0 44 16!, n1 DBSIZE, n2 DBSIZE",
            "-8, 6, 0, 8",
        ),
        (
            "0, -17, false 0 0 0 44 16, n1 DBSIZE, n2 DBSIZE",
            "5, 6, 0, 0",
        ),
    ],
};

/// The map of both halves, then what each node has left: a number for the command, and one more.
fn counted() -> Row {
    let mut row = row_at(0);
    row.phases = &COUNTED;
    row
}

fn number_of(outcome: Result<Value, RedisError>) -> i64 {
    match outcome {
        Ok(Value::Int(number)) => number,
        Ok(_) => 0,
        Err(e) => 0 - i64::from(e.number()),
    }
}

#[test]
fn fan_out(rt: HostRuntime) -> Result<(), Fail> {
    let alloc = rt.alloc();
    let mut begun = begin_row(&rt, alloc, &counted())?;
    let second = number_of(begun.client.fan_out(alloc, &begun.words.dbsize));
    sees(&rt, alloc, &mut begun, second, &FAN_OUT)
}

/// A pipeline over both nodes that tells of each position: refused before its first byte, by a writer
/// without room, and in the link call of a node. What is told is written as digits behind a 1, two for
/// each position: 0 of a number, else the number of its refusal.
const EACH: Told = Told {
    call: "query_each",
    wanted: "0, 1, false 0 0 0 48 20, n1 GET b, n2 GET a",
    refused: &[
        ("0, -17, false 0 0 0 28 0", "4, 3, 0, 0"),
        (
            "0, -11400, false 0 0 0 28! 20, n1 GET b, n2 GET a",
            "5, -8, 8, 0",
        ),
        (
            "0, -11700, false 0 0 0 48! 20, n1 GET b, n2 GET a",
            "5, -8, 8, 0",
        ),
        (
            "0, -10014, false 0 0 0 48 0!, n1 GET b, n2 GET a",
            "-8, 6, 0, 8",
        ),
        (
            "0, -10017, false 0 0 0 48 20!, n1 GET b, n2 GET a",
            "-8, 6, 0, 8",
        ),
    ],
};

/// The same of one command with a part at each node, whose one outcome is that of the link that was refused.
const IN_PARTS: Told = Told {
    call: "query_each",
    wanted: "0, 1, false 0 0 0 48 20, n1 DEL b, n2 DEL a",
    refused: &[
        ("0, -17, false 0 0 0 28 0", "4, 3, 0, 0"),
        (
            "0, -114, false 0 0 0 28! 20, n1 DEL b, n2 DEL a",
            "5, -8, 8, 0",
        ),
        (
            "0, -117, false 0 0 0 48! 20, n1 DEL b, n2 DEL a",
            "5, -8, 8, 0",
        ),
        (
            "0, -114, false 0 0 0 48 0!, n1 DEL b, n2 DEL a",
            "-8, 6, 0, 8",
        ),
        (
            "0, -117, false 0 0 0 48 20!, n1 DEL b, n2 DEL a",
            "-8, 6, 0, 8",
        ),
    ],
};

/// `GET b`, `GET a`; or `DEL b a`.
fn pipeline_of(alloc: Global, is_in_parts: bool) -> Result<ClusterPipeline, AllocError> {
    let mut pipeline = cluster_pipe(alloc);
    if is_in_parts {
        pipeline.cmd(alloc, "DEL")?;
        pipeline.arg("b")?;
        pipeline.arg("a")?;
    } else {
        pipeline.cmd(alloc, "GET")?;
        pipeline.arg("b")?;
        pipeline.add_command(get_a(alloc)?)?;
    }
    Ok(pipeline)
}

/// Of outcomes that are numbers these two digits behind one another, and 1 where they are 3 and 4, or 7
/// alone; else what is told, below zero.
fn digits_in(outcomes: &[Result<Value, RedisError>]) -> i64 {
    match outcomes {
        [Ok(Value::Int(3)), Ok(Value::Int(4))] => 1,
        [Ok(Value::Int(7))] => 1,
        [first, second] => {
            0 - 10000 - i64::from(number_told(first)) * 100 - i64::from(number_told(second))
        }
        [only] => 0 - 100 - i64::from(number_told(only)),
        _ => 0,
    }
}

fn number_told(outcome: &Result<Value, RedisError>) -> u8 {
    match outcome {
        Ok(_) => 0,
        Err(e) => e.number(),
    }
}

fn each_told(outcome: Result<Vec<Result<Value, RedisError>>, RedisError>) -> i64 {
    match outcome {
        Ok(outcomes) => digits_in(&outcomes),
        Err(e) => 0 - i64::from(e.number()),
    }
}

fn tells_each<R: Abort + Print>(
    rt: &R,
    alloc: Global,
    is_in_parts: bool,
    told: &Told,
) -> Result<(), Fail> {
    let pipeline = again(rt, "pipeline", || pipeline_of(alloc, is_in_parts))?;
    let mut begun = begin_row(rt, alloc, &counted())?;
    let second = each_told(pipeline.query_each(alloc, &mut begun.client));
    sees(rt, alloc, &mut begun, second, told)
}

#[test]
fn each_position(rt: HostRuntime) -> Result<(), Fail> {
    tells_each(&rt, rt.alloc(), false, &EACH)
}

#[test]
fn a_position_in_parts(rt: HostRuntime) -> Result<(), Fail> {
    tells_each(&rt, rt.alloc(), true, &IN_PARTS)
}

/// A transaction that is moved. Behind the replies of n1:7001 the second attempt is made ready, and memory may
/// lack for it; the flag is raised then.
const TRANSACTED: Told = Told {
    call: "transaction",
    wanted: "0, 1, true 0 0 0 77 49, n1 MULTI, n1 GET a, n1 EXEC, n2 MULTI, n2 GET a, n2 EXEC",
    refused: &[
        ("0, -17, false 0 0 0 28 0", "-16, -16, 13, 0"),
        (
            "0, -14, false 0 0 0 28! 0, n1 MULTI, n1 GET a, n1 EXEC",
            "-8, -8, 8, 0",
        ),
        (
            "0, -17, false 0 0 0 77! 0, n1 MULTI, n1 GET a, n1 EXEC",
            "-8, -8, 8, 0",
        ),
        (
            "0, -17, true 0 0 0 77 0, n1 MULTI, n1 GET a, n1 EXEC",
            "6, 7, 0, 0",
        ),
        (
            "0, -14, true 0 0 0 77 0!, n1 MULTI, n1 GET a, n1 EXEC, n2 MULTI, n2 GET a, n2 EXEC",
            "6, 7, 0, 8",
        ),
        (
            "0, -17, true 0 0 0 77 49!, n1 MULTI, n1 GET a, n1 EXEC, n2 MULTI, n2 GET a, n2 EXEC",
            "6, 7, 0, 8",
        ),
        (
            "0, -17, true 0 0 0 77 49, n1 MULTI, n1 GET a, n1 EXEC, n2 MULTI, n2 GET a, n2 EXEC",
            "6, 7, 0, 0",
        ),
    ],
};

fn transacted() -> Row {
    let mut row = row_at(3);
    row.phases = &TRANSACTION;
    row
}

fn transaction_of(alloc: Global) -> Result<Vec<Cmd>, AllocError> {
    let mut commands = Vec::new(alloc);
    commands.push(get_a(alloc)?)?;
    Ok(commands)
}

/// 1 for the one reply 4, or the number of a refusal below zero.
fn is_four(outcome: Result<Vec<i64>, RedisError>) -> i64 {
    match outcome {
        Ok(numbers) => i64::from(numbers.as_slice() == [4].as_slice()),
        Err(e) => 0 - i64::from(e.number()),
    }
}

#[test]
fn transaction(rt: HostRuntime) -> Result<(), Fail> {
    let alloc = rt.alloc();
    let commands = again(&rt, "commands", || transaction_of(alloc))?;
    let mut begun = begin_row(&rt, alloc, &transacted())?;
    let second = is_four(begun.client.transaction(alloc, &commands));
    sees(&rt, alloc, &mut begun, second, &TRANSACTED)
}

/// A read that goes to the replica n3:7003, which a strategy picks. No pick is shown where the request was
/// not written down.
const PICKED: Told = Told {
    call: "query",
    wanted: "0, 3, false 1 0 0 28 20 0, n3 GET a",
    refused: &[
        ("0, -17, false 0 0 0 28 0 0", "1, 3, 14"),
        ("0, -14, false 1 0 0 28 0! 0, n3 GET a", "1, -8, 14"),
        ("0, -17, false 1 0 0 28 20! 0, n3 GET a", "1, -8, 14"),
        ("0, -17, false 1 0 0 28 20 0, n3 GET a", "1, 4, 14"),
    ],
};

fn replicas(alloc: Global) -> Result<Client, RedisError> {
    client_of_replicas(alloc, WITH_REPLICAS, b":3\r\n:4\r\n", b"")
}

/// What `GET a` answers at the primary and at the replica, and then a refresh.
fn later_reads(alloc: Global, client: &mut Client) -> Result<String, RedisError> {
    let primary = number_in(number_at_a(alloc, client, None));
    let replica = number_in(number_at_a(alloc, client, Some(&Nth::new(0))));
    let n1 = refreshed(alloc, client, "n1:7001")?;
    Ok(format!(in alloc; "{primary}, {replica}, {n1}")?)
}

#[test]
fn picked_read(rt: HostRuntime) -> Result<(), Fail> {
    let alloc = rt.alloc();
    let client = again(&rt, "client", || replicas(alloc))?;
    let mut begun = begin(&rt, alloc, client, true)?;
    let strategy = Nth::new(0);
    let answer = begun
        .client
        .query(alloc, &begun.words.get, 0, Some(&strategy));
    let second = number_in(answer);
    sees(&rt, alloc, &mut begun, second, &PICKED)
}

/// How many nodes have no link, which is one.
fn counts_unlinked<R: Abort + Print>(rt: &R, alloc: Global, client: &Client) -> Result<(), Fail> {
    let nodes = again(rt, "unlinked", || client.unlinked(alloc))?;
    assert_eq!(rt; nodes.len(), 1);
    Ok(())
}

fn end(alloc: Global) -> Result<(NodeAddress, Link), RedisError> {
    Ok((node(alloc, "n2:7002")?, link(alloc, b":5\r\n")?))
}

/// Puts a link to n2:7002, where there was none; a refused one leaves the client as it was.
fn links_once<R: Abort + Print>(rt: &R, alloc: Global, client: &mut Client) -> Result<(), Fail> {
    let (node, link) = again(rt, "link", || end(alloc))?;
    match client.set_link(node, link) {
        Ok(old) => assert!(rt; old.is_none()),
        Err(_) => {
            println!(rt; "refused set_link")?;
            assert_eq!(rt; client.links().len(), 1);
            assert_eq!(rt; client.unlinked(alloc)?.len(), 1);
            let (node, link) = end(alloc)?;
            assert!(rt; client.set_link(node, link)?.is_none());
        }
    }
    Ok(())
}

#[test]
fn new_link(rt: HostRuntime) -> Result<(), Fail> {
    let alloc = rt.alloc();
    let mut client = again(&rt, "client", || client_of_halves(alloc))?;
    counts_unlinked(&rt, alloc, &client)?;
    links_once(&rt, alloc, &mut client)?;
    assert_eq!(rt; client.links().len(), 2);
    Ok(())
}

/// A node of this port, and a link to it.
fn numbered(alloc: Global, port: u16) -> Result<(NodeAddress, Link), RedisError> {
    let address = format!(in alloc; "n:{port}")?;
    Ok((node(alloc, address.as_str())?, link(alloc, b"")?))
}

/// A client of ten nodes, which are more than are looked through.
fn many(alloc: Global) -> Result<Client, RedisError> {
    let mut links: Links = Vec::new(alloc);
    for port in 1..11 {
        links.push(numbered(alloc, port)?)?;
    }
    ClusterClient::new(alloc, links, Vec::new(alloc), 1)
}

/// Puts a link to an eleventh node; a refused one leaves the ten.
fn links_eleventh(alloc: Global, client: &mut Client) -> Result<bool, RedisError> {
    let (node, link) = numbered(alloc, 11)?;
    Ok(client.set_link(node, link)?.is_none())
}

fn links_eleventh_again<R: Abort + Print>(
    rt: &R,
    alloc: Global,
    client: &mut Client,
) -> Result<(), Fail> {
    match links_eleventh(alloc, client) {
        Ok(is_new) => assert!(rt; is_new),
        Err(_) => {
            println!(rt; "refused set_link")?;
            assert_eq!(rt; client.links().len(), 10);
            assert!(rt; links_eleventh(alloc, client)?);
        }
    }
    Ok(())
}

/// How many of twelve nodes have a link.
fn linked(alloc: Global, client: &Client) -> Result<usize, RedisError> {
    let mut count: usize = 0;
    for port in 1..13 {
        let (node, _) = numbered(alloc, port)?;
        if client.link_state(&node).is_some() {
            count = count.saturating_add(1);
        }
    }
    Ok(count)
}

/// Does without 15 of its requests: the table of the addresses, and what it learns.
#[test]
fn many_links(rt: HostRuntime) -> Result<(), Fail> {
    let alloc = rt.alloc();
    let mut client = again(&rt, "client", || many(alloc))?;
    links_eleventh_again(&rt, alloc, &mut client)?;
    let count = again(&rt, "link_state", || linked(alloc, &client))?;
    assert_eq!(rt; count, 11);
    Ok(())
}
