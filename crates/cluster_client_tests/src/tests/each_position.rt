//! Pipelines that tell of each position.
use clients_for_tests::*;
use cluster_client::*;
use std::alloc::{AllocError, Global};
use std::process::Abort;
use std::test::Fail;

/// The slots in three parts: that of `b` at n1:7001, that of `c` at n2:7002, that of `a` at n3:7003.
pub(crate) const THIRDS: &[u8] =
    b"*3\r\n*3\r\n:0\r\n:5000\r\n*2\r\n$2\r\nn1\r\n:7001\r\n*3\r\n:5001\r\n:10000\r\n*2\r\n$2\r\nn2\r\n:7002\r\n*3\r\n:10001\r\n:16383\r\n*2\r\n$2\r\nn3\r\n:7003\r\n";

/// What comes from each node behind the map, commands as words, what has to be told of each (its value, or
/// the number of its refusal and the code of a server's error), which nodes are asked, whose links stay open,
/// and whether a refresh is needed.
#[derive(Drop)]
struct Row {
    n1: &'static [u8],
    n2: &'static [u8],
    n3: &'static [u8],
    commands: &'static [&'static str],
    told: &'static str,
    asked: &'static str,
    open: &'static str,
    needs_refresh: bool,
}

/// Two nodes: numbers and an error; one reply holds an error deeper inside, and one is MOVED.
const TWO_NODES: Row = Row {
    n1: b":1\r\n-ERR x\r\n",
    n2: b"",
    n3: b":5\r\n*2\r\n:6\r\n-ERR y\r\n-MOVED 15495 n1:7001\r\n-ASK 15495 n1:7001\r\n",
    commands: &["GET a", "GET b", "GET a", "GET a", "GET b", "GET a"],
    told: "5, 1, [6, ERR y], 13 MOVED, 13 ERR, 13 ASK",
    asked: "n3 n3 n3 n3 n1 n1",
    open: "n1 n2 n3",
    needs_refresh: true,
};

/// The link of the second node fails behind its first reply: the replies of the first and of the third stand. A
/// MOVED of the failed link does not count.
const SECOND_FAILS: Row = Row {
    n1: b":1\r\n:2\r\n",
    n2: b"-MOVED 7365 n1:7001\r\n",
    n3: b":5\r\n:6\r\n",
    commands: &["GET b", "GET c", "GET a", "GET c", "GET b", "GET a"],
    told: "1, 14, 5, 14, 2, 6",
    asked: "n1 n1 n2 n2 n3 n3",
    open: "n1 n3",
    needs_refresh: false,
};

/// The same where the bytes of the first node are no RESP.
const FIRST_FAILS: Row = Row {
    n1: b":1\r\n?\r\n",
    n2: b":7\r\n",
    n3: b":5\r\n",
    commands: &["GET b", "GET a", "GET b", "GET c"],
    told: "15, 5, 15, 7",
    asked: "n1 n1 n3 n2",
    open: "n2 n3",
    needs_refresh: false,
};

/// The last node fails: all others are told.
const LAST_FAILS: Row = Row {
    n1: b":1\r\n",
    n2: b":7\r\n",
    n3: b"",
    commands: &["GET c", "GET b", "GET a"],
    told: "7, 1, 14",
    asked: "n2 n1 n3",
    open: "n1 n2",
    needs_refresh: false,
};

/// Commands of several slots go out as their parts, and their values are made of those of the parts.
const IN_PARTS: Row = Row {
    n1: b"*1\r\n:1\r\n:3\r\n+OK\r\n",
    n2: b"*1\r\n:7\r\n:1\r\n+OK\r\n",
    n3: b"*2\r\n:5\r\n:6\r\n:1\r\n",
    commands: &["MGET a b c a", "GET b", "DEL a c", "MSET b 1 c 2"],
    told: "[5, 1, 7, 6], 3, 2, OK",
    asked: "n3 n3 n1 n1 n1 n2 n2 n2",
    open: "n1 n2 n3",
    needs_refresh: false,
};

/// One part is moved and the other read; both are moved; one is an error; one is another shape.
const PARTS_SENT_ON: Row = Row {
    n1: b"*1\r\n:1\r\n-ASK 3300 n2:7002\r\n:1\r\n:1\r\n",
    n2: b"",
    n3: b"-MOVED 15495 n1:7001\r\n-MOVED 15495 n1:7001\r\n-ERR x\r\n+OK\r\n",
    commands: &["MGET a b", "MGET a b", "DEL a b", "DEL a b"],
    told: "16, 13 MOVED, 13 ERR, 16",
    asked: "n3 n3 n3 n3 n1 n1 n1 n1",
    open: "n1 n2 n3",
    needs_refresh: true,
};

/// The second node fails: a command with a part there may have been done, and one with parts at the others has its
/// value.
const PARTS_FAIL: Row = Row {
    n1: b"*1\r\n:1\r\n*1\r\n:2\r\n:1\r\n:1\r\n:0\r\n",
    n2: b"",
    n3: b"*1\r\n:5\r\n*1\r\n:6\r\n",
    commands: &["MGET a c", "MGET a b", "MGET c b", "DEL b", "DEL b hello"],
    told: "14, [6, 1], 14, 1, 1",
    asked: "n3 n3 n2 n2 n1 n1 n1 n1 n1",
    open: "n1 n3",
    needs_refresh: false,
};

/// No command, and no outcome.
const NOTHING: Row = Row {
    n1: b"",
    n2: b"",
    n3: b"",
    commands: &[],
    told: "",
    asked: "",
    open: "n1 n2 n3",
    needs_refresh: false,
};

fn client(alloc: Global, row: &Row) -> Result<Client, RedisError> {
    let mut first = Vec::from_slice(alloc, THIRDS)?;
    first.extend_from_slice(row.n1)?;
    let mut links = Vec::new(alloc);
    add_link(alloc, &mut links, "n1:7001", &first)?;
    add_link(alloc, &mut links, "n2:7002", row.n2)?;
    add_link(alloc, &mut links, "n3:7003", row.n3)?;
    let mut client = ClusterClient::new(alloc, links, Vec::new(alloc), 3)?;
    client.refresh(alloc, &node(alloc, "n1:7001")?)?;
    Ok(client)
}

pub(crate) fn pipeline_of(alloc: Global, commands: &[&str]) -> Result<ClusterPipeline, AllocError> {
    let mut pipeline = cluster_pipe(alloc);
    for words in commands {
        pipeline.add_command(command_of(alloc, words)?)?;
    }
    Ok(pipeline)
}

/// Puts a text behind others, with this between them.
fn push_word(text: &mut String, between: &str, word: &str) -> Result<(), AllocError> {
    if !text.is_empty() {
        text.push_str(between)?;
    }
    text.push_str(word)?;
    Ok(())
}

fn value_text(alloc: Global, value: &Value) -> Result<String, RedisError> {
    Ok(match value {
        Value::Int(number) => format!(in alloc; "{number}")?,
        Value::ServerError(error) => format!(in alloc; "{error}")?,
        Value::Okay => format!(in alloc; "OK")?,
        _ => format!(in alloc; "another")?,
    })
}

fn values_text(alloc: Global, values: &[Value]) -> Result<String, RedisError> {
    let mut text = String::new(alloc);
    for value in values {
        push_word(&mut text, ", ", value_text(alloc, value)?.as_str())?;
    }
    Ok(format!(in alloc; "[{text}]")?)
}

fn outcome_text(alloc: Global, outcome: &Result<Value, RedisError>) -> Result<String, RedisError> {
    match outcome {
        Ok(Value::Array(values)) => values_text(alloc, values),
        Ok(value) => value_text(alloc, value),
        Err(e) => {
            let number = e.number();
            Ok(match e.code() {
                Some(code) => format!(in alloc; "{number} {code}")?,
                None => format!(in alloc; "{number}")?,
            })
        }
    }
}

/// What is told of each position.
pub(crate) fn outcomes_text(
    alloc: Global,
    outcomes: &[Result<Value, RedisError>],
) -> Result<String, RedisError> {
    let mut text = String::new(alloc);
    for outcome in outcomes {
        push_word(&mut text, ", ", outcome_text(alloc, outcome)?.as_str())?;
    }
    Ok(text)
}

fn told(
    alloc: Global,
    client: &mut Client,
    pipeline: &ClusterPipeline,
) -> Result<String, RedisError> {
    outcomes_text(alloc, &pipeline.query_each(alloc, client)?)
}

fn asked(alloc: Global, requests: &[Asked]) -> Result<String, AllocError> {
    let mut text = String::new(alloc);
    for request in requests {
        push_word(&mut text, " ", request.node.host())?;
    }
    Ok(text)
}

fn open_links(alloc: Global, client: &Client) -> Result<String, AllocError> {
    let mut text = String::new(alloc);
    for (node, link) in client.links() {
        if link.is_open() {
            push_word(&mut text, " ", node.host())?;
        }
    }
    Ok(text)
}

fn plays<R: Abort>(rt: &R, alloc: Global, row: &Row) -> Result<(), Fail> {
    let mut client = client(alloc, row)?;
    let pipeline = pipeline_of(alloc, row.commands)?;
    assert_eq!(rt; told(alloc, &mut client, &pipeline)?.as_str(), row.told);
    assert_eq!(rt; asked(alloc, client.asked())?.as_str(), row.asked);
    assert_eq!(rt; open_links(alloc, &client)?.as_str(), row.open);
    assert_eq!(rt; client.needs_refresh(), row.needs_refresh);
    Ok(())
}

#[test]
fn each_position_is_told(rt: HostRuntime) -> Result<(), Fail> {
    let alloc = rt.alloc();
    plays(&rt, alloc, &TWO_NODES)?;
    plays(&rt, alloc, &SECOND_FAILS)?;
    plays(&rt, alloc, &FIRST_FAILS)?;
    plays(&rt, alloc, &LAST_FAILS)?;
    plays(&rt, alloc, &NOTHING)?;
    Ok(())
}

#[test]
fn a_split_command_goes_out_in_its_parts(rt: HostRuntime) -> Result<(), Fail> {
    let alloc = rt.alloc();
    plays(&rt, alloc, &IN_PARTS)?;
    plays(&rt, alloc, &PARTS_SENT_ON)?;
    plays(&rt, alloc, &PARTS_FAIL)?;
    Ok(())
}

/// What is told of one command that is lent with where it goes.
fn told_directed(alloc: Global, client: &mut Client, words: &str) -> Result<String, RedisError> {
    let command = command_of(alloc, words)?;
    let direction = Direction::for_routable(alloc, &command, &[])?;
    let directed = Directed {
        command: &command,
        direction: &direction,
    };
    outcomes_text(alloc, &client.query_each_directed(alloc, &[directed])?)
}

/// The commands of a row, each lent by itself, are told of as in one pipeline.
fn is_directed<R: Abort>(rt: &R, alloc: Global, row: &Row) -> Result<(), Fail> {
    let mut client = client(alloc, row)?;
    let mut text = String::new(alloc);
    for words in row.commands {
        push_word(
            &mut text,
            ", ",
            told_directed(alloc, &mut client, words)?.as_str(),
        )?;
    }
    assert_eq!(rt; text.as_str(), row.told);
    assert_eq!(rt; client.needs_refresh(), row.needs_refresh);
    Ok(())
}

#[test]
fn a_lent_command_goes_where_it_is_said_to_go(rt: HostRuntime) -> Result<(), Fail> {
    let alloc = rt.alloc();
    is_directed(&rt, alloc, &TWO_NODES)?;
    is_directed(&rt, alloc, &IN_PARTS)?;
    is_directed(&rt, alloc, &PARTS_SENT_ON)?;
    Ok(())
}

/// What is told of each position, where the answer tells that.
fn answer_text(alloc: Global, answer: &Result<Answer, RedisError>) -> Result<String, RedisError> {
    match answer {
        Ok(Answer::Each(outcomes)) => outcomes_text(alloc, outcomes),
        _ => Ok(String::new(alloc)),
    }
}

/// What a list of this one call shows: what is told of each position, and which nodes are asked.
fn told_by_play(
    alloc: Global,
    client: &mut Client,
    pipeline: ClusterPipeline,
) -> Result<Vec<(String, String)>, RedisError> {
    let mut calls = Vec::new(alloc);
    calls.push(Call::Each(pipeline))?;
    let mut played = Vec::new(alloc);
    play(alloc, client, &calls, None, &mut played)?;
    let mut told = Vec::new(alloc);
    for call in played.iter() {
        told.push((
            answer_text(alloc, &call.answer)?,
            asked(alloc, &call.asked)?,
        ))?;
    }
    Ok(told)
}

fn is_played<R: Abort>(rt: &R, alloc: Global, row: &Row) -> Result<(), Fail> {
    let mut client = client(alloc, row)?;
    let pipeline = pipeline_of(alloc, row.commands)?;
    let told = told_by_play(alloc, &mut client, pipeline)?;
    assert_eq!(rt; told.len(), 1);
    for (outcomes, nodes) in told.iter() {
        assert_eq!(rt; outcomes.as_str(), row.told);
        assert_eq!(rt; nodes.as_str(), row.asked);
    }
    assert_eq!(rt; open_links(alloc, &client)?.as_str(), row.open);
    assert_eq!(rt; client.needs_refresh(), row.needs_refresh);
    Ok(())
}

#[test]
fn a_list_of_calls_tells_of_each_position(rt: HostRuntime) -> Result<(), Fail> {
    let alloc = rt.alloc();
    is_played(&rt, alloc, &TWO_NODES)?;
    is_played(&rt, alloc, &SECOND_FAILS)?;
    is_played(&rt, alloc, &IN_PARTS)?;
    Ok(())
}

/// The position that a refused call tells.
fn refused_position(
    alloc: Global,
    client: &mut Client,
    pipeline: &ClusterPipeline,
) -> Option<usize> {
    match pipeline.query_each(alloc, client) {
        Ok(_) => None,
        Err(e) => e.position(),
    }
}

#[test]
fn a_position_is_refused_before_the_first_byte(rt: HostRuntime) -> Result<(), Fail> {
    let alloc = rt.alloc();
    let mut client = client(alloc, &TWO_NODES)?;
    for last in ["DBSIZE", "MSET a 1 b", "XREAD STREAMS a b 0 0"] {
        let pipeline = pipeline_of(alloc, &["GET a", "DEL a b", last])?;
        assert_eq!(rt; refused_position(alloc, &mut client, &pipeline), Some(2));
    }
    assert_eq!(rt; client.asked().len(), 0);
    assert!(rt; has_sent(alloc, &client, "n3:7003", b"")?);
    Ok(())
}
