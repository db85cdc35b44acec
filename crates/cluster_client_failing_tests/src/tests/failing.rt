//! Each read and each write of each node is refused in turn, and what a client tells of itself, which no
//! session prints, is compared too.
use crate::tests::rows::{Phase, Row, row_at};
use clients_for_tests::{Client, Link, Links, get_a, has_sent, node, xadd, xread};
use cluster_client::*;
use std::alloc::{AllocError, Global};
use std::process::Abort;
use std::test::Fail;

/// The read or the write of a node that is refused, counted from 1, where bytes come in such pieces.
#[derive(Drop)]
struct Fault {
    is_at_n1: bool,
    is_write: bool,
    number: u64,
    piece: usize,
}

/// Places are reads at n1:7001, writes there, and then both at n2:7002.
fn fault_at(place: usize, number: u64, piece: usize) -> Fault {
    Fault {
        is_at_n1: place < 2,
        is_write: place == 1 || place == 3,
        number,
        piece,
    }
}

/// All that comes from a node.
pub(crate) fn bytes_from(alloc: Global, row: &Row, is_n1: bool) -> Result<Vec<u8>, AllocError> {
    let mut bytes = Vec::new(alloc);
    for phase in row.phases {
        if phase.is_n1 == is_n1 {
            bytes.extend_from_slice(phase.gives)?;
        }
    }
    bytes.extend_from_slice(if is_n1 {
        row.left_at_n1
    } else {
        row.left_at_n2
    })?;
    Ok(bytes)
}

/// A link that refuses the fault's read or write where it is the node's.
fn failing_link(alloc: Global, row: &Row, fault: &Fault, is_n1: bool) -> Result<Link, AllocError> {
    let number = if fault.is_at_n1 == is_n1 {
        fault.number
    } else {
        0
    };
    let (read, write) = if fault.is_write {
        (0, number)
    } else {
        (number, 0)
    };
    let reader = MemoryReader::new(bytes_from(alloc, row, is_n1)?, fault.piece, read);
    Ok(ByteLink::new(alloc, reader, MemoryWriter::new(alloc, write)))
}

fn client(alloc: Global, row: &Row, fault: &Fault) -> Result<Client, RedisError> {
    let mut links: Links = Vec::new(alloc);
    links.push((
        node(alloc, "n1:7001")?,
        failing_link(alloc, row, fault, true)?,
    ))?;
    links.push((
        node(alloc, "n2:7002")?,
        failing_link(alloc, row, fault, false)?,
    ))?;
    ClusterClient::new(alloc, links, Vec::new(alloc), row.budget)
}

/// The number of the refusal of a refresh, 0 where it is accepted.
pub(crate) fn refreshed(
    alloc: Global,
    client: &mut Client,
    address: &str,
) -> Result<u8, RedisError> {
    let node = node(alloc, address)?;
    Ok(match client.refresh(alloc, &node) {
        Ok(_) => 0,
        Err(e) => e.number(),
    })
}

/// `SET a 1`, `GET b` ignored, `GET a`.
fn pipeline(alloc: Global) -> Result<ClusterPipeline, AllocError> {
    let mut pipeline = cluster_pipe(alloc);
    pipeline.cmd(alloc, "SET")?;
    pipeline.arg("a")?;
    pipeline.arg("1")?;
    pipeline.cmd(alloc, "GET")?;
    pipeline.arg("b")?;
    pipeline.ignore();
    pipeline.add_command(get_a(alloc)?)?;
    Ok(pipeline)
}

/// How many values a pipeline answered.
fn pipeline_length(alloc: Global, client: &mut Client) -> Result<i64, RedisError> {
    let values: Vec<Value> = pipeline(alloc)?.query(alloc, client)?;
    Ok(values.len() as i64)
}

fn delete(alloc: Global, client: &mut Client) -> Result<i64, RedisError> {
    let mut cmd = command::cmd(alloc, "DEL")?;
    cmd.arg("a")?;
    cmd.arg("b")?;
    client.query(alloc, &cmd, 0, None)
}

pub(crate) fn get(alloc: Global, client: &mut Client, key: &str) -> Result<i64, RedisError> {
    let mut cmd = command::cmd(alloc, "GET")?;
    cmd.arg(key)?;
    client.query(alloc, &cmd, 0, None)
}

/// A number, or that of its refusal below zero.
pub(crate) fn number_in(outcome: Result<i64, RedisError>) -> i64 {
    match outcome {
        Ok(number) => number,
        Err(e) => 0 - i64::from(e.number()),
    }
}

fn shown(alloc: Global, outcome: Result<i64, RedisError>) -> Result<String, RedisError> {
    let number = number_in(outcome);
    Ok(format!(in alloc; "{number}")?)
}

/// A `GET a`, and behind it a refresh.
fn shown_refresh(alloc: Global, client: &mut Client) -> Result<String, RedisError> {
    let number = number_in(get(alloc, client, "a"));
    let refreshed = refreshed(alloc, client, "n1:7001")?;
    Ok(format!(in alloc; "{number} {refreshed}")?)
}

/// What a call on a stream answered, or the number of its refusal.
fn text_in(alloc: Global, outcome: Result<String, RedisError>) -> Result<String, RedisError> {
    match outcome {
        Ok(text) => Ok(text),
        Err(e) => shown(alloc, Err(e)),
    }
}

/// What the row's call answers.
fn answer(alloc: Global, client: &mut Client, call: usize) -> Result<String, RedisError> {
    match call {
        0 => {
            let outcome = xadd(alloc, client);
            text_in(alloc, outcome)
        }
        1 => {
            let outcome = xread(alloc, client);
            text_in(alloc, outcome)
        }
        2 => shown(alloc, delete(alloc, client)),
        3 => shown(alloc, get(alloc, client, "a")),
        4 => shown(alloc, pipeline_length(alloc, client)),
        _ => shown_refresh(alloc, client),
    }
}

pub(crate) fn push_asked(text: &mut String, asked: &Asked) -> Result<(), RedisError> {
    text.push_str(", ")?;
    text.push_str(asked.node.host())?;
    for arg in asked.args.iter() {
        text.push_str(" ")?;
        text.push_str(str::from_utf8(arg.as_slice()).unwrap_or("?"))?;
    }
    Ok(())
}

/// How many pushes were set aside at a node.
pub(crate) fn pushes_at(
    alloc: Global,
    client: &Client,
    address: &str,
) -> Result<usize, RedisError> {
    let node = node(alloc, address)?;
    Ok(match client.pushes(&node) {
        Some(pushes) => pushes.len(),
        None => 0,
    })
}

/// What the first refresh and the row's call answer, whether a refresh is needed, the numbers of picks and
/// of pushes at both nodes, and the last call's log.
fn told(alloc: Global, client: &mut Client, call: usize) -> Result<String, RedisError> {
    let refreshed = refreshed(alloc, client, "n1:7001")?;
    let answer = answer(alloc, client, call)?;
    let flag = client.needs_refresh();
    let picks = client.picked().len();
    let n1 = pushes_at(alloc, client, "n1:7001")?;
    let n2 = pushes_at(alloc, client, "n2:7002")?;
    let mut text = format!(in alloc; "{refreshed}, {answer}, {flag} {picks} {n1} {n2}")?;
    for asked in client.asked() {
        push_asked(&mut text, asked)?;
    }
    Ok(text)
}

/// What later calls answer: `GET a`, `GET b`, and a refresh at each node.
pub(crate) fn told_later(alloc: Global, client: &mut Client) -> Result<String, RedisError> {
    let at_a = number_in(get(alloc, client, "a"));
    let at_b = number_in(get(alloc, client, "b"));
    let n1 = refreshed(alloc, client, "n1:7001")?;
    let n2 = refreshed(alloc, client, "n2:7002")?;
    Ok(format!(in alloc; "{at_a}, {at_b}, {n1}, {n2}")?)
}

/// How many reads or writes of the fault's node are a phase's. In large pieces its first read takes all.
fn count_in(phase: &Phase, fault: &Fault, is_first: bool) -> u64 {
    if phase.is_n1 != fault.is_at_n1 {
        0
    } else if fault.is_write {
        u64::from(!phase.sends.is_empty())
    } else if fault.piece == 1 {
        phase.gives.len() as u64
    } else {
        u64::from(is_first)
    }
}

/// How many reads or writes of the fault's node there are up to the end of the row's call.
fn count(row: &Row, fault: &Fault) -> u64 {
    let mut count: u64 = 0;
    for phase in row.phases {
        count = count.saturating_add(count_in(phase, fault, count == 0));
    }
    count
}

/// The place of the phase that the fault is in; that behind the last where it is in none.
fn place_of(row: &Row, fault: &Fault) -> usize {
    let mut count: u64 = 0;
    for (place, phase) in row.phases.iter().enumerate() {
        count = count.saturating_add(count_in(phase, fault, count == 0));
        if fault.number <= count {
            return place;
        }
    }
    row.phases.len()
}

/// What has to be told, and told later.
fn wanted(row: &Row, fault: &Fault) -> (&'static str, &'static str) {
    match row.phases.get(place_of(row, fault)) {
        Some(phase) => (phase.told, phase.later),
        None => (row.told, later_behind(row, fault)),
    }
}

/// What has to be told later where the row's calls meet no fault: the node's next read or write is
/// refused, but that all its bytes came by one read where the pieces are large.
fn later_behind(row: &Row, fault: &Fault) -> &'static str {
    if !fault.is_write && fault.piece != 1 && count(row, fault) != 0 {
        row.later
    } else if fault.is_at_n1 {
        row.later_without_n1
    } else {
        row.later_without_n2
    }
}

/// What has to be sent to a node, up to the row's call: nothing by a write that is refused.
fn wanted_bytes(
    alloc: Global,
    row: &Row,
    fault: &Fault,
    is_n1: bool,
) -> Result<Vec<u8>, AllocError> {
    let fails = place_of(row, fault);
    let mut bytes = Vec::new(alloc);
    for (place, phase) in row.phases.iter().enumerate() {
        let is_sent = place < fails || place == fails && !fault.is_write;
        if is_sent && phase.is_n1 == is_n1 {
            bytes.extend_from_slice(phase.sends)?;
        }
    }
    Ok(bytes)
}

fn plays<R: Abort>(rt: &R, alloc: Global, row: &Row, fault: &Fault) -> Result<(), Fail> {
    let mut client = client(alloc, row, fault)?;
    let (first, later) = wanted(row, fault);
    assert_eq!(rt; told(alloc, &mut client, row.call)?.as_str(), first);
    let n1 = wanted_bytes(alloc, row, fault, true)?;
    let n2 = wanted_bytes(alloc, row, fault, false)?;
    assert!(rt; has_sent(alloc, &client, "n1:7001", &n1)?);
    assert!(rt; has_sent(alloc, &client, "n2:7002", &n2)?);
    assert_eq!(rt; told_later(alloc, &mut client)?.as_str(), later);
    Ok(())
}

/// Refuses each of these reads or writes in turn, and in a last run the one behind them.
fn plays_in_turn<R: Abort>(
    rt: &R,
    alloc: Global,
    row: &Row,
    piece: usize,
    place: usize,
) -> Result<(), Fail> {
    let count = count(row, &fault_at(place, 0, piece));
    for number in 1..=count.saturating_add(1) {
        plays(rt, alloc, row, &fault_at(place, number, piece))?;
    }
    Ok(())
}

fn plays_each<R: Abort>(rt: &R, alloc: Global, row: &Row, piece: usize) -> Result<(), Fail> {
    for place in 0..4 {
        plays_in_turn(rt, alloc, row, piece, place)?;
    }
    Ok(())
}

#[test]
fn each_read_and_write_is_refused_in_turn(rt: HostRuntime) -> Result<(), Fail> {
    for which in 0..7 {
        let row = row_at(which);
        plays_each(&rt, rt.alloc(), &row, 1)?;
        plays_each(&rt, rt.alloc(), &row, 4096)?;
    }
    Ok(())
}
