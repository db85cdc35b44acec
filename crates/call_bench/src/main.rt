//! The program `call_bench`: what a call of the client takes, over nodes whose replies stand in memory.
//!
//! Its arguments are a workload, how many keys, and how many nodes: `setup` makes the client, the keys
//! and the replies, and no call; `get` sends a GET for each key by `query`; `mget` one MGET of all keys;
//! `pipe` the GETs in one pipeline, and `pipes` in pipelines of 10,000. It prints how many bytes came
//! back, and to standard error how many nanoseconds the calls took. Its status is 1 where the
//! arguments are others, a stream failed or memory was refused.
#![tactic(auto)]

use anyhow::{Context, Result};
use cluster_client::{
    ByteLink, ClusterClient, ClusterPipeline, Cmd, MemoryReader, MemoryWriter, NodeAddress, Value,
    command,
};
use std::alloc::Global;
use std::env;
use std::time::Instant;

mod nodes;

use nodes::{address_of, replies_to_keys, slots_reply};

type Link = ByteLink<MemoryReader, MemoryWriter>;

const PIPELINE: usize = 10_000;

/// How many bytes a reader hands out at once.
const PIECE: usize = 65_536;

/// `key:000000`, `key:000001` and so on.
fn keys_of(alloc: Global, count: usize) -> Result<Vec<String>> {
    let mut keys = Vec::new(alloc);
    for number in 0..count {
        keys.push(format!(in alloc; "key:{number:06}")?)?;
    }
    Ok(keys)
}

/// The links to the nodes, each with the bytes that come from there.
fn links_to(alloc: Global, replies: Vec<Vec<u8>>) -> Result<Vec<(NodeAddress, Link)>> {
    let mut links = Vec::new(alloc);
    let mut node = 0usize;
    for bytes in replies {
        let reader = MemoryReader::new(bytes, PIECE, 0);
        let link = ByteLink::new(alloc, reader, MemoryWriter::new(alloc, 0));
        links.push((address_of(alloc, node)?, link))?;
        node = node.saturating_add(1);
    }
    Ok(links)
}

/// A client with so many nodes, which knows their slots, and for whose keys the replies stand ready.
fn client_for(
    alloc: Global,
    workload: &str,
    keys: &[String],
    nodes: usize,
) -> Result<ClusterClient<Link>> {
    let mut replies = replies_to_keys(alloc, workload == "mget", keys, nodes)?;
    if let Some(first) = replies.get_mut(0) {
        let mut bytes = slots_reply(alloc, nodes)?;
        bytes.extend_from_slice(first)?;
        *first = bytes;
    }
    let mut read_only = Vec::new(alloc);
    read_only.push(Vec::from_slice(alloc, b"GET")?)?;
    let mut client = ClusterClient::new(alloc, links_to(alloc, replies)?, read_only, 5)?;
    client.refresh(alloc, &address_of(alloc, 0)?)?;
    Ok(client)
}

fn get_of(alloc: Global, key: &str) -> Result<Cmd> {
    let mut get = command::cmd(alloc, "GET")?;
    get.arg(key)?;
    Ok(get)
}

/// How many bytes a reply to GET has.
fn len_of(value: &Value) -> usize {
    match value {
        Value::BulkString(bytes) => bytes.len(),
        _ => 0,
    }
}

fn len_of_all(values: &[Value]) -> usize {
    let mut total = 0usize;
    for value in values {
        total = total.saturating_add(len_of(value));
    }
    total
}

fn gets(alloc: Global, client: &mut ClusterClient<Link>, keys: &[String]) -> Result<usize> {
    let mut total = 0usize;
    for key in keys {
        let get = get_of(alloc, key.as_str())?;
        let value: Value = client.query(alloc, &get, 0, None)?;
        total = total.saturating_add(len_of(&value));
    }
    Ok(total)
}

fn mget(alloc: Global, client: &mut ClusterClient<Link>, keys: &[String]) -> Result<usize> {
    let mut mget = command::cmd(alloc, "MGET")?;
    for key in keys {
        mget.arg(key.as_str())?;
    }
    let values: Vec<Value> = client.query(alloc, &mget, 0, None)?;
    Ok(len_of_all(&values))
}

fn pipeline_of(alloc: Global, keys: &[String]) -> Result<ClusterPipeline> {
    let mut pipeline = ClusterPipeline::with_capacity(alloc, keys.len())?;
    for key in keys {
        pipeline.add_command(get_of(alloc, key.as_str())?)?;
    }
    Ok(pipeline)
}

fn pipe(alloc: Global, client: &mut ClusterClient<Link>, keys: &[String]) -> Result<usize> {
    let pipeline = pipeline_of(alloc, keys)?;
    let values: Vec<Value> = pipeline.query(alloc, client)?;
    Ok(len_of_all(&values))
}

fn pipes(alloc: Global, client: &mut ClusterClient<Link>, keys: &[String]) -> Result<usize> {
    let mut total = 0usize;
    for some in keys.chunks(PIPELINE) {
        total = total.saturating_add(pipe(alloc, client, some)?);
    }
    Ok(total)
}

/// Does what the workload says, and answers how many bytes came back.
fn serve(
    alloc: Global,
    workload: &str,
    client: &mut ClusterClient<Link>,
    keys: &[String],
) -> Result<usize> {
    match workload {
        "get" => gets(alloc, client, keys),
        "mget" => mget(alloc, client, keys),
        "pipe" => pipe(alloc, client, keys),
        "pipes" => pipes(alloc, client, keys),
        _ => Ok(0),
    }
}

fn main(rt: HostRuntime) -> Result<()> {
    let alloc = rt.alloc();
    let mut arguments = env::args(&rt)?.skip(1);
    let workload = arguments.next().context("which workload?")?;
    let count = arguments.next().context("how many keys?")?;
    let count = count.parse::<usize>().ok().context("how many keys?")?;
    let nodes = arguments.next().context("how many nodes?")?;
    let nodes = nodes.parse::<usize>().ok().context("how many nodes?")?;
    let keys = keys_of(alloc, count)?;
    let mut client = client_for(alloc, workload.as_str(), &keys, nodes)?;
    let start = Instant::now(&rt)?;
    let total = serve(alloc, workload.as_str(), &mut client, &keys)?;
    let took = start.elapsed(&rt)?;
    eprintln!(rt; "{}", took.as_nanos())?;
    println!(rt; "{total}")?;
    Ok(())
}
