//! A large cluster: a client learns its map, and asks commands that any node may serve.
use crate::cluster::{Layout, Link, PIECE, address_of, client, relink, sent, silence, slots_reply};
use crate::digest::Digest;
use crate::inputs::{Pool, key};
use crate::random::Numbers;
use anyhow::Result;
use cluster_client::{ClusterClient, Cmd, Value, cluster_pipe, command};
use std::alloc::Global;

const NODES: usize = 1_000;

/// How many ranges of slots a map has.
const RANGES: [usize; 4] = [1_024, 2_048, 4_096, 8_192];

/// How many commands that any node may serve, pipelines of ten, and single GETs a round makes.
const ANYWHERE: usize = 12;

const PIPELINES: usize = 40;

const GETS: usize = 200;

/// The commands of a round: each ECHO with its node's number, and the keys of the others.
#[derive(Drop)]
struct Plan {
    echoes: Vec<(u64, Vec<u8>)>,
    pipelines: Vec<Vec<Vec<u8>>>,
    keys: Vec<Vec<u8>>,
}

/// Puts a value that a key has behind what the key's node replies.
fn reply_to_key(
    replies: &mut [Vec<u8>],
    numbers: &mut Numbers,
    pool: &Pool,
    layout: Layout,
    key: &[u8],
) -> Result<()> {
    if let Some(of) = replies.get_mut(layout.node_of_key(key)) {
        pool.push_bulk(of, pool.value(numbers))?;
    }
    Ok(())
}

/// The place of a node among all, which are in the order of their hosts' texts.
fn places(alloc: Global) -> Result<Vec<usize>> {
    let mut hosts = Vec::new(alloc);
    for node in 0..NODES {
        hosts.push((address_of(alloc, node)?, node))?;
    }
    hosts.sort_by(|(a, _), (b, _)| a.cmp(b))?;
    let mut places = Vec::new(alloc);
    for (_, node) in &hosts {
        places.push(*node)?;
    }
    Ok(places)
}

fn make_plan(
    alloc: Global,
    numbers: &mut Numbers,
    pool: &Pool,
    layout: Layout,
    replies: &mut [Vec<u8>],
) -> Result<Plan> {
    let mut plan = Plan {
        echoes: Vec::new(alloc),
        pipelines: Vec::new(alloc),
        keys: Vec::new(alloc),
    };
    let places = places(alloc)?;
    for _ in 0..ANYWHERE {
        let number = numbers.below(NODES as u32);
        let text = Vec::from_slice(alloc, pool.value(numbers))?;
        let node = places.get(number).copied().unwrap_or(0);
        if let Some(of) = replies.get_mut(node) {
            pool.push_bulk(of, &text)?;
        }
        plan.echoes.push((number as u64, text))?;
    }
    for _ in 0..PIPELINES {
        let mut keys = Vec::new(alloc);
        for _ in 0..10 {
            let key = key(alloc, numbers)?;
            reply_to_key(replies, numbers, pool, layout, &key)?;
            keys.push(key)?;
        }
        plan.pipelines.push(keys)?;
    }
    for _ in 0..GETS {
        let key = key(alloc, numbers)?;
        reply_to_key(replies, numbers, pool, layout, &key)?;
        plan.keys.push(key)?;
    }
    Ok(plan)
}

fn get(alloc: Global, key: &[u8]) -> Result<Cmd> {
    let mut get = command::cmd(alloc, "GET")?;
    get.arg(key)?;
    Ok(get)
}

fn ask_all(
    alloc: Global,
    client: &mut ClusterClient<Link>,
    plan: &Plan,
    digest: &mut Digest,
) -> Result<()> {
    for (number, text) in &plan.echoes {
        let mut echo = command::cmd(alloc, "ECHO")?;
        echo.arg(text.as_slice())?;
        let value: Value = client.query(alloc, &echo, *number, None)?;
        digest.reply(alloc, &value)?;
    }
    for keys in &plan.pipelines {
        let mut pipeline = cluster_pipe(alloc);
        for key in keys {
            pipeline.add_command(get(alloc, key)?)?;
        }
        let values: Vec<Value> = pipeline.query(alloc, client)?;
        for value in &values {
            digest.reply(alloc, value)?;
        }
    }
    for key in &plan.keys {
        let value: Value = client.query(alloc, &get(alloc, key)?, 0, None)?;
        digest.reply(alloc, &value)?;
    }
    Ok(())
}

/// Learns a map of 1,000 to 8,192 ranges in any order, whose primaries have a replica or two, and asks commands of its
/// nodes: some that any of them may serve, short pipelines, and single GETs.
pub fn ask(alloc: Global, numbers: &mut Numbers, digest: &mut Digest) -> Result<()> {
    let layout = Layout {
        nodes: NODES,
        ranges: RANGES.get(numbers.below(4)).copied().unwrap_or(1_024),
    };
    let pool = Pool::new(alloc, numbers)?;
    let replicas = if numbers.below(2) == 0 { 1 } else { 2 };
    let mut client = client(alloc, numbers, layout, replicas)?;
    let mut replies = silence(alloc, layout.nodes)?;
    let plan = make_plan(alloc, numbers, &pool, layout, &mut replies)?;
    relink(alloc, &mut client, replies, PIECE, digest)?;
    ask_all(alloc, &mut client, &plan, digest)?;
    let mut again = silence(alloc, 1)?;
    for of in &mut again {
        *of = slots_reply(alloc, numbers, layout, replicas)?;
    }
    relink(alloc, &mut client, again, PIECE, digest)?;
    client.refresh(alloc, &address_of(alloc, 0)?)?;
    digest.number(client.unlinked(alloc)?.len() as u64);
    sent(alloc, client, digest)
}
