//! Awkward bytes: replies in small pieces, deep and long ones, commands that come a byte at a time, and slots that moved
//! while guests have many commands.
use crate::cluster::{Layout, Link, PIECE, client, host, of_node, relink, sent, silence, slot_of};
use crate::digest::Digest;
use crate::inputs::{Pool, key, push_head, push_number};
use crate::proxy::{Guests, guests, hear, write};
use crate::random::Numbers;
use anyhow::Result;
use cluster_client::{ClusterClient, Cmd, Value, command};
use cluster_servers::ClusterServers;
use std::alloc::Global;

/// How many replies come in small pieces, and how many commands a guest has when a slot moves.
const REPLIES: usize = 300;

const DEEP: usize = 1_200;

/// How many guests send lines a byte at a time, and how many bytes a line has at most.
const LINES: usize = 40;

const LINE: u32 = 1_000;

const LAYOUT: Layout = Layout {
    nodes: 3,
    ranges: 12,
};

/// A reply: a list of texts, numbers in lists of lists, a long text, or one that nests.
fn push_reply(out: &mut Vec<u8>, numbers: &mut Numbers, pool: &Pool) -> Result<()> {
    match numbers.below(8) {
        0..=3 => {
            let count = numbers.between(2, 60);
            push_head(out, b'*', count)?;
            for _ in 0..count {
                pool.push_bulk(out, pool.value(numbers))?;
            }
        }
        4 | 5 => {
            push_head(out, b'*', 20)?;
            for _ in 0..20 {
                push_head(out, b'*', 5)?;
                for _ in 0..5 {
                    push_head(out, b':', numbers.below(1_000_000))?;
                }
            }
        }
        6 => {
            let level = numbers.between(10, 90);
            for _ in 0..level {
                out.extend_from_slice(b"*2\r\n+level\r\n")?;
            }
            out.extend_from_slice(b"$-1\r\n")?;
        }
        _ => {
            let count = numbers.between(1, 40);
            push_head(out, b'$', count.saturating_mul(500))?;
            for _ in 0..count {
                out.extend_from_slice(pool.of_len(numbers, 500))?;
            }
            out.extend_from_slice(b"\r\n")?;
        }
    }
    Ok(())
}

fn with_key(alloc: Global, name: &str, key: &[u8]) -> Result<Cmd> {
    let mut cmd = command::cmd(alloc, name)?;
    cmd.arg(key)?;
    Ok(cmd)
}

/// Asks for keys whose replies come in pieces of 1 to 16 bytes.
fn read_pieces(
    alloc: Global,
    numbers: &mut Numbers,
    pool: &Pool,
    client: &mut ClusterClient<Link>,
    digest: &mut Digest,
) -> Result<()> {
    let mut replies = silence(alloc, LAYOUT.nodes)?;
    let mut keys = Vec::new(alloc);
    for _ in 0..REPLIES {
        let key = key(alloc, numbers)?;
        if let Some(of) = replies.get_mut(LAYOUT.node_of_key(&key)) {
            push_reply(of, numbers, pool)?;
        }
        keys.push(key)?;
    }
    let piece = numbers.between(1, 17);
    relink(alloc, client, replies, piece, digest)?;
    for key in &keys {
        let value: Value = client.query(alloc, &with_key(alloc, "HGETALL", key)?, 0, None)?;
        digest.reply(alloc, &value)?;
    }
    Ok(())
}

/// What a guest sends of whose commands half are for a slot that moved: its bytes, and what the nodes reply to the
/// pipeline, and then to each redirected command by itself.
#[derive(Drop)]
struct Moved {
    bytes: Vec<u8>,
    before: Vec<Vec<u8>>,
    alone: Vec<Vec<u8>>,
}

/// The tag of a slot's keys.
fn tag(alloc: Global, numbers: &mut Numbers) -> Result<Vec<u8>> {
    let mut tag = Vec::from_slice(alloc, b"{cart:")?;
    push_number(&mut tag, numbers.any() % 1_000_000)?;
    tag.push(b'}')?;
    Ok(tag)
}

fn make_moved(alloc: Global, numbers: &mut Numbers, pool: &Pool) -> Result<Moved> {
    let mut moved = Moved {
        bytes: Vec::new(alloc),
        before: silence(alloc, LAYOUT.nodes)?,
        alone: silence(alloc, LAYOUT.nodes)?,
    };
    let gone = tag(alloc, numbers)?;
    let here = tag(alloc, numbers)?;
    let node = LAYOUT.node_of_key(&gone);
    let next = node.saturating_add(1) % 3;
    let mut line = Vec::from_slice(alloc, b"-MOVED ")?;
    push_number(&mut line, slot_of(&gone) as u64)?;
    line.push(b' ')?;
    line.extend_from_slice(host(alloc, 0, next)?.as_bytes())?;
    line.extend_from_slice(b":6379\r\n")?;
    for place in 0..DEEP {
        let is_gone = numbers.below(2) == 0;
        let mut key = Vec::from_slice(alloc, if is_gone { &gone } else { &here })?;
        push_number(&mut key, place as u64)?;
        moved.bytes.extend_from_slice(b"*3\r\n$3\r\nSET\r\n")?;
        pool.push_bulk(&mut moved.bytes, &key)?;
        pool.push_bulk(&mut moved.bytes, pool.value(numbers))?;
        if is_gone {
            of_node(&mut moved.before, node, &line)?;
            of_node(&mut moved.alone, node, &line)?;
            of_node(&mut moved.alone, next, b"+OK\r\n")?;
        } else {
            of_node(&mut moved.before, LAYOUT.node_of_key(&here), b"+OK\r\n")?;
        }
    }
    Ok(moved)
}

/// Serves a guest of whose commands half are for a slot that moved, of which the map does not tell yet.
fn serve_moved(
    alloc: Global,
    numbers: &mut Numbers,
    pool: &Pool,
    client: ClusterClient<Link>,
    digest: &mut Digest,
) -> Result<ClusterClient<Link>> {
    let Moved {
        bytes,
        before,
        alone,
    } = make_moved(alloc, numbers, pool)?;
    let mut frontend = guests(alloc, 1)?;
    let mut servers = ClusterServers::new(client);
    let mut out = Vec::new(alloc);
    relink(alloc, &mut servers.client, before, PIECE, digest)?;
    hear(alloc, &mut frontend, 0, &bytes)?;
    frontend.turn(alloc, &mut servers)?;
    write(&mut frontend, 0, &mut out, digest)?;
    digest.number(servers.client.needs_refresh() as u64);
    relink(alloc, &mut servers.client, alone, PIECE, digest)?;
    for _ in 0..3 {
        frontend.turn(alloc, &mut servers)?;
        write(&mut frontend, 0, &mut out, digest)?;
    }
    let ClusterServers { client, .. } = servers;
    Ok(client)
}

/// Hears guests whose commands are lines that come a byte at a time, and serves them together.
fn serve_lines(
    alloc: Global,
    numbers: &mut Numbers,
    pool: &Pool,
    client: ClusterClient<Link>,
    digest: &mut Digest,
) -> Result<ClusterClient<Link>> {
    let mut frontend: Guests = guests(alloc, LINES)?;
    let mut servers = ClusterServers::new(client);
    let mut replies = silence(alloc, LAYOUT.nodes)?;
    let mut out = Vec::new(alloc);
    for guest in 0..LINES {
        let key = key(alloc, numbers)?;
        let len = numbers.between(10, LINE);
        let mut line = Vec::from_slice(alloc, b"SET ")?;
        line.extend_from_slice(&key)?;
        line.push(b' ')?;
        line.extend_from_slice(pool.of_len(numbers, len))?;
        line.extend_from_slice(b"\r\n")?;
        of_node(&mut replies, LAYOUT.node_of_key(&key), b"+OK\r\n")?;
        for byte in line.chunks(1) {
            hear(alloc, &mut frontend, guest, byte)?;
        }
    }
    relink(alloc, &mut servers.client, replies, PIECE, digest)?;
    frontend.turn(alloc, &mut servers)?;
    for guest in 0..LINES {
        write(&mut frontend, guest, &mut out, digest)?;
    }
    let ClusterServers { client, .. } = servers;
    Ok(client)
}

/// Reads replies in small pieces, hears lines a byte at a time, and serves a guest while a slot moves.
pub fn read(alloc: Global, numbers: &mut Numbers, digest: &mut Digest) -> Result<()> {
    let pool = Pool::new(alloc, numbers)?;
    let mut client = client(alloc, numbers, LAYOUT, 0)?;
    read_pieces(alloc, numbers, &pool, &mut client, digest)?;
    let client = serve_lines(alloc, numbers, &pool, client, digest)?;
    let client = serve_moved(alloc, numbers, &pool, client, digest)?;
    sent(alloc, client, digest)
}
