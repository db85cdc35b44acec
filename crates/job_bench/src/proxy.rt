//! A proxy: the bytes of many guests come in, go to the nodes of a cluster as pipelines, and each guest reads its replies.
use crate::cache::reply_in_parts;
use crate::cluster::{Layout, Link, PIECE, client, of_node, relink, sent, silence, slot_of};
use crate::digest::Digest;
use crate::inputs::{Pool, key, push_head};
use crate::random::Numbers;
use crate::words::Words;
use anyhow::{Result, bail};
use cluster_servers::{ClusterServers, GuestCommand, Reply};
use proxy_connection::Progress;
use proxy_core::{Limits, Room};
use proxy_frontend::Frontend;
use resp_core::Protocol;
use std::alloc::Global;

/// How many guests there are, in turn from round to round.
const GUESTS: [usize; 4] = [50, 200, 1_000, 200];

/// How many turns a round takes.
const TURNS: usize = 6;

pub const LIMITS: Limits = Limits {
    guests: 1_000,
    share: Room {
        entries: 2_048,
        bytes: 4_000_000,
    },
};

pub type Guests = Frontend<Words, GuestCommand, Reply>;

/// What guests send in a turn, and what each node replies to commands, in the order in which they go out.
#[derive(Drop)]
struct Scene {
    alloc: Global,
    layout: Layout,
    pool: Pool,
    /// By turns, and in a turn by guests.
    sent: Vec<Vec<u8>>,
    replies: Vec<Vec<u8>>,
    /// By guests.
    late: Vec<Late>,
}

/// What is left of a guest's last command, and what the nodes reply to that.
#[derive(Drop)]
struct Late {
    bytes: Vec<u8>,
    replies: Vec<Vec<u8>>,
}

impl Late {
    /// Puts it behind these bytes and replies, and leaves nothing.
    fn send(&mut self, bytes: &mut Vec<u8>, replies: &mut [Vec<u8>]) -> Result<()> {
        bytes.extend_from_slice(&self.bytes)?;
        self.bytes.clear();
        for (node, some) in self.replies.iter().enumerate() {
            of_node(replies, node, some)?;
        }
        self.replies.clear();
        Ok(())
    }
}

/// A command of these words, as a guest sends it.
fn push_words(pool: &Pool, out: &mut Vec<u8>, words: &[&[u8]]) -> Result<()> {
    push_head(out, b'*', words.len())?;
    for word in words {
        pool.push_bulk(out, word)?;
    }
    Ok(())
}

impl Scene {
    /// An MGET or an MSET of ten keys.
    fn push_split(
        &self,
        numbers: &mut Numbers,
        is_set: bool,
        bytes: &mut Vec<u8>,
        replies: &mut [Vec<u8>],
    ) -> Result<()> {
        let name: &[u8] = if is_set { b"MSET" } else { b"MGET" };
        push_head(bytes, b'*', if is_set { 21 } else { 11 })?;
        self.pool.push_bulk(bytes, name)?;
        let mut slots = Vec::with_capacity(self.alloc, 10)?;
        for _ in 0..10 {
            let key = key(self.alloc, numbers)?;
            slots.push(slot_of(&key))?;
            self.pool.push_bulk(bytes, &key)?;
            if is_set {
                self.pool.push_bulk(bytes, self.pool.value(numbers))?;
            }
        }
        if !is_set {
            return reply_in_parts(replies, numbers, &self.pool, self.layout, &slots);
        }
        for (place, slot) in slots.iter().enumerate() {
            if !slots.iter().take(place).any(|earlier| earlier == slot) {
                of_node(replies, self.layout.node_of(*slot), b"+OK\r\n")?;
            }
        }
        Ok(())
    }

    /// A command of one key.
    fn push_keyed(
        &self,
        numbers: &mut Numbers,
        bytes: &mut Vec<u8>,
        replies: &mut [Vec<u8>],
    ) -> Result<()> {
        let key = key(self.alloc, numbers)?;
        let node = self.layout.node_of_key(&key);
        match numbers.below(20) {
            0..=8 => {
                push_words(&self.pool, bytes, &[b"GET", &key])?;
                match replies.get_mut(node) {
                    Some(of) if numbers.below(10) != 0 => self
                        .pool
                        .push_bulk(of, self.pool.value(numbers)),
                    _ => of_node(replies, node, b"$-1\r\n"),
                }
            }
            9..=15 => {
                push_words(&self.pool, bytes, &[b"SET", &key, self.pool.value(numbers)])?;
                of_node(replies, node, b"+OK\r\n")
            }
            16 | 17 => {
                push_words(&self.pool, bytes, &[b"INCR", &key])?;
                of_node(replies, node, b":1729\r\n")
            }
            18 => {
                push_words(&self.pool, bytes, &[b"EXPIRE", &key, b"3600"])?;
                of_node(replies, node, b":1\r\n")
            }
            _ => {
                push_words(&self.pool, bytes, &[b"HGETALL", &key])?;
                let count = numbers.between(2, 11);
                let Some(of) = replies.get_mut(node) else {
                    return Ok(());
                };
                push_head(of, b'*', count.saturating_mul(2))?;
                for _ in 0..count {
                    self.pool.push_bulk(of, b"field")?;
                    self.pool.push_bulk(of, self.pool.value(numbers))?;
                }
                Ok(())
            }
        }
    }

    /// A command, behind these bytes, and its replies behind those of the nodes.
    fn push_command(
        &self,
        numbers: &mut Numbers,
        bytes: &mut Vec<u8>,
        replies: &mut [Vec<u8>],
    ) -> Result<()> {
        match numbers.below(32) {
            0 => self.push_split(numbers, true, bytes, replies),
            1 => self.push_split(numbers, false, bytes, replies),
            _ => self.push_keyed(numbers, bytes, replies),
        }
    }

    /// What a guest sends in a turn: what was left of its last command, and 1 to 16 more, of which the last may be cut
    /// anywhere.
    fn add_turn(&mut self, numbers: &mut Numbers, guest: usize, is_last: bool) -> Result<()> {
        let alloc = self.alloc;
        let mut replies = std::mem::replace(&mut self.replies, Vec::new(alloc));
        let mut bytes = Vec::new(alloc);
        if let Some(late) = self.late.get_mut(guest) {
            late.send(&mut bytes, &mut replies)?;
        }
        for _ in 0..numbers.between(0, 16) {
            self.push_command(numbers, &mut bytes, &mut replies)?;
        }
        if is_last || numbers.below(4) != 0 {
            self.push_command(numbers, &mut bytes, &mut replies)?;
        } else {
            let mut cut = Vec::new(alloc);
            let mut late = silence(alloc, self.layout.nodes)?;
            self.push_command(numbers, &mut cut, &mut late)?;
            let place = numbers.below(cut.len().min(4_000) as u32).min(cut.len());
            let (front, rest) = cut.split_at(place);
            bytes.extend_from_slice(front)?;
            let rest = Vec::from_slice(alloc, rest)?;
            if let Some(of) = self.late.get_mut(guest) {
                *of = Late {
                    bytes: rest,
                    replies: late,
                };
            }
        }
        self.replies = replies;
        self.sent.push(bytes)?;
        Ok(())
    }
}

fn make_scene(
    alloc: Global,
    numbers: &mut Numbers,
    layout: Layout,
    guests: usize,
) -> Result<Scene> {
    let pool = Pool::new(alloc, numbers)?;
    let mut scene = Scene {
        alloc,
        layout,
        pool,
        sent: Vec::new(alloc),
        replies: silence(alloc, layout.nodes)?,
        late: Vec::new(alloc),
    };
    for _ in 0..guests {
        scene.late.push(Late {
            bytes: Vec::new(alloc),
            replies: Vec::new(alloc),
        })?;
    }
    for turn in 0..TURNS {
        for guest in 0..guests {
            scene.add_turn(numbers, guest, turn.saturating_add(1) == TURNS)?;
        }
    }
    Ok(scene)
}

/// Lets so many guests in, of which every third reads RESP3.
pub fn guests(alloc: Global, count: usize) -> Result<Guests> {
    let limits = resp_requests::Limits::of_redis();
    let mut frontend = Frontend::new(alloc, LIMITS, limits);
    for number in 0..count {
        let protocol = if number % 3 == 2 {
            Protocol::Resp3
        } else {
            Protocol::Resp2
        };
        if frontend.join(alloc, Words::new(protocol)).is_err() {
            bail!("a guest is not let in");
        }
    }
    Ok(frontend)
}

/// Takes bytes of a guest, and the commands that they end.
pub fn hear(alloc: Global, frontend: &mut Guests, guest: usize, bytes: &[u8]) -> Result<()> {
    frontend.hear(guest, bytes)?;
    for _ in 0..LIMITS.share.entries {
        if frontend.advance(alloc, guest)? != Progress::Taken {
            break;
        }
    }
    Ok(())
}

/// Writes what is there to a guest, through a buffer that is empty.
pub fn write(
    frontend: &mut Guests,
    guest: usize,
    out: &mut Vec<u8>,
    digest: &mut Digest,
) -> Result<()> {
    for _ in 0..LIMITS.share.entries {
        if !frontend.write(guest, out)? {
            break;
        }
    }
    digest.bytes(out);
    out.clear();
    digest.number(frontend.held(guest) as u64);
    Ok(())
}

fn turn(
    alloc: Global,
    frontend: &mut Guests,
    servers: &mut ClusterServers<Link>,
    pieces: &[Vec<u8>],
    out: &mut Vec<u8>,
    digest: &mut Digest,
) -> Result<()> {
    for (guest, piece) in pieces.iter().enumerate() {
        hear(alloc, frontend, guest, piece)?;
    }
    frontend.turn(alloc, servers)?;
    for guest in 0..pieces.len() {
        write(frontend, guest, out, digest)?;
    }
    Ok(())
}

/// Serves 50 to 1,000 guests for some turns, over a cluster of 3 to 6 primaries.
pub fn serve(
    alloc: Global,
    numbers: &mut Numbers,
    round: usize,
    digest: &mut Digest,
) -> Result<()> {
    let layout = Layout {
        nodes: numbers.between(3, 7),
        ranges: numbers.between(6, 101),
    };
    let count = GUESTS.get(round % 4).copied().unwrap_or(50);
    let mut client = client(alloc, numbers, layout, 1)?;
    let Scene {
        alloc: _,
        layout: _,
        pool: _,
        sent: bytes,
        replies,
        late: _,
    } = make_scene(alloc, numbers, layout, count)?;
    relink(alloc, &mut client, replies, PIECE, digest)?;
    let mut frontend = guests(alloc, count)?;
    let mut servers = ClusterServers::new(client);
    let mut out = Vec::new(alloc);
    let count = if count == 0 { 1 } else { count };
    for pieces in bytes.chunks(count) {
        turn(alloc, &mut frontend, &mut servers, pieces, &mut out, digest)?;
    }
    let ClusterServers { client, .. } = servers;
    sent(alloc, client, digest)
}
