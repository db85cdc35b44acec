//! A work queue: streams that a group of workers shares.
use crate::cluster::{Layout, Link, PIECE, client, relink, sent, silence};
use crate::digest::Digest;
use crate::entries::{FIELDS, digest_of, id, push_entries};
use crate::inputs::{Pool, push_head};
use crate::random::Numbers;
use anyhow::Result;
use cluster_client::{
    ClusterClient, StreamAddOptions, StreamAutoClaimOptions, StreamClaimOptions, StreamReadOptions,
    StreamTrimOptions, StreamTrimmingMode, command,
};
use std::alloc::Global;

const GROUP: &str = "workers";

/// How many jobs a round adds.
const JOBS: usize = 200;

/// The queue of a round: its streams, which share a slot, and what their node replies.
#[derive(Drop)]
struct Queue {
    alloc: Global,
    streams: Vec<String>,
    replies: Vec<u8>,
}

/// How many entries each call of a round hands out.
#[derive(Clone, Copy)]
struct Counts {
    read: usize,
    ranged: usize,
    claimed: usize,
    taken_over: usize,
}

impl Queue {
    /// Puts the reply to a read of all streams behind the others, each with so many entries.
    fn reply_to_read(
        &mut self,
        numbers: &mut Numbers,
        pool: &Pool,
        count: usize,
        is_claimed: bool,
    ) -> Result<()> {
        push_head(&mut self.replies, b'*', self.streams.len())?;
        for stream in &self.streams {
            self.replies.extend_from_slice(b"*2\r\n")?;
            pool.push_bulk(&mut self.replies, stream.as_bytes())?;
            push_entries(
                self.alloc,
                &mut self.replies,
                numbers,
                pool,
                count,
                is_claimed,
            )?;
        }
        Ok(())
    }

    /// What the node replies to a round.
    fn reply(
        &mut self,
        numbers: &mut Numbers,
        pool: &Pool,
        ids: &[Vec<u8>],
        counts: Counts,
        is_claimed: bool,
    ) -> Result<()> {
        for id in ids {
            pool.push_bulk(&mut self.replies, id)?;
        }
        self.reply_to_read(numbers, pool, counts.read, is_claimed)?;
        push_head(&mut self.replies, b':', ids.len())?;
        push_entries(
            self.alloc,
            &mut self.replies,
            numbers,
            pool,
            counts.ranged,
            false,
        )?;
        push_entries(
            self.alloc,
            &mut self.replies,
            numbers,
            pool,
            counts.claimed,
            false,
        )?;
        self.replies.extend_from_slice(b"*3\r\n$3\r\n0-0\r\n")?;
        push_entries(
            self.alloc,
            &mut self.replies,
            numbers,
            pool,
            counts.taken_over,
            false,
        )?;
        self.replies.extend_from_slice(b"*0\r\n:17\r\n")?;
        Ok(())
    }

    fn first(&self) -> &str {
        match self.streams.first() {
            Some(stream) => stream.as_str(),
            None => "jobs",
        }
    }
}

fn make_queue(alloc: Global, numbers: &mut Numbers) -> Result<Queue> {
    let mut streams = Vec::new(alloc);
    let number = numbers.any() % 1_000_000;
    for place in 0..numbers.between(1, 11) {
        streams.push(format!(in alloc; "{{jobs:{number}}}:{place}")?)?;
    }
    Ok(Queue {
        alloc,
        streams,
        replies: Vec::new(alloc),
    })
}

/// Adds jobs, each with some fields.
fn add(
    queue: &Queue,
    client: &mut ClusterClient<Link>,
    numbers: &mut Numbers,
    pool: &Pool,
    count: usize,
    digest: &mut Digest,
) -> Result<()> {
    let alloc = queue.alloc;
    for _ in 0..count {
        let mut fields = Vec::new(alloc);
        for name in FIELDS.iter().take(numbers.between(2, 11)) {
            let len = numbers.between(5, 60);
            fields.push((*name, pool.of_len(numbers, len)))?;
        }
        let options = StreamAddOptions::empty();
        let id = client.xadd(alloc, queue.first(), &options, "*", &fields, None)?;
        digest.optional(id.as_ref().map(|id| id.as_bytes()));
    }
    Ok(())
}

/// Hands a worker jobs of all streams.
fn read(
    queue: &Queue,
    client: &mut ClusterClient<Link>,
    count: usize,
    is_claimed: bool,
    digest: &mut Digest,
) -> Result<()> {
    let alloc = queue.alloc;
    let mut streams = Vec::new(alloc);
    for stream in &queue.streams {
        streams.push((stream.as_str(), ">"))?;
    }
    let options = StreamReadOptions::empty().count(count);
    let options = options.group(alloc, GROUP, "anna")?;
    let options = if is_claimed {
        options.claim(60_000)
    } else {
        options
    };
    let reply = client.xread(alloc, &streams, &options, None)?;
    for stream in &reply.keys {
        digest.bytes(stream.key.as_bytes());
        digest_of(alloc, &stream.ids, digest)?;
    }
    Ok(())
}

/// Marks jobs as finished, and looks at the others: all, those of a worker, and those that were left.
fn finish(
    queue: &Queue,
    client: &mut ClusterClient<Link>,
    ids: &[Vec<u8>],
    counts: Counts,
    digest: &mut Digest,
) -> Result<()> {
    let alloc = queue.alloc;
    let stream = queue.first();
    let mut ack = command::cmd(alloc, "XACK")?;
    ack.arg((stream, GROUP))?;
    for id in ids {
        ack.arg(id.as_slice())?;
    }
    let acknowledged: u64 = client.query(alloc, &ack, 0, None)?;
    digest.number(acknowledged);
    let all = client.xrange(alloc, stream, "-", "+", None)?;
    digest_of(alloc, &all.ids, digest)?;
    let claimed = {
        let options = StreamClaimOptions::empty();
        client.xclaim(alloc, stream, GROUP, "bert", 60_000, ids, &options, None)?
    };
    digest_of(alloc, &claimed.ids, digest)?;
    let options = StreamAutoClaimOptions::default().count(counts.taken_over);
    let left = client.xautoclaim(alloc, stream, GROUP, "carl", 60_000, "0-0", &options, None)?;
    digest.bytes(left.next_stream_id.as_bytes());
    digest_of(alloc, &left.claimed, digest)?;
    let trim = StreamTrimOptions::maxlen(StreamTrimmingMode::Approx, 10_000);
    let trimmed = client.xtrim(alloc, stream, &trim, None)?;
    digest.number(trimmed as u64);
    Ok(())
}

/// Adds jobs, hands them out, and finishes some; every third time in the form that tells how often each was delivered.
pub fn take(alloc: Global, numbers: &mut Numbers, digest: &mut Digest) -> Result<()> {
    let layout = Layout {
        nodes: 3,
        ranges: numbers.between(3, 17),
    };
    let pool = Pool::new(alloc, numbers)?;
    let mut client = client(alloc, numbers, layout, 1)?;
    let mut queue = make_queue(alloc, numbers)?;
    let mut ids = Vec::new(alloc);
    for _ in 0..JOBS {
        ids.push(id(alloc, numbers)?)?;
    }
    let is_claimed = numbers.below(3) == 0;
    let streams = queue.streams.len();
    let streams = if streams == 0 { 1 } else { streams };
    let counts = Counts {
        read: numbers.between(300, 1_001) / streams,
        ranged: numbers.between(100, 401),
        claimed: numbers.between(50, 201),
        taken_over: numbers.between(100, 301),
    };
    queue.reply(numbers, &pool, &ids, counts, is_claimed)?;
    let mut replies = silence(alloc, layout.nodes)?;
    if let Some(of) = replies.get_mut(layout.node_of_key(queue.first().as_bytes())) {
        of.extend_from_slice(&queue.replies)?;
    }
    relink(alloc, &mut client, replies, PIECE, digest)?;
    add(&queue, &mut client, numbers, &pool, JOBS, digest)?;
    read(&queue, &mut client, counts.read, is_claimed, digest)?;
    finish(&queue, &mut client, &ids, counts, digest)?;
    sent(alloc, client, digest)
}
