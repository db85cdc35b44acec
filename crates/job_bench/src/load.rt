//! A bulk loader: thousands of commands in one pipeline.
use crate::cluster::{Layout, PIECE, client, of_node, relink, sent, silence};
use crate::digest::Digest;
use crate::inputs::{Pool, key};
use crate::random::Numbers;
use anyhow::Result;
use cluster_client::{ClusterPipeline, command};
use std::alloc::Global;

/// What a pipeline does.
#[derive(Clone, Copy)]
enum Job {
    /// It sets keys.
    Load,
    /// It gets keys, of which every tenth is missing.
    Read,
    /// It gets, counts up and deletes keys, of which some hold values of another kind.
    Mixed,
}

/// A pipeline, and what each node replies to it.
#[derive(Drop)]
struct Batch {
    pipeline: ClusterPipeline,
    replies: Vec<Vec<u8>>,
}

impl Batch {
    /// Adds a command of a job.
    fn add(
        &mut self,
        alloc: Global,
        numbers: &mut Numbers,
        pool: &Pool,
        layout: Layout,
        job: Job,
    ) -> Result<()> {
        let key = key(alloc, numbers)?;
        let node = layout.node_of_key(&key);
        let name = match (job, numbers.below(10)) {
            (Job::Load, _) => "SET",
            (Job::Read, _) => "GET",
            (Job::Mixed, 0..=6) => "GET",
            (Job::Mixed, 7 | 8) => "INCR",
            _ => "DEL",
        };
        let mut cmd = command::cmd(alloc, name)?;
        cmd.arg(key.as_slice())?;
        if name == "SET" {
            cmd.arg(pool.value(numbers))?;
        }
        self.pipeline.add_command(cmd)?;
        let luck = numbers.below(50);
        match (job, name) {
            (Job::Load, _) => of_node(&mut self.replies, node, b"+OK\r\n"),
            (Job::Mixed, "GET" | "INCR") if luck == 0 => of_node(
                &mut self.replies,
                node,
                b"-WRONGTYPE Operation against a key holding the wrong kind of value\r\n",
            ),
            (_, "GET") if luck % 10 == 9 => of_node(&mut self.replies, node, b"$-1\r\n"),
            (_, "GET") => match self.replies.get_mut(node) {
                Some(of) => pool.push_bulk(of, pool.value(numbers)),
                None => Ok(()),
            },
            (_, "INCR") => of_node(&mut self.replies, node, b":1729\r\n"),
            _ => of_node(&mut self.replies, node, b":1\r\n"),
        }
    }
}

/// Makes a pipeline of 1,000 to 10,000 commands of a job.
fn make_batch(
    alloc: Global,
    numbers: &mut Numbers,
    pool: &Pool,
    layout: Layout,
    job: Job,
) -> Result<Batch> {
    let count = numbers.between(1_000, 10_001);
    let mut batch = Batch {
        pipeline: ClusterPipeline::with_capacity(alloc, count)?,
        replies: silence(alloc, layout.nodes)?,
    };
    for _ in 0..count {
        batch.add(alloc, numbers, pool, layout, job)?;
    }
    Ok(batch)
}

/// Loads keys, reads keys, and does several things, each by one pipeline, over a cluster of 3 to 6 primaries and up to
/// 100 ranges.
pub fn load(alloc: Global, numbers: &mut Numbers, digest: &mut Digest) -> Result<()> {
    let layout = Layout {
        nodes: numbers.between(3, 7),
        ranges: numbers.between(6, 101),
    };
    let pool = Pool::new(alloc, numbers)?;
    let mut client = client(alloc, numbers, layout, 1)?;
    for job in [Job::Load, Job::Read, Job::Mixed] {
        let Batch { pipeline, replies } = make_batch(alloc, numbers, &pool, layout, job)?;
        relink(alloc, &mut client, replies, PIECE, digest)?;
        match job {
            Job::Load => {
                let () = pipeline.query(alloc, &mut client)?;
                digest.number(client.asked().len() as u64);
            }
            Job::Read => {
                let values: Vec<Option<Vec<u8>>> = pipeline.query(alloc, &mut client)?;
                for value in &values {
                    digest.optional(value.as_ref().map(|bytes| bytes.as_slice()));
                }
            }
            Job::Mixed => {
                for outcome in &pipeline.query_each(alloc, &mut client)? {
                    digest.outcome(alloc, outcome)?;
                }
            }
        }
    }
    sent(alloc, client, digest)
}
