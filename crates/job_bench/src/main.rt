//! The program `job_bench`: the jobs that users of this library wait for, each on inputs that it makes itself.
//!
//! Its arguments are a job (`proxy`, `load`, `cache`, `queue`, `nodes` or `pieces`, or `all` of them), a number from which
//! all inputs follow, and how many rounds. It prints a digest of all that its calls answered and sent, and no time. Its status is
//! 1 where the arguments are others or memory was refused.
#![tactic(auto)]

use anyhow::{Context, Result, bail};
use std::alloc::Global;
use std::env;

mod cache;
mod cluster;
mod digest;
mod entries;
mod inputs;
mod load;
mod nodes;
mod pieces;
mod proxy;
mod queue;
mod random;
mod words;

use digest::Digest;
use random::Numbers;

/// The jobs, each a word.
const JOBS: [&str; 6] = ["proxy", "load", "cache", "queue", "nodes", "pieces"];

/// Does a job once.
fn work_once(
    alloc: Global,
    job: &str,
    numbers: &mut Numbers,
    round: usize,
    digest: &mut Digest,
) -> Result<()> {
    match job {
        "proxy" => proxy::serve(alloc, numbers, round, digest),
        "load" => load::load(alloc, numbers, digest),
        "cache" => cache::look_up(alloc, numbers, digest),
        "queue" => queue::take(alloc, numbers, digest),
        "nodes" => nodes::ask(alloc, numbers, digest),
        "pieces" => pieces::read(alloc, numbers, digest),
        _ => bail!("no job of that name"),
    }
}

/// Does a job so many times, each time on other inputs; `all` is each job in turn.
fn work(alloc: Global, job: &str, numbers: &mut Numbers, rounds: usize) -> Result<Digest> {
    let mut digest = Digest::new();
    for round in 0..rounds {
        if job != "all" {
            work_once(alloc, job, numbers, round, &mut digest)?;
            continue;
        }
        for one in JOBS {
            work_once(alloc, one, numbers, round, &mut digest)?;
        }
    }
    Ok(digest)
}

fn main(rt: HostRuntime) -> Result<()> {
    let mut arguments = env::args(&rt)?.skip(1);
    let job = arguments.next().context("which job?")?;
    let seed = arguments.next().context("which number?")?;
    let seed = seed.parse::<u64>().ok().context("which number?")?;
    let rounds = arguments.next().context("how many rounds?")?;
    let rounds = rounds.parse::<usize>().ok().context("how many rounds?")?;
    let mut numbers = Numbers::new(seed);
    let digest = work(rt.alloc(), job.as_str(), &mut numbers, rounds)?;
    println!(rt;
        "{job} {:016x} of {} results",
        digest.value(),
        digest.count()
    )?;
    Ok(())
}
