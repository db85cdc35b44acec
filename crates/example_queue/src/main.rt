//! The program `example_queue`: a queue of jobs on a Redis Cluster.
//!
//! `example_queue FOLDER` opens no socket: what a node answers is read from a file of the folder.
#![tactic(auto)]

use anyhow::{Context, Result};
use cluster_client::{
    ByteLink, ClusterClient, FromRead, MemoryWriter, NodeAddress, StreamAddOptions,
    StreamAutoClaimOptions, StreamId, StreamReadOptions, StreamReadReply, command,
};
use std::alloc::Global;
use std::env;
use std::fs::File;

/// Each node's address, and the file with its replies.
const NODES: [(&str, &str); 3] = [
    ("127.0.0.1:7001", "7001.replies"),
    ("127.0.0.1:7002", "7002.replies"),
    ("127.0.0.1:7003", "7003.replies"),
];

/// How many redirects a request follows.
const REDIRECTS: u16 = 5;

/// The stream, and the group whose workers share its jobs.
const STREAM: &str = "jobs";

const GROUP: &str = "workers";

/// A link that reads a file, and keeps what is sent. Over a socket it would be a
/// `ByteLink<FromRead<TcpStream>, FromWrite<TcpStream>>`.
type Link = ByteLink<FromRead<File>, MemoryWriter>;

/// Jobs that each go to one worker, and to another one if that does not finish it.
#[derive(Drop)]
struct Queue {
    alloc: Global,
    client: ClusterClient<Link>,
}

/// The stream in which a worker tells what it finished. Its slot goes by the worker's name.
fn done_by(alloc: Global, worker: &str) -> Result<String> {
    Ok(format!(in alloc; "done:{worker}")?)
}

impl Queue {
    /// A queue over links to all nodes, without a stream yet.
    fn open(rt: &HostRuntime, folder: &str) -> Result<Queue> {
        let alloc = rt.alloc();
        let mut links = Vec::new(alloc);
        for (address, file) in NODES {
            let path = format!(in alloc; "{folder}/{file}")?;
            let replies = File::open(rt, path.as_str()).context(file)?;
            let link = ByteLink::new(alloc, FromRead::new(replies), MemoryWriter::new(alloc, 0));
            links.push((NodeAddress::try_from(alloc, address)?, link))?;
        }
        let client = ClusterClient::new(alloc, links, Vec::new(alloc), REDIRECTS)?;
        Ok(Queue { alloc, client })
    }

    /// Learns from the first node which slots the nodes serve.
    fn refresh(&mut self) -> Result<()> {
        let node = NodeAddress::try_from(self.alloc, NODES[0].0)?;
        Ok(self.client.refresh(self.alloc, &node)?)
    }

    /// Makes the stream and the group.
    fn create(&mut self) -> Result<()> {
        let mut create = command::cmd(self.alloc, "XGROUP")?;
        create.arg(("CREATE", STREAM, GROUP))?;
        create.arg(("$", "MKSTREAM"))?;
        Ok(self.client.query(self.alloc, &create, 0, None)?)
    }

    /// Adds a task to a stream, and answers its id.
    fn add_to(&mut self, stream: &str, task: &str) -> Result<String> {
        let client = &mut self.client;
        let options = StreamAddOptions::empty();
        let id = client.xadd(self.alloc, stream, &options, "*", &[("task", task)], None)?;
        id.context("there is no stream")
    }

    /// Adds a job, and answers its id.
    fn add(&mut self, task: &str) -> Result<String> {
        self.add_to(STREAM, task)
    }

    /// Hands a worker the next job.
    fn take(&mut self, worker: &str) -> Result<Vec<StreamId>> {
        let options = StreamReadOptions::empty().count(1);
        let options = options.group(self.alloc, GROUP, worker)?;
        let streams = [(STREAM, ">")];
        let mut reply = self.client.xread(self.alloc, &streams, &options, None)?;
        Ok(reply.keys.pop().context("there is no job")?.ids)
    }

    /// Hands a worker the jobs that were taken a second ago or earlier, and not finished.
    fn take_over(&mut self, worker: &str) -> Result<Vec<StreamId>> {
        let (client, alloc) = (&mut self.client, self.alloc);
        let options = StreamAutoClaimOptions::default();
        let reply = client.xautoclaim(alloc, STREAM, GROUP, worker, 1000, "0-0", &options, None)?;
        Ok(reply.claimed)
    }

    /// Marks a job as finished, and tells so in the worker's stream.
    fn finish(&mut self, worker: &str, id: &str, task: &str) -> Result<()> {
        let mut ack = command::cmd(self.alloc, "XACK")?;
        ack.arg((STREAM, GROUP, id))?;
        let () = self.client.query(self.alloc, &ack, 0, None)?;
        let stream = done_by(self.alloc, worker)?;
        self.add_to(stream.as_str(), task)?;
        Ok(())
    }

    /// What each of these workers finished, from all their streams at once, whichever nodes serve them.
    fn finished(&mut self, workers: &[&str]) -> Result<StreamReadReply> {
        let mut streams = Vec::new(self.alloc);
        for worker in workers {
            streams.push((done_by(self.alloc, worker)?, "0"))?;
        }
        let options = StreamReadOptions::empty();
        Ok(self.client.xread(self.alloc, &streams, &options, None)?)
    }
}

/// A worker does a job, and finishes it.
fn work_on(rt: &HostRuntime, queue: &mut Queue, worker: &str, job: &StreamId) -> Result<()> {
    let task = job.get::<String>("task")?.context("a job without a task")?;
    queue.finish(worker, job.id.as_str(), task.as_str())?;
    println!(rt; "{worker} finished {}: {task}", job.id)?;
    Ok(())
}

/// A worker does jobs, one after another.
fn work(rt: &HostRuntime, queue: &mut Queue, worker: &str, jobs: &[StreamId]) -> Result<()> {
    for job in jobs {
        work_on(rt, queue, worker, job)?;
    }
    Ok(())
}

/// Tells how many jobs each worker finished.
fn tell(rt: &HostRuntime, queue: &mut Queue, workers: &[&str]) -> Result<()> {
    for row in queue.finished(workers)?.keys {
        println!(rt; "{}: {} in all", row.key, row.ids.len())?;
    }
    Ok(())
}

fn main(rt: HostRuntime) -> Result<()> {
    let folder = env::args(&rt)?.nth(1).context("example_queue FOLDER")?;
    let mut queue = Queue::open(&rt, folder.as_str())?;
    queue.refresh()?;
    queue.create()?;
    for task in ["resize a photo", "send a letter", "count visits"] {
        println!(rt; "added {}: {task}", queue.add(task)?)?;
    }
    let photo = queue.take("anna")?;
    work(&rt, &mut queue, "anna", &photo)?;
    let lost = queue.take("anna")?;
    println!(rt; "anna took {} more, and is not heard of again", lost.len())?;
    let visits = queue.take("bert")?;
    work(&rt, &mut queue, "bert", &visits)?;
    let left = queue.take_over("bert")?;
    work(&rt, &mut queue, "bert", &left)?;
    tell(&rt, &mut queue, &["anna", "bert", "carl"])
}
