//! The program `example_cache`: a cache on a Redis Cluster.
//!
//! `example_cache FOLDER` opens no socket: what a node answers is read from a file of the folder.
#![tactic(auto)]

use anyhow::{Context, Result};
use cluster_client::{ByteLink, ClusterClient, FromRead, MemoryWriter, NodeAddress, command};
use std::alloc::Global;
use std::env;
use std::fs::File;

/// Each node's address, and the file with its replies.
const NODES: [(&str, &str); 2] = [
    ("127.0.0.1:7001", "7001.replies"),
    ("127.0.0.1:7002", "7002.replies"),
];

/// How many redirects a request follows.
const REDIRECTS: u16 = 5;

/// A link that reads a file, and keeps what is sent. Over a socket it would be a
/// `ByteLink<FromRead<TcpStream>, FromWrite<TcpStream>>`.
type Link = ByteLink<FromRead<File>, MemoryWriter>;

/// Texts at keys, each for some seconds.
#[derive(Drop)]
struct Cache {
    alloc: Global,
    client: ClusterClient<Link>,
}

impl Cache {
    /// A cache over links to all nodes.
    fn open(rt: &HostRuntime, folder: &str) -> Result<Cache> {
        let alloc = rt.alloc();
        let mut links = Vec::new(alloc);
        for (address, file) in NODES {
            let path = format!(in alloc; "{folder}/{file}")?;
            let replies = File::open(rt, path.as_str()).context(file)?;
            let link = ByteLink::new(alloc, FromRead::new(replies), MemoryWriter::new(alloc, 0));
            links.push((NodeAddress::try_from(alloc, address)?, link))?;
        }
        let client = ClusterClient::new(alloc, links, Vec::new(alloc), REDIRECTS)?;
        Ok(Cache { alloc, client })
    }

    /// Learns from the first node which slots the nodes serve.
    fn refresh(&mut self) -> Result<()> {
        let node = NodeAddress::try_from(self.alloc, NODES[0].0)?;
        Ok(self.client.refresh(self.alloc, &node)?)
    }

    /// Keeps a text at a key for so many seconds.
    fn set(&mut self, key: &str, text: &str, seconds: u64) -> Result<()> {
        let mut set = command::cmd(self.alloc, "SET")?;
        set.arg((key, text))?;
        set.arg(("EX", seconds))?;
        Ok(self.client.query(self.alloc, &set, 0, None)?)
    }

    /// The text at a key; `None` where there is none, or its time is over.
    fn get(&mut self, key: &str) -> Result<Option<String>> {
        let mut get = command::cmd(self.alloc, "GET")?;
        get.arg(key)?;
        Ok(self.client.query(self.alloc, &get, 0, None)?)
    }

    /// The same for several keys, whichever nodes serve them.
    fn get_all(&mut self, keys: &[&str]) -> Result<Vec<Option<String>>> {
        let mut mget = command::cmd(self.alloc, "MGET")?;
        mget.arg(keys)?;
        Ok(self.client.query(self.alloc, &mget, 0, None)?)
    }
}

/// Looks a key up, and tells what is there and which nodes were asked.
fn look_up(rt: &HostRuntime, cache: &mut Cache, key: &str) -> Result<()> {
    match cache.get(key)? {
        Some(text) => print!(rt; "{key}: {text}")?,
        None => print!(rt; "{key}: nothing")?,
    }
    for request in cache.client.asked() {
        let node = &request.node;
        print!(rt; ", asked {node}")?;
    }
    println!(rt)?;
    Ok(())
}

/// Looks several keys up with one command, and tells what is there.
fn look_up_all(rt: &HostRuntime, cache: &mut Cache, keys: &[&str]) -> Result<()> {
    let texts = cache.get_all(keys)?;
    for (key, text) in keys.iter().zip(&texts) {
        match text {
            Some(text) => println!(rt; "{key} of several: {text}")?,
            None => println!(rt; "{key} of several: nothing")?,
        }
    }
    Ok(())
}

fn main(rt: HostRuntime) -> Result<()> {
    let folder = env::args(&rt)?.nth(1).context("example_cache FOLDER")?;
    let mut cache = Cache::open(&rt, folder.as_str())?;
    cache.refresh()?;
    cache.set("user:1", "Ada", 60)?;
    cache.set("user:2", "Grace", 60)?;
    cache.set("user:3", "Edsger", 1)?;
    look_up_all(&rt, &mut cache, &["user:1", "user:2", "user:3", "user:4"])?;
    look_up(&rt, &mut cache, "user:3")?;
    look_up(&rt, &mut cache, "user:1")?;
    if cache.client.needs_refresh() {
        cache.refresh()?;
    }
    look_up(&rt, &mut cache, "user:1")
}
