//! The program `example_loader`: it loads the commands of standard input, one a line, in batches.
//!
//! `example_loader FOLDER` opens no socket: what a node answers is read from a file of the folder.
#![tactic(auto)]

use anyhow::{Context, Error, Result};
use cluster_client::{
    ByteLink, ClusterClient, ClusterPipeline, Cmd, FromRead, MemoryWriter, NodeAddress, RedisError,
    ServerError,
};
use std::alloc::Global;
use std::fs::File;
use std::{env, io};

/// Each node's address, and the file with its replies.
const NODES: [(&str, &str); 2] = [
    ("127.0.0.1:7001", "7001.replies"),
    ("127.0.0.1:7002", "7002.replies"),
];

/// How many commands are sent together.
const BATCH: usize = 4;

/// A link that reads a file, and keeps what is sent. Over a socket it would be a
/// `ByteLink<FromRead<TcpStream>, FromWrite<TcpStream>>`.
type Link = ByteLink<FromRead<File>, MemoryWriter>;

/// A client with links to all nodes.
fn connect(rt: &HostRuntime, folder: &str) -> Result<ClusterClient<Link>> {
    let alloc = rt.alloc();
    let mut links = Vec::new(alloc);
    for (address, file) in NODES {
        let path = format!(in alloc; "{folder}/{file}")?;
        let replies = File::open(rt, path.as_str()).context(file)?;
        let link = ByteLink::new(alloc, FromRead::new(replies), MemoryWriter::new(alloc, 0));
        links.push((NodeAddress::try_from(alloc, address)?, link))?;
    }
    // A pipeline follows no redirect.
    Ok(ClusterClient::new(alloc, links, Vec::new(alloc), 0)?)
}

/// Learns which slots the nodes serve.
fn refresh(alloc: Global, client: &mut ClusterClient<Link>) -> Result<()> {
    let node = NodeAddress::try_from(alloc, NODES[0].0)?;
    Ok(client.refresh(alloc, &node)?)
}

/// The command of a line, whose words stand between spaces.
fn command(alloc: Global, line: &str) -> Result<Cmd> {
    let mut command = Cmd::new(alloc);
    for word in line.split_whitespace() {
        command.arg(word)?;
    }
    Ok(command)
}

/// The commands of some lines.
fn pipeline(alloc: Global, lines: &[&str]) -> Result<ClusterPipeline> {
    let mut pipeline = ClusterPipeline::with_capacity(alloc, lines.len())?;
    for line in lines {
        pipeline.add_command(command(alloc, line)?)?;
    }
    Ok(pipeline)
}

/// Tells that a batch was not sent, because of the line at this position.
fn tell_unsent(rt: &HostRuntime, lines: &[&str], position: usize) -> Result<()> {
    let line = lines.get(position).context("no such line")?;
    println!(rt; "nothing sent, as no one node serves: {line}")?;
    Ok(())
}

/// Tells the lines of a batch that servers refused.
fn tell_errors(rt: &HostRuntime, lines: &[&str], errors: &[(usize, ServerError)]) -> Result<()> {
    for (position, error) in errors {
        let line = lines.get(*position).context("no such line")?;
        println!(rt; "refused: {line}: {error}")?;
    }
    Ok(())
}

/// Tells why not all lines of a batch were loaded.
fn tell_refused(rt: &HostRuntime, lines: &[&str], refusal: RedisError) -> Result<()> {
    if let Some(position) = refusal.position() {
        return tell_unsent(rt, lines, position);
    }
    if refusal.code().is_none() {
        return Err(Error::from(refusal));
    }
    let errors = refusal.into_server_errors(rt.alloc())?;
    tell_errors(rt, lines, &errors)
}

/// Loads a batch of lines, and tells how that went.
fn load(rt: &HostRuntime, client: &mut ClusterClient<Link>, lines: &[&str]) -> Result<()> {
    let alloc = rt.alloc();
    let loaded: Result<(), RedisError> = pipeline(alloc, lines)?.query(alloc, client);
    match loaded {
        Ok(()) => println!(rt; "loaded: {} lines", lines.len())?,
        Err(refusal) => tell_refused(rt, lines, refusal)?,
    }
    if client.needs_refresh() {
        refresh(alloc, client)?;
    }
    Ok(())
}

fn main(rt: HostRuntime) -> Result<()> {
    let alloc = rt.alloc();
    let folder = env::args(&rt)?.nth(1).context("example_loader FOLDER")?;
    let text = io::read_to_string(alloc, rt.reader())?;
    let lines: Vec<&str> = text.as_str().lines().collect(alloc)?;
    let mut client = connect(&rt, folder.as_str())?;
    refresh(alloc, &mut client)?;
    for batch in lines.chunks(BATCH) {
        load(&rt, &mut client, batch)?;
    }
    Ok(())
}
