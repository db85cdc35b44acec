//! The program `live`: it reads commands from standard input, one a line as `redis-cli` takes them,
//! and sends each to the nodes of a Redis Cluster that serve it.
//!
//! `live FOLDER [--raw]` opens no socket. The file `nodes` of the folder lists the nodes, `host:port`
//! a line. For each node the folder has pairs of FIFOs, `host:port.0.to` and `host:port.0.from`, then
//! `.1.`, and so on: another program joins each pair to a socket of the node. A pair is used until it
//! fails; then the next one of that node takes its place, and the other nodes keep theirs.
//!
//! The commands between the lines `pipeline` and `end` go out as one pipeline.
#![tactic(auto)]

mod print;
mod session;
mod words;

use anyhow::Result;

fn main(rt: HostRuntime) -> Result<()> {
    session::serve(&rt)
}
