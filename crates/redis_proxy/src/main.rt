//! The program `redis_proxy`: it makes a Redis Cluster look like one server. The guests' bytes come by
//! standard input, and their replies go to standard output.
//!
//! `redis_proxy FOLDER` serves one guest, whose bytes these are. `redis_proxy FOLDER --frames` serves many:
//! the bytes are frames, each of a guest's number and a length, of four bytes with the lowest first, and so
//! many bytes of that guest. A frame of none ends the guest. A frame for the number 4294967295 asks for the
//! time behind so many milliseconds, and one of that number tells it. A frame of none for the number 4294967294
//! says that the program knows the slot map.
//!
//! `redis_proxy FOLDER --frames NUMBER PROGRAMS` is the program of this number, from 0, of so many that stand
//! side by side, each with guests and a folder of its own. Their guests have different ids.
//!
//! It opens no socket. The file `nodes` of the folder lists the nodes, `host:port` a line. For each node the
//! folder has pairs of FIFOs, `host:port.0.to` and `host:port.0.from`, then `.1.`, and so on: another program
//! joins each pair to a socket of the node.
#![tactic(auto)]

mod along;
mod ask;
mod block;
mod cluster;
mod frames;
mod guarded;
mod guest;
mod held;
mod ids;
mod info;
mod last_ids;
mod own;
mod queued;
mod scan;
mod serve;
mod session;
mod side;
mod talk;
mod unblock;
mod waits;
mod way;
mod words;

use anyhow::Result;

fn main(rt: HostRuntime) -> Result<()> {
    serve::serve(&rt)
}
