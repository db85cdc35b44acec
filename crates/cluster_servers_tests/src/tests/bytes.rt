//! Guests by their bytes, before a cluster whose nodes' bytes stand in memory.
ghost use Rattle.std.specs.Prelude.{false};

use crate::tests::guests::{Link, client};
use cluster_client::*;
use cluster_servers::{ClusterServers, GuestCommand, Reply};
use proxy_connection::{Connection, Progress, Translator};
use proxy_core::{Entry, Limits, Proxy, Room};
use resp_core::Protocol;
use resp_requests::Fault;
use std::alloc::{AllocError, Global};

/// Two entries of a guest have room.
const LIMITS: Limits = Limits {
    guests: 2,
    share: Room {
        entries: 2,
        bytes: 1000,
    },
};

/// What each guest sends; the key `a` is at n2:7002, and `b` at n1:7001.
const SENT: [&[u8]; 2] = [
    b"*3\r\n$3\r\nSET\r\n$1\r\na\r\n$1\r\n1\r\nEXISTS b\r\nINCR a\r\n",
    b"EXISTS b\r\n",
];
/// What the nodes answer.
const NODES: [&[u8]; 2] = [b":1\r\n:1\r\n", b"+OK\r\n:2\r\n"];
/// What each guest reads then.
pub(crate) const READ: [&[u8]; 2] = [b"+OK\r\n:1\r\n:2\r\n", b":1\r\n"];

/// Every command is asked of the cluster.
#[derive(Drop)]
struct Plain;

impl Translator<GuestCommand, Reply> for Plain {
    ghost translates = { λ old words entry new. Unit {0} };

    ghost refuses = { λ plain fault reply. Unit {0} };

    ghost has_ended = { λ plain. false };

    fn translate(
        &mut self,
        alloc: Global,
        words: &[Vec<u8>],
    ) -> Result<Entry<GuestCommand, Reply>, AllocError> {
        let mut command = Cmd::new(alloc);
        for word in words {
            command.arg(word.as_slice())?;
        }
        let command = GuestCommand::new(alloc, command, Protocol::Resp2)?;
        Ok(Entry::Waits(command))
    }

    fn refuse(&self, alloc: Global, _fault: Fault) -> Result<Reply, AllocError> {
        Ok(Reply::Written(Vec::from_slice(alloc, b"-ERR fault\r\n")?))
    }

    fn has_ended(&self) -> bool {
        false
    }
}

type Guest = Connection<Plain, GuestCommand, Reply>;

type Core = Proxy<GuestCommand, Reply>;

/// A guest, how many of its bytes it sent, and those that it has read.
#[derive(Drop)]
struct Seat {
    guest: Guest,
    count: usize,
    read: Vec<u8>,
}

impl Seat {
    fn new(alloc: Global, proxy: &mut Core) -> Result<Seat, AllocError> {
        let Ok(number) = proxy.join(alloc) else {
            return Err(AllocError);
        };
        let limits = resp_requests::Limits::of_redis();
        Ok(Seat {
            guest: Connection::new(alloc, number, Plain, limits),
            count: 0,
            read: Vec::new(alloc),
        })
    }

    /// Takes so many bytes more of these, and what they ask as far as there is room.
    fn take_in(
        &mut self,
        alloc: Global,
        proxy: &mut Core,
        bytes: &[u8],
        size: usize,
    ) -> Result<(), AllocError> {
        let rest = bytes.get(self.count..).unwrap_or(&[]);
        let count = rest.len().min(size);
        self.guest.feed(&rest[..count])?;
        self.count = self.count.saturating_add(count);
        for _ in 0..9 {
            if self.guest.advance(alloc, proxy)? != Progress::Taken {
                break;
            }
        }
        Ok(())
    }

    /// Writes what is there, a byte at a time.
    fn write_out(&mut self, proxy: &mut Core) -> Result<(), AllocError> {
        for _ in 0..999 {
            if !self.guest.fetch(proxy) {
                break;
            }
            if let Some(byte) = self.guest.output().first() {
                self.read.push(*byte)?;
            }
            self.guest.wrote(1);
        }
        Ok(())
    }
}

/// Both guests, and the proxy before the nodes.
#[derive(Drop)]
pub(crate) struct Scene {
    servers: ClusterServers<Link>,
    proxy: Core,
    first: Seat,
    second: Seat,
}

impl Scene {
    /// The guests before they sent a byte; of what each node answers so many bytes come.
    pub(crate) fn new(alloc: Global, counts: [usize; 2]) -> Result<Scene, RedisError> {
        let first = NODES[0].get(..counts[0]).unwrap_or(&[]);
        let second = NODES[1].get(..counts[1]).unwrap_or(&[]);
        let servers = ClusterServers::new(client(alloc, first, Some(second))?);
        let mut proxy: Core = Proxy::new(alloc, LIMITS);
        let first = Seat::new(alloc, &mut proxy)?;
        let second = Seat::new(alloc, &mut proxy)?;
        Ok(Scene {
            servers,
            proxy,
            first,
            second,
        })
    }

    /// Takes so many bytes of each guest, asks the nodes, and writes what there is. Where memory is refused it may be
    /// called again.
    pub(crate) fn turn(
        &mut self,
        alloc: Global,
        size: usize,
        is_last: bool,
    ) -> Result<(), AllocError> {
        self.servers.patient = !is_last;
        self.first.take_in(alloc, &mut self.proxy, SENT[0], size)?;
        self.second.take_in(alloc, &mut self.proxy, SENT[1], size)?;
        self.proxy.turn(alloc, &mut self.servers)?;
        self.first.write_out(&mut self.proxy)?;
        self.second.write_out(&mut self.proxy)
    }

    /// What each guest read.
    pub(crate) fn read(&self, is_second: bool) -> &[u8] {
        if is_second {
            &self.second.read
        } else {
            &self.first.read
        }
    }
}
