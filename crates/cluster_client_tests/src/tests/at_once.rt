//! A pipeline over nodes whose devices write down who did what, in which order.
use crate::tests::each_position::{THIRDS, outcomes_text, pipeline_of};
use clients_for_tests::node;
use cluster_client::*;
use resp_link::{FromRead, FromWrite};
use std::alloc::{AllocError, Global};
use std::cell::Cell;
use std::io::{Cursor, Error, ErrorKind, Read, Write};
use std::process::Abort;
use std::rc::Rc;
use std::test::Fail;

/// A way in which a node fails.
#[derive(Clone, Copy)]
enum Failing {
    Never,
    AtWrite,
    AtFlush,
    AtRead,
}

const WRITE: u64 = 0;

const READ: u64 = 8;

/// A device of the node with a number. It writes a digit behind the others for each write, that number, and for
/// each read, 8 more.
#[derive(Drop)]
struct Device {
    number: u64,
    notes: Rc<Cell<u64>>,
    bytes: Cursor<Vec<u8>>,
    failing: Failing,
}

impl Device {
    fn note(&self, what: u64) {
        self.notes
            .set(self.notes.get().wrapping_mul(16) | what | self.number);
    }
}

impl Read for Device {
    fn read(&mut self, buf: &mut [u8]) -> std::io::Result<usize> {
        self.note(READ);
        match self.failing {
            Failing::AtRead => Err(Error::from(ErrorKind::Other)),
            _ => self.bytes.read(buf),
        }
    }
}

impl Write for Device {
    fn write(&mut self, buf: &[u8]) -> std::io::Result<usize> {
        self.note(WRITE);
        match self.failing {
            Failing::AtWrite => Err(Error::from(ErrorKind::Other)),
            _ => Ok(buf.len()),
        }
    }

    fn flush(&mut self) -> std::io::Result<()> {
        match self.failing {
            Failing::AtFlush => Err(Error::from(ErrorKind::Other)),
            _ => Ok(()),
        }
    }
}

type Link = ByteLink<FromRead<Device>, FromWrite<Device>>;

/// The device of the node with this number, from which these bytes come.
fn device_of(
    alloc: Global,
    number: u64,
    notes: &Rc<Cell<u64>>,
    bytes: &[u8],
    failing: Failing,
) -> Result<Device, AllocError> {
    Ok(Device {
        number,
        notes: notes.clone()?,
        bytes: Cursor::new(Vec::from_slice(alloc, bytes)?),
        failing,
    })
}

/// A node: its number and its address, the bytes that come from it, and how it fails.
type Row<'a> = (u64, &'a str, &'a [u8], Failing);

fn add_link(
    alloc: Global,
    links: &mut Vec<(NodeAddress, Link)>,
    notes: &Rc<Cell<u64>>,
    row: Row<'_>,
) -> Result<(), RedisError> {
    let (number, address, bytes, failing) = row;
    let reader = device_of(alloc, number, notes, bytes, failing)?;
    let writer = device_of(alloc, number, notes, b"", failing)?;
    let link = ByteLink::new(alloc, FromRead::new(reader), FromWrite::new(writer));
    links.push((node(alloc, address)?, link))?;
    Ok(())
}

/// A client of three nodes, of which the one in the middle sends these bytes and fails so. It learned their slots from
/// a fourth.
fn client(
    alloc: Global,
    notes: &Rc<Cell<u64>>,
    bytes: &[u8],
    failing: Failing,
) -> Result<ClusterClient<Link>, RedisError> {
    let rows: [Row<'_>; 4] = [
        (1, "n1:7001", b":1\r\n", Failing::Never),
        (2, "n2:7002", bytes, failing),
        (3, "n3:7003", b":3\r\n", Failing::Never),
        (4, "n4:7004", THIRDS, Failing::Never),
    ];
    let mut links = Vec::new(alloc);
    for row in rows {
        add_link(alloc, &mut links, notes, row)?;
    }
    let mut client = ClusterClient::new(alloc, links, Vec::new(alloc), 3)?;
    client.refresh(alloc, &node(alloc, "n4:7004")?)?;
    notes.set(0);
    Ok(client)
}

/// What is told of `GET b`, `GET c` and `GET a`, whose nodes are the three in this order.
fn told(alloc: Global, client: &mut ClusterClient<Link>) -> Result<String, RedisError> {
    let pipeline = pipeline_of(alloc, &["GET b", "GET c", "GET a"])?;
    outcomes_text(alloc, &pipeline.query_each(alloc, client)?)
}

fn plays<R: Abort>(
    rt: &R,
    alloc: Global,
    bytes: &[u8],
    failing: Failing,
    wanted: &str,
    order: u64,
) -> Result<(), Fail> {
    let notes = Rc::new(alloc, Cell::new(0))?;
    let mut client = client(alloc, &notes, bytes, failing)?;
    assert_eq!(rt; told(alloc, &mut client)?.as_str(), wanted);
    assert_eq!(rt; notes.get(), order);
    Ok(())
}

/// Each node's write stands before the first read, and the reads are in the same order.
#[test]
fn all_is_written_before_the_first_read(rt: HostRuntime) -> Result<(), Fail> {
    plays(
        &rt,
        rt.alloc(),
        b":2\r\n",
        Failing::Never,
        "1, 2, 3",
        0x1239ab,
    )
}

/// However the node in the middle fails, the values of the others are told.
#[test]
fn a_node_that_fails_changes_nothing_for_the_others(rt: HostRuntime) -> Result<(), Fail> {
    let alloc = rt.alloc();
    plays(&rt, alloc, b":2\r\n", Failing::AtWrite, "1, 14, 3", 0x1239b)?;
    plays(&rt, alloc, b":2\r\n", Failing::AtFlush, "1, 14, 3", 0x1239b)?;
    plays(&rt, alloc, b":2\r\n", Failing::AtRead, "1, 14, 3", 0x1239ab)?;
    plays(&rt, alloc, b"", Failing::Never, "1, 14, 3", 0x1239ab)?;
    plays(&rt, alloc, b"?\r\n", Failing::Never, "1, 15, 3", 0x1239ab)?;
    Ok(())
}
