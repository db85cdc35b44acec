//! Devices and links over readers and writers of std.
use crate::tests::failing_once::{FailsOnce, REPLY};
use crate::tests::links::int_of;
use resp_core::{LinkRead, Refused};
use resp_link::*;
use std::alloc::Global;
use std::io::Write;
use std::test::*;

/// No clause ties the wrappers to what their readers and writers refuse: each call is one call there,
/// and a refused one is not made again.
#[test]
fn a_reader_of_std_refuses(rt: HostRuntime) {
    let mut device = FromRead::new(FailsOnce::new(2));
    let mut room = [0u8; 2];
    assert_eq!(rt; device.read_some(&mut room), Ok(1));
    assert_eq!(rt; room[0], b':');
    assert_eq!(rt; device.read_some(&mut room), Err(Refused));
    assert_eq!(rt; device.read_some(&mut room), Ok(1));
    assert_eq!(rt; room[0], b'\r');
}

#[test]
fn a_writer_of_std_refuses(rt: HostRuntime) {
    let mut device = FromWrite::new(FailsOnce::new(2));
    assert_eq!(rt; device.write_some(b"abc"), Ok(1));
    assert_eq!(rt; device.write_some(b"bc"), Err(Refused));
    assert_eq!(rt; device.write_some(b"bc"), Ok(1));
    assert_eq!(rt; device.flush(), Ok(()));
    let mut device = FromWrite::new(FailsOnce::new(1));
    assert_eq!(rt; device.flush(), Err(Refused));
    assert_eq!(rt; device.flush(), Ok(()));
}

fn answered(alloc: Global, refused_read: usize, refused_write: usize) -> Option<i64> {
    let reader = FromRead::new(FailsOnce::new(refused_read));
    let writer = FromWrite::new(FailsOnce::new(refused_write));
    let mut link = ByteLink::new(alloc, reader, writer);
    int_of(link.req_packed_command(alloc, b"ab"))
}

/// The second write is refused, the flush, and a read in mid-reply.
#[test]
fn a_link_over_std(rt: HostRuntime) {
    let alloc = rt.alloc();
    assert_eq!(rt; answered(alloc, 0, 0), Some(7));
    assert_eq!(rt; answered(alloc, 0, 2), None);
    assert_eq!(rt; answered(alloc, 0, 3), None);
    assert_eq!(rt; answered(alloc, 3, 0), None);
}

/// A link's devices come back: the writer has the bytes that were sent, and the reader has the text
/// that no call asked for.
#[test]
fn a_link_hands_its_devices_back(rt: HostRuntime) {
    let alloc = rt.alloc();
    let reader = FromRead::new(REPLY);
    let writer = FromWrite::new(Vec::new(alloc));
    let mut link = ByteLink::new(alloc, reader, writer);
    assert!(rt; link.req_packed_commands(alloc, b"ab", 0, 0).is_ok());
    let (reader, writer) = link.into_parts();
    let left = reader.into_inner();
    let written = writer.into_inner();
    assert_eq!(rt; left, REPLY);
    assert_eq!(rt; written.as_slice(), b"ab".as_slice());
}

// A writer of std that takes all that it is given, and counts how often it is flushed.
#[derive(Drop)]
struct Flushed {
    times: usize,
}

impl Write for Flushed {
    fn write(&mut self, buf: &[u8]) -> std::io::Result<usize> {
        Ok(buf.len())
    }

    fn flush(&mut self) -> std::io::Result<()> {
        self.times = self.times.saturating_add(1);
        Ok(())
    }
}

/// No clause ties the wrapper's flush to that of its writer: each call of the link is one flush there,
/// so that nothing waits in a writer that keeps what it is given.
#[test]
fn each_call_flushes_the_writer_of_std(rt: HostRuntime) {
    let alloc = rt.alloc();
    let writer = FromWrite::new(Flushed { times: 0 });
    let mut link = ByteLink::new(alloc, FromRead::new(REPLY), writer);
    assert!(rt; link.req_packed_commands(alloc, b"ab", 0, 0).is_ok());
    assert!(rt; link.req_packed_commands(alloc, b"c", 0, 0).is_ok());
    let (_reader, writer) = link.into_parts();
    assert_eq!(rt; writer.into_inner().times, 2);
}
