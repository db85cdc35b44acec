//! Links over a reader and a writer of std of which one fails once: each call of a device is one call there, and
//! behind a refused one nothing more is called.
use crate::tests::links::int_of;
use resp_link::*;
use std::alloc::Global;
use std::io::{Error, ErrorKind, Read, Write};
use std::test::*;

pub(crate) const REPLY: &[u8] = b":7\r\n";

// It fails at the call with one number, and counts its calls and the flushes among them. A read gives one byte of the
// reply, the one with the number of the call, and a write takes one byte.
#[derive(Drop)]
pub(crate) struct FailsOnce {
    fails_at: usize,
    calls: usize,
    flushes: usize,
}

impl FailsOnce {
    pub(crate) fn new(fails_at: usize) -> FailsOnce {
        FailsOnce {
            fails_at,
            calls: 0,
            flushes: 0,
        }
    }

    fn call(&mut self) -> std::io::Result<usize> {
        self.calls = self.calls.saturating_add(1);
        if self.calls == self.fails_at {
            return Err(Error::from(ErrorKind::Interrupted));
        }
        Ok(self.calls)
    }
}

impl Read for FailsOnce {
    fn read(&mut self, buf: &mut [u8]) -> std::io::Result<usize> {
        let call = self.call()?;
        match (buf.first_mut(), REPLY.get(call.saturating_sub(1))) {
            (Some(room), Some(byte)) => {
                *room = *byte;
                Ok(1)
            }
            _ => Ok(0),
        }
    }
}

impl Write for FailsOnce {
    fn write(&mut self, buf: &[u8]) -> std::io::Result<usize> {
        self.call()?;
        Ok(buf.len().min(1))
    }

    fn flush(&mut self) -> std::io::Result<()> {
        self.flushes = self.flushes.saturating_add(1);
        self.call()?;
        Ok(())
    }
}

// Which call of the writer and which of the reader fails, none where it is 0; then how many calls there were: of
// the writer, of these flushes, and of the reader.
type Row = (usize, usize, (usize, usize, usize));

// Two writes of a byte and a flush send the request, and four reads of a byte take the reply.
const ROWS: [Row; 8] = [
    (0, 0, (3, 1, 4)),
    (1, 0, (1, 0, 0)),
    (2, 0, (2, 0, 0)),
    (3, 0, (3, 1, 0)),
    (0, 1, (3, 1, 1)),
    (0, 2, (3, 1, 2)),
    (0, 3, (3, 1, 3)),
    (0, 4, (3, 1, 4)),
];

/// Whether a call that fails so is refused where it fails, and the closed link calls nothing more.
fn holds(alloc: Global, row: Row) -> bool {
    let (write, read, calls) = row;
    let reader = FromRead::new(FailsOnce::new(read));
    let writer = FromWrite::new(FailsOnce::new(write));
    let mut link = ByteLink::new(alloc, reader, writer);
    let answer = int_of(link.req_packed_command(alloc, b"ab"));
    let is_open = link.is_open();
    if !is_open && link.req_packed_command(alloc, b"c").is_ok() {
        return false;
    }
    let (reader, writer) = link.into_parts();
    let (reader, writer) = (reader.into_inner(), writer.into_inner());
    let is_whole = write == 0 && read == 0;
    is_open == is_whole
        && answer == if is_whole { Some(7) } else { None }
        && (writer.calls, writer.flushes, reader.calls) == calls
}

#[test]
fn nothing_is_called_behind_a_refused_call(rt: HostRuntime) {
    let alloc = rt.alloc();
    for row in ROWS {
        assert!(rt; holds(alloc, row), "write {}, read {}", row.0, row.1);
    }
}
