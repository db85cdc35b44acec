//! A link that lives long.
ghost use Rattle.std.specs.Prelude.{◌≤◌, length};

use resp_core::{RedisError, Value};
use resp_link::*;
use std::alloc::{AllocError, Global};
use std::io::Read;
use std::test::*;

// The bytes of each reply and their line, and how many replies are asked for.
const SIZE: usize = 1_000_000;

const LINE: &[u8] = b"$1000000\r\n";

const REPLIES: u32 = 1100;

const GIGABYTE: u64 = 1 << 30;

// A reader of std that gives a text again and again, without an end, and counts the bytes. It fills
// whatever it is handed, so that a read has the end of one text and the beginning of the next.
#[derive(Drop)]
struct Again {
    text: Vec<u8>,
    at: usize,
    given: u64,
    ghost within: { at ≤ length text.items },
}

impl Again {
    fn new(text: Vec<u8>) -> Again {
        Again {
            text,
            at: 0,
            given: 0,
        }
    }

    /// What is left of the text, as far as there is room; behind its end it begins anew.
    fn give(&mut self, room: &mut [u8]) -> usize
        ensures { result ≤ length room.new }
    {
        let rest = &self.text[self.at..];
        let count = rest.len().min(room.len());
        room[..count].copy_from_slice(&rest[..count]);
        self.given = self.given.saturating_add(count as u64);
        self.at += count;
        if self.at == self.text.len() {
            self.at = 0;
        }
        count
    }
}

impl Read for Again {
    fn read(&mut self, buf: &mut [u8]) -> std::io::Result<usize> {
        let end = self.give(buf);
        let begin = self.give(&mut buf[end..]);
        Ok(end + begin)
    }
}

fn bulk_string(alloc: Global) -> Result<Vec<u8>, AllocError> {
    let mut text = Vec::from_slice(alloc, LINE)?;
    text.resize(LINE.len() + SIZE, b'x')?;
    text.extend_from_slice(b"\r\n")?;
    Ok(text)
}

fn link_over(alloc: Global, text: Vec<u8>) -> ByteLink<FromRead<Again>, FromWrite<Vec<u8>>> {
    let reader = FromRead::new(Again::new(text));
    ByteLink::new(alloc, reader, FromWrite::new(Vec::new(alloc)))
}

fn has_the_size(reply: Result<Value, RedisError>) -> bool {
    match reply {
        Ok(Value::BulkString(bytes)) => bytes.len() == SIZE,
        _ => false,
    }
}

/// How many of the replies have the size.
fn count_of_replies(
    alloc: Global,
    link: &mut ByteLink<FromRead<Again>, FromWrite<Vec<u8>>>,
) -> u32 {
    let mut count = 0u32;
    for _ in 0..REPLIES {
        if has_the_size(link.req_packed_command(alloc, b"a")) {
            count = count.saturating_add(1);
        }
    }
    count
}

/// What was handed out is not kept: `tools/little-memory` plays this with 256 MB of addresses.
#[test]
fn a_link_lives_through_a_gigabyte(rt: HostRuntime) -> Result<(), Fail> {
    let alloc = rt.alloc();
    let mut link = link_over(alloc, bulk_string(alloc)?);
    assert_eq!(rt; count_of_replies(alloc, &mut link), REPLIES);
    assert!(rt; link.is_open());
    assert_eq!(rt; link.pushes().len(), 0);
    let (reader, _writer) = link.into_parts();
    assert!(rt; reader.into_inner().given >= GIGABYTE);
    Ok(())
}
